#![tactic(auto)]
// Both runs of the engine: what is lent is tested, then run.
pub mod answer;
pub mod fast;
pub mod plain;
