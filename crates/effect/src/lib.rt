#![tactic(auto)]
// What an instruction reads, its action by value, and the effect that the action has.
pub mod effects;
pub mod state;
pub mod types;
