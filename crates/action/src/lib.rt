#![tactic(auto)]
// The operations: each answers an instruction's action, from what it read.
pub mod accesses;
pub mod completed;
pub mod divisions;
pub mod jumps;
pub mod raised;
pub mod results;
pub mod special;
