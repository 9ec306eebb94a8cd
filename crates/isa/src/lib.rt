#![tactic(auto)]
// The instruction set: its kinds and their layouts, the 64-bit entry of an instruction, and the vectors.
pub mod entry;
pub mod groups;
pub mod kinds;
pub mod register;
pub mod vectors;
