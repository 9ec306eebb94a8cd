#![tactic(auto)]
// Which word is which instruction: from words to entries and back.
pub mod decoder;
pub mod encoder;
