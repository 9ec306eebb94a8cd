#![tactic(auto)]
// No code: document 01's marked examples, and the proof that the definitions agree with each, stand in specs/ and
// proofs/.
