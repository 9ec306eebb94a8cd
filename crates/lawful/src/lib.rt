#![tactic(auto)]
// Definitions and laws only: what every instruction's effect keeps.
