// Definitions and laws of whole-number arithmetic that several crates use.
#![tactic(auto)]
