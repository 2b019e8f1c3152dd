// The exact high impact angle area and what an answer promises of it: definitions in specs/, theorems in proofs/. There is nothing to run.
#![tactic(auto)]
