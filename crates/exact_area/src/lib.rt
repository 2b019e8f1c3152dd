// The exact area of an aircraft and what the sheet promises of it: definitions in specs/, theorems in proofs/. There is nothing to run:
// the exact area is a fraction that no function of the console computes.
#![tactic(auto)]
