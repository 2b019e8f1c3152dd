// Worked falls: a table that the checker works out, with one claim. There is nothing to run.
#![tactic(auto)]
