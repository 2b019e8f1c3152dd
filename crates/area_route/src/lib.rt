// Whether the area route is worth taking: theorems about the sheet's column beside its size column. There is nothing to run.
#![tactic(auto)]
