// What holds of every run of an accepted sheet and of the table that it leaves, and the paper's marked cases, in one statement: theorems, proofs/. There is
// no code here.
#![tactic(auto)]
