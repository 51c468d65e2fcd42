// What holds of resuming: of the state that a longer table stands for, of tables resumed part by part and with other spans: theorems, proofs/. There is no
// code here.
#![tactic(auto)]
