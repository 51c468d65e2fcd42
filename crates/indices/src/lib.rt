// Definitions over bounded indices and lists, with their laws: specs/ and proofs/. There is no code here.
#![tactic(auto)]
