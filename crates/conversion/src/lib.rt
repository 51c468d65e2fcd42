// The converted sheet: definitions in specs/, that it is accepted and keeps its distances in proofs/. No code.
#![tactic(auto)]
