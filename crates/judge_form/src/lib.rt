// Refusals 2 and 4 to 7: the order of kinds and the number of holds, and the limits of nodes, source, spans and of how many words there are.
#![tactic(auto)]

pub mod limits;
pub mod order;
