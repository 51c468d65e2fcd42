// What a call answers: accepted, ended, paused, a route or none, bytes written, or refused, by fault of the input or of the state.
#![tactic(auto)]

pub mod codes;
pub mod copied;
pub mod judged;
pub mod ran;
pub mod reason;
pub mod routed;

// Whether the input or the state was at fault, and the number alone.
#[derive(Clone, Copy)]
pub enum Fault {
    Input(u8),
    State(u8),
}
