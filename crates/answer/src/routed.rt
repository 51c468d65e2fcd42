// What the route reader answers.
use crate::Fault;

#[derive(Clone, Copy)]
pub enum Routed {
    Route(u32),
    NoRoute,
    Refused(Fault),
}
