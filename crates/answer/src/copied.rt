// What the calls that write bytes answer: for the canonical form, and to convert a sheet.
use crate::Fault;

#[derive(Clone, Copy)]
pub enum Copied {
    Written(u32),
    Refused(Fault),
}
