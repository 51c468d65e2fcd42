// The number by which the library for C and Rust gives an answer.
ghost use Rattle.std.specs.Prelude.{◌≡◌, ◌^◌, ◌<◌};
ghost use Rattle.answer.specs.Answer.{number_of, refusal_of};
ghost use Rattle.answer.specs.Said.{judge_said, run_said, route_said, copied_said};
ghost use Rattle.answer.specs.Codes.{code_of};
ghost use Rattle.answer.specs.Inner.{figure_of};

use crate::Fault;
use crate::copied::Copied;
use crate::judged::Judged;
use crate::ran::Ran;
use crate::routed::Routed;

const ACCEPTED: u32 = 256;

const PAUSED: u32 = 257;

const ENDED: u32 = 258;

const NO_ROUTE: u32 = 259;

// The code of the empty route; that of a longer one is higher by the count of its arcs.
const ROUTE: u32 = 65536;

// The code of nothing written; that of more is higher by the count of its bytes.
const WRITTEN: u32 = 131072;

impl Fault {
    // The number of the refusal.
    pub fn number(self) -> u8
        ensures { result ≡ number_of (refusal_of self) }
    {
        match self {
            Fault::Input(n) => n,
            Fault::State(n) => n,
        }
    }
}

impl Judged {
    pub fn code(self) -> u32
        ensures { result ≡ code_of (judge_said self) }
    {
        match self {
            Judged::Accepted => ACCEPTED,
            Judged::Refused(fault) => u32::from(fault.number()),
        }
    }
}

impl Ran {
    pub fn code(self) -> u32
        ensures { result ≡ code_of (run_said self) }
    {
        match self {
            Ran::Ended => ENDED,
            Ran::Paused => PAUSED,
            Ran::Refused(fault) => u32::from(fault.number()),
        }
    }
}

impl Routed {
    pub fn code(self) -> u32
        requires { figure_of (route_said self) < 2 ^ 28 }
        ensures { result ≡ code_of (route_said self) }
    {
        match self {
            Routed::Route(arcs) => ROUTE + arcs,
            Routed::NoRoute => NO_ROUTE,
            Routed::Refused(fault) => u32::from(fault.number()),
        }
    }
}

impl Copied {
    pub fn code(self) -> u32
        requires { figure_of (copied_said self) < 2 ^ 28 }
        ensures { result ≡ code_of (copied_said self) }
    {
        match self {
            Copied::Written(bytes) => WRITTEN + bytes,
            Copied::Refused(fault) => u32::from(fault.number()),
        }
    }
}
