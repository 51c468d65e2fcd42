// What the judge answers.
ghost use Rattle.std.specs.Prelude.{◌≡◌};
ghost use Rattle.answer.specs.Inner.{numbered};
ghost use Rattle.answer.specs.Said.{judge_said};
ghost use Rattle.answer.specs.Reasons.{checked};

use crate::Fault;
use crate::reason::Reason;

#[derive(Clone, Copy)]
pub enum Judged {
    Accepted,
    Refused(Fault),
}

// The answer for the number of a refusal, or for 0.
pub fn of_number(n: u8) -> Judged
    ensures { judge_said result ≡ numbered n }
{
    if n == 0 {
        return Judged::Accepted;
    }
    Judged::Refused(Fault::Input(n))
}

// The answer for what a check of a sheet says.
impl From<Result<(), Reason>> for Judged {
    ghost from_gives = { λ outcome judged. judge_said judged ≡ checked outcome };

    fn from(outcome: Result<(), Reason>) -> Judged {
        match outcome {
            Ok(()) => Judged::Accepted,
            Err(reason) => Judged::Refused(Fault::from(reason)),
        }
    }
}
