// What a run call answers.
ghost use Rattle.std.specs.Prelude.{◌≡◌, if◌then◌else◌};
ghost use Rattle.answer.specs.Answer.{ended, paused};
ghost use Rattle.answer.specs.Said.{run_said};

use crate::Fault;

#[derive(Clone, Copy)]
pub enum Ran {
    Ended,
    Paused,
    Refused(Fault),
}

impl Ran {
    // The answer of a run that is over, or is not.
    pub fn of_status(over: bool) -> Self
        ensures { run_said result ≡ (if over then ended else paused) }
    {
        if over {
            return Ran::Ended;
        }
        Ran::Paused
    }
}
