// Resuming: so many rounds more from the state that a longer table stands for, with the spans of the sheet that is lent.
#![tactic(auto)]

pub mod arrays;
pub mod entered;
pub mod laid;
pub mod queues;

ghost use Rattle.std.specs.Prelude.{◌≡◌, ℕ, false, MatchResult};
ghost use Rattle.answer.specs.Answer.{refused, is_refused};
ghost use Rattle.answer.specs.Reasons.{refusal_for};
ghost use Rattle.answer.specs.Said.{run_said};
ghost use Rattle.judgement.specs.Judgement.{Accepted};
ghost use Rattle.calls.specs.Resume.{not_long, resume_answer, resume_table, StateKnown, Carried};
ghost use Rattle.calls.specs.InParts.{Standing};

pub use answer::ran::Ran;
use answer::reason::Reason;
use judge::Judged;
use run_layout::outline::Outline;
use sheet::located::Sheet;
use table::lent::LongTable;

// Refusal 32: the table has not the longer length, or is at fault as in 22.
fn not_long(s: &Sheet, table: &[u32]) -> bool
    requires { Accepted s.now }
    ensures { result ≡ not_long s.now table.now }
{
    if !table::form::is_long(s, table) {
        return true;
    }
    table_form::malformed(&LongTable::new(s, table).table)
}

// Why a table is not resumed: 32, or 33, that it is no possible state.
fn check_table(s: &Sheet, table: &[u32]) -> Result<(), Reason>
    requires { Accepted s.now }
    ensures { MatchResult result (λ _. Standing s.now table.now)
        (λ reason. (k : ℕ) → (refused (refusal_for reason) ≡ resume_answer s.now table.now k) × (table.now ≡ resume_table s.now table.now k)) }
{
    if not_long(s, table) {
        return Err(Reason::NotLong);
    }
    if !table_possible::possible(&LongTable::new(s, table)) {
        return Err(Reason::NotPossible);
    }
    Ok(())
}

// Resumes an accepted sheet for at most so many rounds more.
fn resume_accepted(sheet: &[u8], rounds: u32, table: &mut [u32]) -> Ran
    requires { Accepted sheet.now }
    ensures { (run_said result ≡ resume_answer sheet.now table.old rounds)
        × (table.new ≡ resume_table sheet.now table.old rounds) }
{
    let s = Sheet::new(sheet);
    let limit = u64::from(rounds);
    match check_table(&s, table) {
        Err(reason) => Ran::Refused(reason.into()),
        Ok(()) => Ran::of_status(crate::arrays::resume_in_arrays(&Outline::new(&s), limit, table)),
    }
}

// Resumes a run: the answer, and every word of the table afterwards. An answer that is no refusal, and 33, say whether the table is a possible state; where
// the call is not refused the counts are small, and a table left as ended has shortest distances.
pub fn resume(sheet: &[u8], rounds: u32, table: &mut [u32]) -> Ran
    ensures { (run_said result ≡ resume_answer sheet.now table.old rounds)
        × (table.new ≡ resume_table sheet.now table.old rounds)
        × StateKnown sheet.now table.old (run_said result)
        × (is_refused (run_said result) ≡ false → Carried sheet.now table.old rounds) }
{
    let judged = judge::judge(sheet);
    match judged {
        Judged::Refused(fault) => Ran::Refused(fault),
        Judged::Accepted => resume_accepted(sheet, rounds, table),
    }
}
