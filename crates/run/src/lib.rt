// The two run calls: a sheet run to its end, or for at most so many rounds.
#![tactic(auto)]

pub mod arrays;
pub mod laid;

ghost use Rattle.std.specs.Prelude.{◌≡◌, length};
ghost use Rattle.sheet.specs.Sections.{node_count, arc_count};
ghost use Rattle.answer.specs.Answer.{ended};
ghost use Rattle.judgement.specs.Judgement.{Accepted};
ghost use Rattle.procedure.specs.Procedure.{enough_rounds};
ghost use Rattle.calls.specs.Tables.{table_length, long_length, status_says, status_in};
ghost use Rattle.calls.specs.Runs.{run_answer, table_after, Delivered, DeliveredLong};
ghost use Rattle.answer.specs.Said.{run_said};

pub use answer::ran::Ran;
use answer::reason::Reason;
use judge::Judged;
use run_layout::outline::Outline;
use sheet::located::Sheet;

// More rounds than any run has: 2^56.
const ENOUGH_ROUNDS: u64 = 72057594037927936;

// Runs an accepted sheet for at most `limit` rounds.
fn run_accepted(sheet: &[u8], limit: u64, table: &mut [u32]) -> Ran
    requires { Accepted sheet.now }
    ensures { (run_said result ≡ run_answer sheet.now limit table.old)
        × (table.new ≡ table_after sheet.now limit table.old) }
{
    let s = Sheet::new(sheet);
    if table::form::wrong_length(&s, table) {
        return Ran::Refused(Reason::TableLength.into());
    }
    Ran::of_status(crate::arrays::run_in_arrays(&Outline::new(&s), limit, table))
}

// Runs a sheet for at most `limit` rounds.
fn run_judged(sheet: &[u8], limit: u64, table: &mut [u32]) -> Ran
    ensures { (run_said result ≡ run_answer sheet.now limit table.old)
        × (table.new ≡ table_after sheet.now limit table.old) }
{
    let judged = judge::judge(sheet);
    match judged {
        Judged::Refused(fault) => Ran::Refused(fault),
        Judged::Accepted => run_accepted(sheet, limit, table),
    }
}

// Runs a sheet to its end: the answer, and every word of the table afterwards. Where the sheet is accepted and the table has the usual length, or the longer
// one, the run has ended, its table is left as ended, its counts are small, its distances are shortest, and its work is as much as 2026-03 says.
pub fn run(sheet: &[u8], table: &mut [u32]) -> Ran
    ensures { (run_said result ≡ run_answer sheet.now enough_rounds table.old)
        × (table.new ≡ table_after sheet.now enough_rounds table.old)
        × (Accepted sheet.now → length table.old ≡ table_length (node_count sheet.now)
        → Delivered sheet.now enough_rounds table.new × (run_said result ≡ ended) × (status_in table.new ≡ 1))
        × (Accepted sheet.now → length table.old ≡ long_length (node_count sheet.now) (arc_count sheet.now)
        → DeliveredLong sheet.now enough_rounds table.new × (run_said result ≡ ended) × (status_in table.new ≡ 1)) }
{
    run_judged(sheet, ENOUGH_ROUNDS, table)
}

// Runs a sheet for at most so many rounds: the answer, and every word of the table afterwards. Where the sheet is accepted and the table has the
// usual length, or the longer one, the table is what those rounds have reached and the answer what it says, its counts are small, and where it is left as
// ended its distances are shortest and its work is as much as 2026-03 says.
pub fn run_limited(sheet: &[u8], rounds: u32, table: &mut [u32]) -> Ran
    ensures { (run_said result ≡ run_answer sheet.now rounds table.old)
        × (table.new ≡ table_after sheet.now rounds table.old)
        × (Accepted sheet.now → length table.old ≡ table_length (node_count sheet.now)
        → Delivered sheet.now rounds table.new × (run_said result ≡ status_says (status_in table.new)))
        × (Accepted sheet.now → length table.old ≡ long_length (node_count sheet.now) (arc_count sheet.now)
        → DeliveredLong sheet.now rounds table.new × (run_said result ≡ status_says (status_in table.new))) }
{
    run_judged(sheet, u64::from(rounds), table)
}
