// A sheet and a table that are not refused: laid out in arrays, and resumed there.
ghost use Rattle.calls.specs.InParts.{Standing};
ghost use Rattle.resume.specs.Outcome.{Outcome};

use run_arrays::arrays::Layout;
use run_layout::outline::Outline;

// Resumes the table's state for at most `limit` rounds more and writes the new state over the old. Whether it has ended.
pub fn resume_in_arrays(o: &Outline, limit: u64, table: &mut [u32]) -> bool
    requires { Standing o.now.sheet.now table.old }
    ensures { Outcome o.now.sheet.now table.old limit result table.new }
{
    let mut layout = Layout::zero();
    run_layout::lay_out(o, &mut layout);
    crate::laid::resume_laid(o, &layout, limit, table)
}
