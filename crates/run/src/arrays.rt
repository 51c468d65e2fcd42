// The run of an accepted sheet: laid out in arrays, and run there.
ghost use Rattle.std.specs.Prelude.{false, ◌≡◌};
ghost use Rattle.calls.specs.Tables.{wrong_length};
ghost use Rattle.run.specs.Outcome.{Outcome};

use run_arrays::arrays::Layout;
use run_layout::outline::Outline;

// Runs the sheet of an outline for at most `limit` rounds and writes its table, in the form whose length it has. Whether the run has ended.
pub fn run_in_arrays(o: &Outline, limit: u64, table: &mut [u32]) -> bool
    requires { wrong_length o.now.sheet.now table.old ≡ false }
    ensures { Outcome o.now.sheet.now limit table.old result table.new }
{
    let mut layout = Layout::zero();
    run_layout::lay_out(o, &mut layout);
    crate::laid::run_laid(o, &layout, limit, table)
}
