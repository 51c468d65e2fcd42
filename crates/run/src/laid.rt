// The run of what is laid out: started, worked for at most so many rounds, and written into the table.
ghost use Rattle.std.specs.Prelude.{false, ◌≡◌};
ghost use Rattle.calls.specs.Tables.{wrong_length};
ghost use Rattle.run_layout.specs.Layout.{Laid};
ghost use Rattle.run.specs.Outcome.{Outcome};

use run_arrays::arrays::{Layout, Run};
use run_layout::outline::Outline;

// Runs what is laid out for at most `limit` rounds and writes the table. Whether the run has ended.
pub fn run_laid(o: &Outline, layout: &Layout, limit: u64, table: &mut [u32]) -> bool
    requires { (wrong_length o.now.sheet.now table.old ≡ false) × Laid o.now.sheet.now layout.now }
    ensures { Outcome o.now.sheet.now limit table.old result table.new }
{
    let mut run = Run::zero();
    run_engine::rounds::start(layout, &mut run, o.source(), o.sizes.regions as u16);
    run_table::finish(layout, &mut run, limit, o.sizes.nodes, table)
}
