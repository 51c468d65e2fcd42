// What is laid out, resumed: the table's state entered, worked for at most so many rounds more, and written over the old.
ghost use Rattle.calls.specs.InParts.{Standing};
ghost use Rattle.run_layout.specs.Layout.{Laid};
ghost use Rattle.resume.specs.Outcome.{Outcome};

use run_arrays::arrays::{Layout, Run};
use run_layout::outline::Outline;
use table::lent::LongTable;

// Resumes what is laid out for at most `limit` rounds more. Whether the new state has ended.
pub fn resume_laid(o: &Outline, layout: &Layout, limit: u64, table: &mut [u32]) -> bool
    requires { Standing o.now.sheet.now table.old × Laid o.now.sheet.now layout.now }
    ensures { Outcome o.now.sheet.now table.old limit result table.new }
{
    let mut run = Run::zero();
    run.clear();
    crate::entered::enter_nodes(table, o.sizes.nodes as u16, &mut run);
    crate::entered::enter_counts(table, &mut run.counts);
    let long = LongTable::new(o.sheet, table);
    crate::queues::rebuild(&long, layout, &mut run, o.sizes.regions as u16);
    run_table::finish(layout, &mut run, limit, o.sizes.nodes, table)
}
