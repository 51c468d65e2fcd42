// The start of a run, its rounds, and whether it has ended. Each function computes its definition.
ghost use Rattle.std.specs.Prelude.{◌≡◌, false, List, ℕ};
ghost use Rattle.procedure.specs.Graph.{Graph};
ghost use Rattle.procedure.specs.Division.{Division, is_leaf};
ghost use Rattle.procedure.specs.State.{State};
ghost use Rattle.procedure.specs.Procedure.{ended, start, more};
ghost use Rattle.theory.specs.Counts.{Small};
ghost use Rattle.run_arrays.specs.Trees.{QueuesOk, SomeQueue};
ghost use Rattle.run_arrays.specs.States.{Represents, Blank, SomeBlank, SomeRounds};

use run_arrays::arrays::{Layout, Run};
use sheet::{NONE, Node, Region};

// The state before the first round; the run may hold anything. There are `count` regions.
pub fn start(layout: &Layout, run: &mut Run, source: Node, count: u16)
    requires { SomeBlank layout.now source.0 count }
    ensures { (g : Graph) (d : Division) (spans : List ℕ) → Blank g d spans layout.now source.0 count
        → Represents g d spans (start g d) layout.now run.new }
{
    run.clear();
    run_queue::building::clear(&layout.rows, &layout.heights, &mut run.keys.winners, count);
    run.set_label(source, 0);
    let n = crate::updates::update_outgoing(layout, &mut run.keys, source, 0, 0);
    run_counts::array::start(&mut run.counts, n);
}

// Whether the run has ended.
pub fn has_ended(rows: &[u16], winners: &[u64]) -> bool
    requires { SomeQueue rows.now winners.now 0 }
    ensures { (g : Graph) (d : Division) (s : State) → QueuesOk d rows.now s.queues.keys winners.now
        → is_leaf d 0 ≡ false → result ≡ ended g d s }
{
    NONE <= run_queue::min_key(rows, winners, Region(0))
}

// At most `limit` more rounds, from any state whose counts fit after them. A round is one working of region 0, which is never a leaf.
pub fn run_rounds(layout: &Layout, run: &mut Run, limit: u64)
    requires { SomeRounds layout.now run.old limit }
    ensures { (g : Graph) (d : Division) (spans : List ℕ) (s : State)
        → Represents g d spans s layout.now run.old → Small (more g d spans limit s)
        → Represents g d spans (more g d spans limit s) layout.now run.new }
{
    for _round in 0..limit {
        if has_ended(&layout.rows, &run.keys.winners) {
            return;
        }
        run_counts::array::count_round(&mut run.counts);
        crate::region::process_inner(layout, run, Region(0));
    }
}
