// The working of a leaf. It computes its definition: a run that represents a state represents the worked one afterwards.
ghost use Rattle.std.specs.Prelude.{◌≡◌, true, List, ℕ};
ghost use Rattle.procedure.specs.Graph.{Graph};
ghost use Rattle.procedure.specs.Division.{Division, is_leaf};
ghost use Rattle.procedure.specs.State.{State};
ghost use Rattle.procedure.specs.Procedure.{process_leaf};
ghost use Rattle.run_arrays.specs.States.{Represents, Workable, SomeLeaf};

use run_arrays::arrays::{Layout, Run};
use sheet::{NONE, Region};

// Works the leaf r.
pub fn process_leaf(layout: &Layout, run: &mut Run, r: Region)
    requires { SomeLeaf layout.now run.old r.0 }
    ensures { (g : Graph) (d : Division) (spans : List ℕ) (s : State)
        → Represents g d spans s layout.now run.old → Workable d r.0 (process_leaf g d r.0 s) → is_leaf d r.0 ≡ true
        → Represents g d spans (process_leaf g d r.0 s) layout.now run.new }
{
    let a = layout.arc(r);
    let head = layout.head(a);
    let sum = u64::from(run.label(layout.tail(a))) + u64::from(layout.arc_length(a));
    let old = run_counts::array::updates_of(&run.counts);
    if u64::from(run.label(head)) <= sum {
        run.keys.set_own_key(a, NONE);
        run_counts::array::count_leaf(&mut run.counts, old);
        return;
    }
    let key = sum as u32;
    run.lower_label(head, key, a);
    let n = crate::updates::update_outgoing(layout, &mut run.keys, head, key, old);
    run.keys.set_own_key(a, NONE);
    run_counts::array::count_leaf(&mut run.counts, n);
}
