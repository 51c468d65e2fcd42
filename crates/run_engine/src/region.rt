// The working of a region. Each function computes its definition: a run that represents a state represents the worked one afterwards.
ghost use Rattle.std.specs.Prelude.{◌≡◌, false, List, ℕ};
ghost use Rattle.procedure.specs.Graph.{Graph};
ghost use Rattle.procedure.specs.Division.{Division, is_leaf};
ghost use Rattle.procedure.specs.State.{Queues, State};
ghost use Rattle.procedure.specs.Queues.{min_key};
ghost use Rattle.procedure.specs.Procedure.{process};
ghost use Rattle.run_arrays.specs.States.{HoldsQueues, Keyed, Represents, Workable, SomeKeyed, SomeRegion, SomeInner};

use run_arrays::arrays::{INNER, Keys, Layout, Run};
use sheet::{NONE, Region};

// The smallest key of any region.
fn key_of(layout: &Layout, keys: &Keys, r: Region) -> u32
    requires { SomeKeyed layout.now keys.now r.0 }
    ensures { (g : Graph) (d : Division) (q : Queues) (n : ℕ)
        → HoldsQueues g d q layout.now keys.now n → Keyed g d layout.now r.0 → result ≡ min_key d q r.0 }
{
    let a = layout.arc(r);
    if a.0 == INNER {
        return run_queue::min_key(&layout.rows, &keys.winners, r);
    }
    keys.own_key(a)
}

// Works region r: a leaf, or an inner region by its loop.
#[cycle(process_inner_process_region)]
fn process_region(layout: &Layout, run: &mut Run, r: Region)
    requires { SomeRegion layout.now run.old r.0 }
    ensures { (g : Graph) (d : Division) (spans : List ℕ) (s : State)
        → Represents g d spans s layout.now run.old → Workable d r.0 (process g d spans r.0 s)
        → Represents g d spans (process g d spans r.0 s) layout.now run.new }
{
    let a = layout.arc(r);
    if a.0 == INNER {
        process_inner(layout, run, r);
        return;
    }
    crate::leaf::process_leaf(layout, run, r);
}

// Works the inner region r: up to span times, while its smallest key isn't none, its first-chosen child is worked and gets its key anew.
#[cycle(process_inner_process_region)]
pub fn process_inner(layout: &Layout, run: &mut Run, r: Region)
    requires { SomeInner layout.now run.old r.0 }
    ensures { (g : Graph) (d : Division) (spans : List ℕ) (s : State)
        → Represents g d spans s layout.now run.old → Workable d r.0 (process g d spans r.0 s) → is_leaf d r.0 ≡ false
        → Represents g d spans (process g d spans r.0 s) layout.now run.new }
{
    run_counts::array::count_inner(&mut run.counts, layout.level(r));
    for _turn in 0..layout.span(r) {
        let least = run_queue::min_key(&layout.rows, &run.keys.winners, r);
        if NONE <= least {
            return;
        }
        let child = run_queue::min_item(&layout.rows, &run.keys.winners, r);
        process_region(layout, run, child);
        let key = key_of(layout, &run.keys, child);
        run_queue::write(&layout.rows, &mut run.keys.winners, child, key);
    }
}
