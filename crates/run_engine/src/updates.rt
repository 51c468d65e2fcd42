// Updates, from a leaf up, over what the caller lends. Each function computes its definition: keys that are those of some queues are those of the updated
// ones afterwards.
ghost use Rattle.procedure.specs.Graph.{Graph};
ghost use Rattle.procedure.specs.Division.{Division};
ghost use Rattle.procedure.specs.State.{Queues};
ghost use Rattle.procedure.specs.Queues.{update, update_arc, update_outgoing};
ghost use Rattle.run_arrays.specs.States.{HoldsKeys, HoldsQueues, Updating, UpdatingArc, UpdatingOutgoing, SomeUpdating, SomeUpdatingArc, SomeUpdatingOutgoing};

use run_arrays::arrays::{Keys, Layout};
use sheet::{Arc, Node, Region};

// Updates item `item` of region r, which is inner, with a key. Own keys are the leaves', so they do not travel up.
fn update(rows: &[u16], winners: &mut [u64], r: Region, item: Region, key: u32, count: u64) -> u64
    requires { SomeUpdating rows.now winners.old r.0 item.0 key count }
    ensures { (d : Division) (q : Queues) → HoldsKeys d q rows.now winners.old count → Updating d q r.0 item.0 key
        → HoldsKeys d (update d r.0 item.0 key q) rows.now winners.new result }
{
    let old = run_queue::min_key(rows, winners, r);
    run_queue::write(rows, winners, item, key);
    let new = run_queue::min_key(rows, winners, r);
    if r.0 == 0 {
        return count + 1;
    }
    if old <= new {
        return count + 1;
    }
    let up = run_arrays::trees::parent_of(rows, r);
    update(rows, winners, up, r, key, count + 1)
}

// Updates arc a: its own key, and from its leaf's parent on where that key fell.
pub fn update_arc(layout: &Layout, keys: &mut Keys, a: Arc, key: u32, count: u64) -> u64
    requires { SomeUpdatingArc layout.now keys.old a.0 key count }
    ensures { (g : Graph) (d : Division) (q : Queues)
        → HoldsQueues g d q layout.now keys.old count → UpdatingArc g d q layout.now a.0 key
        → HoldsQueues g d (update_arc d a.0 key q) layout.now keys.new result }
{
    let old = keys.own_key(a);
    keys.set_own_key(a, key);
    if old <= key {
        return count + 1;
    }
    let leaf = layout.leaf(a);
    let up = run_arrays::trees::parent_of(&layout.rows, leaf);
    update(&layout.rows, &mut keys.winners, up, leaf, key, count + 1)
}

// Updates the arcs that leave v, in arc order.
pub fn update_outgoing(layout: &Layout, keys: &mut Keys, v: Node, key: u32, count: u64) -> u64
    requires { SomeUpdatingOutgoing layout.now keys.old v.0 key count }
    ensures { (g : Graph) (d : Division) (q : Queues)
        → HoldsQueues g d q layout.now keys.old count → UpdatingOutgoing g d q layout.now v.0 key
        → HoldsQueues g d (update_outgoing d g.tails v.0 key q) layout.now keys.new result }
{
    let mut a = layout.first(v);
    let mut n = count;
    // The arcs are followed by links, which no range counts.
    while a.0 < layout.arcs {
        n = update_arc(layout, keys, a, key, n);
        a = layout.next(a);
    }
    n
}
