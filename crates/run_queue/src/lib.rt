// One priority queue for each inner region, as winner trees in one slice.
#![tactic(auto)]

pub mod building;
pub mod planning;

ghost use Rattle.std.specs.Prelude.{◌≡◌, List, ℕ, ◌<◌, set};
ghost use Rattle.procedure.specs.Division.{Division, regions};
ghost use Rattle.procedure.specs.Queues.{min_item};
ghost use Rattle.run_arrays.specs.Trees.{IsMinKey, QueuesOk, SomeQueue, SomeItem};
ghost use Rattle.run_queue.specs.First.{FirstEntry};

use sheet::{NONE, Region};

// The root of r's tree, the entry of its first-chosen child; where it has none, key none and region 0, which is nobody's child.
fn first_entry(rows: &[u16], winners: &[u64], r: Region) -> u64
    requires { SomeQueue rows.now winners.now r.0 }
    ensures { (d : Division) (keys : List ℕ) → QueuesOk d rows.now keys winners.now → r.0 < regions d
        → FirstEntry d keys r.0 result }
{
    if run_arrays::trees::children_of(rows, r) == 0 {
        return run_arrays::trees::entry_of(NONE, 0);
    }
    let start = run_arrays::trees::start_of(rows, r) as usize;
    winners[start + 1]
}

// The first-chosen child of r; 0 where it has none.
pub fn min_item(rows: &[u16], winners: &[u64], r: Region) -> Region
    requires { SomeQueue rows.now winners.now r.0 }
    ensures { (d : Division) (keys : List ℕ) → QueuesOk d rows.now keys winners.now → r.0 < regions d
        → result.0 ≡ min_item d keys r.0 }
{
    run_arrays::trees::entry_region(first_entry(rows, winners, r))
}

// The smallest key of an inner region.
pub fn min_key(rows: &[u16], winners: &[u64], r: Region) -> u32
    requires { SomeQueue rows.now winners.now r.0 }
    ensures { (d : Division) (keys : List ℕ) → QueuesOk d rows.now keys winners.now → r.0 < regions d
        → IsMinKey d keys r.0 result }
{
    run_arrays::trees::entry_key(first_entry(rows, winners, r))
}

// Writes the key of a region other than 0, beside the rank that stands at its place, and repairs its parent's tree, from that place up, until a place does not
// change.
pub fn write(rows: &[u16], winners: &mut [u64], child: Region, key: u32)
    requires { SomeItem rows.now winners.old child.0 }
    ensures { (d : Division) (keys : List ℕ) → QueuesOk d rows.now keys winners.old → child.0 < regions d
        → QueuesOk d rows.now (set keys child.0 key) winners.new }
{
    let parent = run_arrays::trees::parent_of(rows, child);
    let start = run_arrays::trees::start_of(rows, parent) as usize;
    let mut place = run_arrays::trees::seat_of(rows, child) as usize;
    let rank = run_arrays::trees::entry_rank(winners[start + place]);
    let mut best = run_arrays::trees::entry_of(key, rank);
    winners[start + place] = best;
    // The places are halved, which no range counts.
    while 1 < place {
        best = run_arrays::trees::lower(best, winners[start + run_arrays::trees::sibling(place)]);
        place = place / 2;
        if winners[start + place] == best {
            return;
        }
        winners[start + place] = best;
    }
}
