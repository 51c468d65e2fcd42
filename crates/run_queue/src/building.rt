// The winner trees of all queues, built from the regions' rows, with every key none.
ghost use Rattle.std.specs.Prelude.{◌≡◌, List, ℕ, ◌+◌, ◌<◌, replicate};
ghost use Rattle.sheet.specs.Words.{top};
ghost use Rattle.procedure.specs.Division.{Division, regions};
ghost use Rattle.run_arrays.specs.Trees.{Buildable, QueuesOk, Seated, ValidBelow, SomeBuildable};
ghost use Rattle.run_queue.specs.Trees.{ToBuild};

use run_arrays::arrays::REGIONS;
use sheet::Region;

// Decides the places of r's tree, from the last one down.
fn build_tree(rows: &[u16], winners: &mut [u64], r: Region)
    requires { ToBuild rows.now winners.old r.0 }
    ensures { (d : Division) (keys : List ℕ) → ValidBelow d rows.now keys winners.old r.0 → r.0 < regions d
        → ValidBelow d rows.now keys winners.new (r.0 + 1) }
{
    let start = run_arrays::trees::start_of(rows, r) as usize;
    let children = run_arrays::trees::children_of(rows, r) as usize;
    for place in (1..children).rev() {
        run_arrays::trees::decide(winners, start, place);
    }
}

// Enters each region but 0 at its place in its parent's tree, with key none and its rank.
fn enter_children(rows: &[u16], heights: &[u32; REGIONS], winners: &mut [u64], count: u16)
    requires { SomeBuildable rows.now heights.now winners.old count }
    ensures { (d : Division) → Buildable d rows.now heights.now winners.old → count ≡ regions d
        → Seated d rows.now (replicate (regions d) top) winners.new }
{
    for c in 1..count {
        let parent = run_arrays::trees::parent_of(rows, Region(c));
        let start = run_arrays::trees::start_of(rows, parent) as usize;
        let place = run_arrays::trees::seat_of(rows, Region(c)) as usize;
        let height = heights[c as usize] as u16;
        let rank = run_arrays::trees::rank_of(height, Region(c));
        winners[start + place] = run_arrays::trees::entry_of(sheet::NONE, rank);
    }
}

// All keys become none, in valid queues. There are `count` regions.
pub fn clear(rows: &[u16], heights: &[u32; REGIONS], winners: &mut [u64], count: u16)
    requires { SomeBuildable rows.now heights.now winners.old count }
    ensures { (d : Division) → Buildable d rows.now heights.now winners.old → count ≡ regions d
        → QueuesOk d rows.now (replicate (regions d) top) winners.new }
{
    enter_children(rows, heights, winners, count);
    for r in 0..count {
        build_tree(rows, winners, Region(r));
    }
}
