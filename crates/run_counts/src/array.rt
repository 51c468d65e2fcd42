// The eighteen counts of a run in one array, which is lent: those of the inner regions by height. Each counting takes the four counts at one height out
// as a struct, counts in that struct, and puts back what has grown.
ghost use Rattle.std.specs.Prelude.{◌≡◌, ◌+◌, ◌<◌};
ghost use Rattle.run_counts.specs.Figures.{figures_in, counts_at, InnerFits, HasLevel, started, round_more, leaf_more, inner_more};

use crate::Counts;

// The place of each: rounds, leaves, inner regions at each height, updates; in a table they stand in the same order.
const ROUNDS_PLACE: usize = 0;

const LEAVES_PLACE: usize = 1;

pub const INNER_PLACE: usize = 2;

pub const UPDATES_PLACE: usize = INNER_PLACE + sheet::MOST_SPANS;

pub const COUNTS: usize = UPDATES_PLACE + 1;

// The four counts at a level, which is a height less one.
fn counts_at(counts: &[u64], level: usize) -> Counts
    requires { HasLevel counts.now level }
    ensures { result ≡ counts_at (figures_in counts.now) level }
{
    Counts {
        rounds: counts[ROUNDS_PLACE],
        leaves: counts[LEAVES_PLACE],
        inner: counts[INNER_PLACE + level],
        updates: counts[UPDATES_PLACE],
    }
}

#[tactic(auto, unfolding(crate::specs::Figures::updates_in))]
pub fn updates_of(counts: &[u64; COUNTS]) -> u64
    ensures { result ≡ (figures_in counts.now).updates }
{
    counts[UPDATES_PLACE]
}

// Nothing is counted but updates, whatever the array held.
pub fn start(counts: &mut [u64; COUNTS], updates: u64)
    ensures { figures_in counts.new ≡ started updates }
{
    *counts = [0u64; COUNTS];
    counts[UPDATES_PLACE] = updates;
}

#[tactic(auto, using(crate::proofs::array::Stores::round_stored))]
pub fn count_round(counts: &mut [u64; COUNTS])
    requires { (figures_in counts.old).rounds + 1 < 18446744073709551616 }
    ensures { figures_in counts.new ≡ round_more (figures_in counts.old) }
{
    let mut c = counts_at(counts, 0);
    c.add_round();
    counts[ROUNDS_PLACE] = c.rounds;
}

// A leaf, with the updates after its working.
pub fn count_leaf(counts: &mut [u64; COUNTS], updates: u64)
    requires { (figures_in counts.old).leaves + 1 < 18446744073709551616 }
    ensures { figures_in counts.new ≡ leaf_more (figures_in counts.old) updates }
{
    let mut c = counts_at(counts, 0);
    c.add_leaf();
    c.set_updates(updates);
    counts[LEAVES_PLACE] = c.leaves;
    counts[UPDATES_PLACE] = c.updates;
}

// An inner region, at the level of its height.
#[tactic(auto, using(crate::proofs::array::Stores::inner_stored))]
pub fn count_inner(counts: &mut [u64; COUNTS], level: usize)
    requires { InnerFits (figures_in counts.old) level }
    ensures { figures_in counts.new ≡ inner_more (figures_in counts.old) level }
{
    let mut c = counts_at(counts, level);
    c.add_inner();
    counts[INNER_PLACE + level] = c.inner;
}
