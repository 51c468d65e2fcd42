// The new numbers of the regions, from their parents and the arcs' leaves. Every pass is linear in the regions and arcs.
ghost use Rattle.std.specs.Prelude.{◌≡◌, ℕ, suc, ◌<◌, length, set, replicate};
ghost use Rattle.procedure.specs.Division.{Division, regions};
ghost use Rattle.canonical_numbers.specs.Numbers.{ParentsLaid, SizesFound, Rising, Ready, Starting, Risen, Numbers};
ghost use Rattle.canonical_numbers.specs.Numbers.{SizesLent, ToClimb, ToClimbAll, RisesLent, ToAdd};

// How many regions each region holds, from the last region back.
pub fn count_sizes(parents: &[u16], sizes: &mut [u16])
    requires { SizesLent parents.now sizes.old }
    ensures { (d : Division) → ParentsLaid d parents.now → SizesFound d sizes.new }
{
    sizes.fill(1);
    for r in (1..parents.len()).rev() {
        let p = usize::from(parents[r]);
        sizes[p] += sizes[r];
    }
}

// The climb from the leaf of an arc: each region that has no rise yet gets it, which is what its parent has counted so far.
fn climb(parents: &[u16], sizes: &[u16], leaf: u16, nexts: &mut [u16], rises: &mut [u16])
    requires { ToClimb parents.now sizes.now leaf nexts.old rises.old }
    ensures { (d : Division) (a : ℕ) → Ready d a parents.now sizes.now leaf nexts.old rises.old
        → Rising d (suc a) (regions d) nexts.new rises.new }
{
    let mut r = usize::from(leaf);
    while rises[r] == 0 {
        let p = usize::from(parents[r]);
        let size = sizes[r];
        let next = nexts[p];
        rises[r] = next;
        nexts[p] = next + size;
        r = p;
    }
}

// Before the first climb: each region has counted itself, and none but region 0 has had its turn.
fn begin_rises(nexts: &mut [u16], rises: &mut [u16])
    requires { 0 < length rises.old }
    ensures { (nexts.new ≡ replicate (length nexts.old) 1)
        × (rises.new ≡ set (replicate (length rises.old) 0) 0 1) }
{
    nexts.fill(1);
    rises.fill(0);
    rises[0] = 1;
}

// The climbs from the leaves of the m arcs, in order.
fn climb_all(
    parents: &[u16],
    sizes: &[u16],
    arcs: &[u16],
    m: usize,
    nexts: &mut [u16],
    rises: &mut [u16],
)
    requires { ToClimbAll m parents.now sizes.now arcs.now nexts.old rises.old }
    ensures { (d : Division) → Starting d m parents.now sizes.now arcs.now
        → Rising d 0 (regions d) nexts.old rises.old → Risen d rises.new }
{
    for a in 0..m {
        let leaf = arcs[4 * a + run_arrays::rows::LEAF];
        climb(parents, sizes, leaf, nexts, rises);
    }
}

// Each region's rise above its parent.
pub fn count_rises(
    parents: &[u16],
    sizes: &[u16],
    arcs: &[u16],
    m: usize,
    nexts: &mut [u16],
    rises: &mut [u16],
)
    requires { RisesLent m parents.now sizes.now arcs.now nexts.old rises.old }
    ensures { (d : Division) → Starting d m parents.now sizes.now arcs.now → Risen d rises.new }
{
    begin_rises(nexts, rises);
    climb_all(parents, sizes, arcs, m, nexts, rises);
}

// The new numbers, in the place of the rises: each region's is its parent's and its rise.
pub fn add_rises(parents: &[u16], rises: &mut [u16])
    requires { ToAdd parents.now rises.old }
    ensures { (d : Division) → ParentsLaid d parents.now → Risen d rises.old → Numbers d rises.new }
{
    rises[0] = 0;
    for r in 1..parents.len() {
        let above = parents[r];
        let number = rises[usize::from(above)];
        rises[r] += number;
    }
}
