// The regions' rows, and the places of the winner trees that they plan: how a row is read, what stands at a place, and how a place is decided.
ghost use Rattle.std.specs.Prelude.{◌≡◌, min, ◌+◌, ◌*◌, ◌<◌, length};
ghost use Rattle.procedure.specs.Division.{Division, regions, parent};
ghost use Rattle.run_arrays.specs.Rows.{field, row_count};
ghost use Rattle.run_arrays.specs.Trees.{Siblings, Decided, ChildrenCounted, SomeParent};
ghost use Rattle.run_arrays.specs.Trees.{rank_of, entry_of, entry_key, entry_rank, entry_region};

use sheet::Region;

// The entries of a region's row.
pub const PARENT: usize = 0;

pub const CHILDREN: usize = 1;

pub const START: usize = 2;

pub const SEAT: usize = 3;

// The parent of a region other than 0.
pub fn parent_of(rows: &[u16], r: Region) -> Region
    requires { SomeParent rows.now r.0 }
    ensures { (d : Division) → ChildrenCounted d rows.now → r.0 < regions d → result.0 ≡ parent d r.0 }
{
    Region(crate::rows::field(rows, r.0, PARENT))
}

// How many children a region has.
pub fn children_of(rows: &[u16], r: Region) -> u16
    requires { r.0 < row_count rows.now }
    ensures { result ≡ field rows.now r.0 1 }
{
    crate::rows::field(rows, r.0, CHILDREN)
}

// Where a region's tree begins.
pub fn start_of(rows: &[u16], r: Region) -> u16
    requires { r.0 < row_count rows.now }
    ensures { result ≡ field rows.now r.0 2 }
{
    crate::rows::field(rows, r.0, START)
}

// A region's place in its parent's tree.
pub fn seat_of(rows: &[u16], r: Region) -> u16
    requires { r.0 < row_count rows.now }
    ensures { result ≡ field rows.now r.0 3 }
{
    crate::rows::field(rows, r.0, SEAT)
}

// What a step of the height adds to a rank, more than any region's number, and a step of the key to an entry, more than any rank.
const HEIGHT_STEP: u32 = 65536;

const KEY_STEP: u64 = 4294967296;

// A height and a region as one number, in the order of heights, then of regions: of equal keys the lower rank is chosen first.
pub fn rank_of(height: u16, c: Region) -> u32
    ensures { result ≡ rank_of height c.0 }
{
    height as u32 * HEIGHT_STEP + c.0 as u32
}

// A key and a rank as one number, in the order of keys, then of ranks.
pub fn entry_of(key: u32, rank: u32) -> u64
    ensures { result ≡ entry_of key rank }
{
    key as u64 * KEY_STEP + rank as u64
}

// The key of an entry.
pub fn entry_key(entry: u64) -> u32
    ensures { result ≡ entry_key entry }
{
    (entry / KEY_STEP) as u32
}

// The rank of an entry.
pub fn entry_rank(entry: u64) -> u32
    ensures { result ≡ entry_rank entry }
{
    (entry % KEY_STEP) as u32
}

// The region of an entry.
pub fn entry_region(entry: u64) -> Region
    ensures { result.0 ≡ entry_region entry }
{
    Region((entry_rank(entry) % HEIGHT_STEP) as u16)
}

// The lower of two entries.
pub fn lower(a: u64, b: u64) -> u64
    ensures { result ≡ min a b }
{
    a.min(b)
}

// The place that is decided together with this one.
pub fn sibling(place: usize) -> usize
    requires { place < 65536 }
    ensures { Siblings place result }
{
    place + 1 - 2 * (place % 2)
}

// Decides a place of the tree that begins at `start`: it holds the lower of the two places below it.
pub fn decide(winners: &mut [u64], start: usize, place: usize)
    requires { start + (2 * place + 1) < length winners.old }
    ensures { Decided start place winners.old winners.new }
{
    let left = winners[start + 2 * place];
    let right = winners[start + (2 * place + 1)];
    winners[start + place] = lower(left, right);
}
