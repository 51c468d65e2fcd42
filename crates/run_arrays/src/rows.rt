// Rows of four numbers in one slice, a row for each region and for each arc. And links from an arc to the next with the same tail.
ghost use Rattle.std.specs.Prelude.{◌≡◌, ◌+◌, ◌*◌, ◌<◌, set};
ghost use Rattle.run_arrays.specs.Rows.{field, row_count};
ghost use Rattle.run_arrays.specs.Links.{Linkable, Linked};

// The entries of an arc's row.
pub const TAIL: usize = 0;

pub const HEAD: usize = 1;

pub const LEAF: usize = 2;

pub const NEXT: usize = 3;

// Entry k of row i.
pub fn field(rows: &[u16], i: u16, k: usize) -> u16
    requires { (k < 4) × (i < row_count rows.now) }
    ensures { result ≡ field rows.now i k }
{
    let place = 4 * (i as usize) + k;
    rows[place]
}

pub fn set_field(rows: &mut [u16], i: u16, k: usize, x: u16)
    requires { (k < 4) × (i < row_count rows.old) }
    ensures { rows.new ≡ set rows.old (4 * i + k) x }
{
    let place = 4 * (i as usize) + k;
    rows[place] = x;
}

// Fills in each arc's next one with the same tail and each node's first arc, from the last arc back; 'none' is the number of arcs.
pub fn link(arcs: &mut [u16], firsts: &mut [u16])
    requires { Linkable arcs.old firsts.old }
    ensures { Linked arcs.old arcs.new firsts.new }
{
    let m = (arcs.len() / 4) as u16;
    firsts.fill(m);
    for a in (0..m).rev() {
        let v = field(arcs, a, TAIL) as usize;
        let next = firsts[v];
        set_field(arcs, a, NEXT, next);
        firsts[v] = a;
    }
}
