// Fills the regions' rows, and so plans the winner trees, from the regions' parents.
ghost use Rattle.std.specs.Prelude.{◌≡◌, ◌*◌, length};
ghost use Rattle.procedure.specs.Division.{Division, regions};
ghost use Rattle.run_arrays.specs.Trees.{ParentsOf, Ranked, Started, Planned};
ghost use Rattle.run_queue.specs.ForDivision.{ForDivision};

use run_arrays::trees::{CHILDREN, PARENT, SEAT, START};
use sheet::Region;

// Fills in each region's parent, the number of its children, and how many siblings with a lower number it has.
fn count_children(parents: &[u16], rows: &mut [u16])
    requires { ForDivision (λ d. ParentsOf d parents.now) rows.old }
    ensures { (d : Division) → ParentsOf d parents.now → Ranked d rows.new }
{
    rows.fill(0);
    let n = parents.len() as u16;
    for c in 1..n {
        let parent = Region(parents[c as usize]);
        let lower = run_arrays::trees::children_of(rows, parent);
        let counted = lower + 1;
        run_arrays::rows::set_field(rows, c, PARENT, parent.0);
        run_arrays::rows::set_field(rows, c, SEAT, lower);
        run_arrays::rows::set_field(rows, parent.0, CHILDREN, counted);
    }
}

// Lays the trees one after the other.
fn lay_trees(rows: &mut [u16])
    requires { ForDivision (λ d. Ranked d rows.old) rows.old }
    ensures { (d : Division) → Ranked d rows.old → length rows.old ≡ 4 * regions d → Started d rows.new }
{
    let n = (rows.len() / 4) as u16;
    let mut start: u16 = 0;
    for r in 0..n {
        run_arrays::rows::set_field(rows, r, START, start);
        start = start + 2 * run_arrays::trees::children_of(rows, Region(r));
    }
}

// Seats each region in its parent's tree: at the number of the parent's children plus that of its siblings with a lower number.
fn seat_children(rows: &mut [u16])
    requires { ForDivision (λ d. Started d rows.old) rows.old }
    ensures { (d : Division) → Started d rows.old → length rows.old ≡ 4 * regions d → Planned d rows.new }
{
    let n = (rows.len() / 4) as u16;
    for c in 1..n {
        let parent = run_arrays::trees::parent_of(rows, Region(c));
        let place = run_arrays::trees::children_of(rows, parent)
            + run_arrays::trees::seat_of(rows, Region(c));
        run_arrays::rows::set_field(rows, c, SEAT, place);
    }
}

// Fills the rows of the regions whose parents are given; that of region 0 is not read.
pub fn plan(parents: &[u16], rows: &mut [u16])
    requires { ForDivision (λ d. ParentsOf d parents.now) rows.old }
    ensures { (d : Division) → ParentsOf d parents.now → Planned d rows.new }
{
    count_children(parents, rows);
    lay_trees(rows);
    seat_children(rows);
}
