// The new numbers of the regions of an accepted sheet, as its neat copy has them. Every pass is linear in regions and arcs.
#![tactic(auto)]

pub mod preorder;

ghost use Rattle.procedure.specs.OfSheet.{division_of};
ghost use Rattle.canonical_numbers.specs.Numbers.{Numbers};
ghost use Rattle.canonical_numbers.specs.Room.{Roomy};

use run_layout::outline::Outline;

// The new number of each region. The other slices are room to work in, and nothing is promised of them; they are no list of structs, since a pass that the
// layout of a run has too fills the parents alone.
pub fn number_regions(
    o: &Outline,
    arcs: &mut [u16],
    parents: &mut [u16],
    sizes: &mut [u16],
    nexts: &mut [u16],
    numbers: &mut [u16],
)
    requires { Roomy o.now.sizes arcs.old parents.old sizes.old nexts.old numbers.old }
    ensures { Numbers (division_of o.now.sheet.now) numbers.new }
{
    let d = sheet_reader::region_words(o.sheet);
    let m = o.sizes.arcs;
    run_layout::arcs::enter_leaves(d, arcs);
    run_layout::regions::enter_parents(d, parents);
    crate::preorder::count_sizes(parents, sizes);
    crate::preorder::count_rises(parents, sizes, arcs, m, nexts, numbers);
    crate::preorder::add_rises(parents, numbers);
}
