// From an accepted sheet to what a run reads: rows and arcs of the regions, rows, first arcs and number of the arcs; lengths, spans and heights, each in the
// front of its array. Behind the front nothing is promised. Every pass is linear in the sheet's words.
#![tactic(auto)]

pub mod arcs;
pub mod lengths;
pub mod outline;
pub mod regions;
pub mod sizes;

ghost use Rattle.std.specs.Prelude.{◌≡◌, ◌*◌, length};
ghost use Rattle.procedure.specs.OfSheet.{graph_of, division_of};
ghost use Rattle.run_arrays.specs.Trees.{Planned};
ghost use Rattle.run_arrays.specs.Fixed.{RegionArcs};
ghost use Rattle.run_layout.specs.Layout.{ArcsLaid, HeightsLaid, Laid};

use crate::outline::Outline;
use judge_division::parents::Nested;
use run_arrays::arrays::{Layout, NODES, REGIONS};
use sheet::REGION_NUMBERS;

// The rows of the arcs, and each node's first arc.
fn lay_arcs(o: &Outline, arcs: &mut [u16], firsts: &mut [u16])
    requires { (length arcs.old ≡ 4 * o.now.sizes.arcs) × (length firsts.old ≡ o.now.sizes.nodes) }
    ensures { ArcsLaid (graph_of o.now.sheet.now) (division_of o.now.sheet.now) arcs.new firsts.new }
{
    crate::arcs::enter_ends(o.sheet, arcs);
    crate::arcs::enter_leaves(sheet_reader::region_words(o.sheet), arcs);
    run_arrays::rows::link(arcs, firsts);
}

// The rows of the regions for the queues, whose trees they plan. Of `parents` nothing is promised.
fn plan_trees(o: &Outline, parents: &mut [u16], rows: &mut [u16])
    requires { (length parents.old ≡ o.now.sizes.regions) × (length rows.old ≡ 4 * o.now.sizes.regions) }
    ensures { Planned (division_of o.now.sheet.now) rows.new }
{
    crate::regions::enter_parents(sheet_reader::region_words(o.sheet), parents);
    run_queue::planning::plan(parents, rows);
}

// Each region's arc.
fn lay_region_arcs(o: &Outline, arcs: &mut [u16])
    requires { length arcs.old ≡ o.now.sizes.regions }
    ensures { RegionArcs (division_of o.now.sheet.now) arcs.new }
{
    crate::regions::enter_region_arcs(sheet_reader::region_words(o.sheet), arcs);
}

// Each region's height, by the judge's own pass.
fn lay_heights(o: &Outline, heights: &mut [u32])
    requires { length heights.old ≡ o.now.sizes.regions }
    ensures { HeightsLaid (division_of o.now.sheet.now) heights.new }
{
    let mut found = [0u16; REGION_NUMBERS];
    let nested = Nested {
        bytes: sheet_reader::region_words(o.sheet),
    };
    let _ = judge_division::heights::find_heights(&nested, &mut found);
    crate::regions::enter_heights(&found, heights);
}

// All that a run of an accepted sheet reads. The layout is lent, and not made here, so that it stands in memory once.
pub fn lay_out(o: &Outline, layout: &mut Layout)
    ensures { Laid o.now.sheet.now layout.new }
{
    let mut parents = [0u16; REGIONS];
    let mut firsts = [0u16; NODES];
    let m = o.sizes.arcs;
    let r = o.sizes.regions;
    plan_trees(o, &mut parents[..r], &mut layout.rows[..4 * r]);
    lay_region_arcs(o, &mut layout.region_arcs[..r]);
    lay_arcs(
        o,
        &mut layout.arc_rows[..4 * m],
        &mut firsts[..o.sizes.nodes],
    );
    layout.firsts = firsts;
    layout.arcs = m as u16;
    crate::lengths::enter_lengths(o.sheet, &mut layout.lengths[..m]);
    crate::lengths::enter_spans(o.sheet, &mut layout.spans[..o.sizes.spans]);
    lay_heights(o, &mut layout.heights[..r]);
}
