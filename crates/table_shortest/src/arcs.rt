// Tests of a lent table at the source and at the arcs: the source is at 0, and every arc is relaxed, its tail's hold added.
ghost use Rattle.std.specs.Prelude.{◌≡◌, ◌<◌};
ghost use Rattle.indices.specs.Tests.{all};
ghost use Rattle.sheet.specs.Sections.{arc_count};
ghost use Rattle.table_shortest.specs.ArcChecks.{source_fits, arc_relaxed};

use sheet::{Arc, Node};
use table::lent::Table;

// Whether the source has label 0 and no predecessor.
#[tactic(auto, using(crate::proofs::arcs::Checked::source_steps), unfolding(sheet::specs::Words::top))]
pub fn source_fits(table: &Table) -> bool
    ensures { result ≡ source_fits table.now.sheet.now table.now.words.now }
{
    let v = Node(table.sheet.source_number() as u16);
    table.label(v) == 0 && table.predecessor(v) == sheet::NONE
}

// Whether an arc from a reached node leads to no higher label than it gives.
#[tactic(auto, using(crate::proofs::arcs::Checked::arc_steps), unfolding(sheet::specs::Words::top))]
pub fn arc_relaxed(table: &Table, a: Arc) -> bool
    requires { a.0 < arc_count table.now.sheet.now }
    ensures { result ≡ arc_relaxed table.now.sheet.now table.now.words.now a.0 }
{
    let from = table.label(table.sheet.tail(a));
    from == sheet::NONE || table.label(table.sheet.head(a)) <= from + table.sheet.taken_length(a)
}

// Whether every arc is relaxed.
pub fn arcs_relaxed(table: &Table) -> bool
    ensures { result ≡ all (arc_relaxed table.now.sheet.now table.now.words.now) (arc_count table.now.sheet.now) }
{
    (0..table.sheet.arcs() as u16).all(|a| arc_relaxed(table, Arc(a)))
}
