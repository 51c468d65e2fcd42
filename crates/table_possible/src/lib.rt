// The test of a possible state, 33, of a longer table, in time linear in sheet and table.
#![tactic(auto)]

pub mod arcs;
pub mod bound;
pub mod counts;
pub mod status;

ghost use Rattle.std.specs.Prelude.{◌≡◌};
ghost use Rattle.sheet.specs.Sections.{span_count};
ghost use Rattle.procedure.specs.OfSheet.{graph_of};
ghost use Rattle.calls.specs.LongTables.{has_key};
ghost use Rattle.calls.specs.Possible.{table_labels, table_predecessors, sound_test, possible?};

use table::lent::LongTable;
use table_shortest::nodes::Allowed;

// Whether labels, predecessors and keys are those of a possible state. The walk back goes once every reached node is known to be fed from a reached one.
#[tactic(auto, using(crate::proofs::Parts::sound_parts_lem, table_shortest::proofs::Parts::fit_followable))]
fn sound(long: &LongTable) -> bool
    ensures { result ≡ sound_test (graph_of long.now.table.sheet.now)
        (table_labels (graph_of long.now.table.sheet.now) long.now.table.words.now)
        (table_predecessors (graph_of long.now.table.sheet.now) long.now.table.words.now)
        (has_key (graph_of long.now.table.sheet.now) long.now.table.words.now) }
{
    table_shortest::arcs::source_fits(&long.table)
        && table_shortest::nodes::nodes_fit(&long.table, Allowed::NotBelow)
        && table_shortest::walk::nodes_led(&long.table)
        && crate::arcs::arcs_held(long)
        && crate::bound::labels_bounded(long.table.sheet.bytes(), long.table.words)
}

// Whether the table is a possible state.
pub fn possible(long: &LongTable) -> bool
    ensures { result ≡ possible? (graph_of long.now.table.sheet.now) (span_count long.now.table.sheet.now) long.now.table.words.now }
{
    sound(long) && crate::counts::counts_held(&long.table) && crate::status::status_held(long)
}
