// The test of a lent table, 24, in time linear in sheet and table, after 22 and 23.
#![tactic(auto)]

pub mod arcs;
pub mod nodes;
pub mod walk;

ghost use Rattle.std.specs.Prelude.{◌≡◌};
ghost use Rattle.answer.specs.Answer.{accepted, lowest};
ghost use Rattle.answer.specs.Reasons.{checked};
ghost use Rattle.calls.specs.Routes.{not_shortest, table_refusals};

use crate::nodes::Allowed;
use answer::reason::Reason;
use table::lent::Table;

// Refusal 24: a distance is not the shortest, or the predecessors are no routes of those lengths.
#[tactic(auto, using(crate::proofs::Parts::shortest_parts, crate::proofs::Parts::fit_followable))]
fn not_shortest(table: &Table) -> bool
    ensures { result ≡ not_shortest table.now.sheet.now table.now.words.now }
{
    !(crate::arcs::source_fits(table)
        && crate::nodes::nodes_fit(table, Allowed::Exactly)
        && crate::arcs::arcs_relaxed(table)
        && crate::walk::nodes_led(table))
}

// Refusals 22 to 24 of a table that fits its sheet.
#[tactic(auto, unfolding(calls::specs::Routes::table_refusals))]
pub fn check_table(table: &Table) -> Result<(), Reason>
    ensures { checked result ≡ lowest (table_refusals table.now.sheet.now table.now.words.now) accepted }
{
    if table_form::malformed(table) {
        return Err(Reason::Malformed);
    }
    if table_form::is_paused(table.words) {
        return Err(Reason::Paused);
    }
    if not_shortest(table) {
        return Err(Reason::NotShortest);
    }
    Ok(())
}
