// The node whose route is wanted, and its route in a table to which no refusal applies.
ghost use Rattle.std.specs.Prelude.{◌≡◌, ◌≤◌, ◌<◌, false};
ghost use Rattle.sheet.specs.Words.{words};
ghost use Rattle.sheet.specs.Sections.{node_count};
ghost use Rattle.calls.specs.Routes.{node_outside, not_shortest, found_route, left_by};
ghost use Rattle.answer.specs.Said.{route_said};

use answer::Fault;
use answer::reason::Reason;
use answer::routed::Routed;
use sheet::Node;
use table::lent::Table;

// Refusal 15: the node whose route is wanted is none.
#[tactic(auto, unfolding(calls::specs::Routes::node_outside))]
pub fn node_outside(sheet: &[u8], node: u32) -> bool
    requires { 2 ≤ words sheet.now }
    ensures { result ≡ node_outside sheet.now node }
{
    sheet::payload_at(sheet, 0) <= node
}

// The route to a node, in a table to which no refusal applies.
#[tactic(auto, using(crate::proofs::found::Found::found_steps), unfolding(calls::specs::Routes::left_by, sheet::specs::Words::top))]
pub fn find_route(table: &Table, v: Node, buffer: &mut [u32]) -> Routed
    requires { (not_shortest table.now.sheet.now table.now.words.now ≡ false) × (v.0 < node_count table.now.sheet.now) }
    ensures { (route_said result ≡ found_route table.now.sheet.now table.now.words.now v.0 buffer.old)
        × (buffer.new ≡ left_by table.now.sheet.now table.now.words.now (route_said result) v.0 buffer.old) }
{
    if table.label(v) == sheet::NONE {
        return Routed::NoRoute;
    }
    let arcs = crate::arcs::count_arcs(table, v);
    if buffer.len() < arcs {
        return Routed::Refused(Fault::from(Reason::ShortRoute));
    }
    crate::arcs::write_arcs(table, v, arcs, buffer);
    Routed::Route(arcs as u32)
}
