// Reads the route to a node out of a finished table, in either form.
#![tactic(auto)]

pub mod arcs;
pub mod found;

ghost use Rattle.std.specs.Prelude.{◌≡◌};
ghost use Rattle.judgement.specs.Judgement.{Accepted};
ghost use Rattle.calls.specs.Routes.{route_answer, left_by, buffer_after, TableKnown};
ghost use Rattle.answer.specs.Said.{route_said};

use answer::Fault;
use answer::reason::Reason;
pub use answer::routed::Routed;
use judge::Judged;
use sheet::Node;
use sheet::located::Sheet;
use table::lent::Table;

// The answer for an accepted sheet. Its sections are not looked for before the node is one.
#[tactic(auto, using(crate::proofs::Stages::stages), unfolding(calls::specs::Routes::left_by))]
fn route_accepted(sheet: &[u8], words: &[u32], node: u32, buffer: &mut [u32]) -> Routed
    requires { Accepted sheet.now }
    ensures { (route_said result ≡ route_answer sheet.now words.now node buffer.old)
        × (buffer.new ≡ left_by sheet.now words.now (route_said result) node buffer.old) }
{
    if crate::found::node_outside(sheet, node) {
        return Routed::Refused(Fault::from(Reason::Node));
    }
    let s = Sheet::new(sheet);
    if table::form::wrong_length(&s, words) {
        return Routed::Refused(Fault::from(Reason::TableLength));
    }
    let table = Table::new(&s, words);
    match table_shortest::check_table(&table) {
        Ok(()) => crate::found::find_route(&table, Node(node as u16), buffer),
        Err(reason) => Routed::Refused(Fault::from(reason)),
    }
}

// Reads the route to a node: the arcs from the source on, at the front of the buffer.
pub fn route(sheet: &[u8], table: &[u32], node: u32, buffer: &mut [u32]) -> Routed
    ensures { (route_said result ≡ route_answer sheet.now table.now node buffer.old)
        × (buffer.new ≡ buffer_after sheet.now table.now node buffer.old)
        × TableKnown sheet.now table.now (route_said result) }
{
    match judge::judge(sheet) {
        Judged::Accepted => route_accepted(sheet, table, node, buffer),
        Judged::Refused(fault) => Routed::Refused(fault),
    }
}
