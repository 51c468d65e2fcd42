// Tests of a lent table at the nodes: labels that fit their predecessors, exactly (24) or not below what these give (33).
ghost use Rattle.std.specs.Prelude.{◌≡◌, ◌<◌};
ghost use Rattle.indices.specs.Tests.{all};
ghost use Rattle.sheet.specs.Sections.{node_count, arc_count};
ghost use Rattle.table_shortest.specs.NodeChecks.{allowed, feeds, node_fits};

use sheet::{Arc, Node};
use table::lent::Table;

// What a label may be, beside the sum of its feeder's label and the length, hold added: exactly that, as 24 asks, or not below it, as 33 does.
#[derive(Clone, Copy)]
pub enum Allowed {
    Exactly,
    NotBelow,
}

impl Allowed {
    fn allows(self, sum: u32, label: u32) -> bool
        ensures { result ≡ allowed self sum label }
    {
        match self {
            Allowed::Exactly => sum == label,
            Allowed::NotBelow => sum <= label,
        }
    }
}

// Whether an arc leads to v from a reached node, and v's label is allowed by the tail's label and the length, hold added.
#[tactic(auto, using(crate::proofs::nodes::Checked::feeder_steps), unfolding(sheet::specs::Words::top))]
fn feeds(table: &Table, allowed: Allowed, a: Arc, v: Node) -> bool
    requires { (a.0 < arc_count table.now.sheet.now) × (v.0 < node_count table.now.sheet.now) }
    ensures { result ≡ feeds table.now.sheet.now table.now.words.now allowed a.0 v.0 }
{
    if table.sheet.head(a) != v {
        return false;
    }
    let from = table.label(table.sheet.tail(a));
    if from == sheet::NONE {
        return false;
    }
    let sum = from + table.sheet.taken_length(a);
    allowed.allows(sum, table.label(v))
}

// Whether a node has the predecessor that its label asks for: none if it is unreached, and else, but for the source, an arc that feeds it.
#[tactic(auto, using(crate::proofs::nodes::Checked::node_steps), unfolding(sheet::specs::Words::top))]
fn node_fits(table: &Table, allowed: Allowed, v: Node) -> bool
    requires { v.0 < node_count table.now.sheet.now }
    ensures { result ≡ node_fits table.now.sheet.now table.now.words.now allowed v.0 }
{
    let a = table.predecessor(v);
    if table.label(v) == sheet::NONE {
        return a == sheet::NONE;
    }
    if u32::from(v.0) == table.sheet.source_number() {
        return true;
    }
    if a as usize >= table.sheet.arcs() {
        return false;
    }
    feeds(table, allowed, Arc(a as u16), v)
}

// Whether every node fits.
pub fn nodes_fit(table: &Table, allowed: Allowed) -> bool
    ensures { result ≡ all (node_fits table.now.sheet.now table.now.words.now allowed) (node_count table.now.sheet.now) }
{
    (0..table.sheet.node_count() as u16).all(|v| node_fits(table, allowed, Node(v)))
}
