// The bound on the labels of a possible state: 262,143 for each reached node but one.
ghost use Rattle.std.specs.Prelude.{◌≡◌, ◌+◌, ◌-◌, ◌*◌, ◌≤◌, length};
ghost use Rattle.indices.specs.Tests.{all, count};
ghost use Rattle.sheet.specs.Limits.{most_nodes, most_length};
ghost use Rattle.sheet.specs.Sections.{node_count};
ghost use Rattle.judgement.specs.Judgement.{Accepted};
ghost use Rattle.calls.specs.Tables.{table_length};
ghost use Rattle.table_possible.specs.Held.{reached_in, within, label_bounded};

use sheet::Node;
use table::read::label_of;

// How many of so many nodes are reached.
fn count_reached(table: &[u32], nodes: u16) -> u32
    requires { table_length nodes ≤ length table.now }
    ensures { result ≡ count (reached_in table.now) nodes }
{
    (0..nodes)
        .filter(|v| label_of(table, Node(*v)) != sheet::NONE)
        .count() as u32
}

// The highest label that so many reached nodes allow.
fn highest_label(reached: u32) -> u32
    requires { reached ≤ most_nodes }
    ensures { result ≡ most_length * (reached - 1) }
{
    sheet::MOST_LENGTH * reached.saturating_sub(1)
}

// Whether a node's label, if it is reached, is no higher.
#[tactic(auto, unfolding(sheet::specs::Words::top))]
fn label_within(table: &[u32], highest: u32, v: Node) -> bool
    requires { table_length (v.0 + 1) ≤ length table.now }
    ensures { result ≡ within table.now highest v.0 }
{
    let label = label_of(table, v);
    label == sheet::NONE || label <= highest
}

// Whether the label of every reached node keeps the bound.
pub fn labels_bounded(s: &[u8], table: &[u32]) -> bool
    requires { Accepted s.now × (table_length (node_count s.now) ≤ length table.now) }
    ensures { result ≡ all (label_bounded s.now table.now) (node_count s.now) }
{
    let nodes = sheet::payload_at(s, 0) as u16;
    let highest = highest_label(count_reached(table, nodes));
    (0..nodes).all(|v| label_within(table, highest, Node(v)))
}
