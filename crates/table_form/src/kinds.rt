// The kinds of a lent table's words, and the arcs that its nodes name. The counts' payloads are not looked at.
ghost use Rattle.std.specs.Prelude.{◌≡◌, ◌+◌, ◌*◌, ◌≤◌, length};
ghost use Rattle.indices.specs.Tests.{any};
ghost use Rattle.calls.specs.Tables.{table_length};
ghost use Rattle.calls.specs.Routes.{wrong_count, wrong_node};
ghost use Rattle.procedure.specs.Table.{counts_length};

use sheet::Node;
use sheet::kind::Kind;
use table::words::{COUNT_WORDS, HEADER};

// Whether a word of the counts is not of its kind.
pub fn wrong_counts(table: &[u32]) -> bool
    requires { table_length 0 ≤ length table.now }
    ensures { result ≡ any (wrong_count table.now) (2 * counts_length) }
{
    (0..COUNT_WORDS).any(|i| !Kind::Count.is_of(table[1 + i]))
}

// Whether a node's words are not of their kinds, or its predecessor is neither one of so many arcs nor none.
#[tactic(auto, unfolding(calls::specs::Routes::wrong_node, sheet::specs::Words::top))]
fn wrong_node(table: &[u32], arcs: u32, v: Node) -> bool
    requires { table_length (v.0 + 1) ≤ length table.now }
    ensures { result ≡ wrong_node table.now arcs v.0 }
{
    let i = HEADER + 2 * usize::from(v.0);
    let a = table::read::predecessor_of(table, v);
    !Kind::Label.is_of(table[i])
        || !Kind::Predecessor.is_of(table[i + 1])
        || (a >= arcs && a != sheet::NONE)
}

// Whether the words of one of so many nodes are wrong.
pub fn wrong_nodes(table: &[u32], nodes: u16, arcs: u32) -> bool
    requires { table_length nodes ≤ length table.now }
    ensures { result ≡ any (wrong_node table.now arcs) nodes }
{
    (0..nodes).any(|v| wrong_node(table, arcs, Node(v)))
}
