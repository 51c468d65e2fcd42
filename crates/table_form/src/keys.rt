// The key words of a lent table in the longer form, behind the words of its nodes.
ghost use Rattle.std.specs.Prelude.{◌≡◌, ◌≤◌, ◌<◌, length};
ghost use Rattle.indices.specs.Tests.{any};
ghost use Rattle.sheet.specs.Limits.{most_nodes};
ghost use Rattle.calls.specs.Tables.{long_length, key_place};
ghost use Rattle.calls.specs.Routes.{wrong_key, wrong_keys};

use sheet::kind::Kind;
use table::lent::Table;

// Whether the word of an arc, behind those of so many nodes, is not of its kind or above 1.
fn wrong_key(table: &[u32], nodes: usize, a: usize) -> bool
    requires { (nodes ≤ most_nodes) × (key_place nodes a < length table.now) }
    ensures { result ≡ wrong_key table.now nodes a }
{
    let i = table::length::table_length(nodes) + a;
    !Kind::Key.is_of(table[i]) || table::read::payload_at(table, i) > 1
}

// Whether the word of one of so many arcs is wrong.
fn some_wrong_key(table: &[u32], nodes: usize, arcs: usize) -> bool
    requires { (nodes ≤ most_nodes) × (long_length nodes arcs ≤ length table.now) }
    ensures { result ≡ any (wrong_key table.now nodes) arcs }
{
    (0..arcs).any(|a| wrong_key(table, nodes, a))
}

// Whether a key word is wrong: in the usual form there are none.
#[tactic(auto, using(judgement::proofs::Accepted::few_nodes, calls::proofs::Outcome::long_length_lem), unfolding(calls::specs::Routes::wrong_keys))]
pub fn wrong_keys(table: &Table) -> bool
    ensures { result ≡ wrong_keys table.now.sheet.now table.now.words.now }
{
    let s = table.sheet;
    table.is_long() && some_wrong_key(table.words, s.node_count() as usize, s.arcs())
}
