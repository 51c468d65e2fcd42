// Refusals 22 and 23 of a lent table: its form, and its status.
#![tactic(auto)]

pub mod keys;
pub mod kinds;

ghost use Rattle.std.specs.Prelude.{◌≡◌, ◌≤◌, length};
ghost use Rattle.calls.specs.Tables.{table_length};
ghost use Rattle.calls.specs.Routes.{malformed, is_paused};

use sheet::kind::Kind;
use table::lent::Table;

// Refusal 22: a wrong kind, status, predecessor or key word.
#[tactic(auto, using(judgement::proofs::Accepted::few_nodes, judgement::proofs::Accepted::few_arcs), unfolding(calls::specs::Routes::malformed))]
pub fn malformed(table: &Table) -> bool
    ensures { result ≡ malformed table.now.sheet.now table.now.words.now }
{
    let s = table.sheet;
    !Kind::Status.is_of(table.words[0])
        || crate::kinds::wrong_counts(table.words)
        || table::read::status_of(table.words) > 1
        || crate::kinds::wrong_nodes(table.words, s.node_count() as u16, s.arcs() as u32)
        || crate::keys::wrong_keys(table)
}

// Refusal 23: the table is paused.
#[tactic(auto, unfolding(calls::specs::Routes::is_paused))]
pub fn is_paused(table: &[u32]) -> bool
    requires { table_length 0 ≤ length table.now }
    ensures { result ≡ is_paused table.now }
{
    table::read::status_of(table) == 0
}
