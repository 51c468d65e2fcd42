// The form of a lent table by its length: the usual one, the longer one, or neither, which is refusal 21.
ghost use Rattle.std.specs.Prelude.{◌≡◌};
ghost use Rattle.judgement.specs.Judgement.{Accepted};
ghost use Rattle.calls.specs.Tables.{is_long, wrong_length};

use sheet::located::Sheet;

// Whether the table has the longer length, one word more for each arc.
#[tactic(auto, using(judgement::proofs::Accepted::few_nodes, judgement::proofs::Accepted::few_arcs), unfolding(calls::specs::Tables::is_long))]
pub fn is_long(s: &Sheet, table: &[u32]) -> bool
    requires { Accepted s.now }
    ensures { result ≡ is_long s.now table.now }
{
    table.len() == crate::length::long_length(s.node_count() as usize, s.arcs())
}

// Refusal 21: the table has neither the usual length nor the longer one.
#[tactic(auto, using(judgement::proofs::Accepted::few_nodes, calls::proofs::Outcome::usual_right), unfolding(calls::specs::Tables::is_usual, calls::specs::Tables::wrong_length))]
pub fn wrong_length(s: &Sheet, table: &[u32]) -> bool
    requires { Accepted s.now }
    ensures { result ≡ wrong_length s.now table.now }
{
    table.len() != crate::length::table_length(s.node_count() as usize) && !is_long(s, table)
}
