// What the words of a lent table say: the status, a count, the label and the predecessor of a node, and, in the longer form, the key word of an arc.
ghost use Rattle.std.specs.Prelude.{◌≡◌, ◌+◌, ◌≤◌, ◌<◌, length};
ghost use Rattle.sheet.specs.Sections.{node_count};
ghost use Rattle.judgement.specs.Judgement.{Accepted};
ghost use Rattle.procedure.specs.OfSheet.{graph_of};
ghost use Rattle.procedure.specs.Table.{counts_length};
ghost use Rattle.calls.specs.Tables.{table_length, payload_in, status_in, count_in, label_in, predecessor_in, key_place};
ghost use Rattle.calls.specs.LongTables.{has_key};

use crate::words::HEADER;
use sheet::{Arc, COUNT_BASE, Node};

// The payload of word i.
pub fn payload_at(table: &[u32], i: usize) -> u32
    requires { i < length table.now }
    ensures { result ≡ payload_in table.now i }
{
    sheet::payload_of(table[i])
}

// The status.
pub fn status_of(table: &[u32]) -> u32
    requires { table_length 0 ≤ length table.now }
    ensures { result ≡ status_in table.now }
{
    payload_at(table, 0)
}

// Count i: its high 28 bits stand before its low 28.
pub fn count_of(table: &[u32], i: usize) -> u64
    requires { (i < counts_length) × (table_length 0 ≤ length table.now) }
    ensures { result ≡ count_in table.now i }
{
    let high = u64::from(payload_at(table, 1 + 2 * i));
    let low = u64::from(payload_at(table, 2 + 2 * i));
    high * COUNT_BASE + low
}

// The label of a node.
pub fn label_of(table: &[u32], v: Node) -> u32
    requires { table_length (v.0 + 1) ≤ length table.now }
    ensures { result ≡ label_in table.now v.0 }
{
    payload_at(table, HEADER + 2 * usize::from(v.0))
}

// The predecessor of a node.
pub fn predecessor_of(table: &[u32], v: Node) -> u32
    requires { table_length (v.0 + 1) ≤ length table.now }
    ensures { result ≡ predecessor_in table.now v.0 }
{
    payload_at(table, HEADER + 2 * usize::from(v.0) + 1)
}

// Whether an arc's leaf has a key, in a longer table.
#[tactic(auto, using(crate::proofs::read::Columns::key_steps), unfolding(calls::specs::LongTables::has_key))]
pub fn has_key(s: &[u8], table: &[u32], a: Arc) -> bool
    requires { Accepted s.now × (key_place (node_count s.now) a.0 < length table.now) }
    ensures { result ≡ has_key (graph_of s.now) table.now a.0 }
{
    let usual = crate::length::table_length(sheet::payload_at(s, 0) as usize);
    payload_at(table, usual + usize::from(a.0)) == 1
}
