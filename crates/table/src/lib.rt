// The answer table: its words, its length (21), what is read of it, and the table of a state written whole.
#![tactic(auto)]

pub mod form;
pub mod header;
pub mod keys;
pub mod length;
pub mod lent;
pub mod read;
pub mod words;

ghost use Rattle.std.specs.Prelude.{◌≡◌, length};
ghost use Rattle.std.proofs.lemmas.List.Edits.{sets};
ghost use Rattle.procedure.specs.Table.{node_words, table_of, header_length};
ghost use Rattle.table.specs.Writable.{Listed, Writable};

use crate::words::HEADER;

// Writes the label and the predecessor of each node, after the header. The two are slices, as they stand in a run's array.
fn write_nodes(table: &mut [u32], labels: &[u32], predecessors: &[u32])
    requires { Listed labels.now predecessors.now (length table.old) }
    ensures { table.new ≡ sets table.old header_length
        (node_words labels.now predecessors.now (length labels.now)) }
{
    for (v, label) in labels.iter().enumerate() {
        let first = crate::words::label_word(*label);
        let second = crate::words::predecessor_word(predecessors[v]);
        crate::words::write_pair(table, HEADER + 2 * v, first, second);
    }
}

// Writes the whole table.
pub fn write_table(
    labels: &[u32],
    predecessors: &[u32],
    counts: &[u64],
    ended: bool,
    table: &mut [u32],
)
    requires { Writable counts.now labels.now predecessors.now (length table.old) }
    ensures { table.new ≡ table_of ended counts.now labels.now predecessors.now
        (length labels.now) }
{
    crate::header::write_header(table, ended, counts);
    write_nodes(table, labels, predecessors);
}
