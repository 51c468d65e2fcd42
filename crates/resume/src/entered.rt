// The labels, predecessors and counts of a lent table, entered into a run.
ghost use Rattle.std.specs.Prelude.{◌≡◌, ◌≤◌, length};
ghost use Rattle.indices.specs.Columns.{column};
ghost use Rattle.procedure.specs.Table.{counts_length};
ghost use Rattle.calls.specs.Tables.{table_length, count_in};
ghost use Rattle.resume.specs.Nodes.{NodesLent, NodesEntered};

use run_arrays::arrays::Run;
use sheet::Node;

// Enters the label and the predecessor of each of n nodes. Keys and counts stay.
pub fn enter_nodes(table: &[u32], n: u16, run: &mut Run)
    requires { NodesLent table.now n run.old }
    ensures { NodesEntered table.now n run.old run.new }
{
    for v in 0..n {
        let label = table::read::label_of(table, Node(v));
        let predecessor = table::read::predecessor_of(table, Node(v));
        run.set_node(Node(v), label, predecessor);
    }
}

// Enters the counts.
pub fn enter_counts(table: &[u32], counts: &mut [u64])
    requires { (table_length 0 ≤ length table.now) × (length counts.old ≡ counts_length) }
    ensures { counts.new ≡ column counts_length (count_in table.now) }
{
    for (i, count) in counts.iter_mut().enumerate() {
        *count = table::read::count_of(table, i);
    }
}
