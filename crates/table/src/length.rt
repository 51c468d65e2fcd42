// The lengths of an answer table, in its two forms.
ghost use Rattle.std.specs.Prelude.{◌≡◌, ◌≤◌};
ghost use Rattle.calls.specs.Tables.{table_length, long_length};
ghost use Rattle.sheet.specs.Limits.{most_nodes, most_arcs};

// How many words the table of so many nodes has.
pub fn table_length(nodes: usize) -> usize
    requires { nodes ≤ most_nodes }
    ensures { result ≡ table_length nodes }
{
    crate::words::HEADER + 2 * nodes
}

// How many words the longer table of so many nodes and arcs has.
pub fn long_length(nodes: usize, arcs: usize) -> usize
    requires { (nodes ≤ most_nodes) × (arcs ≤ most_arcs) }
    ensures { result ≡ long_length nodes arcs }
{
    table_length(nodes) + arcs
}
