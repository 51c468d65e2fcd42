// The lines of a listing after its first, each node, distance and feeding arc.
ghost use Rattle.std.specs.Prelude.{◌+◌, ◌*◌, ◌≤◌, length};
ghost use Rattle.calls.specs.Tables.{table_length};
ghost use Rattle.sheet.specs.Limits.{most_nodes};
ghost use Rattle.listing.specs.Listing.{node_line, node_lines, most_node_line};
ghost use Rattle.listing.specs.Inner.{Room, Wrote};

use crate::cells::put_payload;
use crate::text::Text;
use table::words::HEADER;

fn put_node_line(table: &[u32], v: usize, text: &mut Text)
    requires { (table_length v + 2 ≤ length table.now) × Room text.old (node_line table.now v) }
    ensures { Wrote text.old (node_line table.now v) text.new }
{
    let word = HEADER + 2 * v;
    text.put_number(v as u64);
    put_payload(table, word, text);
    put_payload(table, word + 1, text);
    text.put_byte(b'\n');
}

// The lines of the first nodes.
pub fn put_node_lines(table: &[u32], nodes: usize, text: &mut Text)
    requires { (table_length nodes ≤ length table.now) × (nodes ≤ most_nodes) × (text.old.place + most_node_line * nodes ≤ length text.old.out.now) }
    ensures { Wrote text.old (node_lines table.now nodes) text.new }
{
    for v in 0..nodes {
        put_node_line(table, v, text);
    }
}
