// The text that `marks` prints, written into a lent buffer: the listing of an answer table, or a refusal.
#![tactic(auto)]

pub mod cells;
pub mod node_lines;
pub mod status_line;
pub mod text;

ghost use Rattle.std.specs.Prelude.{◌≤◌, length};
ghost use Rattle.listing.specs.Inner.{ListingLent};
ghost use Rattle.listing.specs.Listing.{listing_of, refused_line};
ghost use Rattle.listing.specs.Printed.{Filled};

use text::Text;

// No listing has more bytes, as specs/Listing.antt says.
pub const MOST_LISTING: usize = 89 + 18 * sheet::MOST_SPANS + 25 * sheet::MOST_NODES as usize;

// Writes the listing of a table of a sheet of so many spans and nodes to the front of the buffer, and returns how many bytes it has.
pub fn write_listing(table: &[u32], spans: usize, nodes: usize, out: &mut [u8]) -> usize
    requires { ListingLent table.now spans nodes out.old }
    ensures { Filled out.old (listing_of table.now spans nodes) out.new result }
{
    let mut text = Text::new(out);
    status_line::put_status_line(table, spans, &mut text);
    node_lines::put_node_lines(table, nodes, &mut text);
    text.bytes()
}

// Writes the line of a refusal to the front of the buffer, and returns how many bytes it has.
pub fn write_refused(n: u8, out: &mut [u8]) -> usize
    requires { 12 ≤ length out.old }
    ensures { Filled out.old (refused_line n) out.new result }
{
    let mut text = Text::new(out);
    text.put_text(b"refused ");
    text.put_number(u64::from(n));
    text.put_byte(b'\n');
    text.bytes()
}
