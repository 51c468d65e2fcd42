// The cells of a listing, figures of an answer table.
ghost use Rattle.std.specs.Prelude.{◌<◌, length};
ghost use Rattle.calls.specs.Tables.{payload_in};
ghost use Rattle.listing.specs.Listing.{cell, spaced};
ghost use Rattle.listing.specs.Inner.{Room, Wrote};

use crate::text::Text;

// A distance or a feeding arc.
fn put_cell(payload: u32, text: &mut Text)
    requires { Room text.old (cell payload) }
    ensures { Wrote text.old (cell payload) text.new }
{
    if payload == sheet::NONE {
        text.put_byte(b'-');
    } else {
        text.put_number(u64::from(payload));
    }
}

// The payload of a word, after a space.
pub fn put_payload(table: &[u32], i: usize, text: &mut Text)
    requires { (i < length table.now) × Room text.old (spaced (payload_in table.now i)) }
    ensures { Wrote text.old (spaced (payload_in table.now i)) text.new }
{
    text.put_byte(b' ');
    put_cell(table::read::payload_at(table, i), text);
}
