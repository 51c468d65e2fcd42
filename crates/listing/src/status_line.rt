// The first line of a listing, status and counts.
ghost use Rattle.std.specs.Prelude.{◌++◌, ◌+◌, ◌≤◌, ◌<◌, length};
ghost use Rattle.sheet.specs.Limits.{most_spans};
ghost use Rattle.procedure.specs.Table.{counts_length, header_length};
ghost use Rattle.calls.specs.Tables.{count_in};
ghost use Rattle.listing.specs.Text.{decimal};
ghost use Rattle.listing.specs.Listing.{status, levels, inner, status_line};
ghost use Rattle.listing.specs.Inner.{Room, Wrote};

use crate::text::Text;
use run_counts::array::{INNER_PLACE, UPDATES_PLACE};

// A count after its name.
fn put_count(table: &[u32], i: usize, name: &[u8], text: &mut Text)
    requires { (i < counts_length) × (header_length ≤ length table.now) × Room text.old (name.now ++ decimal (count_in table.now i)) }
    ensures { Wrote text.old (name.now ++ decimal (count_in table.now i)) text.new }
{
    text.put_text(name);
    text.put_number(table::read::count_of(table, i));
}

fn put_status(table: &[u32], text: &mut Text)
    requires { (header_length ≤ length table.now) × Room text.old (status table.now) }
    ensures { Wrote text.old (status table.now) text.new }
{
    if table::read::status_of(table) == 1 {
        text.put_text(b"ended");
    } else {
        text.put_text(b"paused");
    }
}

// The counts of the inner regions of the first so many heights, from height 1 up.
fn put_levels(table: &[u32], spans: usize, text: &mut Text)
    requires { (header_length ≤ length table.now) × (spans ≤ most_spans) × Room text.old (levels table.now spans) }
    ensures { Wrote text.old (levels table.now spans) text.new }
{
    for i in 0..spans {
        put_count(table, INNER_PLACE + i, b" ", text);
    }
}

// The word `inner`, and then those counts.
fn put_inner(table: &[u32], spans: usize, text: &mut Text)
    requires { (header_length ≤ length table.now) × (spans ≤ most_spans) × Room text.old (inner table.now spans) }
    ensures { Wrote text.old (inner table.now spans) text.new }
{
    text.put_text(b" inner");
    put_levels(table, spans, text);
}

pub fn put_status_line(table: &[u32], spans: usize, text: &mut Text)
    requires { (header_length ≤ length table.now) × (spans ≤ most_spans) × Room text.old (status_line table.now spans) }
    ensures { Wrote text.old (status_line table.now spans) text.new }
{
    put_status(table, text);
    put_count(table, 0, b" rounds ", text);
    put_count(table, 1, b" leaves ", text);
    put_inner(table, spans, text);
    put_count(table, UPDATES_PLACE, b" updates ", text);
    text.put_byte(b'\n');
}
