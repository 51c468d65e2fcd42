// The arcs of a converted sheet, written into a lent buffer.
ghost use Rattle.std.specs.Prelude.{◌≡◌, [], ◌+◌, ◌*◌, ◌≤◌, ◌<◌, length, if◌then◌else◌};
ghost use Rattle.sheet.specs.Limits.{most_arcs};
ghost use Rattle.sheet.specs.Sections.{arc_count};
ghost use Rattle.sheet_writer.specs.Words.{words_put};
ghost use Rattle.conversion.specs.Converted.{kept_arc, new_arc, arc_pair, converted_arcs};
ghost use Rattle.conversion.specs.Inner.{Numbers};
ghost use Rattle.conversion_numbers.specs.Numbers.{number_of};

use conversion_numbers::DROPPED;
use sheet::ARC_NUMBERS;
use sheet::located::Sheet;

// The two words of arc a, if it is kept, at the place of its new number.
fn write_arc(s: &Sheet, arcs: &[u16; ARC_NUMBERS], a: usize, out: &mut [u8], place: usize)
    requires few { arc_count s.now ≤ most_arcs }
    requires numbers { Numbers (number_of (kept_arc s.now)) arcs.now (arc_count s.now) }
    requires there { a < arc_count s.now }
    requires room { 4 * (place + length (converted_arcs s.now)) ≤ length out.old }
    ensures { out.new ≡ words_put out.old (place + 2 * new_arc s.now a)
        (if kept_arc s.now a then arc_pair s.now a else []) }
{
    let number = arcs[a];
    if number == DROPPED {
        return;
    }
    let bytes = s.bytes();
    let first = 2 + s.spans() + s.holds();
    let at = place + 2 * usize::from(number);
    sheet_writer::write_words(bytes, first + 2 * a, 2, out, at);
}

// The arcs that are kept, from word `place` on.
pub fn write_arcs(s: &Sheet, arcs: &[u16; ARC_NUMBERS], out: &mut [u8], place: usize)
    requires few { arc_count s.now ≤ most_arcs }
    requires numbers { Numbers (number_of (kept_arc s.now)) arcs.now (arc_count s.now) }
    requires room { 4 * (place + length (converted_arcs s.now)) ≤ length out.old }
    ensures { out.new ≡ words_put out.old place (converted_arcs s.now) }
{
    for a in 0..s.arcs() {
        write_arc(s, arcs, a, out, place);
    }
}
