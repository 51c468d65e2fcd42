// Words of a sheet, made and written into a lent buffer of bytes.
#![tactic(auto)]

ghost use Rattle.std.specs.Prelude.{◌≡◌, true, false, [], ◌∷◌, ◌+◌, ◌*◌, ◌≤◌, ◌<◌, length};
ghost use Rattle.sheet.specs.Limits.{arc_numbers, region_numbers};
ghost use Rattle.sheet.specs.Words.{words};
ghost use Rattle.sheet.specs.Regions.{region_word};
ghost use Rattle.sheet_writer.specs.Words.{words_from, words_put};

use sheet::kind::Kind;

// How many numbers the field of an arc has.
const ARCS: u32 = sheet::ARC_NUMBERS as u32;

// The word of an inner region.
pub fn inner_word_of(parent: u16) -> u32
    requires { parent < region_numbers }
    ensures { result ≡ region_word false parent 0 }
{
    Kind::Inner.word(u32::from(parent))
}

// The word of a leaf.
pub fn leaf_word_of(parent: u16, arc: u16) -> u32
    requires { (parent < region_numbers) × (arc < arc_numbers) }
    ensures { result ≡ region_word true parent arc }
{
    Kind::Leaf.word(u32::from(parent) * ARCS + u32::from(arc))
}

// Word i of `out` becomes w.
pub fn put_word(out: &mut [u8], i: usize, w: u32)
    requires { 4 * i + 4 ≤ length out.old }
    ensures { out.new ≡ words_put out.old i (w ∷ []) }
{
    let at = 4 * i;
    out[at..at + 4].copy_from_slice(&w.to_be_bytes());
}

// The words of a sheet from one on, so many, become those of `out` from word `place` on.
pub fn write_words(s: &[u8], from: usize, count: usize, out: &mut [u8], place: usize)
    requires { (from + count ≤ words s.now) × (4 * (place + count) ≤ length out.old) }
    ensures { out.new ≡ words_put out.old place (words_from s.now from count) }
{
    // Word by word: a copy of the whole part is made by memmove, which the library would need from outside.
    for k in 0..count {
        put_word(out, place + k, sheet::word_at(s, from + k));
    }
}
