// The region words of a converted sheet, written into a lent buffer.
ghost use Rattle.std.specs.Prelude.{◌≡◌, true, List, [], ◌∷◌, ℕ, suc, ◌+◌, ◌<◌, if◌then◌else◌};
ghost use Rattle.indices.specs.Tests.{count};
ghost use Rattle.sheet.specs.Words.{words};
ghost use Rattle.sheet_writer.specs.Words.{words_put};
ghost use Rattle.conversion.specs.Converted.{kept_region, new_word, converted_regions};
ghost use Rattle.conversion_numbers.specs.Numbers.{Numbered};
ghost use Rattle.conversion_words.specs.Writing.{RegionsWritable};

use crate::renumbered::Renumbered;
use conversion_numbers::DROPPED;

// The word of the region of word k, which is kept, under new numbers.
fn new_word(n: &Renumbered, k: usize) -> u32
    requires { ((b : List ℕ) × Numbered b n.now.words.now n.now.arcs.now n.now.regions.now × (kept_region b (suc k) ≡ true))
        × (k < words n.now.words.now) }
    ensures { (b : List ℕ) → Numbered b n.now.words.now n.now.arcs.now n.now.regions.now → kept_region b (suc k) ≡ true
        → result ≡ new_word b k }
{
    let parent = sheet::fields::parent_word(n.words, k) as u16;
    let above = n.regions[usize::from(parent)];
    if !sheet::fields::leaf_word(n.words, k) {
        return sheet_writer::inner_word_of(above);
    }
    let arc = sheet::fields::arc_word(n.words, k).0;
    let number = n.arcs[usize::from(arc)];
    sheet_writer::leaf_word_of(above, number)
}

// The word of the region of word k, if it is kept, at the place of its new number.
fn write_region(n: &Renumbered, k: usize, out: &mut [u8], place: usize)
    requires { ((b : List ℕ) × RegionsWritable b n.now.words.now n.now.arcs.now n.now.regions.now out.old place)
        × (k < words n.now.words.now) }
    ensures { (b : List ℕ) → RegionsWritable b n.now.words.now n.now.arcs.now n.now.regions.now out.old place
        → out.new ≡ words_put out.old (place + count (λ j. kept_region b (suc j)) k)
        (if kept_region b (suc k) then new_word b k ∷ [] else []) }
{
    let number = n.regions[k + 1];
    if number == DROPPED {
        return;
    }
    let i = place + usize::from(number) - 1;
    sheet_writer::put_word(out, i, new_word(n, k));
}

// The region words that are kept, from word `place` on.
pub fn write_regions(n: &Renumbered, out: &mut [u8], place: usize)
    requires { (b : List ℕ) × RegionsWritable b n.now.words.now n.now.arcs.now n.now.regions.now out.old place }
    ensures { (b : List ℕ) → RegionsWritable b n.now.words.now n.now.arcs.now n.now.regions.now out.old place
        → out.new ≡ words_put out.old place (converted_regions b) }
{
    for k in 0..n.words.len() / 4 {
        write_region(n, k, out, place);
    }
}
