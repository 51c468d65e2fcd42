// The region words of a canonical form, written into a lent buffer.
ghost use Rattle.std.specs.Prelude.{◌≡◌, List, ◌++◌, ℕ, ◌<◌, length, drop};
ghost use Rattle.sheet.specs.Limits.{region_numbers};
ghost use Rattle.sheet.specs.Words.{words};
ghost use Rattle.canonical_form.specs.Canonical.{canonical};
ghost use Rattle.canonical.specs.Writing.{new_region_word, Writable};

// The word of the region of word k, whose parent has the new number `above`.
fn region_word(d: &[u8], k: usize, above: u16) -> u32
    requires { (k < words d.now) × (above < region_numbers) }
    ensures { result ≡ new_region_word d.now k above }
{
    if sheet::fields::leaf_word(d, k) {
        let arc = sheet::fields::arc_word(d, k);
        return sheet_writer::leaf_word_of(above, arc.0);
    }
    sheet_writer::inner_word_of(above)
}

// The region words, each at the place of its region's new number.
pub fn write_regions(d: &[u8], numbers: &[u16], e: usize, out: &mut [u8])
    requires { (b : List ℕ) × Writable b d.now numbers.now e out.old }
    ensures { (b : List ℕ) → Writable b d.now numbers.now e out.old
        → out.new ≡ canonical b ++ drop (length b) out.old }
{
    for k in 0..d.len() / 4 {
        let parent = sheet::fields::parent_word(d, k) as u16;
        let above = numbers[usize::from(parent)];
        let region = k + 1;
        let number = usize::from(numbers[region]);
        let place = e + number - 1;
        sheet_writer::put_word(out, place, region_word(d, k, above));
    }
}
