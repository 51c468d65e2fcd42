// The regions of a sheet, their parents, arcs and heights, entered into slices. Every pass is linear in the region words.
ghost use Rattle.std.specs.Prelude.{◌≡◌, ◌≤◌, length};
ghost use Rattle.indices.specs.Columns.{at, column};
ghost use Rattle.sheet.specs.Limits.{most_region_words, region_numbers};
ghost use Rattle.sheet.specs.Words.{words};
ghost use Rattle.sheet.specs.Regions.{region_count};
ghost use Rattle.run_layout.specs.Regions.{ParentsLent, ParentsEntered, arc_entered};

use sheet::{REGION_NUMBERS, Region};

// Each region's parent; region 0 has none, and its entry stays.
pub fn enter_parents(d: &[u8], parents: &mut [u16])
    requires { ParentsLent d.now parents.old }
    ensures { ParentsEntered d.now parents.new }
{
    for k in 0..d.len() / 4 {
        parents[k + 1] = sheet::fields::parent_word(d, k) as u16;
    }
}

// What is entered as a region's arc: INNER where it is inner.
fn entered_arc(d: &[u8], r: Region) -> u16
    requires { r.0 ≤ words d.now }
    ensures { result ≡ arc_entered d.now r.0 }
{
    if !sheet::fields::is_leaf(d, r) {
        return run_arrays::arrays::INNER;
    }
    sheet::fields::arc_word(d, usize::from(r.0) - 1).0
}

// Each region's arc.
pub fn enter_region_arcs(d: &[u8], arcs: &mut [u16])
    requires { (words d.now ≤ most_region_words) × (length arcs.old ≡ region_count d.now) }
    ensures { arcs.new ≡ column (region_count d.now) (arc_entered d.now) }
{
    for (r, arc) in arcs.iter_mut().enumerate() {
        *arc = entered_arc(d, Region(r as u16));
    }
}

// The first heights that were found.
pub fn enter_heights(found: &[u16; REGION_NUMBERS], heights: &mut [u32])
    requires { length heights.old ≤ region_numbers }
    ensures { heights.new ≡ column (length heights.old) (at found.now) }
{
    for (i, height) in heights.iter_mut().enumerate() {
        *height = u32::from(found[i]);
    }
}
