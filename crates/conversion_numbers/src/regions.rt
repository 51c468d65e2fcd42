// The regions of a sheet that are kept, under their new numbers, and the new height of region 0. Every pass is linear in the region words.
ghost use Rattle.std.specs.Prelude.{◌≡◌, List, true, ℕ, ◌≤◌, ◌<◌, replicate};
ghost use Rattle.indices.specs.Columns.{at};
ghost use Rattle.sheet.specs.Limits.{region_numbers};
ghost use Rattle.sheet.specs.Words.{words};
ghost use Rattle.sheet.specs.Sections.{arc_count, region_words};
ghost use Rattle.sheet.specs.Regions.{region_count, is_leaf};
ghost use Rattle.judgement.specs.Judgement.{Convertible};
ghost use Rattle.conversion.specs.Converted.{kept_arc, kept_leaf, kept_region, new_region, new_height};
ghost use Rattle.conversion.specs.Inner.{hands_up, Heights, Numbers};
ghost use Rattle.conversion_numbers.specs.Numbers.{number_of, ArcsNumbered};

use judge_division::parents::Nested;
use sheet::located::Sheet;
use sheet::{ARC_NUMBERS, REGION_NUMBERS, Region};

// The region words of a convertible sheet, and its arcs' new numbers. The sheet is not lent: what is promised holds of each that has these.
#[derive(Drop)]
pub struct ArcNumbers<'b, 'a> {
    pub regions: &'b [u8],
    pub arcs: &'a [u16; ARC_NUMBERS],
    pub ghost numbered: { ∥ ((b : List ℕ) × ArcsNumbered b regions.now arcs.now) ∥₁ },
}

impl<'b, 'a> ArcNumbers<'b, 'a> {
    // Finds the region words of a sheet.
    pub fn new(sheet: &Sheet<'b>, arcs: &'a [u16; ARC_NUMBERS]) -> Self
        requires { Convertible sheet.now × Numbers (number_of (kept_arc sheet.now)) arcs.now (arc_count sheet.now) }
        ensures { (result.regions.now ≡ region_words sheet.now) × (result.arcs.now ≡ arcs.now) }
    {
        let regions = sheet_reader::region_words(sheet);
        ArcNumbers { regions, arcs }
    }

    // Whether a leaf is kept: its arc has a number.
    fn kept_leaf(&self, r: Region) -> bool
        requires { (r.0 ≤ words self.now.regions.now) × (is_leaf self.now.regions.now r.0 ≡ true) }
        ensures { (b : List ℕ) → ArcsNumbered b self.now.regions.now self.now.arcs.now → result ≡ kept_leaf b r.0 }
    {
        let a = sheet::fields::arc_word(self.regions, usize::from(r.0) - 1);
        self.arcs[usize::from(a.0)] != crate::DROPPED
    }

    // What region r hands to its parent, once its children have handed up: 0 if it is not kept, and else its new height and one more.
    fn hands_up(&self, best: &[u16; REGION_NUMBERS], r: Region) -> u16
        requires { (r.0 ≤ words self.now.regions.now) × (at best.now r.0 < 65535) }
        ensures { (b : List ℕ) → ArcsNumbered b self.now.regions.now self.now.arcs.now → result ≡ hands_up b best.now r.0 }
    {
        if sheet::fields::is_leaf(self.regions, r) {
            return u16::from(self.kept_leaf(r));
        }
        let own = best[usize::from(r.0)];
        if own == 0 {
            return 0;
        }
        own + 1
    }

    // What each region's children hand up, in one pass from the last region back; and the new height of region 0.
    pub fn hand_heights(&self, best: &mut [u16; REGION_NUMBERS]) -> u16
        requires { best.old ≡ replicate region_numbers 0 }
        ensures { (b : List ℕ) → ArcsNumbered b self.now.regions.now self.now.arcs.now
            → Heights b best.new × (result ≡ new_height b) }
    {
        let nested = Nested {
            bytes: self.regions,
        };
        for r in (1..=(self.regions.len() / 4) as u16).rev() {
            let height = self.hands_up(best, Region(r));
            judge_division::heights::hand_to(best, nested.parent(Region(r)), height);
        }
        best[0].max(1)
    }

    // Whether a region is kept.
    fn stays(&self, best: &[u16; REGION_NUMBERS], r: Region) -> bool
        requires { r.0 ≤ words self.now.regions.now }
        ensures { (b : List ℕ) → ArcsNumbered b self.now.regions.now self.now.arcs.now → Heights b best.now
            → result ≡ kept_region b r.0 }
    {
        if r.0 == 0 {
            return true;
        }
        if sheet::fields::is_leaf(self.regions, r) {
            return self.kept_leaf(r);
        }
        0 < best[usize::from(r.0)]
    }

    // Enters the new number of each region that is kept, and `DROPPED` for another one. How many are kept.
    pub fn number_regions(
        &self,
        best: &[u16; REGION_NUMBERS],
        numbers: &mut [u16; REGION_NUMBERS],
    ) -> u16
        ensures { (b : List ℕ) → ArcsNumbered b self.now.regions.now self.now.arcs.now → Heights b best.now
            → Numbers (number_of (kept_region b)) numbers.new (region_count self.now.regions.now)
            × (result ≡ new_region b (region_count self.now.regions.now)) }
    {
        let n = self.regions.len() / 4 + 1;
        crate::number(numbers, n, |r| self.stays(best, Region(r as u16)))
    }
}
