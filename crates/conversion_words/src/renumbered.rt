// The region words of a convertible sheet whose arcs and regions that are kept have new numbers: what the functions that write the new words are lent.
ghost use Rattle.std.specs.Prelude.{◌≡◌, List, ℕ};
ghost use Rattle.sheet.specs.Sections.{region_words};
ghost use Rattle.conversion_numbers.specs.Numbers.{Numbered};

use sheet::located::Sheet;
use sheet::{ARC_NUMBERS, REGION_NUMBERS};

// The region words, and an entry for each arc and each region. The sheet is not lent: what is promised holds of each that has these.
#[derive(Drop)]
pub struct Renumbered<'b, 'a, 'r> {
    pub words: &'b [u8],
    pub arcs: &'a [u16; ARC_NUMBERS],
    pub regions: &'r [u16; REGION_NUMBERS],
    pub ghost numbered: { ∥ ((b : List ℕ) × Numbered b words.now arcs.now regions.now) ∥₁ },
}

impl<'b, 'a, 'r> Renumbered<'b, 'a, 'r> {
    // Finds the region words of a sheet.
    pub fn new(
        sheet: &Sheet<'b>,
        arcs: &'a [u16; ARC_NUMBERS],
        regions: &'r [u16; REGION_NUMBERS],
    ) -> Self
        requires { Numbered sheet.now (region_words sheet.now) arcs.now regions.now }
        ensures { (result.words.now ≡ region_words sheet.now) × (result.arcs.now ≡ arcs.now)
            × (result.regions.now ≡ regions.now) }
    {
        let words = sheet_reader::region_words(sheet);
        Renumbered {
            words,
            arcs,
            regions,
        }
    }
}
