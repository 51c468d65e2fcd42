// How a sheet is read: a struct that holds the sheet and a place in it, and gives the words from there on, and what is left of the sheet. `sheet::scan` does
// the work.
#![tactic(auto)]

ghost use Rattle.std.specs.Prelude.{◌≡◌, ◌≤◌};
ghost use Rattle.std.specs.Iterator.{at_most};
ghost use Rattle.sheet.specs.Words.{words};
ghost use Rattle.sheet.specs.Sections.{part_after, region_words};
ghost use Rattle.sheet_reader.specs.Places.{reader_standing, place_held, reads, left};

use sheet::Cursor;
use sheet::located::Sheet;

// "A sheet is read word by word from its front": `place` words have been read.
#[derive(Clone, Copy)]
pub struct Reader<'a> {
    pub sheet: &'a [u8],
    pub place: usize,
}

// The words from the place on.
impl<'a> Iterator for Reader<'a> {
    type Item = u32;

    ghost next_gives = { reads };

    ghost remaining = { λ r. at_most (left r) };

    fn next(&mut self) -> Option<u32> {
        let here = Cursor { place: self.place };
        let (word, after) = sheet::scan::next_word(self.sheet, here)?;
        self.place = after.place;
        Some(word)
    }
}

impl<'a> Reader<'a> {
    // A reader of a sheet, at a place.
    pub fn at(sheet: &'a [u8], c: Cursor) -> Self
        ensures { result ≡ reader_standing sheet.entry c }
    {
        Reader {
            sheet,
            place: c.place,
        }
    }

    // The place that the reader is at.
    pub fn place(self) -> Cursor
        ensures { result ≡ place_held self.entry }
    {
        Cursor { place: self.place }
    }

    // What is left of the sheet.
    pub fn rest(self) -> &'a [u8]
        requires { self.place ≤ words self.sheet.now }
        ensures { result.now ≡ part_after self.entry.sheet.now (place_held self.entry) }
    {
        sheet::scan::part_after(self.sheet, self.place())
    }
}

// The region words: the part of the sheet after the last arc.
pub fn region_words<'a>(s: &Sheet<'a>) -> &'a [u8]
    ensures { result.now ≡ region_words s.now }
{
    Reader::at(s.bytes(), Cursor { place: s.after() }).rest()
}
