// The sections of a sheet: reading it word by word, and where spans, holds, arcs and region words end.
ghost use Rattle.std.specs.Prelude.{◌≡◌, ◌&&◌, ◌+◌, ◌*◌, ◌≤◌, ◌<◌, eqb};
ghost use Rattle.sheet.specs.Words.{words, kind};
ghost use Rattle.sheet.specs.Kinds.{kind_number};
ghost use Rattle.sheet.specs.Sections.{part_after, kind_from, arcs_from};
ghost use Rattle.sheet.specs.Inner.{step_at, Located};

use crate::kind::Kind;
use crate::{Cursor, Sections};

// The word at a place with the place after it: "A sheet is read word by word from its front".
pub fn next_word(s: &[u8], c: Cursor) -> Option<(u32, Cursor)>
    ensures { result ≡ step_at s.now c }
{
    let i = c.place;
    if i < s.len() / 4 {
        return Some((crate::word_at(s, i), Cursor { place: i + 1 }));
    }
    None
}

// The part of the sheet after a place.
pub fn part_after(s: &[u8], c: Cursor) -> &[u8]
    requires { c.place ≤ words s.now }
    ensures { result.now ≡ part_after s.now c }
{
    let from = 4 * c.place;
    &s[from..]
}

// The place after the words of a kind that stand from c on.
fn past_kind(s: &[u8], c: Cursor, kind: Kind) -> Cursor
    requires { c.place ≤ words s.now }
    ensures { result.place ≡ c.place + kind_from (kind_number kind) s.now c.place }
{
    let total = s.len() / 4;
    let of_kind = (c.place..total).take_while(|i| kind.is_at(s, *i)).count();
    Cursor {
        place: c.place + of_kind,
    }
}

// Whether an arc stands at word i: kind 4, then kind 5.
fn arc_here(s: &[u8], i: usize) -> bool
    requires { i + 1 < words s.now }
    ensures { result ≡ (eqb (kind s.now i) 4 && eqb (kind s.now (i + 1)) 5) }
{
    Kind::Ends.is_at(s, i) && Kind::Length.is_at(s, i + 1)
}

// The place after the arcs that stand from c on.
fn past_arcs(s: &[u8], c: Cursor) -> Cursor
    requires { c.place ≤ words s.now }
    ensures { result.place ≡ c.place + 2 * arcs_from s.now c.place }
{
    let pairs = (s.len() / 4 - c.place) / 2;
    let arcs = (0..pairs)
        .take_while(|a| arc_here(s, c.place + 2 * *a))
        .count();
    Cursor {
        place: c.place + 2 * arcs,
    }
}

// The sections of a sheet that has its first two words.
pub fn find_sections(s: &[u8]) -> Sections
    requires { 2 ≤ words s.now }
    ensures { Located s.now result }
{
    let holds = past_kind(s, Cursor { place: 2 }, Kind::Span);
    let arcs = past_kind(s, holds, Kind::Hold);
    let regions = past_arcs(s, arcs);
    Sections {
        spans: holds.place - 2,
        first: arcs.place,
        arcs: (regions.place - arcs.place) / 2,
        after: regions.place,
    }
}
