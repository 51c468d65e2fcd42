// The fields of a region word.
ghost use Rattle.std.specs.Prelude.{◌≡◌, ◌≤◌, ◌<◌};
ghost use Rattle.sheet.specs.Words.{words, payload};
ghost use Rattle.sheet.specs.Sections.{arc_count};
ghost use Rattle.sheet.specs.Inner.{Located};
ghost use Rattle.sheet.specs.Arcs.{ends_word, arc_length, end_of, hold, charged, taken_length};
ghost use Rattle.sheet.specs.Regions.{leaf_word, parent_word, arc_word, is_leaf};
ghost use Rattle.sheet.specs.Limits.{node_numbers, arc_numbers};

use crate::kind::Kind;
use crate::{Arc, Region};

// How many numbers the fields of a leaf have, by which a payload is taken apart.
const ARCS: u32 = crate::ARC_NUMBERS as u32;

const REGIONS: u32 = crate::REGION_NUMBERS as u32;

// Whether word k of the region words is a leaf.
pub fn leaf_word(d: &[u8], k: usize) -> bool
    requires { k < words d.now }
    ensures { result ≡ leaf_word d.now k }
{
    Kind::Leaf.is_at(d, k)
}

// The parent that word k of the region words names.
pub fn parent_word(d: &[u8], k: usize) -> u32
    requires { k < words d.now }
    ensures { result ≡ parent_word d.now k }
{
    let p = crate::payload_at(d, k);
    if leaf_word(d, k) {
        return p / ARCS % REGIONS;
    }
    p
}

// The arc that word k of the region words names, a leaf.
pub fn arc_word(d: &[u8], k: usize) -> Arc
    requires { k < words d.now }
    ensures { (result.0 ≡ arc_word d.now k) × (result.0 < arc_numbers) }
{
    Arc((crate::payload_at(d, k) % ARCS) as u16)
}

// Whether a region is a leaf: region 0 is none and has no word.
pub fn is_leaf(d: &[u8], r: Region) -> bool
    requires { r.0 ≤ words d.now }
    ensures { result ≡ is_leaf d.now r.0 }
{
    let i = r.0 as usize;
    if i == 0 {
        return false;
    }
    leaf_word(d, i - 1)
}
