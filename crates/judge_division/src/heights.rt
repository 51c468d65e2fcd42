// The heights of the regions, for the judge and for a run: one pass from the last region back, in which each region hands its height and one more to its
// parent, which keeps the largest.
ghost use Rattle.std.specs.Prelude.{◌≡◌, [], ◌∷◌, max, ◌≤◌, ◌<◌, get_or, replicate, OnOk, OnErr};
ghost use Rattle.sheet.specs.Limits.{region_numbers};
ghost use Rattle.sheet.specs.Words.{words};
ghost use Rattle.answer.specs.Answer.{input, ◌when◌, accepted, lowest};
ghost use Rattle.answer.specs.Reasons.{checked};
ghost use Rattle.judgement.specs.Division.{childless_regions};
ghost use Rattle.judge_division.specs.Heights.{Passable, raised, handed_up, holds_none, HeightsFound};

use crate::parents::Nested;
use answer::reason::Reason;
use sheet::{REGION_NUMBERS, Region};

// Region r holds the largest of what is handed to it.
pub fn hand_to(heights: &mut [u16; REGION_NUMBERS], r: Region, x: u16)
    requires { r.0 < region_numbers }
    ensures { heights.new ≡ raised heights.old r.0 x }
{
    let i = usize::from(r.0);
    heights[i] = heights[i].max(x);
}

// The turn of region r: refusal 13 if it is inner and holds 0. If not, it hands what it holds and one more to its parent.
fn hand_up(n: &Nested, heights: &mut [u16; REGION_NUMBERS], r: Region) -> Result<(), Reason>
    requires { (0 < r.0) × (r.0 ≤ words n.now.bytes.now) × (get_or heights.old r.0 0 < 65535) }
    ensures answer { checked result ≡ lowest (input 13 when holds_none n.now.bytes.now heights.old r.0 ∷ []) accepted }
    ensures handed { OnOk result (heights.new ≡ handed_up n.now.bytes.now heights.old r.0) }
    ensures kept { OnErr result (heights.new ≡ heights.old) }
{
    let own = heights[usize::from(r.0)];
    let least = u16::from(!sheet::fields::is_leaf(n.bytes, r));
    if own < least {
        return Err(Reason::Childless);
    }
    hand_to(heights, n.parent(r), own + 1);
    Ok(())
}

// Finds each region's height, or refusal 13: a region whose turn comes with 0 is a leaf or has no child.
pub fn find_heights(n: &Nested, heights: &mut [u16; REGION_NUMBERS]) -> Result<(), Reason>
    requires { heights.old ≡ replicate region_numbers 0 }
    ensures answer { checked result ≡ lowest (input 13 when childless_regions n.now.bytes.now ∷ []) accepted }
    ensures found { OnOk result (HeightsFound n.now.bytes.now heights.new) }
{
    for r in (1..=(n.bytes.len() / 4) as u16).rev() {
        hand_up(n, heights, Region(r))?;
    }
    heights[0] = heights[0].max(1);
    Ok(())
}
