// The division checker: refusals 11 to 14, over the part of the sheet after the last arc. Word k of that part is region k + 1. Every check is linear
// in the words.
#![tactic(auto)]

pub mod heights;
pub mod leaves;
pub mod parents;

ghost use Rattle.std.specs.Prelude.{◌≡◌, ◌≤◌};
ghost use Rattle.sheet.specs.Limits.{most_arcs, most_region_words};
ghost use Rattle.sheet.specs.Words.{words};
ghost use Rattle.answer.specs.Answer.{accepted, lowest};
ghost use Rattle.answer.specs.Reasons.{checked};
ghost use Rattle.judgement.specs.Judgement.{division_refusals};
ghost use Rattle.judge_division.specs.Nesting.{nesting_refusals};

use crate::parents::Nested;
use answer::reason::Reason;
use sheet::REGION_NUMBERS;

// Refusals 13 and 14.
#[tactic(auto, unfolding(judgement::specs::Division::spans_differ))]
fn check_nesting(n: &Nested, spans: usize) -> Result<(), Reason>
    ensures { checked result ≡ lowest (nesting_refusals n.now.bytes.now spans) accepted }
{
    let mut heights = [0u16; REGION_NUMBERS];
    crate::heights::find_heights(n, &mut heights)?;
    if spans != usize::from(heights[0]) {
        return Err(Reason::Height);
    }
    Ok(())
}

// Refusals 11 to 14 of the region words of a sheet with so many arcs and spans.
#[tactic(auto, unfolding(judgement::specs::Judgement::division_refusals))]
pub fn check_division(d: &[u8], arcs: u16, spans: usize) -> Result<(), Reason>
    requires { (words d.now ≤ most_region_words) × (arcs ≤ most_arcs) }
    ensures { checked result ≡ lowest (division_refusals d.now arcs spans) accepted }
{
    if crate::parents::wrong_parents(d) {
        return Err(Reason::Parent);
    }
    if crate::leaves::wrong_leaves(d, arcs) {
        return Err(Reason::Leaves);
    }
    check_nesting(&Nested { bytes: d }, spans)
}
