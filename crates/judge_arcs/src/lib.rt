// The refusals of a sheet's arcs: 8 to 10, 34 after 9 and 35 after 10, and of refusal 3 what it asks of an arc's words.
#![tactic(auto)]

pub mod degrees;
pub mod self_arcs;

ghost use Rattle.std.specs.Prelude.{◌≡◌, ◌≤◌, ◌<◌};
ghost use Rattle.indices.specs.Tests.{any};
ghost use Rattle.sheet.specs.Limits.{most_nodes, most_arcs, most_arcs_each_way};
ghost use Rattle.sheet.specs.Sections.{node_count, arc_count};
ghost use Rattle.answer.specs.Answer.{accepted, lowest};
ghost use Rattle.answer.specs.Reasons.{checked};
ghost use Rattle.judgement.specs.Form.{arc_bits};
ghost use Rattle.judgement.specs.Arcs.{end_outside, ends_outside, lengths_outside, holds_outside};
ghost use Rattle.judgement.specs.Judgement.{arc_refusals};
ghost use Rattle.judge_arcs.specs.Fields.{field_refusals};

use answer::reason::Reason;
use sheet::Arc;
use sheet::located::Sheet;

// Refusal 3, of the arcs: a bit set that must be zero.
pub fn bit_set(s: &Sheet) -> bool
    requires { arc_count s.now < 65536 }
    ensures { result ≡ any (arc_bits s.now) (arc_count s.now) }
{
    (0..s.arcs() as u16).any(|a| s.ends_payload(Arc(a)) >= 1048576)
}

// Whether an end of an arc is no node.
fn arc_outside(s: &Sheet, a: Arc) -> bool
    requires { a.0 < arc_count s.now }
    ensures { result ≡ end_outside s.now a.0 }
{
    let n = s.node_count();
    n <= u32::from(s.tail(a).0) || n <= u32::from(s.head(a).0)
}

// Refusal 8: some arc has an end that is no node.
fn ends_outside(s: &Sheet) -> bool
    requires { arc_count s.now ≤ most_arcs }
    ensures { result ≡ ends_outside s.now }
{
    (0..s.arcs() as u16).any(|a| arc_outside(s, Arc(a)))
}

// Refusal 9: some length is above its limit.
fn lengths_outside(s: &Sheet) -> bool
    requires { arc_count s.now ≤ most_arcs }
    ensures { result ≡ lengths_outside s.now }
{
    (0..s.arcs() as u16).any(|a| s.length(Arc(a)) > sheet::MOST_LENGTH)
}

// Refusal 34: some length with its tail's hold added is above that limit.
fn holds_outside(s: &Sheet) -> bool
    requires { arc_count s.now ≤ most_arcs }
    ensures { result ≡ holds_outside s.now }
{
    (0..s.arcs() as u16).any(|a| s.taken_length(Arc(a)) > sheet::MOST_LENGTH)
}

// Refusals 8, 9 and 34.
fn check_fields(s: &Sheet) -> Result<(), Reason>
    requires { arc_count s.now ≤ most_arcs }
    ensures { checked result ≡ lowest (field_refusals s.now) accepted }
{
    if ends_outside(s) {
        return Err(Reason::Ends);
    }
    if lengths_outside(s) {
        return Err(Reason::Length);
    }
    if holds_outside(s) {
        return Err(Reason::HeldLength);
    }
    Ok(())
}

// Refusals 8 to 10, 34 after 9, and 35 after 10 where self-arcs are retired.
#[tactic(auto, unfolding(judgement::specs::Judgement::arc_refusals))]
pub fn check_arcs(s: &Sheet, retired: bool) -> Result<(), Reason>
    requires { (arc_count s.now ≤ most_arcs) × (node_count s.now ≤ most_nodes) }
    ensures { checked result ≡ lowest (arc_refusals most_arcs_each_way retired s.now) accepted }
{
    check_fields(s)?;
    if crate::degrees::too_many_at_node(s) {
        return Err(Reason::Degree);
    }
    if retired && crate::self_arcs::self_arcs(s) {
        return Err(Reason::SelfArc);
    }
    Ok(())
}
