// Refusals 4 to 7: the limits of nodes, source and spans, and of how many spans, arcs and region words there are.
ghost use Rattle.std.specs.Prelude.{◌≡◌, ◌<◌};
ghost use Rattle.answer.specs.Answer.{accepted, lowest};
ghost use Rattle.answer.specs.Reasons.{checked};
ghost use Rattle.judgement.specs.Form.{spans_outside, too_many, nodes_outside, source_outside, span_outside};
ghost use Rattle.judgement.specs.Judgement.{count_refusals};
ghost use Rattle.sheet.specs.Sections.{span_count};

use answer::reason::Reason;
use sheet::located::Sheet;

// Refusal 4: the node count is outside its limits.
#[tactic(auto, unfolding(judgement::specs::Form::nodes_outside))]
fn nodes_outside(s: &Sheet) -> bool
    ensures { result ≡ nodes_outside s.now }
{
    let n = s.node_count();
    n < 1 || n > sheet::MOST_NODES
}

// Refusal 5: the source is no node.
#[tactic(auto, unfolding(judgement::specs::Form::source_outside))]
fn source_outside(s: &Sheet) -> bool
    ensures { result ≡ source_outside s.now }
{
    s.node_count() <= s.source_number()
}

// Whether the span at place k is outside its limits.
fn span_outside(s: &Sheet, k: usize) -> bool
    requires { k < span_count s.now }
    ensures { result ≡ span_outside s.now k }
{
    let x = s.span(k);
    x < 1 || x > sheet::MOST_SPAN
}

// Refusal 6: a span is outside its limits.
fn spans_outside(s: &Sheet) -> bool
    ensures { result ≡ spans_outside s.now }
{
    (0..s.spans()).any(|k| span_outside(s, k))
}

// Refusal 7: more spans, arcs or region words than there may be.
#[tactic(auto, unfolding(judgement::specs::Form::too_many))]
fn too_many(s: &Sheet) -> bool
    ensures { result ≡ too_many s.now }
{
    s.spans() > sheet::MOST_SPANS
        || s.arcs() > sheet::MOST_ARCS
        || sheet_reader::region_words(s).len() / 4 > sheet::MOST_REGION_WORDS
}

// Refusals 4 to 7.
#[tactic(auto, unfolding(judgement::specs::Judgement::count_refusals))]
pub fn check_counts(s: &Sheet) -> Result<(), Reason>
    ensures { checked result ≡ lowest (count_refusals s.now) accepted }
{
    if nodes_outside(s) {
        return Err(Reason::Nodes);
    }
    if source_outside(s) {
        return Err(Reason::Source);
    }
    if spans_outside(s) {
        return Err(Reason::Spans);
    }
    if too_many(s) {
        return Err(Reason::TooMany);
    }
    Ok(())
}
