// Refusal 2: whether the kinds of a sheet's words are in order, and whether it has as many holds as it may have.
ghost use Rattle.std.specs.Prelude.{◌≡◌};
ghost use Rattle.judgement.specs.Form.{wrong_holds};
ghost use Rattle.judgement.specs.Kinds.{may_begin, may_follow, may_end, wrong_kinds};

use sheet::Cursor;
use sheet::located::Sheet;
use sheet_reader::Reader;

// Whether a sheet may begin with a word of that kind.
#[tactic(auto, unfolding(judgement::specs::Kinds::may_begin))]
fn may_begin(kind: u32) -> bool
    ensures { result ≡ may_begin kind }
{
    kind == 1
}

// Whether a word of that kind may stand right after one of kind `before`: a case for each kind, in the order of the sheet's description, beside its own words.
#[tactic(auto, unfolding(judgement::specs::Kinds::may_follow))]
fn may_follow(before: u32, kind: u32) -> bool
    ensures { result ≡ may_follow before kind }
{
    match before {
        // kind 1, once: the node count n, 1 to 1,024
        1 => kind == 2,
        // kind 2, once: the source node
        2 => (kind == 3) | (kind == 13) | (kind == 4) | (kind == 6) | (kind == 7),
        // kind 3, up to 15 times: the span, 1 to 1,000,000, for heights 1, 2, 3 and so on
        3 => (kind == 3) | (kind == 13) | (kind == 4) | (kind == 6) | (kind == 7),
        // A sheet may carry n words of kind 13 after the spans, or none: the hold in hundredths at nodes 0, 1, 2 and so on.
        13 => (kind == 13) | (kind == 4) | (kind == 6) | (kind == 7),
        // kinds 4 and 5 in pairs, up to 2,048 pairs, one arc each. Kind 4: bits 19 to 10 the tail node, bits 9 to 0 the head, bits 27 to 20 zero. ..
        4 => kind == 5,
        // kinds 4 and 5 in pairs, up to 2,048 pairs, one arc each. .. Kind 5: the length in hundredths of a second, 0 to 262,143
        5 => (kind == 4) | (kind == 6) | (kind == 7),
        // kinds 6 and 7 in any mixture, up to 4,094. Kind 6: an inner region, payload its parent. ..
        6 => (kind == 6) | (kind == 7),
        // kinds 6 and 7 in any mixture, up to 4,094. .. Kind 7: a leaf, bits 22 to 11 its parent, bits 10 to 0 its arc, bits 27 to 23 zero.
        7 => (kind == 6) | (kind == 7),
        _ => false,
    }
}

// Whether a sheet may end after a word of that kind.
#[tactic(auto, unfolding(judgement::specs::Kinds::may_end))]
fn may_end(kind: u32) -> bool
    ensures { result ≡ may_end kind }
{
    (kind == 2) | (kind == 3) | (kind == 13) | (kind == 5) | (kind == 6) | (kind == 7)
}

// Refusal 2, of the kinds: out of order, read word by word from the front.
pub fn wrong_kinds(s: &[u8]) -> bool
    ensures { result ≡ wrong_kinds s.now }
{
    let mut reader = Reader::at(s, Cursor { place: 0 });
    let Some(first) = reader.next() else {
        return true;
    };
    let mut before = sheet::kind_of(first);
    if !may_begin(before) {
        return true;
    }
    for word in reader {
        let kind = sheet::kind_of(word);
        if !may_follow(before, kind) {
            return true;
        }
        before = kind;
    }
    !may_end(before)
}

// Refusal 2, of the holds: their number is neither 0 nor the node count. They stand between the spans and the arcs.
#[tactic(auto, unfolding(judgement::specs::Form::wrong_holds))]
pub fn wrong_holds(s: &Sheet) -> bool
    ensures { result ≡ wrong_holds s.now }
{
    let holds = s.holds();
    holds != 0 && holds != s.node_count() as usize
}
