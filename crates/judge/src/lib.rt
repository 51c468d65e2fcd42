// Judges a sheet: accepted, or the lowest number of a refusal that applies to it; with self-arcs retired (35), or as one that may be converted.
#![tactic(auto)]

ghost use Rattle.std.specs.Prelude.{◌≡◌, false, ◌<◌};
ghost use Rattle.sheet.specs.Words.{words};
ghost use Rattle.answer.specs.Said.{judge_said};
ghost use Rattle.answer.specs.Reasons.{checked};
ghost use Rattle.judgement.specs.Form.{wrong_size, bit_set};
ghost use Rattle.judgement.specs.Judgement.{judgement_by, judgement};
ghost use Rattle.judge.specs.Stages.{InOrder};

pub use answer::judged::Judged;
use answer::reason::Reason;
use sheet::located::Sheet;

// Refusal 1: the byte count is no multiple of 4, or too high.
#[tactic(auto, unfolding(judgement::specs::Form::wrong_size))]
fn wrong_size(s: &[u8]) -> bool
    ensures { result ≡ wrong_size s.now }
{
    s.len() % 4 != 0 || s.len() > sheet::MOST_BYTES
}

// Refusal 3: a bit set that must be zero.
#[tactic(auto, unfolding(judgement::specs::Form::bit_set))]
fn bit_set(s: &Sheet) -> bool
    requires { words s.now < 65536 }
    ensures { result ≡ bit_set s.now }
{
    judge_arcs::bit_set(s) || judge_division::leaves::leaf_bits_set(sheet_reader::region_words(s))
}

// Refusals 3 to 14, 34 after 9, and 35 after 10 where self-arcs are retired, of a sheet to which neither 1 nor 2 applies.
fn check_located(s: &Sheet, retired: bool) -> Result<(), Reason>
    requires { InOrder s.now }
    ensures { checked result ≡ judgement_by retired s.now }
{
    if bit_set(s) {
        return Err(Reason::Bits);
    }
    judge_form::limits::check_counts(s)?;
    judge_arcs::check_arcs(s, retired)?;
    judge_division::check_division(sheet_reader::region_words(s), s.arcs() as u16, s.spans())
}

// The lowest refusal that applies to the sheet. Its sections are found once, for all that is looked at after the order of kinds.
fn check(sheet: &[u8], retired: bool) -> Result<(), Reason>
    ensures { checked result ≡ judgement_by retired sheet.now }
{
    if wrong_size(sheet) {
        return Err(Reason::Size);
    }
    if judge_form::order::wrong_kinds(sheet) {
        return Err(Reason::Order);
    }
    let s = Sheet::new(sheet);
    if judge_form::order::wrong_holds(&s) {
        return Err(Reason::Order);
    }
    check_located(&s, retired)
}

// Judges a sheet.
pub fn judge(sheet: &[u8]) -> Judged
    ensures { judge_said result ≡ judgement sheet.now }
{
    Judged::from(check(sheet, true))
}

// Judges a sheet with 35 left out.
pub fn judge_convertible(sheet: &[u8]) -> Judged
    ensures { judge_said result ≡ judgement_by false sheet.now }
{
    Judged::from(check(sheet, false))
}
