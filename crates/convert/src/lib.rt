// The call that converts a sheet: its self-arcs are dropped, and what goes with them.
#![tactic(auto)]

ghost use Rattle.std.specs.Prelude.{◌≡◌};
ghost use Rattle.answer.specs.Said.{copied_said};
ghost use Rattle.judgement.specs.Judgement.{Convertible};
ghost use Rattle.calls.specs.Convert.{convert_answer, convert_out};

use answer::Fault;
pub use answer::copied::Copied;
use answer::reason::Reason;
use judge::Judged;
use sheet::located::Sheet;
use sheet::{ARC_NUMBERS, REGION_NUMBERS};

// Writes the converted sheet if the buffer has room: refusal 31 if it has not. The arrays are room to work in, and nothing is promised of them.
fn fill_out(
    s: &Sheet,
    arcs: &mut [u16; ARC_NUMBERS],
    regions: &mut [u16; REGION_NUMBERS],
    out: &mut [u8],
) -> Copied
    requires { Convertible s.now }
    ensures { (copied_said result ≡ convert_answer s.now out.old)
        × (out.new ≡ convert_out s.now out.old) }
{
    let kept = conversion_numbers::number_kept(s, arcs, regions);
    let bytes = 4 * (2 + kept.spans + kept.holds + 2 * kept.arcs + kept.words);
    let count = bytes as u32;
    if out.len() < bytes {
        return Copied::Refused(Fault::from(Reason::ShortBuffer));
    }
    conversion_words::write_sheet(s, arcs, regions, kept, out);
    Copied::Written(count)
}

// The answer for a convertible sheet.
fn convert_sheet(sheet: &[u8], out: &mut [u8]) -> Copied
    requires { Convertible sheet.now }
    ensures { (copied_said result ≡ convert_answer sheet.now out.old)
        × (out.new ≡ convert_out sheet.now out.old) }
{
    let mut arcs = [0u16; ARC_NUMBERS];
    let mut regions = [0u16; REGION_NUMBERS];
    let s = Sheet::new(sheet);
    fill_out(&s, &mut arcs, &mut regions, out)
}

// Writes the converted sheet at the front of `out`: the answer, and every byte of `out` afterwards.
pub fn convert(sheet: &[u8], out: &mut [u8]) -> Copied
    ensures { (copied_said result ≡ convert_answer sheet.now out.old)
        × (out.new ≡ convert_out sheet.now out.old) }
{
    match judge::judge_convertible(sheet) {
        Judged::Refused(fault) => Copied::Refused(fault),
        Judged::Accepted => convert_sheet(sheet, out),
    }
}
