// The call for the canonical form of a sheet, the paper's neat copy.
#![tactic(auto)]

pub mod form;
pub mod regions;

ghost use Rattle.std.specs.Prelude.{◌≡◌, ltb, length};
ghost use Rattle.answer.specs.Said.{copied_said};
ghost use Rattle.judgement.specs.Judgement.{Accepted};
ghost use Rattle.calls.specs.Canonical.{canonical_answer, out_after};

pub use answer::copied::Copied;
use answer::reason::Reason;
use judge::Judged;
use run_layout::outline::Outline;
use sheet::located::Sheet;

// Refusal 31: the buffer is shorter than what is to be written, which is as long as the sheet.
fn no_room(sheet: &[u8], out: &[u8]) -> bool
    ensures { result ≡ ltb (length out.now) (length sheet.now) }
{
    out.len() < sheet.len()
}

// The answer for an accepted sheet.
fn canonical_accepted(sheet: &[u8], out: &mut [u8]) -> Copied
    requires { Accepted sheet.now }
    ensures { (copied_said result ≡ canonical_answer sheet.now out.old)
        × (out.new ≡ out_after sheet.now out.old) }
{
    if no_room(sheet, out) {
        return Copied::Refused(Reason::ShortBuffer.into());
    }
    let count = sheet.len() as u32;
    let s = Sheet::new(sheet);
    crate::form::write_form(&Outline::new(&s), out);
    Copied::Written(count)
}

// Writes the canonical form of a sheet at the front of `out`: the answer, and every byte of `out` afterwards.
pub fn canonical(sheet: &[u8], out: &mut [u8]) -> Copied
    ensures { (copied_said result ≡ canonical_answer sheet.now out.old)
        × (out.new ≡ out_after sheet.now out.old) }
{
    let judged = judge::judge(sheet);
    match judged {
        Judged::Refused(fault) => Copied::Refused(fault),
        Judged::Accepted => canonical_accepted(sheet, out),
    }
}
