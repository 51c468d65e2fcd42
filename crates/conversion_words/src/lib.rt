// The words of a converted sheet, written into a lent buffer. Every part is linear in the words that it reads.
#![tactic(auto)]

pub mod arcs;
pub mod regions;
pub mod renumbered;

ghost use Rattle.std.specs.Prelude.{◌≡◌, ◌++◌, length, drop};
ghost use Rattle.conversion.specs.Converted.{converted};
ghost use Rattle.conversion_words.specs.Writing.{SheetWritable};

use crate::renumbered::Renumbered;
use conversion_numbers::Kept;
use sheet::located::Sheet;
use sheet::{ARC_NUMBERS, REGION_NUMBERS};

// Writes the converted sheet at the front of `out`: node count, source and the spans that are kept, holds, arcs, and region words.
pub fn write_sheet(
    s: &Sheet,
    arcs: &[u16; ARC_NUMBERS],
    regions: &[u16; REGION_NUMBERS],
    kept: Kept,
    out: &mut [u8],
)
    requires { SheetWritable s.now arcs.now regions.now kept out.old }
    ensures { out.new ≡ converted s.now ++ drop (length (converted s.now)) out.old }
{
    let n = Renumbered::new(s, arcs, regions);
    let holds_at = 2 + kept.spans;
    let arcs_at = holds_at + kept.holds;
    let regions_at = arcs_at + 2 * kept.arcs;
    sheet_writer::write_words(s.bytes(), 0, holds_at, out, 0);
    sheet_writer::write_words(s.bytes(), 2 + s.spans(), kept.holds, out, holds_at);
    crate::arcs::write_arcs(s, arcs, out, arcs_at);
    crate::regions::write_regions(&n, out, regions_at);
}
