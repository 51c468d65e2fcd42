// The canonical form of an accepted sheet, written into a lent buffer.
ghost use Rattle.std.specs.Prelude.{◌≡◌, ◌≤◌, ◌++◌, length, drop};
ghost use Rattle.canonical_form.specs.Canonical.{canonical};
ghost use Rattle.canonical.specs.Lent.{FormLent};

use run_layout::outline::Outline;

// An entry for each region, region 0 too, which has no word; and the four entries of each arc's row.
const REGIONS: usize = sheet::MOST_REGION_WORDS + 1;

const ARC_ROWS: usize = 4 * sheet::MOST_ARCS;

// Writes the canonical form at the front of `out`. The other slices are room to work in, and nothing is promised of them. They are no struct: two fields of one
// that is lent can't be lent in parts at once.
fn fill_form(
    o: &Outline,
    arcs: &mut [u16],
    parents: &mut [u16],
    sizes: &mut [u16],
    nexts: &mut [u16],
    numbers: &mut [u16],
    out: &mut [u8],
)
    requires { FormLent o.now.sheet.now arcs.old parents.old sizes.old nexts.old numbers.old out.old }
    ensures { out.new ≡ canonical o.now.sheet.now ++ drop (length o.now.sheet.now) out.old }
{
    let n = o.sizes.regions;
    let m = o.sizes.arcs;
    let e = o.sheet.after();
    canonical_numbers::number_regions(
        o,
        &mut arcs[..4 * m],
        &mut parents[..n],
        &mut sizes[..n],
        &mut nexts[..n],
        &mut numbers[..n],
    );
    sheet_writer::write_words(o.sheet.bytes(), 0, e, out, 0);
    crate::regions::write_regions(sheet_reader::region_words(o.sheet), &numbers[..n], e, out);
}

// The same, with arrays to work in.
pub fn write_form(o: &Outline, out: &mut [u8])
    requires { length o.now.sheet.now ≤ length out.old }
    ensures { out.new ≡ canonical o.now.sheet.now ++ drop (length o.now.sheet.now) out.old }
{
    let mut arcs = [0u16; ARC_ROWS];
    let mut parents = [0u16; REGIONS];
    let mut sizes = [0u16; REGIONS];
    let mut nexts = [0u16; REGIONS];
    let mut numbers = [0u16; REGIONS];
    fill_form(
        o,
        &mut arcs,
        &mut parents,
        &mut sizes,
        &mut nexts,
        &mut numbers,
        out,
    );
}
