// What `marks` prints of a sheet, written into a lent buffer: the sheet judged and run to its end.
#![tactic(auto)]

ghost use Rattle.std.specs.Prelude.{◌≡◌, ◌≤◌, length, IfOk, OnErr};
ghost use Rattle.std.specs.Counts.{IsPrefixLen};
ghost use Rattle.judgement.specs.Judgement.{Accepted};
ghost use Rattle.calls.specs.Tables.{table_length};
ghost use Rattle.listing.specs.Listing.{listing_of, most_listing};
ghost use Rattle.listing.specs.Printed.{end_table, Filled, printed, Reported};
ghost use Rattle.sheet.specs.Limits.{most_nodes};
ghost use Rattle.sheet.specs.Sections.{node_count, span_count};
ghost use Rattle.report.specs.Lent.{TableLent};

use judge::Judged;
use sheet::MOST_NODES;
use sheet::located::Sheet;
use std::io;
use table::words::HEADER;

// How many words the table of the most nodes has.
pub const MOST_TABLE: usize = HEADER + 2 * MOST_NODES as usize;

// Runs an accepted sheet to its end in a table of its size, and writes the listing.
#[tactic(auto, using(judgement::proofs::Accepted::few_nodes, judgement::proofs::Accepted::few_spans))]
fn report_table(sheet: &Sheet, table: &mut [u32], out: &mut [u8]) -> usize
    requires { TableLent sheet.now table.old out.old }
    ensures { (table.new ≡ end_table sheet.now)
        × Filled out.old (listing_of (end_table sheet.now) (span_count sheet.now) (node_count sheet.now)) out.new result }
{
    run::run(sheet.bytes(), table);
    listing::write_listing(table, sheet.spans(), sheet.node_count() as usize, out)
}

#[tactic(auto, using(judgement::proofs::Accepted::front_there, judgement::proofs::Accepted::few_nodes))]
fn report_accepted(sheet: &[u8], table: &mut [u32], out: &mut [u8]) -> usize
    requires { Accepted sheet.now × (table_length most_nodes ≤ length table.old) × (most_listing ≤ length out.old) }
    ensures { Reported sheet.now table.old out.old table.new out.new result }
{
    let sheet = Sheet::new(sheet);
    let words = table::length::table_length(sheet.node_count() as usize);
    report_table(&sheet, &mut table[..words], out)
}

// Writes what is printed of a sheet to the front of the buffer, and returns how many bytes it has. The second promise follows from the first, in the
// form in which a caller lends those bytes.
pub fn report(sheet: &[u8], table: &mut [u32], out: &mut [u8]) -> usize
    requires { (table_length most_nodes ≤ length table.old) × (most_listing ≤ length out.old) }
    ensures reported { Reported sheet.now table.old out.old table.new out.new result }
    ensures prefix_len { IsPrefixLen result out.new }
{
    let judged = judge::judge(sheet);
    match judged {
        Judged::Refused(fault) => listing::write_refused(fault.number(), out),
        Judged::Accepted => report_accepted(sheet, table, out),
    }
}

// Prints what `report` writes, and returns how many bytes it has. Where printing fails, the buffers hold the same.
pub fn print_report(
    rt: &impl Print,
    sheet: &[u8],
    table: &mut [u32],
    out: &mut [u8],
) -> io::Result<usize>
    requires { (table_length most_nodes ≤ length table.old) × (most_listing ≤ length out.old) }
    ensures ok { IfOk result (λ n. Reported sheet.now table.old out.old table.new out.new n) }
    ensures err { OnErr result (Reported sheet.now table.old out.old table.new out.new (length (printed sheet.now))) }
{
    let size = report(sheet, table, out);
    rt.write_all(&out[..size])?;
    Ok(size)
}
