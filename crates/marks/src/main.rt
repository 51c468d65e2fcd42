// Reads a sheet on standard input, runs it to its end and prints its listing, or its refusal.
#![tactic(auto)]

ghost use Rattle.std.specs.Prelude.{◌≤◌, length};
ghost use Rattle.calls.specs.Tables.{table_length};
ghost use Rattle.listing.specs.Listing.{most_listing};
ghost use Rattle.sheet.specs.Limits.{most_nodes};

use std::io;

// One word more than the longest sheet has: longer input is refused for its size, whatever follows.
const ROOM: usize = sheet::MOST_BYTES + 4;

fn read_and_print(
    rt: &(impl Input + Print),
    sheet: &mut [u8],
    table: &mut [u32],
    out: &mut [u8],
) -> io::Result<()>
    requires { (table_length most_nodes ≤ length table.old) × (most_listing ≤ length out.old) }
{
    let size = input::read_full(&mut rt.reader(), sheet)?;
    report::print_report(rt, &sheet[..size], table, out)?;
    Ok(())
}

fn main(rt: HostRuntime) -> io::Result<()> {
    let mut sheet = [0u8; ROOM];
    let mut table = [0u32; report::MOST_TABLE];
    let mut out = [0u8; listing::MOST_LISTING];
    read_and_print(&rt, &mut sheet, &mut table, &mut out)
}
