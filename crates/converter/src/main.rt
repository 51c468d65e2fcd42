// Reads a sheet on standard input and writes the converted one, or its refusal.
#![tactic(auto)]

ghost use Rattle.std.specs.Prelude.{◌≤◌, length};
ghost use Rattle.std.specs.Counts.{IsPrefixLen};
ghost use Rattle.sheet.specs.Limits.{most_bytes};
ghost use Rattle.listing.specs.Printed.{Filled, converted_text};

use answer::copied::Copied;
use std::io;

// One word more than the longest sheet has: longer input is refused for its size, whatever follows.
const ROOM: usize = sheet::MOST_BYTES + 4;

// Writes the converted sheet or the line of its refusal to the front of the buffer, and returns how many bytes it has. The second promise follows from the
// first, in the form in which a caller lends those bytes.
fn write_converted(sheet: &[u8], out: &mut [u8]) -> usize
    requires { most_bytes ≤ length out.old }
    ensures filled { Filled out.old (converted_text sheet.now) out.new result }
    ensures prefix_len { IsPrefixLen result out.new }
{
    let copied = convert::convert(sheet, out);
    match copied {
        Copied::Refused(fault) => listing::write_refused(fault.number(), out),
        Copied::Written(bytes) => bytes as usize,
    }
}

fn read_and_write(rt: &(impl Input + Print), sheet: &mut [u8], out: &mut [u8]) -> io::Result<()>
    requires { most_bytes ≤ length out.old }
{
    let size = input::read_full(&mut rt.reader(), sheet)?;
    let bytes = write_converted(&sheet[..size], out);
    rt.write_all(&out[..bytes])
}

fn main(rt: HostRuntime) -> io::Result<()> {
    let mut sheet = [0u8; ROOM];
    let mut out = [0u8; ROOM];
    read_and_write(&rt, &mut sheet, &mut out)
}
