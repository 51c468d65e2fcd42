// Tries each case of standard input, a line of hexadecimal digits in which spaces are passed over: CALL NUMBER WORDS SIZE SHEET TABLE. The first four are
// words of eight digits. CALL is 1 to judge, 2 to run to the end, 3 to run for at most NUMBER rounds, 4 for the route to node NUMBER, 5 for the listing,
// 6 for the canonical form, 7 to go on for at most NUMBER rounds, 8 to convert. WORDS words are lent, as the table of a run or the buffer of a route; for the
// canonical form and to convert as many bytes. SHEET has SIZE bytes. TABLE, for a route and for going on alone, is the rest of the line; to go on the words
// lent hold it, as far as they go. All others hold a filling.
// For a listing, what `marks` prints is printed; for another case the answer's word and, where what is lent holds something else than the filling after the
// call, the lent words or bytes up to the last that does; for a line that is no case `unreadable`.
#![tactic(auto)]

ghost use Rattle.std.specs.Counts.{IsPrefixLen};

use answer::Fault;
use answer::copied::Copied;
use answer::ran::Ran;
use answer::routed::Routed;
use cases_lent::Lent;
use judge::Judged;
use std::io;

// The bytes of the longest line: its four words, and a sheet.
const ROOM: usize = 65552;

// The most words of a table, and the most that are lent: more than the longest table has.
const MOST_WORDS: usize = 4608;

// The most bytes that are lent: more than the longest sheet has.
const MOST_BYTES: usize = 37888;

// The upper halves of the answers' words. The lower half is the number in the answer.
const INPUT: u32 = 0;

const STATE: u32 = 65536;

const ACCEPTED: u32 = 131072;

const ENDED: u32 = 196608;

const PAUSED: u32 = 262144;

const NO_ROUTE: u32 = 327680;

const ROUTE: u32 = 393216;

const WRITTEN: u32 = 458752;

// What is called.
#[derive(Clone, Copy)]
enum Call {
    Judge,
    Run,
    RunLimited,
    Route,
    Listing,
    Canonical,
    Resume,
    Convert,
}

impl TryFrom<u32> for Call {
    type Error = ();

    fn try_from(number: u32) -> Result<Call, ()> {
        match number {
            1 => Ok(Call::Judge),
            2 => Ok(Call::Run),
            3 => Ok(Call::RunLimited),
            4 => Ok(Call::Route),
            5 => Ok(Call::Listing),
            6 => Ok(Call::Canonical),
            7 => Ok(Call::Resume),
            8 => Ok(Call::Convert),
            _ => Err(()),
        }
    }
}

impl Call {
    // Whether such bytes can follow the sheet: for a route and for going on whole words for which there is room, and else none.
    fn takes(self, table: &[u8]) -> bool {
        match self {
            Call::Route | Call::Resume => table.len() % 4 == 0 && table.len() / 4 <= MOST_WORDS,
            _ => table.is_empty(),
        }
    }
}

// A case: what is called, on what, and how many words or bytes are lent.
#[derive(Clone, Copy)]
struct Case<'a> {
    call: Call,
    number: u32,
    lent: usize,
    sheet: &'a [u8],
    table: &'a [u8],
}

impl<'a> Case<'a> {
    // Takes the bytes of a case apart.
    fn of_bytes(bytes: &'a [u8]) -> Option<Case<'a>> {
        let (words, rest) = bytes.split_at_checked(16)?;
        let call = Call::try_from(sheet::word_at(words, 0)).ok()?;
        let number = sheet::word_at(words, 1);
        let lent = sheet::word_at(words, 2) as usize;
        let (sheet, table) = rest.split_at_checked(sheet::word_at(words, 3) as usize)?;
        if !call.takes(table) {
            return None;
        }
        Some(Case {
            call,
            number,
            lent,
            sheet,
            table,
        })
    }
}

fn fault_word(fault: Fault) -> u32 {
    match fault {
        Fault::Input(n) => INPUT + u32::from(n),
        Fault::State(n) => STATE + u32::from(n),
    }
}

fn word_of_judged(judged: Judged) -> u32 {
    match judged {
        Judged::Accepted => ACCEPTED,
        Judged::Refused(fault) => fault_word(fault),
    }
}

fn word_of_ran(ran: Ran) -> u32 {
    match ran {
        Ran::Ended => ENDED,
        Ran::Paused => PAUSED,
        Ran::Refused(fault) => fault_word(fault),
    }
}

fn word_of_routed(routed: Routed) -> u32 {
    match routed {
        Routed::Route(arcs) => ROUTE + arcs % 65536,
        Routed::NoRoute => NO_ROUTE,
        Routed::Refused(fault) => fault_word(fault),
    }
}

fn word_of_copied(copied: Copied) -> u32 {
    match copied {
        Copied::Written(bytes) => WRITTEN + bytes % 65536,
        Copied::Refused(fault) => fault_word(fault),
    }
}

// Takes words out of bytes, as many as have room, and answers how many.
fn read_words(bytes: &[u8], table: &mut [u32]) -> usize
    ensures { IsPrefixLen result table.new }
{
    let count = (bytes.len() / 4).min(table.len());
    for i in 0..count {
        table[i] = sheet::word_at(bytes, i);
    }
    count
}

fn route_in(case: &Case, table: &mut [u32], lent: &mut [u32]) -> u32 {
    let count = read_words(case.table, table);
    word_of_routed(route::route(case.sheet, &table[..count], case.number, lent))
}

fn route_word(case: &Case, lent: &mut [u32]) -> u32 {
    let mut table = [0u32; MOST_WORDS];
    route_in(case, &mut table, lent)
}

// Goes on from the case's table, for at most so many rounds.
fn resume_word(case: &Case, lent: &mut [u32]) -> u32 {
    read_words(case.table, lent);
    word_of_ran(resume::resume(case.sheet, case.number, lent))
}

// A word, or a byte, that is printed.
trait Printed: Lent {
    fn print(self, rt: &impl Print) -> io::Result<()>;
}

impl Printed for u32 {
    fn print(self, rt: &impl Print) -> io::Result<()> {
        let word = self;
        print!(rt; "{word:08x}")
    }
}

impl Printed for u8 {
    fn print(self, rt: &impl Print) -> io::Result<()> {
        let byte = self;
        print!(rt; "{byte:02x}")
    }
}

fn print_all<T: Printed>(rt: &impl Print, lent: &[T]) -> io::Result<()> {
    for one in lent {
        one.print(rt)?;
    }
    Ok(())
}

// Prints the answer's word and, where one that is lent is not the filling, those lent up to the last such one.
fn print_answer<T: Printed>(rt: &impl Print, word: u32, lent: &[T]) -> io::Result<()> {
    word.print(rt)?;
    let used = cases_lent::used(lent);
    if used > 0 {
        rt.write_all(b" ")?;
        print_all(rt, &lent[..used])?;
    }
    rt.write_all(b"\n")
}

fn print_unreadable(rt: &impl Print) -> io::Result<()> {
    rt.write_all(b"unreadable\n")
}

// Lends the first ones to the call, and prints what it answers.
fn print_lent<T: Printed, F: FnOnce(&mut [T]) -> u32 + Drop>(
    rt: &impl Print,
    count: usize,
    lent: &mut [T],
    call: F,
) -> io::Result<()>
    requires { F.IsAlwaysCallable call }
{
    if count > lent.len() {
        return print_unreadable(rt);
    }
    let word = call(&mut lent[..count]);
    print_answer(rt, word, lent)
}

fn print_words<F: FnOnce(&mut [u32]) -> u32 + Drop>(
    rt: &impl Print,
    case: &Case,
    call: F,
) -> io::Result<()>
    requires { F.IsAlwaysCallable call }
{
    let mut lent = [u32::FILLING; MOST_WORDS];
    print_lent(rt, case.lent, &mut lent, call)
}

fn print_bytes<F: FnOnce(&mut [u8]) -> u32 + Drop>(
    rt: &impl Print,
    case: &Case,
    call: F,
) -> io::Result<()>
    requires { F.IsAlwaysCallable call }
{
    let mut lent = [u8::FILLING; MOST_BYTES];
    print_lent(rt, case.lent, &mut lent, call)
}

fn print_listing(rt: &impl Print, case: &Case) -> io::Result<()> {
    if case.lent > MOST_WORDS {
        return print_unreadable(rt);
    }
    let mut table = [0u32; report::MOST_TABLE];
    let mut out = [0u8; listing::MOST_LISTING];
    report::print_report(rt, case.sheet, &mut table, &mut out)?;
    Ok(())
}

// Prints what is answered to a case.
fn print_case(rt: &impl Print, case: &Case) -> io::Result<()> {
    let sheet = case.sheet;
    let number = case.number;
    match case.call {
        Call::Judge => print_words(rt, case, |_| word_of_judged(judge::judge(sheet))),
        Call::Run => print_words(rt, case, |lent| word_of_ran(run::run(sheet, lent))),
        Call::RunLimited => print_words(rt, case, |lent| {
            word_of_ran(run::run_limited(sheet, number, lent))
        }),
        Call::Route => print_words(rt, case, |lent| route_word(case, lent)),
        Call::Listing => print_listing(rt, case),
        Call::Canonical => print_bytes(rt, case, |lent| {
            word_of_copied(canonical::canonical(sheet, lent))
        }),
        Call::Resume => print_words(rt, case, |lent| resume_word(case, lent)),
        Call::Convert => print_bytes(rt, case, |lent| {
            word_of_copied(convert::convert(sheet, lent))
        }),
    }
}

// The value of a digit.
fn digit_value(sign: u8) -> Option<u8> {
    match sign {
        b'0'..=b'9' => Some(sign - b'0'),
        b'a'..=b'f' => Some(sign - b'a' + 10),
        _ => None,
    }
}

// A line as far as it is read, and how many digits it has: none is the number where it holds another sign or is too long.
#[derive(Drop)]
struct Line {
    bytes: [u8; ROOM],
    digits: Option<usize>,
}

impl Line {
    // Shifts a digit into its byte, and answers how many digits there are then.
    fn take_digit(&mut self, sign: u8) -> Option<usize> {
        let value = digit_value(sign)?;
        let digits = self.digits?;
        let place = digits / 2;
        if place >= ROOM {
            return None;
        }
        self.bytes[place] = self.bytes[place] << 4 | value;
        Some(digits + 1)
    }

    // The bytes of a line that has an even number of digits.
    fn whole(&self) -> Option<&[u8]> {
        let digits = self.digits?;
        if digits % 2 == 1 {
            return None;
        }
        self.bytes.get(..digits / 2)
    }
}

// Prints what is answered to a line.
fn print_line(rt: &impl Print, line: &Line) -> io::Result<()> {
    match line.whole().and_then(Case::of_bytes) {
        Some(case) => print_case(rt, &case),
        None => print_unreadable(rt),
    }
}

// Takes a sign of a line, and prints what is answered to the line at its end.
fn take_sign(rt: &impl Print, line: &mut Line, sign: u8) -> io::Result<()> {
    match sign {
        b' ' => {}
        b'\n' => {
            print_line(rt, line)?;
            line.digits = Some(0);
        }
        _ => line.digits = line.take_digit(sign),
    }
    Ok(())
}

fn take_block(rt: &impl Print, line: &mut Line, block: &[u8]) -> io::Result<()> {
    for sign in block {
        take_sign(rt, line, *sign)?;
    }
    Ok(())
}

// A proved loop has to end, so it has a number of turns that no run uses up.
fn take_input(rt: &(impl Input + Print), line: &mut Line, block: &mut [u8]) -> io::Result<()> {
    let mut stream = rt.reader();
    for _ in 0..u64::MAX {
        let filled = input::read_full(&mut stream, block)?;
        if filled == 0 {
            break;
        }
        take_block(rt, line, &block[..filled])?;
    }
    Ok(())
}

fn main(rt: HostRuntime) -> io::Result<()> {
    let mut line = Line {
        bytes: [0u8; ROOM],
        digits: Some(0),
    };
    let mut block = [0u8; 4096];
    take_input(&rt, &mut line, &mut block)
}
