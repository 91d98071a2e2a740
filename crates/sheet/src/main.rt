// The program sheet: a card on standard input, its sheet on standard output. Crate `sheet_card` says what a card means (specs/Sheet.antt), takes every
// decision, and shows that turn after turn gives the sheet (proofs/Printed.antt). Here bytes are read, turns are taken, and each line is written as soon
// as it is made. After a read or a write that fails nothing more is printed, so the last line is missing, and standard error has a line that says why.
#![tactic(auto)]

ghost use Rattle.std.specs.Prelude.{Bool, IfOk, ◌≡◌, ◌+◌, ◌≤◌, ◌<◌, length, take};
ghost use Rattle.soundness.specs.Scan.{words};
ghost use Rattle.sheet_text.specs.Put.{line_most};
ghost use Rattle.sheet_kinds.specs.Kinds.{zero_scratch};
ghost use Rattle.sheet_card.specs.Sheet.{empty_store};
ghost use Rattle.sheet_card.specs.Turns.{body_length, limit, started};
ghost use Rattle.sheet.specs.Reading.{end_of, Asked, VersionRead, TurnTaken};

use sheet_card::Progress;
use std::fs::File;
use std::io::{IsTerminal, Read};
use std::os::unix::fs::FileTypeExt;
use std::{fs, io};

// ---- the streams

// The system, and whether standard input was a terminal as the program began.
#[derive(Clone, Copy)]
struct Streams {
    rt: HostRuntime,
    was_terminal: bool,
}

// The number of the system's error at a terminal that has hung up.
const EIO: i32 = 5;

// The system's words for an error, without its number.
fn reason(text: &str) -> &str {
    match text.split_once(" (os error ") {
        Some((why, _)) => why,
        None => text,
    }
}

// A read or a write failed, and standard error has a line that says why.
#[derive(Clone, Copy)]
pub struct Told;

// Tells standard error why a read or a write failed.
fn fail(rt: HostRuntime, stream: &str, error: io::Error) -> Told {
    let _ = match format!(in rt.alloc(); "{error}") {
        Ok(text) => {
            let why = reason(text.as_str());
            eprintln!(rt; "sheet: {stream}: {why}")
        }
        Err(_) => eprintln!(rt; "sheet: {stream}: {error}"),
    };
    Told
}

// ---- reading

// Where the bytes that came end: all that were asked for, or fewer, where the input ended.
#[derive(Clone, Copy)]
pub enum Came {
    All(usize),
    Fewer(usize),
}

impl Came {
    fn end(self) -> usize
        ensures { result ≡ end_of self }
    {
        match self {
            Came::All(end) => end,
            Came::Fewer(end) => end,
        }
    }
}

// Whether standard input is a terminal that has hung up: it reads as ended, and is no terminal any more.
fn hung_up(streams: Streams) -> bool {
    if streams.rt.stdin().is_terminal() {
        return false;
    }
    streams.was_terminal || began_hung_up(streams.rt)
}

// Whether standard input, no terminal, was one that had hung up before the program began. What is no device is not opened, since that could wait.
fn began_hung_up(rt: HostRuntime) -> bool {
    match fs::metadata(&rt, "/dev/stdin") {
        Ok(found) => found.file_type().is_char_device() && opens_as_terminal(rt),
        Err(_) => false,
    }
}

// Whether the device of standard input is a terminal: one that can be opened again, or one whose other end is gone.
fn opens_as_terminal(rt: HostRuntime) -> bool {
    match File::open(&rt, "/dev/stdin") {
        Ok(device) => device.is_terminal(),
        Err(e) => e.raw_os_error() == Some(EIO),
    }
}

// A read that answered no bytes, of a terminal that has hung up, is one that failed.
fn ended(streams: Streams) -> Result<(), Told> {
    if hung_up(streams) {
        return Err(fail(
            streams.rt,
            "standard input",
            io::Error::from_raw_os_error(EIO),
        ));
    }
    Ok(())
}

// Reads the bytes from `start` to `end`, as many as the input has.
fn read_to(streams: Streams, bytes: &mut [u8], start: usize, end: usize) -> Result<Came, Told>
    requires { (start ≤ end) × (end ≤ length bytes.old) }
    ensures asked { IfOk result (Asked start end) }
    ensures bytes_unchanged { take start bytes.new ≡ take start bytes.old }
{
    let mut stdin = streams.rt.stdin();
    let mut at = start;
    // A read brings as many bytes as it likes, so the loop steps by those that came.
    while at < end {
        match stdin.read(&mut bytes[at..end]) {
            Ok(0) => {
                ended(streams)?;
                return Ok(Came::Fewer(at));
            }
            Ok(n) => at += n,
            Err(e) => return Err(fail(streams.rt, "standard input", e)),
        }
    }
    Ok(Came::All(at))
}

// Reads the next record with its length field into the beginning of `bytes`, as much as the input has of it.
fn read_record(streams: Streams, bytes: &mut [u8]) -> Result<Came, Told>
    requires { 8196 ≤ length bytes.old }
    ensures asked { IfOk result (Asked 0 (4 + body_length (take 4 bytes.new))) }
    ensures end_bound { IfOk result (λ came. end_of came ≤ 8196) }
{
    let head = read_to(streams, bytes, 0, 4)?;
    if head.end() < 4 {
        return Ok(head);
    }
    let len = sheet_card::body_length(&bytes[..4]);
    read_to(streams, bytes, 4, 4 + len)
}

// ---- writing

fn print(streams: Streams, line: &[u8]) -> Result<(), Told> {
    match streams.rt.write_all(line) {
        Ok(()) => Ok(()),
        Err(e) => Err(fail(streams.rt, "standard output", e)),
    }
}

// ---- the card

// Reads the version byte and, where it is wrong, prints a fault's line. Yields how far the card has been read.
fn read_version(
    streams: Streams,
    bytes: &mut [u8],
    line: &mut [u8],
) -> Result<Option<Progress>, Told>
    requires { (8196 ≤ length bytes.old) × (line_most ≤ length line.old) }
    ensures { VersionRead result bytes.new line.old line.new }
{
    let n = read_to(streams, bytes, 0, 1)?.end();
    let s = sheet_card::begin(&bytes[..n], line, 0);
    print(streams, &line[..s.end])?;
    Ok(s.next)
}

// The header, then the version byte.
fn start(streams: Streams, bytes: &mut [u8], line: &mut [u8]) -> Result<Option<Progress>, Told>
    requires { (8196 ≤ length bytes.old) × (line_most ≤ length line.old) }
    ensures { IfOk result (λ q. (fits : Bool) × (q ≡ started fits)) }
{
    let head = sheet_card::put_header(line);
    print(streams, &line[..head])?;
    read_version(streams, bytes, line)
}

// A turn: reads what it needs, and prints its line.
fn take_turn(
    streams: Streams,
    refs: &mut [u32],
    postings: &mut [u32],
    stopped: &mut [u32],
    scratch: &mut [i64],
    bytes: &mut [u8],
    line: &mut [u8],
    p: Progress,
) -> Result<Option<Progress>, Told>
    requires { (scratch.old ≡ zero_scratch) × (8196 ≤ length bytes.old) × (line_most ≤ length line.old) × (p.records ≤ p.offset) × (p.offset < limit) }
    ensures turn_taken { TurnTaken (words refs.old postings.old stopped.old) (words refs.new postings.new stopped.new) p result
        bytes.new line.old line.new }
    ensures scratch_after { scratch.new ≡ zero_scratch }
{
    let n = read_record(streams, bytes)?.end();
    let t = sheet_card::turn(&bytes[..n], refs, postings, stopped, scratch, line, 0, p);
    print(streams, &line[..t.end])?;
    Ok(t.next)
}

// The whole card, on the store that a card's meaning begins with.
fn run(
    streams: Streams,
    refs: &mut [u32],
    postings: &mut [u32],
    stopped: &mut [u32],
    scratch: &mut [i64],
    bytes: &mut [u8],
    line: &mut [u8],
) -> Result<(), Told>
    requires refs_value { (refs.old ≡ empty_store.references) × (postings.old ≡ empty_store.postings) × (stopped.old ≡ empty_store.stopped) }
    requires scratch_value { (scratch.old ≡ zero_scratch) × (8196 ≤ length bytes.old) × (line_most ≤ length line.old) }
{
    let mut next = start(streams, bytes, line)?;
    while let Some(p) = next {
        next = take_turn(streams, refs, postings, stopped, scratch, bytes, line, p)?;
    }
    Ok(())
}

fn main(rt: HostRuntime) {
    let streams = Streams {
        rt,
        was_terminal: rt.stdin().is_terminal(),
    };
    let mut refs = sheet_card::zero_references();
    let mut postings = sheet_card::zero_postings();
    let mut stopped = sheet_card::zero_stopped();
    let mut scratch = sheet_card::zero_scratch();
    let mut bytes = [0u8; 8196];
    let mut line = [0u8; sheet_text::LINE_MOST];
    let _ = run(
        streams,
        &mut refs,
        &mut postings,
        &mut stopped,
        &mut scratch,
        &mut bytes,
        &mut line,
    );
}
