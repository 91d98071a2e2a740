// A whole card. specs/Sheet.antt says what it means, specs/Turns.antt how it is gone through turn by turn; proofs/Printed.antt shows that the two are
// the same. Here is all that the program decides: how much is read, the line of each turn, and whether the card goes on; and the whole sheet of a card
// that is held in memory.
#![tactic(auto)]

ghost use Rattle.std.specs.Prelude.{◌≡◌, false, ◌+◌, ◌≤◌, ◌<◌, length};
ghost use Rattle.lists.specs.Lists.{none?};
ghost use Rattle.soundness.specs.Scan.{words};
ghost use Rattle.sheet_text.specs.Put.{line_most, Put};
ghost use Rattle.sheet_kinds.specs.Kinds.{zero_scratch};
ghost use Rattle.sheet_card.specs.Ends.{header, end_line, fault_line};
ghost use Rattle.sheet_card.specs.Sheet.{length_at, whole, empty_store, sheet_of};
ghost use Rattle.sheet_card.specs.Turns.{advanced, going, last_of, turn_of, body_length, version_fits, limit, start_line, started};
ghost use Rattle.sheet_card.specs.Held.{Going, remains, has_room, held_sheet};

// How far a card has been read where it goes on: the records so far, and the offset of the next length field.
#[derive(Clone, Copy)]
pub struct Progress {
    pub records: u64,
    pub offset: u64,
}

// Where the lines end in the lent buffer, and how far the card has been read, or that it doesn't go on.
#[derive(Clone, Copy)]
pub struct Turned {
    pub end: usize,
    pub next: Option<Progress>,
}

// ---- the sheet's first line and its last

pub fn put_header(line: &mut [u8]) -> usize
    requires { line_most ≤ length line.old }
    ensures put { Put line.old line.new 0 result header }
    ensures upper_bound { result ≤ line_most }
{
    sheet_text::put_bytes(line, 0, b"sheet 1\n")
}

fn put_end(line: &mut [u8], at: usize, records: u64) -> usize
    requires { at + line_most ≤ length line.old }
    ensures put { Put line.old line.new at result (end_line records) }
    ensures upper_bound { result ≤ at + line_most }
{
    let a = sheet_text::put_bytes(line, at, b"end");
    let b = sheet_text::put_number(line, a, records);
    sheet_text::put_byte(line, b, b'\n')
}

fn put_fault(line: &mut [u8], at: usize, offset: u64) -> usize
    requires { at + line_most ≤ length line.old }
    ensures put { Put line.old line.new at result (fault_line offset) }
    ensures upper_bound { result ≤ at + line_most }
{
    sheet_text::put_short(line, at, b'X', offset)
}

// The last line, behind the bytes of a read: nothing, or no whole record.
fn put_last(line: &mut [u8], at: usize, p: Progress, bytes: &[u8]) -> usize
    requires { at + line_most ≤ length line.old }
    ensures put { Put line.old line.new at result (last_of p (none? bytes.now)) }
    ensures upper_bound { result ≤ at + line_most }
{
    if bytes.is_empty() {
        put_end(line, at, p.records)
    } else {
        put_fault(line, at, p.offset)
    }
}

// ---- reading

// The length field at the beginning of some bytes.
fn length_at(s: &[u8]) -> usize
    requires { 4 ≤ length s.now }
    ensures value { result ≡ length_at s.now }
    ensures upper_bound { result < 4294967296 }
{
    sheet_text::word_at(s, 0) as usize
}

// How many bytes are to be read behind a length field, by what was read of it.
pub fn body_length(head: &[u8]) -> usize
    ensures value { result ≡ body_length head.now }
    ensures upper_bound { result ≤ 8192 }
{
    if head.len() < 4 {
        return 0;
    }
    let len = length_at(head);
    if len <= 8192 { len } else { 0 }
}

// Whether a whole record with its length field stands at the beginning of some bytes.
fn is_whole(s: &[u8]) -> bool
    ensures { result ≡ whole s.now }
{
    if s.len() < 5 {
        return false;
    }
    let len = length_at(s);
    len <= s.len() - 4 && sheet_kinds::good_length(len, s[4])
}

// Whether what was read of the version byte is 01.
fn version_fits(version: &[u8]) -> bool
    ensures { result ≡ version_fits version.now }
{
    version.len() == 1 && version[0] == 1
}

// ---- turns

// Cards of fewer bytes are read to their end.
const LIMIT: u64 = 1 << 63;

// Behind a record of so many bytes, where the card is read further.
fn advance(p: Progress, len: usize) -> Option<Progress>
    requires { (p.records ≤ p.offset) × (p.offset < limit) × (len ≤ 8192) }
    ensures { result ≡ going (advanced p len) }
{
    let offset = p.offset + 4 + len as u64;
    (offset < LIMIT).then_some(Progress {
        records: p.records + 1,
        offset,
    })
}

// The beginning of a card, by what was read of the version byte: where that is wrong, puts a fault's line behind the first `at` bytes of a lent buffer.
pub fn begin(version: &[u8], line: &mut [u8], at: usize) -> Turned
    requires { at + line_most ≤ length line.old }
    ensures put { Put line.old line.new at result.end (start_line (version_fits version.now)) }
    ensures end_bound { result.end ≤ at + line_most }
    ensures next_value { result.next ≡ started (version_fits version.now) }
{
    let fits = version_fits(version);
    let end = if fits { at } else { put_fault(line, at, 0) };
    let next = fits.then_some(Progress {
        records: 0,
        offset: 1,
    });
    Turned { end, next }
}

// One turn on the bytes that were read for it: a record with its length field, or what there was of one. Puts a line behind the first `at` bytes of a
// lent buffer. A line has at most `line_most` bytes. The scratch has room for 512 votes, and is zeros before and after.
pub fn turn(
    bytes: &[u8],
    refs: &mut [u32],
    postings: &mut [u32],
    stopped: &mut [u32],
    scratch: &mut [i64],
    line: &mut [u8],
    at: usize,
    p: Progress,
) -> Turned
    requires line_most_in_bounds { (at + line_most ≤ length line.old) × (p.records ≤ p.offset) × (p.offset < limit) }
    requires scratch_value { scratch.old ≡ zero_scratch }
    ensures put { Put line.old line.new at result.end (turn_of (words refs.old postings.old stopped.old) p bytes.now).line }
    ensures end_bound { result.end ≤ at + line_most }
    ensures stopped_value { words refs.new postings.new stopped.new ≡ (turn_of (words refs.old postings.old stopped.old) p bytes.now).store }
    ensures next_value { result.next ≡ (turn_of (words refs.old postings.old stopped.old) p bytes.now).next }
    ensures scratch_after { scratch.new ≡ zero_scratch }
{
    if !is_whole(bytes) {
        let end = put_last(line, at, p, bytes);
        return Turned { end, next: None };
    }
    let len = length_at(bytes);
    let end = sheet_records::step(
        &bytes[4..4 + len],
        refs,
        postings,
        stopped,
        scratch,
        line,
        at,
    );
    Turned {
        end,
        next: advance(p, len),
    }
}

// ---- the buffers

// R 32.
const REFERENCES: usize = rows::HEAD_WIDTH + 32 * rows::ROW_WIDTH;

pub fn zero_references() -> [u32; REFERENCES]
    ensures { result ≡ empty_store.references }
{
    [0; REFERENCES]
}

// P 1,024.
pub fn zero_postings() -> [u32; 3072]
    ensures { result ≡ empty_store.postings }
{
    [0; 3072]
}

// K 256.
pub fn zero_stopped() -> [u32; 256]
    ensures { result ≡ empty_store.stopped }
{
    [0; 256]
}

// Scratch for 512 votes.
pub fn zero_scratch() -> [i64; 3072]
    ensures { result ≡ zero_scratch }
{
    [0; 3072]
}

// ---- a card that is held in memory

// The lines of the turns that are left of a card, behind the first `at` bytes of a lent buffer. Yields where they end.
fn put_turns(
    card: &[u8],
    refs: &mut [u32],
    postings: &mut [u32],
    stopped: &mut [u32],
    scratch: &mut [i64],
    out: &mut [u8],
    at: usize,
    start: Option<Progress>,
) -> usize
    requires { Going card.now out.old start at × (scratch.old ≡ zero_scratch) }
    ensures { Put out.old out.new at result (remains card.now (words refs.old postings.old stopped.old) start) }
{
    let mut end = at;
    let mut next = start;
    while let Some(p) = next {
        let from = p.offset as usize;
        let t = turn(&card[from..], refs, postings, stopped, scratch, out, end, p);
        end = t.end;
        next = t.next;
    }
    end
}

// Whether a buffer has room for the sheet of any card so long.
fn has_room(card: &[u8], out: &[u8]) -> bool
    ensures { result ≡ has_room card.now out.now }
{
    card.len() / 5 + 2 <= out.len() / sheet_text::LINE_MOST
}

// The sheet of a card, at the beginning of a lent buffer. Yields how many bytes it has: 0, and the buffer is as it was, where there is no room for the
// longest sheet of so long a card.
pub fn sheet_of(card: &[u8], out: &mut [u8]) -> usize
    ensures put { Put out.old out.new 0 result (held_sheet card.now out.old) }
    ensures out_unchanged { has_room card.now out.old ≡ false → out.new ≡ out.old }
{
    if !has_room(card, out) {
        return 0;
    }
    let mut refs = zero_references();
    let mut postings = zero_postings();
    let mut stopped = zero_stopped();
    let mut scratch = zero_scratch();
    let head = put_header(out);
    let n = card.len().min(1);
    let s = begin(&card[..n], out, head);
    put_turns(
        card,
        &mut refs,
        &mut postings,
        &mut stopped,
        &mut scratch,
        out,
        s.end,
        s.next,
    )
}
