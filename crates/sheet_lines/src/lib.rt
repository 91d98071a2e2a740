// The lines of answers, each put behind the first `at` bytes of a lent buffer.
#![tactic(auto)]

ghost use Rattle.std.specs.Prelude.{◌≡◌, ◌++◌, ℕ, ◌+◌, ◌≤◌, length};
ghost use Rattle.refusals.specs.Numbers.{number_of};
ghost use Rattle.model.specs.Calls.{removed, nothing, refused};
ghost use Rattle.insert.specs.Insert.{insertion_answer};
ghost use Rattle.remove.specs.Answers.{removal_answer};
ghost use Rattle.query_rank.specs.Answers.{finding_answer};
ghost use Rattle.sheet_text.specs.Bytes.{newline};
ghost use Rattle.sheet_lines.specs.Lines.{place, flag, offset_text, match_text, answer_line};
ghost use Rattle.sheet_text.specs.Put.{line_most, Put};

use matching::TimeOffset;
use query_rank::Found;
use refusals::Refusal;

// E before the recording's beginning, else I.
fn place_of(frames: i64) -> u8
    ensures { result ≡ place frames }
{
    if frames >= 0 { b'I' } else { b'E' }
}

fn put_offset(line: &mut [u8], at: usize, t: TimeOffset) -> usize
    requires { at + 46 ≤ length line.old }
    ensures put { Put line.old line.new at result (offset_text t) }
    ensures upper_bound { result ≤ at + 46 }
{
    let a = sheet_text::put_signed(line, at, t.frames);
    let b = sheet_text::put_signed(line, a, t.ms);
    sheet_text::put_letter(line, b, place_of(t.frames))
}

fn put_match(line: &mut [u8], at: usize, found: Found) -> usize
    requires { at + 107 ≤ length line.old }
    ensures put { Put line.old line.new at result (match_text found.id found.result) }
    ensures upper_bound { result ≤ at + 107 }
{
    let m = found.result;
    let a = sheet_text::put_byte(line, at, b'M');
    let b = sheet_text::put_number(line, a, u64::from(found.id));
    let c = sheet_text::put_number(line, b, u64::from(m.votes));
    let d = sheet_text::put_bits(line, c, m.score);
    let e = sheet_text::put_bits(line, d, m.prominence);
    put_offset(line, e, m.offset)
}

// 1 or 0, as a digit.
fn digit_of(b: bool) -> u8
    ensures { result ≡ flag b }
{
    b'0' + u8::from(b)
}

// The line of a refused call.
fn put_refusal(line: &mut [u8], at: usize, refusal: Refusal) -> usize
    requires { at + line_most ≤ length line.old }
    ensures put { Put line.old line.new at result (answer_line 0 (refused (number_of refusal))) }
    ensures upper_bound { result ≤ at + line_most }
{
    sheet_text::put_short(line, at, b'R', u64::from(refusal.number()))
}

// The line of a removal that was not refused.
fn put_removed(line: &mut [u8], at: usize, id: u32, was_live: bool) -> usize
    requires { at + 25 ≤ length line.old }
    ensures put { Put line.old line.new at result (answer_line id (removed was_live)) }
    ensures upper_bound { result ≤ at + 25 }
{
    let a = sheet_text::put_byte(line, at, b'D');
    let b = sheet_text::put_number(line, a, u64::from(id));
    let c = sheet_text::put_letter(line, b, digit_of(was_live));
    sheet_text::put_byte(line, c, b'\n')
}

pub fn put_removal(line: &mut [u8], at: usize, id: u32, r: Result<bool, Refusal>) -> usize
    requires { at + line_most ≤ length line.old }
    ensures put { Put line.old line.new at result (answer_line id (removal_answer r)) }
    ensures upper_bound { result ≤ at + line_most }
{
    match r {
        Ok(was_live) => put_removed(line, at, id, was_live),
        Err(refusal) => put_refusal(line, at, refusal),
    }
}

pub fn put_insertion(line: &mut [u8], at: usize, r: Result<u32, Refusal>) -> usize
    requires { at + line_most ≤ length line.old }
    ensures by_index { (asked : ℕ) → Put line.old line.new at result (answer_line asked (insertion_answer r)) }
    ensures upper_bound { result ≤ at + line_most }
{
    match r {
        Ok(id) => sheet_text::put_short(line, at, b'A', u64::from(id)),
        Err(refusal) => put_refusal(line, at, refusal),
    }
}

// The line of the best recording.
fn put_best(line: &mut [u8], at: usize, found: Found) -> usize
    requires { at + 108 ≤ length line.old }
    ensures put { Put line.old line.new at result (match_text found.id found.result ++ newline) }
    ensures upper_bound { result ≤ at + 108 }
{
    let end = put_match(line, at, found);
    sheet_text::put_byte(line, end, b'\n')
}

// The line of a query that finds nothing.
fn put_nothing(line: &mut [u8], at: usize) -> usize
    requires { at + 2 ≤ length line.old }
    ensures put { Put line.old line.new at result (answer_line 0 nothing) }
    ensures upper_bound { result ≤ at + 2 }
{
    let end = sheet_text::put_byte(line, at, b'N');
    sheet_text::put_byte(line, end, b'\n')
}

pub fn put_finding(line: &mut [u8], at: usize, r: Result<Option<Found>, Refusal>) -> usize
    requires { at + line_most ≤ length line.old }
    ensures by_index { (asked : ℕ) → Put line.old line.new at result (answer_line asked (finding_answer r)) }
    ensures upper_bound { result ≤ at + line_most }
{
    match r {
        Ok(Some(found)) => put_best(line, at, found),
        Ok(None) => put_nothing(line, at),
        Err(refusal) => put_refusal(line, at, refusal),
    }
}
