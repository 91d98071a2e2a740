// Words read from bytes (fields.rt), and texts written into a lent buffer: each function puts its text behind the first `at` bytes and answers
// where it ends.
#![tactic(auto)]

mod fields;

ghost use Rattle.std.specs.Prelude.{◌≡◌, [], ◌∷◌, ◌++◌, ◌+◌, ◌≤◌, ◌<◌, length};
ghost use Rattle.sheet_text.specs.Bytes.{decimal, sign, signed, hex_digit, hex_digits, float_bits, field, newline};
ghost use Rattle.sheet_text.specs.Put.{Put};

pub use fields::{read_fields, word_at};

// The most bytes of a line, as `line_most` has it.
pub const LINE_MOST: usize = 128;

pub fn put_byte(line: &mut [u8], at: usize, b: u8) -> usize
    requires { at < length line.old }
    ensures { Put line.old line.new at result (b ∷ []) }
{
    line[at] = b;
    at + 1
}

pub fn put_bytes(line: &mut [u8], at: usize, text: &[u8]) -> usize
    requires { at + length text.now ≤ length line.old }
    ensures { Put line.old line.new at result text.now }
{
    let end = at + text.len();
    line[at..end].copy_from_slice(text);
    end
}

fn digit(d: u64) -> u8
    requires { d < 10 }
    ensures { result ≡ 48 + d }
{
    b'0' + d as u8
}

fn put_digits(line: &mut [u8], at: usize, n: u64) -> usize
    requires { at + length (decimal n) ≤ length line.old }
    ensures { Put line.old line.new at result (decimal n) }
{
    if n < 10 {
        return put_byte(line, at, digit(n));
    }
    let end = put_digits(line, at, n / 10);
    put_byte(line, end, digit(n % 10))
}

fn hex_digit(d: u32) -> u8
    requires { d < 16 }
    ensures { result ≡ hex_digit d }
{
    if d < 10 {
        return b'0' + d as u8;
    }
    b'A' - 10 + d as u8
}

// The last k hexadecimal digits of n.
fn put_hex(line: &mut [u8], at: usize, n: u32, k: usize) -> usize
    requires { at + k ≤ length line.old }
    ensures { Put line.old line.new at result (hex_digits k n) }
{
    if k == 0 {
        return at;
    }
    let end = put_hex(line, at, n / 16, k - 1);
    put_byte(line, end, hex_digit(n % 16))
}

// ---- fields: each has a blank in front

pub fn put_number(line: &mut [u8], at: usize, n: u64) -> usize
    requires { at + 21 ≤ length line.old }
    ensures put { Put line.old line.new at result (field (decimal n)) }
    ensures upper_bound { result ≤ at + 21 }
{
    let start = put_byte(line, at, b' ');
    put_digits(line, start, n)
}

// Nothing, or the sign of a number below zero.
fn put_sign(line: &mut [u8], at: usize, x: i64) -> usize
    requires { at < length line.old }
    ensures put { Put line.old line.new at result (sign x) }
    ensures upper_bound { result ≤ at + 1 }
{
    if x >= 0 {
        return at;
    }
    put_byte(line, at, b'-')
}

pub fn put_signed(line: &mut [u8], at: usize, x: i64) -> usize
    requires { at + 22 ≤ length line.old }
    ensures put { Put line.old line.new at result (field (signed x)) }
    ensures upper_bound { result ≤ at + 22 }
{
    let start = put_byte(line, at, b' ');
    let digits = put_sign(line, start, x);
    put_digits(line, digits, x.unsigned_abs())
}

pub fn put_bits(line: &mut [u8], at: usize, x: f32) -> usize
    requires { at + 9 ≤ length line.old }
    ensures put { Put line.old line.new at result (field (float_bits x)) }
    ensures upper_bound { result ≤ at + 9 }
{
    let word = floats::f32_to_bits(x);
    let start = put_byte(line, at, b' ');
    put_hex(line, start, word, 8)
}

pub fn put_letter(line: &mut [u8], at: usize, b: u8) -> usize
    requires { at + 2 ≤ length line.old }
    ensures put { Put line.old line.new at result (field (b ∷ [])) }
    ensures upper_bound { result ≤ at + 2 }
{
    let start = put_byte(line, at, b' ');
    put_byte(line, start, b)
}

// A line of a letter and a number.
pub fn put_short(line: &mut [u8], at: usize, letter: u8, n: u64) -> usize
    requires { at + 23 ≤ length line.old }
    ensures put { Put line.old line.new at result (letter ∷ [] ++ field (decimal n) ++ newline) }
    ensures upper_bound { result ≤ at + 23 }
{
    let start = put_byte(line, at, letter);
    let end = put_number(line, start, n);
    put_byte(line, end, b'\n')
}
