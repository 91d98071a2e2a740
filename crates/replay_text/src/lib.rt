// The lines of the list that the program replay runs on: words as text, and a line's words beside those that are held.
#![tactic(auto)]

mod contents;

ghost use Rattle.std.specs.Prelude.{◌≡◌, true, ◌+◌, ◌*◌, ◌%◌, ◌^◌, ◌≤◌, ◌<◌, length, get_or, take};
ghost use Rattle.lists.specs.Every.{every};
ghost use Rattle.replay_text.specs.Digits.{digit_of, pair_at, are_pair, word_at, is_word, word_stands, first_words};
ghost use Rattle.replay_text.specs.Words.{padded_to, holds, pair_of, holds_pairs};

pub use contents::{Contents, UnknownLetter, run_contents};

// ---- words as text

// The value of a hexadecimal digit, 16 for another byte: `word_at` gives every text a number.
fn digit_of(b: u8) -> u64
    ensures value { result ≡ digit_of b }
    ensures upper_bound { result ≤ 16 }
{
    match b {
        b'0'..=b'9' => u64::from(b - b'0'),
        b'A'..=b'F' => u64::from(b - b'A') + 10,
        _ => 16,
    }
}

// The number of two digits.
#[tactic(auto, unfolding(crate::specs::Digits::pair_at))]
fn pair_at(text: &[u8], at: usize) -> u64
    requires { at + 2 ≤ length text.now }
    ensures value { result ≡ pair_at text.now at }
    ensures upper_bound { result ≤ 272 }
{
    digit_of(text[at]) * 16 + digit_of(text[at + 1])
}

// Whether both are digits.
#[tactic(auto, unfolding(crate::specs::Digits::are_pair))]
fn are_pair(text: &[u8], at: usize) -> bool
    requires { at + 2 ≤ length text.now }
    ensures { result ≡ are_pair text.now at }
{
    digit_of(text[at]) < 16 && digit_of(text[at + 1]) < 16
}

// The number of eight digits.
#[tactic(auto, unfolding(crate::specs::Digits::word_at))]
pub fn word_at(text: &[u8], at: usize) -> u32
    requires { at + 8 ≤ length text.now }
    ensures { result ≡ word_at text.now at % 2 ^ 32 }
{
    let high = pair_at(text, at) * 256 + pair_at(text, at + 2);
    let low = pair_at(text, at + 4) * 256 + pair_at(text, at + 6);
    ((high * 65536 + low) % 4294967296) as u32
}

// Whether a blank and eight digits stand there.
#[tactic(auto, unfolding(crate::specs::Digits::is_word))]
pub fn is_word(text: &[u8], at: usize) -> bool
    requires { at + 9 ≤ length text.now }
    ensures { result ≡ is_word text.now at }
{
    let high = are_pair(text, at + 1) && are_pair(text, at + 3);
    let low = are_pair(text, at + 5) && are_pair(text, at + 7);
    text[at] == b' ' && high && low
}

// Whether n words stand at the beginning of a text, each behind a blank: they are then put at the beginning of `words`.
pub fn read_words(text: &[u8], n: usize, words: &mut [u32]) -> bool
    requires { (9 * n ≤ length text.now) × (n ≤ length words.old) }
    ensures value { result ≡ every n (word_stands text.now) }
    ensures words_after { result ≡ true → take n words.new ≡ first_words n text.now }
{
    for i in 0..n {
        if !is_word(text, 9 * i) {
            return false;
        }
        words[i] = word_at(text, 9 * i + 1);
    }
    true
}

// ---- a line's words, and zeros behind them

// The word at a place, 0 behind the last.
fn padded(words: &[u32], i: usize) -> u32
    ensures { result ≡ get_or words.now i 0 }
{
    words.get(i).copied().unwrap_or(0)
}

// Puts a line's words at the beginning of a slice, and zeros behind them.
pub fn put(slice: &mut [u32], words: &[u32])
    ensures { slice.new ≡ padded_to (length slice.old) words.now }
{
    for (i, x) in slice.iter_mut().enumerate() {
        *x = padded(words, i);
    }
}

// Whether a slice holds a line's words, and zeros behind them.
pub fn is_held(slice: &[u32], words: &[u32]) -> bool
    ensures { result ≡ holds slice.now words.now }
{
    for (i, x) in slice.iter().enumerate() {
        if *x != padded(words, i) {
            return false;
        }
    }
    words.len() <= slice.len()
}

// The word of 64 bits whose halves are words 2 i and 2 i + 1.
fn pair_of(words: &[u32], i: usize) -> u64
    requires { i < 8 }
    ensures { result ≡ pair_of words.now i }
{
    u64::from(padded(words, 2 * i)) * 4294967296 + u64::from(padded(words, 2 * i + 1))
}

// Whether the eight words of an answer have a line's halves, and zeros behind them.
pub fn is_answered(answer: &[u64; 8], words: &[u32]) -> bool
    ensures { result ≡ holds_pairs answer.now words.now }
{
    for (i, x) in answer.iter().enumerate() {
        if *x != pair_of(words, i) {
            return false;
        }
    }
    words.len() <= 16
}
