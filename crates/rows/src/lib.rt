// The references' words: the header, rows and vacant entries; what a fingerprint's words say.
#![tactic(auto)]

ghost use Rattle.std.specs.Prelude.{◌≡◌, cond, map, ◌+◌, ◌*◌, ◌/◌, ◌<◌, ◌≤◌, length, set as set_at};
ghost use Rattle.lists.specs.Entries.{entries};
ghost use Rattle.model.specs.Fingerprints.{hash_of, hashes_of, malformed};
ghost use Rattle.model.specs.Rows.{has_rmax, largest_anchor, canonical, is_set};
ghost use Rattle.model.specs.Soundness.{row_word};
ghost use Rattle.model.specs.Words.{head_width, row_width, row_place};
ghost use Rattle.rows.specs.References.{CountsOf, header_put, row_put, entry_put};

// "4 words (rows n, vacant v, postings p, stopped k), then R rows" of 5 words: "rate bits, r_max, live (1 or 0), vacant entry", "its set"
// The words of a row are numbers and not an enum, since they are offsets: `row_word` adds one to the place of a row.
pub const HEAD_WIDTH: usize = 4;

pub const ROW_WIDTH: usize = 5;

pub const AT_RATE: usize = 0;

pub const AT_RMAX: usize = 1;

pub const AT_LIVE: usize = 2;

pub const AT_VACANT: usize = 3;

pub const AT_SET: usize = 4;

// "its set, 1 to 255"
pub const SET_MOST: u32 = 255;

// The rate of a dead row, and of a live one that is a NaN.
pub const NO_RATE: u32 = floats::NAN_BITS;

// What of the store is in use: rows, vacant entries, postings and stopped keys.
#[derive(Clone, Copy)]
pub struct Counts {
    pub rows: usize,
    pub vacant: usize,
    pub postings: usize,
    pub stopped: usize,
}

// What a row says of its recording.
#[derive(Clone, Copy)]
pub struct Row {
    pub rate: u32,
    pub rmax: u32,
    pub set: u32,
}

// The first four words.
pub fn header(refs: &[u32]) -> Counts
    requires { head_width ≤ length refs.now }
    ensures { CountsOf refs.now result }
{
    Counts {
        rows: refs[0] as usize,
        vacant: refs[1] as usize,
        postings: refs[2] as usize,
        stopped: refs[3] as usize,
    }
}

// Writes the first four words.
#[tactic(auto, using(crate::proofs::References::header_again), unfolding(crate::specs::References::header_put))]
pub fn put_header(refs: &mut [u32], n: u32, v: u32, p: u32, k: u32)
    requires { head_width ≤ length refs.old }
    ensures { refs.new ≡ header_put refs.old n v p k }
{
    refs[0] = n;
    refs[1] = v;
    refs[2] = p;
    refs[3] = k;
}

// Word f of row j.
pub fn row_word(refs: &[u32], j: usize, f: usize) -> u32
    requires { row_place j f < length refs.now }
    ensures { result ≡ row_word refs.now j f }
{
    refs[ROW_WIDTH * j + (HEAD_WIDTH + f)]
}

// Writes word f of row j.
fn put_word(refs: &mut [u32], j: usize, f: usize, x: u32)
    requires { row_place j f < length refs.old }
    ensures { refs.new ≡ set_at refs.old (row_place j f) x }
{
    refs[ROW_WIDTH * j + (HEAD_WIDTH + f)] = x;
}

// Writes row j but for its vacant entry.
#[tactic(auto, unfolding(crate::specs::References::row_put))]
pub fn put_row(refs: &mut [u32], j: usize, row: Row, live: u32)
    requires { head_width + row_width * (j + 1) ≤ length refs.old }
    ensures { refs.new ≡ row_put refs.old j row.rate row.rmax live row.set }
{
    put_word(refs, j, AT_RATE, row.rate);
    put_word(refs, j, AT_RMAX, row.rmax);
    put_word(refs, j, AT_LIVE, live);
    put_word(refs, j, AT_SET, row.set);
}

// Writes vacant entry i.
#[tactic(auto, unfolding(crate::specs::References::entry_put))]
pub fn put_entry(refs: &mut [u32], i: usize, id: u32)
    requires { head_width + row_width * (i + 1) ≤ length refs.old }
    ensures { refs.new ≡ entry_put refs.old i id }
{
    put_word(refs, i, AT_VACANT, id);
}

// A NaN's word becomes the one word that a store has for it.
#[tactic(auto, using(crate::proofs::RowWords::canonical_nan, crate::proofs::RowWords::canonical_same))]
fn canonical_rate(rate: u32) -> u32
    ensures { result ≡ canonical rate }
{
    if 0x7F80_0000 < rate % 0x8000_0000 {
        NO_RATE
    } else {
        rate
    }
}

// The largest t_anchor of Wang's hashes, 2 words each.
fn largest_anchor(hashes: &[u32]) -> u32
    ensures { result ≡ largest_anchor (map hash_of (entries 2 (length hashes.now / 2) hashes.now)) }
{
    let mut top: u32 = 0;
    for j in 0..hashes.len() / 2 {
        top = top.max(hashes[2 * j + 1]);
    }
    top
}

// The r_max of a recording's row, from all of its hashes.
pub fn row_max(hashes: &[u32], w: usize) -> u32
    requires { 3 ≤ w }
    ensures { result ≡ cond (has_rmax w) (largest_anchor (hashes_of w hashes.now)) 0 }
{
    if w == 3 { largest_anchor(hashes) } else { 0 }
}

// Whether a recording can be of this set.
#[tactic(auto, using(std::proofs::lemmas::Bool::Decides::nat_tests), unfolding(model::specs::Rows::is_set))]
pub fn is_set(set: u32) -> bool
    ensures { result ≡ is_set set }
{
    0 < set && set <= SET_MOST
}

// The row of a recording, from its hashes, its rate and its set.
pub fn row_of(hashes: &[u32], w: usize, rate: u32, set: u32) -> Row
    requires { 3 ≤ w }
    ensures { (result.rate ≡ canonical rate) × (result.rmax ≡ cond (has_rmax w) (largest_anchor (hashes_of w hashes.now)) 0) × (result.set ≡ set) }
{
    Row {
        rate: canonical_rate(rate),
        rmax: row_max(hashes, w),
        set,
    }
}

// Whether the words are no whole hashes, or more than `most` of them.
#[tactic(auto, using(std::proofs::lemmas::Bool::Decides::nat_tests), unfolding(model::specs::Fingerprints::malformed))]
pub fn is_malformed(hashes: &[u32], w: usize, most: usize) -> bool
    requires { 3 ≤ w }
    ensures { result ≡ malformed w most hashes.now }
{
    let v = w - 1;
    hashes.len() % v != 0 || most < hashes.len() / v
}
