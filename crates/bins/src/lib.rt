// Votes as words, sorted: where a run ends, run-length bins, distinct query positions.
#![tactic(auto)]

ghost use Rattle.std.specs.Prelude.{◌≡◌, ℕ, ◌+◌, ◌%◌, ◌≤◌, ◌<◌, ◌^◌, pos, length, get_or};
ghost use Rattle.maps.specs.Sums.{sum_to};
ghost use Rattle.bins.specs.Votes.{packed, above, lead_of, place_of, position_of, places, positions, Run};
ghost use Rattle.bins.specs.Codes.{code_in, codes_in, Fits, width, Group, occupied, offset_words, bin_words, bins_of, stored};
ghost use Rattle.bins.specs.Distinct.{near_place, marked, distinct_near};

// How a candidate's votes stand in words: a word counts from -low; without its last `bits` bits it is a code of `size` bits
// and the recording's id above it. Where `scaled`, a code is a scale bin above 40 bits of place, else a place. That a form `Fits` is no
// ghost field: definitions name forms by these four fields alone.
#[derive(Clone, Copy)]
pub struct Form {
    pub low: u64,
    pub bits: u32,
    pub size: u32,
    pub scaled: bool,
}

// A vote as a number: 12 bits of id, 33 of place, 11 of position.
pub fn pack(id: u64, place: u64, position: u64) -> u64
    requires { (id < 2 ^ 12) × (place < 2 ^ 33) × (position < 2 ^ 11) }
    ensures { (result ≡ packed id place position) × (result < 2 ^ 56) }
{
    (id << 44) + (place << 11) + position
}

// How far x lies above -low, 0 where it lies below. Of `low.saturating_add_signed(x)` LLVM doesn't see that no sum is too large: it
// takes twice as long.
fn above_low(x: i64, low: u64) -> u64
    requires { low ≤ 2 ^ 63 }
    ensures { result ≡ above low x }
{
    if 0 <= x {
        return low + x as u64;
    }
    let under = (-1 - x) as u64;
    if under < low {
        return low - under - 1;
    }
    0
}

// What tells words apart that are votes: how far a word lies above -low, 0 where it lies below, without its last `bits` bits.
#[derive(Clone, Copy)]
pub struct Lead {
    pub low: u64,
    pub bits: u32,
    ghost fits: { (low ≤ 2 ^ 63) × (bits < 64) },
}

impl Lead {
    pub fn of(self, word: i64) -> u64
        ensures { result ≡ lead_of self.low self.bits word }
    {
        above_low(word, self.low) >> self.bits
    }

    // Where the run of words ends, from i on and below e, that have the same lead.
    pub fn run_end(self, s: &[i64], i: usize, e: usize) -> usize
        requires { (i < e) × (e ≤ length s.now) }
        ensures { Run (λ (t : ℕ). lead_of self.low self.bits (get_or s.now t (pos 0))) i e result }
    {
        let x = self.of(s[i]);
        for r in i + 1..e {
            if self.of(s[r]) != x {
                return r;
            }
        }
        e
    }
}

// The place of a Wang vote.
fn place_of(vote: i64) -> u64
    ensures { (result ≡ place_of vote) × (result < 2 ^ 33) }
{
    vote.max(0) as u64 / 2048 % 0x2_0000_0000
}

// Its query position.
fn position_of(vote: i64) -> usize
    ensures { (result ≡ position_of vote) × (result < 2048) }
{
    (vote.max(0) as u64 % 2048) as usize
}

// The last `size` bits of x.
fn last_bits(x: u64, size: u32) -> u64
    requires { size ≤ 52 }
    ensures { (result ≡ x % 2 ^ size) × (result < 2 ^ 52) }
{
    let unit: u64 = 1 << size;
    x & (unit - 1)
}

impl Form {
    // What a word has above its last bits.
    fn lead(self) -> Lead
        requires { Fits self }
        ensures { (result.low ≡ self.low) × (result.bits ≡ self.bits) }
    {
        Lead {
            low: self.low,
            bits: self.bits,
        }
    }

    // The code of the vote in a word.
    pub fn code_of(self, word: i64) -> u64
        requires { Fits self }
        ensures { (result ≡ code_in self word) × (result < 2 ^ 52) }
    {
        last_bits(self.lead().of(word), self.size)
    }
}

// An offset, x above -middle, and its count.
fn put_offset(s: &mut [i64], j: usize, x: u64, count: u64, middle: u64)
    requires { (j + 1 < length s.old) × (x < 2 ^ 52) × (count < 2 ^ 63) × (middle < 2 ^ 40) }
    ensures { s.new ≡ stored s.old j (offset_words middle x count) }
{
    s[j] = x as i64 - middle as i64;
    maps::put_word(s, j + 1, count);
}

// The bin of a code, from word j on. Yields where the next one begins.
pub fn put_bin(s: &mut [i64], j: usize, code: u64, count: u64, f: Form, middle: u64) -> usize
    requires { (j + width f ≤ length s.old) × (code < 2 ^ 52) × (count < 2 ^ 63) × (middle < 2 ^ 40) }
    ensures { (result ≡ j + width f) × (s.new ≡ stored s.old j (bin_words f middle code count)) }
{
    if f.scaled {
        maps::put_word(s, j, code >> 40);
        put_offset(s, j + 1, code % 0x100_0000_0000, count, middle);
        return j + 3;
    }
    put_offset(s, j, code, count, middle);
    j + 2
}

// The bins of the g votes from word a on, written from word `at` on; offsets count from -middle. Yields how many bins
// there are.
pub fn count_sorted(s: &mut [i64], a: usize, g: usize, at: usize, f: Form, middle: u64) -> usize
    requires { Group f s.old a g at × Fits f × (middle < 2 ^ 40) }
    ensures { (result ≡ length (occupied (codes_in f s.old a g)))
        × (s.new ≡ stored s.old at (bins_of f middle (codes_in f s.old a g))) }
{
    let mut i = 0;
    let mut n = 0;
    let mut j = at;
    // It steps by runs.
    while i < g {
        let x = f.code_of(s[a + i]);
        let r = f.lead().run_end(s, a + i, a + g) - a;
        j = put_bin(s, j, x, (r - i) as u64, f, middle);
        i = r;
        n += 1;
    }
    n
}

// Whether y is within tol of x.
fn is_near(tol: u64, x: u64, y: u64) -> bool
    requires { (tol ≤ 65535) × (x ≤ 2 ^ 40) × (y ≤ 2 ^ 40) }
    ensures { result ≡ near_place tol x y }
{
    (x <= y + tol) & (y <= x + tol)
}

// Marks the positions of the votes whose places are within tol of x.
fn mark(seen: &mut [u8; 2048], votes: &[i64], tol: u64, x: u64)
    requires { (tol ≤ 65535) × (x ≤ 2 ^ 40) × ((i : ℕ) → get_or seen.old i 0 ≡ 0) × (length seen.old ≡ 2048) }
    ensures { (i : ℕ) → i < 2048 → get_or seen.new i 0 ≡ marked tol x (places votes.now 0) (positions votes.now 0) (length votes.now) i }
{
    for vote in votes {
        let h = u8::from(is_near(tol, x, place_of(*vote)));
        let q = position_of(*vote);
        seen[q] = seen[q].max(h);
    }
}

// How many of the positions are marked.
fn count_marks(seen: &[u8]) -> u64
    requires { (i : ℕ) → i < length seen.now → get_or seen.now i 0 ≤ 1 }
    ensures { result ≡ sum_to (λ i. get_or seen.now i 0) (length seen.now) }
{
    let mut n: u64 = 0;
    for h in seen {
        n += u64::from(*h);
    }
    n
}

// How many of the first m query positions have a vote whose place is within tol of x.
pub fn distinct_positions(votes: &[i64], tol: u64, x: u64, m: usize) -> u64
    requires { (tol ≤ 65535) × (x ≤ 2 ^ 40) × (m ≤ 2048) }
    ensures { result ≡ distinct_near tol x (places votes.now 0) (positions votes.now 0) (length votes.now) m }
{
    let mut seen = [0u8; 2048];
    mark(&mut seen, votes, tol, x);
    count_marks(&seen[..m])
}
