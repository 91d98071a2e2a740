// Hashes laid down as entries in key order, and the rows of their recordings.
#![tactic(auto)]

ghost use Rattle.std.specs.Prelude.{◌≡◌, cond, [], ◌∷◌, ◌++◌, map, ◌+◌, ◌*◌, ◌-◌, ◌≤◌, ◌<◌, length, take, drop, get_or};
ghost use Rattle.lists.specs.Lists.{sum, flat, All};
ghost use Rattle.build_ranges.specs.Codes.{tabulate, ranks_from};
ghost use Rattle.build_sort.specs.Digits.{Readable};
ghost use Rattle.model.specs.Fingerprints.{hashes_of};
ghost use Rattle.model.specs.Rows.{has_rmax, largest_anchor, canonical};
ghost use Rattle.model.specs.Words.{head_width, row_width};
ghost use Rattle.maps.specs.Puts.{entry_of};
ghost use Rattle.build_entries.specs.Laid.{entry_by, SameFrom, laid_entries, StartsTo, row_for};

use build_ranges::Arrivals;
use build_sort::Hashes;
use rows::Row;

// Hashes with the rate and the set of each recording.
#[derive(Clone, Copy)]
pub struct Recordings<'a> {
    pub arrivals: Arrivals<'a>,
    pub rates: &'a [u32],
    pub sets: &'a [u32],
    ghost wide: { 3 ≤ arrivals.width },
    ghost rated: { length rates.now ≡ length arrivals.lengths.now },
    ghost grouped: { length sets.now ≡ length arrivals.lengths.now },
}

// Hash i becomes entry e, for recording id.
fn lay_entry(posts: &mut [u32], w: usize, e: usize, hashes: &[u32], i: usize, id: u32)
    requires { (2 ≤ w) × (w * e + w ≤ length posts.old) × ((w - 1) * i + (w - 1) ≤ length hashes.now) }
    ensures { (take (w * e + w) posts.new ≡ take (w * e) posts.old ++ entry_of (w - 1) hashes.now id i)
        × SameFrom (w * e + w) posts.old posts.new }
{
    maps::put_entry(posts, w * e, hashes, w - 1, i, id);
}

// The first hash of each recording.
fn fill_starts(starts: &mut [u32; 4096], lengths: &[u32])
    requires { (length lengths.now ≤ 4096) × (sum lengths.now ≤ 33554432) × (length starts.old ≡ 4096) }
    ensures { StartsTo starts.new lengths.now (length lengths.now) }
{
    let mut total: u32 = 0;
    for (i, n) in lengths.iter().enumerate() {
        starts[i] = total;
        total += *n;
    }
}

// n numbers, from `base` on, go to the words from `to` on.
fn fill_part(posts: &mut [u32], to: usize, base: usize, n: usize)
    requires { (to + n ≤ length posts.old) × (base + n ≤ 33554432) }
    ensures { take (to + n) posts.new ≡ take to posts.old ++ tabulate (λ j. base + j) n }
{
    for j in 0..n {
        posts[to + j] = (base + j) as u32;
    }
}

// The first words become the ranks of all hashes, in arrival order. Yields how many they are.
fn fill_ranks(posts: &mut [u32], lengths: &[u32]) -> usize
    requires { (sum lengths.now ≤ length posts.old) × (length lengths.now ≤ 4096) × All (λ n. n ≤ 8192) lengths.now }
    ensures { (result ≡ sum lengths.now) × (take result posts.new ≡ ranks_from 0 lengths.now) }
{
    let mut m = 0;
    for (i, n) in lengths.iter().enumerate() {
        let n = *n as usize;
        fill_part(posts, m, 8192 * i, n);
        m += n;
    }
    m
}

// The m ranks that end with entry m become entries, the first one first: an entry never reaches a rank that is still to be read.
fn lay_ranks(posts: &mut [u32], w: usize, m: usize, hashes: &[u32], starts: &[u32; 4096])
    requires { (2 ≤ w) × (w * m ≤ length posts.old) × All (Readable hashes.now (w - 1) starts.now) (take m (drop ((w - 1) * m) posts.old)) }
    ensures { take (w * m) posts.new
        ≡ flat (map (entry_by hashes.now w starts.now) (take m (drop ((w - 1) * m) posts.old))) }
{
    let first = (w - 1) * m;
    for t in 0..m {
        let r = posts[first + t];
        lay_entry(posts, w, t, hashes, build_sort::place(starts, r), r / 8192);
    }
}

// All hashes become entries, in key order: their ranks are sorted in the entries' words first.
pub fn lay_all(posts: &mut [u32], arrivals: Arrivals)
    requires { (3 ≤ arrivals.width) × (arrivals.width * sum arrivals.lengths.now ≤ length posts.old) }
    ensures { take (arrivals.entry.width * sum arrivals.entry.lengths.now) posts.new
        ≡ flat (laid_entries arrivals.entry.hashes.now arrivals.entry.width arrivals.entry.lengths.now) }
{
    let w = arrivals.width;
    let mut starts = [0u32; 4096];
    fill_starts(&mut starts, arrivals.lengths);
    let m = fill_ranks(posts, arrivals.lengths);
    let named = Hashes {
        words: arrivals.hashes,
        width: w - 1,
        starts: &starts,
    };
    named.sort_ranks(posts, m);
    lay_ranks(posts, w, m, arrivals.hashes, &starts);
}

// Row i, and no vacant entry in it.
fn lay_row(refs: &mut [u32], i: usize, row: Row)
    requires { head_width + row_width * (i + 1) ≤ length refs.old }
    ensures { take (head_width + row_width * (i + 1)) refs.new ≡ take (head_width + row_width * i) refs.old ++ row.rate ∷ row.rmax ∷ 1 ∷ 0 ∷ row.set ∷ [] }
{
    rows::put_row(refs, i, row, 1);
    rows::put_entry(refs, i, 0);
}

impl Recordings<'_> {
    // The row of recording i, whose hashes stand from `start` on.
    fn row(self, i: usize, start: usize) -> Row
        requires { (i < length self.arrivals.lengths.now)
            × ((self.arrivals.width - 1) * (start + get_or self.arrivals.lengths.now i 0) ≤ length self.arrivals.hashes.now) }
        ensures { (result.rate ≡ canonical (get_or self.entry.rates.now i 0))
            × (result.rmax ≡ cond (has_rmax self.entry.arrivals.width)
            (largest_anchor (take (get_or self.entry.arrivals.lengths.now i 0) (drop start (hashes_of self.entry.arrivals.width self.entry.arrivals.hashes.now)))) 0)
            × (result.set ≡ get_or self.entry.sets.now i 0) }
    {
        let from = self.arrivals;
        let n = from.lengths[i] as usize;
        let v = from.width - 1;
        let a = v * start;
        let e = v * (start + n);
        rows::row_of(&from.hashes[a..e], from.width, self.rates[i], self.sets[i])
    }

    // All rows.
    pub fn put_rows(self, refs: &mut [u32])
        requires { head_width + row_width * length self.arrivals.lengths.now ≤ length refs.old }
        ensures { take (head_width + row_width * length self.entry.arrivals.lengths.now) refs.new ≡ take head_width refs.old
            ++ flat (tabulate (λ i. row_for self.entry.arrivals.hashes.now self.entry.arrivals.width (sum (take i self.entry.arrivals.lengths.now))
            (get_or self.entry.arrivals.lengths.now i 0) (get_or self.entry.rates.now i 0) (get_or self.entry.sets.now i 0)) (length self.entry.arrivals.lengths.now)) }
    {
        let mut start = 0;
        for (i, n) in self.arrivals.lengths.iter().enumerate() {
            lay_row(refs, i, self.row(i, start));
            start += *n as usize;
        }
    }
}
