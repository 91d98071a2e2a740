// `matching/consolidate.rs` of the reference, in two dimensions: Panako's Hough consolidation. A bin
// is three words of a slice: its scale bin, its offset, its count. The bins ascend by scale bin, then
// by offset. Behind n bins stand their sums, a word each: `HoughScratch` of the reference, as parts of
// the scratch. They are worked out once, for the peak and its prominence.
//
// Scale bin and offset make one number, the bin's key: a row of 2^41 for each scale bin, and in it a
// place for the offset, with the offset 0 in the middle. The keys ascend, and the neighbours of a bin
// are those whose keys lie within the tolerance of its own, or of the same place one row down or up.
// So three windows slide over the bins, each by two indices that only grow. The sums of a few bins are
// worked out pair by pair, and with a small tolerance the offset of their peak directly.
#![tactic(auto)]

ghost use Rattle.std.specs.Prelude.{◌≡◌, ◌&&◌, ◌||◌, ℕ, ◌+◌, ◌-◌, ◌*◌, ◌<◌, ◌≤◌, ◌^◌, length, get_or, take, set, pos, T, leb, ltb, eqb};
ghost use Rattle.std.specs.Int.Signed.{non_neg};
ghost use Rattle.lists.specs.Every.{every};
ghost use Rattle.maps.specs.Sums.{when};
ghost use Rattle.maps.specs.Words.{nat_of};
ghost use Rattle.hough.specs.Hough.{scale, offset, votes, dist, far, hough_sum, hough_peak, peak_offset, far_sum, far_count, mean_of, prominence};
ghost use Rattle.hough.specs.Limits.{before, Bins, Roomy, Written, Summed, Kept, WithSums, bin_ok, bins_ok, hough_ok, answer_at, checked_answer, LeftAfter};
ghost use Rattle.hough.specs.Keys.{few_bins, small_tolerance, place, key, KeysAscend, near_by, Ready, Around, at_start, better_of, more_of, Ahead, Clear, count_at, frame_tally};

use consolidate::{Ascending, Tally, Window};

const ROW: u64 = 0x200_0000_0000;

const MIDDLE: i64 = 0x100_0000_0000;

// For so few bins, looking at every pair is cheaper than sliding windows.
const FEW: usize = 24;

// And with so small a tolerance, so is looking at every offset within it.
const NEAR: u64 = 4;

// The greatest sum, and the first bin that has it.
#[derive(Clone, Copy)]
pub struct Peak {
    pub votes: u64,
    pub at: usize,
}

// A peak, the offset that is reported for it, and its prominence.
#[derive(Clone, Copy)]
pub struct Answer {
    pub peak: Peak,
    pub offset: i64,
    pub prominence: f32,
}

// ---- bins

// The first n bins of s.
#[derive(Clone, Copy)]
struct Keyed<'a> {
    s: &'a [i64],
    n: usize,
    ghost bins: { Bins s.now n },
    ghost up: { KeysAscend s.now n },
}

impl<'a> Keyed<'a> {
    // The scale bin of bin i.
    fn scale(self, i: usize) -> u64
        requires { i < self.n }
        ensures { (result ≡ scale self.entry.s.now i) × (result ≤ 4095) }
    {
        self.s[3 * i] as u64
    }

    // The offset of bin i.
    fn offset(self, i: usize) -> i64
        requires { i < self.n }
        ensures { result ≡ offset self.entry.s.now i }
    {
        self.s[3 * i + 1]
    }

    // The place of bin i in its row.
    fn place(self, i: usize) -> u64
        requires { i < self.n }
        ensures { (result ≡ place self.entry.s.now i) × (result ≤ 2 ^ 40 + 2 ^ 39) × (2 ^ 39 ≤ result) }
    {
        let v = self.s[3 * i + 1] + MIDDLE;
        v as u64
    }
}

impl<'a> Ascending for Keyed<'a> {
    ghost keys = { λ b. key b.s.now };

    ghost counts = { λ b. votes b.s.now };

    ghost number = { λ b. b.n };

    fn len(self) -> usize {
        self.n
    }

    fn key(self, i: usize) -> u64 {
        let row = self.scale(i) + 1;
        row * ROW + self.place(i)
    }

    fn votes(self, i: usize) -> u64 {
        self.s[3 * i + 2] as u64
    }

    ghost ascend = { λ b. b.up };

    ghost few = { λ b. b.bins.sum };
}

// The scale bin of bin i.
pub fn scale_at(s: &[i64], n: usize, i: usize) -> u64
    requires { Bins s.now n × (i < n) }
    ensures { (result ≡ scale s.now i) × (result ≤ 4095) }
{
    Keyed { s, n }.scale(i)
}

// ---- a few bins

// What writes sums takes the words, n and tol themselves: a struct that held the words by `&mut` would
// be made anew for each call, and be no plainer.

// Whether keys that lie d apart are those of neighbours: in one row, or one in the next row.
fn is_near(d: u64, tol: u64) -> bool
    requires { tol ≤ 65535 }
    ensures { result ≡ near_by tol d }
{
    (d <= tol) | ((d <= ROW + tol) & (ROW - tol <= d))
}

// v where b holds, else 0.
fn kept(b: bool, v: u64) -> u64
    ensures { result ≡ when b v }
{
    if b { v } else { 0 }
}

// The number in word `at` becomes v more.
fn add_to(s: &mut [i64], at: usize, v: u64)
    requires { (at < length s.old) × T (non_neg (get_or s.old at (pos 0))) × (nat_of (get_or s.old at (pos 0)) + v < 2 ^ 63) }
    ensures { s.new ≡ set s.old at (pos (nat_of (get_or s.old at (pos 0)) + v)) }
{
    let more = v as i64;
    s[at] += more;
}

// The sums among the first i bins become those among one bin more.
fn add_bin(s: &mut [i64], n: usize, tol: u64, i: usize)
    requires { Roomy s.old n × (tol ≤ 65535) × (i < n) × Written (hough_sum (take (3 * n) s.old) i tol) i s.old (3 * n) }
    ensures kept { Kept s.old s.new n }
    ensures written { Written (hough_sum (take (3 * n) s.old) (i + 1) tol) (i + 1) s.new (3 * n) }
{
    let e = 3 * n;
    let own = Keyed { s: &s[..e], n };
    let x = own.key(i);
    let v = own.votes(i);
    let mut sum: u64 = 0;
    for j in 0..i {
        let other = Keyed { s: &s[..e], n };
        let near = is_near(x - other.key(j), tol);
        sum += kept(near, other.votes(j));
        add_to(s, e + j, kept(near, v));
    }
    maps::put_word(s, e + i, sum + v);
}

// The sum of each bin, pair by pair.
fn pair_sums(s: &mut [i64], n: usize, tol: u64)
    requires { Roomy s.old n × (tol ≤ 65535) × (n ≤ few_bins) }
    ensures { WithSums s.old s.new n tol }
{
    for i in 0..n {
        add_bin(s, n, tol, i);
    }
}

// ---- windows

// One row down, in the row itself and one row up; and the sum of the three.
#[derive(Clone, Copy)]
pub struct Windows {
    pub under: Window,
    pub here: Window,
    pub over: Window,
    pub sum: u64,
}

fn at_start() -> Windows
    ensures { result ≡ at_start }
{
    let w = Window {
        enter: 0,
        leave: 0,
        sum: 0,
    };
    Windows {
        under: w,
        here: w,
        over: w,
        sum: 0,
    }
}

impl<'a> Keyed<'a> {
    // The three windows around the key x.
    fn around(self, tol: u64, t: Windows, x: u64) -> Windows
        requires { (tol ≤ 65535) × (2 ^ 41 + 65535 ≤ x) × (x ≤ 2 ^ 54 + 131072) × Ready self.s.now self.n tol x t }
        ensures { Around self.entry.s.now self.entry.n tol x result × (result.sum ≡ result.under.sum + result.here.sum + result.over.sum) }
    {
        let under = consolidate::moved(self, tol, t.under, x - ROW);
        let here = consolidate::moved(self, tol, t.here, x);
        let over = consolidate::moved(self, tol, t.over, x + ROW);
        let sum = under.sum + here.sum + over.sum;
        Windows {
            under,
            here,
            over,
            sum,
        }
    }

    // The three windows of bin i, and the sum of its neighbours' counts.
    fn stepped(self, tol: u64, t: Windows, i: usize) -> Windows
        requires { (tol ≤ 65535) × (i < self.n) × Ready self.s.now self.n tol (key self.s.now i) t }
        ensures { Around self.entry.s.now self.entry.n tol (key self.entry.s.now i) result × (result.sum ≡ hough_sum self.entry.s.now self.entry.n tol i) × (result.sum ≤ 1000000) }
    {
        self.around(tol, t, self.key(i))
    }
}

// The sum of each bin, by sliding windows.
fn slid_sums(s: &mut [i64], n: usize, tol: u64)
    requires { Roomy s.old n × (tol ≤ 65535) }
    ensures { WithSums s.old s.new n tol }
{
    let e = 3 * n;
    let mut t = at_start();
    for i in 0..n {
        t = Keyed { s: &s[..e], n }.stepped(tol, t, i);
        maps::put_word(s, e + i, t.sum);
    }
}

// The sum of each bin is put behind the n bins, in their order: what the peak and its prominence then
// need not work out.
pub fn put_sums(s: &mut [i64], n: usize, tol: u64)
    requires { Roomy s.old n × (tol ≤ 65535) }
    ensures { WithSums s.old s.new n tol }
{
    if n <= FEW {
        pair_sums(s, n, tol);
    } else {
        slid_sums(s, n, tol);
    }
}

// The first n bins of s, and their sums behind them.
#[derive(Clone, Copy)]
struct Sums<'a> {
    s: &'a [i64],
    n: usize,
    tol: u64,
    ghost roomy: { Roomy s.now n },
    ghost summed: { Summed s.now n tol },
}

impl<'a> Sums<'a> {
    // The sum of bin i.
    fn at(self, i: usize) -> u64
        requires { i < self.n }
        ensures { let b = self.entry in (result ≡ hough_sum (take (3 * b.n) b.s.now) b.n b.tol i) × (result ≤ 1000000) }
    {
        self.s[3 * self.n + i] as u64
    }

    // ---- the peak

    fn peak(self) -> Peak
        ensures value { let b = self.entry in result ≡ hough_peak (take (3 * b.n) b.s.now) b.n b.tol }
        ensures at_lt_n { (0 < self.entry.n → result.at < self.entry.n) × (result.votes ≤ 1000000) }
    {
        let mut best = Peak { votes: 0, at: 0 };
        for i in 0..self.n {
            best = best.with(i, self.at(i));
        }
        best
    }

    // ---- the background

    // That of bin a.
    fn background(self, a: usize) -> Background
        requires { (self.tol ≤ 65535) × (a < self.n) }
        ensures { let b = self.entry in (result.sum ≡ far_sum (take (3 * b.n) b.s.now) b.n b.tol a) × (result.count ≡ far_count (take (3 * b.n) b.s.now) b.n b.tol a) }
    {
        let n = self.n;
        let bins = Keyed {
            s: &self.s[..3 * n],
            n,
        };
        let mut b = Background { sum: 0, count: 0 };
        for i in 0..n {
            b = b.with(bins.is_far(self.tol, a, i), self.at(i));
        }
        b
    }

    fn prominence(self, p: Peak) -> f32
        requires { (self.tol ≤ 65535) × (p.at < self.n) }
        ensures { let b = self.entry in result ≡ prominence (take (3 * b.n) b.s.now) b.n b.tol p.votes p.at }
    {
        let b = self.background(p.at);
        floats::u64_to_f32(p.votes) / (b.mean() + 1.0)
    }
}

impl Peak {
    // With the sum v of bin i.
    fn with(self, i: usize, v: u64) -> Peak
        ensures { result ≡ better_of self i v }
    {
        if self.votes < v {
            return Peak { votes: v, at: i };
        }
        self
    }
}

// The greatest sum, and the first bin that has it, of n bins with their sums behind them.
pub fn panako_hough_peak(s: &[i64], n: usize, tol: u64) -> Peak
    requires { Roomy s.now n × Summed s.now n tol }
    ensures value { result ≡ hough_peak (take (3 * n) s.now) n tol }
    ensures at_lt_n { (0 < n → result.at < n) × (result.votes ≤ 1000000) }
{
    Sums { s, n, tol }.peak()
}

// ---- the prominence

impl<'a> Keyed<'a> {
    // Bin i is out of the reach of bin a.
    fn is_far(self, tol: u64, a: usize, i: usize) -> bool
        requires { (tol ≤ 65535) × (a < self.n) × (i < self.n) }
        ensures { result ≡ far self.entry.s.now tol a i }
    {
        let scales = self.scale(a).abs_diff(self.scale(i));
        let frames = self.place(a).abs_diff(self.place(i));
        (scales > 2) | (frames > 2 * tol)
    }
}

// The sums of the bins out of reach, added up, and how many they are.
#[derive(Clone, Copy)]
pub struct Background {
    pub sum: u64,
    pub count: u64,
}

impl Background {
    // With the sum v of a bin, if that bin is far.
    fn with(self, far: bool, v: u64) -> Background
        requires { (self.sum ≤ 2 ^ 60) × (self.count ≤ 2 ^ 60) × (v ≤ 2 ^ 60) }
        ensures { result ≡ more_of self far v }
    {
        if far {
            return Background {
                sum: self.sum + v,
                count: self.count + 1,
            };
        }
        self
    }

    fn mean(self) -> f32
        ensures { result ≡ mean_of self.sum self.count }
    {
        if self.count == 0 {
            return 0.0;
        }
        floats::u64_to_f32(self.sum) / floats::u64_to_f32(self.count)
    }
}

// The peak's votes over one more than the mean of the sums out of its reach, of n bins with their sums
// behind them.
pub fn panako_prominence(s: &[i64], n: usize, tol: u64, p: Peak) -> f32
    requires { Roomy s.now n × (tol ≤ 65535) × Summed s.now n tol × (p.at < n) }
    ensures { result ≡ prominence (take (3 * n) s.now) n tol p.votes p.at }
{
    Sums { s, n, tol }.prominence(p)
}

// ---- the peak's offset

impl<'a> Keyed<'a> {
    // How far the key of bin `at` lies above x, or `most` where that is more or there is no such bin.
    fn ahead(self, at: usize, x: u64, most: u64) -> u64
        requires { (0 < most) × ((j : ℕ) → at ≤ j → j < self.n → x < key self.s.now j) }
        ensures { Ahead (key self.entry.s.now) self.entry.n at x most result }
    {
        if at < self.n {
            return most.min(self.key(at) - x);
        }
        most
    }

    // How far the next offset with a bin is, and `most` at most.
    fn next_step(self, t: Windows, x: u64, most: u64) -> u64
        requires { (0 < most) × (2 ^ 41 ≤ x) × (x ≤ 2 ^ 54 + 131072) × Around self.s.now self.n 0 x t }
        ensures { Clear self.entry.s.now self.entry.n x t most result }
    {
        let a = self.ahead(t.under.enter, x - ROW, most);
        let b = self.ahead(t.here.enter, x, a);
        self.ahead(t.over.enter, x + ROW, b)
    }

    // The count of bin i where it is at place x and within one scale bin of k, else 0.
    fn votes_there(self, k: u64, x: u64, i: usize) -> u64
        requires { i < self.n }
        ensures { let l = self.entry.s.now in result ≡ when (leb (dist k (scale l i)) 1 && eqb (place l i) x) (votes l i) }
    {
        if (k.abs_diff(self.scale(i)) <= 1) & (self.place(i) == x) {
            return self.votes(i);
        }
        0
    }

    // The sum of the counts at place x, within one scale bin of k.
    fn direct_at(self, k: u64, x: u64) -> u64
        ensures { result ≡ count_at self.entry.s.now self.entry.n k x }
    {
        let mut sum: u64 = 0;
        for j in 0..self.n {
            sum += self.votes_there(k, x, j);
        }
        sum
    }
}

// The offsets within tol of that of bin i.
#[derive(Clone, Copy)]
struct Offsets<'a> {
    bins: Keyed<'a>,
    tol: u64,
    i: usize,
    ghost reach: { tol ≤ 65535 },
    ghost inside: { i < bins.n },
}

impl<'a> Offsets<'a> {
    // The tally of bin i's neighbours, merged by offset. Only the offsets that have a bin are visited.
    fn slid_tally(self) -> Tally
        ensures { let f = self.entry in result ≡ frame_tally f.bins.s.now f.bins.n f.tol f.i (2 * f.tol + 1) }
    {
        let bins = self.bins;
        let tol = self.tol;
        let start = bins.key(self.i) - tol;
        let low = bins.offset(self.i) - (tol as i64);
        let width = 2 * tol + 1;
        let mut t = at_start();
        let mut y = Tally::none();
        let mut x: u64 = 0;
        // By leaps: from one offset with a bin to the next.
        while x < width {
            t = bins.around(0, t, start + x);
            y = y.with(t.sum, low + (x as i64));
            x += bins.next_step(t, start + x, width - x);
        }
        y
    }

    // The same tally, by a look at every bin for every offset. Inlined, its tally is kept in memory and
    // not in registers, which takes up to 7 % of the peak of a few bins.
    #[inline(never)]
    fn direct_tally(self) -> Tally
        requires { (self.bins.n ≤ few_bins) × (self.tol ≤ small_tolerance) }
        ensures { let f = self.entry in result ≡ frame_tally f.bins.s.now f.bins.n f.tol f.i (2 * f.tol + 1) }
    {
        let bins = self.bins;
        let tol = self.tol;
        let k = bins.scale(self.i);
        let start = bins.place(self.i) - tol;
        let low = bins.offset(self.i) - (tol as i64);
        let mut y = Tally::none();
        for x in 0..2 * tol + 1 {
            y = y.with(bins.direct_at(k, start + x), low + (x as i64));
        }
        y
    }

    // The tally by whichever way is quicker.
    fn tally(self) -> Tally
        ensures { let f = self.entry in result ≡ frame_tally f.bins.s.now f.bins.n f.tol f.i (2 * f.tol + 1) }
    {
        if (self.bins.n <= FEW) & (self.tol <= NEAR) {
            return self.direct_tally();
        }
        self.slid_tally()
    }
}

// The offset that is reported for a peak at bin i: the mode of its neighbours' counts, merged by
// offset.
pub fn panako_peak_offset(s: &[i64], n: usize, tol: u64, i: usize) -> i64
    requires { Bins s.now n × (tol ≤ 65535) × (i < n) }
    ensures { result ≡ peak_offset s.now n tol i }
{
    let bins = Keyed { s, n };
    let y = Offsets { bins, tol, i }.tally();
    y.mode().unwrap_or(bins.offset(i))
}

// ---- for any arguments

// Bin i is the last, or stands before the next. With `bin_ok` it stays apart from `consolidate`'s: the
// words of a bin, their bounds and their order are other ones.
fn rises(s: &[i64], n: usize, i: usize) -> bool
    requires { (i < n) × (3 * n ≤ length s.now) }
    ensures { result ≡ (leb n (i + 1) || before s.now i (i + 1)) }
{
    let next = i + 1;
    if n <= next {
        return true;
    }
    let a = s[3 * i].unsigned_abs();
    let b = s[3 * next].unsigned_abs();
    (a < b) | ((a == b) & (s[3 * i + 1] < s[3 * next + 1]))
}

fn bin_ok(s: &[i64], n: usize, i: usize) -> bool
    requires { (i < n) × (3 * n ≤ length s.now) }
    ensures { result ≡ bin_ok s.now n i }
{
    let a = s[3 * i];
    let d = s[3 * i + 1];
    let v = s[3 * i + 2];
    let scale_ok = (a >= 0) & (a.unsigned_abs() <= 4095);
    let close = d.unsigned_abs() <= 549755813888;
    scale_ok & (close & ((v >= 0) & rises(s, n, i)))
}

fn all_bins_ok(s: &[i64], n: usize) -> bool
    requires { 3 * n ≤ length s.now }
    ensures { result ≡ every n (bin_ok s.now n) }
{
    (0..n).all(|i| bin_ok(s, n, i))
}

// Whether the leaves take the first n bins of s.
#[tactic(auto, unfolding(crate::specs::Limits::bins_ok))]
pub fn bins_ok(s: &[i64], n: usize) -> bool
    ensures { result ≡ bins_ok s.now n }
{
    (n <= 1000000) && (3 * n <= s.len()) && all_bins_ok(s, n) && consolidate::sum_ok(s, n, 3, 2)
}

fn answer_of(s: &mut [i64], n: usize, tol: u64) -> Answer
    requires { Roomy s.old n × (0 < n) × (tol ≤ 65535) }
    ensures value { result ≡ answer_at (take (3 * n) s.old) n tol (hough_peak (take (3 * n) s.old) n tol) }
    ensures with_sums { WithSums s.old s.new n tol }
{
    let e = 3 * n;
    put_sums(s, n, tol);
    let peak = panako_hough_peak(s, n, tol);
    Answer {
        peak,
        offset: panako_peak_offset(&s[..e], n, tol, peak.at),
        prominence: panako_prominence(s, n, tol, peak),
    }
}

// Whether the first n bins of s are taken, and there is room for a sum behind each.
fn hough_ok(s: &[i64], n: usize, tol: u64) -> bool
    ensures { result ≡ hough_ok s.now n tol }
{
    (n <= s.len() / 4) && (0 < n) && (tol <= 65535) && bins_ok(&s[..3 * n], n)
}

// The peak, its offset and its prominence, for any arguments: of n bins, whose sums are put behind
// them. None where they are refused, and then the words stay as they are.
pub fn checked_hough(s: &mut [i64], n: usize, tol: u64) -> Option<Answer>
    ensures value { result ≡ checked_answer s.old n tol }
    ensures left_after { LeftAfter result s.old s.new n tol }
{
    if hough_ok(s, n, tol) {
        return Some(answer_of(s, n, tol));
    }
    None
}
