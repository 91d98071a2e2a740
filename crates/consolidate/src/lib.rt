// `matching/consolidate.rs` of the reference, in one dimension: the mode of offsets with counts, and
// the box sweep over a Wang candidate's bins. A bin is two words of a slice: its offset, its count.
#![tactic(auto)]

ghost use Rattle.std.specs.Prelude.{◌≡◌, ◌||◌, ℕ, ◌+◌, ◌-◌, ◌*◌, ◌<◌, ◌≤◌, ◌^◌, length, get_or, ℤ, pos, nat_abs, ◌+ℤ◌, leb};
ghost use Rattle.std.specs.Int.Signed.{lt_z};
ghost use Rattle.maps.specs.Bins.{offset, votes, place};
ghost use Rattle.maps.specs.Sums.{sum_to};
ghost use Rattle.lists.specs.Every.{every};
ghost use Rattle.consolidate.specs.Modes.{ceil, nearest_mean};
ghost use Rattle.consolidate.specs.Box.{mode_between, mode_near, peak_over, box_peak};
ghost use Rattle.consolidate.specs.Limits.{Bins, bin_ok, bins_ok, Span, ends_ok, in_span, span_ok, checked_mode, checked_peak};
ghost use Rattle.consolidate.specs.Windows.{window_sum, Passed, Slides, Covers};
ghost use Rattle.consolidate.specs.Tallies.{tally_of, no_tally, mode_of};
ghost use Rattle.consolidate.specs.Sweeping.{Placed, Next, better_of, Swept};

// The greatest sum, the centre of its first run, the mode near that run, and the sum over all centres.
#[derive(Clone, Copy)]
pub struct Peak {
    pub votes: u64,
    pub centre: i64,
    pub mode: i64,
    pub total: u64,
}

// ---- the mode

// The greatest count so far, how many offsets have it, and the sum of these.
#[derive(Clone, Copy)]
pub struct Tally {
    pub best: u64,
    pub count: u64,
    pub sum: i64,
}

impl Tally {
    // No offset yet.
    pub fn none() -> Tally
        ensures { result ≡ no_tally }
    {
        Tally {
            best: 0,
            count: 0,
            sum: 0,
        }
    }

    // One offset more, with its count.
    pub fn with(self, v: u64, d: i64) -> Tally
        requires { (self.count ≤ 2 ^ 32) × (nat_abs self.sum ≤ 2 ^ 60) × (nat_abs d ≤ 2 ^ 60) }
        ensures { result ≡ tally_of self v d }
    {
        if v == 0 {
            return self;
        }
        if self.best < v {
            return Tally {
                best: v,
                count: 1,
                sum: d,
            };
        }
        if v == self.best {
            return Tally {
                count: self.count + 1,
                sum: self.sum + d,
                ..self
            };
        }
        self
    }

    // The mean of the offsets with the greatest count; none where no count is positive.
    pub fn mode(self) -> Option<i64>
        requires { (nat_abs self.sum ≤ 2 ^ 56) × (self.count ≤ 2 ^ 32) × (0 < self.best → 0 < self.count) }
        ensures { result ≡ mode_of self }
    {
        if self.best == 0 {
            return None;
        }
        Some(nearest_mean(self.sum, self.count))
    }
}

// num / den, rounded up.
fn ceil_div(num: i64, den: u64) -> i64
    requires { (nat_abs num ≤ 2 ^ 60) × (0 < den) × (den ≤ 2 ^ 60) }
    ensures { result ≡ ceil num den }
{
    if num > 0 {
        return (num as u64).div_ceil(den) as i64;
    }
    num / (den as i64)
}

// The whole number nearest sum / m, halves to the lower.
fn nearest_mean(sum: i64, m: u64) -> i64
    requires { (nat_abs sum ≤ 2 ^ 56) × (0 < m) × (m ≤ 2 ^ 32) }
    ensures { result ≡ nearest_mean sum m }
{
    ceil_div(2 * sum - (m as i64), 2 * m)
}

// The mode of the bins from `from` to before `to`; none where no count is positive.
pub fn mode_offset(s: &[i64], n: usize, from: usize, to: usize) -> Option<i64>
    requires { Bins s.now n × (from ≤ to) × (to ≤ n) }
    ensures { result ≡ mode_between s.now n from to }
{
    let mut t = Tally::none();
    for i in from..to {
        t = t.with(s[2 * i + 1] as u64, s[2 * i]);
    }
    t.mode()
}

// ---- a window that slides over bins

// Where a walk over the bins stops, and the sum of the counts passed.
#[derive(Clone, Copy)]
pub struct Pass {
    pub at: usize,
    pub sum: u64,
}

// The bins from `leave` to before `enter`, and the sum of their counts.
#[derive(Clone, Copy)]
pub struct Window {
    pub enter: usize,
    pub leave: usize,
    pub sum: u64,
}

// Bins that ascend by a key, with their counts.
pub trait Ascending: Copy {
    ghost keys: { Self → ℕ → ℕ };

    ghost counts: { Self → ℕ → ℕ };

    ghost number: { Self → ℕ };

    fn len(self) -> usize
        ensures { result ≡ number self };

    fn key(self, i: usize) -> u64
        requires { i < number self }
        ensures { result ≡ keys self i };

    fn votes(self, i: usize) -> u64
        requires { i < number self }
        ensures { result ≡ counts self i };

    ghost ascend: { (b : Self) (i j : ℕ) → i < j → j < number b → keys b i < keys b j };

    ghost few: { (b : Self) → sum_to (counts b) (number b) ≤ 1000000 };
}

// Passes the bins from `from` on whose keys lie below `below`.
pub fn advance<B: Ascending>(b: B, from: usize, below: u64) -> Pass
    requires { from ≤ B.number b }
    ensures { Passed (B.keys b) (B.counts b) (B.number b) from below result.at result.sum }
{
    let n = b.len();
    let mut sum: u64 = 0;
    for i in from..n {
        if b.key(i) >= below {
            return Pass { at: i, sum };
        }
        sum += b.votes(i);
    }
    Pass { at: n, sum }
}

// The window around the key x, from one around a key that is no higher.
pub fn moved<B: Ascending>(b: B, tol: u64, w: Window, x: u64) -> Window
    requires { (tol ≤ 65535) × (x ≤ 2 ^ 55) × Slides (B.keys b) (B.counts b) (B.number b) tol x w }
    ensures { Covers (B.keys b) (B.counts b) (B.number b) tol x result × (result.sum ≤ 1000000) }
{
    let entered = advance(b, w.enter, x + tol + 1);
    let left = advance(b, w.leave, x.saturating_sub(tol));
    Window {
        enter: entered.at,
        leave: left.at,
        sum: w.sum + entered.sum - left.sum,
    }
}

// ---- the sweep; a place is an offset counted from the low end of the span

// The first n bins of s, and the low end.
#[derive(Clone, Copy)]
struct Places<'a> {
    s: &'a [i64],
    n: usize,
    low: i64,
    ghost placed: { Placed s.now low n },
}

impl<'a> Ascending for Places<'a> {
    ghost keys = { λ b. place b.s.now b.low };

    ghost counts = { λ b. votes b.s.now };

    ghost number = { λ b. b.n };

    fn len(self) -> usize {
        self.n
    }

    fn key(self, i: usize) -> u64 {
        let d = self.s[2 * i] - self.low;
        d as u64
    }

    fn votes(self, i: usize) -> u64 {
        self.s[2 * i + 1] as u64
    }

    ghost ascend = { λ b. b.placed.ascend };

    ghost few = { λ b. b.placed.sum };
}

impl<'a> Places<'a> {
    // The place of bin i, or `none` past the last.
    fn place_or(self, i: usize, none: u64) -> u64
        requires { none ≤ 2 ^ 34 }
        ensures { let b = self.entry in ((i < b.n → result ≡ place b.s.now b.low i) × (b.n ≤ i → result ≡ none)) × (result ≤ 2 ^ 34) }
    {
        if i < self.n {
            return self.key(i);
        }
        none
    }
}

// The first run of the greatest sum: from `start` to before `end`.
#[derive(Clone, Copy)]
pub struct Run {
    pub peak: u64,
    pub start: u64,
    pub end: u64,
}

impl Run {
    // The best run, once the centres from `at` to before `next`, all with the sum v, are counted too.
    fn with(self, at: u64, next: u64, v: u64) -> Run
        ensures { result ≡ better_of self at next v }
    {
        if self.peak < v {
            return Run {
                peak: v,
                start: at,
                end: next,
            };
        }
        if (v == self.peak) & (at == self.end) {
            return Run { end: next, ..self };
        }
        self
    }
}

// The sweep before the centre `at`.
#[derive(Clone, Copy)]
pub struct State {
    pub at: u64,
    pub window: Window,
    pub run: Run,
    pub total: u64,
}

// The `width` centres from the low end on, with a tolerance.
#[derive(Clone, Copy)]
struct Sweep<'a> {
    bins: Places<'a>,
    tol: u64,
    width: u64,
    ghost within: { (tol ≤ 65535) × (width ≤ 2 ^ 33) },
}

impl<'a> Sweep<'a> {
    // The next centre at which a bin enters the window or leaves it.
    fn next_event(self, at: u64, w: Window) -> u64
        requires { let b = self.bins in (at < self.width) × Covers (place b.s.now b.low) (votes b.s.now) b.n self.tol at w }
        ensures { let b = self.entry.bins in Next (place b.s.now b.low) b.n self.entry.tol at self.entry.width w.enter w.leave result }
    {
        let enters = self
            .bins
            .place_or(w.enter, self.width + self.tol)
            .saturating_sub(self.tol);
        let leaves = self.bins.place_or(w.leave, self.width) + self.tol + 1;
        enters.min(leaves).min(self.width)
    }

    // One event: from the centre `st.at` to the next whose sum may differ.
    fn step(self, st: State) -> State
        requires { let b = self.bins in (st.at < self.width) × Swept (place b.s.now b.low) (votes b.s.now) b.n self.tol self.width st }
        ensures { let b = self.entry.bins in Swept (place b.s.now b.low) (votes b.s.now) b.n self.entry.tol self.entry.width result × (st.at < result.at) }
    {
        let window = moved(self.bins, self.tol, st.window, st.at);
        let next = self.next_event(st.at, window);
        State {
            at: next,
            window,
            run: st.run.with(st.at, next, window.sum),
            total: st.total + window.sum * (next - st.at),
        }
    }

    // All centres.
    fn sweep(self) -> State
        ensures { let b = self.entry.bins in Swept (place b.s.now b.low) (votes b.s.now) b.n self.entry.tol self.entry.width result × (result.at ≡ self.entry.width) }
    {
        let window = Window {
            enter: 0,
            leave: 0,
            sum: 0,
        };
        let run = Run {
            peak: 0,
            start: 0,
            end: 0,
        };
        let mut st = State {
            at: 0,
            window,
            run,
            total: 0,
        };
        // By events: a step goes from one centre to the next at which the sum may differ.
        while st.at < self.width {
            st = self.step(st);
        }
        st
    }

    // The answer over all centres.
    fn peak(self) -> Peak
        requires { (0 < self.width) × (nat_abs self.bins.low ≤ 2 ^ 33) }
        ensures { let b = self.entry.bins in result ≡ peak_over (window_sum (place b.s.now b.low) (votes b.s.now) b.n self.entry.tol) (mode_near b.s.now b.n self.entry.tol) b.low self.entry.width }
    {
        let bins = self.bins;
        let st = self.sweep();
        let run = st.run;
        let centre = centre_at(bins.low, run.start + (run.end - 1 - run.start) / 2);
        let from = advance(bins, 0, run.start.saturating_sub(self.tol));
        let to = advance(bins, from.at, run.end + self.tol);
        let mode = mode_offset(bins.s, bins.n, from.at, to.at);
        Peak {
            votes: run.peak,
            centre,
            mode: mode.unwrap_or(centre),
            total: st.total,
        }
    }
}

// The centre x places above the low end.
fn centre_at(low: i64, x: u64) -> i64
    requires { (nat_abs low ≤ 2 ^ 34) × (x ≤ 2 ^ 34) }
    ensures { result ≡ low +ℤ pos x }
{
    low + (x as i64)
}

// The peak of the window sums of n bins over the centres from low to high. Only those centres are
// visited at which a bin enters or leaves the window.
pub fn sparse_wang_box_peak(s: &[i64], n: usize, tol: u64, low: i64, high: i64) -> Peak
    requires { Span s.now n tol low high }
    ensures { result ≡ box_peak s.now n tol low high }
{
    if n == 0 {
        return Peak {
            votes: 0,
            centre: low,
            mode: low,
            total: 0,
        };
    }
    let bins = Places { s, n, low };
    let width = high.abs_diff(low) + 1;
    Sweep { bins, tol, width }.peak()
}

// ---- for any arguments

fn bin_ok(s: &[i64], i: usize) -> bool
    requires { 2 * i + 1 < length s.now }
    ensures { result ≡ bin_ok s.now i }
{
    let d = s[2 * i];
    let v = s[2 * i + 1];
    (d.unsigned_abs() <= 8589934592) & ((v >= 0) & (v.unsigned_abs() < 4294967296))
}

fn all_bins_ok(s: &[i64], n: usize) -> bool
    requires { 2 * n ≤ length s.now }
    ensures { result ≡ every n (bin_ok s.now) }
{
    (0..n).all(|i| bin_ok(s, i))
}

// Whether `mode_offset` takes the first n bins of s.
#[tactic(auto, unfolding(crate::specs::Limits::bins_ok))]
pub fn bins_ok(s: &[i64], n: usize) -> bool
    ensures { result ≡ bins_ok s.now n }
{
    (n <= 1000000) && (2 * n <= s.len()) && all_bins_ok(s, n)
}

// Bin i is the last, or lies below the next.
fn rises(s: &[i64], n: usize, i: usize) -> bool
    requires { (i < n) × (2 * n ≤ length s.now) }
    ensures { result ≡ (leb n (i + 1) || lt_z (offset s.now i) (offset s.now (i + 1))) }
{
    let next = i + 1;
    if n <= next {
        return true;
    }
    s[2 * i] < s[2 * next]
}

fn in_span(s: &[i64], n: usize, low: i64, high: i64, i: usize) -> bool
    requires { (i < n) × (2 * n ≤ length s.now) }
    ensures { result ≡ in_span s.now n low high i }
{
    let d = s[2 * i];
    let v = s[2 * i + 1].unsigned_abs();
    (0 < v) & ((low <= d) & ((d <= high) & rises(s, n, i)))
}

fn all_in_span(s: &[i64], n: usize, low: i64, high: i64) -> bool
    requires { 2 * n ≤ length s.now }
    ensures { result ≡ every n (in_span s.now n low high) }
{
    (0..n).all(|i| in_span(s, n, low, high, i))
}

// Whether the magnitudes of n words, those at `field`, `field + stride`, .., add up to at most a million.
pub fn sum_ok(s: &[i64], n: usize, stride: usize, field: usize) -> bool
    requires { (field < stride) × (stride * n ≤ length s.now) }
    ensures { result ≡ leb (sum_to (λ i. nat_abs (get_or s.now (stride * i + field) (pos 0))) n) 1000000 }
{
    let mut sum: u64 = 0;
    for i in 0..n {
        sum += s[stride * i + field].unsigned_abs();
        if sum > 1000000 {
            return false;
        }
    }
    true
}

fn ends_ok(tol: u64, low: i64, high: i64) -> bool
    ensures { result ≡ ends_ok tol low high }
{
    (tol <= 65535) & ((low.unsigned_abs() < 4294967296) & (high.unsigned_abs() < 4294967296))
}

// Whether `sparse_wang_box_peak` takes these arguments.
#[tactic(auto, unfolding(crate::specs::Limits::span_ok, crate::specs::Limits::bins_ok))]
pub fn span_ok(s: &[i64], n: usize, tol: u64, low: i64, high: i64) -> bool
    ensures { result ≡ span_ok s.now n tol low high }
{
    bins_ok(s, n) && ends_ok(tol, low, high) && all_in_span(s, n, low, high) && sum_ok(s, n, 2, 1)
}

// `mode_offset` of the first n bins, for any arguments: none where they are refused.
pub fn checked_mode_offset(s: &[i64], n: usize) -> Option<Option<i64>>
    ensures { result ≡ checked_mode s.now n }
{
    if bins_ok(s, n) {
        return Some(mode_offset(s, n, 0, n));
    }
    None
}

// `sparse_wang_box_peak`, for any arguments: none where they are refused.
pub fn checked_box_peak(s: &[i64], n: usize, tol: u64, low: i64, high: i64) -> Option<Peak>
    ensures { result ≡ checked_peak s.now n tol low high }
{
    if span_ok(s, n, tol, low, high) {
        return Some(sparse_wang_box_peak(s, n, tol, low, high));
    }
    None
}
