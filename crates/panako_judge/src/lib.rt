// One candidate of a Panako query, judged from its sorted votes: the body of the loop over candidates in
// `PanakoIndex::query` of the reference.
#![tactic(auto)]

ghost use Rattle.std.specs.Prelude.{IfSome, ◌≡◌, ◌+◌, ◌*◌, ◌≤◌, ◌<◌, ◌^◌, length, take};
ghost use Rattle.maps.specs.Words.{SameOutside};
ghost use Rattle.query_rank.specs.Verdicts.{verdict_of};
ghost use Rattle.gates.specs.Gates.{peak_gates, result_at, passing};
ghost use Rattle.few_bins.specs.Tally.{few_of};
ghost use Rattle.hough.specs.Hough.{scale, peak_offset};
ghost use Rattle.hough.specs.Limits.{Bins, Roomy, Summed};
ghost use Rattle.panako_judge.specs.Judge.{bin_count, seen_of, thresholds_of, at_peak, time_scale_of, result_of, judge_by};
ghost use Rattle.panako_judge.specs.Candidates.{votes_in, Candidate, Binned};

use bins::Form;
use gates::{AtPeak, Thresholds};
use matching::MatchResult;
use panako_vote::{LOWEST, MIDDLE, PanakoMatchConfig};

// How the votes stand in words.
const FORM: Form = Form {
    low: LOWEST,
    bits: 0,
    size: 52,
    scaled: true,
};

// What every candidate of a query is judged with: normalised settings, the query's rate, how many hashes it has.
#[derive(Clone, Copy)]
pub struct PanakoQuery {
    pub cfg: PanakoMatchConfig,
    pub frames_per_sec: f32,
    pub q_len: usize,
}

impl PanakoQuery {
    // What it asks at the gates.
    fn thresholds(self) -> Thresholds
        ensures { result ≡ thresholds_of self }
    {
        Thresholds {
            rate: self.frames_per_sec,
            min_votes: self.cfg.min_votes,
            min_score: self.cfg.min_score,
            min_prominence: self.cfg.min_prominence,
        }
    }

    // How far from a centre a vote may lie.
    fn tolerance(self) -> u64
        ensures { result ≡ self.cfg.offset_tolerance_frames }
    {
        u64::from(self.cfg.offset_tolerance_frames)
    }
}

// ---- the judge

// The time scale of a scale bin.
#[tactic(auto, unfolding(crate::specs::Judge::time_scale_of, panako_vote::specs::Grids::grid_of))]
fn time_scale_of(cfg: PanakoMatchConfig, bin: u64) -> f32
    requires { bin ≤ 4095 }
    ensures { result ≡ time_scale_of cfg bin }
{
    let grid = panako_vote::scale_grid(cfg);
    matching::time_scale(matching::scale_centre(grid.scale_min, grid.scale_per_bin, bin as u32))
}

// The result of n bins whose peak is at bin i.
fn result(s: &[i64], n: usize, i: usize, q: PanakoQuery, p: AtPeak, fps: f32) -> MatchResult
    requires { Bins s.now n × (q.cfg.offset_tolerance_frames ≤ 65535) × (i < n) × (p.votes < 2 ^ 32) }
    ensures { result ≡ result_at p (peak_offset s.now n q.cfg.offset_tolerance_frames i) fps (time_scale_of q.cfg (scale s.now i)) }
{
    let frames = hough::panako_peak_offset(s, n, q.tolerance(), i);
    let scale = time_scale_of(q.cfg, hough::scale_at(s, n, i));
    gates::result(p, frames, fps, scale)
}

// Steps 3 and 4, of n bins with their sums behind them.
fn weigh(s: &[i64], n: usize, q: PanakoQuery, fps: f32) -> Option<MatchResult>
    requires { Roomy s.now n × (0 < n) × (q.cfg.offset_tolerance_frames ≤ 65535) × Summed s.now n q.cfg.offset_tolerance_frames }
    ensures { result ≡ verdict_of (passing (peak_gates (thresholds_of q) (at_peak (seen_of q (take (3 * n) s.now) n))) (result_of q fps (seen_of q (take (3 * n) s.now) n))) }
{
    let tol = q.tolerance();
    let peak = hough::panako_hough_peak(s, n, tol);
    let bins = &s[..3 * n];
    gates::weigh(
        q.thresholds(),
        peak.votes,
        move || hough::panako_prominence(s, n, tol, peak),
        move || matching::score(peak.votes, q.q_len as u64),
        move |p| result(bins, n, peak.at, q, p, fps),
    )
}

// The same of n bins, with the words behind them for their sums.
fn sum_and_weigh(s: &mut [i64], n: usize, q: PanakoQuery, fps: f32) -> Option<MatchResult>
    requires { Roomy s.old n × (0 < n) × (q.cfg.offset_tolerance_frames ≤ 65535) }
    ensures { result ≡ verdict_of (passing (peak_gates (thresholds_of q) (at_peak (seen_of q (take (3 * n) s.old) n))) (result_of q fps (seen_of q (take (3 * n) s.old) n))) }
{
    hough::put_sums(s, n, q.tolerance());
    weigh(s, n, q, fps)
}

// A candidate: the g votes from word a on, in order, and its row's rate. Its bins and their sums are written from word
// `at` on.
// a, g and `at` go on to `bins::count_sorted` as they are.
pub fn judge(
    s: &mut [i64],
    a: usize,
    g: usize,
    at: usize,
    q: PanakoQuery,
    rate: u32,
) -> Option<MatchResult>
    requires { Candidate s.old a g at q }
    ensures { (result ≡ verdict_of (judge_by q rate (votes_in s.old a g)))
        × SameOutside s.old s.new at (at + 4 * g) }
{
    let fps = floats::f32_from_bits(rate);
    if !gates::admitted(q.thresholds(), fps, g) {
        return None;
    }
    let n = bins::count_sorted(s, a, g, at, FORM, MIDDLE as u64);
    sum_and_weigh(&mut s[at..at + 4 * n], n, q, fps)
}

// ---- a candidate with few bins

// The bins of the first g votes, where they are few, are written from word `at` on: no order is asked of the votes. Yields how many bins there are,
// none where they are more.
pub fn count_few(s: &mut [i64], g: usize, at: usize) -> Option<usize>
    requires { (g ≤ at) × (at + 4 * g ≤ length s.old) × (g ≤ 1000000) }
    ensures value { result ≡ few_of (bin_count (votes_in s.old 0 g)) }
    ensures binned { IfSome result (λ n. Binned s.new g at n) }
    ensures s_unchanged { take g s.new ≡ take g s.old }
{
    few_bins::count_few(s, 0, g, at, FORM, MIDDLE as u64)
}

// A candidate: the first g votes, its row's rate, and its n bins from word `at` on. Their sums are written behind them.
pub fn judge_binned(
    s: &mut [i64],
    g: usize,
    at: usize,
    n: usize,
    q: PanakoQuery,
    rate: u32,
) -> Option<MatchResult>
    requires { Binned s.old g at n × (0 < g) × (g ≤ 1000000) × (q.cfg.offset_tolerance_frames ≤ 65535) }
    ensures { result ≡ verdict_of (judge_by q rate (votes_in s.old 0 g)) }
{
    let fps = floats::f32_from_bits(rate);
    if !gates::admitted(q.thresholds(), fps, g) {
        return None;
    }
    sum_and_weigh(&mut s[at..at + 4 * n], n, q, fps)
}
