// One candidate of a Wang query, judged from its sorted votes: the body of the loop over candidates in
// `WangIndex::query` of the reference.
#![tactic(auto)]

ghost use Rattle.std.specs.Prelude.{◌≡◌, ◌+◌, ◌*◌, ◌≤◌, ◌<◌, ◌^◌, pos, neg_ℤ, nat_abs, ◌+ℤ◌, T, length, drop};
ghost use Rattle.std.specs.Int.Signed.{non_neg};
ghost use Rattle.maps.specs.Words.{SameOutside};
ghost use Rattle.matching.specs.Scores.{score_of};
ghost use Rattle.consolidate.specs.Box.{box_peak};
ghost use Rattle.consolidate.specs.Limits.{Span};
ghost use Rattle.query_rank.specs.Verdicts.{verdict_of};
ghost use Rattle.gates.specs.Gates.{peak_gates, passing};
ghost use Rattle.wang_judge.specs.Judge.{distinct, thresholds_of, at_peak, result_of, judge_by};
ghost use Rattle.wang_judge.specs.Scheme.{config_of};
ghost use Rattle.wang_judge.specs.Candidates.{counts_in, seen_in, Candidate, Counted};

use bins::Form;
use consolidate::Peak;
use gates::Thresholds;
use matching::MatchResult;

// The settings that the index uses.
#[derive(Clone, Copy)]
pub struct WangMatchConfig {
    pub offset_tolerance_frames: u32,
    pub min_votes: u32,
    pub min_score: f32,
    pub min_prominence: f32,
}

// Settings from words, the floats by their bits.
pub fn config_of(
    tolerance: u32,
    min_votes: u32,
    min_score: u32,
    min_prominence: u32,
) -> WangMatchConfig
    ensures { result ≡ config_of tolerance min_votes min_score min_prominence }
{
    WangMatchConfig {
        offset_tolerance_frames: tolerance,
        min_votes,
        min_score: floats::f32_from_bits(min_score),
        min_prominence: floats::f32_from_bits(min_prominence),
    }
}

// What every candidate of a query is judged with: settings, the query's rate, its largest anchor, how many hashes it has.
#[derive(Clone, Copy)]
pub struct WangQuery {
    pub cfg: WangMatchConfig,
    pub frames_per_sec: f32,
    pub q_max: u32,
    pub q_len: usize,
}

impl WangQuery {
    // What it asks at the gates.
    fn thresholds(self) -> Thresholds
        ensures { result ≡ thresholds_of self }
    {
        Thresholds {
            rate: self.frames_per_sec,
            min_votes: self.cfg.min_votes,
            min_score: self.cfg.min_score,
            min_prominence: self.cfg.min_prominence,
        }
    }

    // How far from a centre a vote may lie.
    fn tolerance(self) -> u64
        ensures { result ≡ self.cfg.offset_tolerance_frames }
    {
        u64::from(self.cfg.offset_tolerance_frames)
    }
}

// The sweep over the n bins from word `at` on, from -q_max to r_max.
fn peak_of(s: &[i64], at: usize, n: usize, tol: u64, q_max: u32, r_max: u32) -> Peak
    requires { (at ≤ length s.now) × Span (drop at s.now) n tol (neg_ℤ (pos q_max)) (pos r_max) }
    ensures { result ≡ box_peak (drop at s.now) n tol (neg_ℤ (pos q_max)) (pos r_max) }
{
    let low = -i64::from(q_max);
    consolidate::sparse_wang_box_peak(&s[at..], n, tol, low, i64::from(r_max))
}

// How far c lies above the low end.
fn above_low(c: i64, q_max: u32) -> u64
    requires { nat_abs (c +ℤ pos q_max) ≤ 2 ^ 40 }
    ensures { result ≡ nat_abs (c +ℤ pos q_max) }
{
    (c + i64::from(q_max)).unsigned_abs()
}

// The score at a centre.
fn score_at(votes: &[i64], q: WangQuery, centre: i64) -> f32
    requires { (q.cfg.offset_tolerance_frames ≤ 65535) × (q.q_len ≤ 2048)
        × T (non_neg (centre +ℤ pos q.q_max)) × (nat_abs (centre +ℤ pos q.q_max) ≤ 2 ^ 40) }
    ensures { result ≡ score_of (distinct (counts_in q.q_max votes.now 0 (length votes.now)) q.cfg.offset_tolerance_frames centre q.q_len) q.q_len }
{
    let x = above_low(centre, q.q_max);
    let n = bins::distinct_positions(votes, q.tolerance(), x, q.q_len);
    matching::score(n, q.q_len as u64)
}

// Steps 3 and 4, of a candidate whose n bins stand from word `at` on.
fn weigh(
    s: &[i64],
    a: usize,
    g: usize,
    at: usize,
    n: usize,
    q: WangQuery,
    fps: f32,
    r_max: u32,
) -> Option<MatchResult>
    requires { Counted s.now a g at n q r_max }
    ensures { result ≡ verdict_of (passing (peak_gates (thresholds_of q) (at_peak (seen_in q r_max s.now a g))) (result_of fps (seen_in q r_max s.now a g))) }
{
    let peak = peak_of(s, at, n, q.tolerance(), q.q_max, r_max);
    let votes = &s[a..a + g];
    let width = u64::from(q.q_max) + u64::from(r_max) + 1;
    gates::weigh(
        q.thresholds(),
        peak.votes,
        move || matching::wang_prominence(peak.votes, peak.total, width),
        move || score_at(votes, q, peak.centre),
        move |p| gates::result(p, peak.mode, fps, 1.0),
    )
}

// A candidate: the g votes from word a on, in order, and its row's rate and r_max. Its bins are written from word `at` on.
// a, g and `at` go on to `bins::count_sorted` as they are.
pub fn judge(
    s: &mut [i64],
    a: usize,
    g: usize,
    at: usize,
    q: WangQuery,
    rate: u32,
    r_max: u32,
) -> Option<MatchResult>
    requires { Candidate s.old a g at q r_max }
    ensures { (result ≡ verdict_of (judge_by q rate r_max (counts_in q.q_max s.old a g)))
        × SameOutside s.old s.new at (at + 2 * g) }
{
    let fps = floats::f32_from_bits(rate);
    if !gates::admitted(q.thresholds(), fps, g) {
        return None;
    }
    let form = Form {
        low: 0,
        bits: 11,
        size: 33,
        scaled: false,
    };
    let n = bins::count_sorted(s, a, g, at, form, u64::from(q.q_max));
    weigh(s, a, g, at, n, q, fps, r_max)
}
