// `matching/mod.rs` of the reference: offsets, results, their comparison, the tests of rates and
// thresholds; and the scores that the two indexes work out in line.
#![tactic(auto)]

ghost use Rattle.std.specs.Prelude.{◌≡◌, ◌≤◌, true};
ghost use Rattle.std.specs.Float.Ieee.Positive.{positive};
ghost use Rattle.matching.specs.Offsets.{unrounded, in_i64, from_frames, try_from_frames, zero_offset};
ghost use Rattle.matching.specs.Rates.{rates_agree};
ghost use Rattle.matching.specs.Scores.{clamp_score, below_threshold, wang_prominence, score_of};
ghost use Rattle.matching.specs.Scales.{per_bin, bin_centre, time_scale};
ghost use Rattle.matching.specs.Results.{compare_desc, result_compare, better, no_match};

use std::cmp::Ordering;

// A rate that is finite and above zero.
fn is_rate(x: f32) -> bool
    ensures { result ≡ positive x }
{
    x > 0.0 && x < f32::INFINITY
}

// The milliseconds of so many frames, before they are rounded. `f64::from` would test for a NaN first, which a rate is not.
fn milliseconds(frames: i64, frames_per_sec: f32) -> f64
    requires { positive frames_per_sec ≡ true }
    ensures { result ≡ unrounded frames frames_per_sec }
{
    std::num::nearest_i64_to_f64(frames) * 1000.0 / (frames_per_sec as f64)
}

// Whether the number is among those of an i64. Both ends are floats.
fn is_i64(x: f64) -> bool
    ensures { result ≡ in_i64 x }
{
    (x >= -9223372036854775808.0) & (x < 9223372036854775808.0)
}

// Signed time offset of the query relative to the reference.
#[derive(Clone, Copy)]
pub struct TimeOffset {
    pub frames: i64,
    pub ms: i64,
}

impl TimeOffset {
    pub const ZERO: TimeOffset = TimeOffset { frames: 0, ms: 0 };

    pub fn from_frames(frames: i64, frames_per_sec: f32) -> TimeOffset
        ensures { result ≡ from_frames frames frames_per_sec }
    {
        if is_rate(frames_per_sec) {
            let ms = milliseconds(frames, frames_per_sec);
            return TimeOffset {
                frames,
                ms: floats::round_to_i64(ms),
            };
        }
        TimeOffset { frames, ms: 0 }
    }

    // None where the rate is none, or the milliseconds don't fit in an i64.
    pub fn try_from_frames(frames: i64, frames_per_sec: f32) -> Option<TimeOffset>
        ensures { result ≡ try_from_frames frames frames_per_sec }
    {
        if !is_rate(frames_per_sec) {
            return None;
        }
        let ms = milliseconds(frames, frames_per_sec);
        if !is_i64(ms) {
            return None;
        }
        Some(TimeOffset {
            frames,
            ms: floats::round_to_i64(ms),
        })
    }
}

// Outcome of matching a query against one reference.
#[derive(Clone, Copy)]
pub struct MatchResult {
    pub is_match: bool,
    pub score: f32,
    pub votes: u32,
    pub prominence: f32,
    pub offset: TimeOffset,
    pub time_scale: f32,
}

impl MatchResult {
    pub const NONE: MatchResult = MatchResult {
        is_match: false,
        score: 0.0,
        votes: 0,
        prominence: 0.0,
        offset: TimeOffset::ZERO,
        time_scale: 1.0,
    };
}

// The constant `TimeOffset::ZERO`, by what it holds: a constant itself has no contract.
pub fn zero_offset() -> TimeOffset
    ensures { result ≡ zero_offset }
{
    TimeOffset::ZERO
}

// The constant `MatchResult::NONE`, by what it holds.
pub fn no_match() -> MatchResult
    ensures { result ≡ no_match }
{
    MatchResult::NONE
}

// Whether two rates are finite, positive, and differ by a thousandth of the larger at most.
pub fn frames_per_sec_compatible(a: f32, b: f32) -> bool
    ensures { result ≡ rates_agree a b }
{
    if is_rate(a) && is_rate(b) {
        // `f32::max` doesn't say which of two equal floats it gives.
        let scale = floats::max_f32(a.abs(), b.abs());
        return (a - b).abs() <= 0.001 * scale;
    }
    false
}

// A score held to 0 .. 1, a NaN to 0.
pub fn clamp_score(s: f32) -> f32
    ensures { result ≡ clamp_score s }
{
    if s.is_nan() { 0.0 } else { s.clamp(0.0, 1.0) }
}

// Whether the value is barred: it isn't at least the threshold.
pub fn below_threshold(value: f32, threshold: f32) -> bool
    ensures { result ≡ below_threshold value threshold }
{
    !(value >= threshold)
}

// Descending, a NaN after every number.
pub fn score_compare_desc_rank(a: f32, b: f32) -> Ordering
    ensures { result ≡ compare_desc a b }
{
    match (a.is_nan(), b.is_nan()) {
        (true, true) => Ordering::Equal,
        (true, false) => Ordering::Greater,
        (false, true) => Ordering::Less,
        (false, false) => b.partial_cmp(&a).unwrap_or(Ordering::Equal),
    }
}

// By score, then by prominence, each descending.
pub fn match_result_compare_desc(a: MatchResult, b: MatchResult) -> Ordering
    ensures { result ≡ result_compare a b }
{
    match score_compare_desc_rank(a.score, b.score) {
        Ordering::Equal => score_compare_desc_rank(a.prominence, b.prominence),
        by_score => by_score,
    }
}

// Whether a ranks before b: the test of `track_best`.
pub fn is_better(a: MatchResult, b: MatchResult) -> bool
    ensures { result ≡ better a b }
{
    match_result_compare_desc(a, b).is_lt()
}

// peak / (mean + 1), with the mean of the other centres of the span.
pub fn wang_prominence(peak: u64, total: u64, width: u64) -> f32
    requires { peak ≤ total }
    ensures { result ≡ wang_prominence peak total width }
{
    let rest: f32 = floats::u64_to_f32(total - peak);
    let others: f32 = floats::max_f32(floats::u64_to_f32(width) - 1.0, 1.0);
    floats::u64_to_f32(peak) / (rest / others + 1.0)
}

// n out of so many query hashes.
pub fn score(n: u64, hashes: u64) -> f32
    ensures { result ≡ score_of n hashes }
{
    clamp_score(floats::u64_to_f32(n) / floats::u64_to_f32(hashes.max(1)))
}

// The width of a Panako scale bin.
pub fn scale_per_bin(scale_min: f64, scale_max: f64, scale_bins: u32) -> f64
    ensures { result ≡ per_bin scale_min scale_max scale_bins }
{
    (scale_max - scale_min) / f64::from(scale_bins)
}

// The centre of a Panako scale bin.
pub fn scale_centre(scale_min: f64, per_bin: f64, bin: u32) -> f64
    ensures { result ≡ bin_centre scale_min per_bin bin }
{
    scale_min + (f64::from(bin) + 0.5) * per_bin
}

// The time scale that is reported for a peak at the scale c.
pub fn time_scale(c: f64) -> f32
    ensures { result ≡ time_scale c }
{
    if c.abs() > 0.000001 {
        floats::f64_to_f32((1.0 / c).clamp(0.5, 2.0))
    } else {
        1.0
    }
}
