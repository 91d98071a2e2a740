// The C interface of the library, which crate `capi_c` exports. Floats pass as their bit patterns, a NaN's being
// 7FC00000 or 7FF8000000000000 (hexadecimal) where it is a result; to C a slice passes as a pointer and a length.
#![tactic(auto)]

pub mod index;
pub mod leaves;

ghost use Rattle.std.specs.Prelude.{◌≡◌, [], ◌∷◌, pos, to_bits};
ghost use Rattle.std.specs.Float.{binary32, binary64};
ghost use Rattle.std.specs.Float.Ieee.{of_bits, of_int};
ghost use Rattle.floats.specs.Rounding.{round_to_i64};
ghost use Rattle.floats.specs.Selection.{abs, maximum, clamp};
ghost use Rattle.matching.specs.Offsets.{millis, try_from_frames};
ghost use Rattle.matching.specs.Rates.{rates_agree};
ghost use Rattle.matching.specs.Scores.{clamp_score, below_threshold, score_of};
ghost use Rattle.capi.specs.Codes.{single, double, flag, order_code, narrow_code, prominence_code, compare_code, time_scale_code, twos_complement, tried_words, no_match_words};

use matching::{MatchResult, TimeOffset};
use std::cmp::Ordering;

// 1 or 0.
fn flag_of(b: bool) -> u32
    ensures { result ≡ flag b }
{
    u32::from(b)
}

// A signed number as a word, in two's complement.
fn word_of(x: i64) -> u64
    ensures { result ≡ twos_complement x }
{
    x.cast_unsigned()
}

pub fn floats_u64_to_f32(n: u64) -> u32
    ensures { result ≡ to_bits binary32 (of_int binary32 (pos n)) }
{
    f32::to_bits(floats::u64_to_f32(n))
}

// A NaN's pattern for an x outside 0.5 .. 2.
pub fn floats_f64_to_f32(x: u64) -> u32
    ensures { result ≡ narrow_code (double x) }
{
    let v = floats::f64_from_bits(x);
    if v >= 0.5 && v <= 2.0 {
        floats::f32_to_bits(floats::f64_to_f32(v))
    } else {
        floats::NAN_BITS
    }
}

pub fn floats_round_to_i64(x: u64) -> i64
    ensures { result ≡ round_to_i64 (double x) }
{
    floats::round_to_i64(floats::f64_from_bits(x))
}

pub fn floats_max_f32(a: u32, b: u32) -> u32
    ensures { result ≡ to_bits binary32 (maximum (single a) (single b)) }
{
    floats::f32_to_bits(floats::max_f32(floats::f32_from_bits(a), floats::f32_from_bits(b)))
}

pub fn floats_abs_f32(x: u32) -> u32
    ensures { result ≡ to_bits binary32 (abs (single x)) }
{
    floats::f32_to_bits(floats::abs_f32(floats::f32_from_bits(x)))
}

pub fn floats_abs_f64(x: u64) -> u64
    ensures { result ≡ to_bits binary64 (abs (double x)) }
{
    floats::f64_to_bits(floats::abs_f64(floats::f64_from_bits(x)))
}

pub fn floats_clamp_f32(x: u32, lo: u32, hi: u32) -> u32
    ensures { result ≡ to_bits binary32 (clamp (single lo) (single hi) (single x)) }
{
    let l = floats::f32_from_bits(lo);
    let h = floats::f32_from_bits(hi);
    floats::f32_to_bits(floats::clamp_f32(floats::f32_from_bits(x), l, h))
}

pub fn floats_clamp_f64(x: u64, lo: u64, hi: u64) -> u64
    ensures { result ≡ to_bits binary64 (clamp (double lo) (double hi) (double x)) }
{
    let l = floats::f64_from_bits(lo);
    let h = floats::f64_from_bits(hi);
    floats::f64_to_bits(floats::clamp_f64(floats::f64_from_bits(x), l, h))
}

// The frames, then the milliseconds.
pub fn matching_from_frames(frames: i64, rate: u32, answer: &mut [i64; 2])
    ensures { answer.new ≡ frames ∷ millis frames (single rate) ∷ [] }
{
    let t = TimeOffset::from_frames(frames, floats::f32_from_bits(rate));
    *answer = [frames, t.ms];
}

// 1, the frames, the milliseconds; zeros where there is no such time.
pub fn matching_try_from_frames(frames: i64, rate: u32, answer: &mut [i64; 3])
    ensures { answer.new ≡ tried_words (try_from_frames frames (single rate)) }
{
    *answer = match TimeOffset::try_from_frames(frames, floats::f32_from_bits(rate)) {
        Some(t) => [1, t.frames, t.ms],
        None => [0, 0, 0],
    };
}

pub fn matching_frames_per_sec_compatible(a: u32, b: u32) -> u32
    ensures { result ≡ flag (rates_agree (single a) (single b)) }
{
    flag_of(matching::frames_per_sec_compatible(floats::f32_from_bits(a), floats::f32_from_bits(b)))
}

pub fn matching_clamp_score(s: u32) -> u32
    ensures { result ≡ to_bits binary32 (clamp_score (single s)) }
{
    floats::f32_to_bits(matching::clamp_score(floats::f32_from_bits(s)))
}

pub fn matching_below_threshold(value: u32, threshold: u32) -> u32
    ensures { result ≡ flag (below_threshold (single value) (single threshold)) }
{
    flag_of(matching::below_threshold(
        floats::f32_from_bits(value),
        floats::f32_from_bits(threshold),
    ))
}

// A result with this score and prominence, and nothing else.
fn scored(score: u32, prominence: u32) -> MatchResult
    ensures { (result.score ≡ single score) × (result.prominence ≡ single prominence) }
{
    MatchResult {
        is_match: false,
        score: floats::f32_from_bits(score),
        votes: 0,
        prominence: floats::f32_from_bits(prominence),
        offset: TimeOffset::ZERO,
        time_scale: 1.0,
    }
}

fn order_code(o: Ordering) -> u32
    ensures { result ≡ order_code o }
{
    match o {
        Ordering::Less => 0,
        Ordering::Equal => 1,
        Ordering::Greater => 2,
    }
}

// 0 less, 1 equal, 2 greater.
pub fn matching_match_result_compare_desc(
    a_score: u32,
    a_prominence: u32,
    b_score: u32,
    b_prominence: u32,
) -> u32
    ensures { result ≡ compare_code (single a_score) (single a_prominence) (single b_score) (single b_prominence) }
{
    let a = scored(a_score, a_prominence);
    let b = scored(b_score, b_prominence);
    order_code(matching::match_result_compare_desc(a, b))
}

// A NaN's pattern for a peak above the total.
pub fn matching_wang_prominence(peak: u64, total: u64, width: u64) -> u32
    ensures { result ≡ prominence_code peak total width }
{
    if peak <= total {
        floats::f32_to_bits(matching::wang_prominence(peak, total, width))
    } else {
        floats::NAN_BITS
    }
}

pub fn matching_score(n: u64, hashes: u64) -> u32
    ensures { result ≡ to_bits binary32 (score_of n hashes) }
{
    floats::f32_to_bits(matching::score(n, hashes))
}

// The time scale of a peak in a scale bin.
pub fn matching_time_scale(scale_min: u32, scale_max: u32, scale_bins: u32, bin: u32) -> u32
    ensures { result ≡ time_scale_code (single scale_min) (single scale_max) scale_bins bin }
{
    let min = std::num::f32_to_f64_with_nan(floats::f32_from_bits(scale_min));
    let max = std::num::f32_to_f64_with_nan(floats::f32_from_bits(scale_max));
    let per = matching::scale_per_bin(min, max, scale_bins);
    floats::f32_to_bits(matching::time_scale(matching::scale_centre(min, per, bin)))
}

// `MatchResult::NONE`: match or not, votes, score, prominence, frames, milliseconds, time scale, 0.
pub fn matching_none(answer: &mut [u64; 8])
    ensures { answer.new ≡ no_match_words }
{
    let m = matching::no_match();
    *answer = [
        u64::from(m.is_match),
        u64::from(m.votes),
        u64::from(floats::f32_to_bits(m.score)),
        u64::from(floats::f32_to_bits(m.prominence)),
        word_of(m.offset.frames),
        word_of(m.offset.ms),
        u64::from(floats::f32_to_bits(m.time_scale)),
        0,
    ];
}
