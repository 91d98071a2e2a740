// The C interface of the library, as C calls it: each function is the one of crate `capi` that has its name, and each call of an index the one of its
// name's end at that index. Floats pass as their bit patterns, a NaN's being 7FC00000 or 7FF8000000000000 (hexadecimal) where it is a result; a slice
// passes as a pointer and a length.
#![tactic(auto)]

mod index;
mod leaves;

ghost use Rattle.std.specs.Prelude.{◌≡◌, [], ◌∷◌, pos, to_bits};
ghost use Rattle.std.specs.Float.{binary32, binary64};
ghost use Rattle.std.specs.Float.Ieee.{of_int};
ghost use Rattle.floats.specs.Rounding.{round_to_i64};
ghost use Rattle.floats.specs.Selection.{abs, maximum, clamp};
ghost use Rattle.matching.specs.Offsets.{millis, try_from_frames};
ghost use Rattle.matching.specs.Rates.{rates_agree};
ghost use Rattle.matching.specs.Scores.{clamp_score, below_threshold, score_of};
ghost use Rattle.capi.specs.Codes.{single, double, flag, narrow_code, prominence_code, compare_code, time_scale_code, tried_words, no_match_words};

#[unsafe(no_mangle)]
pub extern "C" fn floats_u64_to_f32(n: u64) -> u32
    ensures { result ≡ to_bits binary32 (of_int binary32 (pos n)) }
{
    capi::floats_u64_to_f32(n)
}

// A NaN's pattern for an x outside 0.5 .. 2.
#[unsafe(no_mangle)]
pub extern "C" fn floats_f64_to_f32(x: u64) -> u32
    ensures { result ≡ narrow_code (double x) }
{
    capi::floats_f64_to_f32(x)
}

#[unsafe(no_mangle)]
pub extern "C" fn floats_round_to_i64(x: u64) -> i64
    ensures { result ≡ round_to_i64 (double x) }
{
    capi::floats_round_to_i64(x)
}

#[unsafe(no_mangle)]
pub extern "C" fn floats_max_f32(a: u32, b: u32) -> u32
    ensures { result ≡ to_bits binary32 (maximum (single a) (single b)) }
{
    capi::floats_max_f32(a, b)
}

#[unsafe(no_mangle)]
pub extern "C" fn floats_abs_f32(x: u32) -> u32
    ensures { result ≡ to_bits binary32 (abs (single x)) }
{
    capi::floats_abs_f32(x)
}

#[unsafe(no_mangle)]
pub extern "C" fn floats_abs_f64(x: u64) -> u64
    ensures { result ≡ to_bits binary64 (abs (double x)) }
{
    capi::floats_abs_f64(x)
}

#[unsafe(no_mangle)]
pub extern "C" fn floats_clamp_f32(x: u32, lo: u32, hi: u32) -> u32
    ensures { result ≡ to_bits binary32 (clamp (single lo) (single hi) (single x)) }
{
    capi::floats_clamp_f32(x, lo, hi)
}

#[unsafe(no_mangle)]
pub extern "C" fn floats_clamp_f64(x: u64, lo: u64, hi: u64) -> u64
    ensures { result ≡ to_bits binary64 (clamp (double lo) (double hi) (double x)) }
{
    capi::floats_clamp_f64(x, lo, hi)
}

// The frames, then the milliseconds.
#[unsafe(no_mangle)]
pub extern "C" fn matching_from_frames(frames: i64, rate: u32, answer: &mut [i64; 2])
    ensures { answer.new ≡ frames ∷ millis frames (single rate) ∷ [] }
{
    capi::matching_from_frames(frames, rate, answer);
}

// 1, the frames, the milliseconds; zeros where there is no such time.
#[unsafe(no_mangle)]
pub extern "C" fn matching_try_from_frames(frames: i64, rate: u32, answer: &mut [i64; 3])
    ensures { answer.new ≡ tried_words (try_from_frames frames (single rate)) }
{
    capi::matching_try_from_frames(frames, rate, answer);
}

#[unsafe(no_mangle)]
pub extern "C" fn matching_frames_per_sec_compatible(a: u32, b: u32) -> u32
    ensures { result ≡ flag (rates_agree (single a) (single b)) }
{
    capi::matching_frames_per_sec_compatible(a, b)
}

#[unsafe(no_mangle)]
pub extern "C" fn matching_clamp_score(s: u32) -> u32
    ensures { result ≡ to_bits binary32 (clamp_score (single s)) }
{
    capi::matching_clamp_score(s)
}

#[unsafe(no_mangle)]
pub extern "C" fn matching_below_threshold(value: u32, threshold: u32) -> u32
    ensures { result ≡ flag (below_threshold (single value) (single threshold)) }
{
    capi::matching_below_threshold(value, threshold)
}

// 0 less, 1 equal, 2 greater.
#[unsafe(no_mangle)]
pub extern "C" fn matching_match_result_compare_desc(
    a_score: u32,
    a_prominence: u32,
    b_score: u32,
    b_prominence: u32,
) -> u32
    ensures { result ≡ compare_code (single a_score) (single a_prominence) (single b_score) (single b_prominence) }
{
    capi::matching_match_result_compare_desc(a_score, a_prominence, b_score, b_prominence)
}

// A NaN's pattern for a peak above the total.
#[unsafe(no_mangle)]
pub extern "C" fn matching_wang_prominence(peak: u64, total: u64, width: u64) -> u32
    ensures { result ≡ prominence_code peak total width }
{
    capi::matching_wang_prominence(peak, total, width)
}

#[unsafe(no_mangle)]
pub extern "C" fn matching_score(n: u64, hashes: u64) -> u32
    ensures { result ≡ to_bits binary32 (score_of n hashes) }
{
    capi::matching_score(n, hashes)
}

// The time scale of a peak in a scale bin.
#[unsafe(no_mangle)]
pub extern "C" fn matching_time_scale(
    scale_min: u32,
    scale_max: u32,
    scale_bins: u32,
    bin: u32,
) -> u32
    ensures { result ≡ time_scale_code (single scale_min) (single scale_max) scale_bins bin }
{
    capi::matching_time_scale(scale_min, scale_max, scale_bins, bin)
}

// `MatchResult::NONE`: match or not, votes, score, prominence, frames, milliseconds, time scale, 0.
#[unsafe(no_mangle)]
pub extern "C" fn matching_none(answer: &mut [u64; 8])
    ensures { answer.new ≡ no_match_words }
{
    capi::matching_none(answer);
}
