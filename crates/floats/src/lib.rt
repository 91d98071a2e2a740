// The float operations of Rust's core that the C interface names, and faster ones for the votes of the
// indexes. Each contract is an equation with a term of `lib.Ieee` or with a definition of `specs/`.
#![tactic(auto)]

ghost use Rattle.std.specs.Prelude.{◌≡◌, ◌^◌, ◌<◌, ◌≤◌, true, false, T, pos, negsuc, if◌then◌else◌};
ghost use Rattle.std.specs.Float.Ieee as Ieee;
ghost use Rattle.std.specs.Float.{fin, binary32, binary64};
ghost use Rattle.std.specs.Float.Ieee.Nearest.{closest};
ghost use Rattle.std.specs.Float.Ieee.Positive.{positive, num, den};
ghost use Rattle.floats.specs.Rounding as Rounding;
ghost use Rattle.floats.specs.Selection as Selection;

// n / 2^cut to the nearest whole number, ties to even. The remainder that is cut off says which way:
// one less than half a unit, and one more where the part kept is odd, carry over just where it rounds up.
fn nearest_part(n: u64, cut: u32) -> u64
    requires { (0 < cut) × (cut ≤ 40) }
    ensures { result ≡ closest n (2 ^ cut) }
{
    let unit: u64 = 1 << cut;
    let kept: u64 = n >> cut;
    let rest: u64 = n & (unit - 1);
    kept + ((rest + (unit / 2 - 1) + kept % 2) >> cut)
}

// Rust's `n as f32`: the nearest `f32`, ties to even. The count of leading zeros finds the exponent,
// and says how many of n's digits an `f32` has no room for. Those are cut off. The others, the leading
// one among them, are added to the exponent's field; where they round up to 2^24 they carry into it.
// The library's `nearest_u64_to_f32` takes three times as long on a number below 2^24, as counts of votes are.
pub fn u64_to_f32(n: u64) -> f32
    ensures { result ≡ Ieee.of_int binary32 (pos n) }
{
    let zeros = n.leading_zeros();
    if zeros >= 40 {
        return (n as u32) as f32;
    }
    let cut: u32 = 40 - zeros;
    let digits: u64 = nearest_part(n, cut);
    f32::from_bits((cut + 149) * 0x80_0000 + (digits as u32))
}

// x to the nearest whole number, halves up. Doubling is exact, and the whole part of 2x says both
// the whole part of x and whether a half is left.
fn half_up(x: f64) -> u64
    requires fact_1 { T (positive x) }
    requires fact_2 { T (Ieee.lt x (fin false 1 (pos 63))) }
    ensures { result ≡ Rounding.half_up (num x) (den x) }
{
    let twice: u64 = std::num::truncating_f64_to_u64(x * 2.0);
    twice / 2 + twice % 2
}

// Rust's `x.round() as i64`: halves away from zero, held to the range, 0 for a NaN. The library's `round` and
// saturating cast take half as long again, and `from_frames` has a bound on its time.
pub fn round_to_i64(x: f64) -> i64
    ensures { result ≡ Rounding.round_to_i64 x }
{
    if x >= 9223372036854775808.0 {
        return i64::MAX;
    }
    if x <= -9223372036854775808.0 {
        return i64::MIN;
    }
    if x > 0.0 {
        return half_up(x) as i64;
    }
    if x < 0.0 {
        return -(half_up(-x) as i64);
    }
    0
}

// The whole number that is nearest to some x, as a number and as a float.
#[derive(Clone, Copy)]
pub struct Nearest {
    pub n: u64,
    pub float: f64,
}

// The whole number that is nearest to x in 0 .. 2^51, ties to even. From 2^52 to 2^53 the values of
// an f64 are the whole numbers, so the sum with 2^52 has none of x's fraction left, and its lowest
// 52 digits are the number.
fn nearest_whole(x: f64) -> Nearest
    requires fact_1 { T (Ieee.le (fin false 0 (pos 0)) x) }
    requires fact_2 { T (Ieee.lt x (fin false 1 (pos 51))) }
    ensures n_value { result.n ≡ closest (num x) (den x) }
    ensures float_value { result.float ≡ Ieee.of_int binary64 (pos (closest (num x) (den x))) }
{
    let sum: f64 = x + 4503599627370496.0;
    Nearest {
        n: sum.to_bits() % 0x10_0000_0000_0000,
        float: sum - 4503599627370496.0,
    }
}

// Rust's `x as u64` for x in 0 .. 2^51, with no branch.
pub fn small_whole_part(x: f64) -> u64
    requires fact_1 { T (Ieee.le (fin false 0 (pos 0)) x) }
    requires fact_2 { T (Ieee.lt x (fin false 1 (pos 51))) }
    ensures { result ≡ Ieee.to_unsigned 64 x }
{
    let near = nearest_whole(x);
    near.n - u64::from(x < near.float)
}

// x in 0 .. 2^51 to the nearest whole number, halves up, with no branch.
fn small_half_up(x: f64) -> u64
    requires fact_1 { T (Ieee.le (fin false 0 (pos 0)) x) }
    requires fact_2 { T (Ieee.lt x (fin false 1 (pos 51))) }
    ensures { result ≡ Rounding.half_up (num x) (den x) }
{
    let near = nearest_whole(x);
    near.n + u64::from(x >= near.float + 0.5)
}

// x with its sign cleared; a zero keeps its own, where the library's `abs` has one more test for it.
fn magnitude(x: f64) -> f64
    ensures { result ≡ (if Ieee.lt x (fin false 0 (pos 0)) then Ieee.neg x else x) }
{
    if x < 0.0 { -x } else { x }
}

// Rust's `x.round() as i64` for x in -2^51 .. 2^51: halves away from zero.
pub fn round_small_to_i64(x: f64) -> i64
    requires fact_1 { T (Ieee.lt (fin true 1 (pos 51)) x) }
    requires fact_2 { T (Ieee.lt x (fin false 1 (pos 51))) }
    ensures { result ≡ Rounding.round_to_i64 x }
{
    let n = small_half_up(magnitude(x)) as i64;
    if x < 0.0 { -n } else { n }
}

// Rust's `x as f32`: the nearest `f32`, ties to even.
pub fn f64_to_f32(x: f64) -> f32
    ensures { result ≡ Rounding.narrow x }
{
    std::num::nearest_f64_to_f32_with_nan(x)
}

// Rust's `a.max(b)`: a NaN gives way to the other, and of two that are equal it is a. The library's `max` may give either,
// which is told apart where they are 0 and -0.
pub fn max_f32(a: f32, b: f32) -> f32
    ensures { result ≡ Selection.maximum a b }
{
    if a.is_nan() {
        return b;
    }
    if a < b { b } else { a }
}

// Rust's `x.abs()`.
pub fn abs_f32(x: f32) -> f32
    ensures { result ≡ Selection.abs x }
{
    x.abs()
}

// The same of an `f64`.
pub fn abs_f64(x: f64) -> f64
    ensures { result ≡ Selection.abs x }
{
    x.abs()
}

// Rust's `x.clamp(lo, hi)`, but of any two ends, as the C interface hands them over: the library's asks for lo at most hi.
// A NaN stays.
pub fn clamp_f32(x: f32, lo: f32, hi: f32) -> f32
    ensures { result ≡ Selection.clamp lo hi x }
{
    if x < lo {
        return lo;
    }
    if x > hi { hi } else { x }
}

// The same of an `f64`.
pub fn clamp_f64(x: f64, lo: f64, hi: f64) -> f64
    ensures { result ≡ Selection.clamp lo hi x }
{
    if x < lo {
        return lo;
    }
    if x > hi { hi } else { x }
}

// The float of a bit pattern, every NaN's pattern included.
pub fn f32_from_bits(word: u32) -> f32
    ensures { result ≡ Ieee.of_bits binary32 word }
{
    std::num::f32_from_bits_with_nan(word)
}

// The same of an `f64`.
pub fn f64_from_bits(word: u64) -> f64
    ensures { result ≡ Ieee.of_bits binary64 word }
{
    std::num::f64_from_bits_with_nan(word)
}

// The one bit pattern that is written for a NaN.
pub const NAN_BITS: u32 = 0x7FC0_0000;

// The bit pattern of a float: `NAN_BITS` of a NaN.
pub fn f32_to_bits(x: f32) -> u32
    ensures { result ≡ Ieee.to_bits binary32 x }
{
    std::num::f32_to_bits_with_nan(x)
}

// The same of an `f64`: of a NaN 7FF8000000000000, hexadecimal.
pub fn f64_to_bits(x: f64) -> u64
    ensures { result ≡ Ieee.to_bits binary64 x }
{
    std::num::f64_to_bits_with_nan(x)
}
