// The settings of a Panako query and the vote of one pair of a query hash and a posting:
// `normalize_config` of the reference's `panako.rs`, refusal 4, and the inner loop of
// `PanakoIndex::query`; and a vote as one word.
#![tactic(auto)]

ghost use Rattle.std.specs.Prelude.{Some, ◌≡◌, ◌+◌, ◌-◌, ◌*◌, ◌^◌, ◌<◌, not, ◌&&◌, length, set, pos, ◌+ℤ◌, ◌-ℤ◌, if◌then◌else◌, ◌==◌, nat_lt, unsigned_abs};
ghost use Rattle.std.specs.Float.Ieee.{lt};
ghost use Rattle.floats.specs.Selection.{zero};
ghost use Rattle.panako_vote.specs.Settings.{ascending, scale_bins, normalised, within_limits, Accepted};
ghost use Rattle.panako_vote.specs.Grids.{bin_at, grid_of, Limited};
ghost use Rattle.panako_vote.specs.Votes.{span, span_ratio, none_if, vote_on, is_vote, InRange, Bounded, checked_vote};
ghost use Rattle.panako_vote.specs.Words.{middle, lowest, word_of};

use refusals::Refusal;

// The settings that the index uses.
#[derive(Clone, Copy)]
pub struct PanakoMatchConfig {
    pub scale_min: f32,
    pub scale_max: f32,
    pub scale_bins: u32,
    pub offset_tolerance_frames: u32,
    pub min_votes: u32,
    pub min_score: f32,
    pub min_prominence: f32,
}

// Scale ends that are finite and ascending.
fn is_ascending(min: f32, max: f32) -> bool
    ensures { result ≡ ascending min max }
{
    min.is_finite() & max.is_finite() & (max > min)
}

// The number of scale bins, 24 where none is given.
fn bins_or_default(bins: u32) -> u32
    ensures { result ≡ scale_bins bins }
{
    if bins == 0 { 24 } else { bins }
}

// Replaces settings that make no scale grid, and refuses none.
pub fn normalize_config(mut cfg: PanakoMatchConfig) -> PanakoMatchConfig
    ensures { result ≡ normalised cfg }
{
    cfg.scale_bins = bins_or_default(cfg.scale_bins);
    if is_ascending(cfg.scale_min, cfg.scale_max) {
        return cfg;
    }
    cfg.scale_min = 0.80;
    cfg.scale_max = 1.25;
    cfg
}

// Whether normalised settings keep to the limits: what refusal 4 tests.
pub fn within_limits(cfg: PanakoMatchConfig) -> bool
    ensures { result ≡ within_limits cfg }
{
    (cfg.scale_min.abs() <= 64.0)
        & (cfg.scale_max.abs() <= 64.0)
        & (cfg.scale_bins <= 4096)
        & (cfg.offset_tolerance_frames <= 65535)
}

// x, and y where x lies above y: one instruction, where `f64::min` also looks for a NaN.
fn at_most(x: f64, y: f64) -> f64
    ensures { result ≡ (if lt y x then y else x) }
{
    if x > y { y } else { x }
}

// x where it lies above 0, and else 0: one instruction too.
fn at_least_zero(x: f64) -> f64
    ensures { result ≡ (if lt zero x then x else zero) }
{
    if x > 0.0 { x } else { 0.0 }
}

// Rust's `x.clamp(0.0, last as f64) as u32`. `f64::clamp` and the library's truncation branch, and every pair of unequal spans comes here.
pub fn scale_bin(x: f64, last: u32) -> u32
    ensures { result ≡ bin_at x last }
{
    floats::small_whole_part(at_least_zero(at_most(x, last as f64))) as u32
}

// The scale grid: what is worked out once for all pairs of a query. That it is `Limited` is no ghost field: a grid is made of any settings.
#[derive(Clone, Copy)]
pub struct ScaleGrid {
    pub scale_min: f64,
    pub scale_per_bin: f64,
    pub low: f64,
    pub high: f64,
    pub last_bin: u32,
    // The scale bin of scale 1, and whether scale 1 votes.
    pub unit_bin: u32,
    pub unit_votes: bool,
}

// The scale grid of these settings. Half a bin beyond each end still votes.
pub fn scale_grid(cfg: PanakoMatchConfig) -> ScaleGrid
    ensures value { result ≡ grid_of cfg }
    ensures limited { Accepted cfg → Limited result }
{
    let scale_min: f64 = std::num::f32_to_f64_with_nan(cfg.scale_min);
    let scale_max: f64 = std::num::f32_to_f64_with_nan(cfg.scale_max);
    let scale_per_bin: f64 = matching::scale_per_bin(scale_min, scale_max, cfg.scale_bins);
    let slack: f64 = scale_per_bin * 0.5;
    let low: f64 = scale_min - slack;
    let high: f64 = scale_max + slack;
    let last_bin = cfg.scale_bins.saturating_sub(1);
    let unit_bin = scale_bin((1.0 - scale_min) / scale_per_bin, last_bin);
    let unit_votes = !((1.0 < low) | (1.0 > high));
    ScaleGrid {
        scale_min,
        scale_per_bin,
        low,
        high,
        last_bin,
        unit_bin,
        unit_votes,
    }
}

// The frames of a query hash or of a posting: its t_anchor and its t_c.
#[derive(Clone, Copy)]
pub struct Span {
    pub anchor: u32,
    pub end: u32,
}

impl Span {
    // How many frames, held at 0 from below.
    fn length(self) -> u32
        ensures { result ≡ span self.anchor self.end }
    {
        self.end.saturating_sub(self.anchor)
    }
}

// The vote of a query hash and a posting under its key: the scale bin, and the offset in frames.
#[derive(Clone, Copy)]
pub struct Vote {
    pub bin: u32,
    pub offset: i64,
}

// The scale of a pair: the reference's span over the query's, and a NaN or an infinity where the query has none.
fn pair_scale(q: Span, r: Span) -> f64
    ensures { result ≡ span_ratio (span r.anchor r.end) (span q.anchor q.end) }
{
    (r.length() as f64) / (q.length() as f64)
}

// Whether the pair votes: all that counting the votes needs.
pub fn has_vote(g: ScaleGrid, q: Span, r: Span) -> bool
    ensures { result ≡ is_vote (vote_on g q.anchor q.end r.anchor r.end) }
{
    let s = pair_scale(q, r);
    let outside = (s < g.low) | (s > g.high);
    (q.anchor < q.end) & (r.anchor < r.end) & !outside
}

// Whether the spans are equal and not empty: then the scale is 1.
fn is_unit(q: Span, r: Span) -> bool
    ensures { result ≡ (span r.anchor r.end == span q.anchor q.end && nat_lt 0 (span q.anchor q.end)) }
{
    let span = q.length();
    (r.length() == span) & (0 < span)
}

// The vote of a pair of scale 1.
fn unit_vote(g: ScaleGrid, q_anchor: u32, r_anchor: u32) -> Option<Vote>
    ensures { result ≡ none_if (not g.unit_votes) (Some (record { bin = g.unit_bin; offset = pos r_anchor -ℤ pos q_anchor })) }
{
    if g.unit_votes {
        let offset = i64::from(r_anchor) - i64::from(q_anchor);
        return Some(Vote {
            bin: g.unit_bin,
            offset,
        });
    }
    None
}

// The vote of the pair. Most pairs have equal spans, and need no float.
pub fn pair_vote(g: ScaleGrid, q: Span, r: Span) -> Option<Vote>
    requires { Limited g }
    ensures value { result ≡ vote_on g q.anchor q.end r.anchor r.end }
    ensures bounded { Bounded g.last_bin result }
{
    if is_unit(q, r) {
        return unit_vote(g, q.anchor, r.anchor);
    }
    if has_vote(g, q, r) {
        let s = pair_scale(q, r);
        let b = (r.anchor as f64) - s * (q.anchor as f64);
        let bin = scale_bin((s - g.scale_min) / g.scale_per_bin, g.last_bin);
        let offset = floats::round_small_to_i64(b);
        return Some(Vote { bin, offset });
    }
    None
}

// The vote of a pair under any settings: normalised first, and refused beyond the limits.
pub fn checked_vote(cfg: PanakoMatchConfig, q: Span, r: Span) -> Result<Option<Vote>, Refusal>
    ensures { result ≡ checked_vote cfg q.anchor q.end r.anchor r.end }
{
    let c = normalize_config(cfg);
    if within_limits(c) {
        Ok(pair_vote(scale_grid(c), q, r))
    } else {
        Err(Refusal::Setting)
    }
}

// ---- a vote as a word

// What a word is less than its number, and what an offset's place is more than the offset.
pub const LOWEST: u64 = 0x8000_0000_0000_0000;

pub const MIDDLE: i64 = 0x80_0000_0000;

// The offset counted from -2^39.
fn place_of(offset: i64) -> u64
    requires { InRange offset }
    ensures { (result ≡ unsigned_abs (offset +ℤ pos middle)) × (result < 2 ^ 40) }
{
    let up = offset + MIDDLE;
    up as u64
}

// 12 bits of id, 12 of scale bin, 40 of place.
fn pack(id: u64, bin: u64, place: u64) -> u64
    requires { (id < 2 ^ 12) × (bin < 2 ^ 12) × (place < 2 ^ 40) }
    ensures { result ≡ id * 2 ^ 52 + (bin * 2 ^ 40 + place) }
{
    (id << 52) + ((bin << 40) + place)
}

// x less 2^63.
fn lowered(x: u64) -> i64
    ensures { result ≡ pos x -ℤ pos lowest }
{
    x.wrapping_sub(LOWEST).cast_signed()
}

// Stores a vote in word i.
pub fn put_vote(s: &mut [i64], i: usize, id: u64, v: Vote)
    requires { (i < length s.old) × (id < 2 ^ 12) × (v.bin < 2 ^ 12) × InRange v.offset }
    ensures { s.new ≡ set s.old i (word_of id v) }
{
    s[i] = lowered(pack(id, u64::from(v.bin), place_of(v.offset)));
}
