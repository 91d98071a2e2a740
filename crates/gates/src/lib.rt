// The gates of a candidate, of Wang and of Panako alike, and the result of one that passes them: what stands in line in both queries of the
// reference.
#![tactic(auto)]

ghost use Rattle.std.specs.Prelude.{◌≡◌, ◌<◌, ◌^◌};
ghost use Rattle.gates.specs.Gates.{admits, result_at};
ghost use Rattle.gates.specs.Weighing.{Weighs};

use matching::{MatchResult, TimeOffset};

// What a query asks of every candidate: its own rate and its thresholds.
#[derive(Clone, Copy)]
pub struct Thresholds {
    pub rate: f32,
    pub min_votes: u32,
    pub min_score: f32,
    pub min_prominence: f32,
}

// What gates 3 and 4 look at.
#[derive(Clone, Copy)]
pub struct AtPeak {
    pub votes: u64,
    pub prominence: f32,
    pub score: f32,
}

// Steps 1 and 2: whether a candidate's rate agrees with the query's, and whether its votes are enough.
pub fn admitted(k: Thresholds, fps: f32, votes: usize) -> bool
    ensures { result ≡ admits k.rate fps k.min_votes votes }
{
    matching::frames_per_sec_compatible(k.rate, fps) & (u64::from(k.min_votes) <= votes as u64)
}

// Steps 3 and 4, of a candidate with so many votes at its peak. Its prominence, its score and its result are worked out only where they are
// asked for.
pub fn weigh<P, S, R>(
    k: Thresholds,
    votes: u64,
    prominence: P,
    score: S,
    passed: R,
) -> Option<MatchResult>
where
    P: FnOnce() -> f32,
    S: FnOnce() -> f32,
    R: FnOnce(AtPeak) -> MatchResult,
    requires prominence_there { P.pre prominence }
    requires score_there { S.pre score }
    requires passed_there { (p : AtPeak) → p.votes ≡ votes → P.post prominence p.prominence → S.post score p.score → R.pre passed p }
    ensures { Weighs k votes (P.post prominence) (S.post score) (R.post passed) result }
{
    if votes < u64::from(k.min_votes) {
        return None;
    }
    let prominence = prominence();
    if matching::below_threshold(prominence, k.min_prominence) {
        return None;
    }
    let score = score();
    if matching::below_threshold(score, k.min_score) {
        return None;
    }
    Some(passed(AtPeak {
        votes,
        prominence,
        score,
    }))
}

// The result of a candidate at its peak.
#[tactic(auto, unfolding(crate::specs::Gates::result_at))]
pub fn result(p: AtPeak, frames: i64, fps: f32, time_scale: f32) -> MatchResult
    requires { p.votes < 2 ^ 32 }
    ensures { result ≡ result_at p frames fps time_scale }
{
    let offset = TimeOffset::from_frames(frames, fps);
    MatchResult {
        is_match: true,
        score: p.score,
        votes: p.votes as u32,
        prominence: p.prominence,
        offset,
        time_scale,
    }
}
