// The leaves of the two queries, for comparison with the reference. The answer's first word is the
// case, 0 where the arguments lie beyond the limits; the others are its values, unused ones 0.
ghost use Rattle.std.specs.Prelude.{◌≡◌, ◌+◌, ◌/◌, true, false, length, take, drop};
ghost use Rattle.sorting.specs.Sort.{sort_z};
ghost use Rattle.consolidate.specs.Limits.{checked_mode, checked_peak};
ghost use Rattle.hough.specs.Limits.{checked_answer, LeftAfter};
ghost use Rattle.panako_vote.specs.Settings.{normalised};
ghost use Rattle.panako_vote.specs.Votes.{checked_vote};
ghost use Rattle.capi.specs.Codes.{flag};
ghost use Rattle.capi.specs.Answers.{panako_config};
ghost use Rattle.capi.specs.Leaves.{room_for, mode_words, peak_words, hough_words, vote_words, settings_words};

use panako_vote::Span;

const REFUSED: [u64; 8] = [0; 8];

// Sorts the first n words, with the next n as room, and says 1. Without that room it says 0, and
// nothing is changed. What the room holds afterwards is left open.
pub fn sorting_sort_words(words: &mut [i64], n: usize) -> u32
    ensures value { result ≡ flag (room_for n words.old) }
    ensures sorted { room_for n words.old ≡ true → (take n words.new ≡ sort_z (take n words.old))
        × (drop (n + n) words.new ≡ drop (n + n) words.old) }
    ensures unchanged { room_for n words.old ≡ false → words.new ≡ words.old }
{
    if n > words.len() / 2 {
        return 0;
    }
    sorting::sort_words(words, n);
    1
}

// 1: no count is positive; 2: the mode.
pub fn consolidate_mode_offset(bins: &[i64], answer: &mut [u64; 8])
    ensures { answer.new ≡ mode_words (checked_mode bins.now (length bins.now / 2)) }
{
    *answer = match consolidate::checked_mode_offset(bins, bins.len() / 2) {
        None => REFUSED,
        Some(None) => [1, 0, 0, 0, 0, 0, 0, 0],
        Some(Some(d)) => [2, crate::word_of(d), 0, 0, 0, 0, 0, 0],
    };
}

// 1: peak, centre, mode, total.
pub fn consolidate_sparse_wang_box_peak(
    bins: &[i64],
    tol: u64,
    low: i64,
    high: i64,
    answer: &mut [u64; 8],
)
    ensures { answer.new ≡ peak_words (checked_peak bins.now (length bins.now / 2) tol low high) }
{
    *answer = match consolidate::checked_box_peak(bins, bins.len() / 2, tol, low, high) {
        None => REFUSED,
        Some(p) => {
            let centre = crate::word_of(p.centre);
            let mode = crate::word_of(p.mode);
            [1, p.votes, centre, mode, p.total, 0, 0, 0]
        }
    };
}

// 1: peak, the index of its bin, its offset, its prominence. Of n bins, with the next n words for their
// sums. Where it says 0, the words stay as they are.
pub fn hough_panako_peak(words: &mut [i64], n: usize, tol: u64, answer: &mut [u64; 8])
    ensures answer_after { answer.new ≡ hough_words (checked_answer words.old n tol) }
    ensures left_after { LeftAfter (checked_answer words.old n tol) words.old words.new n tol }
{
    *answer = match hough::checked_hough(words, n, tol) {
        None => REFUSED,
        Some(a) => {
            let peak = a.peak;
            let at = peak.at as u64;
            let offset = crate::word_of(a.offset);
            let prominence = u64::from(floats::f32_to_bits(a.prominence));
            [1, peak.votes, at, offset, prominence, 0, 0, 0]
        }
    };
}

// Whether the settings that a vote depends on lie within the limits, then the scale ends and bins, all after `normalize_config`.
pub fn panako_normalize_config(
    scale_min: u32,
    scale_max: u32,
    scale_bins: u32,
    tolerance: u32,
    answer: &mut [u64; 8],
)
    ensures { answer.new ≡ settings_words (normalised (panako_config scale_min scale_max scale_bins tolerance 0 0 0)) }
{
    let cfg = crate::index::panako_config(scale_min, scale_max, scale_bins, tolerance, 0, 0, 0);
    let c = panako_vote::normalize_config(cfg);
    *answer = [
        u64::from(panako_vote::within_limits(c)),
        u64::from(floats::f32_to_bits(c.scale_min)),
        u64::from(floats::f32_to_bits(c.scale_max)),
        u64::from(c.scale_bins),
        0,
        0,
        0,
        0,
    ];
}

// 1: no vote; 2: scale bin, offset.
pub fn panako_pair_vote(
    scale_min: u32,
    scale_max: u32,
    scale_bins: u32,
    q_anchor: u32,
    q_end: u32,
    r_anchor: u32,
    r_end: u32,
    answer: &mut [u64; 8],
)
    ensures { answer.new ≡ vote_words (checked_vote (panako_config scale_min scale_max scale_bins 0 0 0 0) q_anchor q_end r_anchor r_end) }
{
    let cfg = crate::index::panako_config(scale_min, scale_max, scale_bins, 0, 0, 0, 0);
    let q = Span {
        anchor: q_anchor,
        end: q_end,
    };
    let r = Span {
        anchor: r_anchor,
        end: r_end,
    };
    *answer = match panako_vote::checked_vote(cfg, q, r) {
        Err(_) => REFUSED,
        Ok(None) => [1, 0, 0, 0, 0, 0, 0, 0],
        Ok(Some(v)) => [2, u64::from(v.bin), crate::word_of(v.offset), 0, 0, 0, 0, 0],
    };
}
