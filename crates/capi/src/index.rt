// The calls of an index. The answer's first word is the case, the others its values, unused ones 0. Each contract is one equation: those words, with the
// store and a query's scratch at exit, are what `run` says of the call.
ghost use Rattle.std.specs.Prelude.{◌≡◌, length};
ghost use Rattle.refusals.specs.Numbers.{number_of};
ghost use Rattle.model.specs.Calls.{build, insert, remove, replace, live_count, query, refused};
ghost use Rattle.model.specs.Run.{run};
ghost use Rattle.soundness.specs.Scan.{lent, words};
ghost use Rattle.build.specs.Answers.{building_answer};
ghost use Rattle.insert.specs.Insert.{insertion_answer};
ghost use Rattle.remove.specs.Answers.{count_answer, removal_answer};
ghost use Rattle.query_rank.specs.Answers.{finding_answer};
ghost use Rattle.wang_judge.specs.Scheme.{wang};
ghost use Rattle.panako_judge.specs.Scheme.{panako};
ghost use Rattle.capi.specs.Codes.{single};
ghost use Rattle.capi.specs.Answers.{case_words, best_words, answer_words, in_words, in_words_with, wang_asked, panako_config, panako_asked};

use index_calls::Index;
use panako::PanakoIndex;
use panako_vote::PanakoMatchConfig;
use query_rank::Found;
use refusals::Refusal;
use wang::WangIndex;

// ---- answers as words

fn case_of(case: u64, value: u64) -> [u64; 8]
    ensures { result ≡ case_words case value }
{
    [case, value, 0, 0, 0, 0, 0, 0]
}

fn refusal_words(refusal: Refusal) -> [u64; 8]
    ensures { result ≡ answer_words (refused (number_of refusal)) }
{
    case_of(6, u64::from(refusal.number()))
}

fn building_words(r: Result<(), Refusal>) -> [u64; 8]
    ensures { result ≡ answer_words (building_answer r) }
{
    match r {
        Ok(()) => case_of(0, 0),
        Err(refusal) => refusal_words(refusal),
    }
}

fn insertion_words(r: Result<u32, Refusal>) -> [u64; 8]
    ensures { result ≡ answer_words (insertion_answer r) }
{
    match r {
        Ok(id) => case_of(1, u64::from(id)),
        Err(refusal) => refusal_words(refusal),
    }
}

fn removal_words(r: Result<bool, Refusal>) -> [u64; 8]
    ensures { result ≡ answer_words (removal_answer r) }
{
    match r {
        Ok(was_live) => case_of(2, u64::from(crate::flag_of(was_live))),
        Err(refusal) => refusal_words(refusal),
    }
}

fn count_words(r: Result<u32, Refusal>) -> [u64; 8]
    ensures { result ≡ answer_words (count_answer r) }
{
    match r {
        Ok(n) => case_of(3, u64::from(n)),
        Err(refusal) => refusal_words(refusal),
    }
}

// The result of a recording.
fn best(found: Found) -> [u64; 8]
    ensures { result ≡ best_words found.id found.result }
{
    let m = found.result;
    [
        4,
        u64::from(found.id),
        u64::from(m.votes),
        u64::from(floats::f32_to_bits(m.score)),
        u64::from(floats::f32_to_bits(m.prominence)),
        crate::word_of(m.offset.frames),
        crate::word_of(m.offset.ms),
        u64::from(floats::f32_to_bits(m.time_scale)),
    ]
}

fn finding_words(r: Result<Option<Found>, Refusal>) -> [u64; 8]
    ensures { result ≡ answer_words (finding_answer r) }
{
    match r {
        Ok(Some(found)) => best(found),
        Ok(None) => case_of(5, 0),
        Err(refusal) => refusal_words(refusal),
    }
}

// ---- the calls

pub fn build<I: Index>(
    refs: &mut [u32],
    postings: &mut [u32],
    stopped: &mut [u32],
    hashes: &[u32],
    lengths: &[u32],
    rates: &[u32],
    limit: u32,
    sets: &[u32],
    answer: &mut [u64; 8],
)
    ensures { (answer.new, words refs.new postings.new stopped.new)
        ≡ in_words (run I.scheme (words refs.old postings.old stopped.old)
        (build limit hashes.now lengths.now rates.now sets.now)) }
{
    *answer = building_words(I::build(
        refs, postings, stopped, hashes, lengths, rates, limit, sets,
    ));
}

pub fn insert<I: Index>(
    refs: &mut [u32],
    postings: &mut [u32],
    stopped: &mut [u32],
    hashes: &[u32],
    rate: u32,
    limit: u32,
    set: u32,
    answer: &mut [u64; 8],
)
    ensures { (answer.new, words refs.new postings.new stopped.new)
        ≡ in_words (run I.scheme (words refs.old postings.old stopped.old) (insert limit rate set hashes.now)) }
{
    *answer = insertion_words(I::insert(refs, postings, stopped, hashes, rate, limit, set));
}

pub fn remove<I: Index>(
    refs: &mut [u32],
    postings: &mut [u32],
    stopped: &mut [u32],
    id: u32,
    answer: &mut [u64; 8],
)
    ensures { (answer.new, words refs.new postings.new stopped.new)
        ≡ in_words (run I.scheme (words refs.old postings.old stopped.old) (remove id)) }
{
    *answer = removal_words(I::remove(refs, postings, stopped, id));
}

pub fn replace<I: Index>(
    refs: &mut [u32],
    postings: &mut [u32],
    stopped: &mut [u32],
    id: u32,
    hashes: &[u32],
    rate: u32,
    limit: u32,
    answer: &mut [u64; 8],
)
    ensures { (answer.new, words refs.new postings.new stopped.new)
        ≡ in_words (run I.scheme (words refs.old postings.old stopped.old) (replace id limit rate hashes.now)) }
{
    *answer = insertion_words(I::replace(refs, postings, stopped, id, hashes, rate, limit));
}

pub fn live_count<I: Index>(refs: &[u32], postings: &[u32], stopped: &[u32], answer: &mut [u64; 8])
    ensures { (answer.new, lent refs.entry postings.entry stopped.entry)
        ≡ in_words (run I.scheme (lent refs.entry postings.entry stopped.entry) live_count) }
{
    *answer = count_words(I::live_count(refs, postings, stopped));
}

fn query<I: Index>(
    refs: &[u32],
    postings: &[u32],
    stopped: &[u32],
    scratch: &mut [i64],
    hashes: &[u32],
    rate: u32,
    cfg: I::Config,
    set: u32,
    answer: &mut [u64; 8],
)
    ensures { (answer.new, (lent refs.entry postings.entry stopped.entry, scratch.new))
        ≡ in_words_with scratch.old (run I.scheme (lent refs.entry postings.entry stopped.entry)
        (query (I.asked cfg (single rate) set hashes.now (length scratch.old)))) }
{
    let fps = floats::f32_from_bits(rate);
    *answer = finding_words(I::query(refs, postings, stopped, scratch, hashes, fps, cfg, set));
}

// The settings of a query are other words for each index in the C interface: so it has a function for each.
pub fn wang_index_query(
    refs: &[u32],
    postings: &[u32],
    stopped: &[u32],
    scratch: &mut [i64],
    hashes: &[u32],
    rate: u32,
    tolerance: u32,
    min_votes: u32,
    min_score: u32,
    min_prominence: u32,
    set: u32,
    answer: &mut [u64; 8],
)
    ensures { (answer.new, (lent refs.entry postings.entry stopped.entry, scratch.new))
        ≡ in_words_with scratch.old (run wang (lent refs.entry postings.entry stopped.entry)
        (query (wang_asked hashes.now rate tolerance min_votes min_score min_prominence set (length scratch.old)))) }
{
    let cfg = wang_judge::config_of(tolerance, min_votes, min_score, min_prominence);
    query::<WangIndex>(
        refs, postings, stopped, scratch, hashes, rate, cfg, set, answer,
    );
}

// Settings from words, the floats by their bits.
pub fn panako_config(
    scale_min: u32,
    scale_max: u32,
    scale_bins: u32,
    tolerance: u32,
    min_votes: u32,
    min_score: u32,
    min_prominence: u32,
) -> PanakoMatchConfig
    ensures { result ≡ panako_config scale_min scale_max scale_bins tolerance min_votes min_score min_prominence }
{
    PanakoMatchConfig {
        scale_min: floats::f32_from_bits(scale_min),
        scale_max: floats::f32_from_bits(scale_max),
        scale_bins,
        offset_tolerance_frames: tolerance,
        min_votes,
        min_score: floats::f32_from_bits(min_score),
        min_prominence: floats::f32_from_bits(min_prominence),
    }
}

pub fn panako_index_query(
    refs: &[u32],
    postings: &[u32],
    stopped: &[u32],
    scratch: &mut [i64],
    hashes: &[u32],
    rate: u32,
    scale_min: u32,
    scale_max: u32,
    scale_bins: u32,
    tolerance: u32,
    min_votes: u32,
    min_score: u32,
    min_prominence: u32,
    set: u32,
    answer: &mut [u64; 8],
)
    ensures { (answer.new, (lent refs.entry postings.entry stopped.entry, scratch.new))
        ≡ in_words_with scratch.old (run panako (lent refs.entry postings.entry stopped.entry)
        (query (panako_asked hashes.now rate scale_min scale_max scale_bins
        tolerance min_votes min_score min_prominence set (length scratch.old)))) }
{
    let cfg = panako_config(
        scale_min,
        scale_max,
        scale_bins,
        tolerance,
        min_votes,
        min_score,
        min_prominence,
    );
    query::<PanakoIndex>(
        refs, postings, stopped, scratch, hashes, rate, cfg, set, answer,
    );
}
