// The calls of the two indexes. The answer's first word is the case, the others its values, unused ones 0. Each contract is one equation: those words, with
// the store and a query's scratch at exit, are what `run` says of the call. C has no generic functions, so each call is exported for either index.
ghost use Rattle.std.specs.Prelude.{◌≡◌, length};
ghost use Rattle.model.specs.Calls.{build, insert, remove, replace, live_count, query};
ghost use Rattle.model.specs.Run.{run};
ghost use Rattle.soundness.specs.Scan.{lent, words};
ghost use Rattle.wang_judge.specs.Scheme.{wang};
ghost use Rattle.panako_judge.specs.Scheme.{panako};
ghost use Rattle.capi.specs.Answers.{in_words, in_words_with, wang_asked, panako_asked};

use panako::PanakoIndex;
use wang::WangIndex;

#[unsafe(no_mangle)]
pub extern "C" fn wang_index_build(
    refs: &mut [u32],
    postings: &mut [u32],
    stopped: &mut [u32],
    hashes: &[u32],
    lengths: &[u32],
    rates: &[u32],
    limit: u32,
    sets: &[u32],
    answer: &mut [u64; 8],
)
    ensures { (answer.new, words refs.new postings.new stopped.new)
        ≡ in_words (run wang (words refs.old postings.old stopped.old)
        (build limit hashes.now lengths.now rates.now sets.now)) }
{
    capi::index::build::<WangIndex>(
        refs, postings, stopped, hashes, lengths, rates, limit, sets, answer,
    );
}

#[unsafe(no_mangle)]
pub extern "C" fn wang_index_insert(
    refs: &mut [u32],
    postings: &mut [u32],
    stopped: &mut [u32],
    hashes: &[u32],
    rate: u32,
    limit: u32,
    set: u32,
    answer: &mut [u64; 8],
)
    ensures { (answer.new, words refs.new postings.new stopped.new)
        ≡ in_words (run wang (words refs.old postings.old stopped.old) (insert limit rate set hashes.now)) }
{
    capi::index::insert::<WangIndex>(refs, postings, stopped, hashes, rate, limit, set, answer);
}

#[unsafe(no_mangle)]
pub extern "C" fn wang_index_remove(
    refs: &mut [u32],
    postings: &mut [u32],
    stopped: &mut [u32],
    id: u32,
    answer: &mut [u64; 8],
)
    ensures { (answer.new, words refs.new postings.new stopped.new)
        ≡ in_words (run wang (words refs.old postings.old stopped.old) (remove id)) }
{
    capi::index::remove::<WangIndex>(refs, postings, stopped, id, answer);
}

#[unsafe(no_mangle)]
pub extern "C" fn wang_index_replace(
    refs: &mut [u32],
    postings: &mut [u32],
    stopped: &mut [u32],
    id: u32,
    hashes: &[u32],
    rate: u32,
    limit: u32,
    answer: &mut [u64; 8],
)
    ensures { (answer.new, words refs.new postings.new stopped.new)
        ≡ in_words (run wang (words refs.old postings.old stopped.old) (replace id limit rate hashes.now)) }
{
    capi::index::replace::<WangIndex>(refs, postings, stopped, id, hashes, rate, limit, answer);
}

#[unsafe(no_mangle)]
pub extern "C" fn wang_index_live_count(
    refs: &[u32],
    postings: &[u32],
    stopped: &[u32],
    answer: &mut [u64; 8],
)
    ensures { (answer.new, lent refs.entry postings.entry stopped.entry)
        ≡ in_words (run wang (lent refs.entry postings.entry stopped.entry) live_count) }
{
    capi::index::live_count::<WangIndex>(refs, postings, stopped, answer);
}

#[unsafe(no_mangle)]
pub extern "C" fn wang_index_query(
    refs: &[u32],
    postings: &[u32],
    stopped: &[u32],
    scratch: &mut [i64],
    hashes: &[u32],
    rate: u32,
    tolerance: u32,
    min_votes: u32,
    min_score: u32,
    min_prominence: u32,
    set: u32,
    answer: &mut [u64; 8],
)
    ensures { (answer.new, (lent refs.entry postings.entry stopped.entry, scratch.new))
        ≡ in_words_with scratch.old (run wang (lent refs.entry postings.entry stopped.entry)
        (query (wang_asked hashes.now rate tolerance min_votes min_score min_prominence set (length scratch.old)))) }
{
    capi::index::wang_index_query(
        refs,
        postings,
        stopped,
        scratch,
        hashes,
        rate,
        tolerance,
        min_votes,
        min_score,
        min_prominence,
        set,
        answer,
    );
}

#[unsafe(no_mangle)]
pub extern "C" fn panako_index_build(
    refs: &mut [u32],
    postings: &mut [u32],
    stopped: &mut [u32],
    hashes: &[u32],
    lengths: &[u32],
    rates: &[u32],
    limit: u32,
    sets: &[u32],
    answer: &mut [u64; 8],
)
    ensures { (answer.new, words refs.new postings.new stopped.new)
        ≡ in_words (run panako (words refs.old postings.old stopped.old)
        (build limit hashes.now lengths.now rates.now sets.now)) }
{
    capi::index::build::<PanakoIndex>(
        refs, postings, stopped, hashes, lengths, rates, limit, sets, answer,
    );
}

#[unsafe(no_mangle)]
pub extern "C" fn panako_index_insert(
    refs: &mut [u32],
    postings: &mut [u32],
    stopped: &mut [u32],
    hashes: &[u32],
    rate: u32,
    limit: u32,
    set: u32,
    answer: &mut [u64; 8],
)
    ensures { (answer.new, words refs.new postings.new stopped.new)
        ≡ in_words (run panako (words refs.old postings.old stopped.old) (insert limit rate set hashes.now)) }
{
    capi::index::insert::<PanakoIndex>(refs, postings, stopped, hashes, rate, limit, set, answer);
}

#[unsafe(no_mangle)]
pub extern "C" fn panako_index_remove(
    refs: &mut [u32],
    postings: &mut [u32],
    stopped: &mut [u32],
    id: u32,
    answer: &mut [u64; 8],
)
    ensures { (answer.new, words refs.new postings.new stopped.new)
        ≡ in_words (run panako (words refs.old postings.old stopped.old) (remove id)) }
{
    capi::index::remove::<PanakoIndex>(refs, postings, stopped, id, answer);
}

#[unsafe(no_mangle)]
pub extern "C" fn panako_index_replace(
    refs: &mut [u32],
    postings: &mut [u32],
    stopped: &mut [u32],
    id: u32,
    hashes: &[u32],
    rate: u32,
    limit: u32,
    answer: &mut [u64; 8],
)
    ensures { (answer.new, words refs.new postings.new stopped.new)
        ≡ in_words (run panako (words refs.old postings.old stopped.old) (replace id limit rate hashes.now)) }
{
    capi::index::replace::<PanakoIndex>(refs, postings, stopped, id, hashes, rate, limit, answer);
}

#[unsafe(no_mangle)]
pub extern "C" fn panako_index_live_count(
    refs: &[u32],
    postings: &[u32],
    stopped: &[u32],
    answer: &mut [u64; 8],
)
    ensures { (answer.new, lent refs.entry postings.entry stopped.entry)
        ≡ in_words (run panako (lent refs.entry postings.entry stopped.entry) live_count) }
{
    capi::index::live_count::<PanakoIndex>(refs, postings, stopped, answer);
}

#[unsafe(no_mangle)]
pub extern "C" fn panako_index_query(
    refs: &[u32],
    postings: &[u32],
    stopped: &[u32],
    scratch: &mut [i64],
    hashes: &[u32],
    rate: u32,
    scale_min: u32,
    scale_max: u32,
    scale_bins: u32,
    tolerance: u32,
    min_votes: u32,
    min_score: u32,
    min_prominence: u32,
    set: u32,
    answer: &mut [u64; 8],
)
    ensures { (answer.new, (lent refs.entry postings.entry stopped.entry, scratch.new))
        ≡ in_words_with scratch.old (run panako (lent refs.entry postings.entry stopped.entry)
        (query (panako_asked hashes.now rate scale_min scale_max scale_bins
        tolerance min_votes min_score min_prominence set (length scratch.old)))) }
{
    capi::index::panako_index_query(
        refs,
        postings,
        stopped,
        scratch,
        hashes,
        rate,
        scale_min,
        scale_max,
        scale_bins,
        tolerance,
        min_votes,
        min_score,
        min_prominence,
        set,
        answer,
    );
}
