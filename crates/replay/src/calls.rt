// The calls of a line's words, of either index, on what is lent. A line that lacks the call's fields differs, and of a query also a scratch that is then not
// as it is to be.
ghost use Rattle.std.specs.Prelude.{◌≡◌, ◌≤◌, ◌++◌, MatchOption, pos, take, drop, replicate};
ghost use Rattle.replay_text.specs.Contents.{put_by, as_said};
ghost use Rattle.replay_text.specs.Letters.{letter_of};

use crate::Stop;
use index_calls::Index;
use panako::PanakoIndex;
use replay_text::Contents;
use wang::WangIndex;

// Stores of at most 40 references, 512 entries of Panako and 64 stopped keys, scratch for 512 votes of Panako.
const REFS: usize = rows::HEAD_WIDTH + 40 * rows::ROW_WIDTH;

const POSTINGS: usize = 2560;

const STOPPED: usize = 64;

const SCRATCH: usize = 6144;

#[derive(Clone, Copy)]
pub enum Call {
    Build,
    Insert,
    Remove,
    Replace,
    LiveCount,
    Query,
}

// How many words of each slice of the store are lent.
#[derive(Clone, Copy)]
pub struct Lent {
    refs: usize,
    postings: usize,
    stopped: usize,
    ghost within: { (refs ≤ 204) × (postings ≤ 2560) × (stopped ≤ 64) },
}

impl Lent {
    // None where the store has fewer.
    pub fn new(refs: usize, postings: usize, stopped: usize) -> Option<Lent>
        ensures { MatchOption result (¬ ((refs ≤ 204) × (postings ≤ 2560) × (stopped ≤ 64)))
            (λ lent. (lent.refs ≡ refs) × (lent.postings ≡ postings) × (lent.stopped ≡ stopped)) }
    {
        if refs <= REFS && postings <= POSTINGS && stopped <= STOPPED {
            Some(Lent {
                refs,
                postings,
                stopped,
            })
        } else {
            None
        }
    }
}

// The index that is called.
#[derive(Clone, Copy)]
pub enum Which {
    Wang,
    Panako,
}

// What is lent to the calls: the first words of the store's slices, the scratch, and the words of the last answer.
#[derive(Drop)]
pub struct Store {
    refs: [u32; REFS],
    postings: [u32; POSTINGS],
    stopped: [u32; STOPPED],
    scratch: [i64; SCRATCH],
    answer: [u64; 8],
}

// An index whose queries have their settings in a line: rate, scale_min, scale_max, scale_bins, tolerance, min_votes, min_score, min_prominence, set.
trait Replayed: Index {
    fn ask(
        refs: &[u32],
        postings: &[u32],
        stopped: &[u32],
        scratch: &mut [i64],
        settings: [u32; 9],
        hashes: &[u32],
        answer: &mut [u64; 8],
    );
}

// Wang has no use for the scales.
impl Replayed for WangIndex {
    fn ask(
        refs: &[u32],
        postings: &[u32],
        stopped: &[u32],
        scratch: &mut [i64],
        settings: [u32; 9],
        hashes: &[u32],
        answer: &mut [u64; 8],
    ) {
        let [
            rate,
            _,
            _,
            _,
            tolerance,
            min_votes,
            min_score,
            min_prominence,
            set,
        ] = settings;
        capi::index::wang_index_query(
            refs,
            postings,
            stopped,
            scratch,
            hashes,
            rate,
            tolerance,
            min_votes,
            min_score,
            min_prominence,
            set,
            answer,
        );
    }
}

impl Replayed for PanakoIndex {
    fn ask(
        refs: &[u32],
        postings: &[u32],
        stopped: &[u32],
        scratch: &mut [i64],
        settings: [u32; 9],
        hashes: &[u32],
        answer: &mut [u64; 8],
    ) {
        let [
            rate,
            scale_min,
            scale_max,
            scale_bins,
            tolerance,
            min_votes,
            min_score,
            min_prominence,
            set,
        ] = settings;
        capi::index::panako_index_query(
            refs,
            postings,
            stopped,
            scratch,
            hashes,
            rate,
            scale_min,
            scale_max,
            scale_bins,
            tolerance,
            min_votes,
            min_score,
            min_prominence,
            set,
            answer,
        );
    }
}

// The first words of a line, as many as a count in it says, and those behind them.
fn split(line: &[u32], count: u32) -> Result<(&[u32], &[u32]), Stop> {
    line.split_at_checked(count as usize).ok_or(Stop::Differs)
}

// What a scratch is filled with is left by a refused query, zeros by an accepted one.
fn left(answer: &[u64; 8], filling: i64) -> i64 {
    if answer[0] == 6 { filling } else { 0 }
}

// The calls take the lent slices one by one: no generated proof covers parts of several fields of a struct that are lent at once.

// Limit, numbers of lengths, of rates and of sets, lengths, rates, sets, hashes.
fn build<I: Index>(
    line: &[u32],
    refs: &mut [u32],
    postings: &mut [u32],
    stopped: &mut [u32],
    answer: &mut [u64; 8],
) -> Result<(), Stop> {
    let [limit, a, b, c, rest @ ..] = line else {
        return Err(Stop::Differs);
    };
    let (lengths, rest) = split(rest, *a)?;
    let (rates, rest) = split(rest, *b)?;
    let (sets, hashes) = split(rest, *c)?;
    capi::index::build::<I>(
        refs, postings, stopped, hashes, lengths, rates, *limit, sets, answer,
    );
    Ok(())
}

// Limit, rate, set, hashes.
fn insert<I: Index>(
    line: &[u32],
    refs: &mut [u32],
    postings: &mut [u32],
    stopped: &mut [u32],
    answer: &mut [u64; 8],
) -> Result<(), Stop> {
    let [limit, rate, set, hashes @ ..] = line else {
        return Err(Stop::Differs);
    };
    capi::index::insert::<I>(refs, postings, stopped, hashes, *rate, *limit, *set, answer);
    Ok(())
}

// Id.
fn remove<I: Index>(
    line: &[u32],
    refs: &mut [u32],
    postings: &mut [u32],
    stopped: &mut [u32],
    answer: &mut [u64; 8],
) -> Result<(), Stop> {
    let [id] = line else {
        return Err(Stop::Differs);
    };
    capi::index::remove::<I>(refs, postings, stopped, *id, answer);
    Ok(())
}

// Id, limit, rate, hashes.
fn replace<I: Index>(
    line: &[u32],
    refs: &mut [u32],
    postings: &mut [u32],
    stopped: &mut [u32],
    answer: &mut [u64; 8],
) -> Result<(), Stop> {
    let [id, limit, rate, hashes @ ..] = line else {
        return Err(Stop::Differs);
    };
    capi::index::replace::<I>(refs, postings, stopped, *id, hashes, *rate, *limit, answer);
    Ok(())
}

fn live_count<I: Index>(
    line: &[u32],
    refs: &[u32],
    postings: &[u32],
    stopped: &[u32],
    answer: &mut [u64; 8],
) -> Result<(), Stop> {
    if !line.is_empty() {
        return Err(Stop::Differs);
    }
    capi::index::live_count::<I>(refs, postings, stopped, answer);
    Ok(())
}

// Words of scratch, what they are filled with, and the query: its settings, then its hashes.
fn query<I: Replayed>(
    line: &[u32],
    refs: &[u32],
    postings: &[u32],
    stopped: &[u32],
    scratch: &mut [i64],
    answer: &mut [u64; 8],
) -> Result<(), Stop> {
    let [size, filling, rest @ ..] = line else {
        return Err(Stop::Differs);
    };
    let (settings, hashes) = rest.split_first_chunk::<9>().ok_or(Stop::Differs)?;
    let n = *size as usize;
    if n > scratch.len() {
        return Err(Stop::Differs);
    }
    let scratch = &mut scratch[..n];
    let filling = i64::from(*filling);
    scratch.fill(filling);
    I::ask(refs, postings, stopped, scratch, *settings, hashes, answer);
    let left = left(answer, filling);
    if scratch.iter().all(|x| *x == left) {
        Ok(())
    } else {
        Err(Stop::Differs)
    }
}

fn contents_on(
    contents: Contents,
    line: &[u32],
    lent: Lent,
    refs: &mut [u32; REFS],
    postings: &mut [u32; POSTINGS],
    stopped: &mut [u32; STOPPED],
    answer: &[u64; 8],
) -> bool
    ensures value { result ≡ as_said (letter_of contents) line.now (take lent.refs refs.old) (take lent.postings postings.old)
        (take lent.stopped stopped.old) answer.now }
    ensures refs_after { refs.new ≡ put_by 114 (letter_of contents) line.now (take lent.refs refs.old) ++ drop lent.refs refs.old }
    ensures postings_after { postings.new
        ≡ put_by 112 (letter_of contents) line.now (take lent.postings postings.old) ++ drop lent.postings postings.old }
    ensures stopped_after { stopped.new
        ≡ put_by 107 (letter_of contents) line.now (take lent.stopped stopped.old) ++ drop lent.stopped stopped.old }
{
    let refs = &mut refs[..lent.refs];
    let postings = &mut postings[..lent.postings];
    let stopped = &mut stopped[..lent.stopped];
    contents.run(line, refs, postings, stopped, answer)
}

fn call_on<I: Replayed>(
    call: Call,
    line: &[u32],
    lent: Lent,
    refs: &mut [u32; REFS],
    postings: &mut [u32; POSTINGS],
    stopped: &mut [u32; STOPPED],
    scratch: &mut [i64; SCRATCH],
    answer: &mut [u64; 8],
) -> Result<(), Stop> {
    let refs = &mut refs[..lent.refs];
    let postings = &mut postings[..lent.postings];
    let stopped = &mut stopped[..lent.stopped];
    match call {
        Call::Build => build::<I>(line, refs, postings, stopped, answer),
        Call::Insert => insert::<I>(line, refs, postings, stopped, answer),
        Call::Remove => remove::<I>(line, refs, postings, stopped, answer),
        Call::Replace => replace::<I>(line, refs, postings, stopped, answer),
        Call::LiveCount => live_count::<I>(line, refs, postings, stopped, answer),
        Call::Query => query::<I>(line, refs, postings, stopped, scratch, answer),
    }
}

impl Store {
    // All zeros.
    pub fn new() -> Store
        ensures refs_value { result.refs ≡ replicate 204 0 }
        ensures postings_value { result.postings ≡ replicate 2560 0 }
        ensures stopped_value { result.stopped ≡ replicate 64 0 }
        ensures scratch_value { result.scratch ≡ replicate 6144 (pos 0) }
        ensures answer_value { result.answer ≡ replicate 8 0 }
    {
        Store {
            refs: [0; REFS],
            postings: [0; POSTINGS],
            stopped: [0; STOPPED],
            scratch: [0; SCRATCH],
            answer: [0; 8],
        }
    }

    // A line on the lent slices and the answer. Whether it is as the line says.
    pub fn run_contents(&mut self, contents: Contents, lent: Lent, line: &[u32]) -> bool
        ensures value { result ≡ as_said (letter_of contents) line.now (take lent.refs self.old.refs) (take lent.postings self.old.postings)
            (take lent.stopped self.old.stopped) self.old.answer }
        ensures refs_after { self.new.refs
            ≡ put_by 114 (letter_of contents) line.now (take lent.refs self.old.refs) ++ drop lent.refs self.old.refs }
        ensures postings_after { self.new.postings
            ≡ put_by 112 (letter_of contents) line.now (take lent.postings self.old.postings) ++ drop lent.postings self.old.postings }
        ensures stopped_after { self.new.stopped
            ≡ put_by 107 (letter_of contents) line.now (take lent.stopped self.old.stopped) ++ drop lent.stopped self.old.stopped }
        ensures unchanged { (self.new.scratch ≡ self.old.scratch) × (self.new.answer ≡ self.old.answer) }
    {
        contents_on(
            contents,
            line,
            lent,
            &mut self.refs,
            &mut self.postings,
            &mut self.stopped,
            &self.answer,
        )
    }

    fn run<I: Replayed>(&mut self, call: Call, lent: Lent, line: &[u32]) -> Result<(), Stop> {
        call_on::<I>(
            call,
            line,
            lent,
            &mut self.refs,
            &mut self.postings,
            &mut self.stopped,
            &mut self.scratch,
            &mut self.answer,
        )
    }
}

// A call of the index on a store.
pub fn run(
    which: Which,
    store: &mut Store,
    call: Call,
    lent: Lent,
    line: &[u32],
) -> Result<(), Stop> {
    match which {
        Which::Wang => store.run::<WangIndex>(call, lent, line),
        Which::Panako => store.run::<PanakoIndex>(call, lent, line),
    }
}
