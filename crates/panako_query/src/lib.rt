// The query of PanakoIndex: votes are counted against the scratch, gathered, sorted, and judged candidate by candidate.
#![tactic(auto)]

ghost use Rattle.std.specs.Prelude.{◌≡◌, IfSome, ◌*◌, ◌/◌, ◌≤◌, pos, length, get_or, take};
ghost use Rattle.model.specs.Fingerprints.{hashes_of};
ghost use Rattle.model.specs.Run.{run_query};
ghost use Rattle.soundness.specs.Scan.{lent};
ghost use Rattle.query_rank.specs.Answers.{best_so_far, finding_answer, scratch_after};
ghost use Rattle.query_search.specs.Starts.{Starts, Ends, Zeros};
ghost use Rattle.few_bins.specs.Tally.{few_of};
ghost use Rattle.panako_judge.specs.Judge.{bin_count};
ghost use Rattle.panako_judge.specs.Candidates.{votes_in};
ghost use Rattle.panako_judge.specs.Scheme.{query_of, panako, query_with};
ghost use Rattle.panako_query.specs.Candidates.{best_in, main_in, Limits, Known, Votes, OneRecording, Alike};
ghost use Rattle.panako_query.specs.Asked.{words_of, answer_to};

mod asked;

use asked::Asked;
use bins::Lead;
use panako_judge::PanakoQuery;
use panako_vote::{LOWEST, PanakoMatchConfig};
use query_rank::Found;
use query_search::{Search, Voters};
use refusals::Refusal;
use soundness::Store;

// A recording's id in the word of its vote.
const LEAD: Lead = Lead {
    low: LOWEST,
    bits: 52,
};

// The best candidate by the first v words, which are votes in ascending order. Bins and sums are written from word 2 * v on.
// One walk for Wang and Panako would ask a trait for how a word is read, what is asked of a vote, what the judge asks and what it writes: more
// than these lines.
fn best_of(s: &mut [i64], v: usize, refs: &[u32], q: PanakoQuery) -> Option<Found>
    requires { Votes refs.now s.old v q }
    ensures { best_so_far result ≡ best_in q refs.now (take v s.old) }
{
    let mut best = None;
    let mut i = 0;
    // A `while`, since i goes from run to run.
    while i < v {
        let e = LEAD.run_end(s, i, v);
        let id = LEAD.of(s[i]) as u32;
        let rate = rows::row_word(refs, id as usize, rows::AT_RATE);
        let verdict = panako_judge::judge(s, i, e - i, 2 * v, q, rate);
        best = query_rank::keep(best, id, verdict);
        i = e;
    }
    best
}

// Of the first v words, which are votes, keeps those that decide the best: a recording with fewer than min_votes is no candidate, so the others are left
// out where they are fewer than that beside the first one's recording. Yields how many are kept.
fn main_votes(s: &mut [i64], v: usize, q: PanakoQuery) -> usize
    requires { v ≤ length s.old }
    ensures { (take result s.new ≡ main_in q (take v s.old)) × (result ≤ v) }
{
    main_votes::keep_main(&mut s[..v], LEAD, u64::from(q.cfg.min_votes))
}

// The bins of the first v words, where these are votes of one recording and the bins are few, as in most queries that are answered: no order is asked
// of the votes. The bins are written from word 2 * v on. Yields how many they are, none where they are not counted.
fn few_bins(s: &mut [i64], v: usize) -> Option<usize>
    requires { (6 * v ≤ length s.old) × (v ≤ 1000000) }
    ensures alike { IfSome result (λ n. Alike s.new v n) }
    ensures s_unchanged { take v s.new ≡ take v s.old }
    ensures value { OneRecording s.old v → result ≡ few_of (bin_count (votes_in s.old 0 v)) }
{
    if v == 0 {
        return None;
    }
    if LEAD.run_end(s, 0, v) < v {
        return None;
    }
    panako_judge::count_few(s, v, 2 * v)
}

// The best candidate by the first v words, which are votes of one recording: their n bins stand from word 2 * v on, and their
// sums are written behind them.
fn best_of_few(s: &mut [i64], v: usize, n: usize, refs: &[u32], q: PanakoQuery) -> Option<Found>
    requires { Limits refs.now q × Alike s.old v n × Known refs.now (get_or s.old 0 (pos 0)) × (v ≤ 1000000) }
    ensures { best_so_far result ≡ best_in q refs.now (take v s.old) }
{
    let id = LEAD.of(s[0]) as u32;
    let rate = rows::row_word(refs, id as usize, rows::AT_RATE);
    let verdict = panako_judge::judge_binned(s, v, 2 * v, n, q, rate);
    query_rank::keep(None, id, verdict)
}

impl<'a> Asked<'a> {
    // The best candidate by the votes, which are gathered and sorted in the scratch. `starts` and `ends` say where the postings of each hash begin and
    // end; `which` is written over.
    fn best_candidate(
        self,
        s: &mut [i64],
        starts: &[u32],
        ends: &[u32],
        which: &mut [u32],
    ) -> Option<Found>
        requires { (length (words_of self) ≤ 1000000) × (6 * length (words_of self) ≤ length s.old)
            × Starts self.search.posts.now 5 self.search.count self.search.hashes.now 4 self.search.hash_count starts.now
            × Ends self.search.posts.now 5 self.search.count self.search.hashes.now 4 self.search.hash_count ends.now
            × (self.search.hash_count ≤ length starts.now) × (self.search.hash_count ≤ length ends.now) × (self.search.hash_count ≤ length which.old) }
        ensures { best_so_far result ≡ best_in self.entry.q self.entry.voters.refs.now (words_of self.entry) }
    {
        let v = panako_votes::gather(s, self.search, self.voters, starts, ends, which, self.grid);
        let m = main_votes(s, v, self.q);
        if let Some(n) = few_bins(s, m) {
            return best_of_few(s, m, n, self.voters.refs, self.q);
        }
        sorting::sort_words(s, m);
        best_of(s, m, self.voters.refs, self.q)
    }

    // The answer. An accepted query leaves zeros in the scratch. Where the postings of each hash begin and end goes to `starts` and `ends`, and `which`
    // is written over: they come one by one since `ends` is written while `starts` is read.
    fn search_in(
        self,
        s: &mut [i64],
        starts: &mut [u32],
        ends: &mut [u32],
        which: &mut [u32],
    ) -> Result<Option<Found>, Refusal>
        requires { (length s.old / 12 ≤ 1000000) × Zeros self.search.hash_count starts.old
            × (self.search.hash_count ≤ length ends.old) × (self.search.hash_count ≤ length which.old) }
        ensures result_value { finding_answer result ≡ answer_to self.entry (length s.old / 12) }
        ensures s_after { s.new ≡ scratch_after (answer_to self.entry (length s.old / 12)) s.old }
    {
        let room = s.len() / 12;
        self.search.seek(starts);
        if !panako_votes::fits(ends, self.search, self.voters, starts, self.grid, room) {
            return Err(Refusal::NoScratch);
        }
        let best = self.best_candidate(s, starts, ends, which);
        s.fill(0);
        Ok(best)
    }

    // The same, with arrays of its own for up to N hashes.
    fn search_sized<const N: usize>(self, s: &mut [i64]) -> Result<Option<Found>, Refusal>
        requires { (length s.old / 12 ≤ 1000000) × (self.search.hash_count ≤ N) × (N ≤ 2048) }
        ensures result_value { finding_answer result ≡ answer_to self.entry (length s.old / 12) }
        ensures s_after { s.new ≡ scratch_after (answer_to self.entry (length s.old / 12)) s.old }
    {
        let mut starts = [0u32; N];
        let mut ends = [0u32; N];
        let mut which = [0u32; N];
        self.search_in(s, &mut starts, &mut ends, &mut which)
    }

    // The same, for any number of hashes.
    fn search(self, s: &mut [i64]) -> Result<Option<Found>, Refusal>
        requires { length s.old / 12 ≤ 1000000 }
        ensures result_value { finding_answer result ≡ answer_to self.entry (length s.old / 12) }
        ensures s_after { s.new ≡ scratch_after (answer_to self.entry (length s.old / 12)) s.old }
    {
        if self.search.hash_count <= FEW {
            return self.search_sized::<FEW>(s);
        }
        if self.search.hash_count <= SOME {
            return self.search_sized::<SOME>(s);
        }
        self.search_sized::<MOST>(s)
    }
}

// The most hashes of a query whose starts and ends stand in small arrays, in larger ones, and of any query: to clear the largest costs a small query
// more than the search itself.
const FEW: usize = 64;

const SOME: usize = 512;

const MOST: usize = 2048;

// What every candidate is judged with: the settings after `normalize_config`.
fn query_of(hashes: &[u32], frames_per_sec: f32, cfg: PanakoMatchConfig) -> PanakoQuery
    ensures { result ≡ query_of (record { cfg = cfg; rate = frames_per_sec }) (hashes_of 5 hashes.now) }
{
    PanakoQuery {
        cfg: panako_vote::normalize_config(cfg),
        frames_per_sec,
        q_len: hashes.len() / 4,
    }
}

// The best recording of a set, 0 for all, for a query, with its result. The store is left as it is, and of the scratch an accepted query leaves zeros.
pub fn query<'a>(
    refs: &'a [u32],
    posts: &'a [u32],
    stops: &'a [u32],
    s: &mut [i64],
    hashes: &'a [u32],
    frames_per_sec: f32,
    cfg: PanakoMatchConfig,
    set: u32,
) -> Result<Option<Found>, Refusal>
    ensures stops_value { (finding_answer result, lent refs.entry posts.entry stops.entry)
        ≡ run_query panako (lent refs.entry posts.entry stops.entry)
        (query_with cfg frames_per_sec set hashes.now (length s.old)) }
    ensures s_after { s.new ≡ scratch_after (finding_answer result) s.old }
{
    let store = Store {
        refs,
        posts,
        stops,
        width: 5,
    };
    let q = query_of(hashes, frames_per_sec, cfg);
    let beyond = !panako_vote::within_limits(q.cfg);
    query_refusals::of_query(store, s.len(), 12, hashes, beyond, set)?;
    let search = Search::<5, 4> {
        posts,
        count: rows::header(refs).postings,
        hashes,
        hash_count: q.q_len,
    };
    let voters = Voters { refs, set };
    let grid = panako_vote::scale_grid(q.cfg);
    Asked {
        search,
        voters,
        q,
        grid,
    }
    .search(s)
}
