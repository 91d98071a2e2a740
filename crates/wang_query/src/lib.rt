// The query of WangIndex: votes are counted against the scratch, gathered, sorted, and judged candidate by candidate.
#![tactic(auto)]

ghost use Rattle.std.specs.Prelude.{◌≡◌, ◌*◌, ◌/◌, ◌≤◌, length, take};
ghost use Rattle.model.specs.Fingerprints.{hashes_of};
ghost use Rattle.model.specs.Run.{run_query};
ghost use Rattle.soundness.specs.Scan.{lent};
ghost use Rattle.query_search.specs.Starts.{Starts, Ends, Zeros};
ghost use Rattle.query_rank.specs.Answers.{best_so_far, finding_answer, scratch_after};
ghost use Rattle.wang_judge.specs.Scheme.{query_of, wang, query_with};
ghost use Rattle.wang_query.specs.Candidates.{best_in, Votes};
ghost use Rattle.wang_query.specs.Asked.{words_of, answer_to};

mod asked;

use asked::Asked;
use bins::Lead;
use query_rank::Found;
use query_search::{Search, Voters};
use refusals::Refusal;
use soundness::Store;
use wang_judge::{WangMatchConfig, WangQuery};

// A recording's id in the word of its vote.
const LEAD: Lead = Lead { low: 0, bits: 44 };

// The best candidate by the first v words, which are votes in ascending order. Bins are written from word 2 * v on.
// One walk for Wang and Panako would ask a trait for how a word is read, what is asked of a vote, what the judge asks and what it writes: more
// than these lines.
fn best_of(s: &mut [i64], v: usize, refs: &[u32], q: WangQuery) -> Option<Found>
    requires { Votes refs.now s.old v q }
    ensures { best_so_far result ≡ best_in q refs.now (take v s.old) }
{
    let mut best = None;
    let mut i = 0;
    // A `while`, since i goes from run to run.
    while i < v {
        let e = LEAD.run_end(s, i, v);
        let id = LEAD.of(s[i]) as u32;
        let rate = rows::row_word(refs, id as usize, rows::AT_RATE);
        let r_max = rows::row_word(refs, id as usize, rows::AT_RMAX);
        let verdict = wang_judge::judge(s, i, e - i, 2 * v, q, rate, r_max);
        best = query_rank::keep(best, id, verdict);
        i = e;
    }
    best
}

impl<'a> Asked<'a> {
    // The best candidate by the votes, which are gathered and sorted in the scratch. `starts` says where the postings of each hash begin, and `ends`
    // where they end.
    fn best_candidate(self, s: &mut [i64], starts: &[u32], ends: &[u32]) -> Option<Found>
        requires { (length (words_of self) ≤ 1000000)
            × (4 * length (words_of self) ≤ length s.old)
            × Starts self.search.posts.now 3 self.search.count self.search.hashes.now 2 self.search.hash_count starts.now
            × Ends self.search.posts.now 3 self.search.count self.search.hashes.now 2 self.search.hash_count ends.now
            × (self.search.hash_count ≤ length starts.now) × (self.search.hash_count ≤ length ends.now) }
        ensures { best_so_far result ≡ best_in self.entry.q self.entry.voters.refs.now (words_of self.entry) }
    {
        let v = wang_votes::gather(
            s,
            self.search,
            self.voters,
            starts,
            ends,
            u64::from(self.q.q_max),
        );
        sorting::sort_words(s, v);
        best_of(s, v, self.voters.refs, self.q)
    }

    // The answer. An accepted query leaves zeros in the scratch. Where the postings of each hash begin and end goes to `starts` and `ends`, which come
    // one by one since `ends` is written while `starts` is read.
    fn search_in(
        self,
        s: &mut [i64],
        starts: &mut [u32],
        ends: &mut [u32],
    ) -> Result<Option<Found>, Refusal>
        requires { (length s.old / 6 ≤ 1000000) × Zeros self.search.hash_count starts.old × (self.search.hash_count ≤ length ends.old) }
        ensures { (finding_answer result ≡ answer_to self.entry (length s.old / 6))
            × (s.new ≡ scratch_after (answer_to self.entry (length s.old / 6)) s.old) }
    {
        let room = s.len() / 6;
        self.search.seek(starts);
        let met = self.search.meet(ends, starts, self.voters, room);
        if room < met {
            return Err(Refusal::NoScratch);
        }
        let best = self.best_candidate(s, starts, ends);
        s.fill(0);
        Ok(best)
    }

    // The same, with arrays of its own for up to N hashes.
    fn search_sized<const N: usize>(self, s: &mut [i64]) -> Result<Option<Found>, Refusal>
        requires { (length s.old / 6 ≤ 1000000) × (self.search.hash_count ≤ N) × (N ≤ 2048) }
        ensures result_value { finding_answer result ≡ answer_to self.entry (length s.old / 6) }
        ensures s_after { s.new ≡ scratch_after (answer_to self.entry (length s.old / 6)) s.old }
    {
        let mut starts = [0u32; N];
        let mut ends = [0u32; N];
        self.search_in(s, &mut starts, &mut ends)
    }

    // The same, for any number of hashes.
    fn search(self, s: &mut [i64]) -> Result<Option<Found>, Refusal>
        requires { length s.old / 6 ≤ 1000000 }
        ensures result_value { finding_answer result ≡ answer_to self.entry (length s.old / 6) }
        ensures s_after { s.new ≡ scratch_after (answer_to self.entry (length s.old / 6)) s.old }
    {
        if self.search.hash_count <= FEW {
            return self.search_sized::<FEW>(s);
        }
        if self.search.hash_count <= SOME {
            return self.search_sized::<SOME>(s);
        }
        self.search_sized::<MOST>(s)
    }
}

// The most hashes of a query whose starts and ends stand in small arrays, in larger ones, and of any query: to clear the largest costs a small query
// more than the search itself.
const FEW: usize = 64;

const SOME: usize = 512;

const MOST: usize = 2048;

// What every candidate is judged with.
fn query_of(hashes: &[u32], frames_per_sec: f32, cfg: WangMatchConfig) -> WangQuery
    ensures { result ≡ query_of (record { cfg = cfg; rate = frames_per_sec }) (hashes_of 3 hashes.now) }
{
    WangQuery {
        cfg,
        frames_per_sec,
        q_max: rows::row_max(hashes, 3),
        q_len: hashes.len() / 2,
    }
}

// The best recording of a set, 0 for all, for a query, with its result. The store is left as it is, and of the scratch an accepted query leaves zeros.
pub fn query<'a>(
    refs: &'a [u32],
    posts: &'a [u32],
    stops: &'a [u32],
    s: &mut [i64],
    hashes: &'a [u32],
    frames_per_sec: f32,
    cfg: WangMatchConfig,
    set: u32,
) -> Result<Option<Found>, Refusal>
    ensures stops_value { (finding_answer result, lent refs.entry posts.entry stops.entry)
        ≡ run_query wang (lent refs.entry posts.entry stops.entry)
        (query_with cfg frames_per_sec set hashes.now (length s.old)) }
    ensures s_after { s.new ≡ scratch_after (finding_answer result) s.old }
{
    let store = Store {
        refs,
        posts,
        stops,
        width: 3,
    };
    let beyond = 65535 < cfg.offset_tolerance_frames;
    query_refusals::of_query(store, s.len(), 6, hashes, beyond, set)?;
    let q = query_of(hashes, frames_per_sec, cfg);
    let search = Search::<3, 2> {
        posts,
        count: rows::header(refs).postings,
        hashes,
        hash_count: q.q_len,
    };
    let voters = Voters { refs, set };
    Asked { search, voters, q }.search(s)
}
