// The votes of a Panako query: counted, then gathered as words into lent scratch.
#![tactic(auto)]

ghost use Rattle.std.specs.Prelude.{◌≡◌, true, ◌++◌, ◌+◌, ◌*◌, ◌≤◌, ◌<◌, ◌^◌, min, leb, length, get_or, take};
ghost use Rattle.lists.specs.Entries.{entries};
ghost use Rattle.query_search.specs.Starts.{Starts, Ends};
ghost use Rattle.panako_vote.specs.Grids.{Limited};
ghost use Rattle.query_search.specs.Voting.{voting, if_voting, HasRow, Rowed};
ghost use Rattle.panako_votes.specs.Gathered.{words_with, words, vote_count, Packable};
ghost use Rattle.panako_votes.specs.Listed.{Listed};

use panako_vote::{ScaleGrid, Span};
use query_search::{Search, Voters, Votes};

// The span of a posting.
fn span_of(posting: &[u32; 5]) -> Span
    ensures { result ≡ record { anchor = get_or posting.now 2 0; end = get_or posting.now 4 0 } }
{
    Span {
        anchor: posting[2],
        end: posting[4],
    }
}

// The span of query hash i.
fn span_at(search: Search<5, 4>, i: usize) -> Span
    requires { i < search.hash_count }
    ensures { result ≡ record { anchor = get_or search.entry.hashes.now (4 * i + 1) 0; end = get_or search.entry.hashes.now (4 * i + 3) 0 } }
{
    Span {
        anchor: search.hashes[4 * i + 1],
        end: search.hashes[4 * i + 3],
    }
}

// How many votes a query hash has with a posting: none or one. A posting that doesn't vote has none.
fn pair_count(voters: Voters, g: ScaleGrid, span: Span, posting: &[u32; 5]) -> usize
    requires { HasRow voters.refs.now (get_or posting.now 1 0) }
    ensures { (result ≡ length (if_voting voters.entry.set voters.entry.refs.now (words_with g span.anchor span.end) posting.now)) × (result ≤ 1) }
{
    // Without a branch on whether the posting votes, which can't be predicted.
    if panako_vote::has_vote(g, span, span_of(posting)) {
        return voters.votes_at(posting, 0);
    }
    0
}

// The votes of the query hashes with those postings that vote; `starts` says where the postings of each hash begin. They are held at one more
// than the room: the counting ends at the vote that passes it. Where it is not passed, `ends` says where the postings of each hash end.
fn count_votes(
    ends: &mut [u32],
    search: Search<5, 4>,
    voters: Voters,
    starts: &[u32],
    g: ScaleGrid,
    room: usize,
) -> usize
    requires { Starts search.posts.now 5 search.count search.hashes.now 4 search.hash_count starts.now × (search.hash_count ≤ length starts.now) × (search.hash_count ≤ length ends.old) × (room ≤ 1000000) × Rowed voters.refs.now search.posts.now 5 search.count }
    ensures value { result ≡ min (room + 1) (vote_count g (voting voters.entry.set voters.entry.refs.now (entries 5 search.entry.count search.entry.posts.now)) (entries 4 search.entry.hash_count search.entry.hashes.now)) }
    ensures ends { result ≤ room → Ends search.entry.posts.now 5 search.entry.count search.entry.hashes.now 4 search.entry.hash_count ends.new }
{
    let mut v = 0;
    'hashes: for i in 0..search.hash_count {
        let span = span_at(search, i);
        let key = search.hashes[4 * i];
        let part = maps::part_at(search.posts, 5, search.count, starts[i] / 5, key);
        let (postings, _) = part.as_chunks::<5>();
        for posting in postings {
            v += pair_count(voters, g, span, posting);
            if room < v {
                break 'hashes;
            }
        }
        ends[i] = starts[i] + part.len() as u32;
    }
    v
}

// Whether the votes of the query hashes fit the room; then `ends` says where the postings of each hash end. Where the postings met that vote
// fit, the votes do, and are not counted.
pub fn fits(
    ends: &mut [u32],
    search: Search<5, 4>,
    voters: Voters,
    starts: &[u32],
    g: ScaleGrid,
    room: usize,
) -> bool
    requires { Starts search.posts.now 5 search.count search.hashes.now 4 search.hash_count starts.now × (search.hash_count ≤ length starts.now) × (search.hash_count ≤ length ends.old) × (room ≤ 1000000) × Rowed voters.refs.now search.posts.now 5 search.count }
    ensures value { result ≡ leb (vote_count g (voting voters.entry.set voters.entry.refs.now (entries 5 search.entry.count search.entry.posts.now)) (entries 4 search.entry.hash_count search.entry.hashes.now)) room }
    ensures ends { result ≡ true → Ends search.entry.posts.now 5 search.entry.count search.entry.hashes.now 4 search.entry.hash_count ends.new }
{
    if search.meet(ends, starts, voters, room) <= room {
        return true;
    }
    count_votes(ends, search, voters, starts, g, room) <= room
}

// A query hash as its votes have it: its span, and the scale grid of the query.
#[derive(Clone, Copy)]
struct QueryHash {
    grid: ScaleGrid,
    span: Span,
    ghost limited: { Limited grid },
}

impl Votes<5> for QueryHash {
    ghost words_with = { λ h e. words_with h.grid h.span.anchor h.span.end e };

    fn put(self, s: &mut [i64], at: usize, posting: &[u32; 5]) -> usize {
        match panako_vote::pair_vote(self.grid, self.span, span_of(posting)) {
            None => at,
            Some(vote) => {
                panako_vote::put_vote(s, at, u64::from(posting[1]), vote);
                at + 1
            }
        }
    }
}

// Those of m query hashes that meet a posting go to `which`, in order. Yields how many they are. It has no branch on them: one hash in four
// meets none, which can't be foreseen.
fn list_met(which: &mut [u32], starts: &[u32], ends: &[u32], m: usize) -> usize
    requires { (m ≤ length which.old) × (m ≤ length starts.now) × (m ≤ length ends.now) × (m ≤ 2048) }
    ensures { Listed starts.now ends.now which.new m result × (result ≤ m) }
{
    let mut k = 0;
    for i in 0..m {
        which[k] = i as u32;
        k += usize::from(starts[i] < ends[i]);
    }
    k
}

// The votes of the query hashes with those postings that vote, as words from the first on; the hashes that meet a posting are listed. Yields how many.
fn gather_listed(
    s: &mut [i64],
    search: Search<5, 4>,
    voters: Voters,
    starts: &[u32],
    ends: &[u32],
    which: &[u32],
    g: ScaleGrid,
) -> usize
    requires { Packable voters.refs.now search.posts.now search.count search.hashes.now search.hash_count g
        × Starts search.posts.now 5 search.count search.hashes.now 4 search.hash_count starts.now × Ends search.posts.now 5 search.count search.hashes.now 4 search.hash_count ends.now
        × (search.hash_count ≤ length starts.now) × (search.hash_count ≤ length ends.now) × Listed starts.now ends.now which.now search.hash_count (length which.now)
        × (vote_count g (voting voters.set voters.refs.now (entries 5 search.count search.posts.now)) (entries 4 search.hash_count search.hashes.now) ≤ length s.old) }
    ensures { (result ≡ vote_count g (voting voters.entry.set voters.entry.refs.now (entries 5 search.entry.count search.entry.posts.now)) (entries 4 search.entry.hash_count search.entry.hashes.now))
        × (take result s.new ≡ words g (voting voters.entry.set voters.entry.refs.now (entries 5 search.entry.count search.entry.posts.now)) (entries 4 search.entry.hash_count search.entry.hashes.now)) }
{
    let mut v = 0;
    for listed in which {
        let i = *listed as usize;
        let hash = QueryHash {
            grid: g,
            span: span_at(search, i),
        };
        let part = search.part_of(starts[i], ends[i], search.hashes[4 * i]);
        let (postings, _) = part.as_chunks::<5>();
        v = query_search::gather_part::<5, QueryHash>(s, v, voters, postings, hash);
    }
    v
}

// The votes of the query hashes with those postings that vote, as words from the first on. Yields how many. `which` is written over.
pub fn gather(
    s: &mut [i64],
    search: Search<5, 4>,
    voters: Voters,
    starts: &[u32],
    ends: &[u32],
    which: &mut [u32],
    g: ScaleGrid,
) -> usize
    requires { Packable voters.refs.now search.posts.now search.count search.hashes.now search.hash_count g
        × Starts search.posts.now 5 search.count search.hashes.now 4 search.hash_count starts.now × Ends search.posts.now 5 search.count search.hashes.now 4 search.hash_count ends.now
        × (search.hash_count ≤ length starts.now) × (search.hash_count ≤ length ends.now) × (search.hash_count ≤ length which.old)
        × (vote_count g (voting voters.set voters.refs.now (entries 5 search.count search.posts.now)) (entries 4 search.hash_count search.hashes.now) ≤ length s.old) }
    ensures { (result ≡ vote_count g (voting voters.entry.set voters.entry.refs.now (entries 5 search.entry.count search.entry.posts.now)) (entries 4 search.entry.hash_count search.entry.hashes.now))
        × (take result s.new ≡ words g (voting voters.entry.set voters.entry.refs.now (entries 5 search.entry.count search.entry.posts.now)) (entries 4 search.entry.hash_count search.entry.hashes.now)) }
{
    let k = list_met(which, starts, ends, search.hash_count);
    gather_listed(s, search, voters, starts, ends, &which[..k], g)
}
