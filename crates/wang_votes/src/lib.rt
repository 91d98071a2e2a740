// The votes of a Wang query, gathered as words into lent scratch.
#![tactic(auto)]

ghost use Rattle.std.specs.Prelude.{◌≡◌, cond, ◌++◌, ◌+◌, ◌*◌, ◌-◌, ◌≤◌, ◌<◌, ◌^◌, pos, ltb, length, get_or, take, drop, set};
ghost use Rattle.lists.specs.Keys.{under};
ghost use Rattle.lists.specs.Entries.{entries, key_of};
ghost use Rattle.maps.specs.Entries.{first_at};
ghost use Rattle.bins.specs.Votes.{packed};
ghost use Rattle.query_search.specs.Starts.{Starts, Ends, met};
ghost use Rattle.query_search.specs.Gathered.{Ids};
ghost use Rattle.query_search.specs.Voting.{voting, Rowed};
ghost use Rattle.wang_votes.specs.Gathered.{words, word_with, words_on, Packable};

use query_search::{Search, Voters, Votes};

// A query hash as its votes have it: its position, and how far its anchor lies below the largest.
#[derive(Clone, Copy)]
struct QueryHash {
    shift: u64,
    position: u64,
    ghost shift_fits: { shift < 2 ^ 32 },
    ghost position_fits: { position < 2 ^ 11 },
}

impl QueryHash {
    // Its vote with a posting, which the words begin with, goes to word `at`.
    fn put_word(self, s: &mut [i64], at: usize, posting: &[u32])
        requires { (at < length s.old) × (2 < length posting.now) × (get_or posting.now 1 0 < 2 ^ 12) }
        ensures { s.new ≡ set s.old at (pos (packed (get_or posting.now 1 0) (get_or posting.now 2 0 + self.shift) self.position)) }
    {
        let id = u64::from(posting[1]);
        let t = u64::from(posting[2]);
        s[at] = bins::pack(id, t + self.shift, self.position) as i64;
    }
}

impl Votes<3> for QueryHash {
    ghost words_with = { λ h e. word_with h.shift h.position e };

    fn put(self, s: &mut [i64], at: usize, posting: &[u32; 3]) -> usize {
        self.put_word(s, at, posting);
        at + 1
    }
}

// The postings from word a on, of p: where a key begins there, the part starts with its postings.
fn from_key(posts: &[u32], p: usize, a: u32) -> &[u32]
    requires { (a ≤ 3 * p) × (3 * p ≤ length posts.now) }
    ensures { result.now ≡ take (3 * p - a) (drop a posts.now) }
{
    let from = a as usize;
    &posts[from..3 * p]
}

// The vote with the first posting of a part goes to word `at`, where there are such a posting and such a word.
fn gather_first(s: &mut [i64], at: usize, part: &[u32], hash: QueryHash)
    requires { 0 < length part.now → (2 < length part.now) × (get_or part.now 1 0 < 2 ^ 12) }
    ensures { s.new ≡ cond (ltb 0 (length part.now))
        (set s.old at (pos (packed (get_or part.now 1 0) (get_or part.now 2 0 + hash.shift) hash.position))) s.old }
{
    if (0 < part.len()) & (at < s.len()) {
        hash.put_word(s, at, part);
    }
}

// The votes with those postings that stand under a key, from word `start` to before word `end`, and vote. Yields where the votes end. One vote
// at most is written without asking whether it is there, since that can't be predicted: where it isn't, its word is not counted. So the part that
// is handed on then goes on behind the key.
fn gather_key(
    s: &mut [i64],
    at: usize,
    search: Search<3, 2>,
    voters: Voters,
    start: u32,
    end: u32,
    key: u32,
    hash: QueryHash,
) -> usize
    requires { (start ≡ 3 * first_at search.posts.now 3 search.count key) × (end ≡ 3 * first_at search.posts.now 3 search.count (key + 1))
        × Ids (entries 3 search.count search.posts.now) × Rowed voters.refs.now search.posts.now 3 search.count
        × (at + length (under key_of key (voting voters.set voters.refs.now (entries 3 search.count search.posts.now))) ≤ length s.old) }
    ensures { (result ≡ at + length (under key_of key (voting voters.entry.set voters.entry.refs.now (entries 3 search.entry.count search.entry.posts.now))))
        × (take result s.new ≡ take at s.old ++ words_on hash.shift hash.position (under key_of key (voting voters.entry.set voters.entry.refs.now (entries 3 search.entry.count search.entry.posts.now)))) }
{
    let n = ((end - start) / 3) as usize;
    if n <= 1 {
        let part = from_key(search.posts, search.count, start);
        gather_first(s, at, part, hash);
        return at + voters.first_votes(search.posts, 3 * search.count, start as usize, n);
    }
    let (postings, _) = search.part_of(start, end, key).as_chunks::<3>();
    // They are n: said so, they aren't counted by a division again.
    query_search::gather_part::<3, QueryHash>(s, at, voters, &postings[..n], hash)
}

// The votes of the query hashes, as words from the first on; `starts` and `ends` say where the postings of each hash begin and end, `top` is
// the largest query anchor. Each posting met that votes is one vote. Yields how many.
pub fn gather(
    s: &mut [i64],
    search: Search<3, 2>,
    voters: Voters,
    starts: &[u32],
    ends: &[u32],
    top: u64,
) -> usize
    requires { Packable voters.refs.now search.posts.now search.count search.hashes.now search.hash_count top
        × Starts search.posts.now 3 search.count search.hashes.now 2 search.hash_count starts.now × Ends search.posts.now 3 search.count search.hashes.now 2 search.hash_count ends.now
        × (search.hash_count ≤ length starts.now) × (search.hash_count ≤ length ends.now)
        × (met (voting voters.set voters.refs.now (entries 3 search.count search.posts.now)) (entries 2 search.hash_count search.hashes.now) ≤ length s.old) }
    ensures { (result ≡ met (voting voters.entry.set voters.entry.refs.now (entries 3 search.entry.count search.entry.posts.now)) (entries 2 search.entry.hash_count search.entry.hashes.now))
        × (take result s.new ≡ words top (voting voters.entry.set voters.entry.refs.now (entries 3 search.entry.count search.entry.posts.now)) (entries 2 search.entry.hash_count search.entry.hashes.now)) }
{
    let mut v = 0;
    for i in 0..search.hash_count {
        let key = search.hashes[2 * i];
        let hash = QueryHash {
            shift: top - u64::from(search.hashes[2 * i + 1]),
            position: i as u64,
        };
        v = gather_key(s, v, search, voters, starts[i], ends[i], key, hash);
    }
    v
}
