// Where the postings of each query hash begin and end, whose postings vote, how many do, and the words of the votes.
#![tactic(auto)]

ghost use Rattle.std.specs.Prelude.{◌≡◌, ℕ, ℤ, List, ◌++◌, ◌+◌, ◌-◌, ◌*◌, ◌/◌, ◌^◌, ◌<◌, ◌≤◌, min, true, ◌&&◌, length, drop, take, ◌==◌, nat_lt, slice_index};
ghost use Rattle.lists.specs.Lists.{flat, All};
ghost use Rattle.lists.specs.Keys.{under};
ghost use Rattle.lists.specs.Entries.{entries, key_at, key_of, keys_ascend};
ghost use Rattle.maps.specs.Sums.{when};
ghost use Rattle.maps.specs.Entries.{first_at};
ghost use Rattle.query_search.specs.Starts.{Starts, Ends, met, Zeros, Windows, Sought, pivots_below};
ghost use Rattle.query_search.specs.Voting.{may_vote, voting, HasRow, Rowed};
ghost use Rattle.query_search.specs.Gathered.{words_by, Ids};

// `half` where x is below the key, and nothing where not. It has no branch, which would be mispredicted every other time: the upper half of
// x − key is all ones just where x is below the key.
fn step(x: u32, key: u32, half: u32) -> u32
    ensures { result ≡ when (nat_lt x key) half }
{
    let d = u64::from(x).wrapping_sub(u64::from(key));
    (d >> 32) as u32 & half
}

// The postings from the last one of the first `by` words on: what stands there at word `at` is the last posting of a window's first `by` words, where
// the window begins at word `at`. All postings, where `by` is 0.
fn tail(posts: &[u32], w: u32, by: u32) -> &[u32]
    requires { (0 < by → w ≤ by) × (by ≤ length posts.now) }
    ensures { result.now ≡ drop (by - w) posts.now }
{
    if by == 0 {
        return posts;
    }
    let from = (by - w) as usize;
    &posts[from..]
}

// Where a window of postings goes on that begins at word `at`: behind its first `by` words if the last posting among those is below the key,
// and else where it was. `lasts` has that posting at word `at`. Where `by` is 0 no posting is looked at.
fn moved(lasts: &[u32], at: u32, by: u32, key: u32) -> u32
    requires { (0 < by → at < length lasts.now) × (at + by < 2 ^ 32) }
    ensures { result ≡ at + when (nat_lt (slice_index lasts.now at) key) by }
{
    if by == 0 {
        return at;
    }
    at + step(lasts[at as usize], key, by)
}

// How many of the pivots are below a key.
fn passed(pivots: [u32; 7], key: u32) -> u32
    ensures { (result ≡ pivots_below pivots key) × (result ≤ 7) }
{
    let mut n = 0;
    for pivot in &pivots {
        n += u32::from(*pivot < key);
    }
    n
}

// In place of each of m keys, `size` for every pivot that is below it. The compiler does several keys at a time.
fn spread(starts: &mut [u32], m: usize, pivots: [u32; 7], size: u32)
    requires { (m ≤ length starts.old) × (7 * size < 2 ^ 32) }
    ensures { (i : ℕ) → i < m → slice_index starts.new i ≡ pivots_below pivots (slice_index starts.old i) * size }
{
    for i in 0..m {
        starts[i] = passed(pivots, starts[i]) * size;
    }
}

// Whether a posting with this key stands at word e, before word `last`.
fn is_under(posts: &[u32], last: usize, e: usize, key: u32) -> bool
    requires { last ≤ length posts.now }
    ensures { result ≡ nat_lt e last && (slice_index posts.now e == key) }
{
    e < last && posts[e] == key
}

// The postings under a key, from word a to before word e, of p postings of w words.
pub fn part_of(posts: &[u32], w: usize, p: usize, a: u32, e: u32, key: u32) -> &[u32]
    requires { (1 ≤ w) × (w * p ≤ length posts.now) × (keys_ascend posts.now w p ≡ true) × (a ≡ w * first_at posts.now w p key) × (e ≡ w * first_at posts.now w p (key + 1)) }
    ensures { result.now ≡ flat (under key_of key (entries w p posts.now)) }
{
    let from = a as usize;
    let to = e as usize;
    &posts[from..to]
}

// Whose postings vote in a query: the recordings of a set, 0 for all. The rows of recordings say of what set they are.
#[derive(Clone, Copy)]
pub struct Voters<'a> {
    pub refs: &'a [u32],
    pub set: u32,
}

impl<'a> Voters<'a> {
    // Whether a recording may vote. Where all may, no row is read.
    pub fn may_vote(self, id: u32) -> bool
        requires { HasRow self.refs.now id }
        ensures { result ≡ may_vote self.entry.set self.entry.refs.now id }
    {
        if self.set == 0 {
            return true;
        }
        rows::row_word(self.refs, id as usize, rows::AT_SET) == self.set
    }

    // 1 where the posting at word e votes, and 0 where not. By `usize::from` the compiler doesn't make a loop of its own for queries in which all vote, and
    // counting takes up to 1.6 times as long.
    pub fn votes_at(self, posts: &[u32], e: usize) -> usize
        requires { (e + 1 < length posts.now) × HasRow self.refs.now (slice_index posts.now (e + 1)) }
        ensures { (result ≡ when (may_vote self.entry.set self.entry.refs.now (slice_index posts.now (e + 1))) 1) × (result ≤ 1) }
    {
        if self.may_vote(posts[e + 1]) { 1 } else { 0 }
    }

    // How many of the n postings, none or one, that stand under a key at word a vote. Where all may, nothing is read; else there is no branch on n.
    pub fn first_votes(self, posts: &[u32], last: usize, a: usize, n: usize) -> usize
        requires { (a < last → (a + 1 < length posts.now) × HasRow self.refs.now (slice_index posts.now (a + 1))) × (last ≤ a → n ≡ 0) × (n ≤ 1) }
        ensures { (result ≡ when (may_vote self.entry.set self.entry.refs.now (slice_index posts.now (a + 1))) n) × (result ≤ n) }
    {
        if self.set == 0 {
            return n;
        }
        if a < last {
            return n * self.votes_at(posts, a);
        }
        0
    }
}

// The postings, W words each, in which query hashes, H words each, are looked up.
#[derive(Clone, Copy)]
pub struct Search<'a, const W: usize, const H: usize> {
    pub posts: &'a [u32],
    pub count: usize,
    pub hashes: &'a [u32],
    pub hash_count: usize,
    pub ghost sought: { Sought posts.now W count hashes.now H hash_count },
}

impl<'a, const W: usize, const H: usize> Search<'a, W, H> {
    // Three levels of the search, for all hashes: a window of `len` postings becomes one of an eighth as many. Three at a time spare reads and
    // writes of the starts.
    fn narrow(self, starts: &mut [u32], len: u32)
        requires { (0 < len) × (len ≤ self.count) × Windows self.posts.now W self.count self.hashes.now H self.hash_count len starts.old }
        ensures { Windows self.entry.posts.now W self.entry.count self.entry.hashes.now H self.entry.hash_count (len / 2 / 2 / 2) starts.new }
    {
        let width = W as u32;
        let rest = len / 2;
        let last = rest / 2;
        let half = width * (len - rest);
        let quarter = width * (rest - last);
        let eighth = width * (last - last / 2);
        let a = tail(self.posts, width, half);
        let b = tail(self.posts, width, quarter);
        let c = tail(self.posts, width, eighth);
        for i in 0..self.hash_count {
            let key = self.hashes[H * i];
            let at = moved(a, starts[i], half, key);
            let to = moved(b, at, quarter, key);
            starts[i] = moved(c, to, eighth, key);
        }
    }

    // The keys of the hashes go to `starts`.
    fn copy_keys(self, starts: &mut [u32])
        requires { self.hash_count ≤ length starts.old }
        ensures { (i : ℕ) → i < self.entry.hash_count → slice_index starts.new i ≡ key_at self.entry.hashes.now H i }
    {
        for i in 0..self.hash_count {
            starts[i] = self.hashes[H * i];
        }
    }

    // Pivot j of the first three levels: the key of the last one of the first j * step postings.
    fn pivot(self, step: usize, j: usize) -> u32
        requires { (1 ≤ j * step) × (j * step ≤ self.count) }
        ensures { result ≡ key_at self.entry.posts.now W (j * step - 1) }
    {
        self.posts[W * (j * step - 1)]
    }

    // The first three levels of the search look at the same seven postings for all hashes: a hash's window begins behind as many eighths as have a last
    // posting below its key. Yields how many postings a window has. With fewer than eight postings each window has all of them.
    fn first_windows(self, starts: &mut [u32]) -> u32
        requires { Zeros self.hash_count starts.old }
        ensures { Windows self.entry.posts.now W self.entry.count self.entry.hashes.now H self.entry.hash_count result starts.new × (result ≤ self.entry.count) }
    {
        if self.count < 8 {
            return self.count as u32;
        }
        let step = self.count / 8;
        let size = (W * step) as u32;
        // The keys that end the first seven eighths of the postings.
        let pivots = [
            self.pivot(step, 1),
            self.pivot(step, 2),
            self.pivot(step, 3),
            self.pivot(step, 4),
            self.pivot(step, 5),
            self.pivot(step, 6),
            self.pivot(step, 7),
        ];
        self.copy_keys(starts);
        spread(starts, self.hash_count, pivots, size);
        (self.count - 7 * step) as u32
    }

    // Where the postings of each hash begin. Here and below, slices with a word for each hash may be longer: callers have arrays of set sizes.
    pub fn seek(self, starts: &mut [u32])
        requires { Zeros self.hash_count starts.old }
        ensures { Starts self.entry.posts.now W self.entry.count self.entry.hashes.now H self.entry.hash_count starts.new }
    {
        let mut len = self.first_windows(starts);
        // It steps by three levels.
        while 0 < len {
            self.narrow(starts, len);
            len = len / 2 / 2 / 2;
        }
    }

    // 1 where the key has postings, of which the first stands at word a, and 0 where it has none. It has no branch on the key: one query hash in a
    // few meets nothing, which can't be predicted.
    fn first_under(self, a: usize, key: u32) -> usize
        requires { a ≡ W * first_at self.posts.now W self.count key }
        ensures { result ≡ when (nat_lt (first_at self.entry.posts.now W self.entry.count key) (first_at self.entry.posts.now W self.entry.count (key + 1))) 1 }
    {
        if a < W * self.count {
            return (1 - step(key, self.posts[a], 1)) as usize;
        }
        0
    }

    // How many postings that vote the hashes meet, held at one more than the room: the counting ends at the vote that passes it. Where it is not
    // passed, `ends` says where the postings of each hash end, whoever they are of.
    pub fn meet(self, ends: &mut [u32], starts: &[u32], voters: Voters, room: usize) -> usize
        requires { Starts self.posts.now W self.count self.hashes.now H self.hash_count starts.now × (self.hash_count ≤ length starts.now) × (self.hash_count ≤ length ends.old) × (room ≤ 1000000) × Rowed voters.refs.now self.posts.now W self.count }
        ensures value { result ≡ min (room + 1) (met (voting voters.entry.set voters.entry.refs.now (entries W self.entry.count self.entry.posts.now)) (entries H self.entry.hash_count self.entry.hashes.now)) }
        ensures ends { result ≤ room → Ends self.entry.posts.now W self.entry.count self.entry.hashes.now H self.entry.hash_count ends.new }
    {
        let last = W * self.count;
        let mut v = 0;
        'hashes: for i in 0..self.hash_count {
            let key = self.hashes[H * i];
            let a = starts[i] as usize;
            let n = self.first_under(a, key);
            v += voters.first_votes(self.posts, last, a, n);
            if room < v {
                break 'hashes;
            }
            let mut e = a + W * n;
            // It steps by postings.
            while is_under(self.posts, last, e, key) {
                v += voters.votes_at(self.posts, e);
                if room < v {
                    break 'hashes;
                }
                e += W;
            }
            ends[i] = e as u32;
        }
        v
    }

    // The postings under a key, from word a to before word e.
    pub fn part_of(self, a: u32, e: u32, key: u32) -> &'a [u32]
        requires { (a ≡ W * first_at self.posts.now W self.count key) × (e ≡ W * first_at self.posts.now W self.count (key + 1)) }
        ensures { result.now ≡ flat (under key_of key (entries W self.entry.count self.entry.posts.now)) }
    {
        part_of(self.posts, W, self.count, a, e, key)
    }
}

// A query hash that votes with postings of W words.
pub trait Votes<const W: usize>: Copy {
    // The words of its votes, none or one, with a posting.
    ghost words_with: { Self → List ℕ → List ℤ };

    // They go to the words from `at` on. Yields where they end.
    fn put(self, s: &mut [i64], at: usize, posting: &[u32; W]) -> usize
        requires { (slice_index posting.now 1 < 2 ^ 12) × (at + length (words_with self posting.now) ≤ length s.old) }
        ensures { (result ≡ at + length (words_with self posting.now)) × (take result s.new ≡ take at s.old ++ words_with self posting.now) };
}

// The votes of a query hash with those of the postings that vote go to the words from `at` on. Yields where they end.
pub fn gather_part<const W: usize, H: Votes<W>>(
    s: &mut [i64],
    at: usize,
    voters: Voters,
    postings: &[[u32; W]],
    hash: H,
) -> usize
    requires { (1 < W) × (W < 2 ^ 32) × All (λ e. HasRow voters.refs.now (slice_index e 1)) postings.now × Ids postings.now
        × (at + length (words_by (H.words_with hash) (voting voters.set voters.refs.now postings.now)) ≤ length s.old) }
    ensures { (result ≡ at + length (words_by (H.words_with hash) (voting voters.entry.set voters.entry.refs.now postings.now)))
        × (take result s.new ≡ take at s.old ++ words_by (H.words_with hash) (voting voters.entry.set voters.entry.refs.now postings.now)) }
{
    let mut v = at;
    for posting in postings {
        if voters.may_vote(posting[1]) {
            v = hash.put(s, v, posting);
        }
    }
    v
}
