// Sorted slices: the first entry at a key, the part under one key, and words of scratch.
#![tactic(auto)]

ghost use Rattle.std.specs.Prelude.{◌≡◌, true, ◌+◌, ◌*◌, ◌-◌, ◌≤◌, ◌<◌, ◌^◌, pos, length, get_or, take, set, replicate};
ghost use Rattle.lists.specs.Lists.{flat, member};
ghost use Rattle.lists.specs.Entries.{entries, key_of, key_at, keys_ascend};
ghost use Rattle.lists.specs.Keys.{under, Ascending};
ghost use Rattle.maps.specs.Words.{nat_of};
ghost use Rattle.maps.specs.Entries.{first_at, Split};
ghost use Rattle.maps.specs.Puts.{entry_of, put};

// The key of entry i, of entries w words wide.
pub fn key_at(posts: &[u32], w: usize, i: usize) -> u32
    requires { w * i < length posts.now }
    ensures { result ≡ key_at posts.now w i }
{
    posts[w * i]
}

// The hash at place j, of v words, goes to posts at `to`, as an entry of recording id.
pub fn put_entry(posts: &mut [u32], to: usize, hashes: &[u32], v: usize, j: usize, id: u32)
    requires { (1 ≤ v) × (v * j + v ≤ length hashes.now) × (to + (v + 1) ≤ length posts.old) }
    ensures { posts.new ≡ put posts.old to (entry_of v hashes.now id j) }
{
    let from = v * j;
    posts[to] = hashes[from];
    posts[to + 1] = id;
    slices::copy_words(posts, to + 2, hashes, from + 1, v - 1);
}

// Whether the keys of the first p entries ascend.
pub fn keys_ascend(posts: &[u32], w: usize, p: usize) -> bool
    requires { (1 ≤ w) × (w * p ≤ length posts.now) }
    ensures { result ≡ keys_ascend posts.now w p }
{
    for i in 1..p {
        if key_at(posts, w, i) < key_at(posts, w, i - 1) {
            return false;
        }
    }
    true
}

// The first of the entries from `from` below `to` whose key is at least `key`, by halving. The library's `partition_point`
// halves a slice of keys, and here a key is followed by the other words of its entry.
fn search(posts: &[u32], w: usize, from: usize, to: usize, key: u64) -> usize
    requires { (1 ≤ w) × (from ≤ to) × (w * to ≤ length posts.now) × (keys_ascend posts.now w to ≡ true) }
    ensures { Split posts.now w from to key result }
{
    let mut lo = from;
    let mut hi = to;
    while lo < hi {
        let mid = lo + (hi - lo) / 2;
        if u64::from(key_at(posts, w, mid)) < key {
            lo = mid + 1;
        } else {
            hi = mid;
        }
    }
    lo
}

// The first of the first p entries whose key is at least `key`, which has 64 bits: one more than a posting's key gives
// where its entries end.
pub fn first_at(posts: &[u32], w: usize, p: usize, key: u64) -> usize
    requires { (1 ≤ w) × (w * p ≤ length posts.now) × (keys_ascend posts.now w p ≡ true) }
    ensures { result ≡ first_at posts.now w p key }
{
    search(posts, w, 0, p, key)
}

// The same, where it is known not to stand before `from`: the reach of the search doubles until it is passed, so that
// what is near is found soon.
pub fn first_from(posts: &[u32], w: usize, p: usize, from: usize, key: u64) -> usize
    requires { (1 ≤ w) × (w * p ≤ length posts.now) × (keys_ascend posts.now w p ≡ true) × (from ≤ first_at posts.now w p key) }
    ensures { result ≡ first_at posts.now w p key }
{
    let mut lo = from;
    let mut reach = 1;
    while reach < p - lo {
        let at = lo + reach;
        if key <= u64::from(key_at(posts, w, at)) {
            return search(posts, w, lo, at, key);
        }
        lo = at + 1;
        reach = 2 * reach;
    }
    search(posts, w, lo, p, key)
}

// Whether a key is among the first n of s, which ascend.
pub fn contains(s: &[u32], n: usize, key: u32) -> bool
    requires { (n ≤ length s.now) × Ascending (λ k. k) (take n s.now) }
    ensures { result ≡ member key (take n s.now) }
{
    s[..n].binary_search(&key).is_ok()
}

// Where the entries of a key end, of which the first stands at a, or would.
fn end_from(posts: &[u32], w: usize, p: usize, a: usize, key: u32) -> usize
    requires { (1 ≤ w) × (w * p ≤ length posts.now) × (keys_ascend posts.now w p ≡ true) × (a ≡ first_at posts.now w p key) }
    ensures { result ≡ first_at posts.now w p (key + 1) }
{
    for e in a..p {
        if key_at(posts, w, e) != key {
            return e;
        }
    }
    p
}

// The postings under a key: a part that starts wherever the key begins, which is at entry a.
pub fn part_at(posts: &[u32], w: usize, p: usize, a: u32, key: u32) -> &[u32]
    requires { (1 ≤ w) × (w * p ≤ length posts.now) × (keys_ascend posts.now w p ≡ true) × (a ≡ first_at posts.now w p key) }
    ensures { result.now ≡ flat (under key_of key (entries w p posts.now)) }
{
    let from = a as usize;
    let e = end_from(posts, w, p, from, key);
    &posts[w * from..w * e]
}

// The natural number in word i, 0 where the word is negative.
pub fn word_at(s: &[i64], i: usize) -> u64
    requires { i < length s.now }
    ensures { (result ≡ nat_of (get_or s.now i (pos 0))) × (result < 2 ^ 63) }
{
    u64::try_from(s[i]).unwrap_or(0)
}

// Stores a natural number in word i.
pub fn put_word(s: &mut [i64], i: usize, v: u64)
    requires { (i < length s.old) × (v < 2 ^ 63) }
    ensures { s.new ≡ set s.old i (pos v) }
{
    s[i] = v as i64;
}

// Sets every word to 0, as a query leaves its scratch.
pub fn zero_words(s: &mut [i64])
    ensures { s.new ≡ replicate (length s.old) (pos 0) }
{
    s.fill(0);
}
