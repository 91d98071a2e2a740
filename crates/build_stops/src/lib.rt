// Keys with more hashes than the limit: how many there are, and the entries on them dropped.
#![tactic(auto)]

ghost use Rattle.std.specs.Prelude.{◌≡◌, true, cond, List, ◌++◌, map, ℕ, ◌+◌, ◌*◌, ◌-◌, ◌≤◌, ◌<◌, eqb, ltb, pos, length, take};
ghost use Rattle.lists.specs.Lists.{flat};
ghost use Rattle.lists.specs.Keys.{Sorted};
ghost use Rattle.lists.specs.Entries.{keys_ascend, entries};
ghost use Rattle.build_ranges.specs.Codes.{in_order};
ghost use Rattle.build_stops.specs.Over.{key_in, over_keys, Counted, keys_of, kept, RunEnd};

use build_ranges::{Arrivals, TOP, next_width};

// How often a key stood, with one time more.
fn next_run(last: u64, run: usize, key: u64) -> usize
    requires { run < 0x1_0000_0000 }
    ensures { result ≡ cond (eqb key last) (run + 1) 1 }
{
    if key == last { run + 1 } else { 1 }
}

#[derive(Clone, Copy)]
struct Runs {
    key: u64,
    run: usize,
    over: usize,
}

// The runs with more codes.
fn count_runs(codes: &[i64], limit: usize, mut st: Runs) -> Runs
    requires { (limit < 0x1_0000_0000) × (st.run + length codes.now ≤ 33554432) × (st.over + length codes.now ≤ 33554432) }
    ensures { (result.run ≤ st.run + length codes.now) × (result.over ≤ st.over + length codes.now) × ((l cs : List ℕ) → codes.now ≡ map pos cs
        → Sorted (λ k. k) (l ++ map key_in cs) → Counted limit l st.key st.run st.over → Counted limit (l ++ map key_in cs) result.key result.run result.over) }
{
    for t in 0..codes.len() {
        let key = maps::word_at(codes, t) / 33554432;
        st.run = next_run(st.key, st.run, key);
        st.over += usize::from(st.run == limit + 1);
        st.key = key;
    }
    st
}

// How many keys are over the limit. Each batch but the last has 10,240 codes or more, so m hashes make at most m / 10,240 + 1 batches, and the loop takes no
// more turns. The first range is tried as if the codes were spread evenly.
pub fn over_count(arrivals: Arrivals, limit: usize) -> usize
    requires { limit < 0x1_0000_0000 }
    ensures { result ≡ length (over_keys limit (map key_in (in_order arrivals.entry.hashes.now (arrivals.entry.width - 1) arrivals.entry.lengths.now))) }
{
    let mut buf = [0i64; 40960];
    let mut st = Runs {
        key: 0x1_0000_0000,
        run: 0,
        over: 0,
    };
    // no build has more hashes than 4,096 * 8,192
    let m = (arrivals.hashes.len() / (arrivals.width - 1)).min(33554432);
    let mut lo = 0;
    let mut width = next_width(TOP, m);
    for turn in 0..build_ranges::most_batches(m) {
        if TOP <= lo {
            break;
        }
        let g = arrivals.batch(&mut buf, lo, width);
        st = count_runs(&buf[..g.n], limit, st);
        width = next_width(g.hi - lo, g.n);
        lo = g.hi;
    }
    st.over
}

// Whether more than `room` keys are over the limit. Of m hashes at most m / (limit + 1) keys are: with room for those, none is counted.
pub fn over_room(arrivals: Arrivals, limit: usize, room: usize) -> bool
    requires { limit < 0x1_0000_0000 }
    ensures { result ≡ ltb room (length (over_keys limit (map key_in (in_order arrivals.entry.hashes.now (arrivals.entry.width - 1) arrivals.entry.lengths.now)))) }
{
    let most = arrivals.hashes.len() / (arrivals.width - 1) / (limit + 1);
    room < most && room < over_count(arrivals, limit)
}

// Where the entries with the key of entry i end.
fn key_run_end(posts: &[u32], w: usize, i: usize, n: usize) -> usize
    requires { (1 ≤ w) × (i < n) × (w * n ≤ length posts.now) }
    ensures { RunEnd posts.now w i n result }
{
    let key = maps::key_at(posts, w, i);
    for e in i + 1..n {
        if maps::key_at(posts, w, e) != key {
            return e;
        }
    }
    n
}

#[derive(Clone, Copy)]
pub struct Left {
    pub postings: usize,
    pub stopped: usize,
}

// Of n entries in key order those on keys over the limit go, and their keys are stopped.
pub fn stop_runs(posts: &mut [u32], w: usize, n: usize, stops: &mut [u32], limit: usize) -> Left
    requires { (1 ≤ w) × (w * n ≤ length posts.old) × (keys_ascend posts.old w n ≡ true)
        × (length (over_keys limit (keys_of (entries w n posts.old))) ≤ length stops.old) }
    ensures { (result.postings ≡ length (kept limit (entries w n posts.old)))
        × (result.postings ≤ n)
        × (take (w * result.postings) posts.new ≡ flat (kept limit (entries w n posts.old)))
        × (result.stopped ≡ length (over_keys limit (keys_of (entries w n posts.old))))
        × (take result.stopped stops.new ≡ over_keys limit (keys_of (entries w n posts.old))) }
{
    let mut i = 0;
    let mut q = 0;
    let mut k = 0;
    // a step takes the entries of one key
    while i < n {
        let e = key_run_end(posts, w, i, n);
        if limit < e - i {
            stops[k] = maps::key_at(posts, w, i);
            k += 1;
        } else {
            slices::move_down(posts, w * q, w * i, w * (e - i));
            q += e - i;
        }
        i = e;
    }
    Left {
        postings: q,
        stopped: k,
    }
}
