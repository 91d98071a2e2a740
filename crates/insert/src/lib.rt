// The insertion of a recording into a lent store.
#![tactic(auto)]

ghost use Rattle.std.specs.Prelude.{◌≡◌, cond, [], ◌∷◌, ◌+◌, ◌*◌, ◌-◌, ◌/◌, ◌^◌, ◌≤◌, ◌<◌, eqb, ltb, length, get_or, take};
ghost use Rattle.lists.specs.Lists.{flat};
ghost use Rattle.lists.specs.Keys.{place_all};
ghost use Rattle.lists.specs.Entries.{padded};
ghost use Rattle.model.specs.Fingerprints.{hashes_of};
ghost use Rattle.model.specs.Rows.{has_rmax, largest_anchor, canonical};
ghost use Rattle.model.specs.Soundness.{row_word};
ghost use Rattle.model.specs.Run.{run_insert};
ghost use Rattle.model.specs.Words.{head_width, row_width, at_vacant};
ghost use Rattle.postings.specs.Retain.{staying};
ghost use Rattle.insert_merge.specs.Order.{places_in};
ghost use Rattle.soundness.specs.Scan.{words};
ghost use Rattle.insert.specs.Writing.{Placing, placed_entries, Stopping, recorded, Recording, id_in, postings_in, Writable};
ghost use Rattle.insert.specs.Planned.{Plannable, Planned};
ghost use Rattle.insert.specs.Insert.{insertion_answer, Ready, no_row};

use refusals::Refusal;
use rows::{Counts, Row};
use soundness::Store;

// The first p entries, less those of the keys in overs, with the hashes at the places in order placed among them, less those of such keys,
// as entries of recording id; how many there are. The new entries are laid out in `news` first.
fn place_news(
    posts: &mut [u32],
    w: usize,
    p: usize,
    hashes: &[u32],
    id: u32,
    order: &[i64],
    overs: &[u32],
    news: &mut [u32],
) -> usize
    requires { Placing w p posts.old hashes.now order.now (length order.now) overs.now (length overs.now) × (40960 ≤ length news.old) }
    ensures value { result ≡ length (placed_entries w p posts.old hashes.now id (places_in (length order.now) order.now) (take (length overs.now) overs.now)) }
    ensures posts_after { posts.new ≡ padded (length posts.old)
        (flat (placed_entries w p posts.old hashes.now id (places_in (length order.now) order.now) (take (length overs.now) overs.now))) }
{
    let r = insert_merge::write_news(news, order, hashes, w - 1, id, overs);
    let q = postings::retain(posts, w, p, 0, overs, &[]);
    insert_merge::merge_in(posts, w, q, &news[..w * r]);
    q + r
}

// The keys in overs are placed among the first k of stops.
fn stop_keys(stops: &mut [u32], k: usize, overs: &[u32])
    requires { Stopping stops.old k overs.now (length overs.now) }
    ensures { stops.new ≡ padded (length stops.old) (place_all (λ x. x) (take (length overs.now) overs.now) (take k stops.old)) }
{
    insert_merge::merge_in(stops, 1, k, overs);
}

// The id of a new recording, from what is in use.
fn new_id(refs: &[u32], c: Counts) -> usize
    requires { (c.vacant ≤ c.rows) × (head_width + row_width * c.rows ≤ length refs.now) }
    ensures { result ≡ cond (eqb c.vacant 0) c.rows (row_word refs.now (c.vacant - 1) at_vacant) }
{
    if c.vacant == 0 {
        return c.rows;
    }
    rows::row_word(refs, c.vacant - 1, rows::AT_VACANT) as usize
}

// Recording id is written into the references, from what is in use; p postings and k stopped keys are left.
#[tactic(auto, using(std::proofs::lemmas::Bool::Decides::nat_tests), unfolding(crate::specs::Writing::recorded))]
fn put_recording(refs: &mut [u32], c: Counts, id: usize, row: Row, p: usize, k: usize)
    requires { Recording refs.old c.rows c.vacant id p k }
    ensures { refs.new ≡ recorded refs.old c.rows c.vacant id row.rate row.rmax row.set p k }
{
    let n = c.rows;
    let v = c.vacant;
    if v == 0 {
        rows::put_row(refs, id, row, 1);
        rows::put_header(refs, (n + 1) as u32, 0, p as u32, k as u32);
    } else {
        rows::put_entry(refs, v - 1, 0);
        rows::put_row(refs, id, row, 1);
        rows::put_header(refs, n as u32, (v - 1) as u32, p as u32, k as u32);
    }
}

// What an insertion would do: how many hashes are not skipped, and how many keys are stopped.
#[derive(Clone, Copy)]
pub struct Plan {
    pub hashes: usize,
    pub keys: usize,
}

// A plan for which there is no room, and why. Where the postings have none, no key has been looked at, and `keys` is 0.
#[derive(Clone, Copy)]
pub struct NoRoom {
    pub refusal: Refusal,
    pub plan: Plan,
}

impl From<NoRoom> for Refusal {
    ghost from_gives = { λ n r. r ≡ n.refusal };

    fn from(n: NoRoom) -> Refusal {
        n.refusal
    }
}

// Writes a recording that is accepted: the hashes at the places in order, and the keys in overs are stopped; its id.
pub fn write_recording(
    refs: &mut [u32],
    posts: &mut [u32],
    stops: &mut [u32],
    hashes: &[u32],
    w: usize,
    rate: u32,
    set: u32,
    order: &[i64],
    overs: &[u32],
    news: &mut [u32],
) -> u32
    requires { Writable w refs.old posts.old stops.old hashes.now order.now (length order.now) overs.now (length overs.now) × (40960 ≤ length news.old) }
    ensures value { result ≡ id_in refs.old }
    ensures refs_after { refs.new ≡ recorded refs.old (get_or refs.old 0 0) (get_or refs.old 1 0) (id_in refs.old) (canonical rate)
        (cond (has_rmax w) (largest_anchor (hashes_of w hashes.now)) 0) set
        (length (postings_in w refs.old posts.old hashes.now order.now (length order.now) overs.now (length overs.now))) (get_or refs.old 3 0 + length overs.now) }
    ensures posts_after { posts.new ≡ padded (length posts.old)
        (flat (postings_in w refs.old posts.old hashes.now order.now (length order.now) overs.now (length overs.now))) }
    ensures stops_after { stops.new ≡ padded (length stops.old) (place_all (λ x. x) (take (length overs.now) overs.now) (take (get_or refs.old 3 0) stops.old)) }
{
    let h = rows::header(refs);
    let id = new_id(refs, h);
    let q = place_news(posts, w, h.postings, hashes, id as u32, order, overs, news);
    stop_keys(stops, h.stopped, overs);
    let row = rows::row_of(hashes, w, rate, set);
    put_recording(refs, h, id, row, q, h.stopped + overs.len());
    id as u32
}

// Whether there is neither a vacant id nor a row that is not in use.
#[tactic(auto, using(std::proofs::lemmas::Bool::Decides::nat_tests), unfolding(crate::specs::Insert::no_row))]
fn is_full(refs: &[u32]) -> bool
    requires { head_width ≤ length refs.now }
    ensures { result ≡ no_row refs.now }
{
    let h = rows::header(refs);
    h.vacant == 0 && h.rows == (refs.len() - rows::HEAD_WIDTH) / rows::ROW_WIDTH
}

// Whether m more postings do not fit beside so many others.
fn lacks_room(posts: &[u32], w: usize, others: usize, m: usize) -> bool
    requires { (2 ≤ w) × (others ≤ length posts.now) × (m < 2 ^ 32) }
    ensures { result ≡ ltb (length posts.now / w) (others + m) }
{
    posts.len() / w < others + m
}

// Plans an insertion into a store in which so much is in use, less the postings of recording id, beside which there are so many others: whether
// there is room, the hashes that are not skipped, in order, and the keys that it stops. These are found where there is no room for the keys, too.
pub fn plan_insertion(
    order: &mut [i64],
    overs: &mut [u32],
    hashes: &[u32],
    w: usize,
    posts: &[u32],
    stops: &[u32],
    c: Counts,
    id: u32,
    others: usize,
    limit: u32,
) -> Result<Plan, NoRoom>
    requires plannable { Plannable w c.postings c.stopped posts.now stops.now hashes.now }
    requires others_value { others ≡ length (staying w c.postings 1 (id ∷ []) posts.now) }
    requires in_bounds { (16384 ≤ length order.old) × (8192 ≤ length overs.old) }
    ensures { Planned w limit (length posts.now / w) (length stops.now) (staying w c.postings 1 (id ∷ []) posts.now)
        (take c.stopped stops.now) hashes.now order.new overs.new result }
{
    let k = c.stopped;
    let m = insert_merge::collect(order, hashes, w - 1, &stops[..k]);
    if lacks_room(posts, w, others, m) {
        return Err(NoRoom {
            refusal: Refusal::NoPostings,
            plan: Plan { hashes: m, keys: 0 },
        });
    }
    sorting::sort_words(order, m);
    let n = insert_merge::over_keys(overs, &order[..m], posts, w, c.postings, limit, id);
    let plan = Plan { hashes: m, keys: n };
    if stops.len() < k + n {
        return Err(NoRoom {
            refusal: Refusal::NoStops,
            plan,
        });
    }
    Ok(plan)
}

// An insertion into a sound store that has a row left, of a fingerprint that is well formed, under a set that is allowed.
fn admit(
    refs: &mut [u32],
    posts: &mut [u32],
    stops: &mut [u32],
    hashes: &[u32],
    w: usize,
    rate: u32,
    limit: u32,
    set: u32,
) -> Result<u32, Refusal>
    requires { Ready w (words refs.old posts.old stops.old) hashes.now set }
    ensures { (insertion_answer result, words refs.new posts.new stops.new)
        ≡ run_insert w (words refs.old posts.old stops.old) limit rate set hashes.now }
{
    let h = rows::header(refs);
    let mut order = [0i64; 16384];
    let mut overs = [0u32; 8192];
    // no posting has the number of rows as its id
    let plan = plan_insertion(
        &mut order,
        &mut overs,
        hashes,
        w,
        posts,
        stops,
        h,
        h.rows as u32,
        h.postings,
        limit,
    )?;
    let mut news = [0u32; 40960];
    Ok(write_recording(
        refs,
        posts,
        stops,
        hashes,
        w,
        rate,
        set,
        &order[..plan.hashes],
        &overs[..plan.keys],
        &mut news,
    ))
}

// Inserts a recording of a set with the hashes of a fingerprint, w - 1 words each. A key that then has more postings than the limit is stopped.
// The three slices stay three parameters here and below: of a struct that holds a `&mut`, each function that takes it has to promise for each
// field that it still holds the same reference, and to speak of its words by way of that promise.
pub fn insert(
    refs: &mut [u32],
    posts: &mut [u32],
    stops: &mut [u32],
    hashes: &[u32],
    w: usize,
    rate: u32,
    limit: u32,
    set: u32,
) -> Result<u32, Refusal>
    requires { (3 ≤ w) × (w ≤ 5) }
    ensures { (insertion_answer result, words refs.new posts.new stops.new)
        ≡ run_insert w (words refs.old posts.old stops.old) limit rate set hashes.now }
{
    let store = Store {
        refs,
        posts,
        stops,
        width: w,
    };
    store.refusal()?;
    if rows::is_malformed(hashes, w, 8192) {
        return Err(Refusal::Malformed);
    }
    if !rows::is_set(set) {
        return Err(Refusal::Set);
    }
    if is_full(refs) {
        return Err(Refusal::NoRow);
    }
    admit(refs, posts, stops, hashes, w, rate, limit, set)
}
