// live_count and remove on the lent store. The width w of a posting is 3 (Wang) or 5 (Panako).
#![tactic(auto)]

ghost use Rattle.std.specs.Prelude.{◌≡◌, ◌+◌, ◌*◌, ◌≤◌, length, get_or, eqb};
ghost use Rattle.postings.specs.Retain.{Listed};
ghost use Rattle.model.specs.Soundness.{live_id};
ghost use Rattle.model.specs.Run.{run_count, run_remove};
ghost use Rattle.soundness.specs.Scan.{words};
ghost use Rattle.model.specs.Words.{head_width, row_width};
ghost use Rattle.remove.specs.Answers.{count_answer, removal_answer};
ghost use Rattle.remove.specs.Erasing.{vacated, others, others_left, Erasable};

use refusals::Refusal;
use rows::{AT_LIVE, NO_RATE, Row};
use soundness::Store;

// How many recordings are live.
pub fn live_count(store: Store) -> Result<u32, Refusal>
    requires { store.width ≤ 5 }
    ensures { (count_answer result, words store.entry.refs.now store.entry.posts.now store.entry.stops.now)
        ≡ run_count store.entry.width (words store.entry.refs.now store.entry.posts.now store.entry.stops.now) }
{
    store.refusal()?;
    Ok(store.refs[0] - store.refs[1])
}

// Whether id is live.
#[tactic(auto, using(std::proofs::lemmas::Bool::Decides::nat_tests), unfolding(model::specs::Soundness::live_id))]
pub fn is_live(refs: &[u32], id: u32) -> bool
    requires { (head_width ≤ length refs.now) × (head_width + row_width * get_or refs.now 0 0 ≤ length refs.now) }
    ensures { result ≡ live_id refs.now (get_or refs.now 0 0) id }
{
    id < refs[0] && rows::row_word(refs, id as usize, AT_LIVE) == 1
}

// Row id becomes dead and id the last of the vacant entries; `held` postings are left.
#[tactic(auto, unfolding(crate::specs::Erasing::vacated))]
fn vacate(refs: &mut [u32], id: u32, held: u32)
    requires { (head_width + row_width * (id + 1) ≤ length refs.old) × (head_width + row_width * (get_or refs.old 1 0 + 1) ≤ length refs.old) × (get_or refs.old 1 0 ≤ 4096) }
    ensures { refs.new ≡ vacated refs.old id held }
{
    let n = refs[0];
    let v = refs[1];
    let k = refs[3];
    let row = Row {
        rate: NO_RATE,
        rmax: 0,
        set: 0,
    };
    rows::put_row(refs, id as usize, row, 0);
    rows::put_entry(refs, v as usize, id);
    rows::put_header(refs, n, v + 1, held, k);
}

// The postings of id go, of which a list may name the first, and it is vacated.
pub fn erase(refs: &mut [u32], posts: &mut [u32], w: usize, id: u32, list: &[u32])
    requires erasable { Erasable w refs.old posts.old id }
    requires listed { Listed (eqb id) w (get_or refs.old 2 0) 1 posts.old list.now (length list.now) }
    ensures refs_after { refs.new ≡ vacated refs.old id (length (others w refs.old posts.old id)) }
    ensures posts_after { posts.new ≡ others_left w refs.old posts.old id }
{
    let p = refs[2] as usize;
    let q = postings::retain(posts, w, p, 1, &[id], list);
    vacate(refs, id, q as u32);
}

// A recording goes, if it is live.
pub fn remove(
    refs: &mut [u32],
    posts: &mut [u32],
    stops: &[u32],
    w: usize,
    id: u32,
) -> Result<bool, Refusal>
    requires { (3 ≤ w) × (w ≤ 5) }
    ensures { (removal_answer result, words refs.new posts.new stops.now)
        ≡ run_remove w (words refs.old posts.old stops.now) id }
{
    let store = Store {
        refs,
        posts,
        stops,
        width: w,
    };
    store.refusal()?;
    if !is_live(refs, id) {
        return Ok(false);
    }
    // no place is listed
    erase(refs, posts, w, id, &[]);
    Ok(true)
}
