// The replacement of a recording in a lent store: its old take goes, and a new one is stored under its id and set.
#![tactic(auto)]

ghost use Rattle.std.specs.Prelude.{◌≡◌, ◌≤◌, length, get_or};
ghost use Rattle.model.specs.Run.{run_replace};
ghost use Rattle.postings.specs.Retain.{Noted};
ghost use Rattle.soundness.specs.Scan.{words};
ghost use Rattle.insert.specs.Insert.{insertion_answer};
ghost use Rattle.replace.specs.Replace.{Replaceable};

use refusals::Refusal;
use soundness::Store;

// A replacement in a sound store in which id is live, by a fingerprint that is well formed. The old take has `own` postings, and `list` names the first of
// them. Whether there is room is known before the first write.
fn swap(
    refs: &mut [u32],
    posts: &mut [u32],
    stops: &mut [u32],
    hashes: &[u32],
    w: usize,
    id: u32,
    rate: u32,
    limit: u32,
    own: usize,
    list: &mut [u32],
) -> Result<u32, Refusal>
    requires replaceable { Replaceable w (words refs.old posts.old stops.old) hashes.now id }
    requires noted { Noted w (get_or refs.old 2 0) 1 id posts.old (get_or refs.old 2 0) list.old own × (40960 ≤ length list.old) }
    ensures { (insertion_answer result, words refs.new posts.new stops.new)
        ≡ run_replace w (words refs.old posts.old stops.old) id limit rate hashes.now }
{
    let set = rows::row_word(refs, id as usize, rows::AT_SET);
    let h = rows::header(refs);
    let mut order = [0i64; 16384];
    let mut overs = [0u32; 8192];
    let plan = insert::plan_insertion(
        &mut order,
        &mut overs,
        hashes,
        w,
        posts,
        stops,
        h,
        id,
        h.postings - own,
        limit,
    )?;
    let listed = own.min(list.len());
    remove::erase(refs, posts, w, id, &list[..listed]);
    // the list has served, and its words take the new entries
    Ok(insert::write_recording(
        refs,
        posts,
        stops,
        hashes,
        w,
        rate,
        set,
        &order[..plan.hashes],
        &overs[..plan.keys],
        list,
    ))
}

// Replaces recording id by one with the hashes of a fingerprint, w - 1 words each. A key that then has more postings than the limit is stopped.
pub fn replace(
    refs: &mut [u32],
    posts: &mut [u32],
    stops: &mut [u32],
    hashes: &[u32],
    w: usize,
    id: u32,
    rate: u32,
    limit: u32,
) -> Result<u32, Refusal>
    requires { (3 ≤ w) × (w ≤ 5) }
    ensures { (insertion_answer result, words refs.new posts.new stops.new)
        ≡ run_replace w (words refs.old posts.old stops.old) id limit rate hashes.now }
{
    let mut list = [0u32; 40960];
    let store = Store {
        refs,
        posts,
        stops,
        width: w,
    };
    let own = store.listing(id, &mut list)?;
    if rows::is_malformed(hashes, w, 8192) {
        return Err(Refusal::Malformed);
    }
    if !remove::is_live(refs, id) {
        return Err(Refusal::NotLive);
    }
    swap(
        refs, posts, stops, hashes, w, id, rate, limit, own, &mut list,
    )
}
