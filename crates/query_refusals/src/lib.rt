// The refusals of a query that come before its votes are counted, of either index.
#![tactic(auto)]

ghost use Rattle.std.specs.Prelude.{◌≡◌, ◌≤◌};
ghost use Rattle.model.specs.Calls.{scratch_listed};
ghost use Rattle.refusals.specs.Numbers.{number_in};
ghost use Rattle.soundness.specs.Scan.{words};
ghost use Rattle.query_refusals.specs.Early.{early_refusal};

use refusals::Refusal;
use soundness::Store;

// The most hashes that a query has.
const QUERY_MOST: usize = 2048;

// The most votes that a scratch has words for.
const VOTES_MOST: usize = 1_000_000;

// Whether n words are whole votes of v words, and not too many.
#[tactic(auto, unfolding(model::specs::Calls::scratch_listed))]
fn is_whole(n: usize, v: usize) -> bool
    requires { 1 ≤ v }
    ensures { result ≡ scratch_listed v n }
{
    n % v == 0 && n / v <= VOTES_MOST
}

// Why a query is refused before its votes are counted: `scratch` words are lent, `per_vote` for a vote; `beyond` says whether a setting is
// beyond its limit, and `set` is the set that is asked for.
pub fn of_query(
    store: Store,
    scratch: usize,
    per_vote: usize,
    hashes: &[u32],
    beyond: bool,
    set: u32,
) -> Result<(), Refusal>
    requires { 1 ≤ per_vote }
    ensures { number_in result
        ≡ early_refusal store.entry.width per_vote (words store.entry.refs.now store.entry.posts.now store.entry.stops.now) scratch hashes.now beyond set }
{
    if !is_whole(scratch, per_vote) {
        return Err(Refusal::Unlisted);
    }
    store.refusal()?;
    if rows::is_malformed(hashes, store.width, QUERY_MOST) {
        return Err(Refusal::Malformed);
    }
    if beyond {
        return Err(Refusal::Setting);
    }
    if rows::SET_MOST < set {
        return Err(Refusal::Set);
    }
    Ok(())
}
