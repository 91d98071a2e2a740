// An index on a lent store: three slices of words, as documents 01 ("The lent store") and 02 ("One") lay them out. No call asks anything of what it is lent:
// it is worked on, or refused and left as it was. A contract is one equation: the answer, with the store at exit, is what `run scheme` says of the
// store at entry and the call. That is the model's account of the calls (crate `model`, specs/Run.antt), of which specs/Demand3.antt of crates
// `wang` and `panako` states the claim about histories.
#![tactic(auto)]

ghost use Rattle.std.specs.Prelude.{◌≡◌, ℕ, List, ◌≤◌, length, Float};
ghost use Rattle.model.specs.Query.{Scheme, Query};
ghost use Rattle.model.specs.Calls.{build, insert, remove, replace, live_count, query};
ghost use Rattle.model.specs.Run.{run};
ghost use Rattle.soundness.specs.Scan.{lent, words};
ghost use Rattle.build.specs.Answers.{building_answer};
ghost use Rattle.insert.specs.Insert.{insertion_answer};
ghost use Rattle.remove.specs.Answers.{count_answer, removal_answer};
ghost use Rattle.query_rank.specs.Answers.{finding_answer, scratch_after};

use query_rank::Found;
use refusals::Refusal;
use soundness::Store;

// What Wang and Panako each have of their own, and the calls that follow from it.
pub trait Index {
    // The words of a posting.
    const WIDTH: usize;

    // A query's settings.
    type Config;

    ghost WIDTH: { ℕ };

    ghost scheme: { Scheme };

    // What a query asks: settings, rate, set, the words of its hashes, and how many words of scratch are lent.
    ghost asked: { Self.Config → Float → ℕ → List ℕ → ℕ → Query scheme };

    // The best recording of a set, 0 for all, for a query of hashes with its result. The store is left as it is; of the scratch an accepted query leaves
    // zeros.
    fn query(
        refs: &[u32],
        postings: &[u32],
        stopped: &[u32],
        scratch: &mut [i64],
        hashes: &[u32],
        frames_per_sec: f32,
        cfg: Self::Config,
        set: u32,
    ) -> Result<Option<Found>, Refusal>
        ensures stopped_value { (finding_answer result, lent refs.entry postings.entry stopped.entry)
            ≡ run scheme (lent refs.entry postings.entry stopped.entry)
            (query (asked cfg frames_per_sec set hashes.now (length scratch.old))) }
        ensures scratch_after { scratch.new ≡ scratch_after (finding_answer result) scratch.old };

    // Overwrites the store with the recordings whose hashes stand in one slice, one length, one rate's bits and one set to a recording. A key with more
    // postings than the limit is stopped.
    fn build(
        refs: &mut [u32],
        postings: &mut [u32],
        stopped: &mut [u32],
        hashes: &[u32],
        lengths: &[u32],
        rates: &[u32],
        limit: u32,
        sets: &[u32],
    ) -> Result<(), Refusal>
        ensures { (building_answer result, words refs.new postings.new stopped.new)
            ≡ run scheme (words refs.old postings.old stopped.old)
            (build limit hashes.now lengths.now rates.now sets.now) }
    {
        let width = Self::WIDTH;
        build::build(
            refs, postings, stopped, hashes, lengths, rates, width, limit, sets,
        )
    }

    // Stores one more recording, of a set, and answers its id.
    fn insert(
        refs: &mut [u32],
        postings: &mut [u32],
        stopped: &mut [u32],
        hashes: &[u32],
        rate: u32,
        limit: u32,
        set: u32,
    ) -> Result<u32, Refusal>
        ensures { (insertion_answer result, words refs.new postings.new stopped.new)
            ≡ run scheme (words refs.old postings.old stopped.old) (insert limit rate set hashes.now) }
    {
        let width = Self::WIDTH;
        insert::insert(refs, postings, stopped, hashes, width, rate, limit, set)
    }

    // Removes a recording, and answers whether it was live.
    fn remove(
        refs: &mut [u32],
        postings: &mut [u32],
        stopped: &[u32],
        id: u32,
    ) -> Result<bool, Refusal>
        ensures { (removal_answer result, words refs.new postings.new stopped.now)
            ≡ run scheme (words refs.old postings.old stopped.now) (remove id) }
    {
        remove::remove(refs, postings, stopped, Self::WIDTH, id)
    }

    // Swaps a recording for a corrected take, which keeps its id and its set, and answers the id.
    fn replace(
        refs: &mut [u32],
        postings: &mut [u32],
        stopped: &mut [u32],
        id: u32,
        hashes: &[u32],
        rate: u32,
        limit: u32,
    ) -> Result<u32, Refusal>
        ensures { (insertion_answer result, words refs.new postings.new stopped.new)
            ≡ run scheme (words refs.old postings.old stopped.old) (replace id limit rate hashes.now) }
    {
        let width = Self::WIDTH;
        replace::replace(refs, postings, stopped, hashes, width, id, rate, limit)
    }

    // How many recordings are live.
    fn live_count(refs: &[u32], postings: &[u32], stopped: &[u32]) -> Result<u32, Refusal>
        ensures { (count_answer result, lent refs.entry postings.entry stopped.entry)
            ≡ run scheme (lent refs.entry postings.entry stopped.entry) live_count }
    {
        remove::live_count(Store {
            refs,
            posts: postings,
            stops: stopped,
            width: Self::WIDTH,
        })
    }

    // The words of a posting are the scheme's.
    ghost width: { WIDTH ≡ scheme.width };

    ghost wide: { (3 ≤ scheme.width) × (scheme.width ≤ 5) };
}
