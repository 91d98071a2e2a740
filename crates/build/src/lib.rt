// The build of a lent store: all hashes at once, in place of what it held.
#![tactic(auto)]

ghost use Rattle.std.specs.Prelude.{◌≡◌, ℕ, not, ◌||◌, ◌∷◌, ◌+◌, ◌*◌, ◌-◌, ◌≤◌, ◌<◌, eqb, ltb, length, get_or};
ghost use Rattle.lists.specs.Lists.{sum, some?, flat};
ghost use Rattle.lists.specs.Entries.{padded};
ghost use Rattle.build_stops.specs.Over.{over_keys, keys_of, kept};
ghost use Rattle.build_entries.specs.Laid.{laid_entries};
ghost use Rattle.refusals.specs.Numbers.{number_in};
ghost use Rattle.model.specs.Fingerprints.{malformed_build, reference_most};
ghost use Rattle.model.specs.Rows.{is_set};
ghost use Rattle.model.specs.Run.{run_build};
ghost use Rattle.soundness.specs.Scan.{words};
ghost use Rattle.model.specs.Words.{head_width, row_width};
ghost use Rattle.build.specs.Answers.{building_answer, build_refusal, rows_for};

use build_entries::Recordings;
use build_ranges::Arrivals;
use build_stops::Left;
use refusals::Refusal;
use soundness::Store;

// The words of a build as they are lent.
#[derive(Clone, Copy)]
struct Lent<'a> {
    hashes: &'a [u32],
    lengths: &'a [u32],
    rates: &'a [u32],
    sets: &'a [u32],
    ghost keys: { (i : ℕ) → get_or hashes.now i 0 < 0x1_0000_0000 },
}

// Whether no length is above 8,192 and they add up to m.
fn lengths_fit(lengths: &[u32], m: usize) -> bool
    ensures { result ≡ not (some? (λ n. ltb reference_most n) lengths.now || not (eqb (sum lengths.now) m)) }
{
    let mut total = 0;
    for n in lengths {
        let n = *n as usize;
        if 8192 < n || m - total < n {
            return false;
        }
        total += n;
    }
    total == m
}

// Whether any set is one that no recording can be of.
fn has_faulty_set(sets: &[u32]) -> bool
    ensures { result ≡ some? (λ s. not (is_set s)) sets.now }
{
    sets.iter().any(|s| !rows::is_set(*s))
}

impl Lent<'_> {
    // Whether they are malformed.
    fn is_malformed(self, w: usize) -> bool
        requires { (3 ≤ w) × (w ≤ 5) }
        ensures { result ≡ malformed_build w self.entry.hashes.now self.entry.lengths.now self.entry.rates.now self.entry.sets.now }
    {
        let v = w - 1;
        let many = self.lengths.len();
        if self.hashes.len() % v != 0 || self.rates.len() != many || self.sets.len() != many {
            return true;
        }
        !lengths_fit(self.lengths, self.hashes.len() / v)
    }

    // Why the build is refused, if it is. Nothing is written.
    fn refusal(self, store: Store, limit: u32) -> Result<(), Refusal>
        requires { store.width ≤ 5 }
        ensures { number_in result ≡ build_refusal store.entry.width (words store.entry.refs.now store.entry.posts.now store.entry.stops.now) limit
            self.entry.hashes.now self.entry.lengths.now self.entry.rates.now self.entry.sets.now }
    {
        let w = store.width;
        if !store.is_listed() {
            return Err(Refusal::Unlisted);
        }
        if self.is_malformed(w) {
            return Err(Refusal::Malformed);
        }
        if has_faulty_set(self.sets) {
            return Err(Refusal::Set);
        }
        if (store.refs.len() - rows::HEAD_WIDTH) / rows::ROW_WIDTH < self.lengths.len() {
            return Err(Refusal::NoRow);
        }
        let room = store.posts.len() / w;
        let many = self.hashes.len() / (w - 1);
        if room < many {
            return Err(Refusal::NoPostings);
        }
        let arrivals = Arrivals {
            hashes: self.hashes,
            lengths: self.lengths,
            width: w,
        };
        if build_stops::over_room(arrivals, limit as usize, store.stops.len()) {
            return Err(Refusal::NoStops);
        }
        Ok(())
    }
}

// Writes the entries of m hashes and the stopped keys. Yields how many there are of each.
fn put_postings(
    posts: &mut [u32],
    stops: &mut [u32],
    arrivals: Arrivals,
    m: usize,
    limit: usize,
) -> Left
    requires { (3 ≤ arrivals.width) × (m ≡ sum arrivals.lengths.now) × (arrivals.width * m ≤ length posts.old)
        × (length (over_keys limit (keys_of (laid_entries arrivals.hashes.now arrivals.width arrivals.lengths.now))) ≤ length stops.old) }
    ensures { (result.postings ≡ length (kept limit (laid_entries arrivals.entry.hashes.now arrivals.entry.width arrivals.entry.lengths.now)))
        × (result.postings ≤ m)
        × (result.stopped ≡ length (over_keys limit (keys_of (laid_entries arrivals.entry.hashes.now arrivals.entry.width arrivals.entry.lengths.now))))
        × (posts.new ≡ padded (length posts.old) (flat (kept limit (laid_entries arrivals.entry.hashes.now arrivals.entry.width arrivals.entry.lengths.now))))
        × (stops.new ≡ padded (length stops.old) (over_keys limit (keys_of (laid_entries arrivals.entry.hashes.now arrivals.entry.width arrivals.entry.lengths.now)))) }
{
    let w = arrivals.width;
    build_entries::lay_all(posts, arrivals);
    let left = build_stops::stop_runs(posts, w, m, stops, limit);
    slices::clear_from(posts, w * left.postings);
    slices::clear_from(stops, left.stopped);
    left
}

// Writes the numbers in use and the rows.
fn put_references(refs: &mut [u32], recordings: Recordings, left: Left)
    requires { (head_width + row_width * length recordings.arrivals.lengths.now ≤ length refs.old) × (left.postings < 0x1_0000_0000) × (left.stopped < 0x1_0000_0000) }
    ensures { refs.new ≡ padded (length refs.old) (length recordings.entry.arrivals.lengths.now ∷ 0 ∷ left.postings ∷ left.stopped
        ∷ flat (rows_for recordings.entry.arrivals.hashes.now recordings.entry.arrivals.width recordings.entry.arrivals.lengths.now recordings.entry.rates.now recordings.entry.sets.now)) }
{
    let n = recordings.arrivals.lengths.len();
    rows::put_header(refs, n as u32, 0, left.postings as u32, left.stopped as u32);
    recordings.put_rows(refs);
    slices::clear_from(refs, rows::HEAD_WIDTH + rows::ROW_WIDTH * n);
}

// Builds a store from the hashes of all recordings, whatever it held.
pub fn build<'a>(
    refs: &mut [u32],
    posts: &mut [u32],
    stops: &mut [u32],
    hashes: &'a [u32],
    lengths: &'a [u32],
    rates: &'a [u32],
    w: usize,
    limit: u32,
    sets: &'a [u32],
) -> Result<(), Refusal>
    requires { (3 ≤ w) × (w ≤ 5) }
    ensures { (building_answer result, words refs.new posts.new stops.new)
        ≡ run_build w (words refs.old posts.old stops.old) limit hashes.now lengths.now rates.now sets.now }
{
    let lent = Lent {
        hashes,
        lengths,
        rates,
        sets,
    };
    let store = Store {
        refs,
        posts,
        stops,
        width: w,
    };
    lent.refusal(store, limit)?;
    let arrivals = Arrivals {
        hashes,
        lengths,
        width: w,
    };
    let m = hashes.len() / (w - 1);
    let left = put_postings(posts, stops, arrivals, m, limit as usize);
    let recordings = Recordings {
        arrivals,
        rates,
        sets,
    };
    put_references(refs, recordings, left);
    Ok(())
}
