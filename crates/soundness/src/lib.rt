// Whether a store's slices have lengths that are listed, and whether their words are sound: one scan.
#![tactic(auto)]

ghost use Rattle.std.specs.Prelude.{◌≡◌, true, cond, ◌&&◌, ◌+◌, ◌*◌, ◌-◌, ◌/◌, ◌^◌, ◌<◌, ◌≤◌, IfOk, length, get_or, ltb, eqb};
ghost use Rattle.lists.specs.Every.{every, count};
ghost use Rattle.lists.specs.Entries.{key_at, keys_ascend};
ghost use Rattle.model.specs.Rows.{is_canonical};
ghost use Rattle.postings.specs.Retain.{Noted};
ghost use Rattle.model.specs.Words.{lengths_listed, slices_listed, room_in, head_width, row_width, row_place};
ghost use Rattle.model.specs.Soundness.{row_word, counts_fit, dead_row, vacant_entry, entry_unused, key_unstopped, sound_words};
ghost use Rattle.refusals.specs.Numbers.{number_in};
ghost use Rattle.soundness.specs.Scan.{words, set_test, row_test, row_fine, entry_fine, rows_sound, postings_sound, stops_ascend, stopped_sound, refusal_of, Met, Fits};

use postings::Entries;
use refusals::Refusal;
use rows::{AT_LIVE, AT_RATE, AT_RMAX, AT_SET, AT_VACANT, Counts, HEAD_WIDTH, NO_RATE, ROW_WIDTH};
use slices::is_zero_from;

// The three slices of a store, and the width of a posting.
#[derive(Clone, Copy)]
pub struct Store<'a> {
    pub refs: &'a [u32],
    pub posts: &'a [u32],
    pub stops: &'a [u32],
    pub width: usize,
    ghost wide: { 3 ≤ width },
}

// The rows in use.
#[derive(Clone, Copy)]
struct UsedRows<'a> {
    refs: &'a [u32],
    count: usize,
    ghost within: { head_width + row_width * count ≤ length refs.now },
}

// The postings in use.
#[derive(Clone, Copy)]
struct UsedPostings<'a> {
    words: &'a [u32],
    width: usize,
    count: usize,
    ghost wide: { 3 ≤ width },
    ghost within: { width * count ≤ length words.now },
}

// Whether the lengths of the three slices are of those listed.
#[tactic(auto, using(std::proofs::lemmas::Bool::Decides::nat_tests), unfolding(model::specs::Words::sizes_listed))]
fn lengths_listed(a: usize, b: usize, c: usize, w: usize) -> bool
    requires { 1 ≤ w }
    ensures { result ≡ lengths_listed w a b c }
{
    if a < HEAD_WIDTH {
        return false;
    }
    let r = (a - HEAD_WIDTH) / ROW_WIDTH;
    let p = b / w;
    let in_range = 1 <= r && r <= 4096 && 1 <= p && p <= 1048576 && 1 <= c && c <= 65536;
    in_range && a == HEAD_WIDTH + ROW_WIDTH * r && b == w * p
}

// Whether a rate is no NaN, or the one form of it.
#[tactic(auto, using(crate::proofs::Rows::canonical_yes, crate::proofs::Rows::canonical_test))]
fn canonical(rate: u32) -> bool
    ensures { result ≡ is_canonical rate }
{
    rate == NO_RATE || rate % 0x8000_0000 <= 0x7F80_0000
}

// Whether the set of a row in use is 0 where it is dead, and 1 to 255 where it is live.
#[tactic(auto, using(std::proofs::lemmas::Bool::Decides::nat_tests), unfolding(crate::specs::Scan::set_test))]
fn set_test(live: u32, set: u32) -> bool
    ensures { result ≡ set_test live set }
{
    if live == 0 {
        set == 0
    } else {
        rows::is_set(set)
    }
}

// Whether the words of a row in use are fine.
#[tactic(auto, using(std::proofs::lemmas::Bool::Decides::nat_tests), unfolding(crate::specs::Scan::row_test))]
fn row_test(w: usize, rate: u32, rmax: u32, live: u32, set: u32) -> bool
    ensures { result ≡ row_test w rate rmax live set }
{
    if 1 < live || !set_test(live, set) {
        return false;
    }
    if live == 0 {
        return rate == NO_RATE && rmax == 0;
    }
    canonical(rate) && (w == 3 || rmax == 0)
}

impl UsedRows<'_> {
    // Word f of row j.
    fn word(self, j: usize, f: usize) -> u32
        requires { row_place j f < length self.refs.now }
        ensures { result ≡ row_word self.entry.refs.now j f }
    {
        rows::row_word(self.refs, j, f)
    }

    // Whether each is fine.
    #[tactic(auto, using(crate::proofs::Passes::passes, crate::proofs::Rows::row_fine_lem))]
    fn are_fine(self, w: usize) -> bool
        ensures { result ≡ every self.entry.count (row_fine w self.entry.refs.now) }
    {
        for j in 0..self.count {
            let (rate, rmax) = (self.word(j, AT_RATE), self.word(j, AT_RMAX));
            if !row_test(w, rate, rmax, self.word(j, AT_LIVE), self.word(j, AT_SET)) {
                return false;
            }
        }
        true
    }

    // How many are dead.
    #[tactic(auto, using(crate::proofs::Passes::passes, std::proofs::lemmas::Bool::Decides::nat_tests), unfolding(model::specs::Soundness::dead_row))]
    fn dead(self) -> usize
        ensures { result ≡ count self.entry.count (dead_row self.entry.refs.now) }
    {
        let mut c = 0;
        for j in 0..self.count {
            if self.word(j, AT_LIVE) == 0 {
                c += 1;
            }
        }
        c
    }

    // Whether each of the v vacant entries is a dead id that none before it names. The ids that were named are marked.
    fn vacants_fine(self, v: usize) -> bool
        requires { (self.count ≤ 4096) × (v ≤ self.count) }
        ensures { result ≡ every v (vacant_entry self.entry.refs.now self.entry.count) }
    {
        let mut marks = [false; 4096];
        for j in 0..v {
            let x = self.word(j, AT_VACANT) as usize;
            if self.count <= x || self.word(x, AT_LIVE) != 0 || marks[x] {
                return false;
            }
            marks[x] = true;
        }
        true
    }

    // Whether the vacant entries behind the first v are zero.
    fn entries_unused(self, v: usize) -> bool
        requires { v ≤ self.count }
        ensures { result ≡ every (self.entry.count - v) (entry_unused self.entry.refs.now v) }
    {
        for j in v..self.count {
            if self.word(j, AT_VACANT) != 0 {
                return false;
            }
        }
        true
    }

    // Whether the references are sound, of which v are vacant.
    #[tactic(auto, using(std::proofs::lemmas::Bool::Decides::nat_tests), unfolding(crate::specs::Scan::rows_sound))]
    fn are_sound(self, w: usize, v: usize) -> bool
        requires { (self.count ≤ 4096) × (v ≤ self.count) }
        ensures { result ≡ rows_sound w self.entry.refs.now self.entry.count v }
    {
        self.are_fine(w)
            && self.dead() == v
            && self.vacants_fine(v)
            && self.entries_unused(v)
            && is_zero_from(self.refs, HEAD_WIDTH + ROW_WIDTH * self.count)
    }
}

impl UsedPostings<'_> {
    // Whether posting i has a live id and, in a Wang store, an anchor of at most that row's r_max.
    #[tactic(auto, using(std::proofs::lemmas::Bool::Decides::nat_tests), unfolding(crate::specs::Scan::entry_fine, model::specs::Soundness::posting_live, model::specs::Soundness::live_id, model::specs::Soundness::anchor_fine))]
    fn is_fine(self, rows: UsedRows, i: usize) -> bool
        requires { i < self.count }
        ensures { result ≡ entry_fine self.entry.width rows.entry.refs.now rows.entry.count self.entry.words.now i }
    {
        let at = self.width * i;
        let id = self.words[at + 1] as usize;
        if rows.count <= id || rows.word(id, AT_LIVE) != 1 {
            return false;
        }
        self.width != 3 || self.words[at + 2] <= rows.word(id, AT_RMAX)
    }

    // Whether their keys ascend, and each is fine: one pass.
    fn are_fine(self, rows: UsedRows) -> bool
        ensures { result ≡ keys_ascend self.entry.words.now self.entry.width self.entry.count && every self.entry.count (entry_fine self.entry.width rows.entry.refs.now rows.entry.count self.entry.words.now) }
    {
        let mut last = 0;
        for i in 0..self.count {
            let key = self.words[self.width * i];
            if key < last || !self.is_fine(rows, i) {
                return false;
            }
            last = key;
        }
        true
    }

    #[tactic(auto, using(std::proofs::lemmas::Bool::Decides::nat_tests), unfolding(crate::specs::Scan::postings_sound))]
    fn are_sound(self, rows: UsedRows) -> bool
        ensures { result ≡ postings_sound self.entry.width rows.entry.refs.now rows.entry.count self.entry.words.now self.entry.count }
    {
        self.are_fine(rows) && is_zero_from(self.words, self.width * self.count)
    }

    // As `are_fine`, and the postings of recording id are listed; how many there are.
    fn listed(self, rows: UsedRows, id: u32, list: &mut [u32]) -> Result<usize, Refusal>
        requires { self.count < 2 ^ 32 }
        ensures { Met self.entry.width rows.entry.refs.now rows.entry.count self.entry.words.now self.entry.count id list.new result }
    {
        let entries = Entries {
            words: self.words,
            width: self.width,
            count: self.count,
            field: 1,
        };
        let mut last = 0;
        let mut own = 0;
        for i in 0..self.count {
            let key = self.words[self.width * i];
            if key < last || !self.is_fine(rows, i) {
                return Err(Refusal::Unsound);
            }
            own = entries.note(i, id, list, own);
            last = key;
        }
        Ok(own)
    }

    // The same. With Wang's width as a constant its loop keeps all that it needs in registers (docs/BENCH.md, "Special cases").
    fn met(self, rows: UsedRows, id: u32, list: &mut [u32]) -> Result<usize, Refusal>
        requires { self.count < 2 ^ 32 }
        ensures { Met self.entry.width rows.entry.refs.now rows.entry.count self.entry.words.now self.entry.count id list.new result }
    {
        if self.width == 3 {
            let wang = UsedPostings {
                words: self.words,
                width: 3,
                count: self.count,
            };
            return wang.listed(rows, id, list);
        }
        self.listed(rows, id, list)
    }

    // Whether there is an entry i, and its key is this one.
    fn has_key(self, i: usize, key: u32) -> bool
        ensures { result ≡ ltb i self.entry.count && eqb (key_at self.entry.words.now self.entry.width i) key }
    {
        i < self.count && self.words[self.width * i] == key
    }

    // Whether none has a stopped key. Both ascend, so each key is looked for behind the one before it.
    fn none_stopped(self, stops: &[u32]) -> bool
        requires { (keys_ascend self.words.now self.width self.count ≡ true) × (stops_ascend stops.now (length stops.now) ≡ true) }
        ensures { result ≡ every self.entry.count (key_unstopped self.entry.width stops.now (length stops.now) self.entry.words.now) }
    {
        let mut i = 0;
        for key in stops {
            i = maps::first_from(self.words, self.width, self.count, i, u64::from(*key));
            if self.has_key(i, *key) {
                return false;
            }
        }
        true
    }

    // Whether the first k stopped keys are sound.
    #[tactic(auto, using(crate::proofs::Stopped::stops))]
    fn stops_sound(self, stops: &[u32], k: usize) -> bool
        requires { (k ≤ length stops.now) × (keys_ascend self.words.now self.width self.count ≡ true) }
        ensures { result ≡ stopped_sound self.entry.width stops.now k self.entry.words.now self.entry.count }
    {
        let used = &stops[..k];
        stops_ascend(used) && self.none_stopped(used) && is_zero_from(stops, k)
    }
}

// Whether stopped keys ascend.
fn stops_ascend(stops: &[u32]) -> bool
    ensures { result ≡ stops_ascend stops.now (length stops.now) }
{
    for i in 1..stops.len() {
        if stops[i] <= stops[i - 1] {
            return false;
        }
    }
    true
}

impl Store<'_> {
    // Whether the lengths of the slices are of those listed.
    #[tactic(auto, unfolding(model::specs::Words::slices_listed))]
    pub fn is_listed(self) -> bool
        ensures { result ≡ slices_listed self.entry.width (words self.entry.refs.now self.entry.posts.now self.entry.stops.now) }
    {
        lengths_listed(
            self.refs.len(),
            self.posts.len(),
            self.stops.len(),
            self.width,
        )
    }

    // Whether the numbers in use are within the room.
    #[tactic(auto, using(std::proofs::lemmas::Bool::Decides::nat_tests), unfolding(model::specs::Soundness::counts_fit))]
    fn counts_fit(self, c: Counts) -> bool
        requires { head_width ≤ length self.refs.now }
        ensures { result ≡ counts_fit (room_in self.entry.width (length self.entry.refs.now) (length self.entry.posts.now) (length self.entry.stops.now)) c.rows c.vacant c.postings c.stopped }
    {
        let r = (self.refs.len() - HEAD_WIDTH) / ROW_WIDTH;
        let p = self.posts.len() / self.width;
        c.rows <= r && c.vacant <= c.rows && c.postings <= p && c.stopped <= self.stops.len()
    }

    // Whether the words are sound where the numbers in use fit.
    fn sound_within(self, c: Counts) -> bool
        requires { Fits self.width self.refs.now self.posts.now self.stops.now c.rows c.vacant c.postings c.stopped }
        ensures { result ≡ rows_sound self.entry.width self.entry.refs.now c.rows c.vacant
            && (postings_sound self.entry.width self.entry.refs.now c.rows self.entry.posts.now c.postings && stopped_sound self.entry.width self.entry.stops.now c.stopped self.entry.posts.now c.postings) }
    {
        let rows = UsedRows {
            refs: self.refs,
            count: c.rows,
        };
        let postings = UsedPostings {
            words: self.posts,
            width: self.width,
            count: c.postings,
        };
        rows.are_sound(self.width, c.vacant)
            && postings.are_sound(rows)
            && postings.stops_sound(self.stops, c.stopped)
    }

    // Why the store is refused, if it is: a length that is not listed, or words that are not sound.
    pub fn refusal(self) -> Result<(), Refusal>
        ensures { number_in result ≡ refusal_of self.entry.width (words self.entry.refs.now self.entry.posts.now self.entry.stops.now) }
    {
        if !self.is_listed() {
            return Err(Refusal::Unlisted);
        }
        let c = rows::header(self.refs);
        if !self.counts_fit(c) || !self.sound_within(c) {
            return Err(Refusal::Unsound);
        }
        Ok(())
    }

    // As `sound_within`, and the postings of recording id are listed; how many there are.
    fn listed_within(self, c: Counts, id: u32, list: &mut [u32]) -> Result<usize, Refusal>
        requires { Fits self.width self.refs.now self.posts.now self.stops.now c.rows c.vacant c.postings c.stopped }
        ensures number_value { number_in result ≡ cond (rows_sound self.entry.width self.entry.refs.now c.rows c.vacant
            && (postings_sound self.entry.width self.entry.refs.now c.rows self.entry.posts.now c.postings && stopped_sound self.entry.width self.entry.stops.now c.stopped self.entry.posts.now c.postings)) 0 2 }
        ensures noted { IfOk result (λ own. Noted self.entry.width c.postings 1 id self.entry.posts.now c.postings list.new own) }
    {
        let rows = UsedRows {
            refs: self.refs,
            count: c.rows,
        };
        if !rows.are_sound(self.width, c.vacant) {
            return Err(Refusal::Unsound);
        }
        let postings = UsedPostings {
            words: self.posts,
            width: self.width,
            count: c.postings,
        };
        let own = postings.met(rows, id, list)?;
        let ends = is_zero_from(self.posts, self.width * c.postings);
        if !ends || !postings.stops_sound(self.stops, c.stopped) {
            return Err(Refusal::Unsound);
        }
        Ok(own)
    }

    // As `refusal`, by one scan that also lists the postings of recording id, as far as the list has room; how many there are.
    pub fn listing(self, id: u32, list: &mut [u32]) -> Result<usize, Refusal>
        ensures number_value { number_in result ≡ refusal_of self.entry.width (words self.entry.refs.now self.entry.posts.now self.entry.stops.now) }
        ensures noted { IfOk result (λ own. Noted self.entry.width (get_or self.entry.refs.now 2 0) 1 id self.entry.posts.now (get_or self.entry.refs.now 2 0) list.new own) }
    {
        if !self.is_listed() {
            return Err(Refusal::Unlisted);
        }
        let c = rows::header(self.refs);
        if !self.counts_fit(c) {
            return Err(Refusal::Unsound);
        }
        self.listed_within(c, id, list)
    }
}
