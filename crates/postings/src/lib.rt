// Entries of w words in a slice, by one word of each: those that are met are counted, looked for and noted, and some are left out.
#![tactic(auto)]

ghost use Rattle.std.specs.Prelude.{◌≡◌, [], ◌∷◌, ℕ, ◌+◌, ◌*◌, ◌≤◌, ◌<◌, ◌^◌, length, get_or, eqb};
ghost use Rattle.lists.specs.Lists.{member};
ghost use Rattle.lists.specs.Keys.{Ascending};
ghost use Rattle.postings.specs.Retain.{Within, Until, Listed, Noted, staying, retained};

// The first `count` entries of a slice, `width` words each, and which of their words is looked at.
#[derive(Clone, Copy)]
pub struct Entries<'a> {
    pub words: &'a [u32],
    pub width: usize,
    pub count: usize,
    pub field: usize,
    ghost within: { Within width count field words.now 0 },
}

impl Entries<'_> {
    // The word of entry i.
    fn word(self, i: usize) -> u32
        requires { i < self.count }
        ensures { result ≡ get_or self.entry.words.now (self.entry.width * i + self.entry.field) 0 }
    {
        self.words[self.width * i + self.field]
    }

    // How many have a word other than x.
    pub fn others(self, x: u32) -> usize
        ensures { (result ≡ length (staying self.entry.width self.entry.count self.entry.field (x ∷ []) self.entry.words.now)) × (result ≤ self.entry.count) }
    {
        let mut c = 0;
        for i in 0..self.count {
            c += usize::from(self.word(i) != x);
        }
        c
    }

    // The first, from `from` on, whose word is x; their number where there is none.
    fn until_word(self, from: usize, x: u32) -> usize
        requires { from ≤ self.count }
        ensures { Until (eqb x) self.entry.width self.entry.count self.entry.field self.entry.words.now from result }
    {
        for i in from..self.count {
            if self.word(i) == x {
                return i;
            }
        }
        self.count
    }

    // The first, from `from` on, whose word is among xs; their number where there is none.
    fn until_among(self, from: usize, xs: &[u32]) -> usize
        requires { (from ≤ self.count) × Ascending (λ k. k) xs.now }
        ensures { Until (λ x. member x xs.now) self.entry.width self.entry.count self.entry.field self.entry.words.now from result }
    {
        for i in from..self.count {
            if maps::contains(xs, xs.len(), self.word(i)) {
                return i;
            }
        }
        self.count
    }

    // The same, without a search where xs has one word at most.
    fn kept_until(self, from: usize, xs: &[u32]) -> usize
        requires { (from ≤ self.count) × Ascending (λ k. k) xs.now }
        ensures { Until (λ x. member x xs.now) self.entry.width self.entry.count self.entry.field self.entry.words.now from result }
    {
        match xs {
            [] => self.count,
            [x] => self.until_word(from, *x),
            _ => self.until_among(from, xs),
        }
    }

    // The same: entry k of a list that names the first of them, and behind these it is looked for.
    fn next_named(self, from: usize, xs: &[u32], list: &[u32], k: usize) -> usize
        requires from_xs { (from ≤ self.count) × Ascending (λ k. k) xs.now }
        requires named { k < length list.now → Until (λ x. member x xs.now) self.width self.count self.field self.words.now from (get_or list.now k 0) }
        ensures until { Until (λ x. member x xs.now) self.entry.width self.entry.count self.entry.field self.entry.words.now from result }
        ensures value { k < length list.now → result ≡ get_or list.now k 0 }
    {
        if k < list.len() {
            return list[k] as usize;
        }
        self.kept_until(from, xs)
    }

    // Notes entry i in a list, which has c so far, where its word is x and there is room; how many have been met.
    pub fn note(self, i: usize, x: u32, list: &mut [u32], c: usize) -> usize
        requires { (i < self.count) × (c ≤ i) × (i < 2 ^ 32) }
        ensures upper_bound { result ≤ i + 1 }
        ensures by_index { (p : ℕ) → i < p → Noted self.entry.width p self.entry.field x self.entry.words.now i list.old c
            → Noted self.entry.width p self.entry.field x self.entry.words.now (i + 1) list.new result }
    {
        note(list, c, self.words, self.width, i, self.field, x)
    }
}

// Notes entry i in a list, which has c so far, where its word f is x and there is room; how many have been met. The words may end behind word f.
pub fn note(
    list: &mut [u32],
    c: usize,
    posts: &[u32],
    w: usize,
    i: usize,
    f: usize,
    x: u32,
) -> usize
    requires { (f < w) × (w * i + f < length posts.now) × (c ≤ i) × (i < 2 ^ 32) }
    ensures upper_bound { result ≤ i + 1 }
    ensures by_index { (p : ℕ) → i < p → Noted w p f x posts.now i list.old c → Noted w p f x posts.now (i + 1) list.new result }
{
    if posts[w * i + f] != x {
        return c;
    }
    if c < list.len() {
        list[c] = i as u32;
    }
    c + 1
}

// Keeps, in order, those of the first p entries whose word f is none of xs, which ascend strictly. The words that are freed become zero.
// How many entries stay. A list may name the first of those that go.
pub fn retain(posts: &mut [u32], w: usize, p: usize, f: usize, xs: &[u32], list: &[u32]) -> usize
    requires within { Within w p f posts.old 0 }
    requires ascending { Ascending (λ k. k) xs.now }
    requires listed { Listed (λ x. member x xs.now) w p f posts.old list.now (length list.now) }
    ensures value { result ≡ length (staying w p f xs.now posts.old) }
    ensures posts_after { posts.new ≡ retained w p f xs.now posts.old }
{
    let mut i = 0;
    let mut q = 0;
    let mut k = 0;
    // a turn is a run of entries that stay
    while i < p {
        let entries = Entries {
            words: posts,
            width: w,
            count: p,
            field: f,
        };
        let e = entries.next_named(i, xs, list, k);
        slices::move_down(posts, w * q, w * i, w * (e - i));
        q += e - i;
        i = (e + 1).min(p);
        k += 1;
    }
    slices::clear(posts, w * q, w * p);
    q
}
