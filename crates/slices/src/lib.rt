// Words of a slice: copied, moved, zeroed; whether they are zero.
#![tactic(auto)]

ghost use Rattle.std.specs.Prelude.{◌≡◌, ◌++◌, ◌+◌, ◌-◌, ◌≤◌, length, take, replicate};
ghost use Rattle.lists.specs.Entries.{zero_from};
ghost use Rattle.slices.specs.Parts.{pasted, cleared};

// n words of src, from `from` on, go to dst at `to`. Here and below by a loop: the library's copies would have the archives for C ask for `memmove`,
// and a few words, as an entry has, take longer by a call.
pub fn copy_words(dst: &mut [u32], to: usize, src: &[u32], from: usize, n: usize)
    requires { (to + n ≤ length dst.old) × (from + n ≤ length src.now) }
    ensures { dst.new ≡ pasted dst.old to src.now from n }
{
    for j in 0..n {
        dst[to + j] = src[from + j];
    }
}

// n words from `from` on go to `to`, which is no earlier: the last one first.
pub fn move_up(s: &mut [u32], to: usize, from: usize, n: usize)
    requires { (from ≤ to) × (to + n ≤ length s.old) }
    ensures { s.new ≡ pasted s.old to s.old from n }
{
    for j in (0..n).rev() {
        s[to + j] = s[from + j];
    }
}

// n words from `from` on go to `to`, which is no later.
pub fn move_down(s: &mut [u32], to: usize, from: usize, n: usize)
    requires { (to ≤ from) × (from + n ≤ length s.old) }
    ensures { s.new ≡ pasted s.old to s.old from n }
{
    if to != from {
        for j in 0..n {
            s[to + j] = s[from + j];
        }
    }
}

// Zeros from place a up to place b.
pub fn clear(s: &mut [u32], a: usize, b: usize)
    requires { (a ≤ b) × (b ≤ length s.old) }
    ensures { s.new ≡ cleared s.old a b }
{
    s[a..b].fill(0);
}

// Zeros from place a on.
pub fn clear_from(s: &mut [u32], a: usize)
    requires { a ≤ length s.old }
    ensures { s.new ≡ take a s.old ++ replicate (length s.old - a) 0 }
{
    s[a..].fill(0);
}

// Whether every word from place a on is zero. No early exit, so that many words are tested at once.
pub fn is_zero_from(s: &[u32], a: usize) -> bool
    requires { a ≤ length s.now }
    ensures { result ≡ zero_from s.now a }
{
    let mut ok = true;
    for x in &s[a..] {
        ok &= *x == 0;
    }
    ok
}
