// Of votes in any order, those of one recording, where the others are too few to make a candidate.
#![tactic(auto)]

ghost use Rattle.std.specs.Prelude.{◌≡◌, ◌≤◌, length, take};
ghost use Rattle.lists.specs.Lists.{keep};
ghost use Rattle.maps.specs.Lists.{count_if};
ghost use Rattle.main_votes.specs.Main.{has_lead, main_of};

use bins::Lead;

// How many of the words have the lead x. A chain of `filter` and `count` would branch on each word.
fn count_lead(s: &[i64], lead: Lead, x: u64) -> usize
    ensures { (result ≡ count_if (has_lead lead.low lead.bits x) s.now) × (result ≤ length s.now) }
{
    let mut n = 0;
    for word in s {
        n += usize::from(lead.of(*word) == x);
    }
    n
}

// Keeps those, in their order. Yields how many they are. Each word is put down, and counts where it is kept.
fn keep_lead(s: &mut [i64], lead: Lead, x: u64) -> usize
    ensures { (take result s.new ≡ keep (has_lead lead.low lead.bits x) s.old) × (result ≤ length s.old) }
{
    let mut n = 0;
    for i in 0..s.len() {
        let word = s[i];
        let more = usize::from(lead.of(word) == x);
        s[n] = word;
        n += more;
    }
    n
}

// Keeps the words that have the first one's lead, where the others are fewer than `least`; else all. Yields how many are kept.
pub fn keep_main(s: &mut [i64], lead: Lead, least: u64) -> usize
    ensures { (take result s.new ≡ main_of lead.low lead.bits least s.old) × (result ≤ length s.old) }
{
    if s.is_empty() {
        return 0;
    }
    let x = lead.of(s[0]);
    let others = (s.len() - count_lead(s, lead, x)) as u64;
    if (0 < others) & (others < least) {
        return keep_lead(s, lead, x);
    }
    s.len()
}
