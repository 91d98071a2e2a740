// The program replay: a list of calls with the Rust's answers on standard input; on standard output how many calls were made and that
// none differs, or the number of the first line that does. Lines are a letter, how many words follow, and the words, of eight hexadecimal
// digits each; docs/FOR-THE-BENCH.md tells of them:
//
//     N        posting width, words of the three slices: they are lent, all zeros
//     r p k    what references, postings, stopped keys begin with; then zeros
//     R P K    what they are to begin with; then zeros
//     B        limit, numbers of lengths, of rates and of sets, lengths, rates, sets, hashes: build
//     I        limit, rate, set, hashes: insert
//     D        id: remove
//     S        id, limit, rate, hashes: replace
//     C        live_count
//     Q        words of scratch, what they are filled with, rate, scale_min, scale_max, scale_bins, tolerance, min_votes, min_score,
//              min_prominence, set, hashes: query
//     A        the last answer's words as the C interface has them, each in two halves; then zeros
#![tactic(auto)]

mod calls;
mod text;

use calls::{Call, Lent, Store, Which};
use replay_text::{Contents, UnknownLetter};
use std::io;
use std::io::Stdin;

// Lines of at most 4,224 words.
const WORDS: usize = 4224;

const TEXT: usize = 38017;

// Why the list isn't run further.
#[derive(Drop)]
pub enum Stop {
    // A line isn't as it is to be.
    Differs,
    Failed(io::Error),
}

impl From<io::Error> for Stop {
    fn from(error: io::Error) -> Stop {
        Stop::Failed(error)
    }
}

impl From<UnknownLetter> for Stop {
    fn from(_: UnknownLetter) -> Stop {
        Stop::Differs
    }
}

// A line's letter.
#[derive(Clone, Copy)]
enum Letter {
    Lend,
    Call(Call),
    Contents(Contents),
}

impl TryFrom<u8> for Letter {
    type Error = Stop;

    fn try_from(letter: u8) -> Result<Letter, Stop> {
        Ok(match letter {
            b'N' => Letter::Lend,
            b'B' => Letter::Call(Call::Build),
            b'I' => Letter::Call(Call::Insert),
            b'D' => Letter::Call(Call::Remove),
            b'S' => Letter::Call(Call::Replace),
            b'C' => Letter::Call(Call::LiveCount),
            b'Q' => Letter::Call(Call::Query),
            _ => Letter::Contents(Contents::try_from(letter)?),
        })
    }
}

// The index that is called, the store, how much of it is lent, none where it has less than was asked for, and the lines and calls so far.
#[derive(Drop)]
struct Replay {
    which: Which,
    store: Store,
    lent: Option<Lent>,
    lines: u64,
    calls: u64,
}

impl Replay {
    // Posting width and slice lengths.
    fn lend(&mut self, line: &[u32]) -> Result<(), Stop> {
        let [width, refs, postings, stopped] = line else {
            return Err(Stop::Differs);
        };
        self.which = if *width == 3 {
            Which::Wang
        } else {
            Which::Panako
        };
        self.lent = Lent::new(*refs as usize, *postings as usize, *stopped as usize);
        Ok(())
    }

    fn call(&mut self, call: Call, line: &[u32]) -> Result<(), Stop> {
        let lent = self.lent.ok_or(Stop::Differs)?;
        self.calls = self.calls.wrapping_add(1);
        calls::run(self.which, &mut self.store, call, lent, line)
    }

    fn check(&mut self, contents: Contents, line: &[u32]) -> Result<(), Stop> {
        let lent = self.lent.ok_or(Stop::Differs)?;
        if self.store.run_contents(contents, lent, line) {
            Ok(())
        } else {
            Err(Stop::Differs)
        }
    }

    // A line of a letter and words.
    fn run_line(&mut self, letter: u8, line: &[u32]) -> Result<(), Stop> {
        match Letter::try_from(letter)? {
            Letter::Lend => self.lend(line),
            Letter::Call(call) => self.call(call, line),
            Letter::Contents(contents) => self.check(contents, line),
        }
    }

    // The whole list. A proved loop has to end, and nothing says that the input does: so the lines are counted up to a number that no run reaches.
    fn run(&mut self, input: Stdin) -> Result<(), Stop> {
        let mut words = [0u32; WORDS];
        let mut text = [0u8; TEXT];
        for line in 0..u64::MAX {
            self.lines = line + 1;
            let Some((letter, n)) = text::read_line(input, &mut text, &mut words)? else {
                self.lines = line;
                return Ok(());
            };
            self.run_line(letter, &words[..n])?;
        }
        Ok(())
    }
}

fn main(rt: HostRuntime) -> io::Result<()> {
    let mut replay = Replay {
        which: Which::Wang,
        store: Store::new(),
        lent: Lent::new(0, 0, 0),
        lines: 0,
        calls: 0,
    };
    let end = replay.run(rt.stdin());
    let lines = replay.lines;
    let calls = replay.calls;
    match end {
        Ok(()) => println!(rt; "replay: {calls} calls, {lines} lines, 0 differences"),
        Err(Stop::Differs) => println!(rt; "replay: line {lines} differs"),
        Err(Stop::Failed(error)) => Err(error),
    }
}
