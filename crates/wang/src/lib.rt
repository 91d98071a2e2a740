// WangIndex: the index of crate `index_calls` at Wang's scheme. A posting has 3 words, key, id and t_anchor; a hash key and t_anchor; a vote 6 words of scratch.
#![tactic(auto)]

ghost use Rattle.std.specs.Prelude.{refl};
ghost use borrow.Author.Tests.{leb-true};
ghost use Rattle.wang_judge.specs.Scheme.{wang, query_with};

pub use index_calls::Index;
use query_rank::Found;
use refusals::Refusal;
use wang_judge::WangMatchConfig;

#[derive(Clone, Copy)]
pub struct WangIndex {}

impl Index for WangIndex {
    const WIDTH: usize = 3;

    type Config = WangMatchConfig;

    ghost WIDTH = { 3 };

    ghost scheme = { wang };

    ghost asked = { query_with };

    fn query(
        refs: &[u32],
        postings: &[u32],
        stopped: &[u32],
        scratch: &mut [i64],
        hashes: &[u32],
        frames_per_sec: f32,
        cfg: WangMatchConfig,
        set: u32,
    ) -> Result<Option<Found>, Refusal> {
        wang_query::query(
            refs,
            postings,
            stopped,
            scratch,
            hashes,
            frames_per_sec,
            cfg,
            set,
        )
    }

    ghost width = { refl };

    ghost wide = { (leb-true 3 3 refl, leb-true 3 5 refl) };
}
