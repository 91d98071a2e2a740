// PanakoIndex: the index of crate `index_calls` at Panako's scheme. A posting has 5 words, key, id, t_anchor, t_b and t_c; a hash key, t_anchor, t_b and t_c; a
// vote 12 words of scratch.
#![tactic(auto)]

ghost use Rattle.std.specs.Prelude.{refl};
ghost use borrow.Author.Tests.{leb-true};
ghost use Rattle.panako_judge.specs.Scheme.{panako, query_with};

pub use index_calls::Index;
use panako_vote::PanakoMatchConfig;
use query_rank::Found;
use refusals::Refusal;

#[derive(Clone, Copy)]
pub struct PanakoIndex {}

impl Index for PanakoIndex {
    const WIDTH: usize = 5;

    type Config = PanakoMatchConfig;

    ghost WIDTH = { 5 };

    ghost scheme = { panako };

    ghost asked = { query_with };

    fn query(
        refs: &[u32],
        postings: &[u32],
        stopped: &[u32],
        scratch: &mut [i64],
        hashes: &[u32],
        frames_per_sec: f32,
        cfg: PanakoMatchConfig,
        set: u32,
    ) -> Result<Option<Found>, Refusal> {
        panako_query::query(
            refs,
            postings,
            stopped,
            scratch,
            hashes,
            frames_per_sec,
            cfg,
            set,
        )
    }

    ghost width = { refl };

    ghost wide = { (leb-true 3 5 refl, leb-true 5 5 refl) };
}
