// What a query that is searched asks for.

ghost use Rattle.std.specs.Prelude.{◌≡◌, ℕ, ◌^◌, ◌<◌, get_or};
ghost use Rattle.panako_vote.specs.Grids.{grid_of};
ghost use Rattle.panako_query.specs.Candidates.{Posted};
ghost use Rattle.panako_query.specs.Props.{posted_prop};

use panako_judge::PanakoQuery;
use panako_vote::ScaleGrid;
use query_search::{Search, Voters};

// A query that no refusal before 8 applies to: where its hashes are searched, whose postings vote, what every candidate is judged with, and the
// scale grid.
#[derive(Clone, Copy)]
pub struct Asked<'a> {
    pub search: Search<'a, 5, 4>,
    pub voters: Voters<'a>,
    pub q: PanakoQuery,
    pub grid: ScaleGrid,
    pub ghost posted: { Posted voters.refs.now search.posts.now search.hashes.now q } by { posted_prop _ _ _ _ },
    pub ghost all_postings: { search.count ≡ get_or voters.refs.now 2 0 },
    pub ghost posting_words: { (i : ℕ) → get_or search.posts.now i 0 < 2 ^ 32 },
    pub ghost all_hashes: { search.hash_count ≡ q.q_len },
    pub ghost hash_words: { (i : ℕ) → get_or search.hashes.now i 0 < 2 ^ 32 },
    pub ghost own_grid: { grid ≡ grid_of q.cfg },
}
