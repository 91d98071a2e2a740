// What a query that is searched asks for.

ghost use Rattle.std.specs.Prelude.{◌≡◌, ℕ, ◌^◌, ◌<◌, get_or};
ghost use Rattle.wang_query.specs.Candidates.{Posted};
ghost use Rattle.wang_query.specs.Props.{posted_prop};

use query_search::{Search, Voters};
use wang_judge::WangQuery;

// A query that no refusal before 8 applies to: where its hashes are searched, whose postings vote, and what every candidate is judged with.
#[derive(Clone, Copy)]
pub struct Asked<'a> {
    pub search: Search<'a, 3, 2>,
    pub voters: Voters<'a>,
    pub q: WangQuery,
    pub ghost posted: { Posted voters.refs.now search.posts.now search.hashes.now q } by { posted_prop _ _ _ _ },
    pub ghost all_postings: { search.count ≡ get_or voters.refs.now 2 0 },
    pub ghost words: { (i : ℕ) → get_or search.posts.now i 0 < 2 ^ 32 },
    pub ghost all_hashes: { search.hash_count ≡ q.q_len },
}
