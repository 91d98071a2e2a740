// The verdicts on a query's candidates, one by one, and the best of them. A verdict is the candidate's result, or none where a gate bars it. A query
// answers "best with its result, none, or refused with a number": a `Result<Option<Found>, Refusal>`.
#![tactic(auto)]

ghost use Rattle.std.specs.Prelude.{◌≡◌};
ghost use Rattle.model.specs.Query.{track_best};
ghost use Rattle.query_rank.specs.Verdicts.{result_in};
ghost use Rattle.query_rank.specs.Answers.{best_so_far};

use matching::MatchResult;

// A candidate that no gate bars: its id and its result.
#[derive(Clone, Copy)]
pub struct Found {
    pub id: u32,
    pub result: MatchResult,
}

// A candidate's verdict comes next: with a result it becomes the best where none stands or where it ranks above.
pub fn keep(best: Option<Found>, id: u32, verdict: Option<MatchResult>) -> Option<Found>
    ensures { best_so_far result ≡ track_best (best_so_far best) id (result_in verdict) }
{
    match (best, verdict) {
        (_, None) => best,
        (Some(first), Some(next)) if !matching::is_better(next, first.result) => best,
        (_, Some(result)) => Some(Found { id, result }),
    }
}
