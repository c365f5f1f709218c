//! What a walk by levels comes to, whatever its requests and nodes are.
ghost use Rattle.std.specs.Prelude.{◌≡◌, ℕ, ◌≤◌, [], length, Ok, Err, Result};
ghost use Rattle.bz_walks.specs.WalkOrders.{IsFirstRefusal, IsLevelByLevel};
ghost use Rattle.bz_walks.specs.Rounds.{rounds};
ghost use Rattle.bz_walks.specs.Walks.{Walk, Walked, levels, next_level};

/// A walk that is read to its end goes level by level: each level is what the nodes of the one
/// before ask for, in order, without what stands earlier.
pub fn each_level_follows_the_one_before<R, N, E>()
    ensures { (walk : Walk R N E) (n : ℕ) (walked final : Walked R N)
        → length walked.nodes ≤ length walked.known
        → levels walk n (Ok walked) ≡ Ok final
        → next_level final ≡ []
        → IsLevelByLevel walk walked final }
{}

/// A walk is refused by the first refusal in the order of its levels: each node in turn is read,
/// and then each of its requests in turn is added.
pub fn the_first_refusal_refuses_a_walk<R, N, E>()
    ensures { (walk : Walk R N E) (n : ℕ) (walked : Walked R N) (refusal : E)
        → length walked.nodes ≤ length walked.known
        → levels walk n (Ok walked) ≡ Err refusal
        → IsFirstRefusal walk walked.known (next_level walked) refusal }
{}

/// A walk from whose nodes nothing follows is its levels, however many rounds it may have.
pub fn nothing_follows_a_walk_without_rounds<R, N, E>()
    ensures { (walk : Walk R N E) (most n : ℕ) (walked : Result (Walked R N) E)
        → rounds walk (λ nodes. []) most n walked ≡ levels walk most walked }
{}
