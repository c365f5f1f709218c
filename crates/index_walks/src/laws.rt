//! Laws of what is reached, over all links.
ghost use Rattle.std.specs.Prelude.{List, ℕ, ◌<◌, length};
ghost use Rattle.index_walks.specs.Reaching.{reached};
ghost use Rattle.index_walks.specs.ReachingLaws.{IsReached};

/// What is reached is the least set with the first index and all links of its members.
pub fn reached_is_least()
    ensures { (links : List (List ℕ)) → 0 < length links → IsReached links (reached links) }
{}
