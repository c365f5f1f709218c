//! What holds of every work whose jobs are told apart by their texts and whose needs are bounded.
ghost use Rattle.std.specs.Prelude.{◌≡◌, ◌↔◌, ℕ, List, [], ◌∷◌, ◌++◌, Result, false};
ghost use Rattle.board_laws.specs.Bounds.{Bounded};
ghost use Rattle.board_laws.specs.Recursive.{Recursive};
ghost use Rattle.board_laws.specs.Results.{PathOf};
ghost use Rattle.board_laws.specs.Rounds.{cycle_texts, stands};
ghost use Rattle.board_laws.specs.Works.{Lawful, Rules};

/// A job has the same result on every path of different jobs that lead to it.
pub fn one_result_a_job<J, F, A, V, R>()
    ensures { (rules : Rules J F A V R) (path : List J) (job : J) (result : Result V R)
        → Lawful rules
        → Bounded rules
        → PathOf rules path job
        → Recursive rules path job result ↔ Recursive rules [] job result }
{}

/// Each job has a result on each such path.
pub fn each_job_has_a_result<J, F, A, V, R>()
    ensures { (rules : Rules J F A V R) (path : List J) (job : J)
        → Lawful rules
        → Bounded rules
        → PathOf rules path job
        → (result : Result V R) × Recursive rules path job result }
{}

/// A cycle is written alike from its first job and from its second.
pub fn a_cycle_has_one_text()
    ensures { (text : List ℕ) (texts : List (List ℕ))
        → stands text texts ≡ false
        → cycle_texts (text ∷ texts) ≡ cycle_texts (texts ++ text ∷ []) }
{}
