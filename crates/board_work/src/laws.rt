//! What holds of every work, over all files and all lists of events.
ghost use Rattle.std.specs.Prelude.{◌≡◌, ◌↔◌, ℕ, List, [], Some, Result, slice_get};
ghost use Rattle.bz_base.specs.declared.refusals.Refusal.{Refusal};
ghost use Rattle.bz_tree.specs.declared.tree.Found.{Found};
ghost use Rattle.board_laws.specs.Recursive.{Recursive};
ghost use Rattle.board_laws.specs.Results.{AllOwn, PathOf};
ghost use Rattle.board_machine.specs.Boards.{Board, Slot};
ghost use Rattle.board_machine.specs.Events.{Event, Run, begin, result_of};
ghost use Rattle.board_work.specs.Turns.{rules_of};

use crate::work::Work;

/// A job has the same result on every path of different jobs that lead to it.
pub fn one_result_a_job<W: Work>()
    ensures { (work : W) (file : List ℕ → Found) (path : List W.Job) (job : W.Job)
        (result : Result W.Value Refusal)
        → PathOf (rules_of (W.meaning work) file) path job
        → Recursive (rules_of (W.meaning work) file) path job result
        ↔ Recursive (rules_of (W.meaning work) file) [] job result }
{}

/// Each job has a result.
pub fn each_job_has_a_result<W: Work>()
    ensures { (work : W) (file : List ℕ → Found) (path : List W.Job) (job : W.Job)
        → PathOf (rules_of (W.meaning work) file) path job
        → (result : Result W.Value Refusal)
        × Recursive (rules_of (W.meaning work) file) path job result }
{}

/// After every list of events each job that is done has its result, and a job is refused with a
/// cycle exactly where that is its result.
pub fn done_jobs_have_their_results<W: Work>()
    ensures { (work : W) (file : List ℕ → Found) (goals : List W.Job) (events : List Event)
        (board : Board W.Job Found W.Value Refusal) (place : ℕ)
        (slot : Slot W.Job Found W.Value Refusal) (result : Result W.Value Refusal)
        → AllOwn (rules_of (W.meaning work) file) goals
        → Run (rules_of (W.meaning work) file) (begin (rules_of (W.meaning work) file) goals) events board
        → slice_get board.slots place ≡ Some slot
        → result_of slot.state ≡ Some result
        → Recursive (rules_of (W.meaning work) file) [] slot.job result }
{}
