//! What holds after every list of events.
ghost use Rattle.std.specs.Prelude.{◌≡◌, ℕ, List, [], Some, Result, slice_get};
ghost use Rattle.board_laws.specs.Bounds.{Bounded};
ghost use Rattle.board_laws.specs.Recursive.{Recursive};
ghost use Rattle.board_laws.specs.Results.{AllOwn};
ghost use Rattle.board_laws.specs.Works.{Lawful, Rules};
ghost use Rattle.board_machine.specs.Boards.{Board, Slot};
ghost use Rattle.board_machine.specs.Events.{Event, IsDone, Run, begin, result_of};

/// Each job that is done has its result of recursive evaluation, a cycle's refusal among them.
pub fn done_jobs_have_their_results<J, A, V, R>()
    ensures { (rules : Rules J (List ℕ) A V R) (goals : List J) (events : List Event)
        (after : Board J A V R) (place : ℕ) (slot : Slot J A V R) (result : Result V R)
        → Lawful rules
        → Bounded rules
        → AllOwn rules goals
        → Run rules (begin rules goals) events after
        → slice_get after.slots place ≡ Some slot
        → result_of slot.state ≡ Some result
        → Recursive rules [] slot.job result }
{}

/// A job that is done stays so.
pub fn done_jobs_stay<J, A, V, R>()
    ensures { (rules : Rules J (List ℕ) A V R) (before : Board J A V R) (events : List Event)
        (after : Board J A V R) (place : ℕ) (slot : Slot J A V R)
        → Run rules before events after
        → slice_get before.slots place ≡ Some slot
        → IsDone slot.state
        → slice_get after.slots place ≡ Some slot }
{}
