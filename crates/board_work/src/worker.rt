//! What a worker takes from a board and brings back.
use crate::turns::Given;
use crate::work::Work;

/// It names a work, its goals and, where a tree tells them, the files: whoever takes a board out of
/// a lock knows which it is for.
pub trait BoardOf<W: Work> {
    ghost use Rattle.std.specs.Prelude.{List, ℕ, Option};
    ghost use Rattle.bz_tree.specs.declared.tree.Found.{Found};

    ghost work: { W };

    ghost goals: { List W.Job };

    ghost files: { Option (List ℕ → Found) };
}

/// What a worker holds of the job that it claimed: the job's place, the job, and how many answers
/// it was given.
#[derive(Drop)]
pub struct Held<W: Work> {
    pub worker: u32,
    pub place: u64,
    pub job: W::Job,
    pub answers: u64,
}

/// What a claim gives: a job, with the part that its turns have come to and what that is given; or
/// why there is none.
#[derive(Drop)]
pub enum Claim<W: Work> {
    Job {
        held: Held<W>,
        part: Option<W::Part>,
        given: Option<Given<W::Value>>,
    },
    Nothing,
    Finished,
}
