//! What the clauses of an evaluation's calls come to.
ghost use Rattle.std.specs.Prelude.{◌≡◌, [], ℕ, List, length};
ghost use Rattle.star_core.specs.Tables.{Table, Within};
ghost use Rattle.star_core.specs.declared.values.Val.{Val};
ghost use Rattle.star_eval.specs.Evaluations.{IsCallBegun, IsFileBegun, Stands, call_world};
ghost use Rattle.star_eval.specs.Evaluations.{file_world};
ghost use Rattle.star_eval.specs.declared.evaluation.Evaluation.{Evaluation};
ghost use Rattle.star_eval.specs.declared.evaluation.Store.{Store};
ghost use Rattle.star_meaning.specs.Calls.{call_meaning, file_meaning};
ghost use Rattle.star_meaning.specs.Results.{Outcome};
ghost use Rattle.star_trees.specs.declared.files.File.{File};
ghost use Rattle.star_turn.specs.Turns.{IsAnswered};

use star_core::Host;
use star_meaning::Library;

/// A file that was begun stands for what it means, with whatever answers.
pub fn a_begun_file_stands_for_its_meaning<H: Host, L: Library>()
    ensures { (store : Store) (file : File) (name : List ℕ) (free : List Val) (limit : ℕ)
        (evaluation : Evaluation) (host : H)
        (begun : IsFileBegun store file name free limit evaluation)
        → Stands H.meaning L.rows (λ answers. file_meaning H.meaning answers L.rows
        evaluation.files.programs (length store.files.programs)
        (record { tree = file; literals = begun.added.literals })
        (file_world free limit store.scopes begun.heap) host) [] evaluation host }
{}

/// A call that was begun stands for what it means, with whatever answers.
pub fn a_begun_call_stands_for_its_meaning<H: Host, L: Library>()
    ensures { (store : Store) (f : Val) (values : List Val) (limit : ℕ)
        (evaluation : Evaluation) (host : H)
        → IsCallBegun store f values limit evaluation
        → Stands H.meaning L.rows (λ answers. call_meaning H.meaning answers L.rows
        evaluation.files.programs f values (call_world limit store.scopes store.heap) host) []
        evaluation host }
{}

/// What an evaluation means is the same with more answers, where with fewer none was missing.
pub fn more_answers_change_nothing<H: Host, L: Library>()
    ensures { (meaning : Table → Outcome H) (answers less more : Table)
        (evaluation : Evaluation) (host : H)
        → Stands H.meaning L.rows meaning answers evaluation host
        → Within answers less
        → Within less more
        → IsAnswered (meaning less)
        → meaning more ≡ meaning less }
{}
