//! Needs, and what was found at the files among them.
ghost use Rattle.std.specs.Prelude.{◌≡◌, None, Some, IfOk, option_map};
ghost use Rattle.std.specs.Option.{option_copied};
ghost use Rattle.std.specs.Arc.{arc_value};
ghost use Rattle.board_slots.specs.Needs.{found_of, open_path_of};
ghost use Rattle.board_machine.specs.Boards.{File, Job};
ghost use Rattle.board_machine.specs.Moves.{is_file, is_job, filled};

use bz_base::{Mem, TreePath};
use bz_tree::Found;
use std::marker::Model;
use std::sync::Arc;

/// A file with what was found there, or the place of a job.
#[derive(Drop)]
pub enum Asked {
    File(TreePath, Option<Arc<Found>>),
    Job(usize),
}

/// A need of some job.
#[derive(Drop)]
pub struct Wanted {
    asked: Asked,
}

impl Model for Wanted {
    ghost use Rattle.bz_tree.specs.declared.tree.Found.{Found};
    ghost use Rattle.board_machine.specs.Boards.{Needed};
    ghost use Rattle.board_slots.specs.Views.{needed_of};

    ghost Value = { Needed Found };

    ghost view = { λ wanted. needed_of wanted.asked };
}

impl Wanted {
    pub fn file(path: TreePath) -> Wanted
        ensures { result ≡ File path None }
    {
        Wanted {
            asked: Asked::File(path, None),
        }
    }

    pub fn job(place: usize) -> Wanted
        ensures { result ≡ Job place }
    {
        Wanted {
            asked: Asked::Job(place),
        }
    }

    pub fn is_file(&self, path: &TreePath) -> bool
        ensures { result ≡ is_file path.now self.now }
    {
        match &self.asked {
            Asked::File(other, _) => path.as_str() == other.as_str(),
            Asked::Job(_) => false,
        }
    }

    pub fn is_job(&self, place: usize) -> bool
        ensures { result ≡ is_job place self.now }
    {
        match &self.asked {
            Asked::File(_, _) => false,
            Asked::Job(other) => place == *other,
        }
    }

    /// What was found at a file, where that is known.
    pub fn found(&self) -> Mem<Option<Arc<Found>>>
        ensures { IfOk result (λ found. option_map arc_value found ≡ found_of self.now) }
    {
        match &self.asked {
            Asked::File(_, Some(found)) => Ok(Some(Arc::try_clone(found)?)),
            _ => Ok(None),
        }
    }

    /// The path of a file of which nothing is known yet.
    pub fn open_path(&self) -> Option<&TreePath>
        ensures { option_copied result ≡ open_path_of self.now }
    {
        match &self.asked {
            Asked::File(path, None) => Some(path),
            _ => None,
        }
    }

    /// A file's need is answered from now on.
    pub fn fill(&mut self, found: Arc<Found>)
        ensures { self.new ≡ filled (arc_value found) self.old }
    {
        if let Asked::File(_, old) = &mut self.asked {
            *old = Some(found);
        }
    }
}
