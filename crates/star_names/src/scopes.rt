//! The scopes that stand round a place of a file.
ghost use Rattle.std.specs.Prelude.{◌≡◌, [], ◌∷◌, IfOk, length};
ghost use Rattle.star_trees.specs.Variables.{scope_and_slot, innermost, outer};

use crate::names::Names;
use bz_text::Mem;
use std::alloc::Global;
use std::marker::Model;

/// Scopes. Contracts see the list of their variables, from the innermost on.
#[derive(Drop)]
pub struct Scopes {
    stack: Vec<Names>,
}

impl Model for Scopes {
    ghost use Rattle.std.specs.Prelude.{List, reverse};
    ghost use Rattle.star_trees.specs.Variables.{Names};

    ghost Value = { List Names };

    ghost view = { λ s. reverse s.stack.items };
}

impl Scopes {
    /// No scopes.
    pub fn new(alloc: Global) -> Scopes
        ensures { result ≡ [] }
    {
        Scopes {
            stack: Vec::new(alloc),
        }
    }

    pub fn len(&self) -> usize
        ensures { result ≡ length self.now }
    {
        self.stack.len()
    }

    /// One more scope inside.
    pub fn enter(&mut self, names: Names) -> Mem<()>
        ensures { IfOk result (λ _. self.new ≡ names ∷ self.old) }
    {
        self.stack.push(names)?;
        Ok(())
    }

    /// Leaves the innermost scope, and gives its names.
    pub fn leave(&mut self) -> Option<Names>
        ensures names { result ≡ innermost self.old }
        ensures left { self.new ≡ outer self.old }
    {
        self.stack.pop()
    }

    /// The innermost scope that binds a name, counted outwards from 0, and the name's slot there.
    pub fn find(&self, name: &str) -> Option<(usize, usize)>
        ensures { result ≡ scope_and_slot self.now name.now }
    {
        let mut rest = self.stack.as_slice();
        'turns: while let Some((names, outer)) = rest.split_last() {
            if let Some(slot) = names.slot_of(name) {
                return Some((self.stack.len() - rest.len(), slot));
            }
            rest = outer;
        }
        None
    }
}
