//! Files that several evaluations share.
ghost use Rattle.std.specs.Prelude.{◌≡◌, IfOk};

use bz_text::Mem;
use star_core::File;
use std::alloc::Global;
use std::marker::Model;
use std::sync::Arc;

/// A file's tree, of which there may be many holders. Contracts see the tree.
pub struct SharedFile {
    file: Arc<File>,
}

impl Drop for SharedFile {
    fn drop(self) {
        let SharedFile { file: _ } = self;
    }
}

impl Model for SharedFile {
    ghost use Rattle.std.specs.Arc.{arc_value};
    ghost use Rattle.std.specs.Coded.{codes};
    ghost use Rattle.star_trees.specs.declared.files.File.{File};
    ghost use Rattle.star_trees.specs.contracts.trees.Stmt as stmts;
    ghost use Rattle.star_trees.specs.contracts.trees.Expr as exprs;

    ghost Value = { File };

    ghost coded = { Prim.hlevel (codes, exprs.the_row.coded, stmts.the_row.coded) };

    ghost view = { λ s. arc_value s.file };
}

impl SharedFile {
    pub fn new(alloc: Global, file: File) -> Mem<SharedFile>
        ensures { IfOk result (λ shared. shared ≡ file) }
    {
        Ok(SharedFile {
            file: Arc::new(alloc, file)?,
        })
    }

    /// One holder more.
    pub fn share(&self) -> Mem<SharedFile>
        ensures { IfOk result (λ shared. shared ≡ self.now) }
    {
        Ok(SharedFile {
            file: Arc::try_clone(&self.file)?,
        })
    }

    pub fn get(&self) -> &File
        ensures { result.now ≡ self.now }
    {
        &self.file
    }
}
