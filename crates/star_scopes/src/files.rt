//! A file whose names are resolved.
ghost use Rattle.std.specs.Prelude.{◌≡◌, IfOk};
ghost use Rattle.bz_text.specs.Answers.{Gives};
ghost use Rattle.star_scopes.specs.Files as spec;

use crate::bindings::file_variables;
use crate::dialects::Dialect;
use crate::lists::Lists;
use crate::maker::Maker;
use crate::statement_uses::free_names;
use crate::unbound::Unbound;
use bz_text::{May, Mem};
use star_grammar::BareStmt;
use star_names::{Names, Scopes};
use star_trees::File;
use std::alloc::Global;

/// A file whose free names are these.
fn file_with(alloc: Global, free: Names, body: &[BareStmt]) -> Mem<File>
    ensures { IfOk result (λ file. file ≡ spec.file_with free body.now) }
{
    let mut scopes = Scopes::new(alloc);
    scopes.enter(file_variables(alloc, body)?)?;
    let mut maker = Maker {
        alloc,
        free,
        scopes,
        lists: Lists::new(alloc),
    };
    let body = maker.body_made(body)?;
    let free = maker.free.texts(alloc)?;
    let Maker {
        alloc: _,
        free: _,
        scopes: _,
        lists,
    } = maker;
    let Lists { functions, loads } = lists;
    Ok(File {
        body,
        loads,
        functions,
        free,
    })
}

/// The file with each name as its variable, unless one is unbound: then the first use of such a
/// name.
pub fn resolved(alloc: Global, dialect: Dialect, body: &[BareStmt]) -> May<File, Unbound>
    ensures { Gives (spec.resolved dialect body.now) result }
{
    let free = free_names(alloc, dialect, body)?;
    Ok(file_with(alloc, free, body)?)
}
