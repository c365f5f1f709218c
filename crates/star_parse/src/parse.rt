//! Files of the two dialects: the tree that a text spells, then the forms that its dialect refuses,
//! then its names.
ghost use Rattle.std.specs.Prelude.{◌≡◌, IfOk};
ghost use Rattle.bz_text.specs.Answers.{Gives};
ghost use Rattle.star_trees.specs.WellFormed.{WellFormed};
ghost use Rattle.star_grammar.specs.Texts.{Spelled};
ghost use Rattle.star_parse.specs.Parses.{Parses, first_form, meaning_in, file_or_unbound};
ghost use Rattle.star_scopes.specs.Files.{resolved};
ghost use Rattle.star_scopes.specs.declared.dialects.Dialect.TheVariants as dialect;

use bz_text::{May, Mem, Miss, Txt};
use star_dialects::{Refused, refused_in_bzl, refused_in_module};
use star_grammar::BareStmt;
use star_scopes::{Dialect, Unbound, resolved};
use star_statements::{TreeFault, tree};
use star_trees::File;
use std::alloc::Global;

/// Why a text is no file of its dialect. The hint is the line to look at; `form` is the form that
/// is refused.
#[derive(Debug, Drop)]
pub enum ParseFault {
    Lex { hint: u64 },
    Syntax { hint: u64 },
    Dialect { line: u64, form: Txt },
    Unbound { line: u64, name: Txt },
}

/// An extension's or a rule's file. It is well formed: an evaluation may rest on its places,
/// variables and depth.
pub fn parse_bzl(alloc: Global, text: &str) -> May<File, ParseFault>
    ensures parses { Parses dialect.Extension text.now result }
    ensures well_formed { IfOk result WellFormed }
{
    parsed(alloc, Dialect::Extension, text)
}

/// A module's file. It is well formed: an evaluation may rest on its places, variables and depth.
pub fn parse_module(alloc: Global, text: &str) -> May<File, ParseFault>
    ensures parses { Parses dialect.Module text.now result }
    ensures well_formed { IfOk result WellFormed }
{
    parsed(alloc, Dialect::Module, text)
}

fn parsed(alloc: Global, dialect: Dialect, text: &str) -> May<File, ParseFault>
    ensures { Parses dialect text.now result }
{
    match tree(alloc, text) {
        Ok(tree) => file_of_tree(alloc, dialect, tree.body.as_slice()),
        Err(Miss::Because(TreeFault::Lex { hint })) => {
            Err(Miss::Because(ParseFault::Lex { hint }))
        }
        Err(Miss::Because(TreeFault::Syntax { hint })) => {
            Err(Miss::Because(ParseFault::Syntax { hint }))
        }
        Err(Miss::OutOfMemory) => Err(Miss::OutOfMemory),
    }
}

/// What a tree is in a dialect.
fn file_of_tree(alloc: Global, dialect: Dialect, body: &[BareStmt]) -> May<File, ParseFault>
    ensures { Gives (meaning_in dialect body.now) result }
{
    match refused(alloc, dialect, body)? {
        Some(refused) => Err(Miss::Because(ParseFault::Dialect {
            line: refused.line,
            form: Txt::of(alloc, refused.form.text())?,
        })),
        None => file(alloc, dialect, body),
    }
}

/// The first form that the dialect refuses.
fn refused(alloc: Global, dialect: Dialect, body: &[BareStmt]) -> Mem<Option<Refused>>
    ensures { IfOk result (λ refused. refused ≡ first_form dialect body.now) }
{
    match dialect {
        Dialect::Extension => refused_in_bzl(alloc, body),
        Dialect::Module => Ok(refused_in_module(body)),
    }
}

/// The file with its names resolved.
fn file(alloc: Global, dialect: Dialect, body: &[BareStmt]) -> May<File, ParseFault>
    ensures { Gives (file_or_unbound (resolved dialect body.now)) result }
{
    match resolved(alloc, dialect, body) {
        Ok(file) => Ok(file),
        Err(Miss::Because(Unbound { line, name })) => {
            Err(Miss::Because(ParseFault::Unbound { line, name }))
        }
        Err(Miss::OutOfMemory) => Err(Miss::OutOfMemory),
    }
}
