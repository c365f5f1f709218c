//! The files that an evaluation may call into, each with its code.
ghost use Rattle.std.specs.Prelude.{◌≡◌, ◌∷◌, [], IfOk, length, slice_set};
ghost use Rattle.star_eval.specs.Loaded as spec;
ghost use Rattle.star_eval.specs.Loaded.{IsAdded, IsLoaded, call_code, no_files};

use crate::shared_file::SharedFile;
use bz_text::{Mem, Seq, Txt};
use sqlite_items::Items;
use star_code::{Code, Instr};
use star_compiler::compile;
use star_core::{Dict, File, Heap};
use std::alloc::Global;
use std::marker::Model;

/// A file that an evaluation may run, and the cells of the texts that it spells.
#[derive(Drop)]
pub struct Program {
    pub tree: SharedFile,
    pub literals: Dict,
}

/// The files by number, each with its code and its printed name. File 0 is empty: from its code
/// values are called from outside.
pub struct Files {
    programs: Vec<Program>,
    coded: Vec<Code>,
    names: Vec<Txt>,
}

impl Drop for Files {
    fn drop(self) {
        let Files {
            programs: _,
            coded: _,
            names: _,
        } = self;
    }
}

impl Model for Files {
    ghost use Rattle.std.specs.Coded.{codes};
    ghost use Rattle.std.specs.Prelude.{map};
    ghost use Rattle.star_eval.specs.Loaded.{IsLoaded, Loaded, program_of};
    ghost use Rattle.star_trees.specs.contracts.trees.Stmt as stmts;
    ghost use Rattle.star_trees.specs.contracts.trees.Expr as exprs;

    ghost Value = { Loaded };

    ghost coded = { Prim.hlevel (codes, exprs.the_row.coded, stmts.the_row.coded) };

    ghost view = { λ f. record {
      programs = map program_of f.programs.items;
      codes = f.coded.items;
      names = f.names.items;
    } };

    ghost invariant = { λ f. IsLoaded (map program_of f.programs.items) f.coded.items };
}

/// A file to which nothing belongs.
fn empty_file(alloc: Global) -> File
    ensures { result ≡ spec.empty_file }
{
    File {
        body: Items::new(alloc),
        loads: Seq::new(alloc),
        functions: Seq::new(alloc),
        free: Seq::new(alloc),
    }
}

fn empty_program(alloc: Global) -> Mem<Program>
    ensures { IfOk result (λ program. spec.program_of program ≡ spec.empty_program) }
{
    Ok(Program {
        tree: SharedFile::new(alloc, empty_file(alloc))?,
        literals: Dict::new(alloc),
    })
}

/// One item alone.
fn only<T: Drop>(alloc: Global, item: T) -> Mem<Vec<T>>
    ensures { IfOk result (λ items. items.items ≡ item ∷ []) }
{
    let mut items = Vec::new(alloc);
    items.push(item)?;
    Ok(items)
}

/// Puts a code in the place of the first.
fn put_first(codes: &mut Vec<Code>, code: Code)
    ensures { codes.new.items ≡ slice_set codes.old.items 0 code }
{
    if let Some(first) = codes.get_mut(0) {
        *first = code;
    }
}

/// The code from which a value is called with so many arguments.
fn calling(alloc: Global, count: usize) -> Mem<Code>
    ensures { IfOk result (λ code. code ≡ call_code count) }
{
    let mut call = Items::new(alloc);
    call.push(Instr::Call(count))?;
    call.push(Instr::Return)?;
    let mut blocks = Items::new(alloc);
    blocks.push(Items::new(alloc))?;
    blocks.push(call)?;
    Ok(Code {
        blocks,
        names: Items::new(alloc),
        shapes: Items::new(alloc),
        functions: Items::new(alloc),
        top: 0,
    })
}

impl Files {
    /// No file but the empty one.
    pub fn new(alloc: Global) -> Mem<Files>
        ensures { IfOk result (λ files. files ≡ no_files) }
    {
        let programs = only(alloc, empty_program(alloc)?)?;
        let coded = only(alloc, calling(alloc, 0)?)?;
        let names = only(alloc, Txt::of(alloc, "")?)?;
        Ok(Files {
            programs,
            coded,
            names,
        })
    }

    /// One file more, under its printed name, and the heap with the cells of its texts.
    pub fn add(self, alloc: Global, file: SharedFile, name: Txt, heap: Heap) -> Mem<(Files, Heap)>
        ensures { IfOk result (λ added. IsAdded file name heap self added.0 added.1) }
    {
        let compiled = compile(alloc, file.get(), heap)?;
        let Files {
            mut programs,
            mut coded,
            mut names,
        } = self;
        programs.push(Program {
            tree: file,
            literals: compiled.literals,
        })?;
        coded.push(compiled.code)?;
        names.push(name)?;
        Ok((
            Files {
                programs,
                coded,
                names,
            },
            compiled.heap,
        ))
    }

    /// The files where the empty one's code calls a value with so many arguments.
    pub fn with_call(self, alloc: Global, count: usize) -> Mem<Files>
        ensures files { IfOk result (λ files. files ≡ spec.with_call count self) }
        ensures loaded { IfOk result (λ files. IsLoaded files.programs files.codes) }
    {
        let code = calling(alloc, count)?;
        let Files {
            programs,
            mut coded,
            names,
        } = self;
        put_first(&mut coded, code);
        Ok(Files {
            programs,
            coded,
            names,
        })
    }

    pub fn codes(&self) -> &[Code]
        ensures { result.now ≡ self.now.codes }
    {
        self.coded.as_slice()
    }

    pub fn names(&self) -> &[Txt]
        ensures { result.now ≡ self.now.names }
    {
        self.names.as_slice()
    }

    /// How many files there are, the empty one counted.
    pub fn len(&self) -> usize
        ensures { result ≡ length self.now.programs }
    {
        self.programs.len()
    }
}
