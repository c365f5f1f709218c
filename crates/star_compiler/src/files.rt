//! The code of a file.
ghost use Rattle.std.specs.Prelude.{◌≡◌, IfOk, OnOk, length, map, suc};
ghost use Rattle.star_compiler.specs.Emitted as spec;
ghost use Rattle.star_compiler.specs.Emitted.{BodyBlock, DefaultsBlock, EmitsDefault, ExprsBlock};
ghost use Rattle.star_compiler.specs.Emitted.{FnEmitted, FnsEmitted, IsCompiled};
ghost use Rattle.star_core.specs.Conditions as conditions;
ghost use Rattle.star_meaning.specs.Parameters.{defaults_of, formal_of};
ghost use Rattle.star_trees.specs.declared.files.FnBody.TheVariants as body;

use crate::emitter::{Emitter, put};
use bz_text::{Mem, OutOfMemory, Txt};
use sqlite_items::Items;
use star_code::{Code, FnEntry, Instr};
use star_core::{Dict, Expr, File, FnBody, FnCode, Heap, Param, Stack};
use star_meaning::Formal;
use std::alloc::Global;

/// A file's code, the cells of the texts that it spells, and the heap in which they lie.
#[derive(Drop)]
pub struct Compiled {
    pub code: Code,
    pub literals: Dict,
    pub heap: Heap,
}

/// The code of a file, over a heap which gets the cells of the texts that the file spells.
pub fn compile(alloc: Global, file: &File, heap: Heap) -> Mem<Compiled>
    ensures { IfOk result (λ compiled. IsCompiled file.now heap compiled) }
{
    let mut emitter = Emitter {
        blocks: Items::new(alloc),
        names: Items::new(alloc),
        shapes: Items::new(alloc),
        literals: Dict::new(alloc),
        least: 0,
        heap,
        alloc,
    };
    let functions = emitter.functions(file.functions.items())?;
    let top = emitter.block(file.body.as_slice())?;
    let Emitter {
        blocks,
        names,
        shapes,
        literals,
        least: _,
        heap,
        alloc: _,
    } = emitter;
    Ok(Compiled {
        code: Code {
            blocks,
            names,
            shapes,
            functions,
            top,
        },
        literals,
        heap,
    })
}

impl Emitter {
    fn functions(&mut self, functions: &[FnCode]) -> Mem<Items<FnEntry>>
        requires { self.old.least ≡ 0 }
        ensures { IfOk result (λ entries. FnsEmitted functions.now self.old self.new entries) }
    {
        let mut entries = Items::new(self.alloc);
        for function in functions {
            let index = entries.len();
            let entry = self.function(index, function)?;
            entries.push(entry)?;
        }
        Ok(entries)
    }

    fn function(&mut self, index: usize, function: &FnCode) -> Mem<FnEntry>
        requires { self.old.least ≡ 0 }
        ensures { IfOk result (λ entry. FnEmitted index function.now self.old self.new entry) }
    {
        let defaults = self.defaults(index, function.params.items())?;
        let block = self.body(&function.body)?;
        let name = printed_name(self.alloc, &function.name)?;
        Ok(FnEntry {
            name,
            params: formals(self.alloc, function.params.items())?,
            optional: optional_count(function.params.items())?,
            defaults,
            block,
        })
    }

    /// The block of a function's defaults, which make no function up to this one.
    fn defaults(&mut self, index: usize, params: &[Param]) -> Mem<usize>
        requires { self.old.least ≡ 0 }
        ensures { IfOk result (λ block. DefaultsBlock index (defaults_of params.now) block self.old
            self.new) }
    {
        let least = behind(index)?;
        self.least = least;
        let block = self.defaults_block(params)?;
        self.least = 0;
        Ok(block)
    }

    fn defaults_block(&mut self, params: &[Param]) -> Mem<usize>
        ensures { IfOk result (λ block. ExprsBlock (defaults_of params.now) block self.old
            self.new) }
    {
        let mut out = Stack::new(self.alloc);
        let mut left = params.len();
        'params: while left > 0 {
            left -= 1;
            self.default(&mut out, &params[left])?;
        }
        self.keep_block(out)
    }

    /// The code of a parameter's default, where it has one.
    fn default(&mut self, out: &mut Stack<Instr>, param: &Param) -> Mem<()>
        ensures { OnOk result (EmitsDefault param.now self.old self.new out.old out.new) }
    {
        match param {
            Param::Optional { name: _, default } => self.expr(out, default),
            _ => Ok(()),
        }
    }

    fn body(&mut self, body: &FnBody) -> Mem<usize>
        ensures { IfOk result (λ block. BodyBlock body.now block self.old self.new) }
    {
        match body {
            FnBody::Block(stmts) => self.block(stmts.as_slice()),
            FnBody::Value(value) => self.value_block(value.get()),
        }
    }

    /// The block of a lambda, which gives its value back.
    fn value_block(&mut self, value: &Expr) -> Mem<usize>
        ensures { IfOk result
            (λ block. BodyBlock (body.Value value.now) block self.old self.new) }
    {
        let mut out = Stack::new(self.alloc);
        put(&mut out, Instr::Return)?;
        self.expr(&mut out, value)?;
        self.keep_block(out)
    }
}

/// The name of a function; a lambda has none of its own.
fn printed_name(alloc: Global, name: &Option<Txt>) -> Mem<Txt>
    ensures { IfOk result (λ text. text ≡ conditions.printed_name name.now) }
{
    match name {
        None => Txt::of(alloc, "lambda"),
        Some(name) => name.copy(alloc),
    }
}

/// The number of the function behind one.
fn behind(index: usize) -> Mem<usize>
    ensures { IfOk result (λ next. next ≡ suc index) }
{
    match index.checked_add(1) {
        Some(next) => Ok(next),
        None => Err(OutOfMemory),
    }
}

/// A parameter without its default.
fn formal(alloc: Global, param: &Param) -> Mem<Formal>
    ensures { IfOk result (λ formal. formal ≡ formal_of param.now) }
{
    match param {
        Param::Required(name) => Ok(Formal::Required(name.copy(alloc)?)),
        Param::Optional { name, default: _ } => Ok(Formal::Optional(name.copy(alloc)?)),
        Param::Bare => Ok(Formal::Bare),
        Param::Rest(name) => Ok(Formal::Rest(name.copy(alloc)?)),
        Param::Keywords(name) => Ok(Formal::Keywords(name.copy(alloc)?)),
    }
}

fn formals(alloc: Global, params: &[Param]) -> Mem<Items<Formal>>
    ensures { IfOk result (λ formals. formals ≡ map formal_of params.now) }
{
    let mut formals = Items::new(alloc);
    'formals: for param in params {
        formals.push(formal(alloc, param)?)?;
    }
    Ok(formals)
}

fn has_default(param: &Param) -> bool
    ensures { result ≡ spec.has_default param.now }
{
    match param {
        Param::Optional {
            name: _,
            default: _,
        } => true,
        _ => false,
    }
}

/// How many parameters have a default.
fn optional_count(params: &[Param]) -> Mem<usize>
    ensures { IfOk result (λ count. count ≡ length (defaults_of params.now)) }
{
    let mut count = 0;
    'counting: for param in params {
        count = counted(count, param)?;
    }
    Ok(count)
}

/// One more where a parameter has a default.
fn counted(count: usize, param: &Param) -> Mem<usize>
    ensures { IfOk result (λ more. more ≡ spec.counted_with param.now count) }
{
    if !has_default(param) {
        return Ok(count);
    }
    match count.checked_add(1) {
        Some(more) => Ok(more),
        None => Err(OutOfMemory),
    }
}
