//! What a module file in the literal form declares.
ghost use Rattle.std.specs.Prelude.{◌≡◌, IfOk, Ok};
ghost use Rattle.bz_text.specs.Answers.{Gives};
ghost use Rattle.module_file.specs.LiteralForms.{literal_lines};
ghost use Rattle.module_file.specs.ModuleFiles.{declared_by, declared_in, declared_with, dep_at};
ghost use Rattle.module_file.specs.ModuleFiles.{deps_from, form_refusal, key_declared};

use crate::literal_form::read_lines;
use crate::literal_line::LiteralLine;
use bz_base::{Code, Dep, Key, May, Mem, Miss, ModuleDecl, Refusal, Seq, Txt};
use std::alloc::Global;

/// Reads a module file. One without the literal form is refused.
pub fn read_module(alloc: Global, bytes: &[u8]) -> May<ModuleDecl, Refusal>
    ensures { Gives (declared_in bytes.now) result }
{
    match read_lines(alloc, bytes) {
        Ok(lines) => Ok(declare(alloc, lines.items())?),
        Err(Miss::OutOfMemory) => Err(Miss::OutOfMemory),
        Err(Miss::Because(_)) => Err(Miss::Because(form(alloc))),
    }
}

fn declare(alloc: Global, lines: &[LiteralLine]) -> Mem<ModuleDecl>
    ensures { IfOk result (λ decl. decl ≡ declared_with (key_declared lines.now) (deps_from 1 lines.now)) }
{
    let key = declared_key(alloc, lines)?;
    let deps = declared_deps(alloc, lines)?;
    let repo_name = key.name.copy(alloc)?;
    Ok(ModuleDecl {
        name: key.name,
        version: key.version,
        level: 0,
        repo_name,
        deps,
        nodeps: Seq::new(alloc),
        parts: Seq::new(alloc),
        overrides: Seq::new(alloc),
    })
}

fn declared_key(alloc: Global, lines: &[LiteralLine]) -> Mem<Key>
    ensures { IfOk result (λ key. key ≡ key_declared lines.now) }
{
    for line in lines {
        if let LiteralLine::Module(key) = line {
            return key.copy(alloc);
        }
    }
    Ok(Key {
        name: Txt::of_string(String::new(alloc)),
        version: Txt::of_string(String::new(alloc)),
    })
}

fn declared_deps(alloc: Global, lines: &[LiteralLine]) -> Mem<Seq<Dep>>
    ensures { IfOk result (λ deps. deps ≡ deps_from 1 lines.now) }
{
    let mut deps = Vec::new(alloc);
    let mut number = 1;
    for line in lines {
        if let LiteralLine::Dep(key) = line {
            deps.push(dep(alloc, number, key)?)?;
        }
        number += 1;
    }
    Ok(Seq::of_vec(deps))
}

fn dep(alloc: Global, line: u64, key: &Key) -> Mem<Dep>
    ensures { IfOk result (λ dep. dep ≡ dep_at line key.now) }
{
    Ok(Dep {
        name: key.name.copy(alloc)?,
        version: key.version.copy(alloc)?,
        apparent: key.name.copy(alloc)?,
        dev: false,
        line,
    })
}

/// The refusal of a module file that isn't read yet.
pub fn form(alloc: Global) -> Refusal
    ensures { result ≡ form_refusal }
{
    Refusal::of(alloc, Code::Form)
}
