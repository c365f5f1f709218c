//! Declarations and refusals as texts.
use bz_base::{Dep, ModuleDecl, Override, OverrideKind, Part, Refusal, Usage};
use bz_text::{Mem, Txt};
use std::alloc::Global;
use std::fmt::Write;

/// A refusal: `!CODE FILE:LINE DETAIL`.
pub(crate) fn refused_text(alloc: Global, refusal: &Refusal) -> Mem<Txt> {
    let code = refusal.code.name();
    let file = refusal.file.as_str();
    let line = refusal.line;
    let detail = refusal.detail.as_str();
    Ok(Txt::of_string(format!(in alloc; "!{code} {file}:{line} {detail}")?))
}

/// A declaration: the module's own parts, then each further one behind a bar.
pub(crate) fn declared_text(alloc: Global, decl: &ModuleDecl) -> Mem<Txt> {
    let mut out = head_text(alloc, decl)?;
    for dep in decl.deps.items() {
        write_dep(&mut out, "dep", dep)?;
    }
    for dep in decl.nodeps.items() {
        write_dep(&mut out, "nodep", dep)?;
    }
    for part in decl.parts.items() {
        write_part(&mut out, part)?;
    }
    for one in decl.overrides.items() {
        write_override(&mut out, one)?;
    }
    Ok(Txt::of_string(out))
}

fn head_text(alloc: Global, decl: &ModuleDecl) -> Mem<String> {
    let name = decl.name.as_str();
    let version = decl.version.as_str();
    let level = decl.level;
    let repo_name = decl.repo_name.as_str();
    Ok(format!(in alloc; "{name}@{version} {level} {repo_name}")?)
}

fn write_dep(out: &mut String, kind: &str, dep: &Dep) -> Mem<()> {
    let name = dep.name.as_str();
    let version = dep.version.as_str();
    let apparent = dep.apparent.as_str();
    let dev = dep.dev;
    let line = dep.line;
    write!(out, " | {kind} {name}@{version} {apparent} {dev} {line}")?;
    Ok(())
}

fn write_part(out: &mut String, part: &Part) -> Mem<()> {
    match part {
        Part::Usage(usage) => write_usage(out, usage),
        Part::Declared(declared) => {
            let bzl = declared.bzl.as_str();
            let rule = declared.rule.as_str();
            let attrs = declared.attrs.items().len();
            let line = declared.line;
            write!(out, " | repo {bzl} {rule} {attrs} {line}")?;
            Ok(())
        }
    }
}

fn write_usage(out: &mut String, usage: &Usage) -> Mem<()> {
    let bzl = usage.bzl.as_str();
    let name = usage.name.as_str();
    let dev = usage.dev;
    let line = usage.line;
    write!(out, " | use {bzl} {name} {dev} {line}")?;
    write_tags(out, usage)?;
    write_imports(out, usage)?;
    write_changes(out, usage)
}

fn write_tags(out: &mut String, usage: &Usage) -> Mem<()> {
    for tag in usage.tags.items() {
        let class = tag.class.as_str();
        let attrs = tag.attrs.items().len();
        let dev = tag.dev;
        write!(out, " tag {class} {attrs} {dev}")?;
    }
    Ok(())
}

fn write_imports(out: &mut String, usage: &Usage) -> Mem<()> {
    for import in usage.imports.items() {
        let apparent = import.apparent.as_str();
        let real = import.real.as_str();
        let line = import.line;
        write!(out, " {apparent}={real}@{line}")?;
    }
    Ok(())
}

fn write_changes(out: &mut String, usage: &Usage) -> Mem<()> {
    for change in usage.changes.items() {
        let real = change.real.as_str();
        let apparent = change.apparent.as_str();
        let inject = change.inject;
        write!(out, " change {real}={apparent} {inject}")?;
    }
    Ok(())
}

fn write_override(out: &mut String, one: &Override) -> Mem<()> {
    let name = one.name.as_str();
    let line = one.line;
    write!(out, " | override {name} {line} ")?;
    write_kind(out, &one.kind)
}

fn write_kind(out: &mut String, kind: &OverrideKind) -> Mem<()> {
    match kind {
        OverrideKind::Single {
            version,
            registry,
            patched,
        } => write_single(out, version, registry, *patched),
        OverrideKind::Multiple { versions, registry } => {
            let count = versions.items().len();
            let registry = registry.as_str();
            write!(out, "multiple {count} {registry}")?;
            Ok(())
        }
        OverrideKind::Local { path } => {
            let path = path.as_str();
            write!(out, "local {path}")?;
            Ok(())
        }
        OverrideKind::Archive => Ok(out.push_str("archive")?),
        OverrideKind::Git => Ok(out.push_str("git")?),
    }
}

fn write_single(out: &mut String, version: &Txt, registry: &Txt, patched: bool) -> Mem<()> {
    let version = version.as_str();
    let registry = registry.as_str();
    write!(out, "single {version} {registry} {patched}")?;
    Ok(())
}
