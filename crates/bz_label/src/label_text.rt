//! The text of a label, taken apart.
ghost use Rattle.std.specs.Prelude.{◌≡◌, IfOk, IfErr, List, ℕ, Ok, Some, None};
ghost use Rattle.bz_text.specs.Answers.{Gives, UnlessOutOfMemory};
ghost use Rattle.bz_text.specs.Cuts.{behind, cut, cut_at_root};
ghost use Rattle.bz_label.specs.Grammar.{SpellsLabel};
ghost use Rattle.bz_label.specs.Parts.{alone_parts, apparent_repo, at_home, bad_label};
ghost use Rattle.bz_label.specs.Parts.{canonical_repo, label_parts, named_target, package_target};
ghost use Rattle.bz_label.specs.Parts.{repo_alone, repo_of, rooted_parts, target_parts};

use crate::names::last_name;
use bz_base::{
    May, Miss, Txt, cut_at, cut_at_double_slash, is_apparent, is_canonical, is_package, is_segment,
    is_segmented, text_behind,
};
use std::alloc::Global;

/// The text is no label.
#[derive(Clone, Copy, Debug, PartialEq, Eq)]
pub struct BadLabel;

/// How a label names its repository.
#[derive(Debug, Drop)]
pub enum RepoPart {
    Home,
    Apparent(Txt),
    Canonical(Txt),
}

/// The parts of a label's text. No package is the home's.
#[derive(Debug, Drop)]
pub struct LabelText {
    pub repo: RepoPart,
    pub package: Option<Txt>,
    pub name: Txt,
}

impl LabelText {
    /// The parts of a label's text.
    pub fn parse(alloc: Global, text: &str) -> May<LabelText, BadLabel>
        ensures exact { Gives (label_parts text.now) result }
        ensures label { IfOk result (λ parts. SpellsLabel text.now parts) }
        ensures given { (parts : LabelText)
            → SpellsLabel text.now parts
            → UnlessOutOfMemory (λ given. given ≡ Ok parts) result }
        ensures no_label { result ≡ Err (Miss.Because bad_label)
            → (parts : LabelText)
            → ¬ SpellsLabel text.now parts }
    {
        take_apart(alloc, text)
    }
}

/// Label = `:` Name | a label with `//` | a label without
fn take_apart(alloc: Global, text: &str) -> May<LabelText, BadLabel>
    ensures { Gives (label_parts text.now) result }
{
    if let Some(name) = text_behind(text, ':') {
        return home_label(alloc, name);
    }
    match cut_at_double_slash(text) {
        Some((front, target)) => rooted_label(alloc, front, target),
        None => rootless_label(alloc, text),
    }
}

/// `:` Name, or Name
fn home_label(alloc: Global, name: &str) -> May<LabelText, BadLabel>
    ensures { Gives (at_home name.now) result }
{
    if !is_segmented(name) {
        return Err(Miss::Because(BadLabel));
    }
    Ok(LabelText {
        repo: RepoPart::Home,
        package: None,
        name: Txt::of(alloc, name)?,
    })
}

/// [Repository] `//` [Package] `:` Name, or [Repository] `//` Package
fn rooted_label(alloc: Global, front: &str, target: &str) -> May<LabelText, BadLabel>
    ensures { Gives (rooted_parts (repo_of front.now) target.now) result }
{
    let repo = repo_part(alloc, front)?;
    match cut_at(target, ':') {
        Some((package, name)) => named_label(alloc, repo, package, name),
        None => package_label(alloc, repo, target),
    }
}

fn named_label(alloc: Global, repo: RepoPart, package: &str, name: &str) -> May<LabelText, BadLabel>
    ensures { Gives (named_target repo «package».now name.now) result }
{
    if !is_package(package) || !is_segmented(name) {
        return Err(Miss::Because(BadLabel));
    }
    Ok(LabelText {
        repo,
        package: Some(Txt::of(alloc, package)?),
        name: Txt::of(alloc, name)?,
    })
}

fn package_label(alloc: Global, repo: RepoPart, package: &str) -> May<LabelText, BadLabel>
    ensures { Gives (package_target repo «package».now) result }
{
    if !is_segmented(package) {
        return Err(Miss::Because(BadLabel));
    }
    Ok(LabelText {
        repo,
        package: Some(Txt::of(alloc, package)?),
        name: Txt::of(alloc, last_name(package))?,
    })
}

/// Repository, or Name
fn rootless_label(alloc: Global, text: &str) -> May<LabelText, BadLabel>
    ensures { Gives (alone_parts (behind 64 text.now) text.now) result }
{
    match text_behind(text, '@') {
        Some(_) => repository_label(alloc, repo_part(alloc, text)?),
        None => home_label(alloc, text),
    }
}

fn repository_label(alloc: Global, repo: RepoPart) -> May<LabelText, BadLabel>
    ensures { Gives (repo_alone repo) result }
{
    let name = match &repo {
        RepoPart::Home => return Err(Miss::Because(BadLabel)),
        RepoPart::Apparent(name) => name.copy(alloc)?,
        RepoPart::Canonical(name) => name.copy(alloc)?,
    };
    if !is_segment(name.as_str()) {
        return Err(Miss::Because(BadLabel));
    }
    Ok(LabelText {
        repo,
        package: Some(Txt::of(alloc, "")?),
        name,
    })
}

/// Repository = `@@` Canonical | `@` Apparent | nothing
fn repo_part(alloc: Global, text: &str) -> May<RepoPart, BadLabel>
    ensures { Gives (repo_of text.now) result }
{
    if text == "" {
        return Ok(RepoPart::Home);
    }
    let Some(name) = text_behind(text, '@') else {
        return Err(Miss::Because(BadLabel));
    };
    match text_behind(name, '@') {
        Some(name) => canonical_part(alloc, name),
        None => apparent_part(alloc, name),
    }
}

fn apparent_part(alloc: Global, name: &str) -> May<RepoPart, BadLabel>
    ensures { Gives (apparent_repo name.now) result }
{
    if !is_apparent(name) {
        return Err(Miss::Because(BadLabel));
    }
    Ok(RepoPart::Apparent(Txt::of(alloc, name)?))
}

fn canonical_part(alloc: Global, name: &str) -> May<RepoPart, BadLabel>
    ensures { Gives (canonical_repo name.now) result }
{
    if !is_canonical(name) {
        return Err(Miss::Because(BadLabel));
    }
    Ok(RepoPart::Canonical(Txt::of(alloc, name)?))
}
