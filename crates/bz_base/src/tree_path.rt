//! Paths of the tree, from the workspace or from `/` on.
ghost use Rattle.std.specs.Prelude.{◌≡◌, ◌==◌, [], ◌∷◌, ◌++◌, List, ℕ, Ok, Result, IfOk, IsTrue};
ghost use Rattle.std.specs.Prelude.{string_bytes, slice_get, length, ◌-◌, flat_map, OnOk};
ghost use Rattle.bz_text.specs.Answers.{Gives};
ghost use Rattle.bz_base.specs.NormalPaths.{is_normal};
ghost use Rattle.bz_base.specs.Paths.{above, has_nul, is_name, is_rooted, joined, names_joined};
ghost use Rattle.bz_base.specs.Paths.{resolved, goes_up, segments_of, spelled, stays, stepped};
ghost use Rattle.bz_base.specs.Paths.{walked};

use bz_text::{May, Mem, Miss, Seq, Txt, cut_at};
use std::alloc::Global;
use std::marker::Model;

/// The text leads above `/`, or has a NUL.
#[derive(Clone, Copy, Debug, PartialEq, Eq)]
pub struct BadPath;

/// A path, resolved by its text alone. Contracts see it as its bytes, which are a normal path; the
/// workspace is the empty path.
#[derive(Debug, Drop)]
pub struct TreePath {
    text: Txt,
}

impl Model for TreePath {
    ghost use Rattle.std.specs.Prelude.{List, ℕ, IsTrue};
    ghost use Rattle.bz_base.specs.NormalPaths.{is_normal};

    ghost Value = { List ℕ };

    ghost view = { λ p. p.text };

    ghost invariant = { λ p. IsTrue (is_normal p.text) };
}

impl TreePath {
    /// The path of the workspace.
    pub fn workspace(alloc: Global) -> TreePath
        ensures { result ≡ [] }
    {
        TreePath {
            text: Txt::of_string(String::new(alloc)),
        }
    }

    /// The path to which a text leads from here; a text that begins with `/` leads there from
    /// anywhere.
    pub fn join(&self, alloc: Global, text: &str) -> May<TreePath, BadPath>
        ensures { Gives (joined self.now text.now) result }
    {
        join_texts(alloc, self.as_str(), text)
    }

    pub fn as_str(&self) -> &str
        ensures same { result.now ≡ self.now }
        ensures normal { IsTrue (is_normal self.now) }
    {
        self.text.as_str()
    }

    /// A second path with the same text.
    pub fn copy(&self, alloc: Global) -> Mem<TreePath>
        ensures { IfOk result (λ copy. copy ≡ self.now) }
    {
        Ok(TreePath {
            text: self.text.copy(alloc)?,
        })
    }
}

fn contains_nul(text: &str) -> bool
    ensures { result ≡ has_nul text.now }
{
    text.as_bytes().iter().any(|b| *b == 0)
}

fn begins_with_slash(text: &str) -> bool
    ensures { result ≡ is_rooted text.now }
{
    text.as_bytes().first().copied() == Some(b'/')
}

fn join_texts(alloc: Global, path: &str, text: &str) -> May<TreePath, BadPath>
    ensures { Gives (joined path.now text.now) result }
{
    if contains_nul(text) {
        return Err(Miss::Because(BadPath));
    }
    if begins_with_slash(text) {
        return resolve(alloc, true, "", text);
    }
    resolve(alloc, begins_with_slash(path), path, text)
}

#[tactic(auto, unfolding(crate::specs::Paths::resolved))]
fn resolve(alloc: Global, rooted: bool, path: &str, text: &str) -> May<TreePath, BadPath>
    ensures { Gives (resolved rooted path.now text.now) result }
{
    let names = walk(alloc, rooted, Seq::new(alloc), path)?;
    let names = walk(alloc, rooted, names, text)?;
    let text = spell(alloc, rooted, names.items())?;
    Ok(TreePath { text })
}

/// The names after each segment of the text.
fn walk(alloc: Global, rooted: bool, names: Seq<Txt>, text: &str) -> May<Seq<Txt>, BadPath>
    ensures { Gives (walked rooted (Ok names) (segments_of text.now)) result }
{
    let mut names = names;
    let mut rest = text;
    'segments: while let Some((segment, more)) = cut_at(rest, '/') {
        names = step(alloc, rooted, names, segment)?;
        rest = more;
    }
    step(alloc, rooted, names, rest)
}

fn step(alloc: Global, rooted: bool, names: Seq<Txt>, segment: &str) -> May<Seq<Txt>, BadPath>
    ensures { Gives (stepped rooted names segment.now) result }
{
    if segment == "" || segment == "." {
        return Ok(names);
    }
    if segment == ".." {
        return go_up(alloc, rooted, names);
    }
    add(alloc, names, segment)
}

fn go_up(alloc: Global, rooted: bool, names: Seq<Txt>) -> May<Seq<Txt>, BadPath>
    ensures { Gives (above rooted names) result }
{
    if ends_in_name(names.items()) {
        let mut names = names.into_vec();
        names.pop();
        return Ok(Seq::of_vec(names));
    }
    if !rooted {
        return add(alloc, names, "..");
    }
    Err(Miss::Because(BadPath))
}

fn ends_in_name(names: &[Txt]) -> bool
    ensures { result ≡ is_name (slice_get names.now (length names.now - 1)) }
{
    match names.last() {
        None => false,
        Some(name) => name.as_str() != "..",
    }
}

fn add(alloc: Global, names: Seq<Txt>, name: &str) -> May<Seq<Txt>, BadPath>
    ensures { Gives (Ok (names ++ name.now ∷ [])) result }
{
    let mut names = names;
    match names.push(Txt::of(alloc, name)?) {
        Ok(()) => Ok(names),
        Err(_) => Err(Miss::OutOfMemory),
    }
}

fn spell(alloc: Global, rooted: bool, names: &[Txt]) -> Mem<Txt>
    ensures { IfOk result (λ text. text ≡ spelled rooted names.now) }
{
    let mut text = String::new(alloc);
    if rooted {
        text.push_str("/")?;
    }
    push_names(&mut text, names)?;
    Ok(Txt::of_string(text))
}

fn push_names(text: &mut String, names: &[Txt]) -> Mem<()>
    ensures { OnOk result (string_bytes text.new ≡ string_bytes text.old ++ names_joined names.now) }
{
    match names {
        [] => Ok(()),
        [name, further @ ..] => {
            text.push_str(name.as_str())?;
            push_further(text, further)
        }
    }
}

fn push_further(text: &mut String, names: &[Txt]) -> Mem<()>
    ensures { OnOk result (string_bytes text.new ≡ string_bytes text.old ++ flat_map (λ further. 47 ∷
        further) names.now) }
{
    for name in names {
        text.push_str("/")?;
        text.push_str(name.as_str())?;
    }
    Ok(())
}
