//! The texts that name registries, and the texts of their files.
ghost use Rattle.std.specs.Prelude.{◌≡◌, IfOk, codes};
ghost use Rattle.std.specs.Option.{option_copied};
ghost use Rattle.bz_tree.specs.Places.{stripped};
ghost use Rattle.registry_index.specs.Registries as spec;
ghost use Rattle.registry_index.specs.Registries.{is_relative_registry, is_rooted_registry};
ghost use Rattle.bz_base.specs.Paths as paths;

use bz_base::{Key, Mem, Miss, OutOfMemory, TreePath, Txt};
use std::alloc::Global;

/// The text names no registry.
#[derive(Clone, Copy, Debug, PartialEq, Eq)]
pub struct BadRegistry;

/// Whether a text names a registry.
pub fn is_registry(alloc: Global, text: &str) -> Mem<bool>
    ensures { IfOk result (λ good. good ≡ spec.is_registry text.now) }
{
    match in_workspace(text) {
        Some(path) => is_relative(alloc, path),
        None => is_rooted(alloc, behind_scheme(text)),
    }
}

fn is_relative(alloc: Global, path: &str) -> Mem<bool>
    ensures { IfOk result (λ good. good ≡ is_relative_registry path.now) }
{
    Ok(is_registry_path(alloc, path)? && !begins_with_slash(path))
}

fn is_rooted(alloc: Global, path: Option<&str>) -> Mem<bool>
    ensures { IfOk result (λ good. good ≡ is_rooted_registry (option_copied path.entry)) }
{
    match path {
        Some(path) => Ok(is_registry_path(alloc, path)? && begins_with_slash(path) && path != "/"),
        None => Ok(false),
    }
}

/// Whether a path is not empty, and a join leaves it as it is.
#[tactic(auto, unfolding(crate::specs::Registries::is_registry_path))]
fn is_registry_path(alloc: Global, path: &str) -> Mem<bool>
    ensures { IfOk result (λ good. good ≡ spec.is_registry_path path.now) }
{
    match TreePath::workspace(alloc).join(alloc, path) {
        Ok(same) => Ok(!path.is_empty() && path == same.as_str()),
        Err(Miss::Because(_)) => Ok(false),
        Err(Miss::OutOfMemory) => Err(OutOfMemory),
    }
}

fn begins_with_slash(path: &str) -> bool
    ensures { result ≡ paths.is_rooted path.now }
{
    path.as_bytes().first().copied() == Some(b'/')
}

/// The directory of a registry.
pub(crate) fn directory(text: &str) -> &str
    ensures { result.now ≡ spec.directory_of text.now }
{
    match in_workspace(text) {
        Some(path) => path,
        None => behind_scheme(text).unwrap_or(text),
    }
}

#[tactic(auto, unfolding(crate::specs::Registries::in_workspace))]
fn in_workspace(text: &str) -> Option<&str>
    ensures { option_copied result ≡ spec.in_workspace text.now }
{
    strip("file://%workspace%/", text)
}

#[tactic(auto, unfolding(crate::specs::Registries::behind_scheme))]
fn behind_scheme(text: &str) -> Option<&str>
    ensures { option_copied result ≡ spec.behind_scheme text.now }
{
    strip("file://", text)
}

fn strip<'a>(front: &str, text: &'a str) -> Option<&'a str>
    ensures { option_copied result ≡ stripped front.now text.now }
{
    text.strip_prefix(front)
}

/// The name of a registry's file.
#[tactic(auto, unfolding(crate::specs::Registries::url_of))]
pub(crate) fn url(alloc: Global, registry: &str, below: &str) -> Mem<Txt>
    ensures { IfOk result (λ url. url ≡ spec.url_of (record {
      registry = registry.now;
      below = below.now;
    })) }
{
    let mut url = String::from_str(alloc, registry)?;
    url.push_str("/")?;
    url.push_str(below)?;
    Ok(Txt::of_string(url))
}

/// The path of a registry's file.
#[tactic(auto, unfolding(crate::specs::Registries::path_text))]
pub(crate) fn path(alloc: Global, registry: &str, below: &str) -> Mem<Txt>
    ensures { IfOk result (λ path. path ≡ spec.path_text (record {
      registry = registry.now;
      below = below.now;
    })) }
{
    let mut path = String::from_str(alloc, directory(registry))?;
    path.push_str("/")?;
    path.push_str(below)?;
    Ok(Txt::of_string(path))
}

/// A file in the directory of a module version.
#[tactic(auto, unfolding(crate::specs::Registries::below_modules))]
pub(crate) fn below_modules(alloc: Global, key: &Key, name: &str) -> Mem<Txt>
    ensures { IfOk result (λ below. below ≡ spec.below_modules key.now name.now) }
{
    let mut below = String::from_str(alloc, "modules/")?;
    below.push_str(key.name.as_str())?;
    below.push_str("/")?;
    below.push_str(key.version.as_str())?;
    below.push_str("/")?;
    below.push_str(name)?;
    Ok(Txt::of_string(below))
}

/// The printed name of a module's file.
pub(crate) fn printed_file(alloc: Global, key: &Key) -> Mem<Txt>
    ensures { IfOk result (λ name. name ≡ spec.printed_file key.now) }
{
    let mut name = String::new(alloc);
    key.push_text(&mut name)?;
    name.push_str("/MODULE.bazel")?;
    Ok(Txt::of_string(name))
}

/// The name of the file in which a registry speaks of itself.
#[tactic(auto, unfolding(crate::specs::Registries::base_name))]
pub(crate) fn base_name() -> &'static str
    ensures { result.now ≡ spec.base_name }
{
    "bazel_registry.json"
}
