//! The module that a dependency means.
ghost use Rattle.std.specs.Prelude.{◌≡◌, IfOk};
ghost use Rattle.std.specs.Option.{option_copied};
ghost use Rattle.bz_text.specs.Answers.{Gives};
ghost use Rattle.overrides.specs.Overrides as spec;
ghost use Rattle.overrides.specs.Overrides.{module_at, no_version_refusal};

use bz_base::{Code, Key, May, Mem, Miss, OverrideKind, Refusal, Txt};
use std::alloc::Global;

/// What a dependency means.
#[derive(Debug, Drop)]
pub enum Effective {
    Root,
    Module(Key),
}

/// The module at a version, or that the dependency asks for none.
pub(crate) fn module(alloc: Global, name: &str, version: Option<&str>) -> May<Effective, Refusal>
    ensures { Gives (module_at name.now (option_copied version.entry)) result }
{
    match version {
        Some(version) => Ok(Effective::Module(Key {
            name: Txt::of(alloc, name)?,
            version: Txt::of(alloc, version)?,
        })),
        None => Err(Miss::Because(no_version(alloc, name)?)),
    }
}

fn no_version(alloc: Global, name: &str) -> Mem<Refusal>
    ensures { IfOk result (λ refusal. refusal ≡ no_version_refusal name.now) }
{
    let mut refusal = Refusal::of(alloc, Code::NoVersion);
    refusal.detail = Txt::of(alloc, name)?;
    Ok(refusal)
}

/// The version for which a dependency asks under an override.
pub(crate) fn version_under<'a>(kind: Option<&'a OverrideKind>, own: &'a str) -> Option<&'a str>
    ensures { option_copied result ≡ spec.version_under (option_copied kind.entry) own.now }
{
    match kind {
        Some(OverrideKind::Single { version, .. }) => first_given(version.as_str(), own),
        Some(OverrideKind::Multiple { .. }) | None => given(own),
        Some(OverrideKind::Local { .. } | OverrideKind::Archive | OverrideKind::Git) => Some(""),
    }
}

fn first_given<'a>(version: &'a str, other: &'a str) -> Option<&'a str>
    ensures { option_copied result ≡ spec.first_given version.now other.now }
{
    if version.is_empty() {
        given(other)
    } else {
        Some(version)
    }
}

fn given(version: &str) -> Option<&str>
    ensures { option_copied result ≡ spec.given version.now }
{
    if version.is_empty() {
        None
    } else {
        Some(version)
    }
}
