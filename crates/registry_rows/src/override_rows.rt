//! What a dependency on the module `d`, of version 1.0 or of none, means under an override.
ghost use Rattle.std.specs.Prelude.{◌≡◌, IfOk};

use bz_base::{Dep, Miss, ModuleDecl, Override, OverrideKind, Seq, Txt};
use overrides::{Effective, Overrides};
use std::alloc::Global;
use std::test::Fail;

fn texts(alloc: Global, words: &[&str]) -> Result<Seq<Txt>, Fail> {
    let mut texts = Vec::new(alloc);
    for word in words {
        texts.push(Txt::of(alloc, word)?)?;
    }
    Ok(Seq::of_vec(texts))
}

fn kind(alloc: Global, word: &str) -> Result<OverrideKind, Fail> {
    let registry = Txt::of_string(String::new(alloc));
    Ok(match word {
        "local" => OverrideKind::Local {
            path: Txt::of(alloc, "../d")?,
        },
        "archive" => OverrideKind::Archive,
        "git" => OverrideKind::Git,
        "listed" => OverrideKind::Multiple {
            versions: texts(alloc, &["1.0", "2.0"])?,
            registry,
        },
        version => OverrideKind::Single {
            version: Txt::of(alloc, version)?,
            registry,
            patched: false,
        },
    })
}

fn root(alloc: Global, overrides: Seq<Override>) -> Result<ModuleDecl, Fail>
    ensures { IfOk result (λ decl. decl.overrides ≡ overrides) }
{
    Ok(ModuleDecl {
        name: Txt::of(alloc, "app")?,
        version: Txt::of(alloc, "0.1")?,
        level: 0,
        repo_name: Txt::of(alloc, "app")?,
        deps: Seq::new(alloc),
        nodeps: Seq::new(alloc),
        parts: Seq::new(alloc),
        overrides,
    })
}

/// The overrides of a root that overrides `d` alone.
fn one_override(alloc: Global, one: Override) -> Result<Overrides, Fail> {
    let mut overrides = Vec::new(alloc);
    overrides.push(one)?;
    let root = root(alloc, Seq::of_vec(overrides))?;
    Ok(Overrides::of(alloc, &root)?)
}

fn override_by(alloc: Global, word: &str) -> Result<Override, Fail> {
    Ok(Override {
        name: Txt::of(alloc, "d")?,
        kind: kind(alloc, word)?,
        line: 2,
    })
}

fn meant(alloc: Global, overrides: &Overrides, name: &str, version: &str) -> Result<String, Fail> {
    let dep = Dep {
        name: Txt::of(alloc, name)?,
        version: Txt::of(alloc, version)?,
        apparent: Txt::of(alloc, name)?,
        dev: false,
        line: 3,
    };
    Ok(match overrides.effective(alloc, &dep) {
        Ok(Effective::Root) => String::from_str(alloc, "root")?,
        Ok(Effective::Module(key)) => key.text(alloc)?.into_string(),
        Err(Miss::OutOfMemory) => String::from_str(alloc, "out of memory")?,
        Err(Miss::Because(refusal)) => {
            format!(in alloc; "{} {}", refusal.code.name(), refusal.detail.as_str())?
        }
    })
}

/// What the root and the modules `d` and `e` mean, where the one on `d` has the version or has not.
fn all_meant(alloc: Global, word: &str, version: &str) -> Result<String, Fail> {
    let overrides = one_override(alloc, override_by(alloc, word)?)?;
    let mut text = meant(alloc, &overrides, "d", version)?;
    text.push_str(" ")?;
    text.push_str(meant(alloc, &overrides, "app", "")?.as_str())?;
    Ok(text)
}

#[test]
fn each_override_gives_its_version(rt: HostRuntime) -> Result<(), Fail> {
    let alloc = rt.alloc();
    for (word, with_version, without) in [
        ("local", "d@_ root", "d@_ root"),
        ("archive", "d@_ root", "d@_ root"),
        ("git", "d@_ root", "d@_ root"),
        ("listed", "d@1.0 root", "NoVersion d root"),
        ("1.1", "d@1.1 root", "d@1.1 root"),
        ("", "d@1.0 root", "NoVersion d root"),
    ] {
        assert_eq!(rt; all_meant(alloc, word, "1.0")?.as_str(), with_version);
        assert_eq!(rt; all_meant(alloc, word, "")?.as_str(), without);
    }
    Ok(())
}

#[test]
fn a_kind_is_found_by_name(rt: HostRuntime) -> Result<(), Fail> {
    let alloc = rt.alloc();
    let overrides = one_override(alloc, override_by(alloc, "git")?)?;
    assert!(rt; overrides.kind("d").is_some());
    assert!(rt; overrides.kind("app").is_none());
    Ok(())
}
