//! Registries over a tree in memory. A row has the files, a line each (`PATH=TEXT`), and the calls,
//! a word each: the version of the module `a` that is found, in the registry behind `<` where one
//! stands there, or `source` for its source. What is left has a line for each answer.
use bz_base::{Key, TreePath, Txt};
use bz_tree::{Failure, MemTree};
use registry_index::{Registries, RegistryFile, Source};
use std::alloc::Global;
use std::test::Fail;

fn laid(alloc: Global, files: &str, failing: u64) -> Result<MemTree, Fail> {
    let mut tree = MemTree::new(alloc);
    for line in files.split('\n') {
        if let Some((path, text)) = line.split_once('=') {
            let path = TreePath::workspace(alloc).join(alloc, path)?;
            tree.put(alloc, path, text.as_bytes())?;
        }
    }
    tree.fail_read(failing)?;
    Ok(tree)
}

fn index(alloc: Global, texts: &str) -> Result<Registries, Fail> {
    let mut copies = Vec::new(alloc);
    for text in texts.split(' ') {
        copies.push(Txt::of(alloc, text)?)?;
    }
    Ok(Registries::of(alloc, copies.as_slice())?)
}

fn is_registry(alloc: Global, text: &str) -> Result<bool, Fail> {
    let texts = [Txt::of(alloc, text)?];
    Ok(Registries::of(alloc, &texts).is_ok())
}

fn key(alloc: Global, version: &str) -> Result<Key, Fail> {
    Ok(Key {
        name: Txt::of(alloc, "a")?,
        version: Txt::of(alloc, version)?,
    })
}

fn failed(alloc: Global, failure: &Failure) -> Result<String, Fail> {
    Ok(match failure {
        Failure::OutOfMemory => String::from_str(alloc, "out of memory")?,
        Failure::ReadFault(path) => format!(in alloc; "fault {}", path.as_str())?,
        Failure::Refused(refusal) => {
            format!(in alloc; "{} {}", refusal.code.name(), refusal.detail.as_str())?
        }
    })
}

fn found(alloc: Global, answer: Result<RegistryFile, Failure>) -> Result<String, Fail> {
    match answer {
        Ok(file) => Ok(file.registry.into_string()),
        Err(failure) => failed(alloc, &failure),
    }
}

fn source(alloc: Global, answer: Result<Source, Failure>) -> Result<String, Fail> {
    match answer {
        Ok(Source::Dir(path)) => Ok(String::from_str(alloc, path.as_str())?),
        Ok(Source::Remote) => Ok(String::from_str(alloc, "remote")?),
        Err(failure) => failed(alloc, &failure),
    }
}

fn answer(
    alloc: Global,
    index: &mut Registries,
    tree: &mut MemTree,
    call: &str,
) -> Result<String, Fail> {
    let (name, registry) = call.split_once('<').unwrap_or((call, ""));
    if name == "source" {
        return source(
            alloc,
            index.source(alloc, &key(alloc, "1.0")?, registry, tree),
        );
    }
    found(alloc, index.find(alloc, &key(alloc, name)?, registry, tree))
}

/// Puts the names of the files that were asked behind a text, each with `+` where it has a hash.
fn push_asked(text: &mut String, index: &Registries) -> Result<(), Fail> {
    for one in index.hashes() {
        text.push_str(if one.hash.is_some() { "+" } else { "-" })?;
        text.push_str(one.url.as_str())?;
        text.push_str(" ")?;
    }
    Ok(())
}

fn left(
    alloc: Global,
    texts: &str,
    files: &str,
    calls: &str,
    failing: u64,
) -> Result<String, Fail> {
    let mut tree = laid(alloc, files, failing)?;
    let mut index = index(alloc, texts)?;
    let mut text = String::new(alloc);
    for call in calls.split(' ') {
        push_answer(alloc, &mut text, &mut index, &mut tree, call)?;
    }
    push_asked(&mut text, &index)?;
    Ok(text)
}

fn push_answer(
    alloc: Global,
    text: &mut String,
    index: &mut Registries,
    tree: &mut MemTree,
    call: &str,
) -> Result<(), Fail> {
    text.push_str(answer(alloc, index, tree, call)?.as_str())?;
    text.push_str("; ")?;
    Ok(())
}

#[test]
fn texts_name_registries(rt: HostRuntime) -> Result<(), Fail> {
    for text in [
        "file://%workspace%/registry",
        "file://%workspace%/../r",
        "file:///r/s",
    ] {
        assert!(rt; is_registry(rt.alloc(), text)?, "{text}");
    }
    for text in [
        "file://%workspace%/",
        "file://%workspace%//r",
        "file://%workspace%/./r",
        "file://%workspace%/r/",
        "file:///",
        "file:////r",
        "file://r",
        "https://example.org",
        "",
    ] {
        assert!(rt; !is_registry(rt.alloc(), text)?, "{text}");
    }
    Ok(())
}

#[test]
fn the_first_registry_that_has_the_file_gives_it(rt: HostRuntime) -> Result<(), Fail> {
    let files = "/s/modules/a/1/MODULE.bazel=abc\n/s/modules/a/2/MODULE.bazel=\n\
        r/modules/a/2/MODULE.bazel=\nr/modules/a/3/MODULE.bazel/x=";
    for (calls, want) in [
        (
            "1",
            "file:///s; -file://%workspace%/r/modules/a/1/MODULE.bazel \
            +file:///s/modules/a/1/MODULE.bazel ",
        ),
        (
            "2 2<file:///s",
            "file://%workspace%/r; file:///s; +file://%workspace%/r/modules/a/2/MODULE.bazel \
            +file:///s/modules/a/2/MODULE.bazel ",
        ),
        (
            "3 1<file://%workspace%/r",
            "NoModule a@3; NoModule a@1; -file://%workspace%/r/modules/a/3/MODULE.bazel \
            -file:///s/modules/a/3/MODULE.bazel -file://%workspace%/r/modules/a/1/MODULE.bazel ",
        ),
    ] {
        let texts = "file://%workspace%/r file:///s file://%workspace%/r";
        assert_eq!(rt; left(rt.alloc(), texts, files, calls, 99)?.as_str(), want);
    }
    Ok(())
}

fn source_of(alloc: Global, base: &str, text: &str) -> Result<String, Fail> {
    let files = format!(in alloc;
        "r/bazel_registry.json={base}\nr/modules/a/1.0/source.json={text}"
    )?;
    let texts = "file://%workspace%/r";
    let mut line = left(
        alloc,
        texts,
        files.as_str(),
        "source<file://%workspace%/r",
        99,
    )?;
    if let Some(length) = line.as_str().find(';') {
        line.truncate(length);
    }
    Ok(line)
}

#[test]
fn sources_are_where_their_files_say(rt: HostRuntime) -> Result<(), Fail> {
    let local = "{\"type\": \"local_path\", \"path\": \"a\"}";
    for (base, text, want) in [
        ("{}", local, "r/a"),
        ("{\"module_base_path\": \"../mods\"}", local, "mods/a"),
        ("{\"module_base_path\": \"/m\"}", local, "/m/a"),
        ("{}", "{\"type\": \"local_path\", \"path\": \"/x\"}", "/x"),
        ("{}", "{\"url\": \"https://example.org/a\"}", "remote"),
        (
            "{}",
            "{\"type\": \"git_repository\", \"path\": 1}",
            "remote",
        ),
    ] {
        assert_eq!(rt; source_of(rt.alloc(), base, text)?.as_str(), want);
    }
    for (base, text) in [
        ("{}", "{\"type\": \"local_path\"}"),
        ("{}", "{\"type\": \"local_path\", \"path\": 1}"),
        ("{}", "{\"type\": null}"),
        ("{}", "{\"type\": \"other\"}"),
        ("{}", "[]"),
        ("{}", "["),
        ("{\"module_base_path\": \"/..\"}", "{}"),
        ("{\"module_base_path\": 1}", "{}"),
        ("[]", "{}"),
        ("{", local),
    ] {
        assert_eq!(rt;
            source_of(rt.alloc(), base, text)?.as_str(),
            "BadSource a@1.0",
            "{text}"
        );
    }
    Ok(())
}

#[test]
fn a_failed_read_leaves_what_was_asked_before(rt: HostRuntime) -> Result<(), Fail> {
    let files = "/s/modules/a/1.0/MODULE.bazel=\n\
        /s/modules/a/1.0/source.json={\"type\": \"local_path\", \"path\": \"a\"}";
    for (failing, calls, want) in [
        (1, "1.0", "fault r/modules/a/1.0/MODULE.bazel; "),
        (
            2,
            "1.0",
            "fault /s/modules/a/1.0/MODULE.bazel; -file://%workspace%/r/modules/a/1.0/MODULE.bazel ",
        ),
        (1, "source<file:///s", "fault /s/bazel_registry.json; "),
        (
            2,
            "source<file:///s",
            "fault /s/modules/a/1.0/source.json; -file:///s/bazel_registry.json ",
        ),
        (
            3,
            "source<file:///s source<file:///s",
            "/s/a; fault /s/modules/a/1.0/source.json; -file:///s/bazel_registry.json \
            +file:///s/modules/a/1.0/source.json ",
        ),
    ] {
        let texts = "file://%workspace%/r file:///s";
        assert_eq!(rt;
            left(rt.alloc(), texts, files, calls, failing)?.as_str(),
            want
        );
    }
    Ok(())
}
