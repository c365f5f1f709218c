//! Small workspaces in memory beside what `graph` leaves of them: its number, and what stands on
//! `out` and on `err`.
use bz_base::{EnvTable, Seq, TreePath, Txt};
use bz_tree::{MemLock, MemSink, MemTree, NoGate};
use mod_command::modtool;
use std::alloc::Global;
use std::sync::Wait;
use std::test::Fail;
use std::thread::Threads;

/// A tree with one root file.
fn rooted<R: AllocGlobal>(rt: &R, text: &str) -> Result<MemTree, Fail> {
    let alloc = rt.alloc();
    let mut tree = MemTree::new(alloc);
    put(alloc, &mut tree, "MODULE.bazel", text)?;
    Ok(tree)
}

fn put(alloc: Global, tree: &mut MemTree, path: &str, text: &str) -> Result<(), Fail> {
    let path = TreePath::workspace(alloc).join(alloc, path)?;
    tree.put(alloc, path, text.as_bytes())?;
    Ok(())
}

/// A tree of module files, one a line: the key of a module, or `root`, and then the keys of its
/// dependencies.
fn laid<R: AllocGlobal>(rt: &R, lines: &str) -> Result<MemTree, Fail> {
    let alloc = rt.alloc();
    let mut tree = MemTree::new(alloc);
    for line in lines.split('\n') {
        lay(alloc, &mut tree, line)?;
    }
    Ok(tree)
}

fn lay(alloc: Global, tree: &mut MemTree, line: &str) -> Result<(), Fail> {
    let mut path = String::from_str(alloc, "MODULE.bazel")?;
    let mut text = String::new(alloc);
    for (index, word) in line.split(' ').enumerate() {
        if let Some((name, version)) = word.split_once('@') {
            if index == 0 {
                path = format!(in alloc; "registry/modules/{name}/{version}/MODULE.bazel")?;
            }
            let directive = if index == 0 { "module" } else { "bazel_dep" };
            let call = format!(in alloc;
                "{directive}(name = \"{name}\", version = \"{version}\")\n"
            )?;
            text.push_str(call.as_str())?;
        }
    }
    put(alloc, tree, path.as_str(), text.as_str())
}

/// What a run leaves: its number, and what stands on `out` and on `err`.
fn left<R: AllocGlobal + Threads + Wait + Sync>(
    rt: &R,
    words: &[&str],
    tree: &mut MemTree,
    room: u64,
) -> Result<String, Fail> {
    let alloc = rt.alloc();
    let mut owned = Vec::new(alloc);
    for word in words {
        owned.push(String::from_str(alloc, word)?)?;
    }
    let env = EnvTable {
        pairs: Seq::new(alloc),
        os: Txt::of(alloc, "linux")?,
        arch: Txt::of(alloc, "amd64")?,
    };
    let mut out = MemSink::new(alloc, room)?;
    let mut err = MemSink::new(alloc, 1000)?;
    let status = modtool(
        rt,
        alloc,
        &owned,
        &env,
        tree,
        &mut MemLock::new(None),
        &mut out,
        &mut err,
        &NoGate,
    );
    let number = status.number();
    let out = str::from_utf8(out.bytes())?;
    let err = str::from_utf8(err.bytes())?;
    Ok(format!(in alloc; "{number}|{out}|{err}")?)
}

const DONE: &str = "0|<root>\n|modtool: ok, 0 evaluated, 0 reused\n";

const HIGHEST_OF_THE_ASKED: &str =
    "root a@1.0 b@1.0\na@1.0 d@1.1\nb@1.0 d@1.2\nd@1.1\nd@1.2\nd@1.3";

#[test]
fn answers_each_root_file(rt: HostRuntime) -> Result<(), Fail> {
    for (text, want) in [
        ("", DONE),
        ("\n\n", DONE),
        (
            "bazel_dep(name=\"a\", version=\"1.0\")",
            "1||modtool: refused Form\n",
        ),
    ] {
        let mut tree = rooted(&rt, text)?;
        assert_eq!(rt; left(&rt, &["graph"], &mut tree, 100)?.as_str(), want);
    }
    Ok(())
}

#[test]
fn selects_the_highest_of_the_asked_versions(rt: HostRuntime) -> Result<(), Fail> {
    for (lines, want) in [
        (
            HIGHEST_OF_THE_ASKED,
            "0|<root>\n  a -> a@1.0\n  b -> b@1.0\na@1.0\n  d -> d@1.2\nb@1.0\n  d -> d@1.2\nd@1.2\n|modtool: ok, 0 evaluated, 0 reused\n",
        ),
        (
            "root a@1.0 b@1.0 e@1.0\na@1.0 d@1.2\nb@1.0 d@1.4\nd@1.2 e@2.0\nd@1.4\ne@1.0\ne@2.0",
            "0|<root>\n  a -> a@1.0\n  b -> b@1.0\n  e -> e@2.0\na@1.0\n  d -> d@1.4\nb@1.0\n  d -> d@1.4\ne@2.0\nd@1.4\n|modtool: ok, 0 evaluated, 0 reused\n",
        ),
        (
            "root a@1.0 b@1.0 e@1.0\na@1.0 d@1.2\nb@1.0 d@1.4\nd@1.2 e@2.0\nd@1.4\ne@1.0",
            "1||modtool: refused NoModule at d@1.2/MODULE.bazel:2: e@2.0\n",
        ),
        (
            "root a@1.0 b@1.0\na@1.0 d@1.2\nb@1.0 d@1.4\nd@1.2 e@2.0\nd@1.4\ne@2.0",
            "0|<root>\n  a -> a@1.0\n  b -> b@1.0\na@1.0\n  d -> d@1.4\nb@1.0\n  d -> d@1.4\nd@1.4\n|modtool: ok, 0 evaluated, 0 reused\n",
        ),
    ] {
        let mut tree = laid(&rt, lines)?;
        assert_eq!(rt; left(&rt, &["graph"], &mut tree, 1000)?.as_str(), want);
    }
    Ok(())
}

#[test]
fn refuses_a_root_that_is_no_file(rt: HostRuntime) -> Result<(), Fail> {
    let alloc = rt.alloc();
    let want = "1||modtool: refused NoRoot at <root>/MODULE.bazel\n";
    let mut tree = MemTree::new(alloc);
    assert_eq!(rt; left(&rt, &["graph"], &mut tree, 100)?.as_str(), want);
    put(alloc, &mut tree, "MODULE.bazel/x", "")?;
    assert_eq!(rt; left(&rt, &["graph"], &mut tree, 100)?.as_str(), want);
    Ok(())
}

#[test]
fn other_words_are_usage(rt: HostRuntime) -> Result<(), Fail> {
    let mut tree = rooted(&rt, "")?;
    for words in [[].as_slice(), &["fetch"], &["graph", "x"], &[""]] {
        assert_eq!(rt;
            left(&rt, words, &mut tree, 100)?.as_str(),
            "2||modtool: usage\n"
        );
    }
    Ok(())
}

#[test]
fn faults_are_told(rt: HostRuntime) -> Result<(), Fail> {
    let mut tree = laid(&rt, HIGHEST_OF_THE_ASKED)?;
    assert_eq!(rt;
        left(&rt, &["graph"], &mut tree, 10)?.as_str(),
        "4|<root>\n  a|modtool: write fault\n"
    );
    tree.fail_read(3)?;
    assert_eq!(rt;
        left(&rt, &["graph"], &mut tree, 1000)?.as_str(),
        "3||modtool: read fault: registry/modules/b/1.0/MODULE.bazel\n"
    );
    tree.fail_read(1)?;
    assert_eq!(rt;
        left(&rt, &["graph"], &mut tree, 1000)?.as_str(),
        "3||modtool: read fault: MODULE.bazel\n"
    );
    Ok(())
}
