//! The outside on the file system, and the gate.
use crate::outside_calls::{place_at, read_at};
use crate::path_calls::path;
use bz_base::{BadPath, May, Txt};
use bz_tree::{DirTree, Failed, Found, Gate, NoGate, Sink, StdSink, Tree};
use std::fs;
use std::fs::File;
use std::test::Fail;

fn has_bytes(found: &Found, want: &[u8]) -> bool {
    match found {
        Found::Bytes(bytes) => bytes.items() == want,
        _ => false,
    }
}

/// Whether the real tree has these bytes at a path.
fn is_read(rt: &HostRuntime, text: &str, want: &[u8]) -> bool {
    let Ok(path) = path(rt.alloc(), text) else {
        return false;
    };
    match DirTree::here(rt).read(rt.alloc(), &path) {
        Ok(found) => has_bytes(&found, want),
        Err(_) => false,
    }
}

fn is_told(told: May<Txt, BadPath>, want: &str) -> bool {
    match told {
        Ok(told) => told.as_str() == want,
        Err(_) => false,
    }
}

/// Whether the real tree tells this of a path.
fn is_shown(rt: &HostRuntime, text: &str, want: &str) -> bool {
    let told = read_at(rt.alloc(), &mut DirTree::here(rt), text);
    is_told(told, want)
}

/// Whether the real tree tells this of the placing of a file of one byte.
fn is_placed(rt: &HostRuntime, text: &str, want: &str) -> bool {
    let told = place_at(rt.alloc(), &mut DirTree::here(rt), text);
    is_told(told, want)
}

fn has_text(rt: &HostRuntime, name: &str, want: &str) -> bool {
    match fs::read_to_string(rt, name) {
        Ok(text) => text.as_str() == want,
        Err(_) => false,
    }
}

#[test]
fn reads_real_files(rt: HostRuntime) {
    assert!(rt; fs::create_dir_all(&rt, "dir_tree_test/inner").is_ok());
    assert!(rt; fs::write(&rt, "dir_tree_test/b", "text").is_ok());
    assert!(rt; is_read(&rt, "dir_tree_test/b", b"text"));
    assert!(rt; is_shown(&rt, "dir_tree_test", "lists b inner"));
    assert!(rt; is_shown(&rt, "dir_tree_test/c", "absent"));
    assert!(rt; is_shown(&rt, "dir_tree_test/b/c", "absent"));
    assert!(rt; fs::remove_dir_all(&rt, "dir_tree_test").is_ok());
}

#[test]
fn places_real_files(rt: HostRuntime) {
    assert!(rt; is_placed(&rt, "dir_place_test/inner/b", "placed"));
    assert!(rt; has_text(&rt, "dir_place_test/inner/b", "a"));
    assert!(rt; is_placed(&rt, "dir_place_test/inner/b/c", "refused"));
    assert!(rt; fs::remove_dir_all(&rt, "dir_place_test").is_ok());
}

fn pass<G: Gate>(gate: &G) {
    gate.entered("job");
    gate.left("job");
}

#[test]
fn lets_everybody_pass(_rt: HostRuntime) {
    pass(&NoGate);
}

/// Whether a new file takes a text whole, and nothing of none.
fn is_taken(rt: &HostRuntime, name: &str) -> Result<bool, Fail> {
    let mut sink = StdSink::of(File::create(rt, name)?);
    Ok(sink.write(b"text") == Ok(4) && sink.write(b"") == Ok(0))
}

/// Whether a full device fails.
fn full_device_fails(rt: &HostRuntime) -> Result<bool, Fail> {
    let mut full = StdSink::of(File::options().write(true).open(rt, "/dev/full")?);
    Ok(full.write(b"text") == Err(Failed))
}

#[test]
fn writes_a_real_file(rt: HostRuntime) -> Result<(), Fail> {
    assert!(rt; fs::create_dir_all(&rt, "std_sink_test").is_ok());
    assert!(rt; is_taken(&rt, "std_sink_test/out")?);
    assert!(rt; has_text(&rt, "std_sink_test/out", "text"));
    assert!(rt; full_device_fails(&rt)?);
    assert!(rt; fs::remove_dir_all(&rt, "std_sink_test").is_ok());
    Ok(())
}
