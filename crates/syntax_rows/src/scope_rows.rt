//! Names and the scopes that stand round a place.
use bz_text::{Mem, Txt};
use star_names::{Names, Scopes};
use std::alloc::Global;
use std::test::Fail;

fn names(alloc: Global, texts: &[&str]) -> Mem<Names> {
    let mut names = Names::new(alloc);
    for text in texts {
        names = names.with(alloc, &Txt::of(alloc, text)?)?;
    }
    Ok(names)
}

/// A file's scope and a function's inside it.
fn scopes(alloc: Global) -> Mem<Scopes> {
    let mut scopes = Scopes::new(alloc);
    scopes.enter(names(alloc, &["a", "b", "a"])?)?;
    scopes.enter(names(alloc, &["b"])?)?;
    Ok(scopes)
}

#[test]
fn a_name_is_bound_once(rt: HostRuntime) -> Result<(), Fail> {
    let file = names(rt.alloc(), &["a", "b", "a"])?;
    assert_eq!(rt; file.len(), 2);
    Ok(())
}

#[test]
fn the_innermost_scope_wins(rt: HostRuntime) -> Result<(), Fail> {
    let mut scopes = scopes(rt.alloc())?;
    assert_eq!(rt; scopes.len(), 2);
    assert_eq!(rt; scopes.find("b"), Some((0, 0)));
    assert_eq!(rt; scopes.find("a"), Some((1, 0)));
    assert_eq!(rt; scopes.find("c"), None);
    assert!(rt; scopes.leave().is_some());
    assert_eq!(rt; scopes.find("b"), Some((0, 1)));
    Ok(())
}
