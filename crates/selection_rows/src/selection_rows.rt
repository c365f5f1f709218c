//! What is selected of small graphs, and which are refused.
use crate::graphs::{answer, place_of};
use std::test::Fail;

#[test]
fn highest_of_the_asked(rt: HostRuntime) -> Result<(), Fail> {
    let lines = [
        ("", 0, "a@1.0 b@1.0"),
        ("a@1.0", 0, "d@1.1"),
        ("b@1.0", 0, "d@1.2"),
        ("d@1.1", 0, ""),
        ("d@1.2", 0, ""),
    ];
    assert_eq!(rt;
        answer(rt.alloc(), "", lines.as_slice())?.as_str(),
        "<root> a@1.0 b@1.0; a@1.0 d@1.2; b@1.0 d@1.2; d@1.2; "
    );
    assert_eq!(rt; place_of(rt.alloc(), lines.as_slice(), "d@1.2")?, Some(3));
    assert_eq!(rt; place_of(rt.alloc(), lines.as_slice(), "d@1.1")?, None);
    Ok(())
}

#[test]
fn requirement_of_a_dropped_version_counts(rt: HostRuntime) -> Result<(), Fail> {
    let lines = [
        ("", 0, "a@1.0 b@1.0 e@1.0"),
        ("a@1.0", 0, "d@1.2"),
        ("b@1.0", 0, "d@1.4"),
        ("e@1.0", 0, ""),
        ("d@1.2", 0, "e@2.0"),
        ("d@1.4", 0, ""),
        ("e@2.0", 0, ""),
    ];
    assert_eq!(rt;
        answer(rt.alloc(), "", lines.as_slice())?.as_str(),
        "<root> a@1.0 b@1.0 e@2.0; a@1.0 d@1.4; b@1.0 d@1.4; e@2.0; d@1.4; "
    );
    Ok(())
}

#[test]
fn two_levels_are_refused(rt: HostRuntime) -> Result<(), Fail> {
    let lines = [
        ("", 0, "a@1.0 b@1.0"),
        ("a@1.0", 0, "d@1.0"),
        ("b@1.0", 0, "d@2.0"),
        ("d@1.0", 0, ""),
        ("d@2.0", 1, ""),
    ];
    assert_eq!(rt;
        answer(rt.alloc(), "", lines.as_slice())?.as_str(),
        "Levels d@1.0 d@2.0"
    );
    Ok(())
}

#[test]
fn several_versions_stand_side_by_side(rt: HostRuntime) -> Result<(), Fail> {
    let lines = [
        ("", 0, "a@1.0 b@1.0 c@1.0"),
        ("a@1.0", 0, "d@1.0"),
        ("b@1.0", 0, "d@1.5"),
        ("c@1.0", 0, "d@2.0"),
        ("d@1.0", 0, ""),
        ("d@1.5", 0, ""),
        ("d@2.0", 0, ""),
    ];
    let wanted = "<root> a@1.0 b@1.0 c@1.0; a@1.0 d@1.0; b@1.0 d@2.0; c@1.0 d@2.0; d@1.0; d@2.0; ";
    assert_eq!(rt;
        answer(rt.alloc(), "1.0 2.0", lines.as_slice())?.as_str(),
        wanted
    );
    assert_eq!(rt;
        answer(rt.alloc(), "1.0 2.0 3.0", lines.as_slice())?.as_str(),
        "NotInGraph d@3.0"
    );
    assert_eq!(rt;
        answer(rt.alloc(), "1.0 1.5", lines.as_slice())?.as_str(),
        "AboveAllowed d@2.0"
    );
    Ok(())
}

#[test]
fn a_target_has_the_level_of_the_asked(rt: HostRuntime) -> Result<(), Fail> {
    let lines = [
        ("", 0, "d@0.5 d@1.5"),
        ("d@0.5", 0, ""),
        ("d@1.5", 1, ""),
        ("d@1.0", 1, ""),
        ("d@1.2", 0, ""),
        ("d@2.0", 1, "<root>"),
    ];
    assert_eq!(rt;
        answer(rt.alloc(), "2.0 1.2 1.0", lines.as_slice())?.as_str(),
        "<root> d@1.2 d@2.0; d@1.2; d@2.0 <root>; "
    );
    Ok(())
}

#[test]
fn a_version_that_none_needs_raises_others(rt: HostRuntime) -> Result<(), Fail> {
    let lines = [
        ("", 0, "a@1.0 d@1.0 l@"),
        ("a@1.0", 0, ""),
        ("d@1.0", 0, ""),
        ("l@", 0, ""),
        ("d@1.2", 0, ""),
    ];
    assert_eq!(rt;
        answer(rt.alloc(), "", lines.as_slice())?.as_str(),
        "<root> a@1.0 d@1.2 l@_; a@1.0; d@1.2; l@_; "
    );
    Ok(())
}
