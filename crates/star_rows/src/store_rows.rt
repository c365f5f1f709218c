//! Stacks and scopes.
use sqlite_items::Items;
use star_core::{Scopes, Stack, Val};
use std::test::Fail;

#[test]
fn what_is_put_last_is_taken_first(rt: HostRuntime) -> Result<(), Fail> {
    let alloc = rt.alloc();
    let mut stack = Stack::of_slice(alloc, &[1_u32, 2])?;
    stack.push(3)?;
    assert_eq!(rt; stack.len(), 3);
    let copied = stack.copy_top(alloc, 2)?.ok_or("copied")?;
    assert_eq!(rt; copied.as_slice(), &[1_u32, 3][..]);
    assert_eq!(rt; stack.pop(), Some(3));
    let top = stack.take_top(1)?.ok_or("top")?;
    assert_eq!(rt; top.as_slice(), &[1_u32][..]);
    assert!(rt; stack.take_top(2)?.is_none());
    assert_eq!(rt; stack.into_items().as_slice(), &[2_u32][..]);
    let empty: Stack<u32> = Stack::new(alloc);
    assert_eq!(rt; empty.len(), 0);
    let mut reversed = Stack::of_reversed(Vec::from_slice(alloc, &[1_u32, 2])?);
    assert_eq!(rt; reversed.pop(), Some(2));
    Ok(())
}

#[test]
fn a_variable_is_found_outwards(rt: HostRuntime) -> Result<(), Fail> {
    let alloc = rt.alloc();
    let mut scopes = Scopes::new(alloc);
    let file = scopes.open(0, Items::new(alloc))?;
    let function = scopes.open(file, Items::new(alloc))?;
    scopes.set(file, 2, Val::Int(7))?;
    assert_eq!(rt; scopes.len(), 2);
    let outer = scopes.outwards(function, 1);
    assert_eq!(rt; outer, file);
    assert_eq!(rt; scopes.get(outer, 2), Some(Val::Int(7)));
    assert_eq!(rt; scopes.get(outer, 1), None);
    assert_eq!(rt; scopes.get(function, 2), None);
    scopes.set(file, 2, Val::Int(8))?;
    assert_eq!(rt; scopes.get(file, 2), Some(Val::Int(8)));
    Ok(())
}
