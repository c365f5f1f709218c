//! Patterns that `format` fills, by their rows.
use crate::calls::{fault_text, text};
use bz_text::{May, Mem, Miss, Seq, Txt};
use star_core::{Args, Fault, Heap, NamedVal, Val};
use star_format::format;
use star_print::to_repr;
use std::alloc::Global;
use std::process::Abort;
use std::test::Fail;

/// A pattern, filled with `"x"`, 7 and `n = None`, and what comes of it.
const ROWS: [(&'static str, &'static str); 28] = [
    ("", "\"\""),
    ("é", "\"é\""),
    ("{}-{}", "\"x-7\""),
    ("{1}{0}{1}", "\"7x7\""),
    ("{01}", "\"7\""),
    ("{n}", "\"None\""),
    ("{}{n}{}", "\"xNone7\""),
    ("{n}{1}", "\"None7\""),
    ("{{}}", "\"{}\""),
    ("{{{}}}", "\"{x}\""),
    ("{{0}}", "\"{0}\""),
    ("{}{}{}", "!index"),
    ("{2}", "!index"),
    ("{99999999999999999999}", "!index"),
    ("{m}", "!key"),
    ("{}{0}", "!value"),
    ("{0}{}", "!value"),
    ("{}{9}", "!value"),
    ("{", "!value"),
    ("}", "!value"),
    ("{0", "!value"),
    ("0}", "!value"),
    ("{n.b}", "!value"),
    ("{0!r}", "!value"),
    ("{0:d}", "!value"),
    ("{ }", "!value"),
    ("{0n}", "!value"),
    ("{m}{", "!key"),
];

fn named(alloc: Global) -> Mem<Seq<NamedVal>> {
    let mut named = Vec::new(alloc);
    named.push(NamedVal {
        name: Txt::of(alloc, "n")?,
        val: Val::None,
    })?;
    Ok(Seq::of_vec(named))
}

fn arguments(heap: &mut Heap, alloc: Global) -> May<Args, Fault> {
    let mut positional = Vec::new(alloc);
    positional.push(text(heap, alloc, "x")?)?;
    positional.push(Val::Int(7))?;
    let named = named(alloc)?;
    Ok(Args {
        positional: Seq::of_vec(positional),
        named,
    })
}

fn filled(heap: &mut Heap, alloc: Global, pattern: &str) -> May<Val, Fault> {
    let pattern = text(heap, alloc, pattern)?;
    let args = arguments(heap, alloc)?;
    format(heap, &pattern, &args)
}

fn printed(alloc: Global, pattern: &str) -> May<Txt, Fault> {
    let mut heap = Heap::new(alloc);
    match filled(&mut heap, alloc, pattern) {
        Ok(value) => to_repr(&heap, &value),
        Err(miss) => Err(miss),
    }
}

fn gives(alloc: Global, pattern: &str, wanted: &str) -> bool {
    match printed(alloc, pattern) {
        Ok(text) => text.as_str() == wanted,
        Err(Miss::Because(fault)) => fault_text(fault) == wanted,
        Err(Miss::OutOfMemory) => false,
    }
}

fn first_wrong(alloc: Global) -> Option<&'static str> {
    for (pattern, wanted) in &ROWS {
        if !gives(alloc, pattern, wanted) {
            return Some(pattern);
        }
    }
    None
}

#[test]
fn fields_are_filled(rt: HostRuntime) -> Result<(), Fail> {
    assert!(rt; first_wrong(rt.alloc()).is_none());
    Ok(())
}
