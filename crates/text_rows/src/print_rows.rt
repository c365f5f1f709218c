//! How values print.
use bz_base::Label;
use bz_text::{May, Miss, Seq, Txt};
use star_core::{Cell, Fault, Function, Heap, NamedVal, Val};
use star_print::{to_repr, to_str};
use std::alloc::Global;
use std::process::Abort;
use std::test::Fail;

/// A list of lists, so many one within another.
fn nested(alloc: Global, depth: u32) -> May<Txt, Fault> {
    let mut heap = Heap::new(alloc);
    let mut value = heap.make(Cell::List(Seq::new(alloc)))?;
    for _ in 1..depth {
        value = list_of(&mut heap, alloc, value)?;
    }
    to_repr(&heap, &value)
}

fn list_of(heap: &mut Heap, alloc: Global, value: Val) -> May<Val, Fault> {
    let mut items = Vec::new(alloc);
    items.push(value)?;
    heap.make(Cell::List(Seq::of_vec(items)))
}

fn is_deep(printed: May<Txt, Fault>) -> bool {
    matches!(printed, Err(Miss::Because(Fault::Depth)))
}

#[test]
fn values_nest_128_deep(rt: HostRuntime) -> Result<(), Fail> {
    assert!(rt; nested(rt.alloc(), 128).is_ok());
    assert!(rt; is_deep(nested(rt.alloc(), 129)));
    Ok(())
}

/// The texts of a cell, by `str` and by `repr`.
fn texts(alloc: Global, cell: Cell) -> May<(Txt, Txt), Fault> {
    let mut heap = Heap::new(alloc);
    let value = heap.make(cell)?;
    let text = to_str(&heap, &value)?;
    let spelled = to_repr(&heap, &value)?;
    Ok((text, spelled))
}

fn print_as(alloc: Global, cell: Cell, text: &str, spelled: &str) -> bool {
    match texts(alloc, cell) {
        Ok((one, other)) => one.as_str() == text && other.as_str() == spelled,
        Err(_) => false,
    }
}

fn label(alloc: Global) -> May<Cell, Fault> {
    Ok(Cell::Label(Label {
        repo: Txt::of(alloc, "r+")?,
        package: Txt::of(alloc, "p")?,
        name: Txt::of(alloc, "n")?,
    }))
}

fn function(alloc: Global) -> May<Cell, Fault> {
    Ok(Cell::Function(Function {
        name: Txt::of(alloc, "f")?,
        file: 0,
        function: 0,
        defaults: Seq::new(alloc),
        around: 0,
    }))
}

fn fields(alloc: Global) -> May<Cell, Fault> {
    let mut fields = Vec::new(alloc);
    fields.push(NamedVal {
        name: Txt::of(alloc, "b")?,
        val: Val::Bool(true),
    })?;
    fields.push(NamedVal {
        name: Txt::of(alloc, "a")?,
        val: Val::None,
    })?;
    Ok(Cell::Struct(Seq::of_vec(fields)))
}

fn single(alloc: Global) -> May<Cell, Fault> {
    let mut items = Vec::new(alloc);
    items.push(Val::Int(-1))?;
    Ok(Cell::Tuple(Seq::of_vec(items)))
}

fn made(alloc: Global, cell: May<Cell, Fault>, text: &str, spelled: &str) -> bool {
    match cell {
        Ok(cell) => print_as(alloc, cell, text, spelled),
        Err(_) => false,
    }
}

#[test]
fn cells_print(rt: HostRuntime) -> Result<(), Fail> {
    let alloc = rt.alloc();
    assert!(rt; made(alloc, label(alloc), "@@r+//p:n", "Label(\"@@r+//p:n\")"));
    assert!(rt; made(alloc, function(alloc), "<function f>", "<function f>"));
    assert!(rt;
        made(
            alloc,
            fields(alloc),
            "struct(a = None, b = True)",
            "struct(a = None, b = True)"
        )
    );
    assert!(rt; made(alloc, single(alloc), "(-1,)", "(-1,)"));
    Ok(())
}

#[test]
fn ranges_and_strings_print(rt: HostRuntime) -> Result<(), Fail> {
    let alloc = rt.alloc();
    let short = Cell::Range {
        first: 0,
        stop: 3,
        step: 1,
    };
    let stepped = Cell::Range {
        first: 0,
        stop: 6,
        step: 2,
    };
    let text = Cell::Text(Txt::of(alloc, "a\"\\\n\u{1}\u{7f}é")?);
    assert!(rt; print_as(alloc, short, "range(0, 3)", "range(0, 3)"));
    assert!(rt; print_as(alloc, stepped, "range(0, 6, 2)", "range(0, 6, 2)"));
    assert!(rt;
        print_as(
            alloc,
            text,
            "a\"\\\n\u{1}\u{7f}é",
            "\"a\\\"\\\\\\n\\x01\\x7fé\""
        )
    );
    Ok(())
}
