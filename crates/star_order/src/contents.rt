//! Contents of values, as they are written one behind another.
ghost use Rattle.std.specs.Prelude.{◌≡◌, ◌++◌, Ok, codes, option_copied, string_bytes};
ghost use Rattle.std.specs.Fmt.{signed_decimal};
ghost use Rattle.star_core.specs.Contents as spec;
ghost use Rattle.star_core.specs.Contents.{behind, label_content, measured};
ghost use Rattle.star_order.specs.Keys.{Written, items_content};

use bz_base::Label;
use bz_text::{May, Miss};
use star_core::{Cell, Fault, Heap, Val};
use std::fmt::Write;

/// Writes the content of a value in which so many tuples nest at most.
#[cycle(contents)]
pub(crate) fn content_within(
    out: &mut String,
    heap: &Heap,
    value: &Val,
    depth: u32,
) -> May<(), Fault>
    ensures { Written (behind (Ok (string_bytes out.old))
        (spec.content_within depth heap.now value.now)) result (string_bytes out.new) }
{
    value_content(out, heap, value, depth)
}

#[cycle(contents)]
fn value_content(out: &mut String, heap: &Heap, value: &Val, depth: u32) -> May<(), Fault>
    ensures { Written (behind (Ok (string_bytes out.old))
        (spec.value_content (items_content depth heap.now) heap.now value.now)) result
        (string_bytes out.new) }
{
    match *value {
        Val::None => push(out, "n"),
        Val::Bool(true) => push(out, "t"),
        Val::Bool(false) => push(out, "f"),
        Val::Int(number) => push_number(out, number),
        Val::Cell(_) => cell_content(out, heap, heap.cell(value), depth),
    }
}

#[cycle(contents)]
fn cell_content(out: &mut String, heap: &Heap, cell: Option<&Cell>, depth: u32) -> May<(), Fault>
    ensures { Written (behind (Ok (string_bytes out.old))
        (spec.cell_content (items_content depth heap.now) (option_copied cell.entry))) result
        (string_bytes out.new) }
{
    match cell {
        Some(Cell::Text(text)) => push_text(out, text.as_str()),
        Some(Cell::Tuple(items)) => tuple_content(out, heap, items.items(), depth),
        Some(Cell::Label(label)) => push_label(out, label),
        _ => Err(Miss::Because(Fault::Kind)),
    }
}

#[cycle(contents)]
fn tuple_content(out: &mut String, heap: &Heap, items: &[Val], depth: u32) -> May<(), Fault>
    ensures { Written (behind (Ok (string_bytes out.old)) (items_content depth heap.now items.now))
        result (string_bytes out.new) }
{
    if depth == 0 {
        return Err(Miss::Because(Fault::Depth));
    }
    push(out, "(")?;
    closed_content(out, heap, items, depth - 1)
}

/// Writes the contents of items and the bracket behind them.
#[cycle(contents)]
fn closed_content(out: &mut String, heap: &Heap, items: &[Val], depth: u32) -> May<(), Fault>
    ensures { Written (behind (Ok (string_bytes out.old)) (behind
        (spec.each_content (spec.content_within depth heap.now) items.now) (Ok (codes ")"))))
        result (string_bytes out.new) }
{
    if let Err(miss) = each_content(out, heap, items, depth) {
        return Err(miss);
    }
    push(out, ")")
}

#[cycle(contents)]
fn each_content(out: &mut String, heap: &Heap, items: &[Val], depth: u32) -> May<(), Fault>
    ensures { Written (behind (Ok (string_bytes out.old))
        (spec.each_content (spec.content_within depth heap.now) items.now)) result
        (string_bytes out.new) }
{
    'writing: for item in items {
        if let Err(miss) = content_within(out, heap, item, depth) {
            return Err(miss);
        }
    }
    Ok(())
}

/// Writes a text.
fn push(out: &mut String, text: &str) -> May<(), Fault>
    ensures { Written (Ok (string_bytes out.old ++ text.now)) result (string_bytes out.new) }
{
    out.push_str(text)?;
    Ok(())
}

/// Writes a number between its letter and its end.
fn push_number(out: &mut String, number: i64) -> May<(), Fault>
    ensures { Written (Ok (string_bytes out.old ++ codes "i" ++ signed_decimal number ++ codes ";"))
        result (string_bytes out.new) }
{
    write!(out, "i{number};")?;
    Ok(())
}

/// Writes a text behind its length.
fn push_measured(out: &mut String, text: &str) -> May<(), Fault>
    ensures { Written (Ok (string_bytes out.old ++ measured text.now)) result
        (string_bytes out.new) }
{
    let length = text.len();
    write!(out, "{length}:{text}")?;
    Ok(())
}

fn push_text(out: &mut String, text: &str) -> May<(), Fault>
    ensures { Written (Ok (string_bytes out.old ++ (codes "s" ++ measured text.now))) result
        (string_bytes out.new) }
{
    push(out, "s")?;
    push_measured(out, text)
}

fn push_label(out: &mut String, label: &Label) -> May<(), Fault>
    ensures { Written (Ok (string_bytes out.old ++ label_content label.now)) result
        (string_bytes out.new) }
{
    push(out, "l")?;
    push_measured(out, label.repo.as_str())?;
    push_measured(out, label.package.as_str())?;
    push_measured(out, label.name.as_str())
}
