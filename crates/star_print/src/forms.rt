//! How a value prints: as a text, or as its parts between brackets.
ghost use Rattle.std.specs.Prelude.{◌≡◌, ◌++◌, IfOk, OnOk, codes, map, string_bytes};
ghost use Rattle.std.specs.Fmt.{signed_decimal};
ghost use Rattle.std.specs.List.{flat_map, join_by};
ghost use Rattle.std.specs.Option.{option_copied};
ghost use Rattle.bz_base.specs.PlainTexts.{label_text};
ghost use Rattle.star_print.specs.Escapes as escapes;
ghost use Rattle.star_print.specs.FieldOrder as order;
ghost use Rattle.star_print.specs.Forms as spec;
ghost use Rattle.star_print.specs.Forms.{cell_form, field_pieces, item_pieces, listed, pair_pieces};
ghost use Rattle.star_print.specs.Forms.{path_text, range_end, range_text, tuple_brackets};
ghost use Rattle.star_print.specs.declared.forms.Brackets.TheVariants as brackets;
ghost use Rattle.star_print.specs.declared.forms.Form.TheVariants.{Container, Whole};

use crate::escapes::quoted;
use crate::field_order::in_order;
use crate::pieces::{parts_of_fields, parts_of_items, parts_of_pairs};
use bz_base::{Label, label_string};
use bz_text::{Mem, Seq, Txt};
use star_core::{Cell, Dict, Heap, NamedVal, Val};
use star_library::pairs;
use std::alloc::Global;
use std::fmt::Write;

/// What stands round a container's parts. A tuple of one item is `Single`.
#[derive(Clone, Copy, Debug, PartialEq, Eq)]
pub enum Brackets {
    List,
    Tuple,
    Single,
    Dict,
    Struct,
}

impl Brackets {
    pub(crate) fn opening(self) -> &'static str
        ensures { result.now ≡ spec.opening self }
    {
        match self {
            Brackets::List => "[",
            Brackets::Tuple | Brackets::Single => "(",
            Brackets::Dict => "{",
            Brackets::Struct => "struct(",
        }
    }

    pub(crate) fn closing(self) -> &'static str
        ensures { result.now ≡ spec.closing self }
    {
        match self {
            Brackets::List => "]",
            Brackets::Tuple | Brackets::Struct => ")",
            Brackets::Single => ",)",
            Brackets::Dict => "}",
        }
    }
}

/// A part of a container as it prints.
#[derive(Debug, Drop)]
pub enum Piece {
    Comma,
    Colon,
    Equals,
    Name(Txt),
    Shown(Val),
}

/// How a value prints.
#[derive(Debug, Drop)]
pub enum Form {
    Whole(Txt),
    Container {
        brackets: Brackets,
        pieces: Seq<Piece>,
    },
}

#[tactic(auto, unfolding(crate::specs::Forms::form_of))]
pub(crate) fn form_of(alloc: Global, heap: &Heap, val: &Val) -> Mem<Form>
    ensures { IfOk result (λ form. form ≡ spec.form_of heap.now val.now) }
{
    match val {
        Val::None => whole(alloc, "None"),
        Val::Bool(true) => whole(alloc, "True"),
        Val::Bool(false) => whole(alloc, "False"),
        Val::Int(number) => Ok(Form::Whole(number_text(alloc, *number)?)),
        Val::Cell(_) => form_of_cell(alloc, heap.cell(val)),
    }
}

fn whole(alloc: Global, text: &str) -> Mem<Form>
    ensures { IfOk result (λ form. form ≡ Whole text.now) }
{
    Ok(Form::Whole(Txt::of(alloc, text)?))
}

fn number_text(alloc: Global, number: i64) -> Mem<Txt>
    ensures { IfOk result (λ text. text ≡ signed_decimal number) }
{
    Ok(Txt::of_string(number.to_string(alloc)?))
}

#[tactic(auto, unfolding(crate::specs::Forms::cell_form))]
fn form_of_cell(alloc: Global, cell: Option<&Cell>) -> Mem<Form>
    ensures { IfOk result (λ form. form ≡ cell_form (option_copied cell.entry)) }
{
    match cell {
        None => whole(alloc, ""),
        Some(Cell::Text(text)) => quoted_form(alloc, text.as_str()),
        Some(Cell::List(items)) => list_form(alloc, items.items()),
        Some(Cell::Tuple(items)) => tuple_form(alloc, items.items()),
        Some(Cell::Dict(dict)) => dict_form(alloc, dict),
        Some(Cell::Range { first, stop, step }) => range_form(alloc, *first, *stop, *step),
        Some(Cell::Function(function)) => named_form(alloc, "<function ", function.name.as_str()),
        Some(Cell::Builtin(name)) => named_form(alloc, "<built-in function ", name.as_str()),
        Some(Cell::Bound { method, .. }) => {
            named_form(alloc, "<built-in function ", method.as_str())
        }
        Some(Cell::Struct(fields)) => struct_form(alloc, fields.items()),
        Some(Cell::Label(label)) => label_form(alloc, label),
        Some(Cell::Path { repo, segments }) => path_form(alloc, repo.as_str(), segments.items()),
        Some(Cell::Host { kind, .. }) => named_form(alloc, "<", kind.as_str()),
    }
}

fn quoted_form(alloc: Global, text: &str) -> Mem<Form>
    ensures { IfOk result (λ form. form ≡ Whole (escapes.quoted text.now)) }
{
    Ok(Form::Whole(quoted(alloc, text)?))
}

/// A text between two others.
fn enclosed(alloc: Global, before: &str, inside: &str, behind: &str) -> Mem<Txt>
    ensures { IfOk result (λ text. text ≡ spec.enclosed before.now inside.now behind.now) }
{
    let mut text = String::from_str(alloc, before)?;
    text.push_str(inside)?;
    text.push_str(behind)?;
    Ok(Txt::of_string(text))
}

fn named_form(alloc: Global, before: &str, name: &str) -> Mem<Form>
    ensures { IfOk result (λ form. form ≡ Whole (spec.enclosed before.now name.now (codes ">"))) }
{
    Ok(Form::Whole(enclosed(alloc, before, name, ">")?))
}

fn label_form(alloc: Global, label: &Label) -> Mem<Form>
    ensures { IfOk result (λ form. form
        ≡ Whole (spec.enclosed (codes "Label(") (escapes.quoted (label_text label.now)) (codes ")"))) }
{
    let text = label_string(alloc, label)?;
    let inside = quoted(alloc, text.as_str())?;
    Ok(Form::Whole(enclosed(alloc, "Label(", inside.as_str(), ")")?))
}

fn range_form(alloc: Global, first: i64, stop: i64, step: i64) -> Mem<Form>
    ensures { IfOk result (λ form. form ≡ Whole (range_text first stop step)) }
{
    let mut text = String::from_str(alloc, "range(")?;
    push_number(&mut text, first)?;
    text.push_str(", ")?;
    push_number(&mut text, stop)?;
    push_range_end(&mut text, step)?;
    Ok(Form::Whole(Txt::of_string(text)))
}

fn push_number(text: &mut String, number: i64) -> Mem<()>
    ensures { OnOk result (string_bytes text.new
        ≡ string_bytes text.old ++ signed_decimal number) }
{
    write!(text, "{number}")?;
    Ok(())
}

fn push_range_end(text: &mut String, step: i64) -> Mem<()>
    ensures { OnOk result (string_bytes text.new ≡ string_bytes text.old ++ range_end step) }
{
    if step != 1 {
        text.push_str(", ")?;
        push_number(text, step)?;
    }
    text.push_str(")")?;
    Ok(())
}

fn path_form(alloc: Global, repo: &str, segments: &[Txt]) -> Mem<Form>
    ensures { IfOk result (λ form. form ≡ Whole (path_text repo.now segments.now)) }
{
    let mut text = String::from_str(alloc, "/repos/@@")?;
    text.push_str(repo)?;
    text.push_str("/")?;
    push_segments(&mut text, segments)?;
    Ok(Form::Whole(Txt::of_string(text)))
}

fn push_segments(text: &mut String, segments: &[Txt]) -> Mem<()>
    ensures { OnOk result (string_bytes text.new ≡ string_bytes text.old
        ++ join_by (λ segment. segment) (codes "/") segments.now) }
{
    let Some((first, more)) = segments.split_first() else {
        return Ok(());
    };
    text.push_str(first.as_str())?;
    push_further(text, more)
}

fn push_further(text: &mut String, segments: &[Txt]) -> Mem<()>
    ensures { OnOk result (string_bytes text.new ≡ string_bytes text.old
        ++ flat_map (λ segment. codes "/" ++ segment) segments.now) }
{
    for segment in segments {
        text.push_str("/")?;
        text.push_str(segment.as_str())?;
    }
    Ok(())
}

fn list_form(alloc: Global, items: &[Val]) -> Mem<Form>
    ensures { IfOk result (λ form. form ≡ Container brackets.List (listed item_pieces items.now)) }
{
    Ok(Form::Container {
        brackets: Brackets::List,
        pieces: parts_of_items(alloc, items)?,
    })
}

fn tuple_form(alloc: Global, items: &[Val]) -> Mem<Form>
    ensures { IfOk result (λ form. form
        ≡ Container (tuple_brackets items.now) (listed item_pieces items.now)) }
{
    Ok(Form::Container {
        brackets: brackets_of_tuple(items),
        pieces: parts_of_items(alloc, items)?,
    })
}

fn brackets_of_tuple(items: &[Val]) -> Brackets
    ensures { result ≡ tuple_brackets items.now }
{
    match items {
        [_] => Brackets::Single,
        _ => Brackets::Tuple,
    }
}

fn dict_form(alloc: Global, dict: &Dict) -> Mem<Form>
    ensures { IfOk result (λ form. form
        ≡ Container brackets.Dict (listed pair_pieces (map (λ entry. entry.pair) dict.now))) }
{
    let pairs = pairs(alloc, dict)?;
    Ok(Form::Container {
        brackets: Brackets::Dict,
        pieces: parts_of_pairs(alloc, pairs.items())?,
    })
}

fn struct_form(alloc: Global, fields: &[NamedVal]) -> Mem<Form>
    ensures { IfOk result (λ form. form
        ≡ Container brackets.Struct (listed field_pieces (order.in_order fields.now))) }
{
    let fields = in_order(alloc, fields)?;
    Ok(Form::Container {
        brackets: Brackets::Struct,
        pieces: parts_of_fields(alloc, fields.items())?,
    })
}
