//! Patterns, filled by their fields.
ghost use Rattle.std.specs.Prelude.{◌≡◌, ◌<◌, ◌+◌, ◌^◌, IfOk, Some, false, length, slice_get};
ghost use Rattle.std.specs.Char.{encode_utf8};
ghost use Rattle.std.specs.Str.{chars, encode_utf8_all};
ghost use Rattle.bz_text.specs.Answers.{Gives};
ghost use Rattle.star_format.specs.Formats as spec;
ghost use Rattle.star_format.specs.Formats.{format_row};
ghost use Rattle.star_format.specs.Fields as fields;
ghost use Rattle.star_core.specs.Contents.{text_in};
ghost use Rattle.star_core.specs.Heaps.{cell_at};
ghost use Rattle.star_core.specs.declared.faults.Fault.TheVariants.{Index};
ghost use Rattle.star_library.specs.Arguments.{values_named};
ghost use Rattle.star_library.specs.Calls.{Builds};

use crate::fields::{FieldKind, PatternPiece, behind_first, front, kind_of, number_of, piece_of};
use crate::filling::one_scalar;
use bz_text::{May, Mem, Miss, Txt};
use star_core::{Args, Fault, Heap, NamedVal, Val};
use star_library::{make_text, text_of};
use star_print::escapes::scalars;
use star_print::{extended, to_str};
use star_scalars::encoded;
use std::alloc::Global;

/// A pattern that is filled up to a piece: how many fields took the next argument, whether one has
/// a number, and what is written.
#[derive(Drop)]
pub struct Formatting {
    pub used: usize,
    pub numbered: bool,
    pub text: Txt,
}

fn with_text(used: usize, numbered: bool, text: Txt, more: &str) -> May<Formatting, Fault>
    ensures { Gives (spec.with_text used numbered text more.now) result }
{
    let text = extended(text, more)?;
    Ok(Formatting {
        used,
        numbered,
        text,
    })
}

fn with_argument(
    heap: &Heap,
    used: usize,
    numbered: bool,
    text: Txt,
    reason: Fault,
    value: Option<Val>,
) -> May<Formatting, Fault>
    ensures { Gives (spec.with_argument heap.now used numbered text reason value) result }
{
    match value {
        Some(value) => {
            let more = to_str(heap, &value)?;
            with_text(used, numbered, text, more.as_str())
        }
        None => Err(Miss::Because(reason)),
    }
}

#[tactic(auto, unfolding(crate::specs::Formats::with_next))]
fn with_next(heap: &Heap, args: &[Val], now: Formatting) -> May<Formatting, Fault>
    ensures { Gives (spec.with_next heap.now args.now now) result }
{
    if now.numbered {
        return Err(Miss::Because(Fault::Value));
    }
    match args.get(now.used) {
        Some(value) => and_next(heap, now.used, now.text, *value),
        None => Err(Miss::Because(Fault::Index)),
    }
}

fn and_next(heap: &Heap, used: usize, text: Txt, value: Val) -> May<Formatting, Fault>
    requires { used < 2 ^ 63 }
    ensures { Gives (spec.with_argument heap.now (used + 1) false text Index (Some value)) result }
{
    with_argument(heap, used + 1, false, text, Fault::Index, Some(value))
}

/// The argument whose number digits spell.
#[tactic(auto, using(crate::proofs::Numbers::far_away))]
fn numbered_argument(args: &[Val], digits: &[char]) -> Option<Val>
    ensures { result ≡ slice_get args.now (fields.number_of digits.now) }
{
    match number_of(digits) {
        Some(number) => args.get(number).copied(),
        None => None,
    }
}

#[tactic(auto, unfolding(crate::specs::Formats::with_number))]
fn with_number(
    heap: &Heap,
    args: &[Val],
    digits: &[char],
    now: Formatting,
) -> May<Formatting, Fault>
    ensures { Gives (spec.with_number heap.now args.now digits.now now) result }
{
    if now.used != 0 {
        return Err(Miss::Because(Fault::Value));
    }
    let value = numbered_argument(args, digits);
    with_argument(heap, 0, true, now.text, Fault::Index, value)
}

/// The first argument under a name.
fn first_named(name: &str, named: &[NamedVal]) -> Option<Val>
    ensures { result ≡ slice_get (values_named name.now named.now) 0 }
{
    'looking: for argument in named {
        if name == argument.name.as_str() {
            return Some(argument.val);
        }
    }
    None
}

fn named_argument(alloc: Global, name: &[char], named: &[NamedVal]) -> Mem<Option<Val>>
    ensures { IfOk result (λ value. value
        ≡ slice_get (values_named (encode_utf8_all name.now) named.now) 0) }
{
    let name = encoded(alloc, name)?;
    Ok(first_named(name.as_str(), named))
}

#[tactic(auto, unfolding(crate::specs::Formats::with_name))]
fn with_name(heap: &Heap, args: &Args, name: &[char], now: Formatting) -> May<Formatting, Fault>
    ensures { Gives (spec.with_name heap.now args.now name.now now) result }
{
    let value = named_argument(heap.alloc(), name, args.named.items())?;
    with_argument(heap, now.used, now.numbered, now.text, Fault::Key, value)
}

fn with_field(heap: &Heap, args: &Args, field: &[char], now: Formatting) -> May<Formatting, Fault>
    ensures { Gives (spec.with_field heap.now args.now (fields.kind_of field.now) field.now now)
        result }
{
    match kind_of(field) {
        FieldKind::Next => with_next(heap, args.positional.items(), now),
        FieldKind::Number => with_number(heap, args.positional.items(), field, now),
        FieldKind::Name => with_name(heap, args, field, now),
        FieldKind::Unknown => Err(Miss::Because(Fault::Value)),
    }
}

fn with_scalar(heap: &Heap, c: char, now: Formatting) -> May<Formatting, Fault>
    ensures { Gives (spec.with_text now.used now.numbered now.text (encode_utf8 c)) result }
{
    let more = one_scalar(heap.alloc(), c)?;
    with_text(now.used, now.numbered, now.text, more.as_str())
}

fn with_piece(
    heap: &Heap,
    args: &Args,
    piece: PatternPiece,
    text: &[char],
    now: Formatting,
) -> May<Formatting, Fault>
    ensures { Gives (spec.with_piece heap.now args.now piece text.now now) result }
{
    match piece {
        PatternPiece::Character(c) | PatternPiece::Brace(c) => with_scalar(heap, c, now),
        PatternPiece::Field(long) => with_field(heap, args, front(long, text), now),
        PatternPiece::Alone => Err(Miss::Because(Fault::Value)),
    }
}

fn with_first(heap: &Heap, args: &Args, pattern: &[char], now: Formatting) -> May<Formatting, Fault>
    ensures { Gives (spec.with_first heap.now args.now pattern.now now) result }
{
    match pattern {
        [] => Ok(now),
        [c, text @ ..] => with_piece(heap, args, piece_of(*c, text), text, now),
    }
}

#[tactic(auto, using(crate::proofs::PieceTurns::piece_turns))]
fn filled_pieces(
    heap: &Heap,
    args: &Args,
    pattern: &[char],
    start: Formatting,
) -> May<Formatting, Fault>
    ensures { Gives
        (spec.formatted_within (length pattern.now) heap.now args.now pattern.now start) result }
{
    let mut now = start;
    let mut rest = pattern;
    'filling: for _turn in 0..pattern.len() {
        match with_first(heap, args, rest, now) {
            Ok(more) => now = more,
            Err(miss) => return Err(miss),
        }
        rest = behind_first(rest);
    }
    Ok(now)
}

#[tactic(auto, unfolding(crate::specs::Formats::formatted))]
fn formatted(heap: &Heap, args: &Args, pattern: &[char]) -> May<Txt, Fault>
    ensures { Gives (spec.formatted heap.now args.now pattern.now) result }
{
    let start = Formatting {
        used: 0,
        numbered: false,
        text: Txt::of_string(String::new(heap.alloc())),
    };
    Ok(filled_pieces(heap, args, pattern, start)?.text)
}

fn formatted_scalars(heap: &Heap, args: &Args, pattern: &str) -> May<Txt, Fault>
    ensures { Gives (spec.formatted heap.now args.now (chars pattern.now)) result }
{
    let pattern = scalars(heap.alloc(), pattern)?;
    formatted(heap, args, pattern.as_slice())
}

fn formatted_text(heap: &Heap, pattern: &Val, args: &Args) -> May<Txt, Fault>
    ensures { Gives (spec.formatted_text heap.now args.now (text_in (cell_at heap.now pattern.now)))
        result }
{
    match text_of(heap, pattern) {
        Some(pattern) => formatted_scalars(heap, args, pattern),
        None => Err(Miss::Because(Fault::Kind)),
    }
}

/// A pattern, filled with arguments by their order, their numbers or their names.
#[tactic(auto, unfolding(crate::specs::Formats::format_row))]
pub fn format(heap: &mut Heap, pattern: &Val, args: &Args) -> May<Val, Fault>
    ensures { Builds (format_row pattern.now args.now heap.old) result heap.new }
{
    match formatted_text(heap, pattern, args) {
        Ok(text) => make_text(heap, text),
        Err(miss) => Err(miss),
    }
}
