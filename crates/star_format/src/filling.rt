//! Patterns, filled from left to right.
ghost use Rattle.std.specs.Prelude.{◌≡◌, ◌<◌, ◌^◌, IfOk, string_bytes};
ghost use Rattle.std.specs.Char.{encode_utf8};
ghost use Rattle.std.specs.Str.{chars};
ghost use Rattle.bz_text.specs.Answers.{Gives};
ghost use Rattle.star_format.specs.Filling as spec;
ghost use Rattle.star_format.specs.Filling.{int_text, percent_row, signed_digits};
ghost use Rattle.std.specs.Fmt.{digits, signed_decimal};
ghost use Rattle.star_library.specs.Calls.{Builds};

use bz_text::{May, Mem, Miss, Seq, Txt};
use star_core::{Cell, Fault, Heap, Val};
use star_library::{copy_of, make_text, text_of};
use star_print::escapes::scalars;
use star_print::{extended, to_repr, to_str};
use std::alloc::Global;

/// A pattern that is filled up to a character: whether that stands behind a percent sign, how many
/// arguments are used, and what is written.
#[derive(Drop)]
pub struct Filling {
    pub behind: bool,
    pub used: usize,
    pub text: Txt,
}

fn int_or_fault(value: Val) -> Result<i64, Fault>
    ensures { result ≡ spec.int_or_fault value }
{
    match value {
        Val::Int(number) => Ok(number),
        Val::None | Val::Bool(_) | Val::Cell(_) => Err(Fault::Kind),
    }
}

fn decimal_text(alloc: Global, value: Val) -> May<Txt, Fault>
    ensures { Gives (int_text signed_decimal value) result }
{
    match int_or_fault(value) {
        Ok(number) => Ok(Txt::of_string(number.to_string(alloc)?)),
        Err(reason) => Err(Miss::Because(reason)),
    }
}

/// The digits of a number in base 16 or, in octal, 8.
#[derive(Clone, Copy, Debug, PartialEq, Eq)]
pub enum Base {
    Hex,
    UpperHex,
    Octal,
}

fn digits_of(alloc: Global, base: Base, number: u64) -> Mem<String>
    ensures { IfOk result (λ text. string_bytes text
        ≡ digits (spec.base_of base) (spec.is_upper base) number) }
{
    match base {
        Base::Hex => Ok(format!(in alloc; "{number:x}")?),
        Base::UpperHex => Ok(format!(in alloc; "{number:X}")?),
        Base::Octal => Ok(format!(in alloc; "{number:o}")?),
    }
}

fn signed_text(alloc: Global, base: Base, number: i64) -> Mem<Txt>
    ensures { IfOk result (λ text. text
        ≡ signed_digits (spec.base_of base) (spec.is_upper base) number) }
{
    let mut text = String::new(alloc);
    if number < 0 {
        text.push_str("-")?;
    }
    let digits = digits_of(alloc, base, number.unsigned_abs())?;
    text.push_str(digits.as_str())?;
    Ok(Txt::of_string(text))
}

fn based_text(alloc: Global, base: Base, value: Val) -> May<Txt, Fault>
    ensures { Gives (int_text (signed_digits (spec.base_of base) (spec.is_upper base)) value)
        result }
{
    match int_or_fault(value) {
        Ok(number) => Ok(signed_text(alloc, base, number)?),
        Err(reason) => Err(Miss::Because(reason)),
    }
}

#[tactic(auto, unfolding(crate::specs::Filling::converted))]
fn converted(alloc: Global, heap: &Heap, letter: char, value: Val) -> May<Txt, Fault>
    ensures { Gives (spec.converted heap.now letter value) result }
{
    match letter {
        's' => to_str(heap, &value),
        'r' => to_repr(heap, &value),
        'd' => decimal_text(alloc, value),
        'x' => based_text(alloc, Base::Hex, value),
        'X' => based_text(alloc, Base::UpperHex, value),
        'o' => based_text(alloc, Base::Octal, value),
        _ => Err(Miss::Because(Fault::Value)),
    }
}

fn with_text(used: usize, filling: Filling, more: &str) -> May<Filling, Fault>
    ensures { Gives (spec.with_text used filling more.now) result }
{
    let text = extended(filling.text, more)?;
    Ok(Filling {
        behind: false,
        used,
        text,
    })
}

fn with_argument(
    alloc: Global,
    heap: &Heap,
    letter: char,
    value: Option<Val>,
    filling: Filling,
) -> May<Filling, Fault>
    requires { filling.used < 2 ^ 63 }
    ensures { Gives (spec.with_argument heap.now letter value filling) result }
{
    match value {
        Some(value) => {
            let more = converted(alloc, heap, letter, value)?;
            with_text(filling.used + 1, filling, more.as_str())
        }
        None => Err(Miss::Because(Fault::Value)),
    }
}

#[tactic(auto, unfolding(crate::specs::Filling::conversion))]
fn conversion(
    alloc: Global,
    heap: &Heap,
    args: &[Val],
    filling: Filling,
    letter: char,
) -> May<Filling, Fault>
    ensures { Gives (spec.conversion heap.now args.now filling letter) result }
{
    if letter == '%' {
        return with_text(filling.used, filling, "%");
    }
    match args.get(filling.used) {
        Some(value) => with_argument(alloc, heap, letter, Some(*value), filling),
        None => Err(Miss::Because(Fault::Value)),
    }
}

#[tactic(auto, unfolding(crate::specs::Filling::literal))]
fn literal(alloc: Global, filling: Filling, c: char) -> May<Filling, Fault>
    ensures { Gives (spec.literal filling c) result }
{
    if c == '%' {
        return Ok(Filling {
            behind: true,
            used: filling.used,
            text: filling.text,
        });
    }
    let more = one_scalar(alloc, c)?;
    with_text(filling.used, filling, more.as_str())
}

pub(crate) fn one_scalar(alloc: Global, c: char) -> Mem<Txt>
    ensures { IfOk result (λ text. text ≡ encode_utf8 c) }
{
    let mut text = String::new(alloc);
    text.push(c)?;
    Ok(Txt::of_string(text))
}

fn step(alloc: Global, heap: &Heap, args: &[Val], filling: Filling, c: char) -> May<Filling, Fault>
    ensures { Gives (spec.step heap.now args.now filling c) result }
{
    if filling.behind {
        conversion(alloc, heap, args, filling, c)
    } else {
        literal(alloc, filling, c)
    }
}

fn filled(
    alloc: Global,
    heap: &Heap,
    args: &[Val],
    pattern: &[char],
    filling: Filling,
) -> May<Filling, Fault>
    ensures { Gives (spec.filled heap.now args.now pattern.now filling) result }
{
    let mut now = filling;
    'filling: for c in pattern {
        match step(alloc, heap, args, now, *c) {
            Ok(more) => now = more,
            Err(miss) => return Err(miss),
        }
    }
    Ok(now)
}

fn finished(args: &[Val], filling: Filling) -> May<Txt, Fault>
    ensures { Gives (spec.finished args.now filling) result }
{
    if filling.behind || filling.used != args.len() {
        Err(Miss::Because(Fault::Value))
    } else {
        Ok(filling.text)
    }
}

fn arguments_of(alloc: Global, heap: &Heap, value: &Val) -> Mem<Seq<Val>>
    ensures { IfOk result (λ args. args ≡ spec.arguments_of heap.now value.now) }
{
    match heap.cell(value) {
        Some(Cell::Tuple(items)) => copy_of(alloc, items.items()),
        _ => copy_of(alloc, &[*value]),
    }
}

fn filled_with(alloc: Global, heap: &Heap, pattern: &[char], args: &[Val]) -> May<Txt, Fault>
    ensures { Gives (spec.filled_with heap.now args.now pattern.now) result }
{
    let start = Filling {
        behind: false,
        used: 0,
        text: Txt::of_string(String::new(alloc)),
    };
    finished(args, filled(alloc, heap, args, pattern, start)?)
}

#[tactic(auto, unfolding(crate::specs::Filling::percent_text))]
fn percent_text(alloc: Global, heap: &Heap, pattern: &Val, args: &Val) -> May<Txt, Fault>
    ensures { Gives (spec.percent_text heap.now pattern.now args.now) result }
{
    let args = arguments_of(alloc, heap, args)?;
    match text_of(heap, pattern) {
        Some(pattern) => filled_text(alloc, heap, pattern, args.items()),
        None => Err(Miss::Because(Fault::Kind)),
    }
}

fn filled_text(alloc: Global, heap: &Heap, pattern: &str, args: &[Val]) -> May<Txt, Fault>
    ensures { Gives (spec.filled_with heap.now args.now (chars pattern.now)) result }
{
    let pattern = scalars(alloc, pattern)?;
    filled_with(alloc, heap, pattern.as_slice(), args)
}

/// A pattern, filled with the items of a tuple or with one value.
#[tactic(auto, unfolding(crate::specs::Filling::percent_row))]
pub fn percent(heap: &mut Heap, pattern: &Val, args: &Val) -> May<Val, Fault>
    ensures { Builds (percent_row pattern.now args.now heap.old) result heap.new }
{
    match percent_text(heap.alloc(), heap, pattern, args) {
        Ok(text) => make_text(heap, text),
        Err(miss) => Err(miss),
    }
}
