//! What a string method answers, by its rows.
ghost use Rattle.std.specs.Prelude.{◌≡◌, IfOk, None, Ok, Some, map};
ghost use Rattle.std.specs.Option.{option_copied};
ghost use Rattle.std.specs.Char.{encode_utf8};
ghost use Rattle.star_text.specs.declared.text_answers.TextAnswer.TheVariants.{List};
ghost use Rattle.bz_text.specs.Answers.{Gives};
ghost use Rattle.star_scalars.specs.Letters as letters;
ghost use Rattle.star_scalars.specs.Searches as searches;
ghost use Rattle.star_text.specs.Answers as spec;
ghost use Rattle.star_text.specs.Answers.{bared};
ghost use Rattle.star_text.specs.ArgumentValues.{text_or_fault};

use crate::argument_values::{cuts_of, scalars_of, separator_of, value_at};
use crate::methods::TextMethod;
use crate::positions::{counted, found, index_or_fault, index_or_minus, sided};
use crate::replacing::{lines_of, replaced};
use crate::text_answers::{Side, TextAnswer};
use bz_text::{May, Mem, Miss, Seq, Txt};
use star_core::{Fault, Heap, Val};
use star_library::{items, text_of};
use star_print::extended;
use star_scalars::{
    Class, are_all, capitalized, cut_first, cut_last, encoded, first_pieces, is_lower, is_title,
    is_upper, last_pieces, last_words, lower, title, upper, without_end, without_front,
    without_prefix, without_space, without_space_behind, without_suffix, words,
};
use std::alloc::Global;

#[tactic(auto, unfolding(crate::specs::Answers::answer_of))]
pub(crate) fn answer_of(
    alloc: Global,
    method: TextMethod,
    heap: &Heap,
    text: &[char],
    values: &[Option<Val>],
) -> May<TextAnswer, Fault>
    ensures { Gives (spec.answer_of method heap.now text.now values.now) result }
{
    match method {
        TextMethod::Capitalize => changed(alloc, capitalized(alloc, text)?),
        TextMethod::Count => counted(alloc, heap, values, text),
        TextMethod::Elems => elems(alloc, text),
        TextMethod::Endswith => sided(alloc, Side::End, heap, values, text),
        TextMethod::Find => index_or_minus(found(alloc, Side::Front, heap, values, text)?),
        TextMethod::Index => index_or_fault(found(alloc, Side::Front, heap, values, text)?),
        TextMethod::Isalnum => Ok(TextAnswer::Flag(are_all(Class::LetterOrDigit, text))),
        TextMethod::Isalpha => Ok(TextAnswer::Flag(are_all(Class::Letter, text))),
        TextMethod::Isdigit => Ok(TextAnswer::Flag(are_all(Class::Digit, text))),
        TextMethod::Islower => Ok(TextAnswer::Flag(is_lower(alloc, text)?)),
        TextMethod::Isspace => Ok(TextAnswer::Flag(are_all(Class::Space, text))),
        TextMethod::Istitle => Ok(TextAnswer::Flag(is_title(alloc, text)?)),
        TextMethod::Isupper => Ok(TextAnswer::Flag(is_upper(alloc, text)?)),
        TextMethod::Join => joined(alloc, heap, value_at(0, values), text),
        TextMethod::Lower => changed(alloc, lower(alloc, text)?),
        TextMethod::Lstrip => stripped(alloc, Side::Front, heap, value_at(0, values), text),
        TextMethod::Partition => partition(alloc, heap, value_at(0, values), text),
        TextMethod::Removeprefix => bared_front(alloc, heap, value_at(0, values), text),
        TextMethod::Removesuffix => bared_end(alloc, heap, value_at(0, values), text),
        TextMethod::Replace => replaced(alloc, heap, values, text),
        TextMethod::Rfind => index_or_minus(found(alloc, Side::End, heap, values, text)?),
        TextMethod::Rindex => index_or_fault(found(alloc, Side::End, heap, values, text)?),
        TextMethod::Rpartition => last_partition(alloc, heap, value_at(0, values), text),
        TextMethod::Rsplit => last_split(
            alloc,
            heap,
            value_at(0, values),
            value_at(1, values),
            text,
        ),
        TextMethod::Rstrip => stripped(alloc, Side::End, heap, value_at(0, values), text),
        TextMethod::Split => split(alloc, heap, value_at(0, values), value_at(1, values), text),
        TextMethod::Splitlines => lines_of(alloc, value_at(0, values), text),
        TextMethod::Startswith => sided(alloc, Side::Front, heap, values, text),
        TextMethod::Strip => stripped(alloc, Side::Both, heap, value_at(0, values), text),
        TextMethod::Title => changed(alloc, title(alloc, text)?),
        TextMethod::Upper => changed(alloc, upper(alloc, text)?),
    }
}

fn changed(alloc: Global, text: Vec<char>) -> May<TextAnswer, Fault>
    ensures { Gives (Ok (spec.text_of text.items)) result }
{
    Ok(text_answer(alloc, text.as_slice())?)
}

fn text_answer(alloc: Global, text: &[char]) -> Mem<TextAnswer>
    ensures { IfOk result (λ answer. answer ≡ spec.text_of text.now) }
{
    Ok(TextAnswer::Text(encoded(alloc, text)?))
}

fn without_spaces(at: Side, text: &[char]) -> &[char]
    ensures { result.now ≡ spec.without at letters.is_space text.now }
{
    match at {
        Side::Front => without_space(text),
        Side::End => without_space_behind(text),
        Side::Both => without_space_behind(without_space(text)),
    }
}

fn without<'t>(at: Side, set: &[char], text: &'t [char]) -> &'t [char]
    ensures { result.now ≡ spec.without at (letters.is_one_of set.now) text.now }
{
    match at {
        Side::Front => without_front(set, text),
        Side::End => without_end(set, text),
        Side::Both => without_end(set, without_front(set, text)),
    }
}

#[tactic(auto, unfolding(crate::specs::Answers::stripped))]
fn stripped(
    alloc: Global,
    at: Side,
    heap: &Heap,
    value: Option<Val>,
    text: &[char],
) -> May<TextAnswer, Fault>
    ensures { Gives (spec.stripped at heap.now value text.now) result }
{
    if value.is_none() {
        return Ok(text_answer(alloc, without_spaces(at, text))?);
    }
    let set = scalars_of(alloc, heap, value)?;
    Ok(text_answer(alloc, without(at, set.items(), text))?)
}

fn bared_front(
    alloc: Global,
    heap: &Heap,
    value: Option<Val>,
    text: &[char],
) -> May<TextAnswer, Fault>
    ensures { Gives (bared searches.without_prefix heap.now value text.now) result }
{
    let part = scalars_of(alloc, heap, value)?;
    Ok(text_answer(alloc, without_prefix(part.items(), text))?)
}

fn bared_end(
    alloc: Global,
    heap: &Heap,
    value: Option<Val>,
    text: &[char],
) -> May<TextAnswer, Fault>
    ensures { Gives (bared searches.without_suffix heap.now value text.now) result }
{
    let part = scalars_of(alloc, heap, value)?;
    Ok(text_answer(alloc, without_suffix(part.items(), text))?)
}

fn three_parts(
    alloc: Global,
    before: &[char],
    separator: &[char],
    behind: &[char],
) -> Mem<TextAnswer>
    ensures { IfOk result (λ answer. answer
        ≡ spec.three_parts before.now separator.now behind.now) }
{
    let mut parts = Vec::new(alloc);
    parts.push(encoded(alloc, before)?)?;
    parts.push(encoded(alloc, separator)?)?;
    parts.push(encoded(alloc, behind)?)?;
    Ok(TextAnswer::Tuple(Seq::of_vec(parts)))
}

#[tactic(auto, unfolding(crate::specs::Answers::partition))]
fn partition(
    alloc: Global,
    heap: &Heap,
    value: Option<Val>,
    text: &[char],
) -> May<TextAnswer, Fault>
    ensures { Gives (spec.partition heap.now value text.now) result }
{
    let separator = separator_of(alloc, heap, value)?;
    Ok(parted_first(alloc, separator.items(), text)?)
}

fn parted_first(alloc: Global, separator: &[char], text: &[char]) -> Mem<TextAnswer>
    ensures { IfOk result (λ answer. answer ≡ spec.parted_first separator.now text.now
        (searches.cut_first separator.now text.now)) }
{
    match cut_first(separator, text) {
        Some((before, behind)) => three_parts(alloc, before, separator, behind),
        None => three_parts(alloc, text, &[], &[]),
    }
}

#[tactic(auto, unfolding(crate::specs::Answers::last_partition))]
fn last_partition(
    alloc: Global,
    heap: &Heap,
    value: Option<Val>,
    text: &[char],
) -> May<TextAnswer, Fault>
    ensures { Gives (spec.last_partition heap.now value text.now) result }
{
    let separator = separator_of(alloc, heap, value)?;
    Ok(parted_last(alloc, separator.items(), text)?)
}

fn parted_last(alloc: Global, separator: &[char], text: &[char]) -> Mem<TextAnswer>
    ensures { IfOk result (λ answer. answer ≡ spec.parted_last separator.now text.now
        (searches.cut_last separator.now text.now)) }
{
    match cut_last(separator, text) {
        Some((before, behind)) => three_parts(alloc, before, separator, behind),
        None => three_parts(alloc, &[], &[], text),
    }
}

#[tactic(auto, unfolding(crate::specs::Answers::split))]
fn split(
    alloc: Global,
    heap: &Heap,
    value: Option<Val>,
    most: Option<Val>,
    text: &[char],
) -> May<TextAnswer, Fault>
    ensures { Gives (spec.split heap.now value most text.now) result }
{
    if value.is_none() {
        return split_words(alloc, most, text);
    }
    let separator = separator_of(alloc, heap, value)?;
    split_at(alloc, separator.items(), most, text)
}

#[tactic(auto, unfolding(crate::specs::Answers::last_split))]
fn last_split(
    alloc: Global,
    heap: &Heap,
    value: Option<Val>,
    most: Option<Val>,
    text: &[char],
) -> May<TextAnswer, Fault>
    ensures { Gives (spec.last_split heap.now value most text.now) result }
{
    if value.is_none() {
        return split_last_words(alloc, most, text);
    }
    let separator = separator_of(alloc, heap, value)?;
    split_last_at(alloc, separator.items(), most, text)
}

fn split_last_words(alloc: Global, most: Option<Val>, text: &[char]) -> May<TextAnswer, Fault>
    ensures { Gives (spec.split_last_words most text.now) result }
{
    match cuts_of(text.len(), most) {
        Ok(cuts) => Ok(TextAnswer::List(last_words(alloc, cuts, text)?)),
        Err(reason) => Err(Miss::Because(reason)),
    }
}

fn split_last_at(
    alloc: Global,
    separator: &[char],
    most: Option<Val>,
    text: &[char],
) -> May<TextAnswer, Fault>
    ensures { Gives (spec.split_last_at separator.now most text.now) result }
{
    match cuts_of(text.len(), most) {
        Ok(cuts) => Ok(TextAnswer::List(last_pieces(alloc, cuts, separator, text)?)),
        Err(reason) => Err(Miss::Because(reason)),
    }
}

/// Each character as a text of its own.
fn elems(alloc: Global, text: &[char]) -> May<TextAnswer, Fault>
    ensures { Gives (Ok (List (map encode_utf8 text.now))) result }
{
    let mut texts = Vec::new(alloc);
    'taking: for c in text {
        texts.push(one_scalar(alloc, *c)?)?;
    }
    Ok(TextAnswer::List(Seq::of_vec(texts)))
}

fn one_scalar(alloc: Global, c: char) -> Mem<Txt>
    ensures { IfOk result (λ text. text ≡ encode_utf8 c) }
{
    let mut text = String::new(alloc);
    text.push(c)?;
    Ok(Txt::of_string(text))
}

fn split_words(alloc: Global, most: Option<Val>, text: &[char]) -> May<TextAnswer, Fault>
    ensures { Gives (spec.split_words most text.now) result }
{
    match cuts_of(text.len(), most) {
        Ok(cuts) => Ok(TextAnswer::List(words(alloc, cuts, text)?)),
        Err(reason) => Err(Miss::Because(reason)),
    }
}

fn split_at(
    alloc: Global,
    separator: &[char],
    most: Option<Val>,
    text: &[char],
) -> May<TextAnswer, Fault>
    ensures { Gives (spec.split_at separator.now most text.now) result }
{
    match cuts_of(text.len(), most) {
        Ok(cuts) => Ok(TextAnswer::List(first_pieces(alloc, cuts, separator, text)?)),
        Err(reason) => Err(Miss::Because(reason)),
    }
}

#[tactic(auto, unfolding(crate::specs::Answers::joined))]
fn joined(alloc: Global, heap: &Heap, value: Option<Val>, text: &[char]) -> May<TextAnswer, Fault>
    ensures { Gives (spec.joined heap.now value text.now) result }
{
    let items = iterable(alloc, heap, value)?;
    let separator = encoded(alloc, text)?;
    let whole = items_joined(alloc, heap, separator.as_str(), items.items())?;
    Ok(TextAnswer::Text(whole))
}

fn iterable(alloc: Global, heap: &Heap, value: Option<Val>) -> May<Seq<Val>, Fault>
    ensures { Gives (spec.iterable heap.now value) result }
{
    match value {
        Some(value) => items(alloc, heap, &value),
        None => Err(Miss::Because(Fault::Kind)),
    }
}

fn items_joined(alloc: Global, heap: &Heap, separator: &str, items: &[Val]) -> May<Txt, Fault>
    ensures { Gives (spec.items_joined heap.now separator.now items.now) result }
{
    let Some((first, more)) = items.split_first() else {
        return Ok(Txt::of_string(String::new(alloc)));
    };
    let whole = first_item(alloc, text_of(heap, first))?;
    items_behind(heap, separator, more, whole)
}

fn first_item(alloc: Global, item: Option<&str>) -> May<Txt, Fault>
    ensures { Gives (text_or_fault (option_copied item.entry)) result }
{
    match item {
        Some(item) => Ok(Txt::of(alloc, item)?),
        None => Err(Miss::Because(Fault::Kind)),
    }
}

fn items_behind(heap: &Heap, separator: &str, items: &[Val], text: Txt) -> May<Txt, Fault>
    ensures { Gives (spec.items_behind heap.now separator.now items.now text) result }
{
    let mut whole = text;
    'joining: for item in items {
        match item_behind(separator, text_of(heap, item), whole) {
            Ok(more) => whole = more,
            Err(miss) => return Err(miss),
        }
    }
    Ok(whole)
}

pub(crate) fn item_behind(separator: &str, item: Option<&str>, text: Txt) -> May<Txt, Fault>
    ensures { Gives (spec.item_behind separator.now (option_copied item.entry) text) result }
{
    match item {
        Some(more) => extended(extended(text, separator)?, more),
        None => Err(Miss::Because(Fault::Kind)),
    }
}
