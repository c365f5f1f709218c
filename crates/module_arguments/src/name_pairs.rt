//! Names of repositories, two by two.
ghost use Rattle.std.specs.Prelude.{Ok, []};
ghost use Rattle.std.specs.Option.{option_copied};
ghost use Rattle.bz_text.specs.Answers.{Gives};
ghost use Rattle.module_arguments.specs.NamePairs as spec;
ghost use Rattle.module_arguments.specs.NamePairs.{named_after, pairs_in, placed_after};

use crate::objections::{Objection, object};
use bz_base::Code;
use bz_text::{May, Seq, Txt};
use module_names::is_repository_name;
use star_core::{Heap, NamedVal, Val};
use star_library::text_of;
use std::alloc::Global;

/// A keyword and its value, or a string that stands for both.
#[derive(Drop)]
pub struct NamePair {
    pub keyword: Txt,
    pub value: Txt,
}

/// The pairs of a call, those by position first.
pub fn read_pairs(
    alloc: Global,
    heap: &Heap,
    values: &[Val],
    named: &[NamedVal],
) -> May<Seq<NamePair>, Objection>
    ensures { Gives (pairs_in heap.now values.now named.now) result }
{
    match placed_pairs(alloc, heap, values) {
        Ok(pairs) => named_pairs(alloc, heap, pairs, named),
        Err(miss) => Err(miss),
    }
}

fn placed_pairs(alloc: Global, heap: &Heap, values: &[Val]) -> May<Seq<NamePair>, Objection>
    ensures { Gives (placed_after heap.now (Ok []) values.now) result }
{
    let mut pairs = Vec::new(alloc);
    'reading: for value in values {
        match both_of(alloc, text_of(heap, value)) {
            Ok(one) => pairs.push(one)?,
            Err(miss) => return Err(miss),
        }
    }
    Ok(Seq::of_vec(pairs))
}

fn named_pairs(
    alloc: Global,
    heap: &Heap,
    before: Seq<NamePair>,
    named: &[NamedVal],
) -> May<Seq<NamePair>, Objection>
    ensures { Gives (named_after heap.now (Ok before) named.now) result }
{
    let mut pairs = before.into_vec();
    'reading: for argument in named {
        match pair_under(alloc, heap, argument) {
            Ok(one) => pairs.push(one)?,
            Err(miss) => return Err(miss),
        }
    }
    Ok(Seq::of_vec(pairs))
}

fn pair_under(alloc: Global, heap: &Heap, argument: &NamedVal) -> May<NamePair, Objection>
    ensures { Gives (spec.pair_under heap.now argument.now) result }
{
    let keyword = argument.name.as_str();
    if !is_repository_name(keyword) {
        return object(alloc, Code::BadName, keyword);
    }
    pair_of(alloc, keyword, text_of(heap, &argument.val))
}

fn pair_of(alloc: Global, keyword: &str, value: Option<&str>) -> May<NamePair, Objection>
    ensures { Gives (spec.pair_of keyword.now keyword.now (option_copied value.entry)) result }
{
    match value {
        Some(value) => value_checked(alloc, keyword, value),
        None => object(alloc, Code::BadValue, keyword),
    }
}

fn both_of(alloc: Global, value: Option<&str>) -> May<NamePair, Objection>
    ensures { Gives (spec.both_of (option_copied value.entry)) result }
{
    match value {
        Some(value) => value_checked(alloc, value, value),
        None => object(alloc, Code::BadValue, "args"),
    }
}

fn value_checked(alloc: Global, keyword: &str, value: &str) -> May<NamePair, Objection>
    ensures { Gives (spec.value_checked keyword.now value.now) result }
{
    if !is_repository_name(value) {
        return object(alloc, Code::BadName, value);
    }
    Ok(NamePair {
        keyword: Txt::of(alloc, keyword)?,
        value: Txt::of(alloc, value)?,
    })
}
