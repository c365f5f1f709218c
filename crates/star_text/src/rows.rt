//! String methods: the receiver, the arguments, the answer, and the cells that are made of it.
ghost use Rattle.std.specs.Prelude.{◌≡◌, []};
ghost use Rattle.bz_text.specs.Answers.{Gives};
ghost use Rattle.star_library.specs.Calls.{Builds, go_on, list_made, text_made, tuple_made};
ghost use Rattle.star_text.specs.Rows as spec;
ghost use Rattle.star_text.specs.Rows.{answer_made, texts_made, text_row};

use crate::answers::answer_of;
use crate::argument_values::scalars_of;
use crate::methods::TextMethod;
use crate::text_answers::TextAnswer;
use bz_text::{May, Seq, Txt};
use star_core::{Args, Fault, Heap, Val};
use star_library::{bind, make_list, make_text, make_tuple};
use std::alloc::Global;

/// A call of a string's method.
#[tactic(auto, unfolding(crate::specs::Rows::text_row))]
pub fn text_call(
    heap: &mut Heap,
    method: TextMethod,
    receiver: &Val,
    args: &Args,
) -> May<Val, Fault>
    ensures { Builds (text_row method receiver.now args.now heap.old) result heap.new }
{
    let alloc = heap.alloc();
    match answered(alloc, method, heap, receiver, args) {
        Ok(answer) => make_answer(alloc, heap, answer),
        Err(miss) => Err(miss),
    }
}

#[tactic(auto, unfolding(crate::specs::Rows::answered))]
fn answered(
    alloc: Global,
    method: TextMethod,
    heap: &Heap,
    receiver: &Val,
    args: &Args,
) -> May<TextAnswer, Fault>
    ensures { Gives (spec.answered method heap.now receiver.now args.now) result }
{
    let text = scalars_of(alloc, heap, Some(*receiver))?;
    let values = bind(alloc, method.parameters(), args)?;
    answer_of(alloc, method, heap, text.items(), values.items())
}

#[tactic(auto, unfolding(crate::specs::Rows::answer_made))]
fn make_answer(alloc: Global, heap: &mut Heap, answer: TextAnswer) -> May<Val, Fault>
    ensures { Builds (answer_made answer heap.old) result heap.new }
{
    match answer {
        TextAnswer::Text(text) => make_text(heap, text),
        TextAnswer::Flag(flag) => Ok(Val::Bool(flag)),
        TextAnswer::Number(number) => Ok(Val::Int(number)),
        TextAnswer::List(texts) => make_texts_list(alloc, heap, texts.items()),
        TextAnswer::Tuple(texts) => make_texts_tuple(alloc, heap, texts.items()),
    }
}

fn make_texts_list(alloc: Global, heap: &mut Heap, texts: &[Txt]) -> May<Val, Fault>
    ensures { Builds (go_on (texts_made [] texts.now heap.old) list_made) result heap.new }
{
    match make_texts(alloc, heap, texts) {
        Ok(made) => make_list(heap, made),
        Err(miss) => Err(miss),
    }
}

fn make_texts_tuple(alloc: Global, heap: &mut Heap, texts: &[Txt]) -> May<Val, Fault>
    ensures { Builds (go_on (texts_made [] texts.now heap.old) tuple_made) result heap.new }
{
    match make_texts(alloc, heap, texts) {
        Ok(made) => make_tuple(heap, made),
        Err(miss) => Err(miss),
    }
}

fn make_texts(alloc: Global, heap: &mut Heap, texts: &[Txt]) -> May<Seq<Val>, Fault>
    ensures { Builds (texts_made [] texts.now heap.old) result heap.new }
{
    let mut made = Vec::new(alloc);
    'making: for text in texts {
        match make_copy(alloc, heap, text) {
            Ok(value) => made.push(value)?,
            Err(miss) => return Err(miss),
        }
    }
    Ok(Seq::of_vec(made))
}

fn make_copy(alloc: Global, heap: &mut Heap, text: &Txt) -> May<Val, Fault>
    ensures { Builds (text_made text.now heap.old) result heap.new }
{
    make_text(heap, text.copy(alloc)?)
}
