//! Lines, and texts in the places of others.
ghost use Rattle.std.specs.Prelude.{◌≡◌, IfOk, map};
ghost use Rattle.std.specs.Str.{encode_utf8_all};
ghost use Rattle.bz_text.specs.Answers.{Gives};
ghost use Rattle.star_text.specs.Answers as spec;

use crate::answers::item_behind;
use crate::argument_values::{cuts_of, scalars_of, value_at};
use crate::text_answers::TextAnswer;
use bz_text::{May, Mem, Miss, Seq, Txt};
use star_core::{Fault, Heap, Val};
use star_scalars::{empty_pieces, encoded, first_pieces, split_lines};
use std::alloc::Global;

fn keeps_ends(value: Option<Val>) -> Result<bool, Fault>
    ensures { result ≡ spec.keeps_ends value }
{
    match value {
        None | Some(Val::None) => Ok(false),
        Some(Val::Bool(flag)) => Ok(flag),
        Some(Val::Int(_) | Val::Cell(_)) => Err(Fault::Kind),
    }
}

pub(crate) fn lines_of(alloc: Global, value: Option<Val>, text: &[char]) -> May<TextAnswer, Fault>
    ensures { Gives (spec.lines_of value text.now) result }
{
    match keeps_ends(value) {
        Ok(keep) => Ok(TextAnswer::List(split_lines(alloc, keep, text)?)),
        Err(reason) => Err(Miss::Because(reason)),
    }
}

fn pieces_round(alloc: Global, cuts: usize, old: &[char], text: &[char]) -> Mem<Seq<Txt>>
    ensures { IfOk result (λ pieces. pieces
        ≡ map encode_utf8_all (spec.pieces_round cuts old.now text.now)) }
{
    if old.is_empty() {
        empty_pieces(alloc, cuts, text)
    } else {
        first_pieces(alloc, cuts, old, text)
    }
}

fn pieces_behind(new: &str, pieces: &[Txt], text: Txt) -> May<Txt, Fault>
    ensures { Gives (spec.pieces_behind new.now pieces.now text) result }
{
    let mut whole = text;
    'joining: for piece in pieces {
        match item_behind(new, Some(piece.as_str()), whole) {
            Ok(more) => whole = more,
            Err(miss) => return Err(miss),
        }
    }
    Ok(whole)
}

fn pieces_joined(alloc: Global, new: &str, pieces: &[Txt]) -> May<Txt, Fault>
    ensures { Gives (spec.pieces_joined new.now pieces.now) result }
{
    let Some((first, more)) = pieces.split_first() else {
        return Ok(Txt::of_string(String::new(alloc)));
    };
    pieces_behind(new, more, first.copy(alloc)?)
}

fn replaced_by(
    alloc: Global,
    old: &[char],
    new: &[char],
    most: Option<Val>,
    text: &[char],
) -> May<TextAnswer, Fault>
    ensures { Gives (spec.replaced_by old.now new.now most text.now) result }
{
    match cuts_of(text.len() + 1, most) {
        Ok(cuts) => with_pieces(alloc, new, pieces_round(alloc, cuts, old, text)?),
        Err(reason) => Err(Miss::Because(reason)),
    }
}

fn with_pieces(alloc: Global, new: &[char], pieces: Seq<Txt>) -> May<TextAnswer, Fault>
    ensures { Gives (spec.with_pieces (encode_utf8_all new.now) pieces) result }
{
    let between = encoded(alloc, new)?;
    let whole = pieces_joined(alloc, between.as_str(), pieces.items())?;
    Ok(TextAnswer::Text(whole))
}

/// A text with a new one in the first places of an old one.
#[tactic(auto, unfolding(crate::specs::Answers::replaced))]
pub(crate) fn replaced(
    alloc: Global,
    heap: &Heap,
    values: &[Option<Val>],
    text: &[char],
) -> May<TextAnswer, Fault>
    ensures { Gives (spec.replaced heap.now values.now text.now) result }
{
    let old = scalars_of(alloc, heap, value_at(0, values))?;
    let new = scalars_of(alloc, heap, value_at(1, values))?;
    replaced_by(alloc, old.items(), new.items(), value_at(2, values), text)
}
