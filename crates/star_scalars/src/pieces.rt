//! Texts cut into pieces.
ghost use Rattle.std.specs.Prelude.{◌≡◌, ◌<◌, ◌≤◌, ◌++◌, ◌∷◌, [], IfNone, IfOk, IfSome};
ghost use Rattle.std.specs.Prelude.{OnSome, drop, length, map, reverse, take};
ghost use Rattle.std.specs.Str.{encode_utf8_all};
ghost use Rattle.star_scalars.specs.Letters as letters;
ghost use Rattle.star_scalars.specs.Pieces as spec;

use crate::letters::{encoded, is_space, without_space};
use crate::searches::{cut_first, cut_last};
use bz_text::{Mem, Seq, Txt};
use std::alloc::Global;

/// The pieces of a text that is cut at so many places of a separator at most, from the front on.
#[tactic(auto, using(crate::proofs::Cuts::first_cuts))]
pub fn first_pieces(alloc: Global, cuts: usize, separator: &[char], text: &[char]) -> Mem<Seq<Txt>>
    ensures { IfOk result (λ made. made
        ≡ map encode_utf8_all (spec.first_pieces cuts separator.now text.now)) }
{
    let mut made = Vec::new(alloc);
    let mut rest = text;
    'cutting: for _cut in 0..cuts {
        let Some((before, behind)) = cut_first(separator, rest) else {
            return with_rest(alloc, made, rest);
        };
        made.push(encoded(alloc, before)?)?;
        rest = behind;
    }
    with_rest(alloc, made, rest)
}

/// The pieces of a text that is cut at so many places of a separator at most, from the end on.
#[tactic(auto, using(crate::proofs::Cuts::last_cuts))]
pub fn last_pieces(alloc: Global, cuts: usize, separator: &[char], text: &[char]) -> Mem<Seq<Txt>>
    ensures { IfOk result (λ made. made
        ≡ map encode_utf8_all (spec.last_pieces cuts separator.now text.now)) }
{
    let mut made = Vec::new(alloc);
    let mut rest = text;
    'cutting: for _cut in 0..cuts {
        let Some((before, behind)) = cut_last(separator, rest) else {
            return in_reverse(alloc, made, rest);
        };
        made.push(encoded(alloc, behind)?)?;
        rest = before;
    }
    in_reverse(alloc, made, rest)
}

/// What is left, and behind it the pieces, the last of which was made first.
fn in_reverse(alloc: Global, made: Vec<Txt>, rest: &[char]) -> Mem<Seq<Txt>>
    ensures { IfOk result (λ all. all ≡ encode_utf8_all rest.now ∷ reverse made.items) }
{
    let mut made = made;
    made.push(encoded(alloc, rest)?)?;
    made.as_mut_slice().reverse();
    Ok(Seq::of_vec(made))
}

/// The words of a text, which is cut at so many runs of space at most, from the front on.
pub fn words(alloc: Global, cuts: usize, text: &[char]) -> Mem<Seq<Txt>>
    ensures { IfOk result (λ made. made ≡ map encode_utf8_all (spec.words cuts text.now)) }
{
    Ok(Seq::of_vec(words_by(alloc, Direction::Front, cuts, text)?))
}

/// The words of a text, from the end on: those of its mirror image.
pub fn last_words(alloc: Global, cuts: usize, text: &[char]) -> Mem<Seq<Txt>>
    ensures { IfOk result (λ made. made ≡ map encode_utf8_all (spec.last_words cuts text.now)) }
{
    let image = mirrored(alloc, text)?;
    let made = words_by(alloc, Direction::End, cuts, image.as_slice())?;
    Ok(turned(made))
}

fn turned(texts: Vec<Txt>) -> Seq<Txt>
    ensures { result ≡ reverse texts.items }
{
    let mut texts = texts;
    texts.as_mut_slice().reverse();
    Seq::of_vec(texts)
}

fn mirrored(alloc: Global, text: &[char]) -> Mem<Vec<char>>
    ensures { IfOk result (λ image. image.items ≡ reverse text.now) }
{
    let mut image = Vec::from_slice(alloc, text)?;
    image.as_mut_slice().reverse();
    Ok(image)
}

/// Where words are taken from.
#[derive(Clone, Copy, Debug, PartialEq, Eq)]
pub enum Direction {
    Front,
    End,
}

fn word_text(alloc: Global, by: Direction, word: &[char]) -> Mem<Txt>
    ensures { IfOk result (λ text. text ≡ spec.word_text by word.now) }
{
    match by {
        Direction::Front => encoded(alloc, word),
        Direction::End => encoded(alloc, mirrored(alloc, word)?.as_slice()),
    }
}

/// The words of a text or of a mirror image, as they read in the text.
#[tactic(auto, using(crate::proofs::WordCuts::word_cuts))]
fn words_by(alloc: Global, by: Direction, cuts: usize, text: &[char]) -> Mem<Vec<Txt>>
    ensures { IfOk result (λ made. made.items
        ≡ map (spec.word_text by) (spec.words cuts text.now)) }
{
    let mut made = Vec::new(alloc);
    let mut rest = without_space(text);
    'cutting: for _cut in 0..cuts {
        let Some((word, behind)) = first_word(rest) else {
            return Ok(made);
        };
        made.push(word_text(alloc, by, word)?)?;
        rest = behind;
    }
    with_last_word(alloc, by, made, rest)
}

/// The word with which a text begins, and what stands behind the space behind it.
fn first_word(text: &[char]) -> Option<(&[char], &[char])>
    ensures none { IfNone result (length text.now ≡ 0) }
    ensures some { OnSome result (0 < length text.now) }
    ensures word { IfSome result (λ parts. parts.0.now
        ≡ take (spec.word_length text.now) text.now) }
    ensures behind { IfSome result (λ parts. parts.1.now
        ≡ letters.without_front letters.is_space (drop (spec.word_length text.now) text.now)) }
{
    if text.is_empty() {
        return None;
    }
    let (word, behind) = text.split_at(word_length(text));
    Some((word, without_space(behind)))
}

fn with_last_word(alloc: Global, by: Direction, made: Vec<Txt>, rest: &[char]) -> Mem<Vec<Txt>>
    ensures { IfOk result (λ all. all.items
        ≡ made.items ++ map (spec.word_text by) (spec.last_word rest.now)) }
{
    let mut made = made;
    if !rest.is_empty() {
        made.push(word_text(alloc, by, rest)?)?;
    }
    Ok(made)
}

fn word_length(text: &[char]) -> usize
    ensures value { result ≡ spec.word_length text.now }
    ensures within { result ≤ length text.now }
{
    let mut long = 0usize;
    'counting: for c in text {
        if is_space(*c) {
            return long;
        }
        long += 1;
    }
    long
}

pub(crate) fn with_rest(alloc: Global, made: Vec<Txt>, rest: &[char]) -> Mem<Seq<Txt>>
    ensures { IfOk result (λ all. all ≡ made.items ++ encode_utf8_all rest.now ∷ []) }
{
    let mut made = made;
    made.push(encoded(alloc, rest)?)?;
    Ok(Seq::of_vec(made))
}
