//! The lines of a text, and its single characters as pieces.
ghost use Rattle.std.specs.Prelude.{◌≡◌, ◌≤◌, ◌<◌, ◌++◌, [], IfNone, IfOk, IfSome, OnSome, drop};
ghost use Rattle.std.specs.Prelude.{length};
ghost use Rattle.std.specs.Prelude.{map, take};
ghost use Rattle.std.specs.Str.{encode_utf8_all};
ghost use Rattle.star_scalars.specs.Lines as spec;

use crate::letters::encoded;
use crate::pieces::with_rest;
use bz_text::{Mem, Seq, Txt};
use std::alloc::Global;

#[tactic(auto, unfolding(crate::specs::Lines::is_break))]
fn is_break(c: char) -> bool
    ensures { result ≡ spec.is_break c }
{
    c == '\n' || c == '\r'
}

fn line_length(text: &[char]) -> usize
    ensures value { result ≡ spec.line_length text.now }
    ensures within { result ≤ length text.now }
{
    let mut long = 0usize;
    'counting: for c in text {
        if is_break(*c) {
            return long;
        }
        long += 1;
    }
    long
}

fn break_length(text: &[char]) -> usize
    ensures value { result ≡ spec.break_length text.now }
    ensures within { result ≤ length text.now }
{
    match text {
        [] => 0,
        [_] => 1,
        [first, second, ..] => {
            if *first == '\r' && *second == '\n' {
                2
            } else {
                1
            }
        }
    }
}

#[tactic(auto, unfolding(crate::specs::Lines::whole_length))]
fn whole_length(text: &[char]) -> usize
    ensures value { result ≡ spec.whole_length text.now }
    ensures within { result ≤ length text.now }
{
    let long = line_length(text);
    let (_, behind) = text.split_at(long);
    long + break_length(behind)
}

#[tactic(auto, unfolding(crate::specs::Lines::first_line))]
fn first_line(keep: bool, text: &[char]) -> &[char]
    ensures { result.now ≡ spec.first_line keep text.now }
{
    let long = if keep {
        whole_length(text)
    } else {
        line_length(text)
    };
    text.split_at(long).0
}

/// The first line of a text that isn't empty, and what stands behind it.
fn line_and_more(keep: bool, text: &[char]) -> Option<(&[char], &[char])>
    ensures none { IfNone result (length text.now ≡ 0) }
    ensures some { OnSome result (0 < length text.now) }
    ensures line { IfSome result (λ parts. parts.0.now ≡ spec.first_line keep text.now) }
    ensures behind { IfSome result (λ parts. parts.1.now
        ≡ drop (spec.whole_length text.now) text.now) }
{
    if text.is_empty() {
        return None;
    }
    Some((first_line(keep, text), text.split_at(whole_length(text)).1))
}

/// The lines of a text, with their ends or without them.
pub fn split_lines(alloc: Global, keep: bool, text: &[char]) -> Mem<Seq<Txt>>
    ensures { IfOk result (λ made. made ≡ map encode_utf8_all (spec.lines keep text.now)) }
{
    let mut made = Vec::new(alloc);
    let mut rest = text;
    'cutting: for _line in 0..text.len() {
        let Some((line, behind)) = line_and_more(keep, rest) else {
            return Ok(Seq::of_vec(made));
        };
        made.push(encoded(alloc, line)?)?;
        rest = behind;
    }
    Ok(Seq::of_vec(made))
}

/// The first character of a text that isn't empty, and what stands behind it.
fn scalar_and_more(text: &[char]) -> Option<(&[char], &[char])>
    ensures none { IfNone result (length text.now ≡ 0) }
    ensures some { OnSome result (0 < length text.now) }
    ensures scalar { IfSome result (λ parts. parts.0.now ≡ take 1 text.now) }
    ensures behind { IfSome result (λ parts. parts.1.now ≡ drop 1 text.now) }
{
    if text.is_empty() {
        return None;
    }
    Some(text.split_at(1))
}

/// Texts, and behind them the pieces of a text that is cut behind so many characters.
fn scalar_pieces(alloc: Global, before: Vec<Txt>, cuts: usize, text: &[char]) -> Mem<Seq<Txt>>
    ensures { IfOk result (λ made. made
        ≡ before.items ++ map encode_utf8_all (spec.scalar_pieces cuts text.now)) }
{
    let mut made = before;
    let mut rest = text;
    'cutting: for _cut in 0..cuts {
        let Some((scalar, behind)) = scalar_and_more(rest) else {
            return with_rest(alloc, made, rest);
        };
        made.push(encoded(alloc, scalar)?)?;
        rest = behind;
    }
    with_rest(alloc, made, rest)
}

/// The pieces between the places of the empty text, of which so many are cut at most.
#[tactic(auto, unfolding(crate::specs::Lines::empty_pieces), using(crate::proofs::ScalarCuts::first_empty))]
pub fn empty_pieces(alloc: Global, cuts: usize, text: &[char]) -> Mem<Seq<Txt>>
    ensures { IfOk result (λ made. made ≡ map encode_utf8_all (spec.empty_pieces cuts text.now)) }
{
    let mut made = Vec::new(alloc);
    if cuts == 0 {
        return with_rest(alloc, made, text);
    }
    made.push(encoded(alloc, &[])?)?;
    scalar_pieces(alloc, made, cuts - 1, text)
}
