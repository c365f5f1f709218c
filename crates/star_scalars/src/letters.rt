//! Letters, digits and space.
ghost use Rattle.std.specs.Prelude.{◌≡◌, ◌++◌, IfOk, OnOk};
ghost use Rattle.std.specs.Char.{is_ascii_alphabetic};
ghost use Rattle.std.specs.List.{list_any};
ghost use Rattle.std.specs.Str.{encode_utf8_all};
ghost use Rattle.star_scalars.specs.Letters as spec;
ghost use Rattle.star_scalars.specs.Letters.{cased, is_its_own, title_behind};

use bz_text::{Mem, Txt};
use std::alloc::Global;

/// The text of characters.
pub fn encoded(alloc: Global, text: &[char]) -> Mem<Txt>
    ensures { IfOk result (λ whole. whole ≡ encode_utf8_all text.now) }
{
    let whole: String = text.iter().copied().collect(alloc)?;
    Ok(Txt::of_string(whole))
}

#[tactic(auto, unfolding(crate::specs::Letters::is_space))]
pub fn is_space(c: char) -> bool
    ensures { result ≡ spec.is_space c }
{
    c == ' ' || c == '\t' || c == '\n' || c == '\u{b}' || c == '\u{c}' || c == '\r'
}

/// A class of characters.
#[derive(Clone, Copy, Debug, PartialEq, Eq)]
pub enum Class {
    Letter,
    Digit,
    LetterOrDigit,
    Space,
}

#[tactic(auto, unfolding(crate::specs::Letters::is_of))]
fn is_of(class: Class, c: char) -> bool
    ensures { result ≡ spec.is_of class c }
{
    match class {
        Class::Letter => c.is_ascii_alphabetic(),
        Class::Digit => c.is_ascii_digit(),
        Class::LetterOrDigit => c.is_ascii_alphanumeric(),
        Class::Space => is_space(c),
    }
}

/// Whether a text has characters, and all of them are of a class.
pub fn are_all(class: Class, text: &[char]) -> bool
    ensures { result ≡ spec.are_all class text.now }
{
    'looking: for c in text {
        if !is_of(class, *c) {
            return false;
        }
    }
    !text.is_empty()
}

fn has_letter(text: &[char]) -> bool
    ensures { result ≡ list_any is_ascii_alphabetic text.now }
{
    text.iter().any(|c| c.is_ascii_alphabetic())
}

pub fn lower(alloc: Global, text: &[char]) -> Mem<Vec<char>>
    ensures { IfOk result (λ changed. changed.items ≡ spec.lower text.now) }
{
    Ok(text.iter().map(|c| c.to_ascii_lowercase()).collect(alloc)?)
}

pub fn upper(alloc: Global, text: &[char]) -> Mem<Vec<char>>
    ensures { IfOk result (λ changed. changed.items ≡ spec.upper text.now) }
{
    Ok(text.iter().map(|c| c.to_ascii_uppercase()).collect(alloc)?)
}

fn cased_char(behind: bool, c: char) -> char
    ensures { result ≡ cased behind c }
{
    if behind {
        c.to_ascii_lowercase()
    } else {
        c.to_ascii_uppercase()
    }
}

/// Each word begins with a large letter.
pub fn title(alloc: Global, text: &[char]) -> Mem<Vec<char>>
    ensures { IfOk result (λ changed. changed.items ≡ spec.title text.now) }
{
    let mut changed = Vec::new(alloc);
    let mut behind = false;
    'casing: for c in text {
        changed.push(cased_char(behind, *c))?;
        behind = c.is_ascii_alphabetic();
    }
    Ok(changed)
}

/// The first letter is large, and all others are small.
pub fn capitalized(alloc: Global, text: &[char]) -> Mem<Vec<char>>
    ensures { IfOk result (λ changed. changed.items ≡ spec.capitalized text.now) }
{
    let mut changed = Vec::new(alloc);
    if let Some((first, more)) = text.split_first() {
        changed.push(first.to_ascii_uppercase())?;
        push_lower(&mut changed, more)?;
    }
    Ok(changed)
}

fn push_lower(changed: &mut Vec<char>, text: &[char]) -> Mem<()>
    ensures { OnOk result (changed.new.items ≡ changed.old.items ++ spec.lower text.now) }
{
    'lowering: for c in text {
        changed.push(c.to_ascii_lowercase())?;
    }
    Ok(())
}

/// Whether a text has letters, and all of them are small.
pub fn is_lower(alloc: Global, text: &[char]) -> Mem<bool>
    ensures { IfOk result (λ own. own ≡ is_its_own spec.lower text.now) }
{
    Ok(lower(alloc, text)?.as_slice() == text && has_letter(text))
}

/// Whether a text has letters, and all of them are large.
pub fn is_upper(alloc: Global, text: &[char]) -> Mem<bool>
    ensures { IfOk result (λ own. own ≡ is_its_own spec.upper text.now) }
{
    Ok(upper(alloc, text)?.as_slice() == text && has_letter(text))
}

/// Whether a text has letters, and each is large exactly where a word begins.
pub fn is_title(alloc: Global, text: &[char]) -> Mem<bool>
    ensures { IfOk result (λ own. own ≡ is_its_own spec.title text.now) }
{
    Ok(title(alloc, text)?.as_slice() == text && has_letter(text))
}

#[tactic(auto, unfolding(crate::specs::Letters::is_one_of))]
fn is_one_of(set: &[char], c: &char) -> bool
    ensures { result ≡ spec.is_one_of set.now c.now }
{
    set.contains(c)
}

/// A text without the characters of a set at its front.
pub fn without_front<'t>(set: &[char], text: &'t [char]) -> &'t [char]
    ensures { result.now ≡ spec.without_front (spec.is_one_of set.now) text.now }
{
    let mut rest = text;
    'leaving: while let Some((first, more)) = rest.split_first() {
        if !is_one_of(set, first) {
            return rest;
        }
        rest = more;
    }
    rest
}

/// A text without the characters of a set at its end.
#[tactic(auto, using(crate::proofs::MirrorImages::text_ends))]
pub fn without_end<'t>(set: &[char], text: &'t [char]) -> &'t [char]
    ensures { result.now ≡ spec.without_end (spec.is_one_of set.now) text.now }
{
    let mut rest = text;
    'leaving: while let Some((last, more)) = rest.split_last() {
        if !is_one_of(set, last) {
            return rest;
        }
        rest = more;
    }
    rest
}

/// A text without the space at its front.
pub fn without_space<'t>(text: &'t [char]) -> &'t [char]
    ensures { result.now ≡ spec.without_front spec.is_space text.now }
{
    let mut rest = text;
    'leaving: while let Some((first, more)) = rest.split_first() {
        if !is_space(*first) {
            return rest;
        }
        rest = more;
    }
    rest
}

/// A text without the space at its end.
#[tactic(auto, using(crate::proofs::MirrorImages::text_ends))]
pub fn without_space_behind<'t>(text: &'t [char]) -> &'t [char]
    ensures { result.now ≡ spec.without_end spec.is_space text.now }
{
    let mut rest = text;
    'leaving: while let Some((last, more)) = rest.split_last() {
        if !is_space(*last) {
            return rest;
        }
        rest = more;
    }
    rest
}
