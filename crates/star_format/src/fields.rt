//! The pieces of a pattern that `format` fills, and its fields.
ghost use Rattle.std.specs.Prelude.{◌≡◌, ◌≤◌, ◌+◌, ◌-◌, ◌*◌, ◌^◌, IfNone, IfSome, drop, take};
ghost use Rattle.std.specs.List.{list_all};
ghost use Rattle.star_format.specs.Fields as spec;

use star_scalars::{Class, are_all, begins, first_index};

/// The piece with which a pattern begins: a character that stands for itself, a brace that is
/// written twice, a field with so many characters between its braces, or a brace that stands alone.
#[derive(Clone, Copy, Debug, PartialEq, Eq)]
pub enum PatternPiece {
    Character(char),
    Brace(char),
    Field(usize),
    Alone,
}

fn field_piece(long: Option<usize>) -> PatternPiece
    ensures { result ≡ spec.field_piece long }
{
    match long {
        Some(long) => PatternPiece::Field(long),
        None => PatternPiece::Alone,
    }
}

/// The piece that begins with a character, with a text behind that one.
#[tactic(auto, unfolding(crate::specs::Fields::piece_of))]
pub(crate) fn piece_of(c: char, text: &[char]) -> PatternPiece
    ensures { result ≡ spec.piece_of c text.now }
{
    if (c == '{' || c == '}') && begins(text, &[c]) {
        PatternPiece::Brace(c)
    } else if c == '{' {
        field_piece(first_index(&['}'], text))
    } else if c == '}' {
        PatternPiece::Alone
    } else {
        PatternPiece::Character(c)
    }
}

pub(crate) fn front(long: usize, text: &[char]) -> &[char]
    ensures { result.now ≡ take long text.now }
{
    if long <= text.len() {
        text.split_at(long).0
    } else {
        text
    }
}

fn behind(long: usize, text: &[char]) -> &[char]
    ensures { result.now ≡ drop long text.now }
{
    if long <= text.len() {
        text.split_at(long).1
    } else {
        &[]
    }
}

fn behind_piece(piece: PatternPiece, text: &[char]) -> &[char]
    ensures { result.now ≡ spec.behind_piece piece text.now }
{
    match piece {
        PatternPiece::Character(_) | PatternPiece::Alone => text,
        PatternPiece::Brace(_) => behind(1, text),
        PatternPiece::Field(long) => behind(1, behind(long, text)),
    }
}

/// What stands behind the first piece of a pattern.
pub(crate) fn behind_first(pattern: &[char]) -> &[char]
    ensures { result.now ≡ spec.behind_first pattern.now }
{
    match pattern {
        [] => pattern,
        [c, text @ ..] => behind_piece(piece_of(*c, text), text),
    }
}

/// Which argument a field asks for: the next one, one by its number, one by its name, or none.
#[derive(Clone, Copy, Debug, PartialEq, Eq)]
pub enum FieldKind {
    Next,
    Number,
    Name,
    Unknown,
}

#[tactic(auto, unfolding(crate::specs::Fields::is_of_name))]
fn is_of_name(c: char) -> bool
    ensures { result ≡ spec.is_of_name c }
{
    c.is_ascii_alphanumeric() || c == '_'
}

fn are_of_names(text: &[char]) -> bool
    ensures { result ≡ list_all spec.is_of_name text.now }
{
    text.iter().all(|c| is_of_name(*c))
}

fn is_name(text: &[char]) -> bool
    ensures { result ≡ spec.is_name text.now }
{
    match text {
        [] => false,
        [c, ..] => !c.is_ascii_digit() && are_of_names(text),
    }
}

#[tactic(auto, unfolding(crate::specs::Fields::kind_of))]
pub(crate) fn kind_of(text: &[char]) -> FieldKind
    ensures { result ≡ spec.kind_of text.now }
{
    if text.is_empty() {
        FieldKind::Next
    } else if are_all(Class::Digit, text) {
        FieldKind::Number
    } else if is_name(text) {
        FieldKind::Name
    } else {
        FieldKind::Unknown
    }
}

/// A number with one more digit; None where it has more than 64 bits.
fn with_digit(number: usize, c: char) -> Option<usize>
    ensures fits { IfSome result (λ next. next ≡ number * 10 + (c - 48)) }
    ensures large { IfNone result (2 ^ 64 ≤ number * 10 + (c - 48)) }
{
    let digit = u32::from(c).saturating_sub(48) as usize;
    number.checked_mul(10)?.checked_add(digit)
}

/// The number that digits spell; None where it has more than 64 bits.
pub(crate) fn number_of(digits: &[char]) -> Option<usize>
    ensures fits { IfSome result (λ number. number ≡ spec.number_of digits.now) }
    ensures large { IfNone result (2 ^ 64 ≤ spec.number_of digits.now) }
{
    let mut number = 0usize;
    'reading: for c in digits {
        match with_digit(number, *c) {
            Some(next) => number = next,
            None => return None,
        }
    }
    Some(number)
}
