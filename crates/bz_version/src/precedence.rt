//! Compares versions by their identifiers.
ghost use Rattle.std.specs.Prelude.{◌≡◌, ◌<◌, ◌∷◌, true, IfSome, length};
ghost use Rattle.std.specs.Option.{option_copied};
ghost use Rattle.std.specs.Cmp.Lexicographic.{slice_cmp};
ghost use Rattle.bz_version.specs.Texts.{behind, between_dots, dash};
ghost use Rattle.bz_version.specs.Digits.{is_numeric, significant};
ghost use Rattle.bz_version.specs.Precedence.{identifier_order, identifiers, numeric_order};
ghost use Rattle.bz_version.specs.Precedence.{part_order, precedence, release_of};

use crate::cuts::cut;
use std::cmp::Ordering;

/// The order of two texts without BUILD.
#[tactic(auto, unfolding(crate::specs::Precedence::precedence))]
pub fn compare_versions(first: &str, second: &str) -> Ordering
    ensures { result ≡ precedence first.now second.now }
{
    let (release, prerelease) = parts_of(first);
    let (other_release, other_prerelease) = parts_of(second);
    compare_parts(release, other_release).then(compare_parts(prerelease, other_prerelease))
}

/// RELEASE and PRERELEASE.
fn parts_of(text: &str) -> (Option<&str>, Option<&str>)
    ensures release { option_copied result.0 ≡ release_of text.now }
    ensures prerelease { option_copied result.1 ≡ behind dash text.now }
{
    let (release, prerelease) = cut(text, '-');
    if text == "" {
        return (None, prerelease);
    }
    (Some(release), prerelease)
}

#[tactic(auto, using(crate::proofs::Marks::dots_cut))]
fn compare_parts(first: Option<&str>, second: Option<&str>) -> Ordering
    ensures { result ≡ part_order (identifiers (option_copied first.entry)) (identifiers (option_copied
        second.entry)) }
{
    match (first, second) {
        (None, None) => Ordering::Equal,
        (None, Some(_)) => Ordering::Greater,
        (Some(_), None) => Ordering::Less,
        (Some(first), Some(second)) => compare_dotted(first, second),
    }
}

/// The order of dotted identifiers.
#[tactic(auto, using(crate::proofs::Marks::dots_cut))]
fn compare_dotted(first: &str, second: &str) -> Ordering
    ensures { result ≡ slice_cmp identifier_order (between_dots first.now) (between_dots second.now) }
{
    let mut rest = first;
    let mut other_rest = second;
    'identifiers: loop {
        let (identifier, more) = first_identifier(rest);
        let (other, other_more) = first_identifier(other_rest);
        let order = compare_identifiers(identifier.as_bytes(), other.as_bytes());
        if order.is_ne() {
            return order;
        }
        match (more, other_more) {
            (None, None) => return Ordering::Equal,
            (None, Some(_)) => return Ordering::Less,
            (Some(_), None) => return Ordering::Greater,
            (Some(more), Some(other_more)) => {
                rest = more;
                other_rest = other_more;
            }
        }
    }
}

/// The identifier before the first dot, and what stands behind that dot.
#[tactic(auto, using(crate::proofs::Marks::dots_cut))]
fn first_identifier(text: &str) -> (&str, Option<&str>)
    ensures split { between_dots text.now ≡ result.0.now ∷ identifiers (option_copied result.1) }
    ensures shorter { IfSome result.1 (λ rest. length rest.now < length text.now) }
{
    cut(text, '.')
}

fn compare_identifiers(first: &[u8], second: &[u8]) -> Ordering
    ensures { result ≡ identifier_order first.now second.now }
{
    match (is_numeric(first), is_numeric(second)) {
        (true, true) => compare_digits(first, second),
        (true, false) => Ordering::Less,
        (false, true) => Ordering::Greater,
        (false, false) => first.cmp(second),
    }
}

fn is_numeric(identifier: &[u8]) -> bool
    ensures { result ≡ is_numeric identifier.now }
{
    identifier.iter().all(|b| b.is_ascii_digit())
}

/// Digits compare by number: of numbers without zeros in front the longer is the larger.
#[tactic(auto, using(crate::proofs::Numbers::numeric_order_without_zeros))]
fn compare_digits(first: &[u8], second: &[u8]) -> Ordering
    requires first { is_numeric first.now ≡ true }
    requires second { is_numeric second.now ≡ true }
    ensures { result ≡ numeric_order first.now second.now }
{
    let (number, other) = (without_zeros(first), without_zeros(second));
    number
        .len()
        .cmp(&other.len())
        .then(number.cmp(other))
        .then(first.cmp(second))
}

/// The digits behind the zeros in front.
fn without_zeros(digits: &[u8]) -> &[u8]
    ensures { result.now ≡ significant digits.now }
{
    let mut rest = digits;
    'zeros: while let [b'0', more @ ..] = rest {
        rest = more;
    }
    rest
}
