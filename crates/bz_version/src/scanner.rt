//! Reads a text byte by byte, and tells where it stops being the front of a version.
ghost use Rattle.std.specs.Prelude.{◌≡◌};
ghost use Rattle.bz_version.specs.Texts.{before, plus};
ghost use Rattle.bz_version.specs.Grammar.{is_prerelease_byte, is_build_byte};
ghost use Rattle.bz_version.specs.Scan.{next_place, release_mark, prerelease_mark, may_end};
ghost use Rattle.bz_version.specs.Scan.{fault_from};
ghost use Rattle.bz_version.specs.declared.scanner.Place.TheVariants.{Start};

use crate::cuts::cut;

/// Where the reader stands. At a place named `..First` the part wants a byte.
#[derive(Clone, Copy, Debug)]
pub enum Place {
    Start,
    ReleaseFirst,
    Release,
    PrereleaseFirst,
    Prerelease,
    BuildFirst,
    Build,
}

/// Where no version can follow, or the length where the text only breaks off too early.
pub fn first_fault(text: &str) -> Option<u64>
    ensures { result ≡ fault_from Start 0 text.now }
{
    let bytes = text.as_bytes();
    let mut place = Place::Start;
    'bytes: for i in 0..bytes.len() {
        match next_place(place, bytes[i]) {
            Some(next) => place = next,
            None => return Some(i as u64),
        }
    }
    if may_end(place) {
        None
    } else {
        Some(bytes.len() as u64)
    }
}

fn next_place(place: Place, byte: u8) -> Option<Place>
    ensures { result ≡ next_place place byte }
{
    match place {
        Place::Start | Place::ReleaseFirst => {
            byte.is_ascii_alphanumeric().then_some(Place::Release)
        }
        Place::Release => byte
            .is_ascii_alphanumeric()
            .then_some(Place::Release)
            .or(release_mark(byte)),
        Place::PrereleaseFirst => is_prerelease_byte(byte).then_some(Place::Prerelease),
        Place::Prerelease => is_prerelease_byte(byte)
            .then_some(Place::Prerelease)
            .or(prerelease_mark(byte)),
        Place::BuildFirst | Place::Build => is_build_byte(byte).then_some(Place::Build),
    }
}

fn release_mark(byte: u8) -> Option<Place>
    ensures { result ≡ release_mark byte }
{
    match byte {
        b'.' => Some(Place::ReleaseFirst),
        b'-' => Some(Place::PrereleaseFirst),
        b'+' => Some(Place::BuildFirst),
        _ => None,
    }
}

fn prerelease_mark(byte: u8) -> Option<Place>
    ensures { result ≡ prerelease_mark byte }
{
    match byte {
        b'.' => Some(Place::PrereleaseFirst),
        b'+' => Some(Place::BuildFirst),
        _ => None,
    }
}

fn is_prerelease_byte(byte: u8) -> bool
    ensures { result ≡ is_prerelease_byte byte }
{
    byte.is_ascii_alphanumeric() || byte == b'-'
}

fn is_build_byte(byte: u8) -> bool
    ensures { result ≡ is_build_byte byte }
{
    is_prerelease_byte(byte) || byte == b'.'
}

fn may_end(place: Place) -> bool
    ensures { result ≡ may_end place }
{
    match place {
        Place::Start | Place::Release | Place::Prerelease | Place::Build => true,
        Place::ReleaseFirst | Place::PrereleaseFirst | Place::BuildFirst => false,
    }
}

/// The text before its first `+`.
pub fn without_build(text: &str) -> &str
    ensures { result.now ≡ before plus text.now }
{
    cut(text, '+').0
}
