//! Cuts texts at a mark.
ghost use Rattle.std.specs.Prelude.{◌≡◌, ◌<◌, IfSome, length};
ghost use Rattle.std.specs.Option.{option_copied};
ghost use Rattle.bz_version.specs.Texts.{before, behind};

use bz_text::cut_at;

/// What stands before the first mark, or the whole text, and what stands behind that mark.
pub fn cut(text: &str, mark: char) -> (&str, Option<&str>)
    requires { mark < 128 }
    ensures front { result.0.now ≡ before mark text.now }
    ensures rest { option_copied result.1 ≡ behind mark text.now }
    ensures shorter { IfSome result.1 (λ rest. length rest.now < length text.now) }
{
    match cut_at(text, mark) {
        Some((front, rest)) => (front, Some(rest)),
        None => (text, None),
    }
}
