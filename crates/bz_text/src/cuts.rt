//! Cuts of a text at a byte.
ghost use Rattle.std.specs.Prelude.{◌≡◌, ◌<◌, ◌∷◌, [], None, Some, IfNone, IfSome, length};
ghost use Rattle.bz_text.specs.Cuts.{behind, cut, cut_at_root, parts_at};

/// The text before the first `mark` and the one behind it. Where there is no mark, the text is one
/// part.
pub fn cut_at(text: &str, mark: char) -> Option<(&str, &str)>
    requires { mark < 128 }
    ensures whole { IfNone result (cut mark text.now ≡ None) }
    ensures parts { IfSome result (λ parts. cut mark text.now ≡ Some (parts.0.now, parts.1.now)) }
    ensures only { IfNone result (parts_at mark text.now ≡ text.now ∷ []) }
    ensures first { IfSome result (λ parts. parts_at mark text.now ≡ parts.0.now ∷ parts_at mark parts.1.now) }
    ensures shorter { IfSome result (λ parts. length parts.1.now < length text.now) }
{
    text.split_once(mark)
}

/// The text behind its first character, where that is `mark`.
pub fn text_behind(text: &str, mark: char) -> Option<&str>
    requires { mark < 128 }
    ensures none { IfNone result (behind mark text.now ≡ None) }
    ensures some { IfSome result (λ rest. behind mark text.now ≡ Some rest.now) }
{
    text.strip_prefix(mark)
}

/// The text before the first slash and the one behind the second, where the two stand together.
pub fn cut_at_double_slash(text: &str) -> Option<(&str, &str)>
    ensures none { IfNone result (cut_at_root text.now ≡ None) }
    ensures some { IfSome result (λ parts. cut_at_root text.now ≡ Some (parts.0.now, parts.1.now)) }
{
    let (front, rest) = cut_at(text, '/')?;
    let target = text_behind(rest, '/')?;
    Some((front, target))
}
