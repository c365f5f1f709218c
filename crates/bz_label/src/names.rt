//! The last segment of a package.
ghost use Rattle.std.specs.Prelude.{◌≡◌};
ghost use Rattle.bz_label.specs.Parts.{last_segment};

use bz_base::cut_at;

/// What stands behind the last slash, or all where there is none.
pub(crate) fn last_name(text: &str) -> &str
    ensures { result.now ≡ last_segment text.now }
{
    let mut rest = text;
    'segments: while let Some((_, more)) = cut_at(rest, '/') {
        rest = more;
    }
    rest
}
