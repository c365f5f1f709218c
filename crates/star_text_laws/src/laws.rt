//! Laws of searches and pieces.
ghost use Rattle.std.specs.Prelude.{[], ◌+◌, ◌≡◌, ◌<◌, All, List, Ok, Option, length, map, true, ℕ};
ghost use Rattle.std.specs.Str.{encode_utf8_all};
ghost use Rattle.star_core.specs.declared.values.Val.{Val};
ghost use Rattle.star_scalars.specs.Lines.{empty_pieces, lines};
ghost use Rattle.star_scalars.specs.Pieces.{first_pieces, last_pieces};
ghost use Rattle.star_scalars.specs.Searches.{cut_first, cut_last, first_index, last_index};
ghost use Rattle.star_text.specs.Answers.{pieces_round, replaced_by};
ghost use Rattle.star_text.specs.ArgumentValues.{cuts_of};
ghost use Rattle.star_text_laws.specs.Places.{IsFirst, IsLast, IsParted, IsPartedLast};
ghost use Rattle.star_text_laws.specs.Places.{StandsNowhere, joined};
ghost use Rattle.star_text_laws.specs.Replaced.{IsTextOrTooLarge};

/// The first index is the least one at which a text stands, and there is none where it stands
/// nowhere.
pub fn the_first_index_is_the_least()
    ensures { (sub text : List ℕ) → IsFirst sub text (first_index sub text) }
{}

/// A text is what is before the first place of a separator, the separator and what is behind, and
/// the separator isn't in the first part.
pub fn a_text_is_cut_at_the_first_place()
    ensures { (separator text : List ℕ) → 0 < length separator
        → IsParted separator text (cut_first separator text) }
{}

/// The last index is the greatest one at which a text stands, and there is none where it stands
/// nowhere.
pub fn the_last_index_is_the_greatest()
    ensures { (sub text : List ℕ) → IsLast sub text (last_index sub text) }
{}

/// A text is what is before the last place of a separator, the separator and what is behind, and
/// the separator isn't in the last part.
pub fn a_text_is_cut_at_the_last_place()
    ensures { (separator text : List ℕ) → 0 < length separator
        → IsPartedLast separator text (cut_last separator text) }
{}

/// Pieces with the separator between them are the text, however often it is cut.
pub fn pieces_joined_are_the_text()
    ensures { (cuts : ℕ) (separator text : List ℕ)
        → joined separator (first_pieces cuts separator text) ≡ text }
{}

/// No piece has the separator in it, where a text is cut as often as there is a place.
pub fn no_piece_has_the_separator()
    ensures { (separator text : List ℕ) → 0 < length separator
        → All (StandsNowhere separator) (first_pieces (length text) separator text) }
{}

/// The same of pieces that are cut from the end on.
pub fn last_pieces_joined_are_the_text()
    ensures { (cuts : ℕ) (separator text : List ℕ)
        → joined separator (last_pieces cuts separator text) ≡ text }
{}

pub fn no_last_piece_has_the_separator()
    ensures { (separator text : List ℕ) → 0 < length separator
        → All (StandsNowhere separator) (last_pieces (length text) separator text) }
{}

/// A text that `replace` gives is the pieces between the places of the old one, with the new one
/// between them; too large a text is the only refusal behind the arguments.
pub fn replaced_texts_are_joined()
    ensures { (old new : List ℕ) (most : Option Val) (cuts : ℕ) (text : List ℕ)
        → cuts_of (length text + 1) most ≡ Ok cuts
        → IsTextOrTooLarge
        (joined (encode_utf8_all new) (map encode_utf8_all (pieces_round cuts old text)))
        (replaced_by old new most text) }
{}

/// The pieces round the places of the empty text are the text, one behind another.
pub fn empty_pieces_joined_are_the_text()
    ensures { (cuts : ℕ) (text : List ℕ) → joined [] (empty_pieces cuts text) ≡ text }
{}

/// Lines with their ends are the text, one behind another.
pub fn lines_joined_are_the_text()
    ensures { (text : List ℕ) → joined [] (lines true text) ≡ text }
{}
