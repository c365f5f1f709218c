//! `len`.
ghost use Rattle.std.specs.Prelude.{◌≡◌, length, option_copied};
ghost use Rattle.std.specs.Str.{chars};
ghost use Rattle.star_functions.specs.Answers as spec;
ghost use Rattle.star_functions.specs.Answers.{length_came};

use star_core::{Cell, Fault};
use star_library::range_length;
use star_numbers::integers::narrowed;
use star_operators::Outcome;
use star_operators::outcomes::number;

/// A length, which has 64 bits.
fn counted(count: u64) -> Result<Outcome, Fault>
    ensures { result ≡ length_came count }
{
    number(narrowed(i128::from(count)))
}

fn text_length(text: &str) -> Result<Outcome, Fault>
    ensures { result ≡ length_came (length (chars text.now)) }
{
    counted(text.chars().count() as u64)
}

/// The length of a cell.
#[tactic(auto, unfolding(crate::specs::Answers::cell_length))]
pub(crate) fn cell_length(cell: Option<&Cell>) -> Result<Outcome, Fault>
    ensures { result ≡ spec.cell_length (option_copied cell.entry) }
{
    match cell {
        Some(Cell::Text(text)) => text_length(text.as_str()),
        Some(Cell::List(items)) => counted(items.items().len() as u64),
        Some(Cell::Tuple(items)) => counted(items.items().len() as u64),
        Some(Cell::Dict(dict)) => counted(dict.len() as u64),
        Some(Cell::Range { first, stop, step }) => counted(range_length(*first, *stop, *step)),
        _ => Err(Fault::Kind),
    }
}
