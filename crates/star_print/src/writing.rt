//! Texts that grow up to a limit.
ghost use Rattle.bz_text.specs.Answers.{Gives};
ghost use Rattle.star_print.specs.Prints as spec;

use bz_text::{May, Miss, Txt};
use star_core::Fault;
use star_core::heap::MOST_BYTES;

/// A text with another behind it.
#[tactic(auto, unfolding(crate::specs::Prints::extended))]
pub fn extended(text: Txt, more: &str) -> May<Txt, Fault>
    ensures { Gives (spec.extended text more.now) result }
{
    if MOST_BYTES < text.as_str().len() + more.len() {
        return Err(Miss::Because(Fault::Size));
    }
    let mut whole = text.into_string();
    whole.push_str(more)?;
    Ok(Txt::of_string(whole))
}
