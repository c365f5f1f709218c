//! The refusal of a cycle.
ghost use Rattle.std.specs.Prelude.{◌≡◌, ◌++◌, ◌∷◌, ◌≤◌, IfOk, OnOk, length, string_bytes};
ghost use Rattle.std.specs.List.{position_or_len};
ghost use Rattle.std.specs.Str.{bytes_eq};
ghost use Rattle.board_laws.specs.Rounds.{cycle_texts, least, lesser, turned_to};
ghost use Rattle.board_work.specs.Cycles.{arrows, cycle_refusal};
ghost use Rattle.board_cycle.specs.Arrows.{with_arrows};

use bz_base::{Code, Mem, Refusal, Txt};
use std::alloc::Global;
use std::cmp::Ordering;

/// The refusal of the jobs on a cycle, of which these are the texts.
pub fn cycle_refusal(alloc: Global, texts: &[Txt]) -> Mem<Refusal>
    ensures { IfOk result (λ refusal. refusal ≡ cycle_refusal (cycle_texts texts.now)) }
{
    let mut refusal = Refusal::of(alloc, Code::Cycle);
    if let [first, others @ ..] = texts {
        let mut text = String::new(alloc);
        push_round(&mut text, least_text(first, others).as_str(), texts)?;
        refusal.detail = Txt::of_string(text);
    }
    Ok(refusal)
}

/// The text that comes first by bytes.
fn least_text<'a>(first: &'a Txt, others: &'a [Txt]) -> &'a Txt
    ensures { result.now ≡ least first.now others.now }
{
    let mut least = first;
    for text in others {
        least = lesser(least, text);
    }
    least
}

fn lesser<'a>(one: &'a Txt, other: &'a Txt) -> &'a Txt
    ensures { result.now ≡ lesser one.now other.now }
{
    match one.as_str().as_bytes().cmp(other.as_str().as_bytes()) {
        Ordering::Greater => other,
        _ => one,
    }
}

/// The texts from the first one on, then those before it, then the first one again.
fn push_round(text: &mut String, first: &str, texts: &[Txt]) -> Mem<()>
    ensures { OnOk result (string_bytes text.new ≡ string_bytes text.old ++ arrows (turned_to first.now texts.now)) }
{
    let place = place_of(first, texts);
    push_arrows(text, &texts[place..])?;
    push_arrows(text, &texts[..place])?;
    Ok(text.push_str(first)?)
}

/// The place of a text, or the number of texts where it isn't there.
fn place_of(text: &str, texts: &[Txt]) -> usize
    ensures place { result ≡ position_or_len (bytes_eq text.now) texts.now }
    ensures within { result ≤ length texts.now }
{
    for (place, other) in texts.iter().enumerate() {
        if text == other.as_str() {
            return place;
        }
    }
    texts.len()
}

/// Writes the texts, each with an arrow behind it.
fn push_arrows(text: &mut String, texts: &[Txt]) -> Mem<()>
    ensures { OnOk result (string_bytes text.new ≡ string_bytes text.old ++ with_arrows texts.now) }
{
    for other in texts {
        text.push_str(other.as_str())?;
        text.push_str(" -> ")?;
    }
    Ok(())
}
