//! What a refusal tells of why and where an evaluation was refused.
ghost use Rattle.std.specs.Prelude.{◌≡◌, IfOk};
ghost use Rattle.star_eval.specs.Reasons as spec;

use bz_base::{Code, Refusal};
use bz_text::{Mem, Txt};
use star_core::Fault;
use star_meaning::{Place, Reason, line_of};
use std::alloc::Global;

/// The kind of a fault as it is printed; sizes and depth have codes of their own.
fn kind(fault: Fault) -> &'static str
    ensures { result.now ≡ spec.kind_text fault }
{
    match fault {
        Fault::Kind => "type",
        Fault::Value => "value",
        Fault::Index => "index",
        Fault::Key => "key",
        Fault::Attr => "attr",
        Fault::Arity => "arity",
        Fault::Overflow => "overflow",
        Fault::Zero => "zero",
        Fault::Frozen => "frozen",
        Fault::Iterating => "iterating",
        Fault::Recursion => "recursion",
        Fault::Unbound => "unbound",
        Fault::Size | Fault::Depth => "",
    }
}

fn code(why: Reason) -> Code
    ensures { result ≡ spec.code_of why }
{
    match why {
        Reason::Fault(Fault::Size) => Code::Size,
        Reason::Fault(Fault::Depth) => Code::Depth,
        Reason::Fault(_) => Code::Fault,
        Reason::Steps => Code::Steps,
        Reason::Unbuilt => Code::Unsupported,
    }
}

fn detail(why: Reason) -> &'static str
    ensures { result.now ≡ spec.detail_of why }
{
    match why {
        Reason::Fault(fault) => kind(fault),
        Reason::Steps | Reason::Unbuilt => "",
    }
}

/// The printed name of a place's file; none where there is no place.
fn file_name(names: &[Txt], place: Option<Place>) -> &str
    ensures { result.now ≡ spec.file_name names.now place }
{
    match place {
        None => "",
        Some(place) => match names.get(place.file) {
            None => "",
            Some(name) => name.as_str(),
        },
    }
}

/// The language's own refusal.
pub fn refusal(alloc: Global, names: &[Txt], why: Reason, place: Option<Place>) -> Mem<Refusal>
    ensures { IfOk result (λ refusal. refusal ≡ spec.refusal_for names.now why place) }
{
    let file = Txt::of(alloc, file_name(names, place))?;
    let detail = Txt::of(alloc, detail(why))?;
    Ok(Refusal {
        code: code(why),
        file,
        line: line_of(place),
        detail,
        hint: 0,
    })
}

/// A host's refusal, where the running statement begins.
pub fn placed(alloc: Global, names: &[Txt], refusal: Refusal, place: Option<Place>) -> Mem<Refusal>
    ensures { IfOk result (λ placed. placed ≡ spec.placed names.now refusal place) }
{
    let file = Txt::of(alloc, file_name(names, place))?;
    let mut refusal = refusal;
    refusal.file = file;
    refusal.line = line_of(place);
    Ok(refusal)
}
