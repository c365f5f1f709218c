//! Why a directive is refused, before its place is known.
ghost use Rattle.std.specs.Prelude.{◌≡◌, Err};
ghost use Rattle.bz_text.specs.Answers.{Gives};
ghost use Rattle.module_arguments.specs.Objections as spec;

use crate::parameters::ParameterName;
use bz_base::Code;
use bz_text::{May, Miss, Txt};
use std::alloc::Global;

/// A refusal's code and detail.
#[derive(Drop)]
pub struct Objection {
    pub code: Code,
    pub detail: Txt,
}

/// Refuses with a code and a detail.
pub fn object<T>(alloc: Global, code: Code, detail: &str) -> May<T, Objection>
    ensures { Gives (Err (spec.objection code detail.now)) result }
{
    Err(Miss::Because(Objection {
        code,
        detail: Txt::of(alloc, detail)?,
    }))
}

/// Refuses arguments that bind to no parameters.
pub fn refuse_arity<T>(alloc: Global) -> May<T, Objection>
    ensures { Gives (Err spec.arity) result }
{
    object(alloc, Code::Fault, "arity")
}

/// Refuses a parameter's value.
pub fn refuse_value<T>(alloc: Global, name: ParameterName) -> May<T, Objection>
    ensures { Gives (Err (spec.bad_value name)) result }
{
    object(alloc, Code::BadValue, name.text())
}

/// Refuses a parameter's value that this tool leaves out.
pub fn leave_out<T>(alloc: Global, name: ParameterName) -> May<T, Objection>
    ensures { Gives (Err (spec.left_out name)) result }
{
    object(alloc, Code::Left, name.text())
}
