//! What an evaluation calls outside itself.
ghost use Rattle.std.specs.Prelude.{◌≡◌, ℕ, List};
ghost use Rattle.bz_base.specs.declared.extensions.Spec.{Spec};
ghost use Rattle.star_core.specs.Hosts.{Field, HostCall, IsLawful, Meaning, Method, Replied};
ghost use Rattle.star_core.specs.declared.values.Args.{Args};

use crate::answers::Answers;
use crate::heap::Heap;
use crate::questions::Question;
use crate::values::{Args, Val};
use bz_base::{Refusal, Spec};
use bz_text::Mem;
use std::alloc::Global;

/// What a host replies.
#[derive(Debug, Drop)]
pub enum HostStep {
    Value(Val),
    Refused(Refusal),
    Asks(Question),
    /// The object has no such field or method.
    NoAttribute,
}

/// The objects that an evaluation calls. `meaning` is what a call does.
pub trait Host {
    ghost meaning: { Meaning Self HostCall };

    /// Calls a method of an object, by a statement that begins at a line; 0 where none runs.
    fn call(
        &mut self,
        alloc: Global,
        heap: &mut Heap,
        object: u32,
        method: &str,
        args: &Args,
        line: u64,
        answers: &Answers,
    ) -> Mem<HostStep>
        ensures { Replied
            (meaning self.old heap.old (Method object method.now args.now line) answers.now)
            result self.old self.new heap.old heap.new };

    /// Looks at a field of an object.
    fn field(
        &mut self,
        alloc: Global,
        heap: &mut Heap,
        object: u32,
        name: &str,
        answers: &Answers,
    ) -> Mem<HostStep>
        ensures { Replied (meaning self.old heap.old (Field object name.now) answers.now) result
            self.old self.new heap.old heap.new };

    ghost lawful: { IsLawful meaning };
}

/// What an extension's call of a rule declares. `declares` is what that does.
pub trait Declare {
    ghost declares: { Meaning Self (ℕ × Args) };

    ghost declared: { Self → List Spec };

    /// Declares a repository by a rule.
    fn declare(
        &mut self,
        alloc: Global,
        heap: &mut Heap,
        rule: u32,
        args: &Args,
        answers: &Answers,
    ) -> Mem<HostStep>
        ensures { Replied (declares self.old heap.old (rule, args.now) answers.now) result self.old
            self.new heap.old heap.new };

    /// What was declared.
    fn specs(&self) -> &[Spec]
        ensures { result.now ≡ declared self.now };

    ghost declare_lawful: { IsLawful declares };
}
