//! Which method an instruction is.
ghost use Rattle.std.specs.Prelude.{◌≡◌, None};
ghost use Rattle.star_machine.specs.Configs.{config_of};
ghost use Rattle.star_machine.specs.Outcomes.{Acted};
ghost use Rattle.star_machine.specs.Steps as steps;

use crate::machine::{Machine, Next, fault};
use bz_text::May;
use star_code::{Code, Instr};
use star_core::Fault;
use star_meaning::{Exit, Library, Reason};

impl Machine {
    /// Runs one instruction for which no host is called.
    #[tactic(auto, unfolding(crate::specs::Steps::perform))]
    pub fn perform<L: Library>(
        &mut self,
        codes: &[Code],
        library: &L,
        instr: Instr,
    ) -> May<Next, Reason>
        requires { self.old.leaving ≡ None }
        ensures { Acted (steps.perform L.rows codes.now instr (config_of codes.now self.old))
            result (config_of codes.now self.new) }
    {
        match instr {
            Instr::Begin(line) => self.begin(codes, line),
            Instr::Tick => self.tick(codes),
            Instr::Constant(value) => self.constant(codes, value),
            Instr::Push(value) => self.push(codes, value),
            Instr::Name { hops, slot } => self.name(codes, hops, slot),
            Instr::Set { hops, slot } => self.set(codes, hops, slot),
            Instr::Forget => self.forget(codes),
            Instr::List(count) => self.list(codes, count),
            Instr::Tuple(count) => self.tuple(codes, count),
            Instr::Dict => self.dict(codes),
            Instr::Entry => self.entry(codes, library),
            Instr::Unary(op) => self.unary(codes, library, op),
            Instr::Binary(op) => self.binary(codes, library, op),
            Instr::Short { wanted, block } => self.short(codes, wanted, block),
            Instr::If { chosen, other } => self.branch(codes, chosen, other),
            Instr::Defaults(function) => self.defaults(codes, function),
            Instr::Def(function) => self.def(codes, function),
            Instr::Attr(index) => self.attribute(codes, index),
            Instr::Index => self.index(codes, library),
            Instr::Slice => self.slice(codes, library),
            Instr::Call(count) => self.call(codes, library, count),
            Instr::CheckItems => self.check_items(codes),
            Instr::CheckKeywords => self.check_keywords(codes),
            Instr::Gather(shape) => self.gather(codes, shape),
            Instr::CallGathered => self.call_gathered(codes, library),
            Instr::SetIndex => self.set_index(codes, library),
            Instr::Unpack(count) => self.unpack(codes, count),
            Instr::For(body) => self.walk(codes, body),
            Instr::Within(block) => self.go_within(codes, block),
            Instr::Collect => self.collect(codes),
            Instr::CollectEntry => self.collect_entry(codes, library),
            Instr::Return => self.give_back(codes),
            Instr::Break => self.leave_by(codes, Exit::Break),
            Instr::Continue => self.leave_by(codes, Exit::Continue),
            Instr::AugmentName { op, hops, slot } => {
                self.augment_name(codes, library, op, hops, slot)
            }
            Instr::Fetch => self.fetch(codes, library),
            Instr::AugmentIndex(op) => self.augment_index(codes, library, op),
            Instr::NotAssignable => fault(Fault::Kind),
        }
    }
}
