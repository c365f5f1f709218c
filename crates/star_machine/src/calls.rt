//! Calls of functions, and how a function is left.
ghost use Rattle.std.specs.Prelude.{◌≡◌, IfOk, None, Some, map, option_copied};
ghost use Rattle.star_machine.specs.Configs.{block_of, config_of, left_of};
ghost use Rattle.star_machine.specs.Outcomes.{Acted};
ghost use Rattle.star_machine.specs.Steps as steps;
ghost use Rattle.star_meaning.specs.Attributes as attributes;
ghost use Rattle.std.specs.List.{list_any};
ghost use Rattle.star_meaning.specs.Calls.{given_by, is_running, is_same};

use crate::machine::{Later, Machine, Next, Task, Turns, fault, no_args, of_fault};
use bz_text::{May, Mem, Miss, Seq};
use sqlite_items::Items;
use star_arguments::bind;
use star_code::{Code, FnEntry};
use star_core::{Args, Cell, Fault, Function, Heap, Stack, Val};
use star_library::copy_of;
use star_meaning::{Closure, Exit, Library, MOST_CALLS, Reason, Running};
use std::alloc::Global;
use std::mem;

/// A function of a file's code.
#[tactic(auto, unfolding(crate::specs::Steps::function_entry))]
fn entry_of(codes: &[Code], file: usize, function: u32) -> Option<&FnEntry>
    ensures { option_copied result ≡ steps.function_entry codes.now file function }
{
    codes.get(file)?.functions.as_slice().get(function as usize)
}

/// The closure that a call of a value calls, where a file defines it.
#[tactic(auto, unfolding(star_meaning::specs::Attributes::callee_of))]
fn closure_called(heap: &Heap, f: &Val) -> Option<Closure>
    ensures { result ≡ attributes.closure_called (attributes.callee_of heap.now f.now) }
{
    match heap.cell(f) {
        Some(Cell::Function(function)) => Some(Closure {
            file: function.file,
            function: function.function,
            around: function.around,
        }),
        _ => None,
    }
}

/// The defaults of the function that a call of a value calls.
#[tactic(auto, unfolding(star_meaning::specs::Attributes::callee_of))]
fn defaults_called(alloc: Global, heap: &Heap, f: &Val) -> Mem<Seq<Val>>
    ensures { IfOk result (λ defaults. defaults
        ≡ attributes.defaults_called (attributes.callee_of heap.now f.now)) }
{
    match heap.cell(f) {
        Some(Cell::Function(function)) => copy_of(alloc, function.defaults.items()),
        _ => Ok(Seq::new(alloc)),
    }
}

/// Whether a call of a value calls the library.
#[tactic(auto, unfolding(star_meaning::specs::Attributes::callee_of))]
fn calls_library(heap: &Heap, f: &Val) -> bool
    ensures { result ≡ attributes.calls_library (attributes.callee_of heap.now f.now) }
{
    match heap.cell(f) {
        Some(Cell::Builtin(_)) => true,
        Some(
            Cell::Bound {
                receiver,
                method: _,
            },
        ) => !is_hosted(heap, receiver),
        _ => false,
    }
}

/// Whether a value is an object of the host, or a path.
fn is_hosted(heap: &Heap, val: &Val) -> bool
    ensures { result ≡ attributes.is_hosted heap.now val.now }
{
    match heap.cell(val) {
        Some(Cell::Host { kind: _, fields: _ }) => true,
        Some(
            Cell::Path {
                repo: _,
                segments: _,
            },
        ) => true,
        _ => false,
    }
}

/// Whether a function is among others.
fn is_among(function: Running, others: &[Running]) -> bool
    ensures { result ≡ list_any (is_same function) others.now }
{
    others.iter().any(|other| function.file == other.file && function.function == other.function)
}

/// Whether a call of a function is running.
#[tactic(auto, using(crate::proofs::RunningCalls::any_running))]
fn runs(function: Running, running: &Stack<Running>) -> bool
    ensures { result ≡ is_running function running.now }
{
    is_among(function, running.top_last())
}

/// Values as the first variables of a scope.
fn variables(alloc: Global, values: &[Val]) -> Mem<Items<Option<Val>>>
    ensures { IfOk result (λ slots. slots ≡ map Some values.now) }
{
    let mut slots = Items::new(alloc);
    for value in values {
        slots.push(Some(*value))?;
    }
    Ok(slots)
}

impl Machine {
    /// A `def` or a `lambda` makes a function, with its defaults.
    pub fn def(&mut self, codes: &[Code], function: u32) -> May<Next, Reason>
        ensures { Acted (steps.defined codes.now function (config_of codes.now self.old)) result
            (config_of codes.now self.new) }
    {
        let Some(entry) = entry_of(codes, self.task.file, function) else {
            return fault(Fault::Kind);
        };
        let Some(defaults) = self.task.stack.take_top(entry.optional)? else {
            return fault(Fault::Kind);
        };
        let name = entry.name.copy(self.alloc)?;
        let closure = Function {
            file: self.task.file,
            function,
            name,
            defaults: Seq::of_vec(defaults),
            around: self.task.scope,
        };
        let value = of_fault(self.heap.make(Cell::Function(closure)))?;
        self.task.stack.push(value)?;
        Ok(Next::On)
    }

    /// Runs the block of a function's defaults.
    pub fn defaults(&mut self, codes: &[Code], function: u32) -> May<Next, Reason>
        requires { self.old.leaving ≡ None }
        ensures { Acted (steps.defaulted codes.now function (config_of codes.now self.old)) result
            (config_of codes.now self.new) }
    {
        match entry_of(codes, self.task.file, function) {
            None => fault(Fault::Kind),
            Some(entry) => self.run_block(codes, entry.defaults),
        }
    }

    /// Calls the value below so many arguments, for which no host answers.
    pub fn call<L: Library>(
        &mut self,
        codes: &[Code],
        library: &L,
        count: usize,
    ) -> May<Next, Reason>
        requires { self.old.leaving ≡ None }
        ensures { Acted (steps.called_below L.rows codes.now count (config_of codes.now self.old))
            result (config_of codes.now self.new) }
    {
        let Some(values) = self.task.stack.take_top(count)? else {
            return fault(Fault::Kind);
        };
        let Some(f) = self.task.stack.pop() else {
            return fault(Fault::Kind);
        };
        let args = Args {
            positional: Seq::of_vec(values),
            named: Seq::new(self.alloc),
        };
        self.call_value(codes, library, f, args)
    }

    /// Calls the top with the arguments that were gathered.
    pub fn call_gathered<L: Library>(&mut self, codes: &[Code], library: &L) -> May<Next, Reason>
        requires { self.old.leaving ≡ None }
        ensures { Acted (steps.called_gathered L.rows codes.now (config_of codes.now self.old))
            result (config_of codes.now self.new) }
    {
        let Some(f) = self.task.stack.pop() else {
            return fault(Fault::Kind);
        };
        let args = mem::replace(&mut self.gathered, no_args(self.alloc));
        self.call_value(codes, library, f, args)
    }

    /// Calls a value for which no host answers.
    fn call_value<L: Library>(
        &mut self,
        codes: &[Code],
        library: &L,
        f: Val,
        args: Args,
    ) -> May<Next, Reason>
        requires { self.old.leaving ≡ None }
        ensures { Acted (steps.called L.rows codes.now f (attributes.callee_of self.old.heap f) args
            self.old.task.stack (config_of codes.now self.old)) result
            (config_of codes.now self.new) }
    {
        match closure_called(&self.heap, &f) {
            Some(closure) => self.call_closure(codes, library, f, closure, args),
            None if calls_library(&self.heap, &f) => self.call_library(codes, library, f, args),
            None => fault(Fault::Kind),
        }
    }

    /// A call of the library that neither calls back nor asks the host.
    fn call_library<L: Library>(
        &mut self,
        codes: &[Code],
        library: &L,
        f: Val,
        args: Args,
    ) -> May<Next, Reason>
        ensures { Acted (steps.library_called L.rows f args self.old.task.stack
            (config_of codes.now self.old)) result (config_of codes.now self.new) }
    {
        if library.calls_back(&self.heap, &f, &args) {
            return Err(Miss::Because(Reason::Unbuilt));
        }
        let value = of_fault(library.call(&mut self.heap, &f, &args))?;
        self.task.stack.push(value)?;
        Ok(Next::On)
    }

    /// The arguments are bound first.
    fn call_closure<L: Library>(
        &mut self,
        codes: &[Code],
        library: &L,
        f: Val,
        closure: Closure,
        args: Args,
    ) -> May<Next, Reason>
        requires { self.old.leaving ≡ None }
        ensures { Acted (steps.entered_of L.rows codes.now closure
            (attributes.defaults_called (attributes.callee_of self.old.heap f))
            (steps.function_entry codes.now closure.file closure.function) args self.old.task.stack
            (config_of codes.now self.old)) result (config_of codes.now self.new) }
    {
        let Some(entry) = entry_of(codes, closure.file, closure.function) else {
            return fault(Fault::Kind);
        };
        let defaults = defaults_called(self.alloc, &self.heap, &f)?;
        let values = of_fault(bind(
            self.alloc,
            library,
            &mut self.heap,
            entry.params.as_slice(),
            defaults.items(),
            &args,
        ))?;
        self.enter_bound(codes, closure, entry, values.items())
    }

    /// No call of the function may run, and not too many calls.
    fn enter_bound(
        &mut self,
        codes: &[Code],
        f: Closure,
        entry: &FnEntry,
        values: &[Val],
    ) -> May<Next, Reason>
        requires { self.old.leaving ≡ None }
        ensures { Acted (steps.entered_if codes.now f entry.now values.now self.old.task.stack
            (config_of codes.now self.old)) result (config_of codes.now self.new) }
    {
        let function = Running {
            file: f.file,
            function: f.function,
        };
        if runs(function, &self.running) {
            return fault(Fault::Recursion);
        }
        if self.running.len() >= MOST_CALLS {
            return fault(Fault::Depth);
        }
        self.enter(codes, f, entry.block, values)
    }

    #[tactic(auto, unfolding(crate::specs::Configs::left_of, star_meaning::specs::Worlds::opened))]
    fn enter(
        &mut self,
        codes: &[Code],
        f: Closure,
        block: usize,
        values: &[Val],
    ) -> May<Next, Reason>
        requires { self.old.leaving ≡ None }
        ensures { Acted (steps.entered codes.now f block values.now self.old.task.stack
            (config_of codes.now self.old)) result (config_of codes.now self.new) }
    {
        let slots = variables(self.alloc, values)?;
        let scope = self.scopes.open(f.around, slots)?;
        self.running.push(Running {
            file: f.file,
            function: f.function,
        })?;
        let task = Task {
            file: f.file,
            block,
            next: 0,
            stack: Stack::new(self.alloc),
            later: Stack::new(self.alloc),
            scope,
            place: self.task.place,
        };
        let caller = mem::replace(&mut self.task, task);
        self.callers.push(caller)?;
        Ok(Next::On)
    }

    /// A loop or a function is being left.
    pub fn leave(&mut self, codes: &[Code], exit: Exit) -> May<Next, Reason>
        requires { self.old.leaving ≡ Some exit }
        ensures { Acted (steps.left exit (config_of codes.now self.old).onward
            (config_of codes.now self.old)) result (config_of codes.now self.new) }
    {
        match self.task.later.pop() {
            None => self.finish(codes, given(exit)),
            Some(Later::Behind { block: _, next: _ }) => Ok(Next::On),
            Some(
                Later::Outwards {
                    scope,
                    block: _,
                    next: _,
                },
            ) => {
                self.task.scope = scope;
                Ok(Next::On)
            }
            Some(Later::Turns(turns)) => self.leave_loop(codes, exit, turns),
        }
    }

    /// A function gave a value.
    fn finish(&mut self, codes: &[Code], value: Val) -> May<Next, Reason>
        ensures { Acted (steps.returned value (config_of codes.now self.old).callers
            (config_of codes.now self.old)) result (config_of codes.now self.new) }
    {
        match self.callers.pop() {
            None => Ok(Next::Done(value)),
            Some(mut task) => {
                task.stack.push(value)?;
                let _left = self.running.pop();
                self.task = task;
                self.leaving = None;
                Ok(Next::On)
            }
        }
    }

    fn leave_loop(&mut self, codes: &[Code], exit: Exit, turns: Turns) -> May<Next, Reason>
        requires { self.old.leaving ≡ Some exit }
        ensures { Acted (steps.out_of_loop exit turns.items turns.over
            (block_of codes.now self.old.task.file turns.body) turns.place
            (left_of codes.now self.old.task.file turns.block turns.next)
            (config_of codes.now self.old).onward (config_of codes.now self.old)) result
            (config_of codes.now self.new) }
    {
        match exit {
            Exit::Return(_value) => {
                self.heap.unwalk(&turns.over);
                Ok(Next::On)
            }
            Exit::Break => {
                self.heap.unwalk(&turns.over);
                self.leaving = None;
                self.task.block = turns.block;
                self.task.next = turns.next;
                Ok(Next::On)
            }
            Exit::Continue => {
                self.leaving = None;
                self.turn(codes, turns)
            }
        }
    }
}

/// What a function gives that is left so.
fn given(exit: Exit) -> Val
    ensures { result ≡ given_by exit }
{
    match exit {
        Exit::Return(value) => value,
        _ => Val::None,
    }
}
