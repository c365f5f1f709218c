//! The host of a module file.
ghost use Rattle.std.specs.Prelude.{◌≡◌, [], IfOk, Some};
ghost use Rattle.module_arguments.specs.Directives.{directive_name};
ghost use Rattle.module_directives.specs.Directives as rows;
ghost use Rattle.module_directives.specs.Outcomes.{refused_at};
ghost use Rattle.module_directives.specs.Readers.{declared_by};
ghost use Rattle.module_host.specs.Meaning as spec;
ghost use Rattle.module_host.specs.Meaning.{begun_host, cell_reply, field_reply, gift_cell};
ghost use Rattle.module_host.specs.Meaning.{numbered, object_outcome, outcome_reply};
ghost use Rattle.module_arguments.specs.declared.objects.Object.TheVariants as objects;
ghost use Rattle.star_core.specs.declared.host.HostStep.TheVariants as steps;
ghost use Rattle.module_host.specs.declared.hosts.ModuleHost.{ModuleHost};
ghost use Rattle.star_core.specs.Heaps.{made};
ghost use Rattle.star_core.specs.Hosts.{Replied};
ghost use Rattle.star_core.specs.declared.cells.Cell.TheVariants as cells;
ghost use Rattle.star_library.specs.Calls.{Builds};

use bz_base::{Code, ModuleDecl, Refusal};
use bz_text::{May, Mem, Miss, OutOfMemory, Seq, Txt};
use module_arguments::{Directive, Object, Objection, object_in};
use module_directives::{Gift, Reader, Role};
use module_names::is_identifier;
use star_core::{Answers, Args, Cell, Fault, Heap, Host, HostStep, NamedVal, Val};
use std::alloc::Global;

/// The directives of one module file, by its printed name.
#[derive(Drop)]
pub struct ModuleHost {
    pub file: Txt,
    pub reader: Reader,
}

/// The object that a directive is.
pub fn make_directive(alloc: Global, heap: &mut Heap, directive: Directive) -> May<Val, Fault>
    ensures { Builds (made (cells.Host (directive_name directive) []) heap.old) result heap.new }
{
    let kind = Txt::of(alloc, directive.name())?;
    let fields = Seq::new(alloc);
    heap.make(Cell::Host { kind, fields })
}

impl ModuleHost {
    /// A host before the first directive.
    pub fn begin(alloc: Global, file: Txt, role: Role) -> ModuleHost
        ensures { result ≡ begun_host file role }
    {
        ModuleHost {
            file,
            reader: Reader::begin(alloc, role),
        }
    }

    /// What the file declares.
    pub fn declared(self) -> ModuleDecl
        ensures { result ≡ declared_by self.reader }
    {
        self.reader.into_declaration()
    }

    fn call_directive(
        &mut self,
        alloc: Global,
        heap: &mut Heap,
        directive: Directive,
        args: &Args,
        line: u64,
    ) -> Mem<HostStep>
        ensures { Replied (outcome_reply
            (Some (rows.directive_row directive heap.old args.now line self.old.reader)) heap.old
            line self.old) result self.old self.new heap.old heap.new }
    {
        match self.reader.run(alloc, directive, heap, args, line) {
            Ok(gift) => give(alloc, &self.file, heap, gift, line),
            Err(Miss::OutOfMemory) => Err(OutOfMemory),
            Err(Miss::Because(objection)) => refuse(alloc, &self.file, objection, line),
        }
    }

    fn call_tag(
        &mut self,
        alloc: Global,
        heap: &mut Heap,
        usage: Option<usize>,
        class: &str,
        args: &Args,
        line: u64,
    ) -> Mem<HostStep>
        ensures { Replied (outcome_reply
            (Some (rows.tag_row usage class.now heap.old args.now line self.old.reader)) heap.old
            line self.old) result self.old self.new heap.old heap.new }
    {
        match self.reader.run_tag(alloc, usage, class, heap, args, line) {
            Ok(gift) => give(alloc, &self.file, heap, gift, line),
            Err(Miss::OutOfMemory) => Err(OutOfMemory),
            Err(Miss::Because(objection)) => refuse(alloc, &self.file, objection, line),
        }
    }

    fn call_rule(
        &mut self,
        alloc: Global,
        heap: &mut Heap,
        index: Option<usize>,
        args: &Args,
        line: u64,
    ) -> Mem<HostStep>
        ensures { Replied (outcome_reply
            (Some (rows.repository_row index heap.old args.now line self.old.reader)) heap.old line
            self.old) result self.old self.new heap.old heap.new }
    {
        match self.reader.run_repository(alloc, index, heap, args, line) {
            Ok(gift) => give(alloc, &self.file, heap, gift, line),
            Err(Miss::OutOfMemory) => Err(OutOfMemory),
            Err(Miss::Because(objection)) => refuse(alloc, &self.file, objection, line),
        }
    }

    fn call_proxy(
        &mut self,
        alloc: Global,
        heap: &mut Heap,
        usage: Option<usize>,
        class: &str,
        args: &Args,
        line: u64,
    ) -> Mem<HostStep>
        ensures { Replied (outcome_reply (object_outcome (Some (objects.Proxy usage)) class.now
            args.now line heap.old self.old.reader) heap.old line self.old) result self.old self.new
            heap.old heap.new }
    {
        if class.is_empty() {
            return refuse(alloc, &self.file, not_called(alloc)?, line);
        }
        if !is_identifier(class) {
            return Ok(HostStep::NoAttribute);
        }
        self.call_tag(alloc, heap, usage, class, args, line)
    }

    /// A tag class as a method of a proxy.
    fn field_of(
        &self,
        alloc: Global,
        heap: &mut Heap,
        found: Option<Object>,
        number: u32,
        name: &str,
    ) -> Mem<HostStep>
        ensures { Replied (field_reply found number name.now heap.old self.now) result self.now
            self.now heap.old heap.new }
    {
        match found {
            Some(Object::Proxy(_)) if is_identifier(name) => {
                let method = Txt::of(alloc, name)?;
                let receiver = Val::Cell(number);
                give_cell(alloc, &self.file, heap, Cell::Bound { receiver, method }, 0)
            }
            _ => Ok(HostStep::NoAttribute),
        }
    }

    fn call_object(
        &mut self,
        alloc: Global,
        heap: &mut Heap,
        found: Option<Object>,
        method: &str,
        args: &Args,
        line: u64,
    ) -> Mem<HostStep>
        ensures { Replied (outcome_reply (object_outcome found method.now args.now line heap.old
            self.old.reader) heap.old line self.old) result self.old self.new heap.old heap.new }
    {
        match found {
            None => Ok(HostStep::NoAttribute),
            Some(Object::Proxy(usage)) => self.call_proxy(alloc, heap, usage, method, args, line),
            Some(_) if !method.is_empty() => Ok(HostStep::NoAttribute),
            Some(Object::Named(directive)) => {
                self.call_directive(alloc, heap, directive, args, line)
            }
            Some(Object::Rule(index)) => self.call_rule(alloc, heap, index, args, line),
        }
    }
}

impl Host for ModuleHost {
    ghost use Rattle.module_host.specs.Lawful.{module_lawful};
    ghost use Rattle.module_host.specs.Meaning.{module_meaning};

    ghost meaning = { module_meaning };

    fn call(
        &mut self,
        alloc: Global,
        heap: &mut Heap,
        object: u32,
        method: &str,
        args: &Args,
        line: u64,
        _answers: &Answers,
    ) -> Mem<HostStep> {
        let found = object_in(heap.cell(&Val::Cell(object)));
        self.call_object(alloc, heap, found, method, args, line)
    }

    fn field(
        &mut self,
        alloc: Global,
        heap: &mut Heap,
        object: u32,
        name: &str,
        _answers: &Answers,
    ) -> Mem<HostStep> {
        let found = object_in(heap.cell(&Val::Cell(object)));
        self.field_of(alloc, heap, found, object, name)
    }

    ghost lawful = { module_lawful };
}

/// Gives what a directive gave.
fn give(alloc: Global, file: &Txt, heap: &mut Heap, gift: Gift, line: u64) -> Mem<HostStep>
    ensures { (before host : ModuleHost)
        → host.file ≡ file.now
        → Replied (cell_reply (gift_cell gift) heap.old line host) result before host heap.old
        heap.new }
{
    match cell_of(alloc, gift)? {
        Some(cell) => give_cell(alloc, file, heap, cell, line),
        None => Ok(HostStep::Value(Val::None)),
    }
}

/// Gives a new cell.
fn give_cell(alloc: Global, file: &Txt, heap: &mut Heap, cell: Cell, line: u64) -> Mem<HostStep>
    ensures { (before host : ModuleHost)
        → host.file ≡ file.now
        → Replied (spec.made_reply (made cell heap.old) line host) result before host heap.old
        heap.new }
{
    match heap.make(cell) {
        Ok(value) => Ok(HostStep::Value(value)),
        Err(Miss::OutOfMemory) => Err(OutOfMemory),
        Err(Miss::Because(_)) => refuse(alloc, file, too_large(alloc), line),
    }
}

fn refuse(alloc: Global, file: &Txt, reason: Objection, line: u64) -> Mem<HostStep>
    ensures { IfOk result (λ step. step ≡ steps.Refused (refused_at file.now line reason)) }
{
    let Objection { code, detail } = reason;
    Ok(HostStep::Refused(Refusal {
        code,
        file: file.copy(alloc)?,
        line,
        detail,
        hint: 0,
    }))
}

fn not_called(alloc: Global) -> Mem<Objection>
    ensures { IfOk result (λ reason. reason ≡ spec.not_called) }
{
    Ok(Objection {
        code: Code::Fault,
        detail: Txt::of(alloc, "type")?,
    })
}

fn too_large(alloc: Global) -> Objection
    ensures { result ≡ spec.too_large }
{
    Objection {
        code: Code::Size,
        detail: Txt::of_string(String::new(alloc)),
    }
}

/// The cell that a directive gives.
fn cell_of(alloc: Global, gift: Gift) -> Mem<Option<Cell>>
    ensures { IfOk result (λ cell. cell ≡ gift_cell gift) }
{
    match gift {
        Gift::Nothing => Ok(None),
        Gift::Proxy(None) => Ok(Some(host_cell(alloc, "extension_proxy", Seq::new(alloc))?)),
        Gift::Proxy(Some(usage)) => {
            let fields = fields_of(alloc, usage)?;
            Ok(Some(host_cell(alloc, "extension_proxy", fields)?))
        }
        Gift::Rule(index) => {
            let fields = fields_of(alloc, index)?;
            Ok(Some(host_cell(alloc, "repository_rule", fields)?))
        }
    }
}

fn host_cell(alloc: Global, kind: &str, fields: Seq<NamedVal>) -> Mem<Cell>
    ensures { IfOk result (λ cell. cell ≡ cells.Host kind.now fields) }
{
    let kind = Txt::of(alloc, kind)?;
    Ok(Cell::Host { kind, fields })
}

/// The field with a number. One beyond 63 bits is more than memory holds.
fn fields_of(alloc: Global, number: usize) -> Mem<Seq<NamedVal>>
    ensures { IfOk result (λ fields. fields ≡ numbered number) }
{
    let Ok(number) = i64::try_from(number) else {
        return Err(OutOfMemory);
    };
    let mut fields = Vec::new(alloc);
    fields.push(NamedVal {
        name: Txt::of(alloc, "number")?,
        val: Val::Int(number),
    })?;
    Ok(Seq::of_vec(fields))
}
