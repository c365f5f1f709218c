//! The directives: what each of them does with what its parameters are given.
ghost use Rattle.std.specs.Prelude.{◌≡◌, IfOk, option_copied};
ghost use Rattle.bz_text.specs.Answers.{Gives};
ghost use Rattle.module_arguments.specs.Arguments as arguments;
ghost use Rattle.module_arguments.specs.Attributes.{attributes_in};
ghost use Rattle.module_arguments.specs.Directives as table;
ghost use Rattle.module_arguments.specs.GivenValues as given;
ghost use Rattle.module_arguments.specs.NamePairs.{pairs_in};
ghost use Rattle.module_arguments.specs.declared.directives.Directive.TheVariants as directives;
ghost use Rattle.module_directives.specs.Directives as spec;
ghost use Rattle.module_directives.specs.Outcomes.{Ran, and_then, done};
ghost use Rattle.module_directives.specs.Readers as readers;

use crate::gifts::Gift;
use crate::parts::Purpose;
use crate::readers::{Reader, RepoRule, given_proxy, given_texts};
use bz_base::{Code, Named, OverrideKind};
use bz_text::{May, Mem, Seq, Txt};
use module_arguments::{
    Directive, Given, NamePair, Objection, attribute_shape, binds, each_given, further, given_text,
    object, read_attributes, read_pairs, refuse_arity, repository_parameters,
};
use module_values::text_lists::each_text;
use star_core::{Args, Heap};
use std::alloc::Global;

impl Reader {
    /// Runs a directive that a statement at a line calls.
    #[tactic(auto, unfolding(crate::specs::Directives::directive_row))]
    pub fn run(
        &mut self,
        alloc: Global,
        directive: Directive,
        heap: &Heap,
        args: &Args,
        line: u64,
    ) -> May<Gift, Objection>
        ensures { Ran (spec.directive_row directive heap.now args.now line self.old) result
            self.new }
    {
        if may_run(directive, args) {
            self.run_bound(alloc, directive, heap, args, line)
        } else {
            refuse_arity(alloc)
        }
    }

    #[tactic(auto, unfolding(crate::specs::Directives::bound_row))]
    fn run_bound(
        &mut self,
        alloc: Global,
        directive: Directive,
        heap: &Heap,
        args: &Args,
        line: u64,
    ) -> May<Gift, Objection>
        ensures { Ran (spec.bound_row directive heap.now args.now line self.old) result self.new }
    {
        match directive {
            Directive::Module => self.run_module(alloc, heap, args),
            Directive::BazelDep => self.run_dep(alloc, heap, args, line),
            Directive::UseExtension => self.run_extension(alloc, heap, args, line),
            Directive::UseRepoRule => self.run_rule(alloc, heap, args),
            Directive::UseRepo => self.run_names(
                alloc,
                directive,
                Purpose::Import,
                heap,
                args,
                line,
            ),
            Directive::OverrideRepo => {
                self.run_names(alloc, directive, Purpose::Change(false), heap, args, line)
            }
            Directive::InjectRepo => {
                self.run_names(alloc, directive, Purpose::Change(true), heap, args, line)
            }
            Directive::SingleVersionOverride => self.run_single(alloc, heap, args, line),
            Directive::MultipleVersionOverride => self.run_multiple(alloc, heap, args, line),
            Directive::LocalPathOverride => self.run_local(alloc, heap, args, line),
            Directive::ArchiveOverride => {
                self.run_source(alloc, directive, OverrideKind::Archive, heap, args, line)
            }
            Directive::GitOverride => {
                self.run_source(alloc, directive, OverrideKind::Git, heap, args, line)
            }
            Directive::RegisterToolchains | Directive::RegisterExecutionPlatforms => {
                self.run_registered(alloc, directive, heap, args)
            }
            Directive::Include => object(alloc, Code::Left, "include"),
        }
    }

    fn run_module(&mut self, alloc: Global, heap: &Heap, args: &Args) -> May<Gift, Objection>
        ensures { Ran (spec.module_row heap.now args.now self.old) result self.new }
    {
        if self.begun {
            return object(alloc, Code::ModuleLate, "");
        }
        match values_of(alloc, Directive::Module, heap, args) {
            Ok(values) => self.finish_module(alloc, values.items()),
            Err(miss) => Err(miss),
        }
    }

    fn finish_module(&mut self, alloc: Global, values: &[Given]) -> May<Gift, Objection>
        ensures { Ran (done (readers.module_declared values.now self.old)) result self.new }
    {
        self.declare_module(alloc, values)?;
        Ok(Gift::Nothing)
    }

    fn run_dep(
        &mut self,
        alloc: Global,
        heap: &Heap,
        args: &Args,
        line: u64,
    ) -> May<Gift, Objection>
        ensures { Ran (spec.dep_row heap.now args.now line self.old) result self.new }
    {
        match values_of(alloc, Directive::BazelDep, heap, args) {
            Ok(values) => self.finish_dep(alloc, values.items(), line),
            Err(miss) => Err(miss),
        }
    }

    fn finish_dep(&mut self, alloc: Global, values: &[Given], line: u64) -> May<Gift, Objection>
        ensures { Ran (done (readers.dep_declared values.now line self.old)) result self.new }
    {
        self.declare_dep(alloc, values, line)?;
        Ok(Gift::Nothing)
    }

    fn run_extension(
        &mut self,
        alloc: Global,
        heap: &Heap,
        args: &Args,
        line: u64,
    ) -> May<Gift, Objection>
        ensures { Ran (spec.extension_row heap.now args.now line self.old) result self.new }
    {
        match values_of(alloc, Directive::UseExtension, heap, args) {
            Ok(values) => self.declare_usage(alloc, values.items(), line),
            Err(miss) => Err(miss),
        }
    }

    fn run_rule(&mut self, alloc: Global, heap: &Heap, args: &Args) -> May<Gift, Objection>
        ensures { Ran (spec.rule_row heap.now args.now self.old) result self.new }
    {
        match values_of(alloc, Directive::UseRepoRule, heap, args) {
            Ok(values) => self.declare_rule(alloc, values.items()),
            Err(miss) => Err(miss),
        }
    }

    fn run_single(
        &mut self,
        alloc: Global,
        heap: &Heap,
        args: &Args,
        line: u64,
    ) -> May<Gift, Objection>
        ensures { Ran (spec.override_row directives.SingleVersionOverride readers.single_kind
            heap.now args.now line self.old) result self.new }
    {
        match values_of(alloc, Directive::SingleVersionOverride, heap, args) {
            Ok(values) => self.finish_single(alloc, values.items(), line),
            Err(miss) => Err(miss),
        }
    }

    fn finish_single(&mut self, alloc: Global, values: &[Given], line: u64) -> May<Gift, Objection>
        ensures { Ran (readers.override_declared (given.given_text 0 values.now)
            (readers.single_kind values.now) line self.old) result self.new }
    {
        let kind = single_kind(alloc, values)?;
        self.declare_override(alloc, given_text(0, values), kind, line)
    }

    fn run_multiple(
        &mut self,
        alloc: Global,
        heap: &Heap,
        args: &Args,
        line: u64,
    ) -> May<Gift, Objection>
        ensures { Ran (spec.override_row directives.MultipleVersionOverride readers.multiple_kind
            heap.now args.now line self.old) result self.new }
    {
        match values_of(alloc, Directive::MultipleVersionOverride, heap, args) {
            Ok(values) => self.finish_multiple(alloc, values.items(), line),
            Err(miss) => Err(miss),
        }
    }

    fn finish_multiple(
        &mut self,
        alloc: Global,
        values: &[Given],
        line: u64,
    ) -> May<Gift, Objection>
        ensures { Ran (readers.override_declared (given.given_text 0 values.now)
            (readers.multiple_kind values.now) line self.old) result self.new }
    {
        let kind = multiple_kind(alloc, values)?;
        self.declare_override(alloc, given_text(0, values), kind, line)
    }

    fn run_local(
        &mut self,
        alloc: Global,
        heap: &Heap,
        args: &Args,
        line: u64,
    ) -> May<Gift, Objection>
        ensures { Ran (spec.override_row directives.LocalPathOverride readers.local_kind heap.now
            args.now line self.old) result self.new }
    {
        match values_of(alloc, Directive::LocalPathOverride, heap, args) {
            Ok(values) => self.finish_local(alloc, values.items(), line),
            Err(miss) => Err(miss),
        }
    }

    fn finish_local(&mut self, alloc: Global, values: &[Given], line: u64) -> May<Gift, Objection>
        ensures { Ran (readers.override_declared (given.given_text 0 values.now)
            (readers.local_kind values.now) line self.old) result self.new }
    {
        let path = Txt::of(alloc, given_text(1, values))?;
        self.declare_override(
            alloc,
            given_text(0, values),
            OverrideKind::Local { path },
            line,
        )
    }

    fn run_source(
        &mut self,
        alloc: Global,
        directive: Directive,
        kind: OverrideKind,
        heap: &Heap,
        args: &Args,
        line: u64,
    ) -> May<Gift, Objection>
        ensures { Ran (spec.source_row directive kind heap.now args.now line self.old) result
            self.new }
    {
        match values_of(alloc, directive, heap, args) {
            Ok(values) => self.finish_source(alloc, directive, kind, values, heap, args, line),
            Err(miss) => Err(miss),
        }
    }

    fn finish_source(
        &mut self,
        alloc: Global,
        directive: Directive,
        kind: OverrideKind,
        values: Seq<Given>,
        heap: &Heap,
        args: &Args,
        line: u64,
    ) -> May<Gift, Objection>
        ensures { Ran (and_then
            (attributes_in heap.now (table.parameters_of directive) args.now.named)
            (λ ignored. readers.override_declared (given.given_text 0 values) kind line self.old))
            result self.new }
    {
        match read_attributes(alloc, heap, directive.parameters(), args.named.items()) {
            Ok(_) => self.declare_override(alloc, given_text(0, values.items()), kind, line),
            Err(miss) => Err(miss),
        }
    }

    fn run_registered(
        &mut self,
        alloc: Global,
        directive: Directive,
        heap: &Heap,
        args: &Args,
    ) -> May<Gift, Objection>
        ensures { Ran (spec.registered_row directive heap.now args.now self.old) result self.new }
    {
        match each_text(alloc, heap, args.positional.items())? {
            Some(_) => self.run_registration(alloc, directive, heap, args),
            None => object(alloc, Code::BadValue, "labels"),
        }
    }

    fn run_registration(
        &mut self,
        alloc: Global,
        directive: Directive,
        heap: &Heap,
        args: &Args,
    ) -> May<Gift, Objection>
        ensures { Ran (and_then (spec.values_of directive heap.now args.now)
            (λ values. done (readers.begun self.old))) result self.new }
    {
        match values_of(alloc, directive, heap, args) {
            Ok(_) => {
                self.begun = true;
                Ok(Gift::Nothing)
            }
            Err(miss) => Err(miss),
        }
    }

    fn run_names(
        &mut self,
        alloc: Global,
        directive: Directive,
        purpose: Purpose,
        heap: &Heap,
        args: &Args,
        line: u64,
    ) -> May<Gift, Objection>
        ensures { Ran (spec.names_row directive purpose heap.now args.now line self.old) result
            self.new }
    {
        match values_of(alloc, directive, heap, args) {
            Ok(values) => {
                let usage = given_proxy(0, values.items());
                self.finish_names(alloc, directive, purpose, usage, heap, args, line)
            }
            Err(miss) => Err(miss),
        }
    }

    fn finish_names(
        &mut self,
        alloc: Global,
        directive: Directive,
        purpose: Purpose,
        usage: Option<usize>,
        heap: &Heap,
        args: &Args,
        line: u64,
    ) -> May<Gift, Objection>
        ensures { Ran (and_then
            (pairs_in heap.now (arguments.further (table.shape_of directive) args.now) args.now.named)
            (λ pairs. done (readers.names_declared purpose usage line pairs self.old)))
            result self.new }
    {
        match read_pairs(
            alloc,
            heap,
            further(directive.shape(), args),
            args.named.items(),
        ) {
            Ok(pairs) => self.add_pairs(purpose, usage, line, pairs),
            Err(miss) => Err(miss),
        }
    }

    fn add_pairs(
        &mut self,
        purpose: Purpose,
        usage: Option<usize>,
        line: u64,
        pairs: Seq<NamePair>,
    ) -> May<Gift, Objection>
        ensures { Ran (done (readers.names_declared purpose usage line pairs self.old)) result
            self.new }
    {
        self.declare_names(purpose, usage, line, pairs)?;
        Ok(Gift::Nothing)
    }

    /// Runs a tag of a usage.
    #[tactic(auto, unfolding(crate::specs::Directives::tag_row))]
    pub fn run_tag(
        &mut self,
        alloc: Global,
        usage: Option<usize>,
        class: &str,
        heap: &Heap,
        args: &Args,
        line: u64,
    ) -> May<Gift, Objection>
        ensures { Ran (spec.tag_row usage class.now heap.now args.now line self.old) result
            self.new }
    {
        if !binds(attribute_shape(), &[], args) {
            return refuse_arity(alloc);
        }
        match read_attributes(alloc, heap, &[], args.named.items()) {
            Ok(attrs) => self.finish_tag(alloc, usage, class, attrs, line),
            Err(miss) => Err(miss),
        }
    }

    fn finish_tag(
        &mut self,
        alloc: Global,
        usage: Option<usize>,
        class: &str,
        attrs: Seq<Named>,
        line: u64,
    ) -> May<Gift, Objection>
        ensures { Ran (done (readers.tag_declared usage class.now attrs line self.old)) result
            self.new }
    {
        let class = Txt::of(alloc, class)?;
        self.declare_tag(usage, class, attrs, line)?;
        Ok(Gift::Nothing)
    }

    /// Runs a call of a repository rule.
    #[tactic(auto, unfolding(crate::specs::Directives::repository_row))]
    pub fn run_repository(
        &mut self,
        alloc: Global,
        rule: Option<usize>,
        heap: &Heap,
        args: &Args,
        line: u64,
    ) -> May<Gift, Objection>
        ensures { Ran (spec.repository_row rule heap.now args.now line self.old) result self.new }
    {
        if !binds(attribute_shape(), repository_parameters(), args) {
            return refuse_arity(alloc);
        }
        let rule = rule_at(alloc, rule, self.rules.items())?;
        self.run_bound_repository(alloc, rule, heap, args, line)
    }

    fn run_bound_repository(
        &mut self,
        alloc: Global,
        rule: Option<RepoRule>,
        heap: &Heap,
        args: &Args,
        line: u64,
    ) -> May<Gift, Objection>
        ensures { Ran (spec.bound_repository rule heap.now args.now line self.old) result
            self.new }
    {
        match each_given(alloc, repository_parameters(), heap, args) {
            Ok(values) => self.finish_repository(alloc, rule, values, heap, args, line),
            Err(miss) => Err(miss),
        }
    }

    fn finish_repository(
        &mut self,
        alloc: Global,
        rule: Option<RepoRule>,
        values: Seq<Given>,
        heap: &Heap,
        args: &Args,
        line: u64,
    ) -> May<Gift, Objection>
        ensures { Ran (and_then
            (attributes_in heap.now table.repository_parameters args.now.named)
            (λ attrs. done (readers.repository_declared rule values attrs line self.old)))
            result self.new }
    {
        match read_attributes(alloc, heap, repository_parameters(), args.named.items()) {
            Ok(attrs) => self.add_repository(alloc, rule, values.items(), attrs, line),
            Err(miss) => Err(miss),
        }
    }

    fn add_repository(
        &mut self,
        alloc: Global,
        rule: Option<RepoRule>,
        values: &[Given],
        attrs: Seq<Named>,
        line: u64,
    ) -> May<Gift, Objection>
        ensures { Ran (done (readers.repository_declared rule values.now attrs line self.old))
            result self.new }
    {
        self.declare_repository(alloc, rule, values, attrs, line)?;
        Ok(Gift::Nothing)
    }
}

fn may_run(directive: Directive, args: &Args) -> bool
    ensures { result ≡ spec.may_run directive args.now }
{
    takes_anything(directive) || binds(directive.shape(), directive.parameters(), args)
}

#[tactic(auto, unfolding(crate::specs::Directives::takes_anything))]
fn takes_anything(directive: Directive) -> bool
    ensures { result ≡ spec.takes_anything directive }
{
    match directive {
        Directive::Include => true,
        _ => false,
    }
}

fn values_of(
    alloc: Global,
    directive: Directive,
    heap: &Heap,
    args: &Args,
) -> May<Seq<Given>, Objection>
    ensures { Gives (spec.values_of directive heap.now args.now) result }
{
    each_given(alloc, directive.parameters(), heap, args)
}

fn single_kind(alloc: Global, values: &[Given]) -> Mem<OverrideKind>
    ensures { IfOk result (λ kind. kind ≡ readers.single_kind values.now) }
{
    Ok(OverrideKind::Single {
        version: Txt::of(alloc, given_text(1, values))?,
        registry: Txt::of(alloc, given_text(2, values))?,
        patched: !given_texts(3, values).is_empty() || !given_texts(4, values).is_empty(),
    })
}

fn multiple_kind(alloc: Global, values: &[Given]) -> Mem<OverrideKind>
    ensures { IfOk result (λ kind. kind ≡ readers.multiple_kind values.now) }
{
    Ok(OverrideKind::Multiple {
        versions: copy_of_texts(alloc, given_texts(1, values))?,
        registry: Txt::of(alloc, given_text(2, values))?,
    })
}

fn copy_of_texts(alloc: Global, texts: &[Txt]) -> Mem<Seq<Txt>>
    ensures { IfOk result (λ copy. copy ≡ texts.now) }
{
    let mut copies = Vec::new(alloc);
    for text in texts {
        copies.push(text.copy(alloc)?)?;
    }
    Ok(Seq::of_vec(copies))
}

/// A copy of the rule with an index.
fn rule_at(alloc: Global, index: Option<usize>, rules: &[RepoRule]) -> Mem<Option<RepoRule>>
    ensures { IfOk result (λ rule. rule ≡ spec.rule_at index rules.now) }
{
    match index {
        Some(index) => copy_of_rule(alloc, rules.get(index)),
        None => Ok(None),
    }
}

fn copy_of_rule(alloc: Global, rule: Option<&RepoRule>) -> Mem<Option<RepoRule>>
    ensures { IfOk result (λ copy. copy ≡ option_copied rule.entry) }
{
    match rule {
        Some(rule) => Ok(Some(RepoRule {
            bzl: rule.bzl.copy(alloc)?,
            rule: rule.rule.copy(alloc)?,
        })),
        None => Ok(None),
    }
}
