//! Readers of module files: what was declared so far, and what each directive adds.
ghost use Rattle.std.specs.Prelude.{◌≡◌, [], IfOk, OnOk, option_copied};
ghost use Rattle.module_directives.specs.Outcomes.{Ran};
ghost use Rattle.module_directives.specs.Readers as spec;
ghost use Rattle.module_directives.specs.Readers.{begun_reader, declared_by, dep_declared};
ghost use Rattle.module_directives.specs.Readers.{module_declared, names_declared};
ghost use Rattle.module_directives.specs.Readers.{override_declared, repository_declared};
ghost use Rattle.module_directives.specs.Readers.{rule_declared, tag_declared, usage_declared};
ghost use Rattle.module_directives.specs.Readers.{with_names};

use crate::gifts::Gift;
use crate::parts::{Addition, Parts, Purpose, push};
use bz_base::{
    Code, Declared, Dep, ModuleDecl, Named, Override, OverrideKind, Part, Plain, Tag, Usage,
};
use bz_text::{May, Mem, Seq, Txt};
use module_arguments::{
    Given, NamePair, Objection, ParameterName, given_text, object, refuse_value,
};
use std::alloc::Global;

/// Whose file is read: that of the root, where dev dependencies may be ignored, or another.
#[derive(Clone, Copy)]
pub enum Role {
    Root { ignore_dev: bool },
    Other,
}

/// A repository rule that the file uses.
#[derive(Drop)]
pub struct RepoRule {
    pub bzl: Txt,
    pub rule: Txt,
}

/// What a file has declared so far.
#[derive(Drop)]
pub struct Reader {
    pub role: Role,
    /// Whether a directive ran.
    pub begun: bool,
    pub name: Txt,
    pub version: Txt,
    pub level: u32,
    pub repo_name: Txt,
    pub deps: Seq<Dep>,
    pub nodeps: Seq<Dep>,
    pub parts: Parts,
    pub rules: Seq<RepoRule>,
    pub overrides: Seq<Override>,
}

impl Role {
    fn counts_dev(self) -> bool
        ensures { result ≡ spec.counts_dev self }
    {
        match self {
            Role::Root { ignore_dev } => !ignore_dev,
            Role::Other => false,
        }
    }

    fn is_root(self) -> bool
        ensures { result ≡ spec.is_root self }
    {
        match self {
            Role::Root { .. } => true,
            Role::Other => false,
        }
    }

    fn counts(self, dev: bool) -> bool
        ensures { result ≡ spec.counts self dev }
    {
        !dev || self.counts_dev()
    }
}

impl Reader {
    /// A reader of a file before its first directive.
    pub fn begin(alloc: Global, role: Role) -> Reader
        ensures { result ≡ begun_reader role }
    {
        Reader {
            role,
            begun: false,
            name: empty(alloc),
            version: empty(alloc),
            level: 0,
            repo_name: empty(alloc),
            deps: Seq::new(alloc),
            nodeps: Seq::new(alloc),
            parts: Parts::new(alloc),
            rules: Seq::new(alloc),
            overrides: Seq::new(alloc),
        }
    }

    /// What was read.
    pub fn into_declaration(self) -> ModuleDecl
        ensures { result ≡ declared_by self }
    {
        ModuleDecl {
            name: self.name,
            version: self.version,
            level: self.level,
            repo_name: self.repo_name,
            deps: self.deps,
            nodeps: self.nodeps,
            parts: self.parts.into_seq(),
            overrides: self.overrides,
        }
    }

    /// `module`.
    #[tactic(auto, unfolding(crate::specs::Readers::module_declared))]
    pub(crate) fn declare_module(&mut self, alloc: Global, values: &[Given]) -> Mem<()>
        ensures { OnOk result (self.new ≡ module_declared values.now self.old) }
    {
        self.begun = true;
        self.name = Txt::of(alloc, given_text(0, values))?;
        self.version = Txt::of(alloc, given_text(1, values))?;
        self.level = given_level(2, values);
        self.repo_name = Txt::of(alloc, or_else(given_text(3, values), given_text(0, values)))?;
        Ok(())
    }

    /// `bazel_dep`.
    #[tactic(auto, unfolding(crate::specs::Readers::dep_declared))]
    pub(crate) fn declare_dep(&mut self, alloc: Global, values: &[Given], line: u64) -> Mem<()>
        ensures { OnOk result (self.new ≡ dep_declared values.now line self.old) }
    {
        self.begun = true;
        if !self.role.counts(given_flag(4, values)) {
            return Ok(());
        }
        if is_nothing(values.get(3)) {
            return push(&mut self.nodeps, dep_called(alloc, values, "", line)?);
        }
        let apparent = or_else(given_text(3, values), given_text(0, values));
        push(&mut self.deps, dep_called(alloc, values, apparent, line)?)
    }

    /// `use_extension`.
    #[tactic(auto, unfolding(crate::specs::Readers::usage_declared))]
    pub(crate) fn declare_usage(
        &mut self,
        alloc: Global,
        values: &[Given],
        line: u64,
    ) -> May<Gift, Objection>
        ensures { Ran (usage_declared values.now line self.old) result self.new }
    {
        self.begun = true;
        if !self.role.counts(given_flag(2, values)) {
            return Ok(Gift::Proxy(None));
        }
        let index = self.parts.len();
        let usage = usage_of(alloc, values, line)?;
        self.parts.push(Part::Usage(usage))?;
        Ok(Gift::Proxy(Some(index)))
    }

    /// `use_repo_rule`.
    #[tactic(auto, unfolding(crate::specs::Readers::rule_declared))]
    pub(crate) fn declare_rule(&mut self, alloc: Global, values: &[Given]) -> May<Gift, Objection>
        ensures { Ran (rule_declared values.now self.old) result self.new }
    {
        self.begun = true;
        let index = self.rules.items().len();
        let rule = RepoRule {
            bzl: Txt::of(alloc, given_text(0, values))?,
            rule: Txt::of(alloc, given_text(1, values))?,
        };
        push(&mut self.rules, rule)?;
        Ok(Gift::Rule(index))
    }

    /// A tag.
    pub(crate) fn declare_tag(
        &mut self,
        usage: Option<usize>,
        class: Txt,
        attrs: Seq<Named>,
        line: u64,
    ) -> Mem<()>
        ensures { OnOk result (self.new ≡ tag_declared usage class attrs line self.old) }
    {
        self.begun = true;
        let Some(index) = usage else {
            return Ok(());
        };
        let tag = Tag {
            class,
            attrs,
            dev: false,
            line,
        };
        self.parts.add(index, Addition::Tag(tag))
    }

    /// `use_repo`, `override_repo` and `inject_repo`.
    pub(crate) fn declare_names(
        &mut self,
        purpose: Purpose,
        usage: Option<usize>,
        line: u64,
        pairs: Seq<NamePair>,
    ) -> Mem<()>
        ensures { OnOk result (self.new ≡ names_declared purpose usage line pairs self.old) }
    {
        match purpose {
            Purpose::Import => self.add_names(purpose, usage, line, pairs),
            Purpose::Change(_) if self.role.counts_dev() => {
                self.add_names(purpose, usage, line, pairs)
            }
            Purpose::Change(_) => {
                self.begun = true;
                Ok(())
            }
        }
    }

    fn add_names(
        &mut self,
        purpose: Purpose,
        usage: Option<usize>,
        line: u64,
        pairs: Seq<NamePair>,
    ) -> Mem<()>
        ensures { OnOk result (self.new ≡ with_names usage purpose line pairs self.old) }
    {
        self.begun = true;
        match usage {
            Some(index) => self.parts.add_names(index, purpose, line, pairs),
            None => Ok(()),
        }
    }

    /// A declared repository.
    #[tactic(auto, unfolding(crate::specs::Readers::repository_declared))]
    pub(crate) fn declare_repository(
        &mut self,
        alloc: Global,
        rule: Option<RepoRule>,
        values: &[Given],
        attrs: Seq<Named>,
        line: u64,
    ) -> Mem<()>
        ensures { OnOk result (self.new
            ≡ repository_declared rule values.now attrs line self.old) }
    {
        self.begun = true;
        if !self.role.counts(given_flag(1, values)) {
            return Ok(());
        }
        let declared = declared_of(alloc, rule, values, attrs, line)?;
        self.parts.push(Part::Declared(declared))
    }

    /// An override.
    #[tactic(auto, unfolding(crate::specs::Readers::override_declared))]
    pub(crate) fn declare_override(
        &mut self,
        alloc: Global,
        name: &str,
        kind: OverrideKind,
        line: u64,
    ) -> May<Gift, Objection>
        ensures { Ran (override_declared name.now kind line self.old) result self.new }
    {
        self.begun = true;
        if !self.role.is_root() {
            return Ok(Gift::Nothing);
        }
        if name == self.name.as_str() {
            return refuse_value(alloc, ParameterName::ModuleName);
        }
        if is_overridden(name, self.overrides.items()) {
            return object(alloc, Code::DoubleOverride, name);
        }
        let name = Txt::of(alloc, name)?;
        push(&mut self.overrides, Override { name, kind, line })?;
        Ok(Gift::Nothing)
    }
}

fn empty(alloc: Global) -> Txt
    ensures { result ≡ [] }
{
    Txt::of_string(String::new(alloc))
}

fn or_else<'t>(text: &'t str, default: &'t str) -> &'t str
    ensures { result.now ≡ spec.or_else text.now default.now }
{
    if text.is_empty() { default } else { text }
}

fn dep_called(alloc: Global, values: &[Given], apparent: &str, line: u64) -> Mem<Dep>
    ensures { IfOk result (λ dep. dep ≡ spec.dep_called values.now apparent.now line) }
{
    Ok(Dep {
        name: Txt::of(alloc, given_text(0, values))?,
        version: Txt::of(alloc, given_text(1, values))?,
        apparent: Txt::of(alloc, apparent)?,
        dev: given_flag(4, values),
        line,
    })
}

fn usage_of(alloc: Global, values: &[Given], line: u64) -> Mem<Usage>
    ensures { IfOk result (λ usage. usage ≡ spec.usage_of values.now line) }
{
    Ok(Usage {
        bzl: Txt::of(alloc, given_text(0, values))?,
        name: Txt::of(alloc, given_text(1, values))?,
        dev: given_flag(2, values),
        tags: Seq::new(alloc),
        imports: Seq::new(alloc),
        changes: Seq::new(alloc),
        line,
    })
}

fn declared_of(
    alloc: Global,
    rule: Option<RepoRule>,
    values: &[Given],
    attrs: Seq<Named>,
    line: u64,
) -> Mem<Declared>
    ensures { IfOk result (λ declared. declared
        ≡ spec.declared_of rule values.now attrs line) }
{
    let attrs = named_first(alloc, given_text(0, values), attrs)?;
    match rule {
        Some(RepoRule { bzl, rule }) => Ok(Declared {
            bzl,
            rule,
            attrs,
            line,
        }),
        None => Ok(Declared {
            bzl: empty(alloc),
            rule: empty(alloc),
            attrs,
            line,
        }),
    }
}

/// The attribute `name` before others.
fn named_first(alloc: Global, name: &str, attrs: Seq<Named>) -> Mem<Seq<Named>>
    ensures { IfOk result (λ all. all ≡ spec.named_first name.now attrs) }
{
    let mut all = Vec::new(alloc);
    all.push(Named {
        name: Txt::of(alloc, "name")?,
        value: Plain::Text(Txt::of(alloc, name)?),
    })?;
    'following: for attr in attrs.into_vec() {
        all.push(attr)?;
    }
    Ok(Seq::of_vec(all))
}

fn is_overridden(name: &str, overrides: &[Override]) -> bool
    ensures { result ≡ spec.is_overridden name.now overrides.now }
{
    overrides.iter().any(|one| one.name.as_str() == name)
}

fn given_flag(index: usize, values: &[Given]) -> bool
    ensures { result ≡ spec.given_flag index values.now }
{
    match values.get(index) {
        Some(Given::Flag(flag)) => *flag,
        _ => false,
    }
}

fn given_level(index: usize, values: &[Given]) -> u32
    ensures { result ≡ spec.given_level index values.now }
{
    match values.get(index) {
        Some(Given::Level(level)) => *level,
        _ => 0,
    }
}

/// The texts that were given at an index.
pub(crate) fn given_texts(index: usize, values: &[Given]) -> &[Txt]
    ensures { result.now ≡ spec.given_texts index values.now }
{
    match values.get(index) {
        Some(Given::Texts(texts)) => texts.items(),
        _ => &[],
    }
}

/// The usage for which stands what was given at an index.
pub(crate) fn given_proxy(index: usize, values: &[Given]) -> Option<usize>
    ensures { result ≡ spec.given_proxy index values.now }
{
    match values.get(index) {
        Some(Given::Proxy(usage)) => *usage,
        _ => None,
    }
}

fn is_nothing(value: Option<&Given>) -> bool
    ensures { result ≡ spec.is_nothing (option_copied value.entry) }
{
    match value {
        Some(Given::Nothing) => true,
        _ => false,
    }
}
