//! What the parameters of a directive are given.
ghost use Rattle.std.specs.Prelude.{◌≡◌, [], Ok, not, bytes_eq};
ghost use Rattle.std.specs.List.{list_any};
ghost use Rattle.std.specs.Option.{option_copied};
ghost use Rattle.bz_base.specs.Paths.{joined};
ghost use Rattle.bz_text.specs.Answers.{Gives};
ghost use Rattle.module_arguments.specs.GivenValues as spec;
ghost use Rattle.module_values.specs.TextLists as lists;

use crate::arguments::argument_of;
use crate::objections::{Objection, leave_out, object, refuse_value};
use crate::objects::{Object, object_in};
use crate::parameters::{Kind, NameKind, Parameter, ParameterName, TextKind};
use bz_base::{Code, TreePath};
use bz_text::{May, Mem, Miss, Seq, Txt};
use bz_version::Version;
use module_names::{is_exported_name, is_module_name, is_repository_name};
use module_values::texts_of;
use registry_index::is_registry;
use star_core::{Args, Heap, Val};
use star_library::text_of;
use std::alloc::Global;

/// The greatest compatibility level.
const MOST_LEVEL: u32 = 2_147_483_647;

/// What a parameter is given. `Nothing` is None, or what no declaration keeps.
#[derive(Drop)]
pub enum Given {
    Text(Txt),
    Texts(Seq<Txt>),
    Flag(bool),
    Level(u32),
    Proxy(Option<usize>),
    Nothing,
}

/// What each parameter is given.
pub fn each_given(
    alloc: Global,
    parameters: &[Parameter],
    heap: &Heap,
    args: &Args,
) -> May<Seq<Given>, Objection>
    ensures { Gives (spec.each_given parameters.now heap.now args.now) result }
{
    let mut values = Vec::new(alloc);
    let mut index = 0;
    'giving: for parameter in parameters {
        let argument = argument_of(index, parameter, args);
        match given_by(alloc, parameter, values.as_slice(), heap, argument) {
            Ok(one) => values.push(one)?,
            Err(miss) => return Err(miss),
        }
        index += 1;
    }
    Ok(Seq::of_vec(values))
}

fn given_by(
    alloc: Global,
    parameter: &Parameter,
    before: &[Given],
    heap: &Heap,
    argument: Option<Val>,
) -> May<Given, Objection>
    ensures { Gives (spec.given_by parameter.now before.now heap.now argument) result }
{
    match argument {
        Some(value) => value_given(alloc, parameter.kind, parameter.name, before, heap, &value),
        None => Ok(default_of(alloc, parameter.kind)),
    }
}

#[tactic(auto, unfolding(crate::specs::GivenValues::default_of))]
fn default_of(alloc: Global, kind: Kind) -> Given
    ensures { result ≡ spec.default_of kind }
{
    match kind {
        Kind::Text(_) | Kind::TextOrNone(_) => Given::Text(Txt::of_string(String::new(alloc))),
        Kind::Texts | Kind::Versions => Given::Texts(Seq::new(alloc)),
        Kind::Flag => Given::Flag(false),
        Kind::Level => Given::Level(0),
        Kind::Unset | Kind::NoMaximum | Kind::Integer | Kind::Proxy => Given::Nothing,
    }
}

#[tactic(auto, unfolding(crate::specs::GivenValues::value_given))]
fn value_given(
    alloc: Global,
    kind: Kind,
    name: ParameterName,
    before: &[Given],
    heap: &Heap,
    value: &Val,
) -> May<Given, Objection>
    ensures { Gives (spec.value_given kind name before.now heap.now value.now) result }
{
    match kind {
        Kind::Text(texts) => string_given(alloc, name, texts, text_of(heap, value)),
        Kind::TextOrNone(texts) => string_or_none(alloc, name, texts, heap, value),
        Kind::Texts => texts_given(alloc, name, heap, value),
        Kind::Versions => versions_given(alloc, name, before, heap, value),
        Kind::Flag => flag_given(alloc, name, *value),
        Kind::Unset => unset_given(alloc, name, *value),
        Kind::Level => level_given(alloc, name, *value),
        Kind::NoMaximum => maximum_given(alloc, name, *value),
        Kind::Integer => integer_given(alloc, name, *value),
        Kind::Proxy => proxy_given(alloc, name, object_in(heap.cell(value))),
    }
}

fn string_given(
    alloc: Global,
    name: ParameterName,
    kind: TextKind,
    text: Option<&str>,
) -> May<Given, Objection>
    ensures { Gives (spec.string_given name kind (option_copied text.entry)) result }
{
    match text {
        Some(text) => text_read(alloc, name, kind, text),
        None => refuse_value(alloc, name),
    }
}

fn string_or_none(
    alloc: Global,
    name: ParameterName,
    kind: TextKind,
    heap: &Heap,
    value: &Val,
) -> May<Given, Objection>
    ensures { Gives (spec.string_or_none name kind heap.now value.now) result }
{
    match value {
        Val::None => Ok(Given::Nothing),
        _ => string_given(alloc, name, kind, text_of(heap, value)),
    }
}

#[tactic(auto, unfolding(crate::specs::GivenValues::text_read))]
fn text_read(
    alloc: Global,
    name: ParameterName,
    kind: TextKind,
    text: &str,
) -> May<Given, Objection>
    ensures { Gives (spec.text_read name kind text.now) result }
{
    match kind {
        TextKind::Any => Ok(Given::Text(Txt::of(alloc, text)?)),
        TextKind::Name(names) => name_given(alloc, names, text),
        TextKind::Version => version_given(alloc, text),
        TextKind::Registry => registry_given(alloc, name, text),
        TextKind::Path => path_given(alloc, name, text),
    }
}

fn name_given(alloc: Global, names: NameKind, text: &str) -> May<Given, Objection>
    ensures { Gives (spec.name_given names text.now) result }
{
    if is_name(names, text) {
        Ok(Given::Text(Txt::of(alloc, text)?))
    } else {
        object(alloc, Code::BadName, text)
    }
}

#[tactic(auto, unfolding(crate::specs::GivenValues::is_name))]
fn is_name(names: NameKind, text: &str) -> bool
    ensures { result ≡ spec.is_name names text.now }
{
    match names {
        NameKind::Own => text.is_empty() || is_module_name(text),
        NameKind::Module => is_module_name(text),
        NameKind::Repository => text.is_empty() || is_repository_name(text),
        NameKind::Generated => is_repository_name(text),
        NameKind::Exported => is_exported_name(text),
    }
}

fn version_given(alloc: Global, text: &str) -> May<Given, Objection>
    ensures { Gives (spec.text_given (spec.version_kept text.now)) result }
{
    match version_kept(alloc, text) {
        Ok(version) => Ok(Given::Text(version)),
        Err(miss) => Err(miss),
    }
}

/// A version as it is kept, without BUILD.
fn version_kept(alloc: Global, text: &str) -> May<Txt, Objection>
    ensures { Gives (spec.version_kept text.now) result }
{
    match Version::parse(alloc, text) {
        Ok(version) => Ok(version.into_text()),
        Err(Miss::OutOfMemory) => Err(Miss::OutOfMemory),
        Err(Miss::Because(_)) => object(alloc, Code::BadVersion, text),
    }
}

fn registry_given(alloc: Global, name: ParameterName, text: &str) -> May<Given, Objection>
    ensures { Gives (spec.registry_given name text.now) result }
{
    if text.is_empty() || is_registry(alloc, text)? {
        Ok(Given::Text(Txt::of(alloc, text)?))
    } else {
        leave_out(alloc, name)
    }
}

fn path_given(alloc: Global, name: ParameterName, text: &str) -> May<Given, Objection>
    ensures { Gives (spec.path_given name (joined [] text.now) text.now) result }
{
    match TreePath::workspace(alloc).join(alloc, text) {
        Ok(_) => Ok(Given::Text(Txt::of(alloc, text)?)),
        Err(Miss::OutOfMemory) => Err(Miss::OutOfMemory),
        Err(Miss::Because(_)) => refuse_value(alloc, name),
    }
}

fn texts_given(
    alloc: Global,
    name: ParameterName,
    heap: &Heap,
    value: &Val,
) -> May<Given, Objection>
    ensures { Gives (spec.texts_given name (lists.texts_of heap.now value.now)) result }
{
    match texts_of(alloc, heap, value)? {
        Some(texts) => Ok(Given::Texts(texts)),
        None => refuse_value(alloc, name),
    }
}

fn versions_given(
    alloc: Global,
    name: ParameterName,
    before: &[Given],
    heap: &Heap,
    value: &Val,
) -> May<Given, Objection>
    ensures { Gives (spec.versions_given name before.now (lists.texts_of heap.now value.now)) result }
{
    match texts_of(alloc, heap, value)? {
        Some(texts) => enough(alloc, before, texts.items()),
        None => refuse_value(alloc, name),
    }
}

fn enough(alloc: Global, before: &[Given], texts: &[Txt]) -> May<Given, Objection>
    ensures { Gives (spec.enough before.now (spec.versions_after (Ok []) texts.now)) result }
{
    match each_version(alloc, texts) {
        Ok(versions) => enough_versions(alloc, before, versions),
        Err(miss) => Err(miss),
    }
}

fn enough_versions(alloc: Global, before: &[Given], versions: Seq<Txt>) -> May<Given, Objection>
    ensures { Gives (spec.enough before.now (Ok versions)) result }
{
    if some_differ(versions.items()) {
        Ok(Given::Texts(versions))
    } else {
        object(alloc, Code::FewVersions, given_text(0, before))
    }
}

fn each_version(alloc: Global, texts: &[Txt]) -> May<Seq<Txt>, Objection>
    ensures { Gives (spec.versions_after (Ok []) texts.now) result }
{
    let mut versions = Vec::new(alloc);
    'reading: for text in texts {
        match version_kept(alloc, text.as_str()) {
            Ok(version) => versions.push(version)?,
            Err(miss) => return Err(miss),
        }
    }
    Ok(Seq::of_vec(versions))
}

/// Whether two versions differ.
fn some_differ(versions: &[Txt]) -> bool
    ensures { result ≡ spec.some_differ versions.now }
{
    match versions {
        [] => false,
        [first, more @ ..] => differs(more, first.as_str()),
    }
}

fn differs(versions: &[Txt], version: &str) -> bool
    ensures { result ≡ list_any (λ other. not (bytes_eq other version.now)) versions.now }
{
    versions.iter().any(|other| other.as_str() != version)
}

/// The text that was given at an index.
pub fn given_text(index: usize, values: &[Given]) -> &str
    ensures { result.now ≡ spec.given_text index values.now }
{
    match values.get(index) {
        Some(Given::Text(text)) => text.as_str(),
        _ => "",
    }
}

fn flag_given(alloc: Global, name: ParameterName, value: Val) -> May<Given, Objection>
    ensures { Gives (spec.flag_given name value) result }
{
    match value {
        Val::Bool(flag) => Ok(Given::Flag(flag)),
        _ => refuse_value(alloc, name),
    }
}

fn unset_given(alloc: Global, name: ParameterName, value: Val) -> May<Given, Objection>
    ensures { Gives (spec.unset_given name value) result }
{
    match value {
        Val::Bool(true) => leave_out(alloc, name),
        Val::Bool(false) => Ok(Given::Nothing),
        _ => refuse_value(alloc, name),
    }
}

fn level_given(alloc: Global, name: ParameterName, value: Val) -> May<Given, Objection>
    ensures { Gives (spec.level_given name value) result }
{
    match value {
        Val::Int(number) => level_read(alloc, name, level_of(number)),
        _ => refuse_value(alloc, name),
    }
}

fn level_read(alloc: Global, name: ParameterName, level: Option<u32>) -> May<Given, Objection>
    ensures { Gives (spec.level_read name level) result }
{
    match level {
        Some(level) => Ok(Given::Level(level)),
        None => refuse_value(alloc, name),
    }
}

fn level_of(number: i64) -> Option<u32>
    ensures { result ≡ spec.level_of number }
{
    match u32::try_from(number) {
        Ok(level) if level <= MOST_LEVEL => Some(level),
        _ => None,
    }
}

fn maximum_given(alloc: Global, name: ParameterName, value: Val) -> May<Given, Objection>
    ensures { Gives (spec.maximum_given name value) result }
{
    match value {
        Val::Int(-1) => Ok(Given::Nothing),
        Val::Int(_) => leave_out(alloc, name),
        _ => refuse_value(alloc, name),
    }
}

fn integer_given(alloc: Global, name: ParameterName, value: Val) -> May<Given, Objection>
    ensures { Gives (spec.integer_given name value) result }
{
    match value {
        Val::Int(_) => Ok(Given::Nothing),
        _ => refuse_value(alloc, name),
    }
}

fn proxy_given(alloc: Global, name: ParameterName, object: Option<Object>) -> May<Given, Objection>
    ensures { Gives (spec.proxy_given name object) result }
{
    match object {
        Some(Object::Proxy(usage)) => Ok(Given::Proxy(usage)),
        _ => refuse_value(alloc, name),
    }
}
