//! The directives of a module file, the table of their parameters, and what a call's arguments give
//! them.
//!
//! In come a directive, a heap and a call's arguments; out goes what each parameter is given, or
//! the code and the detail of a refusal.
//! Read `specs/Directives.antt` first: the table, a row a directive. `Arguments` says which
//! arguments bind, `GivenValues` what each kind of parameter takes and how it refuses the rest, in
//! the order of the parameters; `Attributes` has arguments under names of the caller's own,
//! `Objects` the cells that stand for directives, extensions' usages and repository rules.
//! Limits: no place of a refusal; whoever runs the directive knows its file and line.
//! Source: Bazel, "MODULE.bazel files"; the Starlark specification, "Function and method calls". To
//! add a directive open `src/directives.rt` and its row in `specs/Directives.antt`.
#![tactic(auto)]

pub mod arguments;
pub mod attributes;
pub mod directives;
pub mod given_values;
pub mod name_pairs;
pub mod objections;
pub mod objects;
pub mod parameters;

pub use arguments::{argument_of, binds, further, is_parameter};
pub use attributes::read_attributes;
pub use directives::{Directive, Shape, attribute_shape, repository_parameters};
pub use given_values::{Given, each_given, given_text};
pub use name_pairs::{NamePair, read_pairs};
pub use objections::{Objection, object, refuse_arity, refuse_value};
pub use objects::{Object, object_in};
pub use parameters::{Kind, NameKind, Parameter, ParameterName, TextKind};
