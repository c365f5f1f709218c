//! Tables of Starlark's string methods and patterns: a method or a pattern, its receiver and
//! arguments, and the `repr` of what it gives, or the kind of fault. Values are taken from the
//! Starlark specification and from Python.
#![tactic(auto)]

#[cfg(test)]
mod calls;
#[cfg(test)]
mod format_rows;
#[cfg(test)]
mod method_rows;
#[cfg(test)]
mod print_rows;
