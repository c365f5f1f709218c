//! The parser of Starlark's expressions: one method a production, in the grammar's order.
//!
//! In comes a `Cursor` over symbols; out goes the tree that they spell as it is written, and the
//! cursor behind it, or that there is none.
//! What a call reads is what the grammar's reader of its name reads (`specs/Reads.antt`,
//! `star_grammar/specs/ExpressionReading.antt`), and so what the symbols spell.
//! Read `src/grammar.rt` first, then `levels.rt`: the binary operators are one table of levels and
//! one loop.
//! Only the function of an expression recurses, through a function value, with the nesting as its
//! measure.
//! Laws: those of `star_grammar`.
//! Limits: 128 constructs deep.
//! Source: the Starlark specification, "Grammar reference". To change a production open its method
//! here and its reader there.
#![tactic(auto)]

mod arg_orders;
mod args;
mod comprehensions;
mod cursor;
mod expressions;
mod grammar;
mod levels;
mod lists;
mod operands;
mod operators;
mod params;
mod suffixes;
mod targets;

pub use arg_orders::are_params;
pub use cursor::{Cursor, NoTree};
pub use expressions::{expression, listed_params, target_list, test_list};
pub use grammar::{HeldTree, checked, deep, only};
pub use targets::{is_place, is_target};
