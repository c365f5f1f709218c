//! Texts, lists, and the answers of calls that may want memory: what every other crate stands on.
//!
//! In comes what the standard library has (`&str`, `String`, `Vec`); out goes `Txt`, which
//! contracts see as the list of its bytes, and `Seq`, which they see as the list of its items.
//! Read `specs/Answers.antt` first: `Gives DEFINITION result` says that a call gave the
//! definition's value or its reason, unless memory ran out, and `UnlessOutOfMemory` says the same
//! of any relation. Want of memory is the one answer that may always come.
//! `cut_at` is the one cut of a text at a mark: by `cut`, and by `parts_at`, all that stands
//! between the marks.
//! Laws: `proofs/CutLists` and `CutParts` (cuts), `ListWalks` (lists, item by item), `Turns`
//! (recursion on a count beside a loop that counts up).
//! Limits: a mark is an ASCII character. A list has no length but that of memory.
//! Source: UTF-8 is RFC 3629. To change how texts are cut open `src/cuts.rt`; how answers are said,
//! `specs/Answers.antt`.
#![tactic(auto)]

pub mod bytes;
pub mod cuts;
pub mod memory;
pub mod sequence;
pub mod text;

pub use bytes::same_bytes;
pub use cuts::{cut_at, cut_at_double_slash, text_behind};
pub use memory::{May, Mem, Miss, OutOfMemory};
pub use sequence::Seq;
pub use text::Txt;
