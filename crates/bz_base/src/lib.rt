//! The plain values of Bazel's external dependency system: paths, keys, labels, what a module file
//! declares, the graph of module versions, attributes with their JSON, digests, refusals and the
//! count of steps.
//!
//! In come texts, bytes and JSON; out go values that are compared by what they hold. Nothing here
//! reads a file.
//! Read `specs/Paths.antt` and `specs/NormalPaths.antt` first: to which path a text leads, what a
//! path looks like, and which texts lead to none.
//! `specs/ModuleDeclarations`, `Graphs` and `Labels` name the conditions that later contracts cite
//! (`IsDeclared`, `IsGraph`, `IsGraphBy`, `IsSelectedOf`, `IsLabel`, `IsExtensionName`,
//! `IsGeneratedName`).
//! Laws (`laws.rt`): a join is normal; a text leads nowhere exactly where it has a NUL or climbs
//! above `/`; plain values are read back from their JSON.
//! Limits: a plain value is at most 16 deep; a count stays at 2^64 - 1.
//! Source: Bazel, "Bazel modules" and "Labels"; POSIX.1-2017, 4.13; RFC 8259; FIPS 180-4; RFC 4648.
#![tactic(auto)]

pub mod declarations;
pub mod digests;
pub mod environment;
pub mod extensions;
pub mod label_names;
pub mod labels;
pub mod laws;
pub mod module_graph;
pub mod module_key;
pub mod plain_copies;
pub mod plain_equality;
pub mod plain_labels;
pub mod plain_reading;
pub mod plain_texts;
pub mod plain_values;
pub mod refusals;
pub mod step_count;
pub mod tree_path;

pub use bz_text::{
    May, Mem, Miss, OutOfMemory, Seq, Txt, cut_at, cut_at_double_slash, same_bytes, text_behind,
};
pub use declarations::{
    Declared, Dep, Import, ModuleDecl, Override, OverrideKind, Part, RepoChange, Tag, Usage,
};
pub use digests::{digest_base64, digest_hex};
pub use environment::{EnvPair, EnvTable};
pub use extensions::{ExtId, Spec};
pub use label_names::{is_apparent, is_canonical, is_package, is_segment, is_segmented};
pub use labels::Label;
pub use module_graph::{Chosen, Graph, GraphNode, Selected};
pub use module_key::Key;
pub use plain_labels::{NotPlain, read_label};
pub use plain_reading::plain_of_json;
pub use plain_texts::{label_string, plain_json};
pub use plain_values::{Named, Plain, PlainPair};
pub use refusals::{Code, Refusal};
pub use step_count::Steps;
pub use tree_path::{BadPath, TreePath};
