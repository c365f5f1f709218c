//! A host for trying evaluations: its objects have methods that count, and methods that ask.
//!
//! In comes a call; out goes a number, a text, or a question. Looking at a field gives the method of
//! that name, to be called later.
//! Read `specs/Methods.antt` (what each call does) and `Lawful` (that it keeps a host's laws).
//! Limits: the count of calls stays at 2^32 - 1.
//! Source: none; it stands for the objects of Bazel's extensions, which are hosts of their own.
#![tactic(auto)]

pub mod method_host;

pub use method_host::MethodHost;
