//! Small files beside the scopes and slots of their names, worked out by hand.
use crate::tree_rows::repeated;
use crate::variable_text::variable_text;
use bz_text::{May, Miss};
use star_parse::{ParseFault, parse_bzl, parse_module};
use star_trees::File;
use std::alloc::{AllocError, Global};
use std::test::Fail;

/// The variables of a file, or its fault.
fn file_text(alloc: Global, file: May<File, ParseFault>) -> Result<String, AllocError> {
    match file {
        Ok(file) => variable_text(alloc, &file),
        Err(Miss::Because(ParseFault::Lex { hint })) => format!(in alloc; "lex {hint}"),
        Err(Miss::Because(ParseFault::Syntax { hint })) => format!(in alloc; "syntax {hint}"),
        Err(Miss::Because(ParseFault::Dialect { line, form })) => {
            let form = form.as_str();
            format!(in alloc; "dialect {line} {form}")
        }
        Err(Miss::Because(ParseFault::Unbound { line, name })) => {
            let name = name.as_str();
            format!(in alloc; "unbound {line} {name}")
        }
        Err(Miss::OutOfMemory) => String::from_str(alloc, "no memory"),
    }
}

#[test]
fn names_of_extensions_are_variables(rt: HostRuntime) -> Result<(), Fail> {
    let alloc = rt.alloc();
    let cases = [
        ("", "|"),
        ("x = 1\ny = x", "x@0.0 ; y@0.1 x@0.0 ; |"),
        (
            "def f(a, b = len):\n  c = a\n  return c + b + x\nx = 1",
            "#0 f@0.0 ; x@0.1 ; | len@1.0 c@0.2 a@0.0 ; c@0.2 b@0.1 x@1.1 ; | len",
        ),
        (
            "x = [i for i in range(3) if i]",
            "x@0.0 i@0.0 i@0.0 range@1.0 i@0.0 ; | range",
        ),
        (
            "j = [1]\nx = [i for i in j for k in j]",
            "j@0.0 ; x@0.1 i@0.0 i@0.0 j@0.0 k@0.1 j@1.0 ; |",
        ),
        (
            "x = 1\ndef f():\n  y = x\n  x = 2",
            "x@0.0 ; #0 f@0.1 ; | y@0.0 x@0.1 ; x@0.1 ; |",
        ),
        (
            "[lambda: i for i in range(3)]",
            "#0 i@0.0 range@1.0 ; | i@1.0 | range",
        ),
        (
            "def f(a):\n  def g(b): return a + b\n  return g",
            "#0 f@0.0 ; | #1 g@0.1 ; g@0.1 ; | a@1.0 b@0.0 ; |",
        ),
        ("f = lambda a = lambda: 1: a", "f@0.0 #0 ; | #1 a@0.0 | |"),
    ];
    for (text, want) in cases {
        let got = file_text(alloc, parse_bzl(alloc, text))?;
        assert_eq!(rt; got.as_str(), want, "at {text}");
    }
    Ok(())
}

#[test]
fn statements_bind_and_use_in_the_order_of_the_text(rt: HostRuntime) -> Result<(), Fail> {
    let alloc = rt.alloc();
    let cases = [
        (
            "load('//:a.bzl', 'b', c = 'd')\nx = c",
            "#0 ; x@0.2 c@0.1 ; |",
        ),
        ("def f():\n  x += 1", "#0 f@0.0 ; | x@0.0 ; |"),
        (
            "x = len if str else int",
            "x@0.0 len@1.0 str@1.1 int@1.2 ; | len str int",
        ),
        (
            "def f():\n  for a, b[len] in c: pass\n  if d: e = 1\nc = d = 1",
            "syntax 4",
        ),
        (
            "def f():\n  for a, (b) in str: pass\n  if a: e = b",
            "#0 f@0.0 ; | a@0.0 b@0.1 str@2.0 ; ; a@0.0 e@0.2 b@0.1 ; ; | str",
        ),
    ];
    for (text, want) in cases {
        let got = file_text(alloc, parse_bzl(alloc, text))?;
        assert_eq!(rt; got.as_str(), want, "at {text}");
    }
    Ok(())
}

#[test]
fn names_of_modules_are_variables(rt: HostRuntime) -> Result<(), Fail> {
    let alloc = rt.alloc();
    let cases = [
        (
            "module(name = 'a')\nbazel_dep(name = 'b')\nmodule()",
            "module@1.0 ; bazel_dep@1.1 ; module@1.0 ; | module bazel_dep",
        ),
        ("x = 1\nx = 2", "x@0.0 ; x@0.0 ; |"),
        (
            "module(**{'name': None})",
            "module@1.0 None@1.1 ; | module None",
        ),
    ];
    for (text, want) in cases {
        let got = file_text(alloc, parse_module(alloc, text))?;
        assert_eq!(rt; got.as_str(), want, "at {text}");
    }
    Ok(())
}

#[test]
fn refused_forms_come_before_unbound_names(rt: HostRuntime) -> Result<(), Fail> {
    let alloc = rt.alloc();
    let extensions = [
        ("x = y", "unbound 1 y"),
        ("for i in []: pass", "dialect 1 for"),
        ("x = 1\nx = 2", "dialect 2 rebinding"),
        ("x = [i for i in [1]]\ny = i", "unbound 2 i"),
        ("x = y\nif True: pass", "dialect 2 if"),
        ("x = [i for i in i]", "unbound 1 i"),
        ("module(name = 'a')", "unbound 1 module"),
        ("x = 1 < 2 < 3", "syntax 1"),
        ("x = 1\nif x:\n", "syntax 2"),
        ("x = 01", "lex 1"),
        ("(a,\n a) = 1, 2", "dialect 2 rebinding"),
        ("(a,\n b) = 1, 2\nx = c", "unbound 3 c"),
    ];
    for (text, want) in extensions {
        let got = file_text(alloc, parse_bzl(alloc, text))?;
        assert_eq!(rt; got.as_str(), want, "at {text}");
    }
    let modules = [
        ("def f(): pass\n", "dialect 1 def"),
        ("x = y\nf(**{a: b for a in c})", "dialect 2 **"),
        ("x = struct()", "unbound 1 struct"),
        (
            "module(**{})\nload(':a.bzl', 'x')\nmodule(**1)",
            "dialect 2 load",
        ),
    ];
    for (text, want) in modules {
        let got = file_text(alloc, parse_module(alloc, text))?;
        assert_eq!(rt; got.as_str(), want, "at {text}");
    }
    Ok(())
}

#[test]
fn deepest_files_are_resolved(rt: HostRuntime) -> Result<(), Fail> {
    let alloc = rt.alloc();
    let cases = [
        ("(", "1", ")"),
        ("[", "1", "]"),
        ("1+", "1", ""),
        ("{1:", "1", "}"),
        ("lambda: ", "1", ""),
        ("[1 for i in ", "[]", "]"),
    ];
    for (front, middle, back) in cases {
        let text = repeated(alloc, front, 126, middle, back)?;
        let file = parse_bzl(alloc, text.as_str());
        assert!(rt; file.is_ok(), "at {front}");
    }
    Ok(())
}
