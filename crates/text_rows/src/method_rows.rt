//! String methods, by their rows.
use crate::calls::{Arg, Row, first_wrong};
use std::process::Abort;
use std::test::Fail;

const CASES: [Row<'static>; 28] = [
    Row {
        method: "lower",
        text: "AbCÄ",
        args: &[],
        gives: "\"abcÄ\"",
    },
    Row {
        method: "upper",
        text: "abzé",
        args: &[],
        gives: "\"ABZé\"",
    },
    Row {
        method: "title",
        text: "hello wORLD-x1y",
        args: &[],
        gives: "\"Hello World-X1Y\"",
    },
    Row {
        method: "capitalize",
        text: "hELLO",
        args: &[],
        gives: "\"Hello\"",
    },
    Row {
        method: "capitalize",
        text: "",
        args: &[],
        gives: "\"\"",
    },
    Row {
        method: "isalpha",
        text: "abc",
        args: &[],
        gives: "True",
    },
    Row {
        method: "isalpha",
        text: "",
        args: &[],
        gives: "False",
    },
    Row {
        method: "isalpha",
        text: "é",
        args: &[],
        gives: "False",
    },
    Row {
        method: "isalnum",
        text: "a1",
        args: &[],
        gives: "True",
    },
    Row {
        method: "isdigit",
        text: "12",
        args: &[],
        gives: "True",
    },
    Row {
        method: "isdigit",
        text: "1a",
        args: &[],
        gives: "False",
    },
    Row {
        method: "isspace",
        text: " \t\n",
        args: &[],
        gives: "True",
    },
    Row {
        method: "islower",
        text: "a1b",
        args: &[],
        gives: "True",
    },
    Row {
        method: "islower",
        text: "1",
        args: &[],
        gives: "False",
    },
    Row {
        method: "isupper",
        text: "A-B",
        args: &[],
        gives: "True",
    },
    Row {
        method: "istitle",
        text: "Hello World",
        args: &[],
        gives: "True",
    },
    Row {
        method: "istitle",
        text: "Hello world",
        args: &[],
        gives: "False",
    },
    Row {
        method: "strip",
        text: "  a b ",
        args: &[],
        gives: "\"a b\"",
    },
    Row {
        method: "lstrip",
        text: "xxabx",
        args: &[Arg::Text("x")],
        gives: "\"abx\"",
    },
    Row {
        method: "rstrip",
        text: "xxabx",
        args: &[Arg::Text("xb")],
        gives: "\"xxa\"",
    },
    Row {
        method: "strip",
        text: "abcba",
        args: &[Arg::Text("ab")],
        gives: "\"c\"",
    },
    Row {
        method: "strip",
        text: " ",
        args: &[],
        gives: "\"\"",
    },
    Row {
        method: "strip",
        text: "a",
        args: &[Arg::Number(1)],
        gives: "!type",
    },
    Row {
        method: "strip",
        text: "éaé",
        args: &[Arg::Text("é")],
        gives: "\"a\"",
    },
    Row {
        method: "removeprefix",
        text: "abc",
        args: &[Arg::Text("ab")],
        gives: "\"c\"",
    },
    Row {
        method: "removeprefix",
        text: "abc",
        args: &[Arg::Text("b")],
        gives: "\"abc\"",
    },
    Row {
        method: "removesuffix",
        text: "abc",
        args: &[Arg::Text("bc")],
        gives: "\"a\"",
    },
    Row {
        method: "removesuffix",
        text: "abc",
        args: &[Arg::Text("")],
        gives: "\"abc\"",
    },
];

const CUTS: [Row<'static>; 22] = [
    Row {
        method: "partition",
        text: "a.b.c",
        args: &[Arg::Text(".")],
        gives: "(\"a\", \".\", \"b.c\")",
    },
    Row {
        method: "rpartition",
        text: "a.b.c",
        args: &[Arg::Text(".")],
        gives: "(\"a.b\", \".\", \"c\")",
    },
    Row {
        method: "partition",
        text: "abc",
        args: &[Arg::Text(".")],
        gives: "(\"abc\", \"\", \"\")",
    },
    Row {
        method: "rpartition",
        text: "abc",
        args: &[Arg::Text(".")],
        gives: "(\"\", \"\", \"abc\")",
    },
    Row {
        method: "partition",
        text: "a",
        args: &[Arg::Text("")],
        gives: "!value",
    },
    Row {
        method: "split",
        text: "a,b,,c",
        args: &[Arg::Text(",")],
        gives: "[\"a\", \"b\", \"\", \"c\"]",
    },
    Row {
        method: "split",
        text: " a  b ",
        args: &[],
        gives: "[\"a\", \"b\"]",
    },
    Row {
        method: "split",
        text: "",
        args: &[],
        gives: "[]",
    },
    Row {
        method: "split",
        text: "",
        args: &[Arg::Text(",")],
        gives: "[\"\"]",
    },
    Row {
        method: "split",
        text: "a,b,c",
        args: &[Arg::Text(","), Arg::Number(1)],
        gives: "[\"a\", \"b,c\"]",
    },
    Row {
        method: "split",
        text: "a  b c ",
        args: &[Arg::None, Arg::Number(1)],
        gives: "[\"a\", \"b c \"]",
    },
    Row {
        method: "split",
        text: "a",
        args: &[Arg::Text("")],
        gives: "!value",
    },
    Row {
        method: "split",
        text: "a",
        args: &[Arg::Text(""), Arg::Text("x")],
        gives: "!value",
    },
    Row {
        method: "split",
        text: "a",
        args: &[Arg::Text(","), Arg::Text("x")],
        gives: "!type",
    },
    Row {
        method: "split",
        text: "a",
        args: &[Arg::Number(1)],
        gives: "!type",
    },
    Row {
        method: "rsplit",
        text: "a,b,c",
        args: &[Arg::Text(","), Arg::Number(1)],
        gives: "[\"a,b\", \"c\"]",
    },
    Row {
        method: "rsplit",
        text: " a  b c",
        args: &[Arg::None, Arg::Number(1)],
        gives: "[\" a  b\", \"c\"]",
    },
    Row {
        method: "rsplit",
        text: " a b ",
        args: &[],
        gives: "[\"a\", \"b\"]",
    },
    Row {
        method: "rsplit",
        text: "a,b",
        args: &[Arg::Text(","), Arg::Number(-1)],
        gives: "[\"a\", \"b\"]",
    },
    Row {
        method: "join",
        text: ",",
        args: &[Arg::Pair("a", "b")],
        gives: "\"a,b\"",
    },
    Row {
        method: "join",
        text: "",
        args: &[Arg::Number(1)],
        gives: "!type",
    },
    Row {
        method: "join",
        text: ",",
        args: &[Arg::Text("ab")],
        gives: "!type",
    },
];

const POSITIONS: [Row<'static>; 29] = [
    Row {
        method: "find",
        text: "abcabc",
        args: &[Arg::Text("c")],
        gives: "2",
    },
    Row {
        method: "find",
        text: "abc",
        args: &[Arg::Text("d")],
        gives: "-1",
    },
    Row {
        method: "rfind",
        text: "abcabc",
        args: &[Arg::Text("c")],
        gives: "5",
    },
    Row {
        method: "find",
        text: "ééa",
        args: &[Arg::Text("a")],
        gives: "2",
    },
    Row {
        method: "find",
        text: "",
        args: &[Arg::Text(""), Arg::Number(5)],
        gives: "0",
    },
    Row {
        method: "find",
        text: "abc",
        args: &[Arg::Text(""), Arg::Number(9)],
        gives: "3",
    },
    Row {
        method: "find",
        text: "abcabc",
        args: &[Arg::Text("c"), Arg::Number(-2)],
        gives: "5",
    },
    Row {
        method: "find",
        text: "abc",
        args: &[Arg::Text("c"), Arg::Number(0), Arg::Number(-1)],
        gives: "-1",
    },
    Row {
        method: "rfind",
        text: "abc",
        args: &[Arg::Text("")],
        gives: "3",
    },
    Row {
        method: "find",
        text: "abc",
        args: &[Arg::Number(1)],
        gives: "!type",
    },
    Row {
        method: "find",
        text: "abc",
        args: &[Arg::Text("a"), Arg::Text("b")],
        gives: "!type",
    },
    Row {
        method: "index",
        text: "abc",
        args: &[Arg::Text("b")],
        gives: "1",
    },
    Row {
        method: "index",
        text: "abc",
        args: &[Arg::Text("d")],
        gives: "!value",
    },
    Row {
        method: "rindex",
        text: "abcb",
        args: &[Arg::Text("b")],
        gives: "3",
    },
    Row {
        method: "rindex",
        text: "abc",
        args: &[Arg::Text("d")],
        gives: "!value",
    },
    Row {
        method: "find",
        text: "a",
        args: &[],
        gives: "!arity",
    },
    Row {
        method: "find",
        text: "a",
        args: &[
            Arg::Text("a"),
            Arg::Number(0),
            Arg::Number(1),
            Arg::Number(2),
        ],
        gives: "!arity",
    },
    Row {
        method: "count",
        text: "aaaa",
        args: &[Arg::Text("aa")],
        gives: "2",
    },
    Row {
        method: "count",
        text: "abc",
        args: &[Arg::Text("")],
        gives: "4",
    },
    Row {
        method: "count",
        text: "abc",
        args: &[Arg::Text(""), Arg::Number(1)],
        gives: "3",
    },
    Row {
        method: "count",
        text: "abab",
        args: &[Arg::Text("b"), Arg::Number(0), Arg::Number(-1)],
        gives: "1",
    },
    Row {
        method: "startswith",
        text: "abc",
        args: &[Arg::Text("ab")],
        gives: "True",
    },
    Row {
        method: "startswith",
        text: "abc",
        args: &[Arg::Text("b")],
        gives: "False",
    },
    Row {
        method: "startswith",
        text: "abc",
        args: &[Arg::Pair("x", "a")],
        gives: "True",
    },
    Row {
        method: "endswith",
        text: "abc",
        args: &[Arg::Pair("x", "bc")],
        gives: "True",
    },
    Row {
        method: "startswith",
        text: "ab",
        args: &[Arg::Text(""), Arg::Number(9)],
        gives: "True",
    },
    Row {
        method: "startswith",
        text: "abc",
        args: &[Arg::Text("b"), Arg::Number(1)],
        gives: "True",
    },
    Row {
        method: "endswith",
        text: "abc",
        args: &[Arg::Text("b"), Arg::Number(0), Arg::Number(2)],
        gives: "True",
    },
    Row {
        method: "startswith",
        text: "abc",
        args: &[Arg::Number(1)],
        gives: "!type",
    },
];

const CHANGES: [Row<'static>; 15] = [
    Row {
        method: "elems",
        text: "aé",
        args: &[],
        gives: "[\"a\", \"é\"]",
    },
    Row {
        method: "lower",
        text: "a",
        args: &[Arg::Number(1)],
        gives: "!arity",
    },
    Row {
        method: "nothing",
        text: "a",
        args: &[],
        gives: "!attr",
    },
    Row {
        method: "replace",
        text: "banana",
        args: &[Arg::Text("a"), Arg::Text("o")],
        gives: "\"bonono\"",
    },
    Row {
        method: "replace",
        text: "banana",
        args: &[Arg::Text("a"), Arg::Text("o"), Arg::Number(2)],
        gives: "\"bonona\"",
    },
    Row {
        method: "replace",
        text: "abc",
        args: &[Arg::Text(""), Arg::Text("-")],
        gives: "\"-a-b-c-\"",
    },
    Row {
        method: "replace",
        text: "abc",
        args: &[Arg::Text(""), Arg::Text("-"), Arg::Number(2)],
        gives: "\"-a-bc\"",
    },
    Row {
        method: "replace",
        text: "abc",
        args: &[Arg::Text("b"), Arg::Text("")],
        gives: "\"ac\"",
    },
    Row {
        method: "replace",
        text: "abc",
        args: &[Arg::Text("b"), Arg::Text("x"), Arg::Number(0)],
        gives: "\"abc\"",
    },
    Row {
        method: "replace",
        text: "abc",
        args: &[Arg::Text("b")],
        gives: "!arity",
    },
    Row {
        method: "splitlines",
        text: "a\nb\r\nc\rd",
        args: &[],
        gives: "[\"a\", \"b\", \"c\", \"d\"]",
    },
    Row {
        method: "splitlines",
        text: "a\n\n",
        args: &[Arg::Flag(true)],
        gives: "[\"a\\n\", \"\\n\"]",
    },
    Row {
        method: "splitlines",
        text: "",
        args: &[],
        gives: "[]",
    },
    Row {
        method: "splitlines",
        text: "a\r\n",
        args: &[Arg::Flag(true)],
        gives: "[\"a\\r\\n\"]",
    },
    Row {
        method: "splitlines",
        text: "a",
        args: &[Arg::Number(1)],
        gives: "!type",
    },
];

const FILLED: [Row<'static>; 13] = [
    Row {
        method: "%",
        text: "%s-%r",
        args: &[Arg::Pair("x", "x")],
        gives: "\"x-\\\"x\\\"\"",
    },
    Row {
        method: "%",
        text: "%d%%",
        args: &[Arg::Number(-5)],
        gives: "\"-5%\"",
    },
    Row {
        method: "%",
        text: "%x %X",
        args: &[Arg::Number(1)],
        gives: "!value",
    },
    Row {
        method: "%",
        text: "%x",
        args: &[Arg::Number(-255)],
        gives: "\"-ff\"",
    },
    Row {
        method: "%",
        text: "%X",
        args: &[Arg::Number(255)],
        gives: "\"FF\"",
    },
    Row {
        method: "%",
        text: "%o",
        args: &[Arg::Number(8)],
        gives: "\"10\"",
    },
    Row {
        method: "%",
        text: "%d",
        args: &[Arg::Flag(true)],
        gives: "!type",
    },
    Row {
        method: "%",
        text: "%d",
        args: &[Arg::Text("1")],
        gives: "!type",
    },
    Row {
        method: "%",
        text: "%",
        args: &[Arg::Number(1)],
        gives: "!value",
    },
    Row {
        method: "%",
        text: "%q",
        args: &[Arg::Number(1)],
        gives: "!value",
    },
    Row {
        method: "%",
        text: "x",
        args: &[Arg::Number(1)],
        gives: "!value",
    },
    Row {
        method: "%",
        text: "%s",
        args: &[Arg::None],
        gives: "\"None\"",
    },
    Row {
        method: "%",
        text: "%s",
        args: &[Arg::Pair("a", "b")],
        gives: "!value",
    },
];

#[test]
fn case_and_strip(rt: HostRuntime) -> Result<(), Fail> {
    let wrong = first_wrong(rt.alloc(), &CASES)?;
    assert!(rt; wrong.is_none());
    Ok(())
}

#[test]
fn pieces_and_joins(rt: HostRuntime) -> Result<(), Fail> {
    let wrong = first_wrong(rt.alloc(), &CUTS)?;
    assert!(rt; wrong.is_none());
    Ok(())
}

#[test]
fn indexes_count_characters(rt: HostRuntime) -> Result<(), Fail> {
    let wrong = first_wrong(rt.alloc(), &POSITIONS)?;
    assert!(rt; wrong.is_none());
    Ok(())
}

#[test]
fn lines_and_replacements(rt: HostRuntime) -> Result<(), Fail> {
    let wrong = first_wrong(rt.alloc(), &CHANGES)?;
    assert!(rt; wrong.is_none());
    Ok(())
}

#[test]
fn patterns_are_filled(rt: HostRuntime) -> Result<(), Fail> {
    let wrong = first_wrong(rt.alloc(), &FILLED)?;
    assert!(rt; wrong.is_none());
    Ok(())
}
