//! Texts beside their tokens, worked out by hand from the lexis.
use bz_text::{Miss, Seq};
use star_lex::{Token, TokenKind, tokens};
use std::alloc::{AllocError, Global};
use std::test::Fail;

fn kind_text(alloc: Global, kind: &TokenKind) -> Result<String, AllocError> {
    match kind {
        TokenKind::Identifier => String::from_str(alloc, "name"),
        TokenKind::Keyword => String::from_str(alloc, "keyword"),
        TokenKind::Reserved => String::from_str(alloc, "reserved"),
        TokenKind::Int(value) => Ok(format!(in alloc; "{value}")?),
        TokenKind::Text(value) => {
            let value = value.as_str();
            Ok(format!(in alloc; "'{value}'")?)
        }
        TokenKind::Mark => String::from_str(alloc, "mark"),
        TokenKind::Newline => String::from_str(alloc, "newline"),
        TokenKind::Indent => String::from_str(alloc, "indent"),
        TokenKind::Outdent => String::from_str(alloc, "outdent"),
    }
}

fn token_text(alloc: Global, tokens: &[Token]) -> Result<String, AllocError> {
    let mut text = String::new(alloc);
    for token in tokens {
        let kind = kind_text(alloc, &token.kind)?;
        let kind = kind.as_str();
        let begin = token.begin;
        let end = token.end;
        let line = token.line;
        let one = format!(in alloc; "{kind} {begin} {end} {line};")?;
        text.push_str(one.as_str())?;
    }
    Ok(text)
}

fn scanned(alloc: Global, text: &str) -> Option<Seq<Token>> {
    match tokens(alloc, text) {
        Ok(tokens) => Some(tokens),
        Err(_) => None,
    }
}

/// The tokens with their places, or the line of the fault.
fn lexed_text(alloc: Global, text: &str) -> Result<String, AllocError> {
    match tokens(alloc, text) {
        Ok(tokens) => token_text(alloc, tokens.items()),
        Err(Miss::Because(fault)) => {
            let line = fault.hint;
            Ok(format!(in alloc; "fault {line}")?)
        }
        Err(Miss::OutOfMemory) => String::from_str(alloc, "no memory"),
    }
}

/// What the first token is.
fn first_kind(alloc: Global, text: &str) -> Result<String, AllocError> {
    match scanned(alloc, text) {
        Some(tokens) => match tokens.items().first() {
            Some(token) => kind_text(alloc, &token.kind),
            None => String::from_str(alloc, "none"),
        },
        None => String::from_str(alloc, "fault"),
    }
}

#[test]
fn tokens_have_kinds_and_places(rt: HostRuntime) -> Result<(), Fail> {
    let alloc = rt.alloc();
    let cases = [
        (
            "x = 1 # c\n",
            "name 0 1 1;mark 2 3 1;1 4 5 1;newline 9 10 1;",
        ),
        ("x", "name 0 1 1;newline 1 1 1;"),
        ("", ""),
        ("  # c", ""),
        ("\t# c\n", ""),
        ("01", "fault 1"),
        ("x\ny?", "fault 2"),
        (
            "if x:\n  y\nz\n",
            "keyword 0 2 1;name 3 4 1;mark 4 5 1;newline 5 6 1;indent 8 8 2;name 8 9 2;newline 9 10 2;outdent 10 10 3;name 10 11 3;newline 11 12 3;",
        ),
        (
            "if x:\n  y",
            "keyword 0 2 1;name 3 4 1;mark 4 5 1;newline 5 6 1;indent 8 8 2;name 8 9 2;newline 9 9 2;outdent 9 9 2;",
        ),
        (
            "(a\n b)\n",
            "mark 0 1 1;name 1 2 1;name 4 5 2;mark 5 6 2;newline 6 7 2;",
        ),
        (
            "(]\nx",
            "mark 0 1 1;mark 1 2 1;newline 2 3 1;name 3 4 2;newline 4 4 2;",
        ),
        ("a \\\n b\n", "name 0 1 1;name 5 6 2;newline 6 7 2;"),
        ("a \\\n\n", "name 0 1 1;newline 4 5 2;"),
        (
            "  \\\nx",
            "indent 4 4 2;name 4 5 2;newline 5 5 2;outdent 5 5 2;",
        ),
        (
            "a\r\nb",
            "name 0 1 1;newline 1 3 1;name 3 4 2;newline 4 4 2;",
        ),
        (
            "a>>=b//=c**=d",
            "name 0 1 1;mark 1 4 1;name 4 5 1;mark 5 8 1;name 8 9 1;mark 9 11 1;mark 11 12 1;name 12 13 1;newline 13 13 1;",
        ),
        ("1.foo", "1 0 1 1;mark 1 2 1;name 2 5 1;newline 5 5 1;"),
        ("'''a\n'''x", "'a\n' 0 8 1;name 8 9 2;newline 9 9 2;"),
    ];
    for (text, want) in cases {
        let got = lexed_text(alloc, text)?;
        assert_eq!(rt; got.as_str(), want, "at {text}");
    }
    Ok(())
}

#[test]
fn words_numbers_and_strings_have_values(rt: HostRuntime) -> Result<(), Fail> {
    let alloc = rt.alloc();
    let cases = [
        ("_a1", "name"),
        ("lambda", "keyword"),
        ("nonlocal", "reserved"),
        ("classes", "name"),
        ("0", "0"),
        ("42", "42"),
        ("0x1F", "31"),
        ("0Xff", "255"),
        ("0o17", "15"),
        ("0O7", "7"),
        ("9223372036854775807", "9223372036854775807"),
        ("''", "''"),
        ("\"a'b\"", "'a'b'"),
        ("\"\"\"a\n\"b\"\"\"", "'a\n\"b'"),
        ("'a\\\nb'", "'ab'"),
        (
            "'\\a\\b\\f\\n\\r\\t\\v\\\\\\'\\\"'",
            "'\x07\x08\x0c\n\r\t\x0b\\'\"'",
        ),
        ("'\\101\\60\\7'", "'A0\x07'"),
        ("'\\1111'", "'I1'"),
        ("'\\x41\\x7E'", "'A~'"),
        ("'\\u00e9\\U0001F600'", "'\u{e9}\u{1f600}'"),
        ("'\u{e9}'", "'\u{e9}'"),
        ("'#'", "'#'"),
        ("r'\\n\\''", "'\\n\\''"),
        ("r'a\\\r\nb'", "'a\\\nb'"),
        ("'''a\r\nb'''", "'a\nb'"),
        ("R'x'", "name"),
    ];
    for (text, want) in cases {
        let got = first_kind(alloc, text)?;
        assert_eq!(rt; got.as_str(), want, "at {text}");
    }
    Ok(())
}

#[test]
fn other_texts_are_faults(rt: HostRuntime) -> Result<(), Fail> {
    let alloc = rt.alloc();
    let cases = [
        "00",
        "0x",
        "0b1",
        "0_",
        "0o8",
        "1a",
        "1.5",
        "9223372036854775808",
        "0x8000000000000000",
        "\tx",
        " \tx",
        "if x:\n  y\n z",
        "\\ x",
        "x \\",
        "!",
        "/",
        "?",
        "$",
        "\x0c",
        "\u{e9}",
        "\u{feff}x",
        "a\rb",
        "a\0",
        "# \0",
        "# a\rb",
        "'a",
        "'a\nb'",
        "'\\8'",
        "'\\400'",
        "'\\200'",
        "'\\x80'",
        "'\\x8'",
        "'\\ud800'",
        "'\\u12'",
        "'\\U00110000'",
        "'\\q'",
        "'a\rb'",
        "r'a",
        "'''a''",
        ") \n\tx",
    ];
    for text in cases {
        let got = first_kind(alloc, text)?;
        assert_eq!(rt; got.as_str(), "fault", "at {text}");
    }
    Ok(())
}

#[test]
fn long_texts_are_scanned(rt: HostRuntime) -> Result<(), Fail> {
    let alloc = rt.alloc();
    let mut line = String::new(alloc);
    for _ in 0..524288 {
        line.push_str("x+")?;
    }
    match scanned(alloc, line.as_str()) {
        Some(tokens) => assert_eq!(rt; tokens.items().len(), 1048577),
        None => assert_eq!(rt; 0, 1),
    }
    let mut lines = String::new(alloc);
    for _ in 0..100000 {
        lines.push_str("x = 'y'\n")?;
    }
    match scanned(alloc, lines.as_str()) {
        Some(tokens) => assert_eq!(rt; tokens.items().len(), 400000),
        None => assert_eq!(rt; 0, 1),
    }
    Ok(())
}
