//! Texts beside their trees, worked out by hand from the grammar.
use crate::tree_text::tree_text;
use bz_text::Miss;
use star_statements::{TreeFault, tree};
use std::alloc::{AllocError, Global};
use std::test::Fail;

/// The statements of a text, each with its line, or its fault.
fn parsed_text(alloc: Global, text: &str) -> Result<String, AllocError> {
    match tree(alloc, text) {
        Ok(file) => tree_text(alloc, &file),
        Err(Miss::Because(TreeFault::Lex { hint })) => format!(in alloc; "lex {hint}"),
        Err(Miss::Because(TreeFault::Syntax { hint })) => format!(in alloc; "syntax {hint}"),
        Err(Miss::OutOfMemory) => String::from_str(alloc, "no memory"),
    }
}

#[test]
fn expressions_give_their_trees(rt: HostRuntime) -> Result<(), Fail> {
    let alloc = rt.alloc();
    let cases = [
        ("", ""),
        ("\\\n\n", ""),
        ("x", "@1 x;"),
        ("x = 1 + 2 * 3", "@1 (= x (+ 1 (* 2 3)));"),
        ("x = 1 - 2 - 3", "@1 (= x (- (- 1 2) 3));"),
        ("-a * b", "@1 (* (- a) b);"),
        ("- -a.b", "@1 (- (- (attr a b)));"),
        ("not a == b", "@1 (not (== a b));"),
        ("not a or b and c", "@1 (or (not a) (and b c));"),
        ("a not in b", "@1 (notin a b);"),
        ("a | b ^ c & d << e", "@1 (| a (^ b (& c (<< d e))));"),
        ("a if b else c if d else e", "@1 (cond b a (cond d c e));"),
        (
            "lambda x, y = 1, *z, **w: x, 2",
            "@1 (tuple (lambda@1 x (y 1) *z **w x) 2);",
        ),
        ("()", "@1 (tuple);"),
        ("(1)", "@1 (round 1);"),
        ("(1,)", "@1 (tuple 1);"),
        ("(1, 2)", "@1 (tuple 1 2);"),
        ("[1, 2,]", "@1 (list 1 2);"),
        ("{1: 2, 'a': 'b',}", "@1 (dict 1:2 'a':'b');"),
        (
            "[a for a, b in c if d for e in f]",
            "@1 (comp a (for (tuple a b) c) (if d) (for e f));",
        ),
        ("{a: b for a in c}", "@1 (dictcomp a:b (for a c));"),
        (
            "a.b(c, d = e, *f, **g,)[1]",
            "@1 (index (call (attr a b) c (d e) (* f) (** g)) 1);",
        ),
        ("x[1, 2]", "@1 (index x (tuple 1 2));"),
        ("x[:]", "@1 (slice x _ _ _);"),
        ("x[1::2]", "@1 (slice x 1 _ 2);"),
        ("x[:2:]", "@1 (slice x _ 2 _);"),
        (
            "a, (b, [c, d[0]]) = e",
            "@1 (= (tuple a (tuple b (list c (index d 0)))) e);",
        ),
        ("(x) = 1", "@1 (= (round x) 1);"),
        ("(x,) = y", "@1 (= (tuple x) y);"),
    ];
    for (text, want) in cases {
        let got = parsed_text(alloc, text)?;
        assert_eq!(rt; got.as_str(), want, "at {text}");
    }
    Ok(())
}

#[test]
fn statements_give_their_trees(rt: HostRuntime) -> Result<(), Fail> {
    let alloc = rt.alloc();
    let cases = [
        ("x[0] += 1", "@1 augment (+ (index x 0) 1);"),
        (
            "(x)[0] >>= 1, 2",
            "@1 augment (>> (index (round x) 0) (tuple 1 2));",
        ),
        ("pass; x;\ny", "@1 pass;@1 x;@2 y;"),
        ("load('a', 'b', c = 'd',)", "@1 (load 'a' b=b@1 c=d@1);"),
        (
            "if a:\n  b\nelif c: d\nelse:\n  e",
            "@1 (if a {@2 b;} {@3 (if c {@3 d;} {@5 e;});});",
        ),
        (
            "if a:\n  if b: pass\nelse: c",
            "@1 (if a {@2 (if b {@2 pass;} {});} {@3 c;});",
        ),
        (
            "for x, y in z, w:\n  break\n  continue",
            "@1 (for (tuple x y) (tuple z w) {@2 break;@3 continue;});",
        ),
        (
            "def f(a, b = 1, *, c, d = 2, **e):\n  return\n  return a, b",
            "@1 (def f a (b 1) * c (d 2) **e {@2 return;@3 (return (tuple a b));});",
        ),
        ("def f(*): pass", "@1 (def f * {@1 pass;});"),
        (
            "\ndef f(a,\n      b,): return",
            "@2 (def f a b {@3 return;});",
        ),
    ];
    for (text, want) in cases {
        let got = parsed_text(alloc, text)?;
        assert_eq!(rt; got.as_str(), want, "at {text}");
    }
    Ok(())
}

#[test]
fn other_expressions_have_no_tree(rt: HostRuntime) -> Result<(), Fail> {
    let alloc = rt.alloc();
    let cases = [
        ("x = 1 < 2 < 3", 1),
        ("x[1,]", 1),
        ("f(a = 1, 2)", 1),
        ("f(a = 1, a = 2)", 1),
        ("f(*a, *b)", 1),
        ("f(*a, b = 1)", 1),
        ("f(a for a in b)", 1),
        ("'a' 'b'", 1),
        ("def f(a = 1, b): pass", 1),
        ("lambda x,: x", 1),
        ("lambda a, a: 1", 1),
        ("a if b", 1),
        ("(1", 1),
        ("1)", 1),
        ("[1 2]", 1),
        ("{1}", 1),
        ("{1: 2, 3}", 1),
        ("a.1", 1),
        ("a..b", 1),
        ("not", 1),
        ("a not b", 1),
        ("x y", 1),
        ("x\ny = (1\n", 3),
        ("f(\n1 2)", 2),
        ("\nx = lambda", 2),
    ];
    for (text, line) in cases {
        let got = parsed_text(alloc, text)?;
        let want = format!(in alloc; "syntax {line}")?;
        assert_eq!(rt; got.as_str(), want.as_str(), "at {text}");
    }
    Ok(())
}

#[test]
fn other_statements_have_no_tree(rt: HostRuntime) -> Result<(), Fail> {
    let alloc = rt.alloc();
    let cases = [
        ("x = 1,", 1),
        ("x, = y", 1),
        ("return", 1),
        ("break", 1),
        ("if a: break", 1),
        ("for a in b:\n  def f(): break", 2),
        ("if a: load('b', 'c')", 1),
        ("def f(): load('b', 'c')", 1),
        ("if = 1", 1),
        ("(x) += 1", 1),
        ("(x[0]) += 1", 1),
        ("x, y += 1", 1),
        ("x.y = 1", 1),
        ("() = 1", 1),
        ("[] = 1", 1),
        ("x[1:2] = 3", 1),
        ("for a in b,: pass", 1),
        ("for x.y in z: pass", 1),
        ("def f(a, a): pass", 1),
        ("def f(**a, b): pass", 1),
        ("def f(*a, *b): pass", 1),
        ("if a: if b: pass", 1),
        ("else: pass", 1),
        ("class x: pass", 1),
        ("x = import", 1),
        ("  x", 1),
        (";", 1),
        ("x;;y", 1),
        ("if a:", 1),
        ("x\nif a:\n", 2),
        ("x\n\ndef f():\n\n# c\n", 3),
        ("if a:\n  if b:\n\n", 4),
    ];
    for (text, line) in cases {
        let got = parsed_text(alloc, text)?;
        let want = format!(in alloc; "syntax {line}")?;
        assert_eq!(rt; got.as_str(), want.as_str(), "at {text}");
    }
    Ok(())
}

#[test]
fn a_text_without_tokens_has_no_tree(rt: HostRuntime) -> Result<(), Fail> {
    let got = parsed_text(rt.alloc(), "x\n01")?;
    assert_eq!(rt; got.as_str(), "lex 2");
    Ok(())
}

/// A text of these parts, the first and the last so many times.
pub(crate) fn repeated(
    alloc: Global,
    front: &str,
    times: u64,
    middle: &str,
    back: &str,
) -> Result<String, AllocError> {
    let mut text = String::new(alloc);
    for _ in 0..times {
        text.push_str(front)?;
    }
    text.push_str(middle)?;
    for _ in 0..times {
        text.push_str(back)?;
    }
    Ok(text)
}

/// Whether a text of these parts has a tree.
fn is_read(
    alloc: Global,
    front: &str,
    times: u64,
    middle: &str,
    back: &str,
) -> Result<bool, AllocError> {
    let text = repeated(alloc, front, times, middle, back)?;
    Ok(tree(alloc, text.as_str()).is_ok())
}

#[test]
fn trees_are_at_most_128_deep(rt: HostRuntime) -> Result<(), Fail> {
    let alloc = rt.alloc();
    let cases = [
        ("(", 126, "x", ")", true),
        ("(", 127, "x", ")", false),
        ("[", 126, "x", "]", true),
        ("[", 127, "x", "]", false),
        ("x+", 126, "x", "", true),
        ("x+", 127, "x", "", false),
        ("", 126, "x", ".a", true),
        ("", 127, "x", ".a", false),
        ("not ", 126, "x", "", true),
        ("not ", 127, "x", "", false),
        ("(", 100000, "", "", false),
        ("x+", 100000, "x", "", false),
    ];
    for (front, times, middle, back, want) in cases {
        let got = is_read(alloc, front, times, middle, back)?;
        assert_eq!(rt; got, want, "at {times} times {front}{back}");
    }
    Ok(())
}

/// Whether suites nested so deep have a tree.
fn has_suites(alloc: Global, times: u64) -> Result<bool, AllocError> {
    let mut text = String::new(alloc);
    let mut indentation = String::new(alloc);
    for _ in 0..times {
        text.push_str(indentation.as_str())?;
        text.push_str("if x:\n")?;
        indentation.push_str(" ")?;
    }
    text.push_str(indentation.as_str())?;
    text.push_str("x")?;
    Ok(tree(alloc, text.as_str()).is_ok())
}

#[test]
fn suites_are_at_most_128_deep(rt: HostRuntime) -> Result<(), Fail> {
    let alloc = rt.alloc();
    assert!(rt; has_suites(alloc, 126)?);
    assert!(rt; !has_suites(alloc, 127)?);
    Ok(())
}

#[test]
fn work_is_linear_in_the_text(rt: HostRuntime) -> Result<(), Fail> {
    let alloc = rt.alloc();
    let mut lines = String::new(alloc);
    for _ in 0..2000 {
        lines.push_str("x = [1, 2]\n")?;
    }
    assert!(rt; tree(alloc, lines.as_str()).is_ok());
    let mut call = String::from_str(alloc, "f(")?;
    for at in 0..2000 {
        let arg = format!(in alloc; "a{at} = 1,")?;
        call.push_str(arg.as_str())?;
    }
    call.push_str(")")?;
    assert!(rt; tree(alloc, call.as_str()).is_ok());
    Ok(())
}
