//! A module file in the literal form: ASCII lines that each end with a line feed, with `module` at
//! most once and before every `bazel_dep`.
ghost use Rattle.std.specs.Prelude.{◌≡◌, ◌∷◌, [], ◌<◌, length, nat_lt, Ok, IfNone, IfSome, is_some};
ghost use Rattle.std.specs.Prelude.{false};
ghost use Rattle.std.specs.List.{list_all};
ghost use Rattle.bz_text.specs.Answers.{Gives};
ghost use Rattle.module_file.specs.LiteralLines.{line_of};
ghost use Rattle.module_file.specs.LiteralForms.{end_of, is_in_order, lines_from, literal_lines};
ghost use Rattle.module_file.specs.LiteralForms.{lines_in_order, texts_of, with_line};

use crate::literal_line::{LiteralLine, NotLiteral, read_line};
use bz_base::{May, Miss, Seq, cut_at};
use std::alloc::Global;

/// Reads the lines of a module file.
#[tactic(auto, unfolding(crate::specs::LiteralForms::literal_lines))]
pub fn read_lines(alloc: Global, bytes: &[u8]) -> May<Seq<LiteralLine>, NotLiteral>
    ensures { Gives (literal_lines bytes.now) result }
{
    match ascii_text(bytes) {
        None => Err(Miss::Because(NotLiteral)),
        Some(text) => read_text(alloc, text),
    }
}

/// The bytes as a text, where they are ASCII.
fn ascii_text(bytes: &[u8]) -> Option<&str>
    ensures same { IfSome result (λ text. text.now ≡ bytes.now) }
    ensures ascii { is_some result ≡ list_all (λ b. nat_lt b 128) bytes.now }
{
    if !is_ascii(bytes) {
        return None;
    }
    match str::from_utf8(bytes) {
        Ok(text) => Some(text),
        Err(_) => unreachable!(),
    }
}

fn is_ascii(bytes: &[u8]) -> bool
    ensures { result ≡ list_all (λ b. nat_lt b 128) bytes.now }
{
    bytes.iter().all(|b| *b < 128)
}

fn read_text(alloc: Global, text: &str) -> May<Seq<LiteralLine>, NotLiteral>
    ensures { Gives (lines_in_order (lines_from (Ok []) (texts_of text.now))) result }
{
    let lines = read_each(alloc, text)?;
    if !stand_in_order(lines.items()) {
        return Err(Miss::Because(NotLiteral));
    }
    Ok(lines)
}

/// Reads line by line. Nothing may stand behind the last line feed.
fn read_each(alloc: Global, text: &str) -> May<Seq<LiteralLine>, NotLiteral>
    ensures { Gives (lines_from (Ok []) (texts_of text.now)) result }
{
    let mut lines = Seq::new(alloc);
    let mut rest = text;
    'lines: while let Some((line, more)) = cut_at(rest, '\n') {
        lines = match add_line(alloc, lines, line) {
            Ok(lines) => lines,
            Err(miss) => return Err(miss),
        };
        rest = more;
    }
    end(lines, rest)
}

fn add_line(alloc: Global, lines: Seq<LiteralLine>, text: &str) -> May<Seq<LiteralLine>, NotLiteral>
    ensures { Gives (with_line lines (line_of text.now)) result }
{
    let mut lines = lines;
    match lines.push(read_line(alloc, text)?) {
        Ok(()) => Ok(lines),
        Err(_) => Err(Miss::OutOfMemory),
    }
}

fn end(lines: Seq<LiteralLine>, rest: &str) -> May<Seq<LiteralLine>, NotLiteral>
    ensures { Gives (end_of lines rest.now) result }
{
    if rest.is_empty() {
        Ok(lines)
    } else {
        Err(Miss::Because(NotLiteral))
    }
}

fn stand_in_order(lines: &[LiteralLine]) -> bool
    ensures { result ≡ is_in_order false lines.now }
{
    let mut seen = false;
    for line in lines {
        match line {
            LiteralLine::Empty => {}
            LiteralLine::Module(_) => {
                if seen {
                    return false;
                }
                seen = true;
            }
            LiteralLine::Dep(_) => seen = true,
        }
    }
    true
}
