//! Strings as literals spell them.
ghost use Rattle.std.specs.Prelude.{◌≡◌, ◌<◌, ◌++◌, IfOk, OnOk, string_bytes};
ghost use Rattle.std.specs.List.{flat_map};
ghost use Rattle.std.specs.Str.{chars};
ghost use Rattle.star_print.specs.Escapes as spec;
ghost use Rattle.star_print.specs.Escapes.{by_number, escaped};

use bz_text::{Mem, Txt};
use std::alloc::Global;

/// A text in double quotes.
pub fn quoted(alloc: Global, text: &str) -> Mem<Txt>
    ensures { IfOk result (λ whole. whole ≡ spec.quoted text.now) }
{
    let mut whole = String::from_str(alloc, "\"")?;
    push_all(&mut whole, scalars(alloc, text)?.as_slice())?;
    whole.push_str("\"")?;
    Ok(Txt::of_string(whole))
}

/// The characters of a text.
pub fn scalars(alloc: Global, text: &str) -> Mem<Vec<char>>
    ensures { IfOk result (λ scalars. scalars.items ≡ chars text.now) }
{
    Ok(text.chars().collect(alloc)?)
}

fn push_all(whole: &mut String, scalars: &[char]) -> Mem<()>
    ensures { OnOk result (string_bytes whole.new
        ≡ string_bytes whole.old ++ flat_map escaped scalars.now) }
{
    'spelling: for c in scalars {
        push_escaped(whole, *c)?;
    }
    Ok(())
}

#[tactic(auto, unfolding(crate::specs::Escapes::escaped))]
fn push_escaped(text: &mut String, c: char) -> Mem<()>
    ensures { OnOk result (string_bytes text.new ≡ string_bytes text.old ++ escaped c) }
{
    match c {
        '"' => text.push_str("\\\"")?,
        '\\' => text.push_str("\\\\")?,
        '\n' => text.push_str("\\n")?,
        '\r' => text.push_str("\\r")?,
        '\t' => text.push_str("\\t")?,
        c if is_control(c) => push_number(text, c)?,
        c => text.push(c)?,
    }
    Ok(())
}

fn is_control(c: char) -> bool
    ensures { result ≡ spec.is_control c }
{
    c < ' ' || c == '\u{7f}'
}

fn push_number(text: &mut String, c: char) -> Mem<()>
    requires { c < 128 }
    ensures { OnOk result (string_bytes text.new ≡ string_bytes text.old ++ by_number c) }
{
    let code = c as u32;
    text.push_str("\\x")?;
    text.push(hex_digit(code / 16))?;
    text.push(hex_digit(code % 16))?;
    Ok(())
}

fn hex_digit(value: u32) -> char
    requires { value < 16 }
    ensures value { result ≡ spec.hex_digit value }
    ensures ascii { result < 128 }
{
    if value < 10 {
        (b'0' + value as u8) as char
    } else {
        (b'a' + (value as u8 - 10)) as char
    }
}
