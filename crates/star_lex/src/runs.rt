//! Longest runs.
ghost use Rattle.std.specs.Prelude.{◌≡◌};
ghost use Rattle.star_lex.specs.Runs.{belongs, is_blank_class, is_word_class, IsRun};

use crate::bytes::{Class, class_of, is_visible};

/// What the bytes of a run are.
#[derive(Clone, Copy, Debug, PartialEq, Eq)]
pub enum Within {
    Blank,
    Word,
    RestOfLine,
}

fn is_blank(class: Class) -> bool
    ensures { result ≡ is_blank_class class }
{
    match class {
        Class::Space => true,
        _ => false,
    }
}

fn is_word(class: Class) -> bool
    ensures { result ≡ is_word_class class }
{
    match class {
        Class::Letter | Class::Digit => true,
        _ => false,
    }
}

fn belongs(within: Within, byte: u8) -> bool
    ensures { result ≡ belongs within byte }
{
    match within {
        Within::Blank => is_blank(class_of(byte)),
        Within::Word => is_word(class_of(byte)),
        Within::RestOfLine => is_visible(byte) && !(byte == b'\n'),
    }
}

/// How many bytes at the front belong to the run.
pub(crate) fn run_length(text: &[u8], within: Within) -> usize
    ensures { IsRun (belongs within) text.now result }
{
    let mut length = 0;
    'run: while length < text.len() && belongs(within, text[length]) {
        length += 1;
    }
    length
}
