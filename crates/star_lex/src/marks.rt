//! Marks.
ghost use Rattle.std.specs.Prelude.{◌≡◌, ◌≤◌, ℕ, length, take, true, false, IfSome, IfNone};
ghost use Rattle.std.specs.Prelude.{bytes_eq};
ghost use Rattle.std.specs.List.{list_any};
ghost use Rattle.star_lex.specs.Marks.{double_marks, is_mark, IsLongestMark, single_marks};
ghost use Rattle.star_lex.specs.Marks.{triple_marks};

use bz_text::same_bytes;

fn is_single(text: &[u8]) -> bool
    ensures { result ≡ list_any (bytes_eq text.now) single_marks }
{
    same_bytes(text, b"+")
        || same_bytes(text, b"-")
        || same_bytes(text, b"*")
        || same_bytes(text, b"%")
        || same_bytes(text, b"~")
        || same_bytes(text, b"&")
        || same_bytes(text, b"|")
        || same_bytes(text, b"^")
        || same_bytes(text, b".")
        || same_bytes(text, b",")
        || same_bytes(text, b"=")
        || same_bytes(text, b";")
        || same_bytes(text, b":")
        || same_bytes(text, b"(")
        || same_bytes(text, b")")
        || same_bytes(text, b"[")
        || same_bytes(text, b"]")
        || same_bytes(text, b"{")
        || same_bytes(text, b"}")
        || same_bytes(text, b"<")
        || same_bytes(text, b">")
}

fn is_double(text: &[u8]) -> bool
    ensures { result ≡ list_any (bytes_eq text.now) double_marks }
{
    same_bytes(text, b"//")
        || same_bytes(text, b"**")
        || same_bytes(text, b"<<")
        || same_bytes(text, b">>")
        || same_bytes(text, b">=")
        || same_bytes(text, b"<=")
        || same_bytes(text, b"==")
        || same_bytes(text, b"!=")
        || same_bytes(text, b"+=")
        || same_bytes(text, b"-=")
        || same_bytes(text, b"*=")
        || same_bytes(text, b"%=")
        || same_bytes(text, b"&=")
        || same_bytes(text, b"|=")
        || same_bytes(text, b"^=")
}

fn is_triple(text: &[u8]) -> bool
    ensures { result ≡ list_any (bytes_eq text.now) triple_marks }
{
    same_bytes(text, b"//=") || same_bytes(text, b"<<=") || same_bytes(text, b">>=")
}

#[tactic(auto, unfolding(crate::specs::Marks::is_mark))]
fn is_mark(text: &[u8]) -> bool
    ensures { result ≡ is_mark text.now }
{
    is_single(text) || is_double(text) || is_triple(text)
}

/// Whether the first bytes, that many, are a mark.
fn has_mark(text: &[u8], size: usize) -> bool
    ensures marked { result ≡ true → is_mark (take size text.now) ≡ true }
    ensures within { result ≡ true → size ≤ length text.now }
    ensures unmarked { result ≡ false → size ≤ length text.now → is_mark (take size text.now) ≡ false }
{
    size <= text.len() && is_mark(text.split_at(size).0)
}

/// The length of the longest mark at the front.
pub(crate) fn mark_length(text: &[u8]) -> Option<usize>
    ensures found { IfSome result (λ n. IsLongestMark text.now n) }
    ensures absent { IfNone result ((n : ℕ) → IsLongestMark text.now n → ⊥) }
{
    if has_mark(text, 3) {
        Some(3)
    } else if has_mark(text, 2) {
        Some(2)
    } else if has_mark(text, 1) {
        Some(1)
    } else {
        None
    }
}
