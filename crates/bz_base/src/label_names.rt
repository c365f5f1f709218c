//! What the names in a label may be.
ghost use Rattle.std.specs.Prelude.{◌≡◌, ◌<◌, ◌∷◌, [], length, IfNone, IfSome};
ghost use Rattle.std.specs.List.{list_all};
ghost use Rattle.bz_base.specs.Names;
ghost use Rattle.bz_base.specs.Names.{is_apparent_byte, is_canonical_byte, is_label_byte};
ghost use Rattle.bz_base.specs.Paths.{segments_of};

use bz_text::cut_at;

/// Whether the text is an apparent repository name, which may be empty.
pub fn is_apparent(text: &str) -> bool
    ensures { result ≡ Names.is_apparent text.now }
{
    text.as_bytes().iter().all(|b| apparent_byte(*b))
}

/// Whether the text is a canonical repository name, which may be empty.
pub fn is_canonical(text: &str) -> bool
    ensures { result ≡ Names.is_canonical text.now }
{
    text.as_bytes().iter().all(|b| canonical_byte(*b))
}

/// Whether the text is segments joined by `/`.
pub fn is_segmented(text: &str) -> bool
    ensures { result ≡ Names.is_segmented text.now }
{
    has_label_bytes(text) && has_segments(text)
}

/// Whether the text is a package: empty, or segments joined by `/`.
pub fn is_package(text: &str) -> bool
    ensures { result ≡ Names.is_package text.now }
{
    text == "" || is_segmented(text)
}

/// Whether the text is neither empty nor `.` nor `..`.
pub fn is_segment(text: &str) -> bool
    ensures { result ≡ Names.is_segment text.now }
{
    !(text == "" || text == "." || text == "..")
}

fn has_label_bytes(text: &str) -> bool
    ensures { result ≡ list_all is_label_byte text.now }
{
    text.as_bytes().iter().all(|b| label_byte(*b))
}

fn has_segments(text: &str) -> bool
    ensures { result ≡ list_all Names.is_segment (segments_of text.now) }
{
    let mut rest = text;
    'segments: while let Some((segment, more)) = cut_at(rest, '/') {
        if !is_segment(segment) {
            return false;
        }
        rest = more;
    }
    is_segment(rest)
}

fn apparent_byte(byte: u8) -> bool
    ensures { result ≡ is_apparent_byte byte }
{
    byte.is_ascii_alphanumeric() || byte == b'_' || byte == b'.' || byte == b'-'
}

fn canonical_byte(byte: u8) -> bool
    ensures { result ≡ is_canonical_byte byte }
{
    apparent_byte(byte) || byte == b'+'
}

fn label_byte(byte: u8) -> bool
    ensures { result ≡ is_label_byte byte }
{
    !(byte == b':' || byte == b'\\' || byte < 32 || byte == 127)
}
