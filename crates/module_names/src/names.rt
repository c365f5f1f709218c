//! Tests of names, byte by byte.
ghost use Rattle.std.specs.Prelude.{◌≡◌, ◌==◌, ◌||◌};
ghost use Rattle.std.specs.Char.{is_ascii_alphabetic, is_ascii_alphanumeric, is_ascii_digit};
ghost use Rattle.std.specs.Char.{is_ascii_lowercase};
ghost use Rattle.std.specs.List.{list_all};
ghost use Rattle.bz_base.specs.Names;
ghost use Rattle.bz_base.specs.Names.{begins_and_goes_on, ends, is_apparent_byte, is_joint};
ghost use Rattle.bz_base.specs.Names.{is_module_byte};
ghost use Rattle.module_names.specs.ExportedNames as exported;

/// Whether the text is the name of a module, which is not empty.
pub fn is_module_name(text: &str) -> bool
    ensures { result ≡ Names.is_module_name text.now }
{
    begins_as_module(text.as_bytes()) && ends_as_module(text.as_bytes())
}

/// Whether the text is an apparent name that a file states, or the name of a generated repository.
pub fn is_repository_name(text: &str) -> bool
    ensures { result ≡ Names.is_repository_name text.now }
{
    begins_as_repository(text.as_bytes())
}

/// Whether the text is an identifier.
pub fn is_identifier(text: &str) -> bool
    ensures { result ≡ Names.is_identifier text.now }
{
    begins_as_identifier(text.as_bytes())
}

/// Whether the text is an identifier that a file exports.
pub fn is_exported_name(text: &str) -> bool
    ensures { result ≡ exported.is_exported_name text.now }
{
    is_identifier(text) && !is_private(text.as_bytes())
}

fn is_private(bytes: &[u8]) -> bool
    ensures { result ≡ exported.is_private bytes.now }
{
    match bytes {
        [] => false,
        [first, ..] => *first == b'_',
    }
}

fn begins_as_module(bytes: &[u8]) -> bool
    ensures { result ≡ begins_and_goes_on is_ascii_lowercase is_module_byte bytes.now }
{
    match bytes {
        [] => false,
        [first, ..] => lower_byte(*first) && has_module_bytes(bytes),
    }
}

fn begins_as_repository(bytes: &[u8]) -> bool
    ensures { result ≡ begins_and_goes_on is_ascii_alphabetic is_apparent_byte bytes.now }
{
    match bytes {
        [] => false,
        [first, ..] => alphabetic_byte(*first) && has_apparent_bytes(bytes),
    }
}

fn begins_as_identifier(bytes: &[u8]) -> bool
    ensures { result ≡ begins_and_goes_on (λ b. is_ascii_alphabetic b || b == 95)
        (λ b. is_ascii_alphanumeric b || b == 95) bytes.now }
{
    match bytes {
        [] => false,
        [first, ..] => letter_byte(*first) && has_identifier_bytes(bytes),
    }
}

fn has_module_bytes(bytes: &[u8]) -> bool
    ensures { result ≡ list_all is_module_byte bytes.now }
{
    bytes.iter().all(|b| module_byte(*b))
}

fn has_apparent_bytes(bytes: &[u8]) -> bool
    ensures { result ≡ list_all is_apparent_byte bytes.now }
{
    bytes.iter().all(|b| apparent_byte(*b))
}

fn has_identifier_bytes(bytes: &[u8]) -> bool
    ensures { result ≡ list_all (λ b. is_ascii_alphanumeric b || b == 95) bytes.now }
{
    bytes.iter().all(|b| identifier_byte(*b))
}

fn ends_as_module(bytes: &[u8]) -> bool
    ensures { result ≡ ends (λ b. is_ascii_lowercase b || is_ascii_digit b) bytes.now }
{
    match bytes.last() {
        None => false,
        Some(last) => last_byte(*last),
    }
}

fn last_byte(b: u8) -> bool
    ensures { result ≡ (is_ascii_lowercase b || is_ascii_digit b) }
{
    b.is_ascii_lowercase() || b.is_ascii_digit()
}

fn module_byte(b: u8) -> bool
    ensures { result ≡ is_module_byte b }
{
    b.is_ascii_lowercase() || b.is_ascii_digit() || joint_byte(b)
}

fn apparent_byte(b: u8) -> bool
    ensures { result ≡ is_apparent_byte b }
{
    b.is_ascii_alphanumeric() || joint_byte(b)
}

fn joint_byte(b: u8) -> bool
    ensures { result ≡ is_joint b }
{
    b == b'_' || b == b'.' || b == b'-'
}

fn lower_byte(b: u8) -> bool
    ensures { result ≡ is_ascii_lowercase b }
{
    b.is_ascii_lowercase()
}

fn alphabetic_byte(b: u8) -> bool
    ensures { result ≡ is_ascii_alphabetic b }
{
    b.is_ascii_alphabetic()
}

fn letter_byte(b: u8) -> bool
    ensures { result ≡ (is_ascii_alphabetic b || b == 95) }
{
    b.is_ascii_alphabetic() || b == b'_'
}

fn identifier_byte(b: u8) -> bool
    ensures { result ≡ (is_ascii_alphanumeric b || b == 95) }
{
    b.is_ascii_alphanumeric() || b == b'_'
}
