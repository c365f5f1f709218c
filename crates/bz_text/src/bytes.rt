//! Bytes compared.
ghost use Rattle.std.specs.Prelude.{◌≡◌, bytes_eq};

/// Whether two slices have the same bytes.
pub fn same_bytes(one: &[u8], other: &[u8]) -> bool
    ensures { result ≡ bytes_eq one.now other.now }
{
    one == other
}
