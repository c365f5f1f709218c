//! SHA-256 digests as texts: FIPS 180-4; RFC 4648, 4 and 8.
ghost use Rattle.std.specs.Prelude.{◌≡◌, IfOk};
ghost use Rattle.sha2.specs.Sha256.{sha256};
ghost use Rattle.bz_base.specs.Digests.{digest_base64_text, digest_hex_text};

use base64::engine::general_purpose::STANDARD;
use bz_text::{Mem, Txt};
use sha2::{Digest, Sha256};
use std::alloc::Global;

/// The digest of some bytes as 64 lower-case hexadecimal digits.
#[tactic(auto, unfolding(crate::specs::Digests::digest_hex_text))]
pub fn digest_hex(alloc: Global, bytes: &[u8]) -> Mem<Txt>
    ensures { IfOk result (λ text. text ≡ digest_hex_text bytes.now) }
{
    let digest = digest_of(bytes);
    Ok(Txt::of_string(hex::encode(alloc, digest)?))
}

/// The digest of some bytes as 44 characters of base64.
#[tactic(auto, unfolding(crate::specs::Digests::digest_base64_text))]
pub fn digest_base64(alloc: Global, bytes: &[u8]) -> Mem<Txt>
    ensures { IfOk result (λ text. text ≡ digest_base64_text bytes.now) }
{
    let digest = digest_of(bytes);
    Ok(Txt::of_string(STANDARD.encode(alloc, &digest)?))
}

fn digest_of(bytes: &[u8]) -> [u8; 32]
    ensures { result ≡ sha256 bytes.now }
{
    Sha256::digest(bytes)
}
