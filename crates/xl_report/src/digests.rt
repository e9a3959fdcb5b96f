//! Digests of bytes.
ghost use Rattle.std.specs.Prelude.{◌≡◌, IfOk, string_bytes};
ghost use Rattle.spec_text.specs.Text.{digest_of};

use sha2::{Digest, Sha256};
use std::alloc::{AllocError, Global};

/// The SHA-256 of bytes, in lower-case hexadecimal digits.
pub fn digest(alloc: Global, bytes: &[u8]) -> Result<String, AllocError>
    ensures { IfOk result (λ text. string_bytes text ≡ digest_of bytes.now) }
{
    hex::encode(alloc, Sha256::digest(bytes))
}
