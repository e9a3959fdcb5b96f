ghost use Rattle.std.specs.Prelude.{◌≡◌, IfOk};
ghost use Rattle.spec_script.specs.Words as grammar;
ghost use Rattle.spec_script.specs.Commands as commands;

use hex::FromHexError;
use std::alloc::{AllocError, Global};
use xl_props::Bytes;

const MAX_COLOUR_BYTES: usize = 768;

fn hex_bytes(alloc: Global, digits: &[u8]) -> Result<Option<Bytes>, AllocError>
    ensures { IfOk result (λ bytes. bytes ≡ grammar.hex_bytes digits.now) }
{
    match hex::decode(alloc, digits) {
        Ok(bytes) => Ok(Some(Bytes::from_vec(bytes))),
        Err(FromHexError::OutOfMemory) => Err(AllocError),
        Err(FromHexError::InvalidHexCharacter { .. }) => Ok(None),
        Err(FromHexError::OddLength) => Ok(None),
        Err(FromHexError::InvalidStringLength) => Ok(None),
    }
}

/// Bytes in hexadecimal digits of either case, or a minus for none.
pub fn hex(alloc: Global, word: &[u8]) -> Result<Option<Bytes>, AllocError>
    ensures { IfOk result (λ bytes. bytes ≡ grammar.hex word.now) }
{
    match word {
        [] => Ok(None),
        [b'-'] => Ok(Some(Bytes::new(alloc))),
        _ => hex_bytes(alloc, word),
    }
}

/// Whether there are 1 to 256 colours of three bytes.
pub fn are_colours(bytes: &Bytes) -> bool
    ensures { result ≡ commands.are_colours bytes.now }
{
    let len = bytes.len();
    len >= 3 && len <= MAX_COLOUR_BYTES && len % 3 == 0
}
