//! Bytes as a word of hexadecimal digits.
ghost use Rattle.std.specs.Prelude.{◌≡◌, ◌≢◌, None, IfOk, OnOk};
ghost use Rattle.hex.specs.declared.error.FromHexError.TheVariants.{OutOfMemory};
ghost use Rattle.vi_words.specs.Numbers.{hex_of};

use hex::FromHexError;
use std::alloc::{AllocError, Global};
use vi_bytes::Bytes;

/// The bytes that a word spells by an even number of hexadecimal digits in either case, at least two;
/// `None` where it spells none. An error means out of memory.
pub fn hex_bytes(alloc: Global, word: &[u8]) -> Result<Option<Bytes>, AllocError>
    ensures { IfOk result (λ bytes. bytes ≡ hex_of word.now) }
{
    if word.is_empty() {
        return Ok(None);
    }
    match hex::decode(alloc, word) {
        Ok(bytes) => Ok(Some(Bytes::from_vec(bytes))),
        Err(fault) => no_bytes(fault),
    }
}

/// What comes of digits that spell no bytes: an error where memory was wanting.
fn no_bytes(fault: FromHexError) -> Result<Option<Bytes>, AllocError>
    ensures none { IfOk result (λ bytes. bytes ≡ None) }
    ensures refused { OnOk result (fault ≢ OutOfMemory) }
{
    match fault {
        FromHexError::OutOfMemory => Err(AllocError),
        FromHexError::InvalidHexCharacter { .. } => Ok(None),
        FromHexError::OddLength | FromHexError::InvalidStringLength => Ok(None),
    }
}
