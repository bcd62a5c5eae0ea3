//! A page of the memory.
ghost use Rattle.std.specs.Prelude.{◌≡◌, ◌+◌, ◌≤◌, length, take, drop, replicate, IfOk};
ghost use Rattle.vi_history.specs.Replies.{written};
ghost use Rattle.vi_history.specs.Start.{zero_page};

use std::alloc::{AllocError, Global};
use std::marker::Model;
use vi_bytes::Bytes;

const SIZE: usize = 4096;

/// A page of 4096 bytes.
#[derive(Drop)]
pub struct Page {
    bytes: Vec<u8>,
}

impl Model for Page {
    ghost use Rattle.std.specs.Prelude.{◌≡◌, List, ℕ, length};

    ghost Value = { List ℕ };

    ghost view = { λ p. p.bytes.items };

    ghost invariant = { λ p. length p.bytes.items ≡ 4096 };
}

impl Page {
    /// A page of zeros. An error means out of memory.
    pub fn zero(alloc: Global) -> Result<Page, AllocError>
        ensures { IfOk result (λ p. p ≡ zero_page) }
    {
        let bytes = zeros(alloc, SIZE)?;
        Ok(Page { bytes })
    }

    /// A copy of `len` bytes from an offset on. An error means out of memory.
    pub fn read(&self, alloc: Global, offset: usize, len: usize) -> Result<Bytes, AllocError>
        requires { offset + len ≤ 4096 }
        ensures bytes { IfOk result (λ b. b ≡ take len (drop offset self.now)) }
        ensures size { IfOk result (λ b. length b ≡ len) }
    {
        Bytes::of(alloc, &self.bytes[offset..offset + len])
    }

    /// Puts these bytes in the place of as many from an offset on.
    pub fn write(&mut self, offset: usize, bytes: &[u8])
        requires { offset + length bytes.now ≤ 4096 }
        ensures { self.new ≡ written self.old offset bytes.now }
    {
        self.bytes[offset..offset + bytes.len()].copy_from_slice(bytes);
    }
}

/// So many bytes of zero. An error means out of memory.
pub fn zeros(alloc: Global, count: usize) -> Result<Vec<u8>, AllocError>
    ensures { IfOk result (λ v. v.items ≡ replicate count 0) }
{
    vec![in alloc; 0; count]
}
