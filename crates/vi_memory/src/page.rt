//! A page of memory.
ghost use Rattle.std.specs.Prelude.{◌≡◌, ℕ, ◌+◌, ◌≤◌, ◌++◌, length, take, drop, replicate, IfOk};

use std::alloc::{AllocError, Global};
use std::marker::Model;
use vi_bytes::PAGE;

/// The 4096 bytes of a page of memory, which contracts see as their list.
#[derive(Debug, Drop)]
pub struct Page {
    bytes: Vec<u8>,
}

impl Model for Page {
    ghost use Rattle.std.specs.Prelude.{List, ℕ, ◌≡◌, length};
    ghost use Rattle.vi_bytes.specs.declared.span.TheConstants.{PAGE};

    ghost Value = { List ℕ };

    ghost view = { λ p. p.bytes.items };

    ghost invariant = { λ p. length p.bytes.items ≡ PAGE };
}

impl Page {
    /// A page of zeros. An error means out of memory.
    pub fn zero(alloc: Global) -> Result<Page, AllocError>
        ensures zeros { IfOk result (λ page. page ≡ replicate PAGE 0) }
        ensures whole { IfOk result (λ page. length page ≡ PAGE) }
    {
        let bytes = zeros(alloc, PAGE as usize)?;
        Ok(Page { bytes })
    }

    /// The `len` bytes from the offset `from` on. They end within the page.
    pub fn read(&self, from: u32, len: u32) -> &[u8]
        requires { from + len ≤ PAGE }
        ensures bytes { result.now ≡ take len (drop from self.now) }
        ensures length { length result.now ≡ len }
        ensures whole { length self.now ≡ PAGE }
    {
        let from = from as usize;
        &self.bytes[from..from + len as usize]
    }

    /// Puts the bytes in the place of as many from the offset `from` on. They end within the page.
    /// The other bytes stay. Takes no memory.
    pub fn write(&mut self, from: u32, bytes: &[u8])
        requires { from + length bytes.now ≤ PAGE }
        ensures written { self.new
            ≡ take from self.old ++ bytes.now ++ drop (from + length bytes.now) self.old }
        ensures whole { length self.new ≡ PAGE }
    {
        let from = from as usize;
        self.bytes[from..from + bytes.len()].copy_from_slice(bytes);
    }
}

fn zeros(alloc: Global, count: usize) -> Result<Vec<u8>, AllocError>
    ensures { IfOk result (λ v. v.items ≡ replicate count 0) }
{
    vec![in alloc; 0; count]
}
