//! A memory of so many pages.
ghost use Rattle.std.specs.Prelude.{◌≡◌, replicate, IfOk};
ghost use Rattle.vi_bytes.specs.declared.span.TheConstants.{PAGE};

use crate::Page;
use std::alloc::{AllocError, Global};

/// So many pages of zeros. An error means out of memory.
pub fn zero_pages(alloc: Global, count: u32) -> Result<Vec<Page>, AllocError>
    ensures { IfOk result (λ pages. pages.items ≡ replicate count (replicate PAGE 0)) }
{
    let mut pages = Vec::new(alloc);
    for _page in 0..count {
        pages.push(Page::zero(alloc)?)?;
    }
    Ok(pages)
}
