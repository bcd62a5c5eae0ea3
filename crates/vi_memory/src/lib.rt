//! The memory that transfers reach, page by page, for an author of a device with its own memory.
//!
//! Main calls:
//! - `zero_pages` answers so many pages of zeros, and `Page::zero` one.
//! - `read` answers so many bytes from an offset on.
//! - `write` puts bytes in the place of as many from an offset on, and the other bytes stay.
//!
//! # Example
//! A test of `tests_lists` runs this:
//! ```
//! let mut page = Page::zero(rt.alloc())?;
//! assert!(rt; page.read(0, 4096).iter().all(|byte| *byte == 0));
//! page.write(4093, b"end");
//! page.write(16, b"abcd");
//! page.write(17, b"");
//! assert_eq!(rt; page.read(15, 6), b"\0abcd\0".as_slice());
//! assert_eq!(rt; page.read(4092, 4), b"\0end".as_slice());
//! assert_eq!(rt; page.read(4096, 0).len(), 0);
//! ```
//!
//! # Limits
//! A page has 4096 bytes. Offsets and lengths are bytes, and have to end within the page: a
//! transfer is cut at pages before, as by `vi_bytes::cut`. `zero_pages` and `Page::zero` take
//! memory, and out of memory is an error. `read` and `write` take none, and refuse nothing.
#![tactic(auto)]

mod page;
mod pages;

pub use page::Page;
pub use pages::zero_pages;
