//! The properties of an endpoint as bytes: its reserved regions, as a PROBE is answered. It is for
//! an author of a device, who writes them, and of a guest driver or a tester, who reads them.
//!
//! Main calls:
//! - `encode`: the 512 bytes of the properties of at most 16 regions.
//! - `decode`: the regions that properties show, in order, or the first property at fault.
//!
//! # Example
//! A test of `tests_codecs` runs this. `bytes` is `encode(&[LOW, MSI])`, the properties of two
//! regions. `text` spells their first 48 bytes and the 4 zeros behind them:
//! ```
//! let front = bytes_of(rt.alloc(), text)?;
//! assert!(rt; bytes.starts_with(&front));
//! assert!(rt; bytes[48..].iter().all(|byte| *byte == 0));
//! assert_eq!(rt;
//!     decode(rt.alloc(), &bytes)
//!         .ok()
//!         .ok_or("they read back")?
//!         .as_slice(),
//!     [LOW, MSI].as_slice()
//! );
//! ```
//!
//! # Limits
//! - `encode` asks for at most 16 regions. What it writes reads back where no region ends below its
//!   start (`reads`).
//! - `decode` asks for fewer than 2^32 - 1 bytes, and reads up to a property of type 0. It passes
//!   over other types than RESV_MEM, and reads each subtype but MSI as RESERVED.
//! - It refuses, with its offset in bytes, a property that passes the end of the bytes. So it does
//!   a RESV_MEM that is too short or ends below its start.
//! - `decode` takes memory for the regions, and out of memory is an error. `encode` takes none.
//!
//! # Source
//! Virtio 1.2, 5.13.6.8.
#![tactic(auto)]

mod encoding;
mod reading;
mod refusal;
mod wire;

pub use encoding::encode;
pub use reading::decode;
pub use refusal::PropFault;
