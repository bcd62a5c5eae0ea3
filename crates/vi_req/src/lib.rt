//! Requests to the IOMMU device as bytes. It is for an author of a device, who reads them, and of a
//! guest driver or a tester, who writes them.
//!
//! Main calls:
//! - `decode`: the request that the device-readable bytes are, or what is wrong with them first.
//! - `encode`: the device-readable bytes of a request.
//! - `read`: what bytes with so much room for the answer come to: a request, INVAL, or no answer.
//!
//! # Example
//! A test of `tests_codecs` runs this for requests of each type, where `text` spells the bytes of
//! `request`:
//! ```
//! let mut bytes = bytes_of(rt.alloc(), text)?;
//! assert_eq!(rt;
//!     encode(rt.alloc(), &request)?.as_slice(),
//!     bytes.as_slice(),
//!     "{text}"
//! );
//! assert!(rt; bytes.len() >= 20 && bytes.len() <= 72);
//! assert_eq!(rt; decode(&bytes), Ok(request), "{text}");
//! ```
//!
//! # Limits
//! - ATTACH and DETACH have 20 bytes, MAP 36, UNMAP 28 and PROBE 72. The answer needs 4 writable
//!   bytes, that of PROBE 516.
//! - `decode` refuses fewer than 4 bytes, then an unknown type, then another size, then a reserved
//!   byte of the body that isn't 0. `decode` and `read` ask for fewer than 2^32 - 1 bytes.
//! - Any value may stand in a field: whether a request makes sense is for the device to say.
//! - `encode` takes memory, and out of memory is its error. `decode` and `read` take none.
//!
//! # Source
//! Virtio 1.2, 5.13.6.
#![tactic(auto)]

mod asking;
mod encoding;
pub mod laws;
mod reading;
mod refusal;

pub use asking::read;
pub use encoding::encode;
pub use reading::decode;
pub use refusal::ReqFault;
