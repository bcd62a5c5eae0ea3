//! IOTLB frames between a device and its back ends, as bytes: the vhost-user protocol's IOTLB
//! messages and their replies (REPLY_ACK). It is for an author of a VMM or of a back end, and for a
//! tester.
//!
//! Main calls:
//! - `decode`: the frame that the bytes are, all of them, or what is wrong with them first.
//! - `encode`: writes a frame's bytes to the front of a buffer, and answers how many.
//! - `Frame::is_sendable`: whether the frame can be sent, which `encode` asks for.
//!
//! # Example
//! A test of `tests_codecs` runs this on pairs of a frame and its bytes as hexadecimal digits. One
//! is `Frame::Ack` with `16000000 05000000 08000000 0000000000000000`:
//! ```
//! for (frame, text) in rows {
//!     let bytes = bytes_of(rt.alloc(), text)?;
//!     assert_eq!(rt; decode(&bytes), Ok(frame), "{text}");
//!     assert!(rt; frame.is_sendable(), "{text}");
//!     let mut out = [0xaa; 44];
//!     let len = encode(&frame, &mut out);
//!     let written = &out[..len];
//!     assert_eq!(rt; written, bytes.as_slice(), "{text}");
//! }
//! ```
//!
//! # Limits
//! - A message has 44 bytes and a reply 20, with one form of flags each: 1 for an Update, 5 for a
//!   reply, 9 for a Miss, an AccessFail and an Invalidate. Other flags and types are refused.
//! - `page` and `target` are numbers of pages of 4096 bytes. `iova` and spans are addresses.
//! - An Update has 1 to 16 pages within a block of 16. Its target pages are below 16384, and its
//!   user address is the guest physical one plus `USER_BASE`.
//! - A Miss or an AccessFail has 1 to 65536 bytes. An Invalidate of size 0 is one of all 2^64
//!   addresses. No call takes memory.
//!
//! # Source
//! The vhost-user protocol: `VHOST_USER_IOTLB_MSG` (22) and `VHOST_USER_BACKEND_IOTLB_MSG` (1).
#![tactic(auto)]

mod encoding;
mod frame;
pub mod laws;
mod reading;
mod refusal;
mod wire;

pub use encoding::encode;
pub use frame::{Frame, USER_BASE};
pub use reading::decode;
pub use refusal::FrameFault;
