//! One split virtqueue with its buffers in one area of bytes, at the standard's offsets. It is for
//! authors and testers of a device or a driver, who have both sides in one value.
//!
//! Main calls:
//! - `Ring::add` and `collect`, of the driver: the head of a new chain; how many bytes answered it.
//! - `Ring::pop`, of the device: the next available chain, `Empty`, or the chain's break.
//! - `Ring::readable` and `push`, of the device: a chain's request; returns it with an answer.
//!
//! # Example
//! A test of `tests_rings` runs this. `ring.collect(head, &mut answer)` then answers `Some(2)`:
//! ```
//! let head = ring.add(&[1, 2, 3], 4).ok()?;
//! let Popped::Chain(chain) = ring.pop() else {
//!     return None;
//! };
//! let want = Chain {
//!     head: head.0,
//!     read: 3,
//!     write: 4,
//! };
//! assert_eq!(rt; chain, want);
//! let mut request = [0; 3];
//! ring.readable(&chain, &mut request);
//! assert_eq!(rt; request, [1, 2, 3]);
//! assert_eq!(rt; ring.collect(head, &mut [9; 64]), None);
//! ring.push(chain, &[7, 8]);
//! ```
//!
//! # Limits
//! - `Ring::build` asks for 16, 32, 64, 128 or 256 descriptors, and parts of at most 1024 bytes.
//! - It takes memory, and out of memory is its error; no other call takes any. Broken chains are
//!   passed over, indirect ones too. `add` is `Full` where descriptors are wanting.
//! - There are no notifications. After a write through `area`, `add` and `collect` merely return.
//! # Source
//! Virtio 1.2, 2.7.
#![tactic(auto)]

mod bytes;
mod chain;
mod device;
mod driver;
mod layout;
mod note;
mod parts;
mod ring;
mod walking;

pub use chain::{Break, Chain, Full, Head, Popped};
pub use ring::Ring;
