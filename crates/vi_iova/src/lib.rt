//! The I/O addresses of an endpoint, given out and taken back. It is for authors of guest drivers
//! and of small kernels: a DMA layer asks a `Space` where to map a buffer, and frees the span after
//! the UNMAP.
//!
//! Main calls:
//! - `Space::open` reads the regions of an endpoint from the properties of its PROBE.
//! - `Space::alloc` answers the lowest free span of so many bytes, which is live from then on.
//! - `Space::free` takes a span out of the live ones.
//!
//! What comes of these calls has no address in two live spans, or in a live span and a region
//! (`laws`).
//!
//! # Example
//! A test of `tests_lists` runs this, where the granule is 4096 and 0x1000 to 0x1fff is a region.
//! It answers the spans from 0x2000 to 0x2fff, from 0x3000 to 0x4fff, and the first again:
//! ```
//! let low = space.alloc(4096)?;
//! let pair = space.alloc(8192)?;
//! space.free(&low);
//! Ok([low, pair, space.alloc(4096)?])
//! ```
//!
//! # Limits
//! - Addresses are of bytes and have 64 bits, up to 2^64 - 1. The input range and each span have
//!   both of their ends.
//! - A length is a multiple of the granule and not 0. No span begins below one granule, so that
//!   address 0 is never given out.
//! - Properties have fewer than 2^32 - 1 bytes.
//! - `alloc` passes once over the live spans and the regions, and `free` over the live spans.
//! - `open` and `alloc` take memory, and out of memory is an error that changes nothing. `free`
//!   takes none.
//!
//! # Source
//! Virtio 1.2, 5.13.6.8, for the properties.
#![tactic(auto)]

mod fault;
pub mod laws;
mod space;
mod walk;

pub use fault::{AllocFault, SpaceFault};
pub use space::Space;
