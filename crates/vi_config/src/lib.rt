//! The configuration space of the IOMMU device as bytes. It is for an author of a VMM, who shows it
//! to a guest, and of a guest driver or a tester, who reads it.
//!
//! Main calls:
//! - `Config::encode`: the 40 bytes of a configuration.
//! - `decode`: the configuration that bytes show, or what is wrong with them first.
//!
//! # Example
//! A test of `tests_codecs` runs this. `CONFIG` has the granule 16384, the input range from 0x4000
//! to 0xffffffff and bypass set, and `BYTES` are its 40 bytes:
//! ```
//! assert_eq!(rt; CONFIG.encode(), BYTES);
//! assert_eq!(rt; decode(&BYTES), Ok(CONFIG));
//! // Any bypass byte but 0 is read as true, and the fields that aren't read are ignored.
//! let mut bytes = BYTES;
//! bytes[36] = 0x80;
//! bytes[24] = 7;
//! bytes[32] = 7;
//! bytes[39] = 7;
//! assert_eq!(rt; decode(&bytes), Ok(CONFIG));
//! ```
//!
//! # Limits
//! - The granule is 4096, 16384 or 65536 bytes; `encode` asks for one of these.
//! - `decode` refuses fewer than 40 bytes, then a mask of another granule, then an input range that
//!   ends below its start. It ignores all fields but the mask, the input range and the bypass byte.
//! - `encode` writes all domains, a probe size of 512 and reserved bytes of 0. What it writes reads
//!   back where the input range doesn't end below its start (`reads`).
//! - Neither call takes memory. A bypass setting changes byte 36 alone (`laws::bypass_is_byte_36`).
//!
//! # Source
//! Virtio 1.2, 5.13.4.
#![tactic(auto)]

mod config;
pub mod laws;
mod refusal;

pub use config::{Config, decode};
pub use refusal::ConfigFault;
