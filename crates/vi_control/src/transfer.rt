//! What a back end transfers.
use vi_bytes::Need;

/// A line of a back end: `len` bytes from the address `iova` on are read or written.
#[derive(Clone, Copy, Debug, PartialEq, Eq)]
pub struct Transfer {
    pub iova: u64,
    pub len: u32,
    pub need: Need,
}
