//! Why bytes are no configuration space.
use std::error::Error;
use std::fmt;

/// What is wrong with bytes that are no configuration space of this device. The size is looked at
/// first, then the mask, then the input range.
#[derive(Clone, Copy, Debug, PartialEq, Eq)]
pub enum ConfigFault {
    /// There are fewer than 40 bytes.
    Short,
    /// The page_size_mask in bytes 0 to 7 isn't that of a granule of 4096, 16384 or 65536 bytes.
    Mask(u64),
    /// The input range's end, in bytes 16 to 23, is below its start, in bytes 8 to 15.
    Order,
}

impl fmt::Display for ConfigFault {
    fn fmt<W: fmt::Write>(&self, f: &mut fmt::Formatter<W>) -> fmt::Result {
        match self {
            ConfigFault::Short => write!(f, "a configuration space has at least 40 bytes"),
            ConfigFault::Mask(mask) => write!(
                f,
                "byte 0: the mask {mask:#x} isn't that of a granule of 4096, 16384 or 65536 bytes"
            ),
            ConfigFault::Order => write!(f, "byte 16: the input range ends below its start"),
        }
    }
}

impl Error for ConfigFault {}
