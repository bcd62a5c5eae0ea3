//! Why bytes are no fault report.
use std::error::Error;
use std::fmt;

/// What is wrong with bytes that are no fault report. The size is looked at first, then the reason,
/// then the flags.
#[derive(Clone, Copy, Debug, PartialEq, Eq)]
pub enum FaultFault {
    /// There aren't 24 bytes.
    Size,
    /// The reason in byte 0 is above 2.
    Reason(u8),
    /// The flags in bytes 4 to 7 are neither 0x101, those of a read, nor 0x102, those of a write.
    Flags(u32),
}

impl fmt::Display for FaultFault {
    fn fmt<W: fmt::Write>(&self, f: &mut fmt::Formatter<W>) -> fmt::Result {
        match self {
            FaultFault::Size => write!(f, "a fault report has 24 bytes"),
            FaultFault::Reason(reason) => write!(f, "byte 0: the reason {reason} is above 2"),
            FaultFault::Flags(flags) => {
                write!(
                    f,
                    "byte 4: the flags {flags:#x} are neither 0x101 nor 0x102"
                )
            }
        }
    }
}

impl Error for FaultFault {}
