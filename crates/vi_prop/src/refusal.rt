//! Why properties were not read.
ghost use Rattle.std.specs.Prelude.{◌≡◌};
ghost use Rattle.vi_prop.specs.declared.refusal.PropFault.TheVariants.{OutOfMemory};

use std::alloc::{AllocError, AllocFailed};
use std::error::Error;
use std::fmt;

/// Why properties were not read: what is wrong with the first property at fault, which begins at
/// this offset in bytes, or out of memory.
#[derive(Clone, Copy, Debug, PartialEq, Eq)]
pub enum PropFault {
    /// The property's value passes the end of the bytes.
    Cut(u32),
    /// The property is a RESV_MEM whose value has fewer than 20 bytes, or whose end is below its
    /// start.
    Kind(u32),
    OutOfMemory,
}

impl fmt::Display for PropFault {
    fn fmt<W: fmt::Write>(&self, f: &mut fmt::Formatter<W>) -> fmt::Result {
        match self {
            PropFault::Cut(at) => write!(f, "byte {at}: the property passes the end of the bytes"),
            PropFault::Kind(at) => {
                write!(
                    f,
                    "byte {at}: the reserved region is too short, or ends below its start"
                )
            }
            PropFault::OutOfMemory => write!(f, "out of memory"),
        }
    }
}

impl Error for PropFault {}

impl From<AllocError> for PropFault {
    ghost from_gives = { λ _ e. e ≡ OutOfMemory };

    fn from(_e: AllocError) -> PropFault {
        PropFault::OutOfMemory
    }
}

impl<T: Drop> From<AllocFailed<T>> for PropFault {
    ghost from_gives = { λ _ e. e ≡ OutOfMemory };

    fn from(_e: AllocFailed<T>) -> PropFault {
        PropFault::OutOfMemory
    }
}
