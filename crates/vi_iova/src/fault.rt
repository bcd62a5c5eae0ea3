//! Why a space wasn't opened, and why no span was given out.
use std::alloc::AllocError;
use std::error::Error;
use std::fmt;
use vi_prop::PropFault;

/// Why a space wasn't opened.
#[derive(Clone, Copy, Debug, PartialEq, Eq)]
pub enum SpaceFault {
    /// The properties are at fault, each for the reason that `vi_prop` gives. It isn't out of memory.
    Properties(PropFault),
    OutOfMemory,
}

impl fmt::Display for SpaceFault {
    fn fmt<W: fmt::Write>(&self, f: &mut fmt::Formatter<W>) -> fmt::Result {
        match self {
            SpaceFault::Properties(fault) => write!(f, "the properties: {fault}"),
            SpaceFault::OutOfMemory => write!(f, "out of memory"),
        }
    }
}

impl Error for SpaceFault {}

impl From<PropFault> for SpaceFault {
    ghost use Rattle.std.specs.Prelude.{◌≡◌};
    ghost use Rattle.vi_iova.specs.Faults.{space_fault};

    ghost from_gives = { λ fault e. e ≡ space_fault fault };

    fn from(fault: PropFault) -> SpaceFault {
        match fault {
            PropFault::Cut(_) | PropFault::Kind(_) => SpaceFault::Properties(fault),
            PropFault::OutOfMemory => SpaceFault::OutOfMemory,
        }
    }
}

impl From<AllocError> for SpaceFault {
    ghost use Rattle.std.specs.Prelude.{◌≡◌};
    ghost use Rattle.vi_iova.specs.declared.fault.SpaceFault.TheVariants.{OutOfMemory};

    ghost from_gives = { λ _ e. e ≡ OutOfMemory };

    fn from(_: AllocError) -> SpaceFault {
        SpaceFault::OutOfMemory
    }
}

/// Why no span was given out.
#[derive(Clone, Copy, Debug, PartialEq, Eq)]
pub enum AllocFault {
    /// No span of this length is free.
    Full,
    OutOfMemory,
}

impl fmt::Display for AllocFault {
    fn fmt<W: fmt::Write>(&self, f: &mut fmt::Formatter<W>) -> fmt::Result {
        match self {
            AllocFault::Full => write!(f, "no span of this length is free"),
            AllocFault::OutOfMemory => write!(f, "out of memory"),
        }
    }
}

impl Error for AllocFault {}
