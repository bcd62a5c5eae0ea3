//! Why bytes are no request.
use std::error::Error;
use std::fmt;

/// What is wrong with bytes that are no request of this device, the first of these in this order.
#[derive(Clone, Copy, Debug, PartialEq, Eq)]
pub enum ReqFault {
    /// There are fewer than the head's 4 bytes.
    NoHead,
    /// The type in byte 0 is none of 1 to 5.
    UnknownType(u8),
    /// There are `got` bytes, and a request of this type has `want`, its head included.
    Size { want: u32, got: u32 },
    /// A reserved byte of the body isn't 0.
    Reserved,
}

impl fmt::Display for ReqFault {
    fn fmt<W: fmt::Write>(&self, f: &mut fmt::Formatter<W>) -> fmt::Result {
        match self {
            ReqFault::NoHead => write!(f, "a request has a head of 4 bytes"),
            ReqFault::UnknownType(kind) => {
                write!(f, "byte 0: the type {kind} is none of 1 to 5")
            }
            ReqFault::Size { want, got } => {
                write!(
                    f,
                    "a request of this type has {want} bytes, and there are {got}"
                )
            }
            ReqFault::Reserved => write!(f, "a reserved byte of the body is not 0"),
        }
    }
}

impl Error for ReqFault {}
