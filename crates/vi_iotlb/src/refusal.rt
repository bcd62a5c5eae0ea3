//! Why bytes are no frame.
use std::error::Error;
use std::fmt;

/// What is wrong with bytes that are no IOTLB frame, the first of these in this order.
#[derive(Clone, Copy, Debug, PartialEq, Eq)]
pub enum FrameFault {
    /// There are fewer than the header's 12 bytes.
    Short,
    /// The request is neither 1 nor 22.
    Request(u32),
    /// The flags aren't 5 or 9, nor 1 with request 22.
    Flags(u32),
    /// The payload's size isn't 8 with flags 5 and 32 with others, or isn't that of the bytes after
    /// the header.
    Size(u32),
    /// No message with this request and these flags has this type.
    Kind(u8),
    /// The permission of a miss or an access fail isn't 1 or 2, or that of an update isn't 1, 2 or
    /// 3.
    Perm(u8),
    /// The addresses and sizes of a message can't be those of a frame, or the answer of an ack
    /// isn't 0.
    Field,
}

impl fmt::Display for FrameFault {
    fn fmt<W: fmt::Write>(&self, f: &mut fmt::Formatter<W>) -> fmt::Result {
        match self {
            FrameFault::Short => write!(f, "a frame has a header of 12 bytes"),
            FrameFault::Request(request) => {
                write!(f, "byte 0: the request {request} is neither 1 nor 22")
            }
            FrameFault::Flags(flags) => {
                write!(
                    f,
                    "byte 4: no frame of this request has the flags {flags:#x}"
                )
            }
            FrameFault::Size(size) => {
                write!(
                    f,
                    "byte 8: the payload size {size} is not that of the frame"
                )
            }
            FrameFault::Kind(kind) => {
                write!(
                    f,
                    "byte 37: no message with this header has the type {kind}"
                )
            }
            FrameFault::Perm(perm) => {
                write!(
                    f,
                    "byte 36: no message of this type has the permission {perm}"
                )
            }
            FrameFault::Field => write!(f, "byte 12: the payload is that of no frame"),
        }
    }
}

impl Error for FrameFault {}
