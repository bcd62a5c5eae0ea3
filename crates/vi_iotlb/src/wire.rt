//! The numbers of the protocol.

/// The request of what a back end asks, and of the reply to it (`VHOST_USER_BACKEND_IOTLB_MSG`).
pub const BACKEND_IOTLB_MSG: u32 = 1;

/// The request of what a back end is told, and of its reply (`VHOST_USER_IOTLB_MSG`).
pub const IOTLB_MSG: u32 = 22;

// The flags, each with version 1 in bits 0 and 1.

/// No reply is needed.
pub const PLAIN: u32 = 1;

/// Bit 2: this is a reply.
pub const REPLY: u32 = 5;

/// Bit 3: a reply is needed (`REPLY_ACK`).
pub const NEED_REPLY: u32 = 9;

// The types of messages.
pub const MISS: u8 = 1;

pub const UPDATE: u8 = 2;

pub const INVALIDATE: u8 = 3;

pub const ACCESS_FAIL: u8 = 4;

/// The bytes of a header.
pub const HEADER_SIZE: usize = 12;

/// The bytes of a message's payload.
pub const MESSAGE_PAYLOAD: u32 = 32;

/// The bytes of a reply's payload.
pub const REPLY_PAYLOAD: u32 = 8;
