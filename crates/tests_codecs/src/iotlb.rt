//! The frames between a device and its back ends, and bytes that are none.
use crate::digits::bytes_of;
use std::test::Fail;
use vi_bytes::{Need, Span};
use vi_iotlb::{Frame, FrameFault, decode, encode};

#[test]
fn frames(rt: HostRuntime) -> Result<(), Fail> {
    let rows = [
        (
            Frame::Update {
                page: 1,
                count: 1,
                target: 0,
                perm: 3,
            },
            "16000000 01000000 20000000 0010000000000000 0010000000000000 00000000007f0000 03 02 000000000000",
        ),
        (
            Frame::Update {
                page: 1,
                count: 2,
                target: 0,
                perm: 3,
            },
            "16000000 01000000 20000000 0010000000000000 0020000000000000 00000000007f0000 03 02 000000000000",
        ),
        (
            Frame::Invalidate {
                span: Span {
                    first: 0x1000,
                    last: 0x1fff,
                },
            },
            "16000000 09000000 20000000 0010000000000000 0010000000000000 0000000000000000 00 03 000000000000",
        ),
        (
            Frame::Invalidate {
                span: Span {
                    first: 0,
                    last: u64::MAX,
                },
            },
            "16000000 09000000 20000000 0000000000000000 0000000000000000 0000000000000000 00 03 000000000000",
        ),
        (Frame::Ack, "16000000 05000000 08000000 0000000000000000"),
        (
            Frame::Reply { fault: true },
            "01000000 05000000 08000000 0100000000000000",
        ),
        (
            Frame::AccessFail {
                iova: 0x1004,
                len: 1,
                need: Need::Write,
            },
            "01000000 09000000 20000000 0410000000000000 0100000000000000 0000000000000000 02 04 000000000000",
        ),
        (
            Frame::Miss {
                iova: 0x1ff0,
                len: 16,
                need: Need::Read,
            },
            "01000000 09000000 20000000 f01f000000000000 1000000000000000 0000000000000000 01 01 000000000000",
        ),
    ];
    for (frame, text) in rows {
        let bytes = bytes_of(rt.alloc(), text)?;
        assert_eq!(rt; decode(&bytes), Ok(frame), "{text}");
        assert!(rt; frame.is_sendable(), "{text}");
        let mut out = [0xaa; 44];
        let len = encode(&frame, &mut out);
        let written = &out[..len];
        assert_eq!(rt; written, bytes.as_slice(), "{text}");
    }
    Ok(())
}

#[test]
fn refusals(rt: HostRuntime) -> Result<(), Fail> {
    let rows = [
        ("16000000 01000000 200000", FrameFault::Short),
        (
            "02000000 01000000 20000000 0010000000000000 0010000000000000 00000000007f0000 03 02 000000000000",
            FrameFault::Request(2),
        ),
        (
            "16000000 11000000 20000000 0010000000000000 0010000000000000 00000000007f0000 03 02 000000000000",
            FrameFault::Flags(17),
        ),
        (
            "01000000 01000000 20000000 0010000000000000 0010000000000000 00000000007f0000 03 02 000000000000",
            FrameFault::Flags(1),
        ),
        (
            "16000000 01000000 20000000 0010000000000000 0010000000000000 00000000007f0000 03 02 0000000000",
            FrameFault::Size(32),
        ),
        (
            "16000000 01000000 20000000 0010000000000000 0010000000000000 00000000007f0000 03 09 000000000000",
            FrameFault::Kind(9),
        ),
        (
            "16000000 01000000 20000000 0010000000000000 0010000000000000 00000000007f0000 04 02 000000000000",
            FrameFault::Perm(4),
        ),
        // An update of the pages 15 and 16, which have different numbers divided by 16.
        (
            "16000000 01000000 20000000 00f0000000000000 0020000000000000 00000000007f0000 03 02 000000000000",
            FrameFault::Field,
        ),
        // An update whose second target page is 16384.
        (
            "16000000 01000000 20000000 0010000000000000 0020000000000000 00f0ff03007f0000 03 02 000000000000",
            FrameFault::Field,
        ),
        // A miss past the last address.
        (
            "01000000 09000000 20000000 ffffffffffffffff 0200000000000000 0000000000000000 01 01 000000000000",
            FrameFault::Field,
        ),
        // An invalidate of all addresses from 0x1000 on.
        (
            "16000000 09000000 20000000 0010000000000000 0000000000000000 0000000000000000 00 03 000000000000",
            FrameFault::Field,
        ),
        // An ack with an answer.
        (
            "16000000 05000000 08000000 0100000000000000",
            FrameFault::Field,
        ),
    ];
    for (text, fault) in rows {
        let bytes = bytes_of(rt.alloc(), text)?;
        assert_eq!(rt; decode(&bytes), Err(fault), "{text}");
    }
    Ok(())
}

#[test]
fn texts(rt: HostRuntime) -> Result<(), Fail> {
    let rows = [
        (FrameFault::Short, "a frame has a header of 12 bytes"),
        (
            FrameFault::Request(2),
            "byte 0: the request 2 is neither 1 nor 22",
        ),
        (
            FrameFault::Flags(17),
            "byte 4: no frame of this request has the flags 0x11",
        ),
        (
            FrameFault::Size(32),
            "byte 8: the payload size 32 is not that of the frame",
        ),
        (
            FrameFault::Kind(9),
            "byte 37: no message with this header has the type 9",
        ),
        (
            FrameFault::Perm(4),
            "byte 36: no message of this type has the permission 4",
        ),
        (
            FrameFault::Field,
            "byte 12: the payload is that of no frame",
        ),
    ];
    for (fault, text) in rows {
        assert_eq!(rt; format!(in rt.alloc(); "{fault}")?.as_str(), text);
    }
    Ok(())
}
