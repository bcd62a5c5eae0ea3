//! Requests of each type, and bytes that are none.
use crate::digits::bytes_of;
use std::test::Fail;
use vi_history::{Reading, Request};
use vi_req::{ReqFault, decode, encode, read};

#[test]
fn requests(rt: HostRuntime) -> Result<(), Fail> {
    let rows = [
        (
            Request::Attach {
                domain: 1,
                endpoint: 8,
                flags: 0x8000_0001,
            },
            "01000000 01000000 08000000 01000080 00000000",
        ),
        (
            Request::Detach {
                domain: 0x0403_0201,
                endpoint: 7,
            },
            "02000000 01020304 07000000 0000000000000000",
        ),
        (
            Request::Map {
                domain: 1,
                first: 0x1000,
                last: 0x1fff,
                target: 0x1122_3344_5566_7000,
                flags: 3,
            },
            "03000000 01000000 0010000000000000 ff1f000000000000 0070665544332211 03000000",
        ),
        (
            Request::Unmap {
                domain: 2,
                first: 0xf000,
                last: u64::MAX,
            },
            "04000000 02000000 00f0000000000000 ffffffffffffffff 00000000",
        ),
        (
            Request::Probe { endpoint: 9 },
            "05000000 09000000 \
             00000000000000000000000000000000 00000000000000000000000000000000 \
             00000000000000000000000000000000 00000000000000000000000000000000",
        ),
    ];
    for (request, text) in rows {
        let mut bytes = bytes_of(rt.alloc(), text)?;
        assert_eq!(rt;
            encode(rt.alloc(), &request)?.as_slice(),
            bytes.as_slice(),
            "{text}"
        );
        assert!(rt; bytes.len() >= 20 && bytes.len() <= 72);
        assert_eq!(rt; decode(&bytes), Ok(request), "{text}");
        // The reserved bytes of the head are ignored.
        bytes[1] = 1;
        bytes[3] = 0xff;
        assert_eq!(rt; decode(&bytes), Ok(request), "{text}");
    }
    Ok(())
}

#[test]
fn refusals(rt: HostRuntime) -> Result<(), Fail> {
    let rows = [
        ("010000", ReqFault::NoHead),
        ("00000000", ReqFault::UnknownType(0)),
        ("06000000", ReqFault::UnknownType(6)),
        ("01000000", ReqFault::Size { want: 20, got: 4 }),
        (
            "02000000 01000000 08000000 00000000",
            ReqFault::Size { want: 20, got: 16 },
        ),
        (
            "03000000 01000000 0010000000000000 ff1f000000000000 0050000000000000 03000000 00",
            ReqFault::Size { want: 36, got: 37 },
        ),
        // The size is looked at before the reserved bytes.
        (
            "04000000 01000000 0010000000000000 ff1f000000000000 0000ff",
            ReqFault::Size { want: 28, got: 27 },
        ),
        ("05000000 07000000", ReqFault::Size { want: 72, got: 8 }),
        (
            "01000000 01000000 08000000 00000000 00000001",
            ReqFault::Reserved,
        ),
        (
            "02000000 01000000 08000000 0100000000000000",
            ReqFault::Reserved,
        ),
        (
            "04000000 01000000 0010000000000000 ff1f000000000000 00000080",
            ReqFault::Reserved,
        ),
        (
            "05000000 09000000 \
             00000000000000000000000000000000 00000000000000000000000000000000 \
             00000000000000000000000000000000 00000000000000000000000000000001",
            ReqFault::Reserved,
        ),
    ];
    for (text, fault) in rows {
        let bytes = bytes_of(rt.alloc(), text)?;
        assert!(rt; bytes.len() <= 72);
        assert_eq!(rt; decode(&bytes), Err(fault), "{text}");
    }
    Ok(())
}

#[test]
fn readings(rt: HostRuntime) -> Result<(), Fail> {
    let detach = Request::Detach {
        domain: 1,
        endpoint: 7,
    };
    let rows = [
        (
            "02000000 01000000 07000000 0000000000000000",
            4,
            Reading::Asks(detach),
        ),
        (
            "02000000 01000000 07000000 0000000000000000",
            3,
            Reading::Silent,
        ),
        (
            "02000000 01000000 07000000 00000000000000",
            4,
            Reading::Malformed { probe: false },
        ),
        ("05000000 07000000", 516, Reading::Malformed { probe: true }),
        ("05000000 07000000", 515, Reading::Silent),
        ("06000000", 4, Reading::Silent),
        ("", 4, Reading::Silent),
    ];
    for (text, write, reading) in rows {
        let bytes = bytes_of(rt.alloc(), text)?;
        assert!(rt; bytes.len() <= 72);
        assert_eq!(rt; read(&bytes, write), reading, "{text}");
    }
    Ok(())
}

#[test]
fn texts(rt: HostRuntime) -> Result<(), Fail> {
    let rows = [
        (ReqFault::NoHead, "a request has a head of 4 bytes"),
        (
            ReqFault::UnknownType(9),
            "byte 0: the type 9 is none of 1 to 5",
        ),
        (
            ReqFault::Size { want: 28, got: 27 },
            "a request of this type has 28 bytes, and there are 27",
        ),
        (ReqFault::Reserved, "a reserved byte of the body is not 0"),
    ];
    for (fault, text) in rows {
        assert_eq!(rt; format!(in rt.alloc(); "{fault}")?.as_str(), text);
    }
    Ok(())
}
