//! The properties of an endpoint, and bytes that are none.
use crate::digits::bytes_of;
use std::test::Fail;
use vi_bytes::{Region, RegionKind, Span};
use vi_prop::{PropFault, decode, encode};

// The interrupt window of the x86, as a region.
const MSI: Region = Region {
    kind: RegionKind::Msi,
    span: Span {
        first: 0xfee0_0000,
        last: 0xfeef_ffff,
    },
};

const LOW: Region = Region {
    kind: RegionKind::Reserved,
    span: Span {
        first: 0,
        last: 0xffff,
    },
};

#[test]
fn regions(rt: HostRuntime) -> Result<(), Fail> {
    let rows: [(&str, &[Region]); 6] = [
        (
            "01001400 01000000 0000e0fe00000000 ffffeffe00000000 00000000",
            &[MSI],
        ),
        ("05000000", &[]),
        ("000000", &[]),
        // What stands after type 0 isn't read.
        ("00000000 01000000", &[]),
        // Another type is passed over; a subtype other than 1 is RESERVED; the value of the second
        // region has 4 bytes more.
        (
            "05000200 aaaa 01001400 07000000 0000000000000000 ffff000000000000 01001800 01000000 0000e0fe00000000 ffffeffe00000000 bbbbbbbb",
            &[LOW, MSI],
        ),
        // The last address of a region may be its first.
        (
            "01001400 00000000 0000000000000000 ffff000000000000 000000",
            &[LOW],
        ),
    ];
    for (text, want) in rows {
        let bytes = bytes_of(rt.alloc(), text)?;
        assert!(rt; bytes.len() < 100);
        let found = decode(rt.alloc(), &bytes)
            .ok()
            .ok_or("these are properties")?;
        assert_eq!(rt; found.as_slice(), want, "{text}");
    }
    Ok(())
}

#[test]
fn written(rt: HostRuntime) -> Result<(), Fail> {
    let bytes = encode(&[LOW, MSI]);
    let text =
        "01001400 00000000 0000000000000000 ffff000000000000 01001400 01000000 0000e0fe00000000 ffffeffe00000000 00000000";
    let front = bytes_of(rt.alloc(), text)?;
    assert!(rt; bytes.starts_with(&front));
    assert!(rt; bytes[48..].iter().all(|byte| *byte == 0));
    assert_eq!(rt;
        decode(rt.alloc(), &bytes)
            .ok()
            .ok_or("they read back")?
            .as_slice(),
        [LOW, MSI].as_slice()
    );
    Ok(())
}

#[test]
fn refusals(rt: HostRuntime) -> Result<(), Fail> {
    let rows = [
        (
            "01001400 01000000 0000e0fe00000000 ffffeffe",
            PropFault::Cut(0),
            "byte 0: the property passes the end of the bytes",
        ),
        (
            "01001000 00000000000000000000000000000000",
            PropFault::Kind(0),
            "byte 0: the reserved region is too short, or ends below its start",
        ),
        (
            "05000200 aaaa 01001400 01000000 0100000000000000 0000000000000000",
            PropFault::Kind(6),
            "byte 6: the reserved region is too short, or ends below its start",
        ),
        (
            "05000200 aaaa 05000100",
            PropFault::Cut(6),
            "byte 6: the property passes the end of the bytes",
        ),
    ];
    for (text, fault, says) in rows {
        let bytes = bytes_of(rt.alloc(), text)?;
        assert!(rt; bytes.len() < 100);
        assert_eq!(rt; decode(rt.alloc(), &bytes).err(), Some(fault), "{text}");
        assert_eq!(rt; format!(in rt.alloc(); "{fault}")?.as_str(), says);
    }
    assert_eq!(rt;
        format!(in rt.alloc(); "{}", PropFault::OutOfMemory)?.as_str(),
        "out of memory"
    );
    Ok(())
}
