//! Fault records of a read and a write, and bytes that are none.
use std::test::Fail;
use vi_fault::{FaultFault, FaultRecord, decode};

// A read of endpoint 7 at address 0 with no domain, and a write at 0x1004 with no mapping.
const READ: [u8; 24] = [
    1, 0, 0, 0, 1, 1, 0, 0, 7, 0, 0, 0, 0, 0, 0, 0, 0, 0, 0, 0, 0, 0, 0, 0,
];

const WRITE: [u8; 24] = [
    2, 0, 0, 0, 2, 1, 0, 0, 7, 0, 0, 0, 0, 0, 0, 0, 4, 0x10, 0, 0, 0, 0, 0, 0,
];

#[test]
fn reports(rt: HostRuntime) {
    let read = FaultRecord {
        reason: 1,
        write: false,
        endpoint: 7,
        address: 0,
    };
    let write = FaultRecord {
        reason: 2,
        write: true,
        endpoint: 7,
        address: 0x1004,
    };
    for (record, bytes) in [(read, READ), (write, WRITE)] {
        assert_eq!(rt; record.encode(), bytes);
        assert_eq!(rt; decode(&bytes), Ok(record));
    }
    // Reserved bytes are ignored.
    let mut bytes = READ;
    bytes[1] = 9;
    bytes[15] = 9;
    assert_eq!(rt; decode(&bytes), Ok(read));
}

#[test]
fn refusals(rt: HostRuntime) -> Result<(), Fail> {
    let mut reason = READ;
    reason[0] = 3;
    let mut flags = READ;
    flags[4] = 3;
    let rows: [(&[u8], FaultFault, &str); 3] = [
        (&READ[..23], FaultFault::Size, "a fault report has 24 bytes"),
        (
            &reason,
            FaultFault::Reason(3),
            "byte 0: the reason 3 is above 2",
        ),
        (
            &flags,
            FaultFault::Flags(0x103),
            "byte 4: the flags 0x103 are neither 0x101 nor 0x102",
        ),
    ];
    for (bytes, fault, text) in rows {
        assert_eq!(rt; decode(bytes), Err(fault));
        assert_eq!(rt; format!(in rt.alloc(); "{fault}")?.as_str(), text);
    }
    Ok(())
}
