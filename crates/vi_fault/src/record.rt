//! A fault report, to bytes and back.
ghost use Rattle.std.specs.Prelude.{◌≡◌, ◌≤◌, ◌↔◌, Ok, Err};
ghost use Rattle.vi_bytes.specs.FaultRecords.{fault_flags};
ghost use Rattle.vi_fault.specs.Reports.{need_of, record_bytes, ReadAs, RefusedAs};
ghost use Rattle.vi_fault.specs.declared.refusal.FaultFault.{FaultFault};

use crate::FaultFault;
use byteorder::{ByteOrder, LittleEndian};

// The flags of a read and of a write: READ is bit 0, WRITE bit 1 and ADDRESS bit 8, which is always
// set.
const READ: u32 = 0x101;

const WRITE: u32 = 0x102;

/// A fault as the event queue reports it (Virtio 1.2, 5.13.6.9).
#[derive(Clone, Copy, Debug, PartialEq, Eq)]
pub struct FaultRecord {
    /// Why the access faulted: 0 is UNKNOWN, 1 is DOMAIN and 2 is MAPPING.
    pub reason: u8,
    /// Whether the access was a write; else it was a read.
    pub write: bool,
    /// The id of the endpoint.
    pub endpoint: u32,
    /// The first address of the access.
    pub address: u64,
}

impl FaultRecord {
    /// The 24 bytes of the report, its reserved bytes 0.
    pub fn encode(&self) -> [u8; 24]
        requires { self.now.reason ≤ 2 }
        ensures bytes { result ≡ record_bytes self.now }
        ensures reads { ReadAs result self.now }
    {
        let FaultRecord {
            reason,
            write,
            endpoint,
            address,
        } = *self;
        let mut bytes = [0; 24];
        bytes[0] = reason;
        LittleEndian::write_u32(&mut bytes[4..], flags(write));
        LittleEndian::write_u32(&mut bytes[8..], endpoint);
        LittleEndian::write_u64(&mut bytes[16..], address);
        bytes
    }
}

fn flags(write: bool) -> u32
    ensures { result ≡ fault_flags (need_of write) }
{
    if write { WRITE } else { READ }
}

/// The fault that 24 bytes report. Reserved bytes are ignored. Takes no memory.
pub fn decode(bytes: &[u8]) -> Result<FaultRecord, FaultFault>
    ensures accepted { (r : FaultRecord) → (result ≡ Ok r) ↔ ReadAs bytes.now r }
    ensures refused { (fault : FaultFault) → (result ≡ Err fault) ↔ RefusedAs bytes.now fault }
{
    if bytes.len() != 24 {
        return Err(FaultFault::Size);
    }
    let reason = bytes[0];
    if reason > 2 {
        return Err(FaultFault::Reason(reason));
    }
    let flags = LittleEndian::read_u32(&bytes[4..]);
    let write = match flags {
        READ => false,
        WRITE => true,
        _ => return Err(FaultFault::Flags(flags)),
    };
    Ok(FaultRecord {
        reason,
        write,
        endpoint: LittleEndian::read_u32(&bytes[8..]),
        address: LittleEndian::read_u64(&bytes[16..]),
    })
}
