//! Properties to regions.
ghost use Rattle.std.specs.Prelude.{◌≡◌, ◌≤◌, ◌<◌, ◌+◌, ◌-◌, ◌^◌, length, IfSome, IfNone};
ghost use Rattle.vi_bytes.specs.Fields.{field};
ghost use Rattle.vi_bytes.specs.Properties.{Properties, ReadsFrom, IsWhole, IsRegionAt, IsMisfitAt, type_at};
ghost use Rattle.vi_prop.specs.Lists.{answered};

use crate::PropFault;
use crate::wire::{MSI, NONE, RESV_MEM, RESV_MEM_SIZE};
use byteorder::{ByteOrder, LittleEndian};
use std::alloc::Global;
use vi_bytes::{Region, RegionKind, Span};

fn u16_at(bytes: &[u8], at: usize) -> u16
    requires { at + 2 ≤ length bytes.now }
    ensures { result ≡ field at 2 bytes.now }
{
    LittleEndian::read_u16(&bytes[at..])
}

fn u64_at(bytes: &[u8], at: usize) -> u64
    requires { at + 8 ≤ length bytes.now }
    ensures { result ≡ field at 8 bytes.now }
{
    LittleEndian::read_u64(&bytes[at..])
}

// The region of the RESV_MEM property at this offset.
fn region_at(bytes: &[u8], at: usize) -> Option<Region>
    requires whole { IsWhole at bytes.now }
    requires kind { type_at at bytes.now ≡ 1 }
    requires fits { length bytes.now < 2 ^ 32 - 1 }
    ensures region { IfSome result (IsRegionAt at bytes.now) }
    ensures misfit { IfNone result (IsMisfitAt at bytes.now) }
{
    if u16_at(bytes, at + 2) < RESV_MEM_SIZE {
        return None;
    }
    let kind = match bytes[at + 4] {
        MSI => RegionKind::Msi,
        _ => RegionKind::Reserved,
    };
    let span = Span::new(u64_at(bytes, at + 8), u64_at(bytes, at + 16))?;
    Some(Region { kind, span })
}

#[tactic(auto, using(crate::proofs::SoFar::steps))]
fn read_regions(alloc: Global, bytes: &[u8]) -> Result<Vec<Region>, PropFault>
    requires { length bytes.now < 2 ^ 32 - 1 }
    ensures { IfSome (answered (λ v. v.items) result) (ReadsFrom bytes.now 0) }
{
    let mut regions = Vec::new(alloc);
    let mut at = 0;
    while bytes.len() - at >= 4 {
        let kind = u16_at(bytes, at);
        if kind == NONE {
            break;
        }
        let end = at + 4 + usize::from(u16_at(bytes, at + 2));
        if end > bytes.len() {
            return Err(PropFault::Cut(at as u32));
        }
        if kind == RESV_MEM {
            let Some(region) = region_at(bytes, at) else {
                return Err(PropFault::Kind(at as u32));
            };
            regions.push(region)?;
        }
        at = end;
    }
    Ok(regions)
}

/// The regions that the properties show, in order. Properties are read up to one of type 0 (NONE),
/// or to where fewer than 4 bytes are left. Those of other types than 1 (RESV_MEM) are passed over,
/// and so are the bytes of a value past its first 20. A subtype other than 1 (MSI) is read as
/// RESERVED. An error is the first property at fault, or out of memory. There are fewer than 2^32
/// - 1 bytes.
pub fn decode(alloc: Global, bytes: &[u8]) -> Result<Vec<Region>, PropFault>
    requires { length bytes.now < 2 ^ 32 - 1 }
    // Unless memory runs out, the answer is what the properties read as.
    ensures found { IfSome (answered (λ v. v.items) result) (ReadsFrom bytes.now 0) }
    // They read as nothing else.
    ensures only { (read : Properties) → ReadsFrom bytes.now 0 read
        → IfSome (answered (λ v. v.items) result) (λ said. said ≡ read) }
{
    read_regions(alloc, bytes)
}
