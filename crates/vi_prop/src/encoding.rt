//! Regions to properties.
ghost use Rattle.std.specs.Prelude.{◌≡◌, ◌≤◌, ◌<◌, ◌+◌, ◌^◌, ◌++◌, length, take, drop, All};
ghost use Rattle.vi_bytes.specs.Properties.{kind_byte, property, property_bytes, ReadsFrom, Regions};
ghost use Rattle.vi_prop.specs.Lists.{IsProperRegion};

use crate::wire::{MSI, RESERVED, RESV_MEM, RESV_MEM_SIZE};
use byteorder::{ByteOrder, LittleEndian};
use vi_bytes::{Region, RegionKind, Span};

fn subtype(kind: RegionKind) -> u8
    ensures { result ≡ kind_byte kind }
{
    match kind {
        RegionKind::Reserved => RESERVED,
        RegionKind::Msi => MSI,
    }
}

// A property of type RESV_MEM, with the 20 bytes of its value.
#[tactic(auto, unfolding(vi_bytes::specs::Properties::property))]
fn property_of(region: Region) -> [u8; 24]
    ensures { result ≡ property region }
{
    let mut bytes = [0; 24];
    LittleEndian::write_u16(&mut bytes, RESV_MEM);
    LittleEndian::write_u16(&mut bytes[2..], RESV_MEM_SIZE);
    bytes[4] = subtype(region.kind);
    LittleEndian::write_u64(&mut bytes[8..], region.span.first);
    LittleEndian::write_u64(&mut bytes[16..], region.span.last);
    bytes
}

fn put_property(bytes: &mut [u8; 512], at: usize, region: Region)
    requires { at + 24 ≤ 512 }
    ensures bytes { bytes.new ≡ take at bytes.old ++ (property region ++ drop (at + 24) bytes.old) }
    ensures within { region.span.last < 2 ^ 64 }
{
    bytes[at..at + 24].copy_from_slice(&property_of(region));
}

/// The 512 bytes of the properties of these regions, in order: each a RESV_MEM property (Virtio
/// 1.2, 5.13.6.8.1), and zeros after them. There are at most 16 regions. Takes no memory.
pub fn encode(regions: &[Region]) -> [u8; 512]
    requires { length regions.now ≤ 16 }
    ensures bytes { result ≡ property_bytes regions.now }
    ensures reads { All IsProperRegion regions.now → ReadsFrom result 0 (Regions regions.now) }
{
    let mut bytes = [0; 512];
    for (i, region) in regions.iter().enumerate() {
        put_property(&mut bytes, 24 * i, *region);
    }
    bytes
}
