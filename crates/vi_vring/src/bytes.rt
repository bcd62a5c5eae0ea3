//! Numbers in bytes, the lowest byte first.
ghost use Rattle.std.specs.Prelude.{◌≡◌, ◌≤◌, ◌+◌, length};
ghost use Rattle.vi_bytes.specs.Fields.{field};
ghost use Rattle.vi_vring.specs.Writes.{written};

use byteorder::{ByteOrder, LittleEndian};

pub fn u16_at(area: &[u8], at: usize) -> u16
    requires { at + 2 ≤ length area.now }
    ensures { result ≡ field at 2 area.now }
{
    LittleEndian::read_u16(&area[at..])
}

pub fn u32_at(area: &[u8], at: usize) -> u32
    requires { at + 4 ≤ length area.now }
    ensures { result ≡ field at 4 area.now }
{
    LittleEndian::read_u32(&area[at..])
}

pub fn u64_at(area: &[u8], at: usize) -> u64
    requires { at + 8 ≤ length area.now }
    ensures { result ≡ field at 8 area.now }
{
    LittleEndian::read_u64(&area[at..])
}

/// Writes the bytes from this offset on.
pub fn put(area: &mut [u8], at: usize, bytes: &[u8])
    requires { at + length bytes.now ≤ length area.old }
    ensures { area.new ≡ written at bytes.now area.old }
{
    area[at..at + bytes.len()].copy_from_slice(bytes);
}
