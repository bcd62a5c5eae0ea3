//! Where the parts of a ring of `n` descriptors stand in its area (Virtio 1.2, 2.7.2): the
//! descriptor table, the available ring, the used ring at the next multiple of 4, the buffers.
ghost use Rattle.std.specs.Prelude.{◌≡◌, ◌≤◌, ◌<◌, ◌+◌, ◌*◌, ◌%◌};
ghost use Rattle.vi_vring.specs.Layout.{descriptor_at, available_index_at, available_entry_at, used_index_at, used_element_at, buffer_at, area_length};

/// The most descriptors that a ring has.
pub const MOST_DESCRIPTORS: usize = 256;

/// The most bytes that the readable or the writable part of a chain has.
pub const MOST_BYTES: u32 = 1024;

pub fn descriptor(d: u16) -> usize
    ensures { result ≡ descriptor_at d }
{
    16 * usize::from(d)
}

pub fn available_index(n: u16) -> usize
    ensures { result ≡ available_index_at n }
{
    16 * usize::from(n) + 2
}

pub fn available_entry(n: u16, index: u16) -> usize
    requires { 0 < n }
    ensures { result ≡ available_entry_at n index }
{
    16 * usize::from(n) + 4 + 2 * usize::from(index % n)
}

pub fn used_index(n: u16) -> usize
    ensures { result ≡ used_index_at n }
{
    18 * usize::from(n) + 10
}

pub fn used_element(n: u16, index: u16) -> usize
    requires { 0 < n }
    ensures { result ≡ used_element_at n index }
{
    18 * usize::from(n) + 12 + 8 * usize::from(index % n)
}

/// The buffer of `room` bytes of the descriptor `d`.
pub fn buffer(n: u16, room: u32, d: u16) -> usize
    requires { room ≤ 1024 }
    ensures { result ≡ buffer_at n room d }
{
    26 * usize::from(n) + 14 + room as usize * usize::from(d)
}

/// How many bytes the area has.
pub fn area(n: u16, room: u32) -> usize
    requires { room ≤ 1024 }
    ensures { result ≡ area_length n room }
{
    buffer(n, room, n)
}
