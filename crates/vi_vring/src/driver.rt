//! The driver's side: chains as bytes.
ghost use Rattle.std.specs.Prelude.{◌≡◌, ◌≤◌, ◌<◌, ◌+◌, ◌*◌, ◌^◌, ◌++◌, length, min, IfSome, option_map};
ghost use Rattle.vi_vring.specs.Layout.{buffer_at, area_length};
ghost use Rattle.vi_vring.specs.Device.{IsRoomy, used_index};
ghost use Rattle.vi_vring.specs.Notes.{Whole};
ghost use Rattle.vi_vring.specs.Writes.{written, bytes_at};
ghost use Rattle.vi_vring.specs.Reads.{read_from, index_gap, copied_into};
ghost use Rattle.vi_vring.specs.Driver.{descriptor_bytes, readable_flags, readable_descriptor, readable_laid, writable_laid, offered, placed, IsPlaceable};

use crate::bytes::{put, u16_at, u32_at};
use crate::device::index_of;
use crate::layout;
use crate::note::{Note, Notes};
use crate::walking::{NEXT, WRITE};
use byteorder::{ByteOrder, LittleEndian};

fn descriptor_of(address: u64, len: u32, flags: u16, next: u16) -> [u8; 16]
    ensures { result ≡ descriptor_bytes address len flags next }
{
    let mut bytes = [0; 16];
    LittleEndian::write_u64(&mut bytes, address);
    LittleEndian::write_u32(&mut bytes[8..], len);
    LittleEndian::write_u16(&mut bytes[12..], flags);
    LittleEndian::write_u16(&mut bytes[14..], next);
    bytes
}

// The descriptor of the writable part, where there is one.
fn lay_writable(area: &mut [u8], n: u16, room: u32, note: Note)
    requires table { 16 * note.tail + 16 ≤ length area.old }
    requires place { room ≤ 1024 }
    ensures { area.new ≡ writable_laid n room note area.old }
{
    if note.write > 0 {
        let address = layout::buffer(n, room, note.tail) as u64;
        put(
            area,
            layout::descriptor(note.tail),
            &descriptor_of(address, note.write, WRITE, 0),
        );
    }
}

// The flags of the readable part's descriptor, before a writable part of this length.
fn readable_flags(write: u32) -> u16
    ensures { result ≡ readable_flags write }
{
    if write > 0 { NEXT } else { 0 }
}

fn readable_descriptor(n: u16, room: u32, note: Note) -> [u8; 16]
    requires { room ≤ 1024 }
    ensures { result ≡ readable_descriptor n room note }
{
    let address = layout::buffer(n, room, note.head) as u64;
    descriptor_of(address, note.read, readable_flags(note.write), note.tail)
}

// The descriptor of the readable part, where there is one. It leads to that of the writable part.
fn lay_readable(area: &mut [u8], n: u16, room: u32, note: Note)
    requires table { 16 * note.head + 16 ≤ length area.old }
    requires place { room ≤ 1024 }
    ensures { area.new ≡ readable_laid n room note area.old }
{
    if note.read > 0 {
        put(
            area,
            layout::descriptor(note.head),
            &readable_descriptor(n, room, note),
        );
    }
}

// Makes the chain available.
#[tactic(auto, unfolding(crate::specs::Driver::offered))]
fn offer(area: &mut [u8], n: u16, head: u16)
    requires { IsRoomy n (length area.old) }
    ensures { area.new ≡ offered n head area.old }
{
    let index = u16_at(area, layout::available_index(n));
    put(area, layout::available_entry(n, index), &index_of(head));
    put(
        area,
        layout::available_index(n),
        &index_of(index.wrapping_add(1)),
    );
}

/// Writes the readable bytes of a chain, its descriptors and its available entry.
#[tactic(auto, unfolding(crate::specs::Driver::placed))]
pub fn place(area: &mut [u8], n: u16, room: u32, note: Note, bytes: &[u8])
    requires roomy { IsRoomy n (length area.old) }
    requires note { IsPlaceable n room note (length bytes.now) (length area.old) }
    ensures { area.new ≡ placed n room note bytes.now area.old }
{
    put(area, layout::buffer(n, room, note.head), bytes);
    lay_writable(area, n, room, note);
    lay_readable(area, n, room, note);
    offer(area, n, note.head);
}

/// Reads the used elements that the driver hasn't read, from the index `seen` on.
pub fn read_used(area: &[u8], n: u16, seen: &mut u16, notes: &mut Notes)
    requires roomy { IsRoomy n (length area.now) }
    requires whole { Whole notes.old }
    ensures seen { seen.new ≡ used_index n area.now }
    ensures notes { notes.new ≡ read_from n area.now (index_gap seen.old (used_index n area.now)) seen.old notes.old }
{
    let end = u16_at(area, layout::used_index(n));
    let mut index = *seen;
    while index != end {
        let at = layout::used_element(n, index);
        notes.read(u32_at(area, at), u32_at(area, at + 4));
        index = index.wrapping_add(1);
    }
    *seen = end;
}

// Copies what the device wrote to the chain to the front of `out`, and answers how many bytes.
fn copy_written(area: &[u8], n: u16, room: u32, note: Note, out: &mut [u8]) -> u32
    requires small { room ≤ 1024 }
    requires inside { buffer_at n room note.tail + note.len ≤ length area.now }
    ensures count { result ≡ min note.len (length out.old) }
    ensures bytes { out.new ≡ written 0 (bytes_at (buffer_at n room note.tail) (min note.len (length out.old)) area.now) out.old }
{
    let at = layout::buffer(n, room, note.tail);
    let len = out.len().min(note.len as usize);
    put(out, 0, &area[at..at + len]);
    len as u32
}

/// The same for the chain of this note, if there is one.
pub fn copy_collected(
    area: &[u8],
    n: u16,
    room: u32,
    note: Option<Note>,
    out: &mut [u8],
) -> Option<u32>
    requires small { room ≤ 1024 }
    requires inside { IfSome note (λ x. buffer_at n room x.tail + x.len ≤ length area.now) }
    ensures count { result ≡ option_map (λ x. min x.len (length out.old)) note }
    ensures bytes { out.new ≡ copied_into n room area.now note out.old }
{
    match note {
        Some(note) => Some(copy_written(area, n, room, note, out)),
        None => None,
    }
}
