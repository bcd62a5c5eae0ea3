//! The walk along a chain of descriptors (Virtio 1.2, 2.7.5), over an area with any content.
ghost use Rattle.std.specs.Prelude.{◌≡◌, ◌≤◌, ◌+◌, ◌*◌, [], length, false, Ok, IfOk, IsOk};
ghost use Rattle.vi_vring.specs.Shown.{has_flag, piece_at, next_at, is_mixed, part_total, passes_memory, described, counted, surveyed, shown, IsSmall, Fits};

use crate::Break;
use crate::bytes::{u16_at, u32_at, u64_at};
use crate::layout::{MOST_BYTES, descriptor};
use arrayvec::ArrayVec;

/// The flags of a descriptor.
pub const NEXT: u16 = 1;

pub const WRITE: u16 = 2;

pub const INDIRECT: u16 = 4;

/// The buffer of one descriptor of a chain: `len` bytes from the offset `address` of the area on,
/// which the device writes or reads.
#[derive(Clone, Copy, Debug, PartialEq, Eq, Default)]
pub struct Piece {
    pub address: u64,
    pub len: u32,
    pub writes: bool,
}

/// What of a chain's pieces counts for its next descriptor: how many bytes the readable and the
/// writable ones have, and whether one is writable.
#[derive(Clone, Copy, Debug, PartialEq, Eq)]
pub struct Totals {
    pub read: u32,
    pub write: u32,
    pub has_writable: bool,
}

/// A descriptor: its buffer, and the next descriptor of the chain, if there is one.
#[derive(Clone, Copy)]
pub struct Descriptor {
    pub piece: Piece,
    pub next: Option<u16>,
}

fn has_flag(area: &[u8], d: u16, flag: u16) -> bool
    requires { 16 * d + 16 ≤ length area.now }
    ensures { result ≡ has_flag flag d area.now }
{
    u16_at(area, descriptor(d) + 12) & flag != 0
}

// The buffer of the descriptor `d`.
fn piece_of(area: &[u8], d: u16) -> Piece
    requires { 16 * d + 16 ≤ length area.now }
    ensures { result ≡ piece_at d area.now }
{
    Piece {
        address: u64_at(area, descriptor(d)),
        len: u32_at(area, descriptor(d) + 8),
        writes: has_flag(area, d, WRITE),
    }
}

// The descriptor behind `d` in its chain.
fn next_of(area: &[u8], d: u16) -> Option<u16>
    requires { 16 * d + 16 ≤ length area.now }
    ensures { result ≡ next_at d area.now }
{
    if has_flag(area, d, NEXT) {
        Some(u16_at(area, descriptor(d) + 14))
    } else {
        None
    }
}

// Whether the piece is readable and a writable one stands before it.
fn is_mixed(piece: Piece, so_far: Totals) -> bool
    ensures { result ≡ is_mixed piece so_far }
{
    !piece.writes && so_far.has_writable
}

// How many bytes of this piece's part stand before it.
fn part_total(piece: Piece, so_far: Totals) -> u32
    requires { IsSmall so_far }
    ensures part { result ≡ part_total piece so_far }
    ensures small { result ≤ 1024 }
{
    if piece.writes {
        so_far.write
    } else {
        so_far.read
    }
}

// Whether the piece passes the area's end, or its part has more than 1024 bytes with it.
fn passes_memory(area: &[u8], piece: Piece, so_far: Totals) -> bool
    requires { IsSmall so_far }
    ensures { result ≡ passes_memory area.now piece so_far }
{
    let end = area.len() as u64;
    let total = part_total(piece, so_far);
    piece.address > end
        || u64::from(piece.len) > end - piece.address
        || piece.len > MOST_BYTES - total
}

// The descriptor `d` behind pieces with these totals, or its break.
fn describe(area: &[u8], d: u16, so_far: Totals) -> Result<Descriptor, Break>
    requires table { 16 * d + 16 ≤ length area.now }
    requires small { IsSmall so_far }
    ensures described { result ≡ described area.now d so_far }
    ensures fits { IfOk result (λ found. passes_memory area.now found.piece so_far ≡ false) }
{
    if has_flag(area, d, INDIRECT) {
        return Err(Break::Indirect);
    }
    let piece = piece_of(area, d);
    if is_mixed(piece, so_far) {
        return Err(Break::Mixed);
    }
    if passes_memory(area, piece, so_far) {
        return Err(Break::Memory);
    }
    let next = next_of(area, d);
    Ok(Descriptor { piece, next })
}

// The totals with one more piece.
fn counted(piece: Piece, so_far: Totals) -> Totals
    requires small { IsSmall so_far }
    requires len { piece.len ≤ 1024 }
    ensures { result ≡ counted piece so_far }
{
    if piece.writes {
        Totals {
            read: so_far.read,
            write: so_far.write + piece.len,
            has_writable: true,
        }
    } else {
        Totals {
            read: so_far.read + piece.len,
            write: so_far.write,
            has_writable: so_far.has_writable,
        }
    }
}

/// The totals of the chain that begins at `head`, or its break. No piece is kept.
pub fn survey(area: &[u8], n: u16, head: u16) -> Result<Totals, Break>
    requires size { n ≤ 256 }
    requires table { 16 * n ≤ length area.now }
    ensures { result ≡ surveyed (shown n area.now head) }
{
    let mut so_far = Totals {
        read: 0,
        write: 0,
        has_writable: false,
    };
    let mut d = head;
    'chain: for _passed in 0..n {
        if d >= n {
            return Err(Break::Outside);
        }
        let found = describe(area, d, so_far)?;
        so_far = counted(found.piece, so_far);
        match found.next {
            Some(next) => d = next,
            None => return Ok(so_far),
        }
    }
    Err(if d >= n { Break::Outside } else { Break::Loop })
}

/// Puts the pieces of the chain that begins at `head` into the list, in order. The area shows this
/// chain without a break.
pub fn gather(area: &[u8], n: u16, head: u16, pieces: &mut ArrayVec<Piece, 256>)
    requires size { n ≤ 256 }
    requires table { 16 * n ≤ length area.now }
    requires unbroken { IsOk (shown n area.now head) }
    requires empty { pieces.old.items ≡ [] }
    ensures shown { shown n area.now head ≡ Ok pieces.new.items }
    ensures fits { Fits area.now pieces.new.items }
{
    let mut d = head;
    // A chain without a break ends within as many descriptors as the table has.
    'chain: for _passed in 0..n {
        let piece = piece_of(area, d);
        pieces.push(piece);
        match next_of(area, d) {
            Some(next) => d = next,
            None => return,
        }
    }
}
