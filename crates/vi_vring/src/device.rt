//! The device's side, over an area with any content.
ghost use Rattle.std.specs.Prelude.{◌≡◌, ◌≤◌, ◌<◌, ◌+◌, ◌*◌, [], ◌++◌, length};
ghost use Rattle.byteorder.specs.Endian.{little_bytes};
ghost use Rattle.vi_bytes.specs.Fields.{field};
ghost use Rattle.vi_vring.specs.Layout.{available_index_at, available_entry_at, used_index_at};
ghost use Rattle.vi_vring.specs.Shown.{shown, Fits, read_total, write_total};
ghost use Rattle.vi_vring.specs.Moves.{pieces_shown, area_after_push};
ghost use Rattle.vi_vring.specs.Device.{used_element, used_after, popped_as, popped_of, area_after_pop, taken_after_pop, IsRoomy};

use crate::bytes::{put, u16_at};
use crate::chain::{Chain, Popped};
use crate::layout;
use crate::parts::scatter;
use crate::walking::{Piece, gather, survey};
use arrayvec::ArrayVec;
use byteorder::{ByteOrder, LittleEndian};

fn element_of(id: u16, len: u32) -> [u8; 8]
    ensures { result ≡ used_element id len }
{
    let mut bytes = [0; 8];
    LittleEndian::write_u32(&mut bytes, u32::from(id));
    LittleEndian::write_u32(&mut bytes[4..], len);
    bytes
}

pub fn index_of(index: u16) -> [u8; 2]
    ensures { result ≡ little_bytes 2 index }
{
    let mut bytes = [0; 2];
    LittleEndian::write_u16(&mut bytes, index);
    bytes
}

/// Returns the chain that begins at `id` as used with this length.
#[tactic(auto, unfolding(crate::specs::Device::used_after))]
pub fn return_used(area: &mut [u8], n: u16, id: u16, len: u32)
    requires { IsRoomy n (length area.old) }
    ensures { area.new ≡ used_after n id len area.old }
{
    let index = u16_at(area, layout::used_index(n));
    put(area, layout::used_element(n, index), &element_of(id, len));
    put(
        area,
        layout::used_index(n),
        &index_of(index.wrapping_add(1)),
    );
}

/// Takes the next entry of the available ring, which begins with the index `taken`.
pub fn take_next(area: &mut [u8], n: u16, taken: &mut u16) -> Popped
    requires { IsRoomy n (length area.old) }
    ensures popped { result ≡ popped_of n area.old taken.old }
    ensures area { area.new ≡ area_after_pop n taken.old area.old }
    ensures taken { taken.new ≡ taken_after_pop n area.old taken.old }
{
    if u16_at(area, layout::available_index(n)) == *taken {
        return Popped::Empty;
    }
    let head = u16_at(area, layout::available_entry(n, *taken));
    *taken = taken.wrapping_add(1);
    match survey(area, n, head) {
        Ok(found) => Popped::Chain(Chain {
            head,
            read: found.read,
            write: found.write,
        }),
        Err(fault) => {
            return_used(area, n, head, 0);
            Popped::Broken(fault)
        }
    }
}

/// Puts the pieces of a chain that the area shows without a break into the list, which is lent since
/// it is too long to be moved.
pub fn pieces_of(area: &[u8], n: u16, chain: &Chain, pieces: &mut ArrayVec<Piece, 256>)
    requires roomy { IsRoomy n (length area.now) }
    requires shown { popped_as chain.now.head (shown n area.now chain.now.head) ≡ Popped.Chain chain.now }
    requires empty { pieces.old.items ≡ [] }
    ensures pieces { pieces.new.items ≡ pieces_shown n area.now chain.now.head }
    ensures fits { Fits area.now pieces.new.items }
    ensures read { read_total pieces.new.items ≡ chain.now.read }
    ensures write { write_total pieces.new.items ≡ chain.now.write }
{
    gather(area, n, chain.head, pieces);
}

/// Writes the bytes at the start of the chain's writable part, and returns the chain as used.
#[tactic(auto, unfolding(crate::specs::Moves::area_after_push))]
pub fn write_back(area: &mut [u8], n: u16, chain: &Chain, bytes: &[u8])
    requires roomy { IsRoomy n (length area.old) }
    requires shown { popped_as chain.now.head (shown n area.old chain.now.head) ≡ Popped.Chain chain.now }
    requires fits { length bytes.now ≤ chain.now.write }
    ensures { area.new ≡ area_after_push n chain.now.head bytes.now area.old }
{
    let mut pieces = ArrayVec::new();
    pieces_of(area, n, chain, &mut pieces);
    scatter(area, &pieces, bytes);
    return_used(area, n, chain.head, bytes.len() as u32);
}
