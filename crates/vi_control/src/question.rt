//! What a back end asks: the part of which line an address is of.
ghost use Rattle.std.specs.Prelude.{◌≡◌, ◌-◌, ◌+◌, ◌^◌, ◌<◌, [], length, map, get_or};
ghost use Rattle.vi_lanes.specs.Frames.{said};
ghost use Rattle.vi_model.specs.Control.{link_of};
ghost use Rattle.vi_control.specs.Asked.{no_transfer, part_with, asked_at};
ghost use Rattle.vi_control.specs.Calls.{IsWithin};

use crate::Transfer;
use vi_bytes::{Need, page_of};

/// What a line that there isn't transfers.
const NO_TRANSFER: Transfer = Transfer {
    iova: 0,
    len: 0,
    need: Need::Read,
};

/// What the back end at a place transfers in its line after so many.
pub(crate) fn transfer_after(transfers: &[Vec<Transfer>], place: u32, before: u32) -> Transfer
    requires { place < length transfers.now }
    ensures { result ≡ get_or (get_or (map (λ t. t.items) transfers.now) place []) before no_transfer }
{
    match transfers[place as usize].get(before as usize) {
        Some(transfer) => *transfer,
        None => NO_TRANSFER,
    }
}

/// The part of a transfer that has this address, from 1.
pub(crate) fn part_with(transfer: &Transfer, iova: u64) -> u32
    requires { IsWithin transfer.now iova }
    ensures { result ≡ part_with transfer.now iova }
{
    (page_of(iova) - page_of(transfer.iova)) as u32 + 1
}
