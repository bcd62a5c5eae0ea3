//! The ring: the driver's calls, the device's calls, and the raw area.
ghost use Rattle.std.specs.Prelude.{◌≡◌, ◌≤◌, ◌<◌, ◌+◌, ◌↔◌, [], ◌∷◌, ◌++◌, length, replicate, IfOk, IfSome, IfNone, Some, None, IsOk, IsErr, OnErr, option_map, count_by, ◌==◌};
ghost use Rattle.vi_vring.specs.Shown.{read_total, write_total};
ghost use Rattle.vi_vring.specs.Parts.{readable_bytes};
ghost use Rattle.vi_vring.specs.Device.{IsRoomy, popped_of};
ghost use Rattle.std.specs.Borrow.{sem};
ghost use Rattle.vi_vring.specs.Values.{RingValue};
ghost use Rattle.vi_vring.specs.Lending.{LendsArea};
ghost use Rattle.vi_vring.specs.Moves.{IsRingSize, IsAdded, chain_needs, free_count, head_count, new_ring, pieces_shown, ShowsChain, IsOut, ShowsPopped, first_popped, FirstIsFresh, IfChain, ring_after_pop, ring_after_push, ring_after_collect, popped_bytes, HoldsWritable, used_with, collected_into};

use crate::chain::{Chain, Full, Head, Popped};
use crate::device::{pieces_of, take_next, write_back};
use crate::driver::{copy_collected, place, read_used};
use crate::layout;
use crate::note::{Notes, descriptors_for};
use crate::parts::copy_readable;
use arrayvec::ArrayVec;
use std::alloc::{AllocError, Global};
use std::marker::Model;

/// One split virtqueue with its buffers in one area.
#[derive(Drop)]
pub struct Ring {
    size: u16,
    reading: u32,
    writing: u32,
    // The bytes of each buffer.
    room: u32,
    area: Vec<u8>,
    // How many available entries the device has taken, and how many used elements the driver has
    // read, modulo 2^16.
    taken: u16,
    seen: u16,
    // The area was lent to somebody else.
    lent: bool,
    notes: Notes,
}

impl Model for Ring {
    ghost use Rattle.vi_vring.specs.Values.{RingValue};

    ghost Value = { RingValue };

    ghost use Rattle.vi_vring.specs.Inner.{seen_as, IsKept};

    ghost view = { seen_as };

    ghost invariant = { IsKept };
}

impl Ring {
    /// An empty ring of `n` descriptors, with buffers of `read` and `write` bytes for the readable
    /// and the writable part of a chain. An error means out of memory, which no later call takes.
    pub fn build(alloc: Global, n: u16, read: u32, write: u32) -> Result<Ring, AllocError>
        requires size { IsRingSize n }
        requires read { read ≤ 1024 }
        requires write { write ≤ 1024 }
        requires some { 0 < read + write }
        ensures { IfOk result (λ r. r ≡ new_ring n read write) }
    {
        let room = read.max(write);
        let area = vec![in alloc; 0; layout::area(n, room)]?;
        let notes = Notes::build(alloc, n)?;
        Ok(Ring {
            size: n,
            reading: read,
            writing: write,
            room,
            area,
            taken: 0,
            seen: 0,
            lent: false,
            notes,
        })
    }

    /// The raw area, for hostile tests. Of what follows on a write to it, only `pop`, `readable` and
    /// `push` are known, by its bytes; `add` and `collect` return.
    pub fn area(&mut self) -> &mut [u8]
        ensures* lends { sem 𝓛 (LendsArea self.entry result) }
        ensures bytes { result.now ≡ self.old.area }
        ensures rings { IsRoomy self.old.size (length self.old.area) }
    {
        self.lent = true;
        self.area.as_mut_slice()
    }

    /// Makes a chain available that has these readable bytes and a writable part of `write` bytes. A
    /// part of length 0 needs no descriptor. `Full` where fewer descriptors are free than the chain
    /// needs. Condition: the parts fit the buffers, and aren't both empty.
    pub fn add(&mut self, read: &[u8], write: u32) -> Result<Head, Full>
        requires read { length read.now ≤ self.old.reading }
        requires write { write ≤ self.old.writing }
        requires some { 0 < length read.now + write }
        ensures added { IfOk result (λ h. IsAdded h.0 read.now write self.old self.new) }
        ensures refused { OnErr result (self.new ≡ self.old) }
        ensures full { IfSome self.old.lists (λ l. IsErr result ↔ (free_count self.old.size l < chain_needs (length read.now) write)) }
        ensures fresh { IfOk result (λ h. (h.0 < self.old.size) × IfSome self.old.lists (λ l. head_count h.0 l ≡ 0)) }
        ensures shows { ShowsPopped self.new }
    {
        let free = self.notes.free();
        let len = read.len() as u32;
        if free < descriptors_for(len, write) {
            return Err(Full);
        }
        let note = self.notes.add(len, write);
        place(&mut self.area, self.size, self.room, note, read);
        Ok(Head(note.head))
    }

    /// Takes the next entry of the available ring. The answer is exact for every content of the
    /// area. A chain with a break is passed over, and returned as used with length 0.
    pub fn pop(&mut self) -> Popped
        ensures popped { result ≡ popped_of self.old.size self.old.area self.old.taken }
        ensures ring { self.new ≡ ring_after_pop self.old }
        ensures first { IfSome self.old.lists (λ l. result ≡ first_popped l.available) }
        ensures fresh { IfSome self.old.lists (λ l. FirstIsFresh self.old.size l l.available) }
        ensures shown { IfChain result (λ chain. ShowsChain self.new chain) }
        ensures out { IfChain result (λ chain. IsOut chain self.new) }
        ensures shows { ShowsPopped self.new }
    {
        let popped = take_next(&mut self.area, self.size, &mut self.taken);
        self.notes.note_popped(popped);
        popped
    }

    /// Copies the readable part of the chain to `out`, which has its length. The area shows this
    /// chain, and it is popped and not pushed, as long as nobody else wrote to the area.
    pub fn readable(&self, chain: &Chain, out: &mut [u8])
        requires shown { ShowsChain self.now chain.now }
        requires out { IsOut chain.now self.now }
        requires room { length out.old ≡ chain.now.read }
        ensures bytes { out.new ≡ readable_bytes self.now.area (pieces_shown self.now.size self.now.area chain.now.head) }
        ensures queued { IfSome self.now.lists (λ l. popped_bytes chain.now.head l ≡ Some out.new) }
    {
        let mut pieces = ArrayVec::new();
        pieces_of(&self.area, self.size, chain, &mut pieces);
        copy_readable(&self.area, &pieces, out);
    }

    /// Writes the bytes at the start of the chain's writable part, which they fit, and returns the
    /// chain as used with their count. The area shows this chain, and it is popped and not pushed,
    /// as long as nobody else wrote to the area.
    pub fn push(&mut self, chain: Chain, bytes: &[u8])
        requires shown { ShowsChain self.old chain }
        requires out { IsOut chain self.old }
        requires fits { length bytes.now ≤ chain.write }
        ensures ring { self.new ≡ ring_after_push chain bytes.now self.old }
        ensures once { IfSome self.old.lists (λ l. (chain.head < self.old.size) × (count_by (λ q. q.head == chain.head) l.popped ≡ 1)) }
        ensures shows { ShowsPopped self.new }
    {
        write_back(&mut self.area, self.size, &chain, bytes);
        self.notes.push(chain.head, bytes.len() as u32);
    }

    /// Copies what the device wrote to a used chain to the front of `out`, and answers how many bytes;
    /// the chain's descriptors are free again. `None` where no used chain has this head, and then
    /// nothing changes. `out` holds the chain's writable part, or any chain's.
    ///
    /// A used element with an id that isn't of a returned chain is passed over, and a used length
    /// above the chain's writable length counts as that.
    pub fn collect(&mut self, head: Head, out: &mut [u8]) -> Option<u32>
        requires { HoldsWritable head.0 (length out.old) self.old }
        ensures len { IfSome self.old.lists (λ l. result ≡ option_map (λ u. length u.bytes) (used_with head.0 l)) }
        ensures bytes { IfSome self.old.lists (λ l. out.new ≡ collected_into (used_with head.0 l) out.old) }
        ensures ring { self.new ≡ ring_after_collect head.0 self.old }
        ensures none { IfNone result (self.new ≡ self.old) }
        ensures shows { ShowsPopped self.new }
    {
        read_used(&self.area, self.size, &mut self.seen, &mut self.notes);
        let note = self.notes.collect(head.0);
        copy_collected(&self.area, self.size, self.room, note, out)
    }
}
