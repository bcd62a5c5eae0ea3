//! The event buffers, as chains of a ring.
ghost use Rattle.std.specs.Prelude.{◌≡◌, ◌∷◌, ◌++◌, ◌+◌, ◌<◌, ◌↔◌, [], drop, length, map, slice_get, nat_lt, if◌then◌else◌, IfOk, IfSome, IfNone, IsNone, Some};
ghost use Rattle.vi_vring.specs.Moves.{IsRingSize};
ghost use Rattle.vi_events.specs.Buffers.{AreHeld, lists_in, with_record};
ghost use Rattle.vi_events.specs.Inside.{IsEventRing, record_chain};

use std::alloc::{AllocError, Global};
use std::collections::VecDeque;
use std::marker::Model;
use vi_vring::{Head, Popped, Ring};

// How many bytes a fault record has, and each event buffer (Virtio 1.2, 5.13.6.9).
const RECORD: u32 = 24;

/// Buffers for fault records, each one chain of a ring with 24 device-writable bytes. Those without a
/// record are available, and those with one used. Only `build` takes memory.
#[derive(Drop)]
pub struct Buffers {
    ring: Ring,
    // The heads of the used chains, the oldest record's first.
    heads: VecDeque<Head>,
}

impl Model for Buffers {
    ghost use Rattle.vi_events.specs.Buffers.{HeldRecords};

    ghost Value = { HeldRecords };

    ghost use Rattle.vi_events.specs.Inside.{held_in, HasHeads};

    ghost view = { λ b. held_in b.ring };

    ghost invariant = { HasHeads };
}

impl Buffers {
    /// So many buffers, all of them offered. An error means out of memory.
    pub fn build(alloc: Global, buffers: u16) -> Result<Buffers, AllocError>
        requires { IsRingSize buffers }
        ensures { IfOk result (λ b. b ≡ record { buffers = buffers; records = [] }) }
    {
        let mut ring = Ring::build(alloc, buffers, 0, RECORD)?;
        let heads = VecDeque::with_capacity(alloc, buffers as usize)?;
        for _ in 0..buffers {
            offer(&mut ring);
        }
        Ok(Buffers { ring, heads })
    }

    /// Puts a record of these bytes into the buffer that was offered first, and answers `true`; `false`
    /// where each buffer has a record, and then nothing changes.
    pub fn put(&mut self, bytes: &[u8; 24]) -> bool
        ensures room { result ≡ nat_lt (length self.old.records) self.old.buffers }
        ensures put { self.new ≡ (if result then with_record bytes.now self.old else self.old) }
    {
        match fill(&mut self.ring, bytes) {
            Some(head) => {
                self.heads.push_back_reserved(head);
                true
            }
            None => false,
        }
    }

    /// The oldest record, whose buffer is offered again; `None` where no buffer has one, and then nothing
    /// changes.
    pub fn take(&mut self) -> Option<[u8; 24]>
        ensures oldest { result ≡ slice_get self.old.records 0 }
        ensures rest { self.new ≡ record self.old { records = drop 1 self.old.records } }
    {
        let head = self.heads.pop_front()?;
        let bytes = empty(&mut self.ring, head);
        offer(&mut self.ring);
        Some(bytes)
    }

    /// The ring, with its chains.
    pub fn ring(&self) -> &Ring
        ensures size { result.now.size ≡ self.now.buffers }
        ensures known { result.now.lists ≡ Some (lists_in result.now) }
        ensures held { AreHeld self.now (lists_in result.now) }
    {
        &self.ring
    }
}

// A buffer of a free descriptor is made available.
fn offer(ring: &mut Ring)
    requires events { IsEventRing ring.old }
    requires room { length (lists_in ring.old).used + length (lists_in ring.old).available < ring.old.size }
    ensures events { IsEventRing ring.new }
    ensures size { ring.new.size ≡ ring.old.size }
    ensures used { (lists_in ring.new).used ≡ (lists_in ring.old).used }
    ensures one_more { length (lists_in ring.new).available ≡ length (lists_in ring.old).available + 1 }
{
    ring.add(&[], RECORD).unwrap();
}

// The bytes are written to the first available buffer, whose chain becomes used; its head, or `None` where no
// buffer is available.
fn fill(ring: &mut Ring, bytes: &[u8; 24]) -> Option<Head>
    requires { IsEventRing ring.old }
    ensures events { IsEventRing ring.new }
    ensures size { ring.new.size ≡ ring.old.size }
    ensures used { IfSome result (λ h. (lists_in ring.new).used ≡ (lists_in ring.old).used ++ record_chain h.0 bytes.now ∷ []) }
    ensures one_less { IfSome result (λ h. length (lists_in ring.new).available + 1 ≡ length (lists_in ring.old).available) }
    ensures none { IfNone result ((lists_in ring.old).available ≡ []) }
    ensures same { IfNone result (lists_in ring.new ≡ lists_in ring.old) }
{
    match ring.pop() {
        Popped::Chain(chain) => {
            ring.push(chain, bytes);
            Some(Head(chain.head))
        }
        Popped::Empty | Popped::Broken(_) => None,
    }
}

// The record in the first used chain, which has this head. Its descriptor is free afterwards.
fn empty(ring: &mut Ring, head: Head) -> [u8; 24]
    requires events { IsEventRing ring.old }
    requires first { slice_get (map (λ u. u.head) (lists_in ring.old).used) 0 ≡ Some head.0 }
    ensures events { IsEventRing ring.new }
    ensures size { ring.new.size ≡ ring.old.size }
    ensures bytes { slice_get (map (λ u. u.bytes) (lists_in ring.old).used) 0 ≡ Some result }
    ensures used { (lists_in ring.new).used ≡ drop 1 (lists_in ring.old).used }
    ensures available { (lists_in ring.new).available ≡ (lists_in ring.old).available }
{
    let mut bytes = [0; 24];
    ring.collect(head, &mut bytes);
    bytes
}
