//! What the driver keeps of its chains: descriptors and lengths, never the requests' bytes.
ghost use Rattle.std.specs.Prelude.{◌≡◌, ◌≤◌, ◌<◌, ◌+◌, ◌-◌, ◌∷◌, [], ◌++◌, length, take, find, slice_index, vec_len, vec_capacity, Some, IfOk, IfNone};
ghost use Rattle.vi_vring.specs.Notes.{NoteLists, has_head, without, needs_of, needs, descriptors, note_for, noted_add, noted_pop, noted_popped, noted_push, noted_read, noted_collect, Whole, no_notes};

use crate::chain::Popped;
use std::alloc::{AllocError, Global};
use std::marker::Model;

/// A chain of the driver. Its readable part has the buffer of the descriptor `head` and its
/// writable part that of `tail`; where one of them is empty, both are the chain's one descriptor.
/// `len` is how many bytes the device wrote, once it returned the chain.
#[derive(Clone, Copy)]
pub struct Note {
    pub head: u16,
    pub tail: u16,
    pub read: u32,
    pub write: u32,
    pub len: u32,
}

/// How many descriptors a chain with these lengths needs.
pub fn descriptors_for(read: u32, write: u32) -> usize
    ensures { result ≡ needs_of read write }
{
    if read > 0 && write > 0 { 2 } else { 1 }
}

/// Takes the first note with this head out of the list.
fn take_out(notes: &mut Vec<Note>, head: u32) -> Option<Note>
    ensures note { result ≡ find (has_head head) notes.old.items }
    ensures rest { notes.new.items ≡ without head notes.old.items }
    ensures capacity { vec_capacity notes.new ≡ vec_capacity notes.old }
{
    for i in 0..notes.len() {
        if u32::from(notes[i].head) == head {
            return Some(notes.remove(i));
        }
    }
    None
}

// Takes the descriptors of a chain with these lengths: the first and the last.
fn take_free(free: &mut Vec<u16>, read: u32, write: u32) -> (u16, u16)
    requires { needs_of read write ≤ length free.old.items }
    ensures capacity { vec_capacity free.new ≡ vec_capacity free.old }
    ensures rest { free.new.items ≡ take (length free.old.items - needs_of read write) free.old.items }
    ensures head { result.0 ≡ slice_index free.old.items (length free.old.items - 1) }
    ensures tail { result.1 ≡ slice_index free.old.items (length free.old.items - needs_of read write) }
{
    let count = free.len();
    let head = free[count - 1];
    let left = if read > 0 && write > 0 {
        count - 2
    } else {
        count - 1
    };
    let tail = free[left];
    free.truncate(left);
    (head, tail)
}

// Frees the chain's descriptors.
fn give_back(free: &mut Vec<u16>, note: Note)
    requires { vec_len free.old + needs note ≤ vec_capacity free.old }
    ensures items { free.new.items ≡ free.old.items ++ descriptors note }
    ensures capacity { vec_capacity free.new ≡ vec_capacity free.old }
{
    free.push_reserved(note.head);
    if note.read > 0 && note.write > 0 {
        free.push_reserved(note.tail);
    }
}

/// The free descriptors, and a note of each chain that isn't collected: those that wait in the
/// available ring, those that the device popped, those whose used element the driver hasn't read,
/// and those that it has read.
#[derive(Drop)]
pub struct Notes {
    size: u16,
    free: Vec<u16>,
    available: Vec<Note>,
    popped: Vec<Note>,
    unread: Vec<Note>,
    uncollected: Vec<Note>,
}

impl Model for Notes {
    ghost use Rattle.std.specs.Prelude.{◌≤◌, vec_capacity};
    ghost use Rattle.vi_vring.specs.Notes.{NoteLists};

    ghost Value = { NoteLists };

    ghost view = { λ n. record { size = n.size; free = n.free.items; available = n.available.items; popped = n.popped.items; unread = n.unread.items; uncollected = n.uncollected.items } };

    ghost invariant = { λ n. (n.size ≤ vec_capacity n.free) × (n.size ≤ vec_capacity n.available) × (n.size ≤ vec_capacity n.popped) × (n.size ≤ vec_capacity n.unread) × (n.size ≤ vec_capacity n.uncollected) };
}

impl Notes {
    /// Notes of no chain: all descriptors are free.
    pub fn build(alloc: Global, n: u16) -> Result<Notes, AllocError>
        ensures { IfOk result (λ v. v ≡ no_notes n) }
    {
        let room = usize::from(n);
        let mut free = Vec::with_capacity(alloc, room)?;
        for d in 0..n {
            free.push_reserved(d);
        }
        Ok(Notes {
            size: n,
            free,
            available: Vec::with_capacity(alloc, room)?,
            popped: Vec::with_capacity(alloc, room)?,
            unread: Vec::with_capacity(alloc, room)?,
            uncollected: Vec::with_capacity(alloc, room)?,
        })
    }

    /// How many descriptors are free.
    pub fn free(&self) -> usize
        ensures { result ≡ length self.now.free }
    {
        self.free.len()
    }

    /// Takes descriptors for a chain with these lengths, which then is available.
    pub fn add(&mut self, read: u32, write: u32) -> Note
        requires whole { Whole self.old }
        requires room { needs_of read write ≤ length self.old.free }
        ensures added { self.new ≡ noted_add result self.old }
        ensures note { result ≡ note_for read write self.old }
    {
        let (head, tail) = take_free(&mut self.free, read, write);
        let note = Note {
            head,
            tail,
            read,
            write,
            len: 0,
        };
        self.available.push_reserved(note);
        note
    }

    /// Notes that the device popped this chain, where it is the first in the available ring.
    pub fn pop(&mut self, head: u16)
        requires { Whole self.old }
        ensures { self.new ≡ noted_pop head self.old }
    {
        if !self.available.is_empty() && self.available[0].head == head {
            let note = self.available.remove(0);
            self.popped.push_reserved(note);
        }
    }

    /// Notes what the device popped.
    pub fn note_popped(&mut self, popped: Popped)
        requires { Whole self.old }
        ensures { self.new ≡ noted_popped popped self.old }
    {
        match popped {
            Popped::Chain(chain) => self.pop(chain.head),
            Popped::Empty | Popped::Broken(_) => {}
        }
    }

    /// Notes that the device returned this chain, where it was popped.
    pub fn push(&mut self, head: u16, len: u32)
        requires { Whole self.old }
        ensures { self.new ≡ noted_push head len self.old }
    {
        match take_out(&mut self.popped, u32::from(head)) {
            Some(note) => {
                let len = len.min(note.write);
                self.unread.push_reserved(Note { len, ..note });
            }
            None => {}
        }
    }

    /// Notes that the driver read a used element. One with an id that isn't of a returned chain is
    /// passed over, and a length above the chain's writable length counts as that.
    pub fn read(&mut self, id: u32, len: u32)
        requires { Whole self.old }
        ensures { self.new ≡ noted_read id len self.old }
    {
        match take_out(&mut self.unread, id) {
            Some(note) => {
                let len = len.min(note.write);
                self.uncollected.push_reserved(Note { len, ..note });
            }
            None => {}
        }
    }

    /// Takes the note of a chain whose used element was read. Its descriptors are free again.
    pub fn collect(&mut self, head: u16) -> Option<Note>
        requires { Whole self.old }
        ensures note { result ≡ find (has_head head) self.old.uncollected }
        ensures collected { self.new ≡ noted_collect head self.old }
    {
        match take_out(&mut self.uncollected, u32::from(head)) {
            Some(note) => {
                give_back(&mut self.free, note);
                Some(note)
            }
            None => None,
        }
    }
}
