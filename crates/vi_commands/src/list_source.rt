//! A source over bytes in memory, which gives a few bytes a call and fails in listed calls.
ghost use Rattle.std.specs.Prelude.{◌≡◌, ◌+◌, ◌≤◌, ◌==◌, ◌↔◌, List, length, drop, min, IsTrue, IsErr, IfOk};
ghost use Rattle.std.specs.List.{list_any};
ghost use Rattle.std.specs.Io.{ReadsAtMost};
ghost use Rattle.std.specs.Io.KnownBytes.{ReadConsumes};
ghost use Rattle.vi_commands.specs.Causes.{HasCause};

use crate::outside::{Failed, Source};
use vi_bytes::{Bytes, Items};

/// A source that gives these bytes, at most `most` in a call. The calls whose numbers, from 1,
/// stand in `fails` fail. It tells what is left.
#[derive(Debug, Drop)]
pub struct ListSource {
    pub bytes: Bytes,
    pub most: u32,
    pub fails: Items<u32>,
    place: usize,
    calls: u64,
    faults: u64,
    ghost gives_some: { 1 ≤ most },
    ghost within: { place ≤ length bytes },
}

impl ListSource {
    ghost use Rattle.vi_commands.specs.ListSource.{bytes_left, next_read, read_faults};

    /// A source with all these bytes left, no call made and no fault. It takes no memory.
    pub fn new(bytes: Bytes, most: u32, fails: Items<u32>) -> ListSource
        requires { 1 ≤ most }
        ensures left { bytes_left result ≡ bytes }
        ensures bytes { result.bytes ≡ bytes }
        ensures most { result.most ≡ most }
        ensures fails { result.fails ≡ fails }
        ensures first { next_read result ≡ 1 }
        ensures no_fault { read_faults result ≡ 0 }
    {
        ListSource {
            bytes,
            most,
            fails,
            place: 0,
            calls: 0,
            faults: 0,
        }
    }
}

impl Source for ListSource {
    ghost use Rattle.std.specs.Prelude.{Some};
    ghost use Rattle.vi_commands.specs.ListSource.{bytes_left, next_read, read_faults, IsOneReadLater};

    ghost left = { λ source. Some (bytes_left source) };

    ghost faults = { read_faults };

    fn read(&mut self, buf: &mut [u8]) -> Result<usize, Failed>
        ensures bound { ReadsAtMost result buf.new }
        ensures bytes { ReadConsumes (Some (bytes_left self.old)) (Some (bytes_left self.new))
            result buf.new }
        ensures cause { HasCause (read_faults self.old) (read_faults self.new) result }

        // Exactly the listed calls fail, and each other one gives as many bytes as it can.
        ensures fails { IsErr result
            ↔ IsTrue (list_any (λ k. k == next_read self.old) self.old.fails) }
        ensures count { IfOk result (λ n.
            n ≡ min (min (length (bytes_left self.old)) (length buf.old)) self.old.most) }
        ensures behind { IfOk result (λ n. drop n buf.new ≡ drop n buf.old) }
        ensures later { IsOneReadLater self.old self.new }
    {
        self.calls = self.calls.saturating_add(1);
        if is_listed(self.fails.as_slice(), self.calls) {
            self.faults = self.faults.saturating_add(1);
            return Err(Failed);
        }
        let left = &self.bytes.as_slice()[self.place..];
        let count = left.len().min(buf.len()).min(self.most as usize);
        buf[..count].copy_from_slice(&left[..count]);
        self.place += count;
        Ok(count)
    }
}

/// Whether the call with this number is listed.
pub(crate) fn is_listed(fails: &[u32], call: u64) -> bool
    ensures { result ≡ list_any (λ k. k == call) fails.now }
{
    fails.iter().any(|k| u64::from(*k) == call)
}
