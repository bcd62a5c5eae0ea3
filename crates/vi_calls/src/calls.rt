//! The open calls.
ghost use Rattle.std.specs.Prelude.{◌≡◌, ◌≤◌, ◌<◌, ◌+◌, ◌↔◌, [], None, Some, length, IfOk, IfSome, IfNone, IsNone, IsTrue, is_some, slice_get};
ghost use Rattle.std.specs.Option.{option_map};
ghost use Rattle.vi_model.specs.Starts.{queued_call};
ghost use Rattle.vi_history.specs.Replies.{set_answer};
ghost use Rattle.vi_vring.specs.Moves.{IsRingSize};
ghost use Rattle.vi_calls.specs.Replies.{reply_answer, answer_bytes, answer_of, AreAnswer};
ghost use Rattle.vi_calls.specs.Value.{port_at, taken_with, open_count};
ghost use Rattle.vi_calls.specs.Moves.{no_calls, with_queued, left, handed_out, has_setting, first_setting, taken_once, request_call, IsFresh, answered, answered_chain, with_posted};
ghost use Rattle.vi_calls.specs.Collecting.{AreAnsweredOnce, first_of, collected_as, collected_into, after_collect};
ghost use Rattle.vi_calls.specs.Shown.{ShowsCalls};
ghost use Rattle.vi_calls.specs.Sound.{AreSound};

use crate::chains::{MOST_BYTES, reading};
use crate::reply::{Reply, probed, tail};
use crate::row::{Row, Setting, Token};
use std::alloc::{AllocError, Global};
use std::marker::Model;
use vi_history::Reading;
use vi_vring::{Chain, Head, Popped, Ring};

/// How many drivers there are.
const DRIVERS: u8 = 8;

/// A request that the device took from the queue: the head of its chain, whose line it is, and what its bytes come to.
#[derive(Clone, Copy, Debug, PartialEq, Eq)]
pub struct Request {
    pub head: u16,
    pub driver: u8,
    pub line: u32,
    pub reading: Reading,
}

/// What a driver collects.
#[derive(Clone, Copy, Debug, PartialEq, Eq)]
pub enum Collected {
    /// None of its lines is answered.
    NotYet,
    /// The device answered this request, and wrote so many bytes.
    Used { line: u32, len: u32 },
    /// The device took this setting of the bypass field.
    Set { line: u32 },
}

// A line that was submitted, and how many bytes its chain's two parts have.
#[derive(Clone, Copy)]
struct Submitted {
    driver: u8,
    line: u32,
    read: u32,
    write: u32,
}

const NO_LINE: Submitted = Submitted {
    driver: 0,
    line: 0,
    read: 0,
    write: 0,
};

/// The open calls of 8 drivers: the requests in a virtqueue, those that the device took, what is answered and not
/// collected, the settings that drivers left, and how many of its first lines each driver posted as finished. Only
/// `build` takes memory.
#[derive(Drop)]
pub struct Calls {
    ring: Ring,
    // How many chains are available.
    queued: u32,
    // The line of each chain, by its head.
    submitted: [Submitted; 256],
    // A row for each driver.
    rows: Vec<Row>,
}

impl Model for Calls {
    ghost use Rattle.vi_calls.specs.Value.{CallsValue};

    ghost Value = { CallsValue };

    ghost use Rattle.vi_calls.specs.Inner.{seen, IsKept};

    ghost view = { seen };

    ghost invariant = { IsKept };
}

impl Calls {
    /// No open call, and a virtqueue of so many descriptors. An error means out of memory.
    pub fn build(alloc: Global, size: u16) -> Result<Calls, AllocError>
        requires { IsRingSize size }
        ensures { IfOk result (λ c. c ≡ no_calls) }
    {
        let ring = Ring::build(alloc, size, MOST_BYTES as u32, MOST_BYTES as u32)?;
        let mut rows = Vec::with_capacity(alloc, DRIVERS as usize)?;
        for _driver in 0..DRIVERS {
            rows.push_reserved(Row::new());
        }
        Ok(Calls {
            ring,
            queued: 0,
            submitted: [NO_LINE; 256],
            rows,
        })
    }

    /// A driver's request goes to the end of the queue: its readable bytes, and the size of its writable part.
    pub fn submit(&mut self, driver: u8, line: u32, read: &[u8], write: u32)
        requires driver { driver < 8 }
        requires read { length read.now ≤ 1024 }
        requires write { write ≤ 1024 }
        requires some { 0 < length read.now + write }
        requires room { open_count self.old < 8 }
        ensures { self.new ≡ with_queued (record { driver = driver; line = line; read = read.now; write = write }) self.old }
    {
        let head = self.ring.add(read, write).unwrap();
        self.submitted[head.0 as usize] = Submitted {
            driver,
            line,
            read: read.len() as u32,
            write,
        };
        self.queued += 1;
    }

    /// A driver leaves a setting of the bypass field for the device (Virtio 1.2, 5.13.4).
    pub fn leave(&mut self, driver: u8, line: u32, on: bool)
        requires driver { driver < 8 }
        requires free { (port_at self.old driver).setting ≡ None }
        ensures { self.new ≡ left driver (Some (record { line = line; on = on })) self.old }
    {
        let row = &mut self.rows[driver as usize];
        row.leave(Setting { line, on });
    }

    fn has_setting(&self, driver: u8) -> bool
        ensures { result ≡ has_setting self.now driver }
    {
        match self.rows.get(driver as usize) {
            None => false,
            Some(row) => row.has_setting(),
        }
    }

    /// The lowest driver that left a setting.
    pub fn setting(&self) -> Option<u8>
        ensures first { result ≡ first_setting self.now }
        ensures driver { IfSome result (λ driver. driver < 8) }
    {
        (0..DRIVERS).find(|driver| self.has_setting(*driver))
    }

    /// The setting that a driver left, which is no more.
    pub fn take_setting(&mut self, driver: u8) -> Option<Setting>
        requires { driver < 8 }
        ensures taken { result ≡ option_map handed_out (port_at self.old driver).setting }
        ensures rest { self.new ≡ left driver None self.old }
    {
        let row = &mut self.rows[driver as usize];
        row.take_setting()
    }

    /// Whether no request is in the queue.
    pub fn is_empty(&self) -> bool
        ensures empty { IsTrue result ↔ (self.now.queue ≡ []) }
        ensures sound { AreSound self.now }
    {
        self.queued == 0
    }

    /// Takes the first request from the queue, or answers `None` where there is none, and then nothing changes.
    pub fn take(&mut self) -> Option<Request>
        ensures request { option_map request_call result ≡ option_map queued_call (slice_get self.old.queue 0) }
        ensures none { IsNone result ↔ (self.old.queue ≡ []) }
        ensures taken { self.new ≡ taken_once result self.old }
        ensures fresh { IfSome result (IsFresh self.old) }
        ensures driver { IfSome result (λ r. r.driver < 8) }
    {
        let chain = match self.ring.pop() {
            Popped::Chain(chain) => chain,
            Popped::Empty | Popped::Broken(_) => return None,
        };
        self.queued -= 1;
        let call = self.submitted[chain.head as usize];
        Some(Request {
            head: chain.head,
            driver: call.driver,
            line: call.line,
            reading: reading(&self.ring, &chain),
        })
    }

    /// Answers the request of the taken chain with this head: the reply stands at the start of its writable part, and
    /// the chain is used.
    pub fn answer(&mut self, head: u16, reply: &Reply)
        requires taken { IsTrue (is_some (taken_with head self.old)) }
        requires fits { IfSome (taken_with head self.old) (λ t. length (answer_bytes (reply_answer reply.now)) ≤ t.call.write) }
        requires room { IfSome (taken_with head self.old) (λ t. length (port_at self.old t.call.driver).answered < 8) }
        ensures { self.new ≡ answered_chain head (reply_answer reply.now) self.old }
    {
        match reply {
            Reply::Nothing => self.write(head, &[]),
            Reply::Status(status) => self.write(head, &tail(*status)),
            Reply::Probed { status, properties } => self.write(head, &probed(*status, properties)),
        }
    }

    // The bytes of an answer are the reply to the taken chain.
    fn write(&mut self, head: u16, bytes: &[u8])
        requires taken { IsTrue (is_some (taken_with head self.old)) }
        requires fits { IfSome (taken_with head self.old) (λ t. length bytes.now ≤ t.call.write) }
        requires room { IfSome (taken_with head self.old) (λ t. length (port_at self.old t.call.driver).answered < 8) }
        requires answer { AreAnswer bytes.now }
        ensures { self.new ≡ answered_chain head (answer_of bytes.now) self.old }
    {
        let call = self.submitted[head as usize];
        let chain = Chain {
            head,
            read: call.read,
            write: call.write,
        };
        self.ring.push(chain, bytes);
        let row = &mut self.rows[call.driver as usize];
        row.add(Token {
            line: call.line,
            head: Some(head),
        });
    }

    /// A driver's setting is answered: the device took it.
    pub fn answer_setting(&mut self, driver: u8, line: u32)
        requires driver { driver < 8 }
        requires room { length (port_at self.old driver).answered < 8 }
        ensures { self.new ≡ answered driver line set_answer self.old }
    {
        let row = &mut self.rows[driver as usize];
        row.add(Token { line, head: None });
    }

    /// A driver collects the answered line of its lowest number. What the device wrote to a request goes to the front
    /// of `out`.
    pub fn collect(&mut self, driver: u8, out: &mut [u8; 1024]) -> Collected
        requires driver { driver < 8 }
        requires once { AreAnsweredOnce (port_at self.old driver).answered }
        ensures line { result ≡ collected_as (first_of driver self.old) }
        ensures bytes { out.new ≡ collected_into (first_of driver self.old) out.old }
        ensures rest { self.new ≡ after_collect driver self.old }
    {
        let row = &mut self.rows[driver as usize];
        match row.take_first() {
            None => Collected::NotYet,
            Some(token) => match token.head {
                None => Collected::Set { line: token.line },
                Some(head) => {
                    let len = self.ring.collect(Head(head), out).unwrap();
                    Collected::Used {
                        line: token.line,
                        len,
                    }
                }
            },
        }
    }

    /// A driver posts how many of its first lines are all finished.
    pub fn post(&mut self, driver: u8, lines: u32)
        requires { driver < 8 }
        ensures { self.new ≡ with_posted driver lines self.old }
    {
        let row = &mut self.rows[driver as usize];
        row.post(lines);
    }

    /// How many of its first lines are all finished, as the driver last posted it.
    pub fn posted(&self, driver: u8) -> u32
        requires { driver < 8 }
        ensures posted { result ≡ (port_at self.now driver).posted }
        ensures sound { AreSound self.now }
    {
        self.rows[driver as usize].posted()
    }

    /// The virtqueue, which shows the requests and their answers.
    pub fn queue(&self) -> &Ring
        ensures known { IsTrue (is_some result.now.lists) }
        ensures calls { IfSome result.now.lists (ShowsCalls self.now) }
        ensures sound { AreSound self.now }
    {
        &self.ring
    }
}
