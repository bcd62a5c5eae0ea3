//! The back end of an endpoint.
ghost use Rattle.std.specs.Prelude.{◌≡◌, ◌≤◌, ◌<◌, ◌^◌, ◌+◌, ◌||◌, length, true, false, take, drop, IfOk, IfSome, Option};
ghost use Rattle.std.specs.Prelude.{◌⊎◌};
ghost use Rattle.std.specs.Option.{option_map};
ghost use Rattle.vi_bytes.specs.declared.span.TheConstants.{PAGE};
ghost use Rattle.vi_bytes.specs.Spans.{IsProper};
ghost use Rattle.vi_iotlb.specs.Frames.{IsSendable};
ghost use Rattle.vi_lines.specs.Calls.{HasTransfers};
ghost use Rattle.vi_model.specs.Caches.{put, untouched};
ghost use Rattle.vi_model.specs.Places.{place_count};
ghost use Rattle.vi_model.specs.Serves.{page_of};
ghost use Rattle.vi_model.specs.Backs.{no_seat, heard, with_cache, replied};
ghost use Rattle.vi_backend.specs.Aims.{aim_of};
ghost use Rattle.vi_backend.specs.Own.{IsOwn, IsBackOf, IsGrantedLease};
ghost use Rattle.vi_backend.specs.Wishes.{own_wish, own_awaits, own_access, owes, must_receive, is_finished, must_await, tests_in, IsAsk, IsAccess, IfAccess, shown};
ghost use Rattle.vi_backend.specs.Frames.{IsFor, answer_to, after};
ghost use Rattle.vi_backend.specs.Accesses.{own_accessed, asked_seat, looked_seat, stepped};

use crate::lines::{awaited_lines, copied_lines};
use crate::part::{Aim, aim_at, transfer};
use crate::{Done, Wish};
use std::alloc::{AllocError, Global};
use std::marker::Model;
use vi_bytes::{Lease, Span, page_of};
use vi_cache::Cache;
use vi_history::Caller;
use vi_iotlb::Frame;
use vi_lines::{Await, Line, Script};
use vi_memory::Page;

/// How many accesses a back end makes before it must receive.
const MOST_ACCESSES: u32 = 16;

/// The back end of an endpoint: its lines, how far it is with them, and the translations that it caches. Only
/// `new` takes memory.
#[derive(Drop)]
pub struct Backend {
    id: u32,
    lines: Vec<Line>,
    // Of each line, whether some line of the script awaits it.
    awaited: Vec<bool>,
    finished: u32,
    // How many parts of the current line are done.
    done: u32,
    // What the current line awaits was found posted.
    ready: bool,
    // Its miss is open.
    asking: bool,
    since: u32,
    // How many finished lines it last posted.
    told: u32,
    cache: Cache,
}

impl Model for Backend {
    ghost use Rattle.vi_backend.specs.Own.{Own, IsOwn};

    ghost Value = { Own };

    ghost view = { λ b. record {
      id = b.id;
      lines = b.lines.items;
      awaited = b.awaited.items;
      capacity = b.cache.capacity;
      seat = record { finished = b.finished; done = b.done; ready = b.ready; asking = b.asking; since = b.since; told = b.told; cache = b.cache.leases };
    } };

    ghost invariant = { λ b. IsOwn (record {
      id = b.id;
      lines = b.lines.items;
      awaited = b.awaited.items;
      capacity = b.cache.capacity;
      seat = record { finished = b.finished; done = b.done; ready = b.ready; asking = b.asking; since = b.since; told = b.told; cache = b.cache.leases };
    }) };
}

impl Backend {
    /// The back end of the endpoint at this place of the script, from 0, before its first turn. An error is want of
    /// memory.
    #[tactic(auto, using(crate::proofs::Copying::starts_own))]
    pub fn new(alloc: Global, script: &Script, place: u32) -> Result<Backend, AllocError>
        requires place { place < place_count script.now }
        requires transfers { HasTransfers script.now }
        requires some { 1 ≤ script.now.setup.cache }
        requires most { script.now.setup.cache ≤ 64 }
        ensures back { IfOk result (IsBackOf script.now place) }
        ensures seat { IfOk result (λ b. b.seat ≡ no_seat) }
        ensures own { IfOk result IsOwn }
    {
        let id = script.setup.endpoints.as_slice()[place as usize].id;
        let caller = Caller::Back(id);
        let lines = copied_lines(alloc, script, caller)?;
        let awaited = awaited_lines(alloc, script, caller, script.count(caller))?;
        Ok(Backend {
            id,
            lines,
            awaited,
            finished: 0,
            done: 0,
            ready: false,
            asking: false,
            since: 0,
            told: 0,
            cache: Cache::new(script.setup.cache),
        })
    }

    /// The id of its endpoint.
    pub fn id(&self) -> u32
        ensures { result ≡ self.now.id }
    {
        self.id
    }

    /// What it wishes to do next: it receives where its miss is open, where it made 16 accesses since it last
    /// received, and where it finished a line that some line awaits and didn't post it; it rests where its lines are
    /// finished; it receives where it didn't find posted what its current line awaits; and else it does its current
    /// part, or asks for the translation.
    #[tactic(auto, unfolding(crate::specs::Wishes::own_wish), using(crate::proofs::Cascade::shown_current, crate::proofs::Cached::granted_cached))]
    pub fn next(&self) -> Wish
        ensures { result ≡ shown (own_wish self.now) }
    {
        if self.must_receive() {
            return Wish::Receive;
        }
        if self.is_finished() {
            return Wish::Rest;
        }
        if self.must_await() {
            return Wish::Receive;
        }
        match self.current_aim() {
            None => Wish::Receive,
            Some(aim) => aim.wish(self.cache.peek(page_of(aim.part.iova))),
        }
    }

    /// Whether it wishes to receive, and to test whether the lines that its current line awaits are posted.
    #[tactic(auto, unfolding(crate::specs::Wishes::own_wish), using(crate::proofs::Cascade::tests_current))]
    pub fn tests(&self) -> bool
        ensures { result ≡ tests_in (own_wish self.now) }
    {
        if self.must_receive() {
            return false;
        }
        if self.is_finished() {
            return false;
        }
        self.must_await()
    }

    /// The lines that its current line awaits, none where its lines are finished.
    pub fn awaits(&self) -> &[Await]
        ensures { result.now ≡ own_awaits self.now }
    {
        match self.lines.get(self.finished as usize) {
            Some(line) => line.awaits.as_slice(),
            None => &[],
        }
    }

    fn owes(&self) -> bool
        ensures { result ≡ owes self.now }
    {
        self.awaited[self.told as usize..self.finished as usize]
            .iter()
            .any(|awaited| *awaited)
    }

    fn must_receive(&self) -> bool
        ensures { result ≡ must_receive self.now }
    {
        self.asking || self.since >= MOST_ACCESSES || self.owes()
    }

    /// Whether all its lines are finished.
    pub fn is_finished(&self) -> bool
        ensures { result ≡ is_finished self.now }
    {
        self.finished as usize >= self.lines.len()
    }

    fn must_await(&self) -> bool
        ensures { result ≡ must_await self.now }
    {
        !self.awaits().is_empty() && !self.ready
    }

    /// What its current part needs, if it has one.
    fn current_aim(&self) -> Option<Aim>
        ensures { result ≡ option_map aim_of (own_access self.now) }
    {
        let line = self.lines.get(self.finished as usize)?;
        let part = self.done + 1;
        if part <= line.job.parts() {
            aim_at(&line.job, part)
        } else {
            None
        }
    }

    /// The wished frame was sent, and the number of its finished lines was posted with it.
    #[tactic(auto, using(crate::proofs::Cascade::asking_below))]
    pub fn asked(&mut self)
        requires { IsAsk (shown (own_wish self.old)) }
        ensures seat { self.new ≡ record self.old { seat = asked_seat self.old.seat } }
        ensures own { IsOwn self.new }
    {
        self.asking = true;
        self.told = self.finished;
    }

    /// It takes a frame, and the number of its finished lines was posted with that. It caches the lease of an
    /// `Update`, drops every lease that an `Invalidate` reaches before it answers with the `Ack`, and closes its miss
    /// by a `Reply`, which finishes the line where it faults.
    pub fn got(&mut self, frame: &Frame) -> Option<Frame>
        requires sendable { IsSendable frame.now }
        requires down { IsFor self.old.seat.asking frame.now }
        ensures answer { result ≡ answer_to frame.now }
        ensures seat { self.new ≡ record self.old { seat = after self.old.capacity frame.now self.old.seat } }
        ensures own { IsOwn self.new }
    {
        match *frame {
            Frame::Update {
                page,
                count,
                target,
                perm,
            } => {
                self.keep(Lease {
                    page,
                    count,
                    target,
                    perm,
                });
                None
            }
            Frame::Invalidate { span } => {
                self.forget(&span);
                Some(Frame::Ack)
            }
            Frame::Reply { fault } => {
                self.reply(fault);
                None
            }
            Frame::Miss { .. } | Frame::AccessFail { .. } | Frame::Ack => None,
        }
    }

    #[tactic(auto, using(crate::proofs::Cached::granted_put))]
    fn keep(&mut self, lease: Lease)
        requires { IsGrantedLease lease }
        ensures seat { self.new ≡ record self.old { seat = with_cache self.old.seat (put self.old.capacity lease self.old.seat.cache) } }
        ensures own { IsOwn self.new }
    {
        let _evicted = self.cache.put(lease);
        self.since = 0;
        self.told = self.finished;
    }

    #[tactic(auto, using(crate::proofs::Cached::untouched_by_span, crate::proofs::Cached::granted_untouched))]
    fn forget(&mut self, span: &Span)
        requires { IsProper span.now }
        ensures seat { self.new ≡ record self.old { seat = with_cache self.old.seat (untouched (Option.Some span.now) self.old.seat.cache) } }
        ensures own { IsOwn self.new }
    {
        let _count = self.cache.drop_span(span);
        self.since = 0;
        self.told = self.finished;
    }

    fn reply(&mut self, fault: bool)
        requires { self.old.seat.asking ≡ true }
        ensures seat { self.new ≡ record self.old { seat = replied self.old.seat fault } }
        ensures own { IsOwn self.new }
    {
        self.asking = false;
        self.since = 0;
        self.told = self.finished;
        if fault {
            self.finished += 1;
            self.done = 0;
            self.ready = false;
        }
    }

    /// It received no frame, and posted the number of its finished lines. `ready` says that the wish was to test
    /// whether the awaited lines are posted, and that they are.
    pub fn received(&mut self, ready: bool)
        ensures seat { self.new ≡ record self.old { seat = heard self.old.seat (self.old.seat.ready || ready) } }
        ensures own { IsOwn self.new }
    {
        self.ready = self.ready || ready;
        self.since = 0;
        self.told = self.finished;
    }

    /// Does its current part on the page, which is the one that it wishes to access. The entry's bytes stand there
    /// before and after.
    pub fn access(&mut self, page: &mut Page) -> Done
        requires { IsAccess (shown (own_wish self.old)) }
        ensures page { IfAccess (own_wish self.old)
            (λ lease a. page.new ≡ (own_accessed self.old lease a page.old).page) }
        ensures seat { IfAccess (own_wish self.old)
            (λ lease a. self.new ≡ record self.old { seat = (own_accessed self.old lease a page.old).seat }) }
        ensures mark { IfAccess (own_wish self.old)
            (λ lease a. result.mark ≡ (own_accessed self.old lease a page.old).entry.mark) }
        ensures bytes { IfAccess (own_wish self.old)
            (λ lease a. take result.len (drop result.from page.old) ≡ (own_accessed self.old lease a page.old).entry.bytes) }
        ensures within { result.from + result.len ≤ PAGE }
        ensures stays { take result.len (drop result.from page.new) ≡ take result.len (drop result.from page.old) }
        ensures own { IsOwn self.new }
    {
        let line = &self.lines[self.finished as usize];
        let part = self.done + 1;
        let is_last = part == line.job.parts();
        let done = transfer(&line.job, self.id, self.finished + 1, part, page);
        self.look();
        self.step(is_last);
        done
    }

    /// Looks the page of its current part up in the cache.
    #[tactic(auto, using(crate::proofs::Cached::granted_looked))]
    fn look(&mut self)
        ensures own { IsOwn self.new }
        ensures seat { IfSome (own_access self.old)
            (λ a. self.new ≡ record self.old { seat = looked_seat self.old.seat (page_of a.part.iova) }) }
    {
        if let Some(aim) = self.current_aim() {
            let _lease = self.cache.look(page_of(aim.part.iova));
        }
    }

    /// One more part is done, the last of its line or not.
    fn step(&mut self, is_last: bool)
        requires accesses { self.old.seat.since < 16 }
        requires parts { self.old.seat.done < 16 ⊎ (is_last ≡ true) }
        requires line { self.old.seat.finished < length self.old.lines }
        requires closed { self.old.seat.asking ≡ false }
        ensures own { IsOwn self.new }
        ensures seat { self.new ≡ record self.old { seat = stepped self.old.seat is_last } }
    {
        self.since += 1;
        if is_last {
            self.finished += 1;
            self.done = 0;
            self.ready = false;
        } else {
            self.done += 1;
        }
    }

    /// How many of its lines are finished.
    pub fn finished(&self) -> u32
        ensures count { result ≡ self.now.seat.finished }
        ensures own { IsOwn self.now }
    {
        self.finished
    }

    /// How many accesses it made since it last received, at most 16.
    pub fn since(&self) -> u32
        ensures count { result ≡ self.now.seat.since }
        ensures most { result ≤ 16 }
    {
        self.since
    }

    /// The translations that it caches.
    pub fn cache(&self) -> &Cache
        ensures { result.now ≡ record { leases = self.now.seat.cache; capacity = self.now.capacity } }
    {
        &self.cache
    }
}
