//! What is known of a back end at a line: the Invalidates that it hasn't answered, and what it may keep at most.
ghost use Rattle.std.specs.Prelude.{◌≡◌, ◌≤◌, ◌<◌, ◌+◌, ◌^◌, ℕ, List, IfOk, IsTrue, ◌↔◌};
ghost use Rattle.std.specs.List.{list_any};
ghost use Rattle.vi_bytes.specs.Spans.{meets};
ghost use Rattle.vi_iotlb.specs.Frames.{ReadAs};
ghost use Rattle.vi_iotlb.specs.declared.frame.Frame.TheVariants.{Ack};
ghost use Rattle.vi_trace.specs.Rules.{Known, nothing_known, update_meets};
ghost use Rattle.vi_trace.specs.Steps.{Holds, Steps};
ghost use Rattle.vi_trace.specs.declared.trace.Event.TheVariants.{Down, Up, Access};

use crate::cache::{forget, keep, permits};
use crate::finding::Rule;
use crate::trace::Event;
use std::alloc::{AllocError, Global};
use std::collections::{BTreeMap, VecDeque};
use vi_bytes::{Need, PAGE, Span};
use vi_iotlb::{Frame, decode};

/// The spans of the open Invalidates, oldest first, and the pages that the back end may keep, each with its
/// permission.
#[derive(Drop)]
pub struct State {
    waiting: VecDeque<Span>,
    cache: BTreeMap<u64, u8>,
}

impl State {
    /// Nothing is open and nothing is kept.
    pub fn new(alloc: Global) -> State
        ensures { Holds result nothing_known }
    {
        State {
            waiting: VecDeque::new(alloc),
            cache: BTreeMap::new(alloc),
        }
    }

    /// The rule that the event breaks, or `None` where it breaks none and is taken. An error means out of memory.
    pub fn take(&mut self, event: &Event) -> Result<Option<Rule>, AllocError>
        ensures { IfOk result (λ broken. (known : Known) → Holds self.old known → Steps known event.now self.new broken) }
    {
        match event {
            Event::Down(bytes) => self.down(bytes.as_slice()),
            Event::Up(bytes) => Ok(self.up(bytes.as_slice())),
            Event::Access { address, need } => Ok(self.access(*address, *need)),
        }
    }

    /// Bytes go to the back end.
    fn down(&mut self, bytes: &[u8]) -> Result<Option<Rule>, AllocError>
        ensures { IfOk result (λ broken. (known : Known) → Holds self.old known → Steps known (Down bytes.now) self.new broken) }
    {
        match decode(bytes) {
            Ok(frame) => self.send(bytes, frame),
            Err(_) => Ok(Some(Rule::Frame)),
        }
    }

    /// The frame that these bytes are goes to the back end.
    fn send(&mut self, bytes: &[u8], frame: Frame) -> Result<Option<Rule>, AllocError>
        requires { ReadAs bytes.now frame }
        ensures { IfOk result (λ broken. (known : Known) → Holds self.old known → Steps known (Down bytes.now) self.new broken) }
    {
        match frame {
            Frame::Update {
                page,
                count,
                perm,
                ..
            } => {
                if is_open(&self.waiting, page, count) {
                    return Ok(Some(Rule::Update));
                }
                keep(&mut self.cache, page, count, perm)?;
                Ok(None)
            }
            Frame::Invalidate { span } => {
                self.waiting.push_back(span)?;
                Ok(None)
            }
            Frame::Miss { .. } | Frame::AccessFail { .. } => Ok(Some(Rule::Frame)),
            Frame::Ack | Frame::Reply { .. } => Ok(Some(Rule::Frame)),
        }
    }

    /// Bytes come from the back end. An Ack answers the oldest open Invalidate.
    fn up(&mut self, bytes: &[u8]) -> Option<Rule>
        ensures { (known : Known) → Holds self.old known → Steps known (Up bytes.now) self.new result }
    {
        if !is_ack(bytes) {
            return Some(Rule::Frame);
        }
        match self.waiting.pop_front() {
            Some(span) => {
                forget(&mut self.cache, &span);
                None
            }
            None => Some(Rule::Ack),
        }
    }

    /// The back end uses an address.
    fn access(&mut self, address: u64, need: Need) -> Option<Rule>
        ensures { (known : Known) → Holds self.old known → Steps known (Access address need) self.new result }
    {
        if permits(&self.cache, address, need) {
            None
        } else {
            Some(Rule::Access)
        }
    }
}

/// Whether the bytes are an Ack.
fn is_ack(bytes: &[u8]) -> bool
    ensures { IsTrue result ↔ ReadAs bytes.now Ack }
{
    match decode(bytes) {
        Ok(frame) => matches!(frame, Frame::Ack),
        Err(_) => false,
    }
}

/// Whether a page of an Update meets one of the spans.
fn is_open(waiting: &VecDeque<Span>, page: u64, count: u32) -> bool
    requires some { 1 ≤ count }
    requires most { page + count ≤ 2 ^ 52 }
    ensures { result ≡ list_any (update_meets page count) waiting.now.items }
{
    let first = page * PAGE;
    let last = (page + u64::from(count - 1)) * PAGE + (PAGE - 1);
    waiting
        .iter()
        .any(|span| first <= span.last && span.first <= last)
}
