//! The device with its memory, one call at a time.
ghost use Rattle.std.specs.Prelude.{◌≡◌, ◌≤◌, ◌+◌, ◌%◌, length, IfOk, OnOk, OnErr};
ghost use Rattle.vi_bytes.specs.declared.lease.Need.TheVariants as need;
ghost use Rattle.vi_history.specs.Histories.{answer_of};
ghost use Rattle.vi_history.specs.Outcomes.{HasBytes};
ghost use Rattle.vi_history.specs.Replies.{read_at, write_at, memory_after_write, reply, next};
ghost use Rattle.vi_history.specs.Start.{start};
ghost use Rattle.vi_history.specs.Translation.{translate};
ghost use Rattle.vi_plain.specs.Conditions.{IsPlainSetup, IsInOnePage, IsPlainCall};

use crate::answer::Answer;
use crate::device::Device;
use crate::page::Page;
use std::alloc::{AllocError, Global};
use std::marker::Model;
use vi_bytes::{Need, PAGE, Part, page_of};
use vi_history::{Call, Caller, Entry, Found, Setup};

/// The one-thread device with its memory: what contracts see of it is the state that the definitions of
/// right answers speak of.
#[derive(Drop)]
pub struct Plain {
    device: Device,
    memory: Vec<Page>,
}

impl Model for Plain {
    ghost use Rattle.std.specs.Prelude.{◌≡◌, length};
    ghost use Rattle.vi_history.specs.Device.{One};

    ghost Value = { One };

    ghost view = { λ p. record { dev = p.device; memory = p.memory.items } };

    ghost invariant = { λ p. length p.memory.items ≡ p.device.pages };
}

impl Plain {
    /// The setup's device before the first call: no endpoint is in a domain, and the memory is zero. An
    /// error means out of memory.
    #[tactic(auto, unfolding(vi_history::specs::Start::start))]
    pub fn new(alloc: Global, setup: &Setup) -> Result<Plain, AllocError>
        requires { IsPlainSetup setup.now }
        ensures { IfOk result (λ p. p ≡ start setup.now) }
    {
        let device = Device::new(alloc, setup)?;
        let mut memory = Vec::new(alloc);
        for _page in 0..setup.memory {
            memory.push(Page::zero(alloc)?)?;
        }
        Ok(Plain { device, memory })
    }

    /// Answers a call, the one of this caller's line and part, and takes its effect. The entry's bytes are
    /// those of its kind: 512 for `Probed`, 1 to 4096 for `Read`, and else none. An error means out of memory,
    /// and changes nothing.
    pub fn step(
        &mut self,
        alloc: Global,
        caller: Caller,
        line: u32,
        part: u32,
        call: &Call,
    ) -> Result<Entry, AllocError>
        requires { IsPlainCall call.now }
        ensures answer { IfOk result (λ h. answer_of h ≡ reply self.old call.now) }
        ensures caller { IfOk result (λ h. h.mark.caller ≡ caller) }
        ensures line { IfOk result (λ h. h.mark.line ≡ line) }
        ensures part { IfOk result (λ h. h.mark.part ≡ part) }
        ensures bytes { IfOk result (λ h. HasBytes h.mark.kind h.mark.code h.bytes) }
        ensures ok { OnOk result (self.new ≡ next self.old call.now) }
        ensures err { OnErr result (self.new ≡ self.old) }
    {
        let answer = self.answer(alloc, call)?;
        Ok(answer.entry(caller, line, part))
    }

    // The answer to a call, with its effect.
    #[tactic(auto, unfolding(vi_history::specs::Replies::reply, vi_history::specs::Replies::next))]
    fn answer(&mut self, alloc: Global, call: &Call) -> Result<Answer, AllocError>
        requires { IsPlainCall call.now }
        ensures answer { IfOk result (λ a. a ≡ reply self.old call.now) }
        ensures ok { OnOk result (self.new ≡ next self.old call.now) }
        ensures err { OnErr result (self.new ≡ self.old) }
    {
        match call {
            Call::Ask(request) => self.device.ask(alloc, request),
            Call::Raw { read, write } => self.device.take(alloc, read.as_slice(), *write),
            Call::Bypass(on) => {
                self.device.set_bypass(*on);
                Ok(Answer::set(alloc))
            }
            Call::Read { endpoint, part } => self.read(alloc, *endpoint, *part),
            Call::Write {
                endpoint,
                part,
                bytes,
            } => Ok(self.write(alloc, *endpoint, part.iova, bytes.as_slice())),
        }
    }

    // Reads the bytes that the part's first address leads to.
    fn read(&self, alloc: Global, endpoint: u32, part: Part) -> Result<Answer, AllocError>
        requires { IsInOnePage part }
        ensures { IfOk result (λ a. a ≡ read_at self.now.memory part.len (translate self.now.dev endpoint part.iova need.Read)) }
    {
        match self.device.translate(endpoint, part.iova, Need::Read) {
            Found::Fault(reason) => Ok(Answer::fault(alloc, reason)),
            Found::At(target) => {
                let page = &self.memory[page_of(target) as usize];
                let bytes = page.read(alloc, (target % PAGE) as usize, part.len as usize)?;
                Ok(Answer::read(bytes))
            }
        }
    }

    // Writes the bytes where their first address leads.
    fn write(&mut self, alloc: Global, endpoint: u32, address: u64, bytes: &[u8]) -> Answer
        requires { address % PAGE + length bytes.now ≤ PAGE }
        ensures answer { result ≡ write_at (translate self.old.dev endpoint address need.Write) }
        ensures next { self.new ≡ record self.old { memory = memory_after_write self.old.memory bytes.now (translate self.old.dev endpoint address need.Write) } }
    {
        match self.device.translate(endpoint, address, Need::Write) {
            Found::Fault(reason) => Answer::fault(alloc, reason),
            Found::At(target) => {
                let page = &mut self.memory[page_of(target) as usize];
                page.write((target % PAGE) as usize, bytes);
                Answer::wrote(alloc)
            }
        }
    }
}
