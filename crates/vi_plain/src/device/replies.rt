//! What the device answers to requests.
ghost use Rattle.std.specs.Prelude.{◌≡◌, ◌<◌, ◌^◌, ◌-◌, if◌then◌else◌, length, IfOk, OnOk, OnErr};
ghost use Rattle.vi_bytes.specs.Fields.{byte_at};
ghost use Rattle.vi_history.specs.Effects.{commit};
ghost use Rattle.vi_history.specs.Replies.{no_properties, properties, status_answer, probed_answer, request_answer, reading_answer, reading_commit};
ghost use Rattle.vi_history.specs.Requests.{reading, writable_size};
ghost use Rattle.vi_history.specs.Statuses.{status};

use crate::answer::Answer;
use crate::device::Device;
use crate::page::zeros;
use std::alloc::{AllocError, Global};
use vi_bytes::Bytes;
use vi_history::status::INVAL;
use vi_history::{PROBE, Request};
use vi_req::{ReqFault, decode};

// The type of a request's bytes.
fn type_of(read: &[u8]) -> u8
    ensures { result ≡ byte_at 0 read.now }
{
    match read.first() {
        None => 0,
        Some(kind) => *kind,
    }
}

// The size of the writable part that a request of this type needs.
fn writable_for(kind: u8) -> u32
    ensures { result ≡ writable_size kind }
{
    if kind == PROBE { 516 } else { 4 }
}

// 512 bytes without a property.
fn blank(alloc: Global) -> Result<Bytes, AllocError>
    ensures bytes { IfOk result (λ b. b ≡ no_properties) }
    ensures size { IfOk result (λ b. length b ≡ 512) }
{
    let bytes = zeros(alloc, 512)?;
    Ok(Bytes::from_vec(bytes))
}

// The answer to bytes that are malformed.
fn malformed(alloc: Global, is_probe: bool) -> Result<Answer, AllocError>
    ensures { IfOk result (λ a. a ≡ (if is_probe then probed_answer INVAL no_properties else status_answer INVAL)) }
{
    if is_probe {
        Ok(Answer::probed(INVAL, blank(alloc)?))
    } else {
        Ok(Answer::status(alloc, INVAL))
    }
}

impl Device {
    /// Answers a request and takes its effect. An error means out of memory, and changes nothing.
    pub fn ask(&mut self, alloc: Global, request: &Request) -> Result<Answer, AllocError>
        ensures answer { IfOk result (λ a. a ≡ request_answer self.old request.now) }
        ensures ok { OnOk result (self.new ≡ commit self.old request.now) }
        ensures err { OnErr result (self.new ≡ self.old) }
        ensures pages { self.new.pages ≡ self.old.pages }
    {
        let code = self.status(request);
        let answer = self.answer(alloc, request, code)?;
        self.commit(alloc, request, code)?;
        Ok(answer)
    }

    /// Answers a request of these device-readable bytes with so many writable ones.
    pub fn take(&mut self, alloc: Global, read: &[u8], write: u32) -> Result<Answer, AllocError>
        requires { length read.now < 2 ^ 32 - 1 }
        ensures answer { IfOk result (λ a. a ≡ reading_answer self.old (reading read.now write)) }
        ensures ok { OnOk result (self.new ≡ reading_commit self.old (reading read.now write)) }
        ensures err { OnErr result (self.new ≡ self.old) }
        ensures pages { self.new.pages ≡ self.old.pages }
    {
        let kind = type_of(read);
        if write < writable_for(kind) {
            return Ok(Answer::nothing(alloc));
        }
        match decode(read) {
            Ok(request) => self.ask(alloc, &request),
            Err(ReqFault::NoHead | ReqFault::UnknownType(_)) => Ok(Answer::nothing(alloc)),
            Err(ReqFault::Size { .. } | ReqFault::Reserved) => malformed(alloc, kind == PROBE),
        }
    }

    // The answer to a request that has this status.
    fn answer(&self, alloc: Global, request: &Request, code: u8) -> Result<Answer, AllocError>
        requires { code ≡ status self.now request.now }
        ensures { IfOk result (λ a. a ≡ request_answer self.now request.now) }
    {
        match *request {
            Request::Probe { endpoint } => Ok(Answer::probed(
                code,
                self.properties(alloc, endpoint)?,
            )),
            Request::Attach { .. }
            | Request::Detach { .. }
            | Request::Map { .. }
            | Request::Unmap { .. } => Ok(Answer::status(alloc, code)),
        }
    }

    // The properties of an endpoint (Virtio 1.2, 5.13.6.8), none for an unknown one.
    #[tactic(auto, unfolding(vi_history::specs::Replies::properties))]
    fn properties(&self, alloc: Global, endpoint: u32) -> Result<Bytes, AllocError>
        ensures bytes { IfOk result (λ b. b ≡ properties self.now endpoint) }
        ensures size { IfOk result (λ b. length b ≡ 512) }
    {
        match self.endpoint(endpoint) {
            None => blank(alloc),
            Some(x) => Bytes::of(alloc, &vi_prop::encode(x.regions())),
        }
    }
}
