//! The state behind a history.
ghost use Rattle.std.specs.Prelude.{◌≡◌, ◌+◌, ◌-◌, ◌%◌, ◌<◌, ◌≤◌, ◌^◌, length, map, IfOk, IsSome};
ghost use Rattle.std.specs.Option.{option_to_list};
ghost use Rattle.vi_bytes.specs.declared.lease.Need.TheVariants as need;
ghost use Rattle.vi_device.specs.Values.{id_at};
ghost use Rattle.vi_history.specs.Device.{endpoint_of};
ghost use Rattle.vi_history.specs.Effects.{commit};
ghost use Rattle.vi_history.specs.Histories.{answer_of};
ghost use Rattle.vi_history.specs.Replies.{page_at, memory_after_write, reading_answer, reading_commit, reply};
ghost use Rattle.vi_history.specs.Requests.{reading};
ghost use Rattle.vi_history.specs.Start.{start};
ghost use Rattle.vi_history.specs.Statuses.{status};
ghost use Rattle.vi_history.specs.Translation.{translate};
ghost use Rattle.vi_state.specs.Followed.{IsCarried, IsFollowedSetup, IsFollowed, IsMapDone, followed, maps_of, maps_read, maps_if, maps_made};
ghost use Rattle.vi_state.specs.Kept.{KeepsOffset};
ghost use Rattle.vi_state.specs.Written.{page_found, writes};

use crate::place::place_of;
use std::alloc::{AllocError, Global};
use std::marker::Model;
use vi_bytes::{EndpointSetup, Need, PAGE, page_of};
use vi_device::Device;
use vi_history::status::OK;
use vi_history::{Call, Entry, Found, Reading, Request, Setup};
use vi_memory::{Page, zero_pages};

/// The device and the memory after a part of a history. Contracts see the definition's state and `spare`, how many
/// more mappings there is room for.
#[derive(Drop)]
pub struct State {
    device: Device,
    // The endpoints' ids in declared order: the device knows an endpoint by its place.
    ids: Vec<u32>,
    pages: Vec<Page>,
    spare: u32,
}

impl Model for State {
    ghost use Rattle.std.specs.Prelude.{length};
    ghost use Rattle.vi_state.specs.Followed.{StateValue};
    ghost use Rattle.vi_state.specs.Kept.{IsState};

    ghost Value = { StateValue };

    ghost view = { λ s. record { one = record { dev = s.device.dev; memory = s.pages.items }; spare = s.spare } };

    ghost invariant = { λ s. IsState s.device s.ids.items (length s.pages.items) s.spare };
}

// The ids of the endpoints, in declared order.
fn ids_of(alloc: Global, endpoints: &[EndpointSetup]) -> Result<Vec<u32>, AllocError>
    ensures { IfOk result (λ ids. ids.items ≡ map (λ e. e.id) endpoints.now) }
{
    let mut ids = Vec::with_capacity(alloc, endpoints.len())?;
    for endpoint in endpoints {
        ids.push_reserved(endpoint.id);
    }
    Ok(ids)
}

// How many mappings the request makes if it is accepted.
fn maps_of(request: &Request) -> u32
    ensures { result ≡ maps_of request.now }
{
    match *request {
        Request::Map { .. } => 1,
        Request::Attach { .. }
        | Request::Detach { .. }
        | Request::Unmap { .. }
        | Request::Probe { .. } => 0,
    }
}

// How many mappings the request that bytes come to makes if it is accepted.
fn maps_read(reading: Reading) -> u32
    ensures { result ≡ maps_read reading }
{
    match reading {
        Reading::Asks(request) => maps_of(&request),
        Reading::Silent | Reading::Malformed { .. } => 0,
    }
}

/// How many mappings a call made that was answered so: 1 for a MAP, raw or not, that took effect, and else 0. So much
/// room `State::follow` uses up.
pub fn maps_made(call: &Call, entry: &Entry) -> u32
    requires { IsCarried call.now }
    ensures { result ≡ maps_made call.now entry.now }
{
    if entry.mark.code != OK {
        return 0;
    }
    match call {
        Call::Ask(request) => maps_of(request),
        Call::Raw { read, write } => maps_read(vi_req::read(read.as_slice(), *write)),
        Call::Bypass(_) | Call::Read { .. } | Call::Write { .. } => 0,
    }
}

impl State {
    /// Before the first call, with room for `maps` mappings in each of 16 domains. An error means out of memory.
    /// No other call takes memory.
    #[tactic(auto, unfolding(vi_history::specs::Start::start, vi_history::specs::Start::zero_page))]
    pub fn new(alloc: Global, setup: &Setup, maps: u32) -> Result<State, AllocError>
        requires { IsFollowedSetup setup.now }
        ensures { IfOk result (λ s. s ≡ record { one = start setup.now; spare = maps }) }
    {
        let device = Device::new(alloc, setup, maps)?;
        let ids = ids_of(alloc, setup.endpoints.as_slice())?;
        let pages = zero_pages(alloc, setup.memory)?;
        Ok(State {
            device,
            ids,
            pages,
            spare: maps,
        })
    }

    /// Takes the effect of a call that was answered so. The answer is the page that was written, if one was.
    #[tactic(auto, unfolding(vi_history::specs::Replies::reply, vi_history::specs::Replies::next))]
    pub fn follow(&mut self, call: &Call, entry: &Entry) -> Option<u32>
        requires call { IsFollowed self.old.one call.now }
        requires right { answer_of entry.now ≡ reply self.old.one call.now }
        requires room { IsMapDone call.now entry.now → 1 ≤ self.old.spare }
        ensures next { self.new ≡ followed self.old call.now entry.now }
        ensures page { option_to_list result ≡ writes self.old.one call.now }
    {
        let code = entry.mark.code;
        match call {
            Call::Ask(request) => {
                self.take(request, code);
                None
            }
            Call::Raw { read, write } => {
                self.take_read(vi_req::read(read.as_slice(), *write), code);
                None
            }
            Call::Bypass(on) => {
                self.device.set_bypass(*on);
                None
            }
            Call::Read { .. } => None,
            Call::Write {
                endpoint,
                part,
                bytes,
            } => self.write(*endpoint, part.iova, bytes.as_slice()),
        }
    }

    /// The bytes of a page of the memory.
    pub fn page(&self, page: u32) -> &[u8]
        requires { page < self.now.one.dev.pages }
        ensures bytes { result.now ≡ page_at self.now.one.memory page }
        ensures whole { length result.now ≡ PAGE }
        ensures pages { length self.now.one.memory ≡ self.now.one.dev.pages }
    {
        self.pages[page as usize].read(0, PAGE as u32)
    }

    /// The device.
    pub fn device(&self) -> &Device
        ensures { result.now.dev ≡ self.now.one.dev }
    {
        &self.device
    }

    // Takes the effect of what a request's bytes come to, which was answered with this code.
    fn take_read(&mut self, reading: Reading, code: u8)
        requires right { code ≡ (reading_answer self.old.one.dev reading).code }
        requires room { maps_if code (maps_read reading) ≡ 1 → 1 ≤ self.old.spare }
        ensures { self.new ≡ record { one = record self.old.one { dev = reading_commit self.old.one.dev reading }; spare = self.old.spare - maps_if code (maps_read reading) } }
    {
        match reading {
            Reading::Asks(request) => self.take(&request, code),
            Reading::Silent | Reading::Malformed { .. } => {}
        }
    }

    // Takes the effect of a request that has this status.
    #[tactic(auto, unfolding(vi_history::specs::Effects::commit), using(crate::proofs::Keeping::room_enough))]
    fn take(&mut self, request: &Request, code: u8)
        requires right { code ≡ status self.old.one.dev request.now }
        requires room { maps_if code (maps_of request.now) ≡ 1 → 1 ≤ self.old.spare }
        ensures { self.new ≡ record { one = record self.old.one { dev = commit self.old.one.dev request.now }; spare = self.old.spare - maps_if code (maps_of request.now) } }
    {
        if code == OK {
            self.accept(request);
        }
    }

    // Takes the effect of a request that was accepted.
    #[tactic(auto, using(crate::proofs::Keeping::has_room, crate::proofs::Keeping::accepted_state))]
    fn accept(&mut self, request: &Request)
        requires right { status self.old.one.dev request.now ≡ 0 }
        requires room { maps_of request.now ≤ self.old.spare }
        ensures { self.new ≡ record { one = record self.old.one { dev = commit self.old.one.dev request.now }; spare = self.old.spare - maps_of request.now } }
    {
        self.spare -= maps_of(request);
        self.device.commit(request);
    }

    // Writes the bytes where their first address leads, and says to which page.
    fn write(&mut self, endpoint: u32, address: u64, bytes: &[u8]) -> Option<u32>
        requires declared { IsSome (endpoint_of self.old.one.dev endpoint) }
        requires within { address % PAGE + length bytes.now ≤ PAGE }
        ensures next { self.new ≡ record self.old { one = record self.old.one { memory = memory_after_write self.old.one.memory bytes.now (translate self.old.one.dev endpoint address need.Write) } } }
        ensures page { option_to_list result ≡ page_found (translate self.old.one.dev endpoint address need.Write) }
    {
        match self.translate(endpoint, address) {
            Found::Fault(_) => None,
            Found::At(target) => {
                let page = page_of(target);
                self.pages[page as usize].write((target % PAGE) as u32, bytes);
                Some(page as u32)
            }
        }
    }

    // Where a write of the endpoint leads.
    fn translate(&self, endpoint: u32, address: u64) -> Found
        requires { IsSome (endpoint_of self.now.one.dev endpoint) }
        ensures found { result ≡ translate self.now.one.dev endpoint address need.Write }
        ensures offset { KeepsOffset self.now.one.dev.pages address result }
        ensures pages { length self.now.one.memory ≡ self.now.one.dev.pages }
    {
        let place = self.place(endpoint);
        self.device.translate(place, address, Need::Write)
    }

    // The place of the endpoint, which was declared.
    fn place(&self, endpoint: u32) -> u32
        requires { IsSome (endpoint_of self.now.one.dev endpoint) }
        ensures within { result < length self.now.one.dev.endpoints }
        ensures id { id_at self.now.one.dev result ≡ endpoint }
    {
        place_of(&self.ids, endpoint) as u32
    }
}
