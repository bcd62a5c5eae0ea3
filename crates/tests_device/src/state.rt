//! A state that follows what the plain device answers.
ghost use Rattle.std.specs.Prelude.{◌≡◌, ◌%◌, ◌+◌, ◌≤◌, IfOk, IsSome, OnOk};
ghost use Rattle.vi_history.specs.Device.{One, endpoint_of};
ghost use Rattle.vi_history.specs.Start.{start, start_dev};
ghost use Rattle.vi_plain.specs.Conditions.{IsPlainCall, IsPlainSetup};
ghost use Rattle.vi_state.specs.Followed.{IsFollowed, IsFollowedSetup};

use std::alloc::{AllocError, Global};
use std::test::Fail;
use vi_bytes::{Bytes, EndpointSetup, Items, Part, Span};
use vi_history::{Call, Caller, Request, Setup};
use vi_plain::Plain;
use vi_state::State;
use vi_state::laws::stays_followed;

const ATTACH: Request = Request::Attach {
    domain: 1,
    endpoint: 7,
    flags: 0,
};

// Page 2 of the addresses is page 1 of the memory.
const MAP: Request = Request::Map {
    domain: 1,
    first: 0x2000,
    last: 0x2fff,
    target: 0x1000,
    flags: 3,
};

const DETACH: Request = Request::Detach {
    domain: 1,
    endpoint: 7,
};

/// Two pages, and the endpoint 7.
pub(crate) fn setup(alloc: Global) -> Result<Setup, AllocError>
    ensures plain { IfOk result IsPlainSetup }
    ensures followed { IfOk result IsFollowedSetup }
    ensures declared { IfOk result (λ s. IsSome (endpoint_of (start_dev s) 7)) }
    ensures pages { IfOk result (λ s. s.memory ≡ 2) }
{
    let mut endpoints = Vec::new(alloc);
    endpoints.push(EndpointSetup {
        id: 7,
        regions: Items::of(alloc, &[])?,
    })?;
    Ok(Setup {
        memory: 2,
        queue: 16,
        cache: 16,
        granule: 4096,
        input: Span {
            first: 0,
            last: 0xffff_ffff,
        },
        bypass: false,
        events: false,
        endpoints: Items::from_vec(endpoints),
    })
}

/// A write of the bytes 1 and 2 from this address on, within a page.
#[tactic(auto, unfolding(vi_history::specs::Start::start))]
pub(crate) fn write(alloc: Global, setup: &Setup, iova: u64) -> Result<Call, AllocError>
    requires declared { IsSome (endpoint_of (start_dev setup.now) 7) }
    requires within { iova % 4096 ≤ 4094 }
    ensures plain { IfOk result IsPlainCall }
    ensures followed { IfOk result (IsFollowed (start setup.now)) }
{
    let bytes = Bytes::of(alloc, &[1, 2])?;
    let part = Part { iova, len: 2 };
    Ok(Call::Write {
        endpoint: 7,
        part,
        bytes,
    })
}

// A MAP of one more page as bytes.
fn raw_map(alloc: Global) -> Result<Call, AllocError>
    ensures plain { IfOk result IsPlainCall }
    ensures followed { (one : One) → IfOk result (IsFollowed one) }
{
    let mut bytes = [0; 36];
    bytes[0] = vi_history::MAP;
    bytes[4] = 1;
    bytes[9] = 0x30;
    bytes[16] = 0xff;
    bytes[17] = 0x3f;
    bytes[32] = 3;
    let read = Bytes::of(alloc, &bytes)?;
    Ok(Call::Raw { read, write: 4 })
}

// The plain device answers the call, and the state follows the answer: the page that was written. Another call can be
// followed then as before.
fn both(
    alloc: Global,
    plain: &mut Plain,
    state: &mut State,
    call: &Call,
    later: &Call,
) -> Result<Option<u32>, AllocError>
    requires same { state.old.one ≡ plain.old }
    requires plain { IsPlainCall call.now }
    requires followed { IsFollowed plain.old call.now }
    requires later { IsFollowed plain.old later.now }
    requires room { 1 ≤ state.old.spare }
    ensures same { OnOk result (state.new.one ≡ plain.new) }
    ensures later { OnOk result (IsFollowed plain.new later.now) }
    ensures room { OnOk result (state.old.spare ≤ state.new.spare + 1) }
    ensures pages { OnOk result (plain.new.dev.pages ≡ plain.old.dev.pages) }
{
    let entry = plain.step(alloc, Caller::Driver(0), 1, 0, call)?;
    Ok(state.follow(call, &entry))
}

// The pages that calls write, one of each kind.
fn followed(
    alloc: Global,
    plain: &mut Plain,
    state: &mut State,
    write: &Call,
    raw: &Call,
) -> Result<[Option<u32>; 3], AllocError>
    requires same { state.old.one ≡ plain.old }
    requires plain { IsPlainCall write.now }
    requires followed { IsFollowed plain.old write.now }
    requires raw { IsPlainCall raw.now }
    requires bytes { (one : One) → IsFollowed one raw.now }
    requires room { 6 ≤ state.old.spare }
    ensures same { OnOk result (state.new.one ≡ plain.new) }
    ensures pages { OnOk result (plain.new.dev.pages ≡ plain.old.dev.pages) }
{
    both(alloc, plain, state, &Call::Ask(ATTACH), write)?;
    both(alloc, plain, state, &Call::Ask(MAP), write)?;
    let page = both(alloc, plain, state, write, write)?;
    let mapped = both(alloc, plain, state, raw, write)?;
    both(alloc, plain, state, &Call::Bypass(true), write)?;
    let detached = both(alloc, plain, state, &Call::Ask(DETACH), write)?;
    Ok([page, mapped, detached])
}

// The last byte of the second page, and the bypass field.
fn shown(state: &State) -> (Option<u8>, bool)
    requires { state.now.one.dev.pages ≡ 2 }
{
    (state.page(1).last().copied(), state.device().bypass())
}

#[test]
#[tactic(auto, unfolding(vi_history::specs::Start::start))]
fn a_state_follows_answers(rt: HostRuntime) -> Result<(), Fail> {
    let alloc = rt.alloc();
    let setup = setup(alloc)?;
    let write = write(alloc, &setup, 0x2ffe)?;
    let raw = raw_map(alloc)?;
    let mut plain = Plain::new(alloc, &setup)?;
    let mut state = State::new(alloc, &setup, 6)?;
    let pages = followed(alloc, &mut plain, &mut state, &write, &raw)?;
    assert_eq!(rt; pages, [Some(1), None, None]);
    assert_eq!(rt; shown(&state), (Some(2), true));
    stays_followed();
    Ok(())
}
