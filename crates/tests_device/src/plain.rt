//! The plain device of two pages and one endpoint, call by call.
ghost use Rattle.std.specs.Prelude.{◌≤◌, ◌%◌, length, IfOk};
ghost use Rattle.vi_plain.specs.Conditions.{IsPlainSetup};

use std::alloc::{AllocError, Global};
use std::test::Fail;
use vi_bytes::{Bytes, EndpointSetup, Items, Part, Region, RegionKind, Span};
use vi_history::{Call, Caller, Entry, Kind, Mark, Request, Setup, reason, status};
use vi_plain::Plain;

// Two pages, and the endpoint 7 with the region from 0x8000 to 0x8fff.
fn setup(alloc: Global) -> Result<Setup, AllocError>
    ensures { IfOk result IsPlainSetup }
{
    let kind = RegionKind::Reserved;
    let span = Span {
        first: 0x8000,
        last: 0x8fff,
    };
    let mut endpoints = Vec::new(alloc);
    endpoints.push(EndpointSetup {
        id: 7,
        regions: Items::of(alloc, &[Region { kind, span }])?,
    })?;
    Ok(Setup {
        memory: 2,
        queue: 16,
        cache: 16,
        granule: 4096,
        input: Span {
            first: 0,
            last: 0xffff_ffff,
        },
        bypass: false,
        events: false,
        endpoints: Items::from_vec(endpoints),
    })
}

// The device of this setup.
fn plain(alloc: Global) -> Result<Plain, AllocError> {
    Plain::new(alloc, &setup(alloc)?)
}

const ATTACH: Request = Request::Attach {
    domain: 1,
    endpoint: 7,
    flags: 0,
};

const MAP: Request = Request::Map {
    domain: 1,
    first: 0x2000,
    last: 0x3fff,
    target: 0,
    flags: 3,
};

const HALF: Request = Request::Unmap {
    domain: 1,
    first: 0x2000,
    last: 0x2fff,
};

const WHOLE: Request = Request::Unmap {
    domain: 1,
    first: 0,
    last: u64::MAX,
};

const DETACH: Request = Request::Detach {
    domain: 1,
    endpoint: 7,
};

// What the driver 0 is answered to a request.
fn ask(plain: &mut Plain, alloc: Global, request: Request) -> Result<Entry, AllocError> {
    plain.step(alloc, Caller::Driver(0), 1, 0, &Call::Ask(request))
}

// The status of that, and `None` where there is no memory.
fn status_of(plain: &mut Plain, alloc: Global, request: Request) -> Option<u8> {
    code(ask(plain, alloc, request))
}

// What the endpoint 7 is answered to a read of 2 bytes.
fn read(plain: &mut Plain, alloc: Global, iova: u64) -> Result<Entry, AllocError>
    requires { iova % 4096 ≤ 4094 }
{
    let part = Part { iova, len: 2 };
    let call = Call::Read { endpoint: 7, part };
    plain.step(alloc, Caller::Back(7), 2, 1, &call)
}

// What the endpoint 7 is answered to a write of the bytes 1 and 2.
fn write(plain: &mut Plain, alloc: Global, iova: u64) -> Result<Entry, AllocError>
    requires { iova % 4096 ≤ 4094 }
{
    let part = Part { iova, len: 2 };
    let call = Call::Write {
        endpoint: 7,
        part,
        bytes: Bytes::of(alloc, &[1, 2])?,
    };
    plain.step(alloc, Caller::Back(7), 1, 1, &call)
}

// The mark of an answer, and `None` where there is no memory.
fn mark(answer: Result<Entry, AllocError>) -> Option<Mark> {
    match answer {
        Ok(entry) => Some(entry.mark),
        Err(_) => None,
    }
}

fn kind(answer: Result<Entry, AllocError>) -> Option<Kind> {
    match answer {
        Ok(entry) => Some(entry.mark.kind),
        Err(_) => None,
    }
}

fn code(answer: Result<Entry, AllocError>) -> Option<u8> {
    match answer {
        Ok(entry) => Some(entry.mark.code),
        Err(_) => None,
    }
}

// The statuses of two requests by which two pages are mapped.
fn mapped(plain: &mut Plain, alloc: Global) -> [Option<u8>; 2] {
    [
        status_of(plain, alloc, ATTACH),
        status_of(plain, alloc, MAP),
    ]
}

// Whether a read behind a write, at the end of a page, answers the bytes that were written, and the kinds of both.
fn read_back(plain: &mut Plain, alloc: Global) -> Result<([Kind; 2], bool), AllocError> {
    let wrote = write(plain, alloc, 0x3ffe)?;
    let entry = read(plain, alloc, 0x3ffe)?;
    let same = entry.bytes.as_slice() == [1, 2].as_slice();
    Ok(([wrote.mark.kind, entry.mark.kind], same))
}

#[test]
fn writes_are_read_back(rt: HostRuntime) -> Result<(), Fail> {
    let alloc = rt.alloc();
    let mut plain = plain(alloc)?;
    assert_eq!(rt; mapped(&mut plain, alloc), [Some(status::OK); 2]);
    let kinds = [Kind::Wrote, Kind::Read];
    assert_eq!(rt; read_back(&mut plain, alloc).ok(), Some((kinds, true)));
    Ok(())
}

// What a read is answered before anything is mapped, after an UNMAP of half the mapping, and after one of all of it, with the
// statuses of both.
fn unmapped(plain: &mut Plain, alloc: Global) -> ([Option<u8>; 4], Option<Kind>) {
    let before = code(read(plain, alloc, 0x2000));
    mapped(plain, alloc);
    let half = status_of(plain, alloc, HALF);
    let left = kind(read(plain, alloc, 0x2000));
    let whole = status_of(plain, alloc, WHOLE);
    let after = code(read(plain, alloc, 0x2000));
    ([before, half, whole, after], left)
}

// The statuses of a DETACH, and of a MAP behind it.
fn detached(plain: &mut Plain, alloc: Global) -> [Option<u8>; 2] {
    [
        status_of(plain, alloc, DETACH),
        status_of(plain, alloc, MAP),
    ]
}

#[test]
fn unmapped_addresses_fault(rt: HostRuntime) -> Result<(), Fail> {
    let alloc = rt.alloc();
    let mut plain = plain(alloc)?;
    let codes = [
        Some(reason::DOMAIN),
        Some(status::RANGE),
        Some(status::OK),
        Some(reason::MAPPING),
    ];
    let want = (codes, Some(Kind::Read));
    assert_eq!(rt; unmapped(&mut plain, alloc), want);
    let want = [Some(status::OK), Some(status::NOENT)];
    assert_eq!(rt; detached(&mut plain, alloc), want);
    Ok(())
}

// The kinds of a bypass setting and of a read behind it, and the mark of a read beyond the memory.
fn bypassed(plain: &mut Plain, alloc: Global) -> ([Option<Kind>; 2], Option<Mark>) {
    let set = kind(plain.step(alloc, Caller::Driver(0), 1, 0, &Call::Bypass(true)));
    let inside = kind(read(plain, alloc, 0x1000));
    ([set, inside], mark(read(plain, alloc, 0x2000)))
}

#[test]
fn bypass_leads_to_the_address_itself(rt: HostRuntime) -> Result<(), Fail> {
    let alloc = rt.alloc();
    let mut plain = plain(alloc)?;
    let beyond = Mark {
        caller: Caller::Back(7),
        line: 2,
        part: 1,
        kind: Kind::Fault,
        code: reason::UNKNOWN,
    };
    let kinds = [Some(Kind::Set), Some(Kind::Read)];
    assert_eq!(rt; bypassed(&mut plain, alloc), (kinds, Some(beyond)));
    Ok(())
}

// What a PROBE of the endpoint is answered: the kind, how many bytes, and the first of them.
fn probed(
    plain: &mut Plain,
    alloc: Global,
    endpoint: u32,
) -> Result<(Kind, usize, Option<u8>), AllocError> {
    let entry = ask(plain, alloc, Request::Probe { endpoint })?;
    let first = entry.bytes.as_slice().first().copied();
    Ok((entry.mark.kind, entry.bytes.len(), first))
}

#[test]
fn probes_show_the_regions(rt: HostRuntime) -> Result<(), Fail> {
    let alloc = rt.alloc();
    let mut plain = plain(alloc)?;
    let want = Some((Kind::Probed, 512, Some(1)));
    assert_eq!(rt; probed(&mut plain, alloc, 7).ok(), want);
    let nobody = code(ask(&mut plain, alloc, Request::Probe { endpoint: 8 }));
    assert_eq!(rt; nobody, Some(status::NOENT));
    Ok(())
}

// What the driver 1 is answered to these bytes, with room for so many bytes of an answer.
fn raw(plain: &mut Plain, alloc: Global, bytes: &[u8], write: u32) -> Option<Mark>
    requires { length bytes.now ≤ 20 }
{
    let read = match Bytes::of(alloc, bytes) {
        Ok(read) => read,
        Err(_) => return None,
    };
    mark(plain.step(alloc, Caller::Driver(1), 1, 0, &Call::Raw { read, write }))
}

#[test]
fn bytes_are_asked_for(rt: HostRuntime) -> Result<(), Fail> {
    let alloc = rt.alloc();
    let mut plain = plain(alloc)?;
    let mut attach = [0; 20];
    attach[0] = vi_history::ATTACH;
    attach[4] = 1;
    attach[8] = 7;
    for (write, kind) in [(3, Kind::Nothing), (4, Kind::Status)] {
        let answer = raw(&mut plain, alloc, &attach, write);
        assert_eq!(rt; answer.map(|mark| mark.kind), Some(kind));
    }
    assert_eq!(rt; status_of(&mut plain, alloc, MAP), Some(status::OK));
    let answer = raw(&mut plain, alloc, &[2, 0, 0, 0], 4);
    assert_eq!(rt; answer.map(|mark| mark.code), Some(status::INVAL));
    Ok(())
}
