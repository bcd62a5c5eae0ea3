//! One device of two endpoints, call by call.
ghost use Rattle.std.specs.Prelude.{◌≡◌, ◌<◌, length, IfOk};
ghost use Rattle.vi_device.specs.Values.{AreRegions, IsSetup};

use std::alloc::{AllocError, Global};
use std::test::Fail;
use vi_bytes::{EndpointSetup, Items, Lease, Membership, Need, Region, RegionKind, Span};
use vi_device::{Device, Found};
use vi_history::reason::{DOMAIN, MAPPING, UNKNOWN};
use vi_history::status::{INVAL, NOENT, OK, RANGE};
use vi_history::{Request, Setup};

// An endpoint whose page 8 is a region.
fn endpoint(alloc: Global, id: u32) -> Result<EndpointSetup, AllocError>
    ensures regions { IfOk result (λ e. AreRegions e.regions) }
    ensures id { IfOk result (λ e. e.id ≡ id) }
{
    let region = Region {
        kind: RegionKind::Msi,
        span: Span {
            first: 0x8000,
            last: 0x8fff,
        },
    };
    let regions = Items::of(alloc, &[region])?;
    Ok(EndpointSetup { id, regions })
}

// Endpoints 3 and 5, and 64 pages of memory.
fn setup(alloc: Global) -> Result<Setup, AllocError>
    ensures { IfOk result IsSetup }
{
    let mut endpoints = Vec::with_capacity(alloc, 2)?;
    endpoints.push_reserved(endpoint(alloc, 3)?);
    endpoints.push_reserved(endpoint(alloc, 5)?);
    Ok(Setup {
        memory: 64,
        queue: 16,
        cache: 4,
        granule: 4096,
        input: Span {
            first: 0,
            last: u64::MAX,
        },
        bypass: false,
        events: false,
        endpoints: Items::from_vec(endpoints),
    })
}

// A device of this setup, with room for so many mappings.
fn device(alloc: Global, maps: u32) -> Result<Device, AllocError> {
    Device::new(alloc, &setup(alloc)?, maps)
}

const ATTACH: Request = Request::Attach {
    domain: 1,
    endpoint: 3,
    flags: 0,
};

const MAP: Request = Request::Map {
    domain: 1,
    first: 0x1000,
    last: 0x2fff,
    target: 0x3000,
    flags: 3,
};

const HALF: Request = Request::Unmap {
    domain: 1,
    first: 0x1000,
    last: 0x1fff,
};

const WHOLE: Request = Request::Unmap {
    domain: 1,
    first: 0,
    last: u64::MAX,
};

// Attaches the endpoint 3 and maps two pages: the status of the MAP before, of the ATTACH, of the MAP, and of the MAP once more;
// and whether the domain is there, whether it has room for the MAP, and both once more behind the MAP.
fn mapped(device: &mut Device) -> ([u8; 4], [bool; 4]) {
    let early = device.status(&MAP);
    let attached = device.commit(&ATTACH);
    let exists = device.has_domain(1);
    let room = device.has_room(&MAP);
    let added = if room { device.commit(&MAP) } else { u8::MAX };
    let again = device.status(&MAP);
    let fits = [exists, room, device.has_domain(1), device.has_room(&MAP)];
    ([early, attached, added, again], fits)
}

// How many mappings the domain 1 has.
fn mappings(device: &Device) -> Option<u32> {
    if !device.has_domain(1) {
        return None;
    }
    Some(device.mappings(1).len())
}

// The domain of the first endpoint, where two addresses of it lead, and its page 2 as a lease alone and with those beside it.
fn looks(device: &Device) -> (Membership, [Found; 2], [Option<Lease>; 2])
    requires { 0 < length device.now.dev.endpoints }
{
    let leads = [
        device.translate(0, 0x1fff, Need::Write),
        device.translate(0, 0x3000, Need::Read),
    ];
    let leases = [device.lease(0, 2), device.run(0, 2)];
    (device.membership(0), leads, leases)
}

// The statuses of an UNMAP of half a mapping and of one of all, and whether the MAP has room then.
fn unmapped(device: &mut Device) -> ([u8; 2], bool) {
    let statuses = [device.commit(&HALF), device.commit(&WHOLE)];
    (statuses, device.has_room(&MAP))
}

#[test]
fn a_mapping_holds_until_it_is_unmapped(rt: HostRuntime) -> Result<(), Fail> {
    let mut device = device(rt.alloc(), 1)?;
    assert_eq!(rt; device.endpoints(), 2);
    assert_eq!(rt;
        device.translate(0, 0x1fff, Need::Read),
        Found::Fault(DOMAIN)
    );
    let fits = [true, true, true, false];
    assert_eq!(rt; mapped(&mut device), ([NOENT, OK, OK, INVAL], fits));
    assert_eq!(rt; mappings(&device), Some(1));
    assert_eq!(rt; device.endpoints(), 2);
    let lease = Lease {
        page: 2,
        count: 1,
        target: 4,
        perm: 3,
    };
    let run = Lease {
        page: 1,
        count: 2,
        target: 3,
        perm: 3,
    };
    let leads = [Found::At(0x3fff), Found::Fault(MAPPING)];
    let want = (Membership::Member(1), leads, [Some(lease), Some(run)]);
    assert_eq!(rt; looks(&device), want);
    assert_eq!(rt; unmapped(&mut device), ([RANGE, OK], true));
    Ok(())
}

// Whether endpoints in no domain bypass translation, before that is set and then.
fn bypassed(device: &mut Device) -> [bool; 2] {
    let before = device.bypass();
    device.set_bypass(true);
    [before, device.bypass()]
}

// Where a region's address and one beyond the memory lead for the second endpoint.
fn bypass_leads(device: &Device) -> [Found; 2]
    requires { 1 < length device.now.dev.endpoints }
{
    [
        device.translate(1, 0x8123, Need::Write),
        device.translate(1, 0x40000, Need::Read),
    ]
}

#[test]
fn bypass_leads_to_the_same_address(rt: HostRuntime) -> Result<(), Fail> {
    let mut device = device(rt.alloc(), 1)?;
    assert_eq!(rt; bypassed(&mut device), [false, true]);
    assert_eq!(rt; device.endpoints(), 2);
    let leads = [Found::At(0x8123), Found::Fault(UNKNOWN)];
    assert_eq!(rt; bypass_leads(&device), leads);
    Ok(())
}

// Whether the properties of the endpoint 3 begin with its region, and whether those of nobody are zeros.
fn shown(device: &Device) -> [bool; 2] {
    let properties = device.properties(3);
    let nobody = device.properties(4);
    [
        properties.starts_with(&[1, 0, 20, 0, 1]),
        nobody.iter().all(|byte| *byte == 0),
    ]
}

#[test]
fn properties_are_the_regions(rt: HostRuntime) -> Result<(), Fail> {
    let device = device(rt.alloc(), 0)?;
    assert_eq!(rt; shown(&device), [true, true]);
    Ok(())
}
