//! The regions of two endpoints.
ghost use Rattle.std.specs.Prelude.{◌≡◌, ◌<◌, IfOk, length};
ghost use Rattle.vi_bytes.specs.Spans.{IsProper};
ghost use Rattle.vi_reserved.specs.Regions.{AreProper};

use std::alloc::{AllocError, Global};
use std::test::Fail;
use vi_bytes::{EndpointSetup, Items, Region, RegionKind, Span};
use vi_reserved::Reserved;

// Two pages from this address on.
fn region(first: u64) -> Region
    requires { first < 65536 }
    ensures { IsProper result.span }
{
    let span = Span {
        first,
        last: first + 0x1fff,
    };
    Region {
        kind: RegionKind::Msi,
        span,
    }
}

// An endpoint with two regions.
fn endpoint(alloc: Global, one: Region, other: Region) -> Result<EndpointSetup, AllocError>
    requires one { IsProper one.span }
    requires other { IsProper other.span }
    ensures { IfOk result (λ e. AreProper e.regions) }
{
    let regions = Items::of(alloc, &[one, other])?;
    Ok(EndpointSetup { id: 7, regions })
}

const ALL: Span = Span {
    first: 0,
    last: u64::MAX,
};

// The last byte of the lower region, and the first behind it.
const END: Span = Span {
    first: 0x2fff,
    last: 0x3000,
};

const BEHIND: Span = Span {
    first: 0x3000,
    last: 0x7fff,
};

fn meeting(reserved: &Reserved) -> [Option<Region>; 4]
    requires { length reserved.now ≡ 2 }
{
    [
        reserved.first_meeting(0, &ALL),
        reserved.first_meeting(0, &END),
        reserved.first_meeting(0, &BEHIND),
        reserved.first_meeting(1, &ALL),
    ]
}

fn with_an_address(reserved: &Reserved) -> [Option<Region>; 2]
    requires { length reserved.now ≡ 2 }
{
    [
        reserved.first_with(0, 0x9fff),
        reserved.first_with(1, 0x9fff),
    ]
}

#[test]
fn the_first_in_declared_order_is_found(rt: HostRuntime) -> Result<(), Fail> {
    let high = region(0x8000);
    let low = region(0x1000);
    let setups = [
        endpoint(rt.alloc(), high, low)?,
        endpoint(rt.alloc(), low, low)?,
    ];
    let reserved = Reserved::new(rt.alloc(), &setups)?;
    assert_eq!(rt; reserved.len(), 2);
    assert_eq!(rt; reserved.regions(0), [high, low].as_slice());
    let met = [Some(high), Some(low), None, Some(low)];
    assert_eq!(rt; meeting(&reserved), met);
    assert_eq!(rt; with_an_address(&reserved), [Some(high), None]);
    Ok(())
}
