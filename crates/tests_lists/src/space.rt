//! The spans that a space gives out, and what it takes back.
ghost use Rattle.std.specs.Prelude.{◌≡◌, ◌≤◌, ◌<◌, length, IfSome};

use std::alloc::Global;
use std::test::Fail;
use vi_bytes::{Region, RegionKind, Span};
use vi_iova::{AllocFault, Space, SpaceFault};
use vi_prop::{PropFault, encode};

const ALL: Span = Span {
    first: 0,
    last: u64::MAX,
};

const fn span(first: u64, last: u64) -> Span {
    Span { first, last }
}

fn region(first: u64, last: u64) -> Region {
    Region {
        kind: RegionKind::Reserved,
        span: Span { first, last },
    }
}

fn opened(alloc: Global, input: Span, granule: u32, regions: &[Region]) -> Option<Space>
    requires granule { 0 < granule }
    requires few { length regions.now ≤ 16 }
    ensures { IfSome result (λ s. s.granule ≡ granule) }
{
    match Space::open(alloc, input, granule, &encode(regions)) {
        Ok(space) => Some(space),
        Err(_) => None,
    }
}

// What the space gives for one granule.
fn one(space: &mut Space, granule: u32) -> Result<Span, AllocFault>
    requires granule { space.old.granule ≡ granule }
    requires some { 0 < granule }
    ensures { space.new.granule ≡ granule }
{
    space.alloc(u64::from(granule))
}

// What the space gives for two granules.
fn two(space: &mut Space, granule: u32) -> Result<Span, AllocFault>
    requires granule { space.old.granule ≡ granule }
    requires some { 0 < granule }
    ensures { space.new.granule ≡ granule }
{
    space.alloc(2 * u64::from(granule))
}

fn three(space: &mut Space, granule: u32) -> [Result<Span, AllocFault>; 3]
    requires granule { space.old.granule ≡ granule }
    requires some { 0 < granule }
    ensures { space.new.granule ≡ granule }
{
    let low = one(space, granule);
    let pair = two(space, granule);
    [low, pair, one(space, granule)]
}

// What a new space gives for one granule, for two and for one.
fn given(
    alloc: Global,
    input: Span,
    granule: u32,
    regions: &[Region],
) -> Option<[Result<Span, AllocFault>; 3]>
    requires granule { 0 < granule }
    requires few { length regions.now ≤ 16 }
{
    let mut space = opened(alloc, input, granule, regions)?;
    Some(three(&mut space, granule))
}

#[test]
fn the_lowest_free_span_is_given(rt: HostRuntime) {
    let low = [
        Ok(span(0x1000, 0x1fff)),
        Ok(span(0x2000, 0x3fff)),
        Ok(span(0x4000, 0x4fff)),
    ];
    assert_eq!(rt; given(rt.alloc(), ALL, 4096, &[]), Some(low));
    let past_one = [
        Ok(span(0x2000, 0x2fff)),
        Ok(span(0x3000, 0x4fff)),
        Ok(span(0x5000, 0x5fff)),
    ];
    let regions = [region(0x1000, 0x1fff)];
    assert_eq!(rt; given(rt.alloc(), ALL, 4096, &regions), Some(past_one));
    let past_part = [
        Ok(span(0x2_0000, 0x2_ffff)),
        Ok(span(0x3_0000, 0x4_ffff)),
        Ok(span(0x5_0000, 0x5_ffff)),
    ];
    let regions = [region(0x8000, 0x1_0fff)];
    assert_eq!(rt; given(rt.alloc(), ALL, 65536, &regions), Some(past_part));
}

// Regions at both ends of the range, regions that share addresses and don't rise, and the last of all addresses.
#[test]
fn regions_are_passed(rt: HostRuntime) {
    let between = [
        Ok(span(0x2000, 0x2fff)),
        Ok(span(0x3000, 0x4fff)),
        Err(AllocFault::Full),
    ];
    let regions = [region(0x5000, 0x5fff), region(0x1000, 0x1fff)];
    let input = span(0x1000, 0x5fff);
    assert_eq!(rt; given(rt.alloc(), input, 4096, &regions), Some(between));
    let above = [
        Ok(span(0x4000, 0x4fff)),
        Ok(span(0x6000, 0x7fff)),
        Ok(span(0x8000, 0x8fff)),
    ];
    let regions = [
        region(0x5000, 0x5fff),
        region(0, 0x3fff),
        region(0x2000, 0x2fff),
    ];
    assert_eq!(rt; given(rt.alloc(), ALL, 4096, &regions), Some(above));
    let top = [
        Ok(span(0xffff_ffff_ffff_c000, 0xffff_ffff_ffff_cfff)),
        Ok(span(0xffff_ffff_ffff_e000, u64::MAX)),
        Err(AllocFault::Full),
    ];
    let regions = [region(0xffff_ffff_ffff_d000, 0xffff_ffff_ffff_dfff)];
    let input = span(0xffff_ffff_ffff_c000, u64::MAX);
    assert_eq!(rt; given(rt.alloc(), input, 4096, &regions), Some(top));
    let ended = [Err(AllocFault::Full); 3];
    let regions = [region(0x1000, u64::MAX)];
    assert_eq!(rt; given(rt.alloc(), ALL, 4096, &regions), Some(ended));
}

// A span is freed, and given again.
fn again(space: &mut Space) -> Result<[Span; 3], AllocFault>
    requires { space.old.granule ≡ 4096 }
{
    let low = space.alloc(4096)?;
    let pair = space.alloc(8192)?;
    space.free(&low);
    Ok([low, pair, space.alloc(4096)?])
}

#[test]
fn a_span_is_given_again(rt: HostRuntime) -> Result<(), Fail> {
    let regions = [region(0x1000, 0x1fff)];
    let mut space = opened(rt.alloc(), ALL, 4096, &regions).ok_or("a space")?;
    let low = span(0x2000, 0x2fff);
    let pair = span(0x3000, 0x4fff);
    assert_eq!(rt; again(&mut space), Ok([low, pair, low]));
    Ok(())
}

fn freed(space: &mut Space, spans: &[Span; 2]) -> [bool; 3]
    ensures { space.new.granule ≡ space.old.granule }
{
    let low = space.free(&spans[0]);
    let other = space.free(&spans[1]);
    [low, other, space.free(&spans[0])]
}

#[test]
fn a_freed_span_is_found_again(rt: HostRuntime) -> Result<(), Fail> {
    let mut space = opened(rt.alloc(), span(0, 0x4fff), 4096, &[]).ok_or("a space")?;
    let given = [
        Ok(span(0x1000, 0x1fff)),
        Ok(span(0x2000, 0x3fff)),
        Ok(span(0x4000, 0x4fff)),
    ];
    assert_eq!(rt; three(&mut space, 4096), given);
    let frees = [span(0x1000, 0x1fff), span(0x2000, 0x2fff)];
    assert_eq!(rt; freed(&mut space, &frees), [true, false, false]);
    assert_eq!(rt; two(&mut space, 4096), Err(AllocFault::Full));
    assert_eq!(rt; one(&mut space, 4096), Ok(span(0x1000, 0x1fff)));
    assert_eq!(rt; one(&mut space, 4096), Err(AllocFault::Full));
    Ok(())
}

fn fault(alloc: Global, properties: &[u8]) -> Option<SpaceFault>
    requires { length properties.now < 1000 }
{
    match Space::open(alloc, ALL, 4096, properties) {
        Ok(_) => None,
        Err(fault) => Some(fault),
    }
}

// One region, from 0x1000 to 0x1fff.
const REGION: [u8; 24] = [
    1, 0, 20, 0, 0, 0, 0, 0, 0, 0x10, 0, 0, 0, 0, 0, 0, 0xff, 0x1f, 0, 0, 0, 0, 0, 0,
];

#[test]
fn properties_at_fault_are_refused(rt: HostRuntime) -> Result<(), Fail> {
    let cut = fault(rt.alloc(), &REGION[..23]);
    assert_eq!(rt; cut, Some(SpaceFault::Properties(PropFault::Cut(0))));
    let whole = fault(rt.alloc(), &REGION);
    assert_eq!(rt; whole, None);
    let said = format!(in rt.alloc(); "{}", AllocFault::Full)?;
    assert_eq!(rt; said.as_str(), "no span of this length is free");
    let reason = SpaceFault::Properties(PropFault::Cut(0));
    let said = format!(in rt.alloc(); "{reason}")?;
    assert_eq!(rt;
        said.as_str(),
        "the properties: byte 0: the property passes the end of the bytes"
    );
    Ok(())
}
