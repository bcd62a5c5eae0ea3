//! Spans, leases, the parts of transfers, and lists of bytes and regions.
use std::test::Fail;
use vi_bytes::{
    Bytes, Items, Lease, Mapping, Over, Part, Region, RegionKind, Span, Split, aligned, cut,
    page_of, parts,
};

#[test]
fn spans_have_both_ends(rt: HostRuntime) -> Result<(), Fail> {
    assert_eq!(rt; Span::new(0x2000, 0x1fff), None);
    let span = Span::new(0x1000, 0x1fff).ok_or("a span")?;
    let next = Span::new(0x2000, u64::MAX).ok_or("a span")?;
    let inner = Span::new(0x1fff, 0x1fff).ok_or("a span")?;
    assert!(rt; span.contains(0x1fff));
    assert!(rt; !span.contains(0x2000));
    assert!(rt; !span.meets(&next));
    assert!(rt; inner.meets(&span));
    assert!(rt; span.covers(&inner));
    assert!(rt; !inner.covers(&span));
    Ok(())
}

#[test]
fn aligned_goes_by_whole_granules(rt: HostRuntime) {
    let table = [
        (0, u64::MAX, 4096, true),
        (u64::MAX - 4095, u64::MAX, 4096, true),
        (0x10000, 0x1ffff, 65536, true),
        (0x1000, 0x1fff, 16384, false),
        (0, 0x1ffe, 4096, false),
        (0, u64::MAX, 0, false),
        (0, 0, 0, false),
    ];
    for (first, last, granule, want) in table {
        assert_eq!(rt;
            aligned(first, last, granule),
            want,
            "{first:#x} to {last:#x} at {granule}"
        );
    }
    assert_eq!(rt; page_of(u64::MAX), 0xf_ffff_ffff_ffff);
}

#[test]
fn leases_go_by_whole_pages(rt: HostRuntime) -> Result<(), Fail> {
    let lease = Lease {
        page: 14,
        count: 2,
        target: 0,
        perm: 3,
    };
    let next = Lease { page: 16, ..lease };
    assert!(rt; lease.has_page(15));
    assert!(rt; !lease.has_page(16));
    assert!(rt; !lease.shares_page(&next));
    assert_eq!(rt; lease.last_page(), 15);
    let below = Span::new(0, 0xdfff).ok_or("a span")?;
    let end = Span::new(0xffff, 0xffff).ok_or("a span")?;
    assert!(rt; !lease.meets(&below));
    assert!(rt; lease.meets(&end));
    Ok(())
}

#[test]
fn refusals_name_the_mapping(rt: HostRuntime) -> Result<(), Fail> {
    let span = Span {
        first: 0x1000,
        last: 0x2fff,
    };
    let met = Mapping {
        span,
        target: 0,
        flags: 3,
    };
    let over = format!(in rt.alloc(); "{}", Over { met })?;
    assert_eq!(rt;
        over.as_str(),
        "shares addresses with the mapping of 0x1000 to 0x2fff"
    );
    let split = format!(in rt.alloc(); "{}", Split { met })?;
    assert_eq!(rt;
        split.as_str(),
        "has only a part of the mapping of 0x1000 to 0x2fff"
    );
    Ok(())
}

#[test]
fn transfers_are_cut_at_pages(rt: HostRuntime) {
    let table = [
        (0x1ff0, 4200, 3, 1, 0x1ff0, 16),
        (0x1ff0, 4200, 3, 2, 0x2000, 4096),
        (0x1ff0, 4200, 3, 3, 0x3000, 88),
        (0x1000, 4096, 1, 1, 0x1000, 4096),
        (0x1fff, 2, 2, 2, 0x2000, 1),
        (0xfff, 65536, 17, 1, 0xfff, 1),
        (0xfff, 65536, 17, 17, 0x10000, 4095),
        (u64::MAX, 1, 1, 1, u64::MAX, 1),
        (u64::MAX - 4096, 4097, 2, 2, u64::MAX - 4095, 4096),
    ];
    for (iova, len, count, k, first, size) in table {
        assert_eq!(rt; parts(iova, len), count, "of {len} bytes from {iova:#x}");
        assert_eq!(rt;
            cut(iova, len, k),
            Part {
                iova: first,
                len: size
            },
            "part {k} from {iova:#x}"
        );
    }
}

#[test]
fn keeps_its_bytes(rt: HostRuntime) -> Result<(), Fail> {
    let bytes = Bytes::of(rt.alloc(), &[0x7f, 0, 255])?;
    assert_eq!(rt; bytes.as_slice(), [0x7f, 0, 255].as_slice());
    assert_eq!(rt; bytes.len(), 3);
    assert!(rt; !bytes.is_empty());
    let mut vec = bytes.into_vec();
    vec.push(1)?;
    assert_eq!(rt;
        Bytes::from_vec(vec).as_slice(),
        [0x7f, 0, 255, 1].as_slice()
    );
    assert!(rt; Bytes::new(rt.alloc()).is_empty());
    Ok(())
}

#[test]
fn keeps_its_elements(rt: HostRuntime) -> Result<(), Fail> {
    let span = Span::new(0x1000, 0x1fff).ok_or("a span")?;
    let msi = Region {
        kind: RegionKind::Msi,
        span,
    };
    let items = Items::of(rt.alloc(), &[msi])?;
    assert_eq!(rt; items.get(0).copied(), Some(msi));
    assert_eq!(rt; items.get(1).copied(), None);
    assert_eq!(rt; items.len(), 1);
    assert!(rt; !items.is_empty());
    let mut vec = items.into_vec();
    vec.push(msi)?;
    assert_eq!(rt; Items::from_vec(vec).as_slice(), [msi, msi].as_slice());
    let none: Items<Region> = Items::new(rt.alloc());
    assert!(rt; none.is_empty());
    Ok(())
}
