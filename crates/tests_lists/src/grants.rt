//! The grants of two back ends as their device keeps them.
ghost use Rattle.std.specs.Prelude.{◌≡◌, length};
ghost use Rattle.vi_bytes.specs.Leases.{IsLease};
ghost use Rattle.vi_bytes.specs.Spans.{IsProper};

use std::process::Abort;
use std::test::Fail;
use vi_bytes::{Lease, Span};
use vi_grants::Grants;

// A lease of the pages 16 and 17.
fn two_pages() -> Lease
    ensures lease { IsLease result }
    ensures page { result.page ≡ 16 }
    ensures count { result.count ≡ 2 }
{
    Lease {
        page: 16,
        count: 2,
        target: 0,
        perm: 3,
    }
}

// With room for one grant each: page 17 is granted to the second, twice.
fn granted_twice(rt: &impl Abort, grants: &mut Grants) -> [bool; 3]
    requires { length grants.old ≡ 2 }
{
    assert!(rt; grants.has_room(1, 17));
    grants.add(1, 17, two_pages());
    let empty = [grants.is_empty(1), grants.is_empty(0)];
    let other = grants.has_room(1, 16);
    assert!(rt; grants.has_room(1, 17));
    grants.add(1, 17, two_pages());
    [empty[0], empty[1], other]
}

#[test]
fn a_page_has_one_grant(rt: HostRuntime) -> Result<(), Fail> {
    let mut grants = Grants::with_room(rt.alloc(), 2, 1)?;
    assert_eq!(rt; grants.backs(), 2);
    assert_eq!(rt; granted_twice(&rt, &mut grants), [false, true, false]);
    Ok(())
}

const BEHIND: Span = Span {
    first: 0x12000,
    last: u64::MAX,
};

const LAST_BYTE: Span = Span {
    first: 0x11fff,
    last: 0x11fff,
};

fn two_granted(rt: &impl Abort, grants: &mut Grants)
    requires { length grants.old ≡ 1 }
    ensures { length grants.new ≡ 1 }
{
    assert!(rt; grants.has_room(0, 16));
    grants.add(0, 16, two_pages());
    assert!(rt; grants.has_room(0, 17));
    grants.add(0, 17, two_pages());
}

// Whether the span meets a grant, and how many it takes.
fn taken(grants: &mut Grants, span: &Span) -> (bool, u32)
    requires one { length grants.old ≡ 1 }
    requires proper { IsProper span.now }
    ensures { length grants.new ≡ 1 }
{
    let meets = grants.meets(0, span);
    (meets, grants.take_span(0, span))
}

#[test]
fn a_span_takes_whole_grants(rt: HostRuntime) -> Result<(), Fail> {
    let mut grants = Grants::with_room(rt.alloc(), 1, 2)?;
    two_granted(&rt, &mut grants);
    assert_eq!(rt; taken(&mut grants, &BEHIND), (false, 0));
    assert_eq!(rt; taken(&mut grants, &LAST_BYTE), (true, 2));
    assert!(rt; grants.is_empty(0) && grants.has_room(0, 3));
    Ok(())
}
