//! Open removals as the device that began them meets them.
ghost use Rattle.std.specs.Prelude.{◌≡◌, []};

use std::process::Abort;
use vi_bytes::{Membership, Span};
use vi_shoot::{Ops, Reach, Token, Waiting, What};

const CHAIN: Token = Token::Chain(3);

const SETTING: Token = Token::Setting { driver: 1, line: 7 };

fn unmap(domain: u32, first: u64, last: u64) -> What {
    What::Unmap {
        domain,
        span: Span { first, last },
    }
}

// One waits for the back ends 1 and 2, and one for 1 alone.
fn two_begun(rt: &impl Abort, ops: &mut Ops) -> (u32, u32)
    requires { ops.old ≡ [] }
{
    let mut both = Waiting::none();
    both.set(1);
    both.set(2);
    let mut one = Waiting::none();
    one.set(1);
    one.set(3);
    one.clear(3);
    assert!(rt; !ops.is_full() && !both.is_none() && one.has(1) && !one.has(3));
    let first = ops.begin(What::Endpoint(4), both, CHAIN);
    let second = ops.begin(What::BypassOff, one, SETTING);
    (first, second)
}

// Back end 1 acknowledges twice. With what was ready in between.
fn acknowledged(rt: &impl Abort, ops: &mut Ops) -> ([(u32, Reach); 2], Option<u32>) {
    assert!(rt; ops.waits_for(1) && ops.waits_for(2) && !ops.waits_for(3));
    let oldest = ops.acked(1);
    let ready = ops.ready();
    assert!(rt; ops.waits_for(1));
    let next = ops.acked(1);
    ([oldest, next], ready)
}

fn closed(ops: &mut Ops) -> (Option<u32>, Option<(What, Token)>) {
    match ops.ready() {
        Some(number) => (Some(number), Some(ops.close(number))),
        None => (None, None),
    }
}

#[test]
fn removals_go_by_the_oldest(rt: HostRuntime) {
    let mut ops = Ops::new();
    assert_eq!(rt; two_begun(&rt, &mut ops), (0, 1));
    let oldest_first = ([(0, Reach::All), (1, Reach::All)], None);
    assert_eq!(rt; acknowledged(&rt, &mut ops), oldest_first);
    let second = (Some(1), Some((What::BypassOff, SETTING)));
    assert_eq!(rt; closed(&mut ops), second, "the first waits still");
    assert!(rt; !ops.is_full() && ops.waits_for(2));
}

// An unmap in domain 7 of half of page 1 and of page 2 waits for back end 5.
fn unmap_begun(ops: &mut Ops)
    requires { ops.old ≡ [] }
{
    let mut waiting = Waiting::none();
    waiting.set(5);
    let span = Span {
        first: 0x1800,
        last: 0x2fff,
    };
    let _ = ops.begin(What::Unmap { domain: 7, span }, waiting, CHAIN);
}

// For a member, for others, and for the one that moved and is waited for.
fn closes(ops: &Ops) -> ([bool; 3], [bool; 2], [bool; 2]) {
    let member = Membership::Member(7);
    let moved = Membership::Member(8);
    (
        [
            ops.closes(0, 1, member),
            ops.closes(0, 2, member),
            ops.closes(0, 3, member),
        ],
        [
            ops.closes(0, 1, moved),
            ops.closes(0, 1, Membership::Unattached),
        ],
        [ops.closes(5, 1, moved), ops.closes(5, 3, moved)],
    )
}

#[test]
fn pages_are_closed_for_those_concerned(rt: HostRuntime) {
    let mut ops = Ops::new();
    unmap_begun(&mut ops);
    let want = ([true, true, false], [false, false], [true, false]);
    assert_eq!(rt; closes(&ops), want, "half of a page is enough");
}

#[test]
fn what_a_removal_is_for(rt: HostRuntime) {
    let member = Membership::Member(7);
    let free = Membership::Unattached;
    let rows = [
        (unmap(7, 0, 4095), true, false),
        (unmap(8, 0, 4095), false, false),
        (What::Endpoint(3), true, true),
        (What::Endpoint(4), false, false),
        (What::BypassOff, false, true),
    ];
    for (what, as_member, unattached) in rows {
        assert_eq!(rt; what.is_for(3, member), as_member);
        assert_eq!(rt; what.is_for(3, free), unattached);
    }
    let all = What::BypassOff.reach();
    assert_eq!(rt;
        all.span(),
        Span {
            first: 0,
            last: u64::MAX
        }
    );
    assert!(rt; all.has(u64::MAX));
    assert!(rt; !unmap(7, 0, 4095).reach().has(1));
}
