//! What is under way between the device and its back ends.
ghost use Rattle.std.specs.Prelude.{◌≡◌, length, replicate, None};
ghost use Rattle.vi_model.specs.Control.{no_lanes};

use std::test::Fail;
use vi_bytes::{Lease, Need, Span};
use vi_iotlb::{Frame, decode};
use vi_lanes::{Lanes, Miss};
use vi_mail::Lane;

const MISS: Miss = Miss {
    line: 3,
    part: 2,
    iova: 0x1ffe,
    len: 2,
    need: Need::Write,
    fail: true,
};

const LEASE: Lease = Lease {
    page: 16,
    count: 2,
    target: 5,
    perm: 3,
};

const UPDATE: Frame = Frame::Update {
    page: 16,
    count: 2,
    target: 5,
    perm: 3,
};

const ALL: Span = Span {
    first: 0,
    last: u64::MAX,
};

// With what the back end receives before.
fn sent_down(lanes: &mut Lanes) -> Option<Frame>
    requires { lanes.old ≡ record { mail = replicate 2 no_lanes; parked = replicate 2 None } }
    ensures { length lanes.new.mail ≡ 2 }
{
    let before = lanes.receive(1);
    lanes.reply(1, true);
    lanes.grant(1, LEASE);
    lanes.invalidate(1, &ALL);
    before
}

// By the other back end first.
fn received(lanes: &mut Lanes) -> [Option<Frame>; 5]
    requires { length lanes.old.mail ≡ 2 }
{
    [
        lanes.receive(0),
        lanes.receive(1),
        lanes.receive(1),
        lanes.receive(1),
        lanes.receive(1),
    ]
}

#[test]
fn what_is_sent_down_is_received(rt: HostRuntime) -> Result<(), Fail> {
    let mut lanes = Lanes::build(rt.alloc(), 2)?;
    assert_eq!(rt; sent_down(&mut lanes), None);
    let frames = [
        None,
        Some(UPDATE),
        Some(Frame::Invalidate { span: ALL }),
        Some(Frame::Reply { fault: true }),
        None,
    ];
    assert_eq!(rt; received(&mut lanes), frames, "each back end has its own");
    Ok(())
}

// Before an acknowledgement, after it, and when it is taken.
fn has_acks(lanes: &mut Lanes) -> [bool; 3]
    requires { lanes.old ≡ record { mail = replicate 1 no_lanes; parked = replicate 1 None } }
{
    let before = lanes.has_ack(0);
    lanes.acknowledge(0);
    let after = lanes.has_ack(0);
    lanes.take_ack(0);
    [before, after, lanes.has_ack(0)]
}

#[test]
fn acks_are_counted(rt: HostRuntime) -> Result<(), Fail> {
    let mut lanes = Lanes::build(rt.alloc(), 1)?;
    assert_eq!(rt; has_acks(&mut lanes), [false, true, false]);
    Ok(())
}

// Whether a miss is under way before and after, and what is taken before.
fn asked(lanes: &mut Lanes) -> ([bool; 2], Option<Miss>)
    requires { lanes.old ≡ record { mail = replicate 16 no_lanes; parked = replicate 16 None } }
    ensures { length lanes.new.mail ≡ 16 }
{
    let before = lanes.has_miss(15);
    let none = lanes.take_miss(15);
    lanes.ask(15, &MISS);
    ([before, lanes.has_miss(15)], none)
}

// The miss as it is taken, and what is parked before it and after.
fn parked(lanes: &mut Lanes) -> Option<[Option<Miss>; 3]>
    requires { length lanes.old.mail ≡ 16 }
    ensures { length lanes.new.mail ≡ 16 }
{
    let taken = lanes.take_miss(15)?;
    let before = lanes.parked(15);
    lanes.park(15, &taken);
    Some([Some(taken), before, lanes.parked(15)])
}

// It is parked again, and what is unparked then, once and twice.
fn unparked(lanes: &mut Lanes) -> Option<[Option<Miss>; 3]>
    requires { length lanes.old.mail ≡ 16 }
{
    let first = lanes.unpark(15)?;
    lanes.park(15, &first);
    Some([Some(first), lanes.unpark(15), lanes.unpark(15)])
}

#[test]
fn a_miss_keeps_its_line_and_part(rt: HostRuntime) -> Result<(), Fail> {
    let mut lanes = Lanes::build(rt.alloc(), 16)?;
    assert_eq!(rt; asked(&mut lanes), ([false, true], None));
    let sent = decode(lanes.mail().oldest(15, Lane::BackUp));
    let frame = Frame::AccessFail {
        iova: 0x1ffe,
        len: 2,
        need: Need::Write,
    };
    assert_eq!(rt; sent, Ok(frame));
    let kept = Some(MISS);
    assert_eq!(rt; parked(&mut lanes), Some([kept, None, kept]));
    assert_eq!(rt; unparked(&mut lanes), Some([kept, kept, None]));
    Ok(())
}
