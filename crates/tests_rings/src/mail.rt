//! Lanes of frames, as the device and its back ends meet them.
ghost use Rattle.std.specs.Prelude.{◌≡◌, length};

use std::alloc::{AllocError, Global};
use std::test::Fail;
use vi_bytes::{Need, Span};
use vi_iotlb::{Frame, decode};
use vi_mail::{Full, Lane, Mail};

const INVALIDATE: Frame = Frame::Invalidate {
    span: Span {
        first: 0,
        last: u64::MAX,
    },
};

const MISS: Frame = Frame::Miss {
    iova: 0x1000,
    len: 4,
    need: Need::Write,
};

fn sent(mail: &mut Mail) -> [Result<(), Full>; 3]
    requires { length mail.old.rows ≡ 2 }
    ensures { length mail.new.rows ≡ 2 }
{
    [
        mail.send(1, Lane::MainDown, &INVALIDATE),
        mail.send(1, Lane::MainDown, &Frame::Ack),
        mail.send(1, Lane::MainDown, &Frame::Ack),
    ]
}

// What back end 0 takes, and then what the other does.
fn taken(mail: &mut Mail) -> [Option<Frame>; 4]
    requires { length mail.old.rows ≡ 2 }
{
    [
        mail.take(0, Lane::MainDown),
        mail.take(1, Lane::MainDown),
        mail.take(1, Lane::MainDown),
        mail.take(1, Lane::MainDown),
    ]
}

#[test]
fn lanes_are_first_in_first_out(rt: HostRuntime) -> Result<(), Fail> {
    let mut mail = Mail::build(rt.alloc(), 2, 1)?;
    assert_eq!(rt; mail.oldest(1, Lane::MainDown).len(), 0);
    let answers = [Ok(()), Ok(()), Err(Full)];
    assert_eq!(rt; sent(&mut mail), answers, "slots and one");
    assert_eq!(rt; decode(mail.oldest(1, Lane::MainDown)), Ok(INVALIDATE));
    let frames = [None, Some(INVALIDATE), Some(Frame::Ack), None];
    assert_eq!(rt; taken(&mut mail), frames, "each back end has its own");
    Ok(())
}

// One frame after the other is sent where one is the least bound.
fn sent_twice(alloc: Global, lane: Lane) -> Result<[Result<(), Full>; 2], AllocError> {
    let mut mail = Mail::build(alloc, 1, 1)?;
    Ok([mail.send(0, lane, &MISS), mail.send(0, lane, &MISS)])
}

#[test]
fn each_lane_has_its_bound(rt: HostRuntime) -> Result<(), Fail> {
    let rows = [
        (Lane::MainDown, Ok(())),
        (Lane::MainUp, Err(Full)),
        (Lane::BackDown, Err(Full)),
        (Lane::BackUp, Err(Full)),
    ];
    for (lane, second) in rows {
        let answers = sent_twice(rt.alloc(), lane)?;
        assert_eq!(rt; answers, [Ok(()), second], "on {lane:?}");
    }
    Ok(())
}

#[test]
fn full_says_why(rt: HostRuntime) -> Result<(), Fail> {
    let text = format!(in rt.alloc(); "{Full}")?;
    assert_eq!(rt; text.as_str(), "the lane has as many frames as it may");
    Ok(())
}
