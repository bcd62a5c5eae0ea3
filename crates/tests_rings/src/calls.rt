//! The open calls, as a driver and the device meet them.
ghost use Rattle.std.specs.Prelude.{◌≡◌};
ghost use Rattle.vi_calls.specs.Moves.{no_calls};

use std::process::Abort;
use std::test::Fail;
use vi_calls::{Calls, Collected, Reply, Setting};
use vi_history::status::INVAL;
use vi_history::{Reading, Request};

// A DETACH of endpoint 7 from domain 1.
const DETACH: [u8; 20] = [2, 0, 0, 0, 1, 0, 0, 0, 7, 0, 0, 0, 0, 0, 0, 0, 0, 0, 0, 0];

// Whether the queue is empty before and after.
fn two_submitted(rt: &impl Abort, calls: &mut Calls) -> [bool; 2]
    requires { calls.old ≡ no_calls }
{
    let before = calls.is_empty();
    assert!(rt; calls.take().is_none());
    calls.submit(3, 1, &DETACH, 4);
    calls.submit(5, 2, &[9], 4);
    [before, calls.is_empty()]
}

fn taken(calls: &mut Calls) -> Option<(u8, u32, Reading)> {
    let request = calls.take()?;
    Some((request.driver, request.line, request.reading))
}

#[test]
fn requests_are_taken_in_order(rt: HostRuntime) -> Result<(), Fail> {
    let mut calls = Calls::build(rt.alloc(), 16)?;
    assert_eq!(rt; two_submitted(&rt, &mut calls), [true, false]);
    let detach = Request::Detach {
        domain: 1,
        endpoint: 7,
    };
    let first = (3, 1, Reading::Asks(detach));
    let second = (5, 2, Reading::Silent);
    let requests = [taken(&mut calls), taken(&mut calls)];
    assert_eq!(rt; requests, [Some(first), Some(second)]);
    assert!(rt; calls.is_empty());
    Ok(())
}

// The drivers that stand first, and the setting as it is taken once and again.
type Settings = ([Option<u8>; 3], [Option<Setting>; 2]);

// Two settings are left, and that of the lower driver is taken and answered. With what is
// collected at once, and again, and a byte that it left.
fn answered_setting(calls: &mut Calls) -> (Settings, [Collected; 2], u8)
    requires { calls.old ≡ no_calls }
{
    let none = calls.setting();
    calls.leave(6, 4, true);
    calls.leave(2, 1, false);
    let lowest = calls.setting();
    let taken = calls.take_setting(2);
    let next = calls.setting();
    let again = calls.take_setting(2);
    calls.answer_setting(2, 1);
    let mut out = [9; 1024];
    let collected = [calls.collect(2, &mut out), calls.collect(2, &mut out)];
    (([none, lowest, next], [taken, again]), collected, out[0])
}

#[test]
fn a_setting_is_answered(rt: HostRuntime) -> Result<(), Fail> {
    let mut calls = Calls::build(rt.alloc(), 32)?;
    let drivers = [None, Some(2), Some(6)];
    let settings = [Some(Setting { line: 1, on: false }), None];
    let collected = [Collected::Set { line: 1 }, Collected::NotYet];
    assert_eq!(rt;
        answered_setting(&mut calls),
        ((drivers, settings), collected, 9)
    );
    Ok(())
}

fn posted(calls: &mut Calls) -> (u32, u32) {
    calls.post(7, 3);
    (calls.posted(7), calls.posted(6))
}

#[test]
fn drivers_post_how_far_they_are(rt: HostRuntime) -> Result<(), Fail> {
    let mut calls = Calls::build(rt.alloc(), 256)?;
    assert_eq!(rt; posted(&mut calls), (3, 0));
    let _ring = calls.queue();
    Ok(())
}

// What is collected at once, and again, with the first bytes of the answer.
fn answered(calls: &mut Calls) -> Option<([Collected; 2], [u8; 4])>
    requires { calls.old ≡ no_calls }
{
    calls.submit(3, 1, &DETACH, 4);
    let Some(request) = calls.take() else {
        return None;
    };
    calls.answer(request.head, &Reply::Status(INVAL));
    let mut out = [9; 1024];
    let first = calls.collect(3, &mut out);
    let again = calls.collect(3, &mut out);
    Some(([first, again], [out[0], out[1], out[3], out[4]]))
}

#[test]
fn a_request_is_answered(rt: HostRuntime) -> Result<(), Fail> {
    let mut calls = Calls::build(rt.alloc(), 16)?;
    let used = Collected::Used { line: 1, len: 4 };
    let answer = ([used, Collected::NotYet], [INVAL, 0, 0, 9]);
    assert_eq!(rt; answered(&mut calls), Some(answer));
    Ok(())
}
