//! A control of a small script, before the device does anything.
ghost use Rattle.vi_lines.specs.Valid.{IsValid};

use crate::scripts::script_of;
use std::alloc::{AllocError, Global};
use std::test::Fail;
use vi_control::{Control, Work};
use vi_history::Caller;
use vi_lines::Script;

const SCRIPT: &[u8] =
    b"bypass on\nendpoint 7\nd0 attach 1 7\nd0 map 1 0x1000 0x1fff 0x0\nb7 read 0x1ffe 4";

/// How many bytes the device answered, the bypass field, how many records were delivered and how many dropped.
fn counts(control: &Control) -> (usize, u8, usize, u32) {
    let bypass = control.config()[36];
    let answered = control.answered().len();
    (answered, bypass, control.shown().len(), control.dropped())
}

/// Lends its queues and its mail.
fn lend(control: &Control) {
    let _ = control.event_queue();
    let _ = control.request_queue();
    let _ = control.mail();
}

/// What nobody has read of the records, and what the device would do next.
fn first_work(control: &mut Control) -> (Option<[u8; 24]>, Work) {
    let event = control.take_event();
    lend(control);
    (event, control.next())
}

/// A control before any turn: its counts, its oldest record, and its next work.
fn opening(
    alloc: Global,
    script: &Script,
) -> Result<((usize, u8, usize, u32), (Option<[u8; 24]>, Work)), AllocError>
    requires { IsValid script.now }
{
    let mut control = Control::build(alloc, script)?;
    Ok((counts(&control), first_work(&mut control)))
}

#[test]
fn a_control_is_built(rt: HostRuntime) -> Result<(), Fail> {
    let script = script_of(rt.alloc(), SCRIPT)?;
    let want = ((0, 1, 0, 0), (None, Work::Idle));
    assert_eq!(rt; opening(rt.alloc(), &script)?, want);
    Ok(())
}

/// The posted lines of the drivers 3 and 2, after five of driver 3 are posted.
fn posted(control: &mut Control) -> [u32; 2] {
    control.post(Caller::Driver(3), 5);
    let other = control.posted(Caller::Driver(2));
    [control.posted(Caller::Driver(3)), other]
}

/// The same of a control before any turn.
fn posted_first(alloc: Global, script: &Script) -> Result<[u32; 2], AllocError>
    requires { IsValid script.now }
{
    let mut control = Control::build(alloc, script)?;
    Ok(posted(&mut control))
}

#[test]
fn finished_lines_are_posted(rt: HostRuntime) -> Result<(), Fail> {
    let script = script_of(rt.alloc(), SCRIPT)?;
    assert_eq!(rt; posted_first(rt.alloc(), &script)?, [5, 0]);
    Ok(())
}
