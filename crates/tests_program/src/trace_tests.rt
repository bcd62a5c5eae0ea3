//! `trace`: what is written for recorded messages, and with which status.
use crate::tests::{ran, trimmed};
use std::alloc::Global;
use std::test::Fail;
use vi_commands::Status;
use vi_words::number;

// Updates of page 1 that permit both, and reading; of page 2; and of the last page.
const UPDATE: &str =
    "1600000001000000200000000010000000000000001000000000000000000000007f00000302000000000000";

const READ_ONLY: &str =
    "1600000001000000200000000010000000000000001000000000000000000000007f00000102000000000000";

const SECOND: &str =
    "1600000001000000200000000020000000000000001000000000000000000000007f00000302000000000000";

const LAST: &str =
    "16000000010000002000000000f0ffffffffffff001000000000000000000000007f00000302000000000000";

// Invalidates of page 1, of page 2, and of all addresses.
const INVALIDATE: &str =
    "1600000009000000200000000010000000000000001000000000000000000000000000000003000000000000";

const INVALIDATE_SECOND: &str =
    "1600000009000000200000000020000000000000001000000000000000000000000000000003000000000000";

const INVALIDATE_ALL: &str =
    "1600000009000000200000000000000000000000000000000000000000000000000000000003000000000000";

const ACK: &str = "1600000005000000080000000000000000000000";

// Each row is the lines of a trace, with a letter for a frame above, the status, and what is written.
const CASES: &str = "down U,use 0x1000 w,down I,use 0x1000 r,up A=0 held
down U,use 0x1000 w,down I,use 0x1000 r,up A,use 0x1000 r=7 breaks 6 use
down U,use 0x1000 w,down I,down U,use 0x1000 r,up A=7 breaks 4 update
down U,use 0x1000 w,down I,use 0x1000 r,up A,up A=7 breaks 6 ack
down 00=7 breaks 1 frame
sideways 00=14 bad trace line 1
=0 held
# a page,,down U,   use   4096 w=0 held
down R,use 0x1fff r,use 4096 w=7 breaks 3 use
down U,down R,use 0x1000 w=7 breaks 3 use
down 0100000005000000080000000100000000000000=7 breaks 1 frame
up U=7 breaks 1 frame
down I,down S,use 0x2000 r,up A,use 0x2000 w=0 held
down U,down S,down X,up A,use 0x2000 r=7 breaks 5 use
down S,down I,down J,up A,use 0x2000 r,up A,use 0x2000 r=7 breaks 7 use
down U,down I,up A,down U,use 0x1000 r=0 held
use 0x1000 rw=14 bad trace line 1
use 18446744073709551616 r=14 bad trace line 1
down 000=14 bad trace line 1
down 00,sideways=14 bad trace line 2
down L,use 0xffffffffffffffff w=0 held";

#[test]
fn traces_are_judged(rt: HostRuntime) -> Result<(), Fail> {
    for case in CASES.split('\n') {
        assert!(rt; is_answered(rt.alloc(), case)?, "{case}");
    }
    Ok(())
}

// A lost piece of a trace is a fault, and so is a text that isn't taken whole.
#[test]
fn traces_meet_faults(rt: HostRuntime) -> Result<(), Fail> {
    let text = written(rt.alloc(), "down U,use 0x1000 w,down I,up A")?;
    for k in [1u32, 2] {
        let (status, taken) = ran(rt.alloc(), "trace", text.as_bytes(), &[k], 99, &[])?;
        assert_eq!(rt; status, Status::ReadFault, "read {k}");
        assert!(rt; taken.is_empty(), "read {k}");
    }
    let (status, taken) = ran(rt.alloc(), "trace", text.as_bytes(), &[], 4, &[])?;
    assert_eq!(rt; status, Status::WriteFault);
    assert!(rt; taken.is_empty());
    Ok(())
}

/// Whether `trace` answers as the row says, with LF behind the last line and without.
fn is_answered(alloc: Global, case: &str) -> Result<bool, Fail> {
    let (short, wanted) = case.split_once('=').ok_or("a case has an answer")?;
    let (status, said) = wanted.split_once(' ').ok_or("an answer has a text")?;
    let text = written(alloc, short)?;
    Ok(
        answers(alloc, text.as_bytes(), status, said)?
            && answers(alloc, trimmed(text.as_bytes()), status, said)?,
    )
}

/// Whether `trace` ends with this status, and writes this line.
fn answers(alloc: Global, input: &[u8], wanted: &str, said: &str) -> Result<bool, Fail> {
    let (status, taken) = ran(alloc, "trace", input, &[], 99, &[])?;
    if number(wanted.as_bytes()) != Some(u64::from(status.number())) {
        return Ok(false);
    }
    match taken.as_slice().strip_suffix(b"\n") {
        Some(line) => Ok(line == said.as_bytes()),
        None => Ok(false),
    }
}

/// The lines with their frames in the place of letters.
fn written(alloc: Global, short: &str) -> Result<String, Fail> {
    let mut text = String::new(alloc);
    for line in short.split(',') {
        if let Some((way, letter)) = line.split_once(' ') {
            text.push_str(way)?;
            text.push_str(" ")?;
            text.push_str(frame_of(letter))?;
        } else {
            text.push_str(line)?;
        }
        text.push_str("\n")?;
    }
    Ok(text)
}

fn frame_of(letter: &str) -> &str {
    match letter {
        "U" => UPDATE,
        "R" => READ_ONLY,
        "S" => SECOND,
        "L" => LAST,
        "I" => INVALIDATE,
        "J" => INVALIDATE_SECOND,
        "X" => INVALIDATE_ALL,
        "A" => ACK,
        _ => letter,
    }
}
