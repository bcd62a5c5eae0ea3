//! Traces: what is read, and what they are found to be.
use std::alloc::Global;
use std::test::Fail;
use vi_bytes::Bytes;
use vi_trace::{judge, parse};

// Updates of page 1 that permit both, and reading; of page 2; and of the last page.
const UPDATE: &str =
    "down 1600000001000000200000000010000000000000001000000000000000000000007f00000302000000000000";

const READ_ONLY: &str =
    "down 1600000001000000200000000010000000000000001000000000000000000000007f00000102000000000000";

const SECOND: &str =
    "down 1600000001000000200000000020000000000000001000000000000000000000007f00000302000000000000";

const LAST: &str =
    "down 16000000010000002000000000f0ffffffffffff001000000000000000000000007f00000302000000000000";

// Invalidates of page 1, of page 2, and of all addresses.
const INVALIDATE: &str =
    "down 1600000009000000200000000010000000000000001000000000000000000000000000000003000000000000";

const INVALIDATE_SECOND: &str =
    "down 1600000009000000200000000020000000000000001000000000000000000000000000000003000000000000";

const INVALIDATE_ALL: &str =
    "down 1600000009000000200000000000000000000000000000000000000000000000000000000003000000000000";

const ACK: &str = "up 1600000005000000080000000000000000000000";

// Each row is the lines of a trace, with words for the frames above, and what is said of it.
const CASES: &str = "U,use 0x1000 w,I,use 0x1000 r,A=held
U,use 0x1000 w,I,use 0x1000 r,A,use 0x1000 r=breaks 6 use
U,use 0x1000 w,I,U,use 0x1000 r,A=breaks 4 update
U,use 0x1000 w,I,use 0x1000 r,A,A=breaks 6 ack
down 00=breaks 1 frame
sideways 00=bad trace line 1
# a page,,U,   use   4096 w=held
R,use 0x1fff r,use 4096 w=breaks 3 use
U,R,use 0x1000 w=breaks 3 use
down 0100000005000000080000000100000000000000=breaks 1 frame
up 00=breaks 1 frame
I,S,use 0x2000 r,A,use 0x2000 w=held
U,S,X,A,use 0x2000 r=breaks 5 use
S,I,J,A,use 0x2000 r,A,use 0x2000 r=breaks 7 use
U,I,A,U,use 0x1000 r=held
use 0x1000 rw=bad trace line 1
use 18446744073709551616 r=bad trace line 1
down 000=bad trace line 1
down 00,sideways=bad trace line 2
#,down 00=breaks 2 frame
L,use 0xffffffffffffffff w=held";

#[test]
fn traces(rt: HostRuntime) -> Result<(), Fail> {
    for case in CASES.split('\n') {
        let (short, want) = case.split_once('=').ok_or("a case has a finding")?;
        let text = written(rt.alloc(), short)?;
        let said = found(rt.alloc(), text.as_bytes())?;
        assert_eq!(rt;
            said.as_slice(),
            format!(in rt.alloc(); "{want}\n")?.as_bytes(),
            "{case}"
        );
    }
    Ok(())
}

#[test]
fn nothing_holds(rt: HostRuntime) -> Result<(), Fail> {
    let said = found(rt.alloc(), b"")?;
    assert_eq!(rt; said.as_slice(), b"held\n".as_slice());
    Ok(())
}

// The lines with their frames in the place of the words for them.
fn written(alloc: Global, short: &str) -> Result<String, Fail> {
    let mut text = String::new(alloc);
    for line in short.split(',') {
        text.push_str(frame_of(line))?;
        text.push_str("\n")?;
    }
    Ok(text)
}

fn frame_of(line: &str) -> &str {
    match line {
        "U" => UPDATE,
        "R" => READ_ONLY,
        "S" => SECOND,
        "L" => LAST,
        "I" => INVALIDATE,
        "J" => INVALIDATE_SECOND,
        "X" => INVALIDATE_ALL,
        "A" => ACK,
        _ => line,
    }
}

// What the text is found to be, or why it is no trace.
fn found(alloc: Global, text: &[u8]) -> Result<Bytes, Fail> {
    if text.len() > 65536 {
        return Err("a case is short".into());
    }
    match parse(alloc, text) {
        Ok(trace) => Ok(judge(alloc, &trace)?.text(alloc)?),
        Err(fault) => {
            let said = format!(in alloc; "{fault}\n")?;
            Ok(Bytes::from_vec(said.into_bytes()))
        }
    }
}
