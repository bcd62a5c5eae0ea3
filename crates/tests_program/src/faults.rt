//! Each read and each write of a call fails in turn, for every kind of command. A source hands out 16 bytes a call, and one call
//! more finds its end; a sink takes 16 bytes a call.
use crate::run_tests::ended_with;
use crate::tests::{FIRST, FIRST_REPORT, ran};
use std::alloc::Global;
use std::sync::Wait;
use std::test::Fail;
use std::thread::Threads;
use vi_commands::Status;
use vi_run::Free;
use vi_script::BadKind;

/// How a call ends, and what the sink took.
#[derive(Drop)]
struct End {
    status: Status,
    taken: Vec<u8>,
}

/// How `plain_top` ends where these reads and writes fail.
fn plain(
    alloc: Global,
    words: &str,
    input: &[u8],
    reads: &[u32],
    writes: &[u32],
) -> Result<End, Fail> {
    let (status, taken) = ran(alloc, words, input, reads, 9999, writes)?;
    Ok(End { status, taken })
}

/// How `top` ends where these reads and writes fail.
fn threaded<R: Threads + Wait + Sync>(
    rt: &R,
    alloc: Global,
    words: &str,
    input: &[u8],
    reads: &[u32],
    writes: &[u32],
) -> Result<End, Fail> {
    let (status, taken) = ended_with(rt, alloc, words, input, &Free, reads, writes)?;
    Ok(End { status, taken })
}

/// A failing read: nothing was written.
fn is_read_fault(end: &End) -> bool {
    matches!(end.status, Status::ReadFault) && end.taken.is_empty()
}

/// A failing write: a proper prefix of the text was written.
fn is_write_fault(end: &End, text: &[u8]) -> bool {
    matches!(end.status, Status::WriteFault)
        && end.taken.len() < text.len()
        && text.starts_with(end.taken.as_slice())
}

/// Nothing failed: the text was written.
fn is_whole(end: &End, text: &[u8]) -> bool {
    matches!(end.status, Status::Ok) && end.taken.as_slice() == text
}

/// The script, and the report that is judged.
fn judged(alloc: Global) -> Result<Vec<u8>, Fail> {
    let mut input = Vec::from_slice(alloc, FIRST)?;
    input.extend_from_slice(b"report\n")?;
    input.extend_from_slice(FIRST_REPORT)?;
    Ok(input)
}

/// Whether each read before the given one fails the call, each write before the given one too, and these two don't come.
fn fails_everywhere(
    alloc: Global,
    words: &str,
    input: &[u8],
    no_read: u32,
    no_write: u32,
) -> Result<bool, Fail> {
    let text = plain(alloc, words, input, &[], &[])?.taken;
    for k in 1..no_read {
        if !is_read_fault(&plain(alloc, words, input, &[k], &[])?) {
            return Ok(false);
        }
    }
    for k in 1..no_write {
        if !is_write_fault(&plain(alloc, words, input, &[], &[k])?, text.as_slice()) {
            return Ok(false);
        }
    }
    let last = plain(alloc, words, input, &[no_read], &[no_write])?;
    Ok(is_whole(&last, text.as_slice()))
}

#[test]
fn each_read_and_write_of_a_command_fails_once(rt: HostRuntime) -> Result<(), Fail> {
    let alloc = rt.alloc();
    let report = judged(alloc)?;
    // the words, the input, the first read and the first write that don't come
    let cases = [
        ("one", FIRST, 10, 9),
        ("sim 7 20", FIRST, 10, 9),
        ("check", report.as_slice(), 18, 2),
        ("make 1", b"", 1, 48),
    ];
    for (words, input, no_read, no_write) in cases {
        assert!(rt;
            fails_everywhere(alloc, words, input, no_read, no_write)?,
            "{words}"
        );
    }
    Ok(())
}

/// The same of a command that runs threads.
fn fails_everywhere_on_threads<R: Threads + Wait + Sync>(
    rt: &R,
    alloc: Global,
    words: &str,
    no_read: u32,
    no_write: u32,
) -> Result<bool, Fail> {
    let text = threaded(rt, alloc, words, FIRST, &[], &[])?.taken;
    for k in 1..no_read {
        if !is_read_fault(&threaded(rt, alloc, words, FIRST, &[k], &[])?) {
            return Ok(false);
        }
    }
    for k in 1..no_write {
        if !is_write_fault(
            &threaded(rt, alloc, words, FIRST, &[], &[k])?,
            text.as_slice(),
        ) {
            return Ok(false);
        }
    }
    let last = threaded(rt, alloc, words, FIRST, &[no_read], &[no_write])?;
    Ok(is_whole(&last, text.as_slice()))
}

#[test]
fn each_read_and_write_of_a_run_fails_once(rt: HostRuntime) -> Result<(), Fail> {
    let alloc = rt.alloc();
    assert!(rt; fails_everywhere_on_threads(&rt, alloc, "run 2", 10, 9)?);
    assert!(rt; fails_everywhere_on_threads(&rt, alloc, "load 1 1", 1, 4)?);
    Ok(())
}

// The source ends in the midst of the third line.
#[test]
fn a_cut_script_is_refused(rt: HostRuntime) -> Result<(), Fail> {
    let (status, taken) = ran(rt.alloc(), "one", &FIRST[..26], &[], 99, &[])?;
    let refused = Status::BadScript {
        line: 3,
        kind: BadKind::Word,
    };
    assert_eq!(rt; status, refused);
    assert_eq!(rt; taken.as_slice(), b"bad script line 3: word\n".as_slice());
    Ok(())
}
