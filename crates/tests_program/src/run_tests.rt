//! The commands that run threads, as a user meets them.
use crate::cases::{NETWORK, ONE};
use crate::sim_cases::ALWAYS;
use crate::tests::{is_named, outside, ran, script_of, split, trimmed};
use std::alloc::Global;
use std::sync::Wait;
use std::sync::atomic::{AtomicU64, Ordering};
use std::test::Fail;
use std::thread;
use std::thread::Threads;
use vi_commands::{ListSink, ListSource, Status};
use vi_lines::Who;
use vi_run::{Free, Gate, Point};
use vi_threaded::{Ended, top};

const USAGE: &[u8] =
    b"usage: viommu run W | sim S T | one | check | make N | load N W | dirty K W | trace\n";

/// The status of a call of the program that has ended. The run that it hands back is dropped here.
fn status_of(ended: Ended) -> Status {
    ended.status
}

/// The status of a call of the program with these words.
fn called<R: Threads + Wait + Sync, G: Gate + Sync>(
    rt: &R,
    alloc: Global,
    words: &[String],
    source: &mut ListSource,
    sink: &mut ListSink,
    gate: &G,
) -> Status {
    status_of(top(rt, alloc, words, source, sink, gate))
}

/// What a call of the program comes to, where these reads and writes fail: the status, and what the sink took.
pub(crate) fn ended_with<R: Threads + Wait + Sync, G: Gate + Sync>(
    rt: &R,
    alloc: Global,
    line: &str,
    input: &[u8],
    gate: &G,
    read_fails: &[u32],
    write_fails: &[u32],
) -> Result<(Status, Vec<u8>), Fail> {
    let words = split(alloc, line)?;
    let (mut source, mut sink) = outside(alloc, input, read_fails, 99999, write_fails)?;
    let status = called(rt, alloc, &words, &mut source, &mut sink, gate);
    Ok((status, Vec::from_slice(alloc, sink.taken())?))
}

/// What a call of the program comes to, where nothing fails.
fn ended<R: Threads + Wait + Sync, G: Gate + Sync>(
    rt: &R,
    alloc: Global,
    line: &str,
    input: &[u8],
    gate: &G,
) -> Result<(Status, Vec<u8>), Fail> {
    ended_with(rt, alloc, line, input, gate, &[], &[])
}

#[test]
fn runs_reply_as_one_where_all_else_waits(rt: HostRuntime) -> Result<(), Fail> {
    let alloc = rt.alloc();
    for case in ONE.split("\ncase ") {
        let Some((head, text)) = case.split_once("writes\n") else {
            continue;
        };
        if is_named(case, &ALWAYS) || is_named(case, &["nothing"]) {
            for words in ["run 1", "run 2", "run 4", "run 16"] {
                let (status, taken) = ended(&rt, alloc, words, script_of(head).as_bytes(), &Free)?;
                assert_eq!(rt; status, Status::Ok, "{words}: {case}");
                assert_eq!(rt;
                    trimmed(taken.as_slice()),
                    trimmed(text.as_bytes()),
                    "{words}: {case}"
                );
            }
        }
    }
    Ok(())
}

#[test]
fn a_run_is_legal(rt: HostRuntime) -> Result<(), Fail> {
    let alloc = rt.alloc();
    let (status, report) = ended(&rt, alloc, "run 4", NETWORK.as_bytes(), &Free)?;
    assert_eq!(rt; status, Status::Ok);
    let mut input = Vec::from_slice(alloc, NETWORK.as_bytes())?;
    input.extend_from_slice(b"report\n")?;
    input.extend_from_slice(report.as_slice())?;
    let (status, verdict) = ended(&rt, alloc, "check", input.as_slice(), &Free)?;
    assert_eq!(rt; status, Status::Ok);
    assert_eq!(rt; verdict.as_slice(), b"legal\n".as_slice());
    Ok(())
}

#[test]
fn loads_have_their_sums(rt: HostRuntime) -> Result<(), Fail> {
    let alloc = rt.alloc();
    let cases = [
        ("load 1 1", "load 1 entries 24 ok 12 faults 4 sum 6\n"),
        ("load 1 16", "load 1 entries 24 ok 12 faults 4 sum 6\n"),
        (
            "load 100 4",
            "load 100 entries 2004 ok 804 faults 400 sum 43080\n",
        ),
    ];
    for (words, text) in cases {
        let (status, taken) = ended(&rt, alloc, words, b"", &Free)?;
        assert_eq!(rt; status, Status::Ok, "{words}");
        assert_eq!(rt; taken.as_slice(), text.as_bytes(), "{words}");
    }
    Ok(())
}

#[test]
fn workers_and_rounds_have_bounds(rt: HostRuntime) -> Result<(), Fail> {
    let alloc = rt.alloc();
    for words in [
        "run",
        "run 0",
        "run 17",
        "run 1 1",
        "load 1",
        "load 0 1",
        "load 401 1",
        "load 1 0",
        "load 1 17",
    ] {
        let (status, taken) = ended(&rt, alloc, words, b"", &Free)?;
        assert_eq!(rt; status, Status::Usage, "{words}");
        assert_eq!(rt; taken.as_slice(), USAGE, "{words}");
    }
    for words in ["run 1", "load 1 1"] {
        let (status, _taken) = ran(alloc, words, b"", &[], 999, &[])?;
        assert_eq!(rt; status, Status::Usage, "{words} without threads");
    }
    Ok(())
}

#[test]
fn refused_scripts_are_not_run(rt: HostRuntime) -> Result<(), Fail> {
    let (status, taken) = ended(&rt, rt.alloc(), "run 2", b"memory 1\nendpoint", &Free)?;
    assert_eq!(rt; status.number(), 3);
    assert_eq!(rt; taken.as_slice(), b"bad script line 2: word\n".as_slice());
    Ok(())
}

#[test]
fn traces_make_no_run(rt: HostRuntime) -> Result<(), Fail> {
    let (status, taken) = ended(&rt, rt.alloc(), "trace", b"up 00\n", &Free)?;
    assert_eq!(rt; status, Status::Wrong);
    assert_eq!(rt; taken.as_slice(), b"breaks 1 frame\n".as_slice());
    Ok(())
}

/// Two back ends that hold a page each at one time have met.
#[derive(Drop)]
struct Meeting {
    first: AtomicU64,
    second: AtomicU64,
    met: AtomicU64,
}

impl Meeting {
    /// Stands there until the other one does too, or so many looks long. It yields between them, since the other one's worker may be
    /// on the same processor.
    fn stand(&self, own: &AtomicU64, other: &AtomicU64) {
        own.store(1, Ordering::SeqCst);
        for _look in 0..1_000u32 {
            if other.load(Ordering::SeqCst) == 1 {
                self.met.store(1, Ordering::SeqCst);
                break;
            }
            thread::yield_now();
        }
        own.store(0, Ordering::SeqCst);
    }
}

impl Gate for Meeting {
    fn pass(&self, who: Who, point: Point) {
        match (who, point) {
            (Who::Back(1), Point::PageHeld) => self.stand(&self.first, &self.second),
            (Who::Back(2), Point::PageHeld) => self.stand(&self.second, &self.first),
            _ => {}
        }
    }
}

// Bypass is on, there is no driver, and as many workers as actors: two back ends and the device.
#[test]
fn two_back_ends_hold_their_pages_at_one_time(rt: HostRuntime) -> Result<(), Fail> {
    let alloc = rt.alloc();
    let mut script = String::from_str(
        alloc,
        "memory 2\nbypass on\nevents off\nendpoint 1\nendpoint 2\n",
    )?;
    for _line in 0..200 {
        script.push_str("b1 read 0x0 1\nb2 read 0x1000 1\n")?;
    }
    let gate = Meeting {
        first: AtomicU64::new(0),
        second: AtomicU64::new(0),
        met: AtomicU64::new(0),
    };
    let (status, _report) = ended(&rt, alloc, "run 3", script.as_bytes(), &gate)?;
    assert_eq!(rt; status, Status::Ok);
    assert!(rt; gate.met.load(Ordering::SeqCst) == 1);
    Ok(())
}
