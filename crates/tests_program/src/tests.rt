//! What no clause says: calls with ample memory, faults in mid-stream, and the adapters.
ghost use Rattle.std.specs.Prelude.{◌≤◌};
ghost use Rattle.vi_lines.specs.Valid.{IsValid};

use crate::cases::{CHECK, NETWORK, ONE};
use crate::sim_cases::{ALWAYS, SAME, SCHEDULES, SIM};
use std::alloc::{AllocError, Global};
use std::io::{self, Read, Write};
use std::test::Fail;
use vi_bytes::{Bytes, Items};
use vi_commands::{
    INPUT_LIMIT, InputFault, ListSink, ListSource, Reading, Status, Writing, one_thread, plain_top,
    read_input, write_text,
};
use vi_lines::Script;
use vi_make::{make, summary};
use vi_script::{BadKind, parse};
use vi_words::number;

/// The words of a command line that is split at spaces.
pub(crate) fn split(alloc: Global, line: &str) -> Result<Vec<String>, Fail> {
    let mut words = Vec::new(alloc);
    for word in line.split(' ') {
        words.push(String::from_str(alloc, word)?)?;
    }
    Ok(words)
}

/// A driver maps a page, and a back end writes and reads through it.
pub(crate) const FIRST: &[u8] = b"memory 1
endpoint 7
d0 attach 1 7
d0 map 1 0x1000 0x1fff 0x0 rw
b7 write 0x1000 61626364 after d0.2
b7 read 0x1000 4
";

pub(crate) const FIRST_REPORT: &[u8] = b"viommu history 4
1 d0.1 status 0
2 d0.2 status 0
3 b7.1.1 wrote
4 b7.2.1 read 61626364
faults 0 shown 0 dropped 0
end
";

const EMPTY_REPORT: &[u8] = b"viommu history 0
faults 0 shown 0 dropped 0
end
";

/// A source of these bytes, and a sink with so much room, both with at most 16 bytes a call.
pub(crate) fn outside(
    alloc: Global,
    input: &[u8],
    read_fails: &[u32],
    room: u32,
    write_fails: &[u32],
) -> Result<(ListSource, ListSink), Fail> {
    let source = ListSource::new(Bytes::of(alloc, input)?, 16, Items::of(alloc, read_fails)?);
    let sink = ListSink::with_room(alloc, room, 16, Items::of(alloc, write_fails)?)?;
    Ok((source, sink))
}

/// The status of a call of the program without threads with these words.
fn called(alloc: Global, words: &[String], source: &mut ListSource, sink: &mut ListSink) -> Status {
    plain_top(alloc, words, source, sink)
}

/// What a call comes to: the status, and what the sink took.
pub(crate) fn ran(
    alloc: Global,
    line: &str,
    input: &[u8],
    read_fails: &[u32],
    room: u32,
    write_fails: &[u32],
) -> Result<(Status, Vec<u8>), Fail> {
    let words = split(alloc, line)?;
    let (mut source, mut sink) = outside(alloc, input, read_fails, room, write_fails)?;
    let status = called(alloc, &words, &mut source, &mut sink);
    Ok((status, Vec::from_slice(alloc, sink.taken())?))
}

fn refused(line: u32, kind: BadKind) -> Status {
    Status::BadScript { line, kind }
}

#[test]
fn reports_and_refusals(rt: HostRuntime) -> Result<(), Fail> {
    let alloc = rt.alloc();
    let cases = [
        // words, input, status, what the sink took
        ("sim 0 0", FIRST, Status::Ok, FIRST_REPORT),
        ("sim 0x0 00", b"", Status::Ok, EMPTY_REPORT),
        (
            "sim 0 0",
            b"endpoint",
            refused(1, BadKind::Word),
            b"bad script line 1: word\n",
        ),
        (
            "sim 18446744073709551615 1000000",
            b"memory 1\nqueue 17",
            refused(2, BadKind::Limit),
            b"bad script line 2: limit\n",
        ),
        ("sim 7 20", FIRST, Status::Ok, FIRST_REPORT),
        ("one", FIRST, Status::Ok, FIRST_REPORT),
        (
            "one",
            b"memory 1\nqueue 17",
            refused(2, BadKind::Limit),
            b"bad script line 2: limit\n",
        ),
    ];
    for (line, input, want, text) in cases {
        let (status, taken) = ran(alloc, line, input, &[], 999, &[])?;
        assert_eq!(rt; status, want, "{line}");
        assert_eq!(rt; taken.as_slice(), text, "{line}");
    }
    Ok(())
}

#[test]
fn other_words_are_no_form(rt: HostRuntime) -> Result<(), Fail> {
    let alloc = rt.alloc();
    let usage =
        b"usage: viommu run W | sim S T | one | check | make N | load N W | dirty K W | trace\n".as_slice();
    let lines = [
        "one two",
        "sim",
        "sim 1",
        "sim 0 1000001",
        "sim 18446744073709551616 0",
        "sim 0 0 0",
        "trace 1",
    ];
    for line in lines {
        let (status, taken) = ran(alloc, line, FIRST, &[], 999, &[])?;
        assert_eq!(rt; status, Status::Usage, "{line}");
        assert_eq!(rt; taken.as_slice(), usage, "{line}");
    }
    Ok(())
}

/// The bytes without their last LF.
pub(crate) fn trimmed(bytes: &[u8]) -> &[u8] {
    match bytes.strip_suffix(b"\n") {
        Some(front) => front,
        None => bytes,
    }
}

/// The script of a case, behind its name.
pub(crate) fn script_of(head: &str) -> &str {
    match head.split_once('\n') {
        Some((_name, script)) => script,
        None => "",
    }
}

/// Whether the command writes the text of the case for its input.
fn is_written(alloc: Global, command: &str, case: &str) -> Result<bool, Fail> {
    let Some((head, text)) = case.split_once("writes\n") else {
        return Ok(false);
    };
    let (_, taken) = ran(alloc, command, script_of(head).as_bytes(), &[], 9999, &[])?;
    Ok(trimmed(taken.as_slice()) == trimmed(text.as_bytes()))
}

#[test]
fn one_replies_as_the_standard_says(rt: HostRuntime) -> Result<(), Fail> {
    for case in ONE.split("\ncase ") {
        assert!(rt; is_written(rt.alloc(), "one", case)?, "{case}");
    }
    Ok(())
}

#[test]
fn sim_goes_by_the_schedule_of_the_script(rt: HostRuntime) -> Result<(), Fail> {
    for case in SIM.split("\ncase ") {
        assert!(rt; is_written(rt.alloc(), "sim 0 0", case)?, "{case}");
    }
    Ok(())
}

/// Whether the case has one of these names.
pub(crate) fn is_named(case: &str, names: &[&str]) -> bool {
    match case.split_once('\n') {
        Some((head, _script)) => {
            let name = head.strip_prefix("case ").unwrap_or(head);
            names.iter().any(|n| *n == name)
        }
        None => false,
    }
}

/// Whether there is a case of this name.
fn is_case(name: &str) -> bool {
    ONE.split("\ncase ").any(|case| is_named(case, &[name]))
}

// So that a misspelt name isn't passed over.
#[test]
fn every_picked_case_is_there(rt: HostRuntime) -> Result<(), Fail> {
    for name in SAME {
        assert!(rt; is_case(name), "{name}");
    }
    for name in ALWAYS {
        assert!(rt; is_case(name), "{name}");
    }
    assert!(rt; is_case("nothing"));
    Ok(())
}

#[test]
fn sim_replies_as_one_where_nothing_waits(rt: HostRuntime) -> Result<(), Fail> {
    for case in ONE.split("\ncase ") {
        if is_named(case, &SAME) {
            assert!(rt; is_written(rt.alloc(), "sim 0 0", case)?, "{case}");
        }
    }
    Ok(())
}

// Ten generators, without drawn turns and with 500.
#[test]
fn sim_replies_as_one_under_every_schedule(rt: HostRuntime) -> Result<(), Fail> {
    for case in ONE.split("\ncase ") {
        if is_named(case, &ALWAYS) {
            for words in SCHEDULES.split('\n') {
                assert!(rt; is_written(rt.alloc(), words, case)?, "{words}: {case}");
            }
        }
    }
    Ok(())
}

#[test]
fn sim_ends_on_a_load_script(rt: HostRuntime) -> Result<(), Fail> {
    let alloc = rt.alloc();
    let (_, script) = ran(alloc, "make 20", b"", &[], 99999, &[])?;
    let (status, _report) = ran(alloc, "sim 7 1000", script.as_slice(), &[], 99999, &[])?;
    assert_eq!(rt; status, Status::Ok);
    Ok(())
}

/// The status that goes with a text of `check`.
fn verdict_number(text: &str) -> u8 {
    if text.starts_with("legal") {
        0
    } else if text.starts_with("bad script") {
        3
    } else if text.starts_with("bad report") {
        10
    } else {
        7
    }
}

/// Whether `check` writes the text of the case and ends with its status.
fn is_judged(alloc: Global, case: &str) -> Result<bool, Fail> {
    let Some((head, text)) = case.split_once("writes\n") else {
        return Ok(false);
    };
    let (status, taken) = ran(alloc, "check", script_of(head).as_bytes(), &[], 9999, &[])?;
    let same = trimmed(taken.as_slice()) == trimmed(text.as_bytes());
    Ok(same && status.number() == verdict_number(text))
}

#[test]
fn check_gives_its_verdicts(rt: HostRuntime) -> Result<(), Fail> {
    for case in CHECK.split("\ncase ") {
        assert!(rt; is_judged(rt.alloc(), case)?, "{case}");
    }
    Ok(())
}

/// What `check` writes for the report that `one` writes for the script.
fn judged(alloc: Global, script: &[u8]) -> Result<Vec<u8>, Fail> {
    let (_, report) = ran(alloc, "one", script, &[], 9999, &[])?;
    let mut input = Vec::from_slice(alloc, script)?;
    input.extend_from_slice(b"report\n")?;
    input.extend_from_slice(report.as_slice())?;
    let (_, verdict) = ran(alloc, "check", input.as_slice(), &[], 99, &[])?;
    Ok(verdict)
}

#[test]
fn replies_of_one_are_legal(rt: HostRuntime) -> Result<(), Fail> {
    let alloc = rt.alloc();
    let legal = b"legal\n".as_slice();
    assert_eq!(rt; judged(alloc, NETWORK.as_bytes())?.as_slice(), legal);
    let (status, script) = ran(alloc, "make 1", b"", &[], 9999, &[])?;
    assert_eq!(rt; status, Status::Ok);
    assert_eq!(rt; judged(alloc, script.as_slice())?.as_slice(), legal);
    Ok(())
}

/// The summary of the replies to a script, after so many rounds.
fn summed_of(alloc: Global, rounds: u32, script: &Script) -> Result<Bytes, AllocError>
    requires { IsValid script.now }
{
    summary(alloc, rounds, &one_thread(alloc, script)?)
}

/// The summary of the replies to the load script of so many rounds.
fn summed(alloc: Global, rounds: u32) -> Result<Bytes, Fail>
    requires some { 1 ≤ rounds }
    requires most { rounds ≤ 400 }
{
    let text = make(alloc, rounds)?;
    let script = parse(
        alloc,
        &text.as_slice()[..text.len().min(INPUT_LIMIT as usize)],
    )?;
    Ok(summed_of(alloc, rounds, &script)?)
}

#[test]
fn load_scripts_have_their_sums(rt: HostRuntime) -> Result<(), Fail> {
    let alloc = rt.alloc();
    assert_eq!(rt;
        summed(alloc, 1)?.as_slice(),
        b"load 1 entries 24 ok 12 faults 4 sum 6\n".as_slice()
    );
    assert_eq!(rt;
        summed(alloc, 100)?.as_slice(),
        b"load 100 entries 2004 ok 804 faults 400 sum 43080\n".as_slice()
    );
    Ok(())
}

#[test]
fn too_long_input_is_refused(rt: HostRuntime) -> Result<(), Fail> {
    let alloc = rt.alloc();
    let input = vec![in alloc; b'#'; 1048577]?;
    for words in ["one", "trace"] {
        let (status, taken) = ran(alloc, words, &input, &[], 999, &[])?;
        assert_eq!(rt; status, Status::TooLong, "{words}");
        assert_eq!(rt; taken.as_slice(), b"input too long\n".as_slice(), "{words}");
    }
    Ok(())
}

// The script has 117 bytes and the report 118: 8 pieces of 16 bytes each, and one read more finds the end.
#[test]
fn every_read_and_write_fails_once(rt: HostRuntime) -> Result<(), Fail> {
    let alloc = rt.alloc();
    for k in 1..11u32 {
        let (status, taken) = ran(alloc, "sim 0 0", FIRST, &[k], 999, &[])?;
        let want = if k < 10 {
            Status::ReadFault
        } else {
            Status::Ok
        };
        assert_eq!(rt; status, want, "read {k}");
        let text = if k < 10 { b"".as_slice() } else { FIRST_REPORT };
        assert_eq!(rt; taken.as_slice(), text, "read {k}");
    }
    for k in 1..10u32 {
        let (status, taken) = ran(alloc, "sim 0 0", FIRST, &[], 999, &[k])?;
        let want = if k < 9 {
            Status::WriteFault
        } else {
            Status::Ok
        };
        assert_eq!(rt; status, want, "write {k}");
        let len = FIRST_REPORT.len().min(16 * (k as usize - 1));
        assert_eq!(rt; taken.as_slice(), &FIRST_REPORT[..len], "write {k}");
    }
    Ok(())
}

#[test]
fn numbers_in_words(rt: HostRuntime) {
    let cases = [
        ("0", Some(0)),
        ("007", Some(7)),
        ("18446744073709551615", Some(u64::MAX)),
        ("18446744073709551616", None),
        ("0x0", Some(0)),
        ("0x1fF", Some(511)),
        ("0xffffffffffffffff", Some(u64::MAX)),
        ("0x10000000000000000", None),
        ("", None),
        ("0x", None),
        ("0X1", None),
        ("1f", None),
        ("+1", None),
        ("1 ", None),
    ];
    for (word, want) in cases {
        assert_eq!(rt; number(word.as_bytes()), want, "at {word:?}");
    }
}

#[test]
fn status_numbers_and_texts(rt: HostRuntime) -> Result<(), Fail> {
    let refused = Status::BadScript {
        line: 10000,
        kind: BadKind::Limit,
    };
    let cases = [
        (Status::Ok, 0, b"".as_slice()),
        (
            Status::Usage,
            2,
            b"usage: viommu run W | sim S T | one | check | make N | load N W | dirty K W | trace\n",
        ),
        (refused, 3, b"bad script line 10000: limit\n"),
        (Status::TooLong, 4, b"input too long\n"),
        (Status::ReadFault, 5, b""),
        (Status::WriteFault, 6, b""),
        (Status::Wrong, 7, b""),
        (Status::OutOfMemory, 8, b""),
        (Status::BadReport { line: 12 }, 10, b"bad report line 12\n"),
        (Status::BadTrace { line: 12 }, 14, b"bad trace line 12\n"),
    ];
    for (status, number, text) in cases {
        assert_eq!(rt; status.number(), number);
        assert_eq!(rt; status.text(rt.alloc())?.as_slice(), text);
    }
    Ok(())
}

/// A stream that fails at every call.
#[derive(Drop)]
struct Broken;

impl Read for Broken {
    fn read(&mut self, _buf: &mut [u8]) -> io::Result<usize> {
        Err(io::Error::from(io::ErrorKind::Other))
    }
}

impl Write for Broken {
    fn write(&mut self, _buf: &[u8]) -> io::Result<usize> {
        Err(io::Error::from(io::ErrorKind::Other))
    }

    fn flush(&mut self) -> io::Result<()> {
        Ok(())
    }
}

/// A writer that takes nothing, and doesn't say that it failed.
#[derive(Drop)]
struct Stuck;

impl Write for Stuck {
    fn write(&mut self, _buf: &[u8]) -> io::Result<usize> {
        Ok(0)
    }

    fn flush(&mut self) -> io::Result<()> {
        Ok(())
    }
}

#[test]
fn readers_and_writers(rt: HostRuntime) -> Result<(), Fail> {
    let alloc = rt.alloc();
    let mut source = Reading::new(b"some bytes".as_slice());
    assert_eq!(rt;
        read_input(alloc, &mut source, 10)?.as_slice(),
        b"some bytes".as_slice()
    );
    let fault = read_input(alloc, &mut Reading::new(Broken), 10).err();
    assert!(rt; matches!(fault, Some(InputFault::ReadFault)));

    let mut out = Vec::new(alloc);
    write_text(&mut Writing::new(&mut out), b"some text")?;
    assert_eq!(rt; out.as_slice(), b"some text".as_slice());
    assert!(rt; write_text(&mut Writing::new(Broken), b"some text").is_err());
    assert!(rt; write_text(&mut Writing::new(Stuck), b"some text").is_err());
    assert!(rt; write_text(&mut Writing::new(Stuck), b"").is_ok());
    Ok(())
}
