//! Logs that keep their entries, and the history that they come to.
ghost use Rattle.std.specs.Prelude.{IfOk};
ghost use Rattle.vi_log.specs.Logs.{AreTicketed};

use std::alloc::{AllocError, Global};
use std::test::Fail;
use vi_history::{Caller, Kind, Mark};
use vi_log::{Log, merge};

#[test]
fn keeps_its_entries(rt: HostRuntime) -> Result<(), Fail> {
    let mark = Mark {
        caller: Caller::Back(7),
        line: 1,
        part: 2,
        kind: Kind::Read,
        code: 0,
    };
    let mut log = Log::with_room(rt.alloc(), 2, 3)?;
    assert!(rt; log.is_empty());
    log.push(4, mark, b"");
    log.push(9, Mark { part: 3, ..mark }, b"abc");
    assert_eq!(rt; log.len(), 2);
    let (ticket, entry) = log.get(rt.alloc(), 1)?;
    assert_eq!(rt; ticket, 9);
    assert_eq!(rt; entry.mark.part, 3);
    assert_eq!(rt; entry.bytes.as_slice(), b"abc".as_slice());
    Ok(())
}

// Two logs: the tickets 0 and 2 are in the first, and 1 in the second.
fn two_logs(alloc: Global) -> Result<[Log; 2], AllocError>
    ensures { IfOk result (λ logs. AreTicketed 3 logs) }
{
    let mark = Mark {
        caller: Caller::Driver(1),
        line: 1,
        part: 0,
        kind: Kind::Status,
        code: 0,
    };
    let mut first = Log::with_room(alloc, 2, 2)?;
    first.push(0, mark, b"a");
    first.push(2, mark, b"c");
    let mut second = Log::with_room(alloc, 1, 1)?;
    second.push(1, Mark { line: 2, ..mark }, b"b");
    Ok([first, second])
}

#[test]
fn merges_by_ticket(rt: HostRuntime) -> Result<(), Fail> {
    let logs = two_logs(rt.alloc())?;
    let history = merge(rt.alloc(), &logs)?;
    assert_eq!(rt; history.len(), 3);
    assert_eq!(rt; history[0].bytes.as_slice(), b"a".as_slice());
    assert_eq!(rt; history[1].bytes.as_slice(), b"b".as_slice());
    assert_eq!(rt; history[1].mark.line, 2);
    assert_eq!(rt; history[2].bytes.as_slice(), b"c".as_slice());
    Ok(())
}

#[test]
fn no_logs_have_no_history(rt: HostRuntime) -> Result<(), Fail> {
    let logs: [Log; 0] = [];
    assert!(rt; merge(rt.alloc(), &logs)?.is_empty());
    Ok(())
}
