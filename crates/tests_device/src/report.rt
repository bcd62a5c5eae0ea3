//! A report compared with its whole text, and reports read from texts.
ghost use Rattle.std.specs.Prelude.{IfOk};
ghost use Rattle.vi_history.specs.Outcomes.{IsWellMade};

use crate::entries::add;
use std::alloc::{AllocError, Global};
use std::test::Fail;
use vi_bytes::Items;
use vi_history::Caller::{Back, Driver};
use vi_history::Kind::{Fault, Nothing, Probed, Read, Set, Status, Wrote};
use vi_history::{Outcome, Shown};
use vi_report::{ReportFault, parse, parse_reads_reports, text, text_is_unambiguous};

// An answer of each kind, and a fault's record.
fn every_kind(alloc: Global) -> Result<Outcome, AllocError>
    ensures { IfOk result IsWellMade }
{
    let mut probed = [0u8; 512];
    probed[0] = 1;
    probed[2] = 0x14;
    probed[511] = 0xfe;
    let mut all = Vec::new(alloc);
    add(alloc, &mut all, Driver(0), 1, 0, Status, 0, b"")?;
    add(alloc, &mut all, Driver(7), u32::MAX, 0, Probed, 6, &probed)?;
    add(alloc, &mut all, Driver(3), 2, 0, Nothing, 0, b"")?;
    add(alloc, &mut all, Driver(1), 10, 0, Set, 0, b"")?;
    add(alloc, &mut all, Back(u32::MAX), 1, 1, Read, 0, b"\0abz\xff")?;
    add(alloc, &mut all, Back(0), 1, 17, Wrote, 0, b"")?;
    add(alloc, &mut all, Back(7), 2, 1, Fault, 2, b"")?;
    let shown = Shown {
        entry: 7,
        bytes: [
            2, 0, 0, 0, 2, 1, 0, 0, 7, 0, 0, 0, 0, 0, 0, 0, 4, 0x10, 0, 0, 0, 0, 0, 0,
        ],
    };
    Ok(Outcome {
        entries: Items::from_vec(all),
        shown: Items::from_vec(vec![in alloc; shown]?),
        dropped: u32::MAX,
    })
}

// No answers, and no records.
fn nothing(alloc: Global) -> Outcome
    ensures { IsWellMade result }
{
    Outcome {
        entries: Items::new(alloc),
        shown: Items::new(alloc),
        dropped: 0,
    }
}

#[test]
fn prints_every_kind_of_answer(rt: HostRuntime) -> Result<(), Fail> {
    let alloc = rt.alloc();
    let report = text(alloc, &every_kind(alloc)?)?;
    let want = format!(in alloc;
        "viommu history 7\n\
        1 d0.1 status 0\n\
        2 d7.4294967295 probed 6 010014{:01016}fe\n\
        3 d3.2 nothing\n\
        4 d1.10 set\n\
        5 b4294967295.1.1 read 0061627aff\n\
        6 b0.1.17 wrote\n\
        7 b7.2.1 fault 2\n\
        faults 4294967296 shown 1 dropped 4294967295\n\
        7 020000000201000007000000000000000410000000000000\n\
        end\n",
        0
    )?;
    assert_eq!(rt; report.as_slice(), want.as_bytes());
    let report = text(alloc, &nothing(alloc))?;
    let want = b"viommu history 0\nfaults 0 shown 0 dropped 0\nend\n";
    assert_eq!(rt; report.as_slice(), want.as_slice());
    text_is_unambiguous();
    Ok(())
}

#[test]
fn reads_what_it_prints(rt: HostRuntime) -> Result<(), Fail> {
    let alloc = rt.alloc();
    let report =
        b"viommu history 1\n1 b7.1.2 read 0aff\nfaults 3 shown 1 dropped 2\n1 0102030405060708090a0b0c0d0e0f101112131415161718\nend\n";
    let outcome = parse(alloc, report)?;
    assert_eq!(rt; outcome.dropped, 2);
    assert_eq!(rt; outcome.entries.len(), 1);
    assert_eq!(rt; text(alloc, &outcome)?.as_slice(), report.as_slice());
    parse_reads_reports();
    Ok(())
}

#[test]
fn names_the_line_that_does_not_fit(rt: HostRuntime) -> Result<(), Fail> {
    let alloc = rt.alloc();
    let fault = match parse(alloc, b"viommu history 1\n1 d0.1 Set\n") {
        Ok(_) => return Err("a report".into()),
        Err(fault) => fault,
    };
    assert_eq!(rt; fault, ReportFault::Bad { line: 2 });
    assert_eq!(rt; format!(in alloc; "{fault}")?.as_str(), "bad report line 2");
    let memory = ReportFault::OutOfMemory;
    assert_eq!(rt; format!(in alloc; "{memory}")?.as_str(), "out of memory");
    Ok(())
}
