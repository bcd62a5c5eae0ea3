//! Verdicts on the reports of small scripts.
ghost use Rattle.std.specs.Prelude.{◌≡◌, ◌<◌, All, IfOk, length, vec_len};
ghost use Rattle.vi_history.specs.Outcomes.{IsEntry, IsWellMade, NamesEntry};
ghost use Rattle.vi_lines.specs.Valid.{IsValid};

use crate::entries::add;
use std::alloc::{AllocError, Global};
use std::test::Fail;
use vi_bytes::{Bytes, Items};
use vi_check::check;
use vi_history::Caller::{Back, Driver};
use vi_history::Kind::{Fault, Read, Status, Wrote};
use vi_history::{Entry, Outcome, Shown};
use vi_lines::Script;
use vi_script::parse;

/// Two endpoints in one domain, whose mapping is removed once each has made an access.
const REMOVAL: &[u8] =
    b"memory 1\nendpoint 5\nendpoint 6\nd0 attach 1 5\nd0 attach 1 6\nd0 map 1 0x1000 0x1fff 0x0 rw\nb5 write 0x1000 01 after d0.3\nb6 read 0x1000 1 after d0.3\nd0 unmap 1 0x1000 0x1fff after b5.1 b6.1\nb5 read 0x1000 1 after b6.1\nb6 write 0x1000 02\n";

/// A request that is added before a refused one.
const ADDED: &[u8] =
    b"memory 1\nendpoint 5\nd0 attach 1 5\nd0 map 1 0x1000 0x1fff 0x0 rw\nb5 read 0x1000 1 after d0.2\nd0 add unmap 1 0x1000 0x1fff after b5.1\nd0 detach 9 5\n";

/// The same with nothing added.
const IN_TURN: &[u8] =
    b"memory 1\nendpoint 5\nd0 attach 1 5\nd0 map 1 0x1000 0x1fff 0x0 rw\nb5 read 0x1000 1 after d0.2\nd0 unmap 1 0x1000 0x1fff after b5.1\nd0 detach 9 5\n";

/// The record of a read of endpoint 5 at 0x1000 that isn't mapped, of the entry of this number.
fn record(entry: u32) -> Shown
    ensures { result.entry ≡ entry }
{
    let mut bytes = [0; 24];
    bytes[0] = 2;
    bytes[4] = 1;
    bytes[5] = 1;
    bytes[8] = 5;
    bytes[17] = 0x10;
    Shown { entry, bytes }
}

/// The first five entries of the removal.
fn before_removal(alloc: Global) -> Result<Vec<Entry>, AllocError>
    ensures made { IfOk result (λ entries. All IsEntry entries.items) }
    ensures count { IfOk result (λ entries. vec_len entries ≡ 5) }
{
    let mut all = Vec::new(alloc);
    add(alloc, &mut all, Driver(0), 1, 0, Status, 0, b"")?;
    add(alloc, &mut all, Driver(0), 2, 0, Status, 0, b"")?;
    add(alloc, &mut all, Driver(0), 3, 0, Status, 0, b"")?;
    add(alloc, &mut all, Back(5), 1, 1, Wrote, 0, b"")?;
    add(alloc, &mut all, Back(6), 1, 1, Read, 0, b"\x01")?;
    Ok(all)
}

/// A report of these entries and records.
fn report(
    alloc: Global,
    entries: Vec<Entry>,
    shown: &[Shown],
    dropped: u32,
) -> Result<Outcome, AllocError>
    requires few { vec_len entries < 100 }
    requires made { All IsEntry entries.items }
    requires few_shown { length shown.now < 100 }
    requires shown { All (NamesEntry (vec_len entries)) shown.now }
    ensures { IfOk result IsWellMade }
{
    Ok(Outcome {
        entries: Items::from_vec(entries),
        shown: Items::of(alloc, shown)?,
        dropped,
    })
}

/// The text of the verdict on the report.
fn judged(alloc: Global, script: &Script, report: &Outcome) -> Result<Bytes, AllocError>
    requires valid { IsValid script.now }
    requires made { IsWellMade report.now }
{
    check(alloc, script, report)?.text(alloc)
}

/// The text of the verdict on a report of these entries and records on a script.
fn verdict(
    alloc: Global,
    script: &[u8],
    entries: Vec<Entry>,
    shown: &[Shown],
    dropped: u32,
) -> Result<Bytes, Fail>
    requires script { length script.now < 1000 }
    requires few { vec_len entries < 100 }
    requires made { All IsEntry entries.items }
    requires few_shown { length shown.now < 100 }
    requires shown { All (NamesEntry (vec_len entries)) shown.now }
{
    let report = report(alloc, entries, shown, dropped)?;
    let script = parse(alloc, script)?;
    Ok(judged(alloc, &script, &report)?)
}

#[test]
fn a_removal_is_legal(rt: HostRuntime) -> Result<(), Fail> {
    let alloc = rt.alloc();
    let mut all = before_removal(alloc)?;
    add(alloc, &mut all, Back(6), 2, 1, Wrote, 0, b"")?;
    add(alloc, &mut all, Driver(0), 4, 0, Status, 0, b"")?;
    add(alloc, &mut all, Back(5), 2, 1, Fault, 2, b"")?;
    let text = verdict(alloc, REMOVAL, all, &[record(8)], 0)?;
    assert_eq!(rt; text.as_slice(), b"legal\n".as_slice());
    Ok(())
}

#[test]
fn a_write_behind_the_removal_is_wrong(rt: HostRuntime) -> Result<(), Fail> {
    let alloc = rt.alloc();
    let mut all = before_removal(alloc)?;
    add(alloc, &mut all, Driver(0), 4, 0, Status, 0, b"")?;
    add(alloc, &mut all, Back(6), 2, 1, Wrote, 0, b"")?;
    add(alloc, &mut all, Back(5), 2, 1, Fault, 2, b"")?;
    let text = verdict(alloc, REMOVAL, all, &[record(8)], 0)?;
    assert_eq!(rt;
        text.as_slice(),
        b"wrong 7 want fault 2 got wrote\n".as_slice()
    );
    Ok(())
}

#[test]
fn an_entry_twice_is_extra(rt: HostRuntime) -> Result<(), Fail> {
    let alloc = rt.alloc();
    let mut all = before_removal(alloc)?;
    add(alloc, &mut all, Back(6), 1, 1, Read, 0, b"\x01")?;
    let text = verdict(alloc, REMOVAL, all, &[], 0)?;
    assert_eq!(rt; text.as_slice(), b"extra 6\n".as_slice());
    Ok(())
}

#[test]
fn a_call_without_an_entry_is_missing(rt: HostRuntime) -> Result<(), Fail> {
    let alloc = rt.alloc();
    let mut all = before_removal(alloc)?;
    add(alloc, &mut all, Driver(0), 4, 0, Status, 0, b"")?;
    let text = verdict(alloc, REMOVAL, all, &[], 0)?;
    assert_eq!(rt; text.as_slice(), b"missing b5.2.1\n".as_slice());
    Ok(())
}

/// The entries in which the refused request comes first.
fn refused_first(alloc: Global) -> Result<Vec<Entry>, AllocError>
    ensures made { IfOk result (λ entries. All IsEntry entries.items) }
    ensures count { IfOk result (λ entries. vec_len entries ≡ 5) }
{
    let mut all = Vec::new(alloc);
    add(alloc, &mut all, Driver(0), 1, 0, Status, 0, b"")?;
    add(alloc, &mut all, Driver(0), 2, 0, Status, 0, b"")?;
    add(alloc, &mut all, Back(5), 1, 1, Read, 0, b"\0")?;
    add(alloc, &mut all, Driver(0), 4, 0, Status, 4, b"")?;
    add(alloc, &mut all, Driver(0), 3, 0, Status, 0, b"")?;
    Ok(all)
}

#[test]
fn added_requests_stand_in_any_order(rt: HostRuntime) -> Result<(), Fail> {
    let alloc = rt.alloc();
    let text = verdict(alloc, ADDED, refused_first(alloc)?, &[], 0)?;
    assert_eq!(rt; text.as_slice(), b"legal\n".as_slice());
    let text = verdict(alloc, IN_TURN, refused_first(alloc)?, &[], 0)?;
    assert_eq!(rt; text.as_slice(), b"order 4\n".as_slice());
    Ok(())
}

#[test]
fn wrong_records_are_told(rt: HostRuntime) -> Result<(), Fail> {
    let alloc = rt.alloc();
    let text = verdict(alloc, ADDED, refused_first(alloc)?, &[record(3)], 0)?;
    assert_eq!(rt; text.as_slice(), b"faults 1\n".as_slice());
    let text = verdict(alloc, ADDED, refused_first(alloc)?, &[], 1)?;
    assert_eq!(rt; text.as_slice(), b"faults 1\n".as_slice());
    Ok(())
}
