//! The pages that histories write, and a replica that follows.
ghost use Rattle.std.specs.Prelude.{◌≡◌, ◌+◌, ◌<◌, ◌≤◌, [], IfOk, OnOk, length};
ghost use Rattle.vi_dirty.specs.Tracked.{fed};
ghost use Rattle.vi_history.specs.Histories.{answer_of};
ghost use Rattle.vi_history.specs.Outcomes.{IsWellMade};
ghost use Rattle.vi_history.specs.Replies.{next, reply};
ghost use Rattle.vi_lines.specs.Valid.{IsValid};
ghost use Rattle.vi_plain.specs.Conditions.{IsPlainCall};
ghost use Rattle.vi_state.specs.Followed.{IsFollowed};

use crate::state::{setup, write};
use std::alloc::{AllocError, Global};
use std::test::Fail;
use vi_bytes::Bytes;
use vi_check::{Verdict, check, legal_exactly};
use vi_dirty::{Replica, Tracker, replicas_follow, text};
use vi_history::{Call, Caller, Entry, Outcome};
use vi_lines::Script;
use vi_plain::Plain;

/// A mapped page is written and read.
const WRITTEN: &[u8] =
    b"memory 1\nendpoint 7\nd0 attach 1 7\nd0 map 1 0x1000 0x1fff 0x0 rw\nb7 write 0x1000 61626364 after d0.2\nb7 read 0x1000 4\n";

const WRITTEN_REPORT: &[u8] =
    b"viommu history 4\n1 d0.1 status 0\n2 d0.2 status 0\n3 b7.1.1 wrote\n4 b7.2.1 read 61626364\nfaults 0 shown 0 dropped 0\nend\n";

/// A write in bypass, and a read that faults.
const BYPASS: &[u8] =
    b"memory 1\nendpoint 7\nd0 bypass on\nb7 write 0x0 55 after d0.1\nd0 bypass off after b7.1\nb7 read 0x0 1 after d0.2\n";

const BYPASS_REPORT: &[u8] =
    b"viommu history 4\n1 d0.1 set\n2 b7.1.1 wrote\n3 d0.2 set\n4 b7.2.1 fault 1\nfaults 1 shown 1 dropped 0\n4 010000000101000007000000000000000000000000000000\nend\n";

/// A transfer over two pages, whose targets aren't its addresses, a write in bypass, and one that faults.
const TARGETS: &[u8] =
    b"memory 4\nendpoint 7\nendpoint 9\nd0 attach 1 7\nd0 map 1 0x1000 0x2fff 0x2000 rw\nd0 bypass on\nb7 write 0x1ffe 0102030405 after d0.3\nb9 write 0x0 ff after b7.1\nd0 unmap 1 0x1000 0x2fff after b9.1\nb7 write 0x1000 aa after d0.4\nb9 write 0x3000 bb after b7.2\n";

const TARGETS_REPORT: &[u8] =
    b"viommu history 9\n1 d0.1 status 0\n2 d0.2 status 0\n3 d0.3 set\n4 b7.1.1 wrote\n5 b7.1.2 wrote\n6 b9.1.1 wrote\n7 d0.4 status 0\n8 b7.2.1 fault 2\n9 b9.2.1 wrote\nfaults 1 shown 1 dropped 0\n8 020000000201000007000000000000000010000000000000\nend\n";

// The pages of a history that is legal, and nothing of another.
fn pages(
    alloc: Global,
    script: &Script,
    report: &Outcome,
    every: u32,
) -> Result<Option<Bytes>, AllocError>
    requires valid { IsValid script.now }
    requires made { IsWellMade report.now }
    requires some { 1 ≤ every }
{
    legal_exactly();
    match check(alloc, script, report)? {
        Verdict::Legal => Ok(Some(text(alloc, script, report.entries.as_slice(), every)?)),
        _ => Ok(None),
    }
}

// The pages of a script's report, for each so many entries.
fn said(alloc: Global, script: &[u8], report: &[u8], every: u32) -> Result<Option<Bytes>, Fail>
    requires script { length script.now < 1000 }
    requires report { length report.now < 1000 }
    requires some { 1 ≤ every }
{
    let script = vi_script::parse(alloc, script)?;
    let report = vi_report::parse(alloc, report)?;
    Ok(pages(alloc, &script, &report, every)?)
}

// Whether these are the pages.
fn says(alloc: Global, script: &[u8], report: &[u8], every: u32, want: &str) -> Result<bool, Fail>
    requires script { length script.now < 1000 }
    requires report { length report.now < 1000 }
    requires some { 1 ≤ every }
{
    match said(alloc, script, report, every)? {
        Some(text) => Ok(text.as_slice() == want.as_bytes()),
        None => Ok(false),
    }
}

#[test]
fn a_round_has_the_pages_of_its_entries(rt: HostRuntime) -> Result<(), Fail> {
    let alloc = rt.alloc();
    let want = "rounds 2\nround 1 1 0\nround 2 0\ndirty 1 0\n";
    assert!(rt; says(alloc, WRITTEN, WRITTEN_REPORT, 3, want)?);
    let want = "rounds 4\nround 1 0\nround 2 1 0\nround 3 0\nround 4 0\ndirty 1 0\n";
    assert!(rt; says(alloc, BYPASS, BYPASS_REPORT, 1, want)?);
    Ok(())
}

#[test]
fn pages_are_those_of_targets(rt: HostRuntime) -> Result<(), Fail> {
    let alloc = rt.alloc();
    let want = "rounds 3\nround 1 1 2\nround 2 2 0 3\nround 3 1 3\ndirty 3 0 2 3\n";
    assert!(rt; says(alloc, TARGETS, TARGETS_REPORT, 4, want)?);
    let want = "rounds 1\nround 1 3 0 2 3\ndirty 3 0 2 3\n";
    assert!(rt; says(alloc, TARGETS, TARGETS_REPORT, 10000, want)?);
    Ok(())
}

#[test]
fn an_empty_history_has_no_round(rt: HostRuntime) -> Result<(), Fail> {
    let report = b"viommu history 0\nfaults 0 shown 0 dropped 0\nend\n";
    assert!(rt; says(rt.alloc(), b"", report, 1, "rounds 0\ndirty 0\n")?);
    Ok(())
}

// The tracker takes the entry, and the replica the pages that the tracker has then. That both differ in no other page is the law.
fn follow(
    alloc: Global,
    tracker: &mut Tracker,
    replica: &mut Replica,
    call: &Call,
    entry: &Entry,
) -> Result<Vec<u32>, AllocError>
    requires fresh { tracker.old.set ≡ [] }
    requires equal { replica.old ≡ tracker.old.one.memory }
    requires call { IsFollowed tracker.old.one call.now }
    requires right { answer_of entry.now ≡ reply tracker.old.one call.now }
    requires room { 1 ≤ tracker.old.spare }
    ensures next { OnOk result (tracker.new ≡ record (fed tracker.old call.now entry.now) { set = [] }) }
    ensures equal { OnOk result (replica.new ≡ (next tracker.old.one call.now).memory) }
    ensures size { OnOk result (length replica.new ≡ length replica.old) }
{
    replicas_follow();
    tracker.feed(call, entry);
    let pages = replica.follow(alloc, tracker)?;
    Ok(pages)
}

// The plain device answers the call, and tracker and replica follow: how many pages were written, and the first byte of the first
// page then. Another call can be followed then as before.
fn both(
    alloc: Global,
    plain: &mut Plain,
    tracker: &mut Tracker,
    replica: &mut Replica,
    call: &Call,
    later: &Call,
) -> Result<(usize, Option<u8>), AllocError>
    requires same { tracker.old.one ≡ plain.old }
    requires fresh { tracker.old.set ≡ [] }
    requires equal { replica.old ≡ plain.old.memory }
    requires some { 1 ≤ length replica.old }
    requires plain { IsPlainCall call.now }
    requires call { IsFollowed plain.old call.now }
    requires later { IsFollowed plain.old later.now }
    requires room { 1 ≤ tracker.old.spare }
    ensures same { OnOk result (tracker.new.one ≡ plain.new) }
    ensures fresh { OnOk result (tracker.new.set ≡ []) }
    ensures equal { OnOk result (replica.new ≡ plain.new.memory) }
    ensures some { OnOk result (1 ≤ length replica.new) }
    ensures later { OnOk result (IsFollowed plain.new later.now) }
    ensures room { OnOk result (tracker.old.spare ≤ tracker.new.spare + 1) }
{
    let entry = plain.step(alloc, Caller::Driver(0), 1, 0, call)?;
    let pages = follow(alloc, tracker, replica, call, &entry)?;
    Ok((pages.len(), replica.page(0).first().copied()))
}

// The three settings and accesses of a history in bypass: how many pages were written, and the first byte then.
fn story(
    alloc: Global,
    plain: &mut Plain,
    tracker: &mut Tracker,
    replica: &mut Replica,
    write: &Call,
) -> Result<[(usize, Option<u8>); 3], AllocError>
    requires same { tracker.old.one ≡ plain.old }
    requires fresh { tracker.old.set ≡ [] }
    requires equal { replica.old ≡ plain.old.memory }
    requires some { 1 ≤ length replica.old }
    requires plain { IsPlainCall write.now }
    requires call { IsFollowed plain.old write.now }
    requires room { 3 ≤ tracker.old.spare }
{
    let on = both(alloc, plain, tracker, replica, &Call::Bypass(true), write)?;
    let wrote = both(alloc, plain, tracker, replica, write, write)?;
    let off = both(alloc, plain, tracker, replica, &Call::Bypass(false), write)?;
    Ok([on, wrote, off])
}

#[test]
#[tactic(auto, unfolding(vi_history::specs::Start::start))]
fn a_replica_follows(rt: HostRuntime) -> Result<(), Fail> {
    let alloc = rt.alloc();
    let setup = setup(alloc)?;
    let write = write(alloc, &setup, 0)?;
    let mut replica = Replica::zero(alloc, setup.memory)?;
    let mut plain = Plain::new(alloc, &setup)?;
    let mut tracker = Tracker::new(alloc, &setup, 3)?;
    let seen = story(alloc, &mut plain, &mut tracker, &mut replica, &write)?;
    assert_eq!(rt; seen, [(0, Some(0)), (1, Some(1)), (0, Some(1))]);
    Ok(())
}
