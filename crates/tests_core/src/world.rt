//! A script played turn by turn, and the history that its turns make.
use crate::scripts::script_of;
use std::alloc::{AllocError, Global};
use std::test::Fail;
use vi_core::{Turned, World};
use vi_history::{Caller, Kind, Mark, Outcome};
use vi_lines::Who;

/// The first turns of a back end, of one that there isn't, of a driver without lines and of the driver with lines.
fn first_turns(world: &mut World) -> [Turned; 4] {
    [
        world.turn(Who::Back(7)),
        world.turn(Who::Back(8)),
        world.turn(Who::Driver(8)),
        world.turn(Who::Driver(0)),
    ]
}

/// Twenty rounds: whether every line is finished, before and after.
fn finished_by(world: &mut World) -> [bool; 2] {
    let round = [Who::Driver(0), Who::Back(7), Who::Device, Who::Events];
    let before = world.finished();
    for _round in 0..20 {
        world.run(&round);
    }
    [before, world.finished()]
}

/// How many entries and records there are, and how many records were dropped.
fn counted(outcome: &Outcome) -> (usize, usize, u32) {
    (outcome.entries.len(), outcome.shown.len(), outcome.dropped)
}

/// The counts of what the world has come to.
fn came_to(alloc: Global, world: World) -> Result<(usize, usize, u32), AllocError> {
    Ok(counted(&world.outcome(alloc)?))
}

// A page is mapped for reading: a read of it is answered, and a write faults. A back end waits for what it awaits.
#[test]
fn reads_and_faults(rt: HostRuntime) -> Result<(), Fail> {
    let text = b"endpoint 7
d0 attach 1 7
d0 map 1 0x1000 0x1fff 0 r
b7 read 0x1000 2 after d0.2
b7 write 0x1004 01";
    let mut world = World::build(rt.alloc(), script_of(rt.alloc(), text)?)?;
    let turned = first_turns(&mut world);
    let finished = finished_by(&mut world);
    let counts = came_to(rt.alloc(), world)?;
    let first = [
        Turned::Waiting,
        Turned::Waiting,
        Turned::Rest,
        Turned::Moved,
    ];
    assert_eq!(rt; turned, first);
    assert_eq!(rt; finished, [false, true]);
    assert_eq!(rt; counts, (4, 1, 0));
    Ok(())
}

/// How many entries there are, the marks of the second and of the last of four, and whether their bytes are these three and none.
fn kept(outcome: &Outcome) -> Option<(usize, [Mark; 2], [bool; 2])> {
    let entries = outcome.entries.as_slice();
    if entries.len() < 4 {
        return None;
    }
    let bytes = [
        entries[1].bytes.as_slice() == b"abc".as_slice(),
        entries[3].bytes.is_empty(),
    ];
    Some((entries.len(), [entries[1].mark, entries[3].mark], bytes))
}

/// The same of what the world has come to.
fn kept_by(
    alloc: Global,
    world: World,
) -> Result<Option<(usize, [Mark; 2], [bool; 2])>, AllocError> {
    Ok(kept(&world.outcome(alloc)?))
}

/// The mark of the endpoint 7's part of this line.
fn mark(line: u32, part: u32, kind: Kind) -> Mark {
    Mark {
        caller: Caller::Back(7),
        line,
        part,
        kind,
        code: 0,
    }
}

// Bypass is on. A read answers what a write left, and a write over the end of a page is two parts.
#[test]
fn keeps_its_entries(rt: HostRuntime) -> Result<(), Fail> {
    let text = b"memory 2
bypass on
endpoint 7
b7 write 0x0 616263
b7 read 0x0 3
b7 write 0xfff 0102";
    let mut world = World::build(rt.alloc(), script_of(rt.alloc(), text)?)?;
    let finished = finished_by(&mut world);
    let kept = kept_by(rt.alloc(), world)?;
    assert_eq!(rt; finished, [false, true]);
    let marks = [mark(2, 1, Kind::Read), mark(3, 2, Kind::Wrote)];
    assert_eq!(rt; kept, Some((4, marks, [true, true])));
    Ok(())
}
