//! Turns of actors on the shared object, one beside another, as a caller with threads of its own takes them: an actor meets what
//! another pass has, or finds what another actor left.
ghost use Rattle.std.specs.Prelude.{◌≡◌, ◌≢◌, ◌<◌, length, None, IfSome};
ghost use Rattle.vi_model.specs.Playable.{IsPlayable};
ghost use Rattle.vi_run.specs.Actors.{IsPassOf, view_of};
ghost use Rattle.vi_run.specs.Runs.{AreActors, IsActorAt, IsSame};

use crate::scripts::script_of;
use std::alloc::{AllocError, Global};
use std::sync::atomic::{AtomicU64, Ordering};
use std::test::Fail;
use vi_core::Turned;
use vi_history::{Caller, Kind, Mark};
use vi_lines::{Script, Who};
use vi_run::{Actor, Free, Gate, Opened, Point, Ran};
use vi_turns::{Busy, Pass, Shared};

/// A driver maps a page, and a back end writes and reads through it.
const ONE_BACK_END: &[u8] = b"memory 1
endpoint 7
d0 attach 1 7
d0 map 1 0x1000 0x1fff 0x0 rw
b7 write 0x1000 61626364 after d0.2
b7 read 0x1000 4
";

/// Two back ends access one page through a mapping, and then it is removed.
const TWO_BACK_ENDS: &[u8] = b"memory 1
endpoint 5
endpoint 6
d0 attach 1 5
d0 attach 1 6
d0 map 1 0x1000 0x1fff 0x0 rw
b5 write 0x1000 01 after d0.3
b6 read 0x1000 1 after d0.3
d0 unmap 1 0x1000 0x1fff after b5.1 b6.1
b5 read 0x1000 1 after b6.1
b6 write 0x1000 02
";

/// How many entries an actor has logged, the ticket and the mark of the first, and whether its bytes are the wanted ones. `None` where
/// it has logged none.
type Logged = Option<(usize, u64, Mark, bool)>;

/// The tickets that a back end sees, whether the driver's pass wins the control with the device's turn beside that, and what the
/// device has logged.
type EndsOfFour = Option<(u64, (bool, Ran), Logged)>;

/// The device's turn beside pass 0, the driver's next turn and the device's, and the ends of all.
type DeviceMet = (Option<Ran>, [Ran; 2], EndsOfFour);

/// The first back end's turn with how often it held a page, the other one's turns beside its pass and behind it, and what the other
/// one has logged.
type EndsOfFive = Option<((Ran, u64), Option<[Ran; 2]>, Logged)>;

/// A turn that was taken, and in which the actor moved.
const MOVED: Ran = Ran::Turned(Turned::Moved);

/// An exchange on this word was lost to the pass whose number is one less than what was found.
fn busy(word: u32, found: u64) -> Ran {
    Ran::Busy(Busy { word, found })
}

/// A turn of the actor at this place.
fn turn<G: Gate>(shared: &Shared, actors: &mut Vec<Actor>, at: usize, gate: &G) -> Ran
    requires actors { AreActors shared.now actors.old.items }
    requires inside { at < length actors.old.items }
    ensures actors { AreActors shared.now actors.new.items }
    ensures length { length actors.new.items ≡ length actors.old.items }
{
    actors[at].turn(shared, gate)
}

/// The last actor, and the others are left.
fn last(shared: &Shared, actors: &mut Vec<Actor>) -> Option<Actor>
    requires actors { AreActors shared.now actors.old.items }
    ensures actors { AreActors shared.now actors.new.items }
    ensures last { IfSome result (λ a. IsActorAt shared.now (length actors.new.items) a) }
{
    actors.pop()
}

/// A turn of the actor at this place while pass 0 has the control, which it then gives back as it was.
fn beside_zero(shared: &Shared, zero: &mut Pass, actors: &mut Vec<Actor>, at: usize) -> Option<Ran>
    requires own { IsPassOf shared.now zero.old }
    requires number { zero.old.view.number ≡ 0 }
    requires empty { zero.old.view.held ≡ None }
    requires actors { AreActors shared.now actors.old.items }
    requires inside { at < length actors.old.items }
    ensures own { zero.new.table ≡ shared.now.table }
    ensures actors { AreActors shared.now actors.new.items }
    ensures length { length actors.new.items ≡ length actors.old.items }
{
    match shared.try_control(zero) {
        Ok(control) => {
            let ran = turn(shared, actors, at, &Free);
            shared.give_control(zero, control);
            Some(ran)
        }
        Err(_) => None,
    }
}

/// Whether the pass of one actor wins the control, and a turn of another actor beside it.
fn beside_control(shared: &Shared, one: Actor, other: &mut Actor) -> (bool, Ran)
    requires own { IsPassOf shared.now one.pass × IsPassOf shared.now other.old.pass }
    ensures other { IsSame shared.now other.old other.new }
{
    let mut pass = one.end();
    let won = shared.try_control(&mut pass);
    let beside = other.turn(shared, &Free);
    (won.is_ok(), beside)
}

/// How many tickets were drawn, as the pass of an actor sees it.
fn seen_by(shared: &Shared, actor: Actor) -> u64
    requires { IsPassOf shared.now actor.pass }
{
    let mut pass = actor.end();
    shared.front(&mut pass)
}

/// What an actor has logged when it is joined, and whether the first entry has these bytes.
fn logged(alloc: Global, shared: &Shared, zero: &mut Pass, actor: Actor, bytes: &[u8]) -> Logged
    requires zero { zero.old.table ≡ shared.now.table }
    requires own { IsPassOf shared.now actor.pass }
    requires other { (view_of actor).number ≢ 0 }
{
    let log = shared.join(zero, actor.end());
    if log.len() < 1 {
        return None;
    }
    match log.get(alloc, 0) {
        Ok((ticket, entry)) => {
            let same = entry.bytes.as_slice() == bytes;
            Some((log.len(), ticket, entry.mark, same))
        }
        Err(_) => None,
    }
}

/// What becomes of four actors.
fn ends_of_four(
    alloc: Global,
    shared: &Shared,
    zero: &mut Pass,
    actors: &mut Vec<Actor>,
) -> EndsOfFour
    requires zero { zero.old.table ≡ shared.now.table }
    requires actors { AreActors shared.now actors.old.items }
{
    let _reader = last(shared, actors)?;
    let mut device = last(shared, actors)?;
    let seen = seen_by(shared, last(shared, actors)?);
    let beside = beside_control(shared, last(shared, actors)?, &mut device);
    Some((seen, beside, logged(alloc, shared, zero, device, b"")))
}

/// The turns of the device and the driver of four actors, and the ends of all.
fn device_meets(
    alloc: Global,
    shared: &Shared,
    zero: &mut Pass,
    actors: &mut Vec<Actor>,
) -> DeviceMet
    requires own { IsPassOf shared.now zero.old }
    requires number { zero.old.view.number ≡ 0 }
    requires empty { zero.old.view.held ≡ None }
    requires actors { AreActors shared.now actors.old.items }
    requires four { length actors.old.items ≡ 4 }
{
    let beside = beside_zero(shared, zero, actors, 2);
    let turns = [
        turn(shared, actors, 0, &Free),
        turn(shared, actors, 2, &Free),
    ];
    (beside, turns, ends_of_four(alloc, shared, zero, actors))
}

/// The same of a run of the script. `None` where it hasn't four actors.
fn device_meets_in(alloc: Global, script: Script) -> Result<Option<DeviceMet>, AllocError>
    requires { IsPlayable script }
{
    let (shared, mut zero, mut actors) = Opened::build(alloc, script)?.parts();
    if actors.len() != 4 {
        return Ok(None);
    }
    Ok(Some(device_meets(alloc, &shared, &mut zero, &mut actors)))
}

#[test]
fn the_device_finds_the_driver_at_the_control(rt: HostRuntime) -> Result<(), Fail> {
    let script = script_of(rt.alloc(), ONE_BACK_END)?;
    let found = device_meets_in(rt.alloc(), script)?;
    let mark = Mark {
        caller: Caller::Driver(0),
        line: 1,
        part: 0,
        kind: Kind::Status,
        code: 0,
    };
    let ends = Some((1, (true, busy(1, 2)), Some((1, 0, mark, true))));
    assert_eq!(rt; found, Some((Some(busy(1, 1)), [MOVED, MOVED], ends)));
    Ok(())
}

/// How often a back end has won a page.
#[derive(Drop)]
struct Held {
    pages: AtomicU64,
}

impl Gate for Held {
    fn pass(&self, _who: Who, point: Point) {
        if let Point::PageHeld = point {
            self.pages.fetch_add(1, Ordering::SeqCst);
        }
    }
}

/// Turns by which the driver maps the page, and each back end comes to its first access: the driver is at the place 0, the back
/// ends are at 1 and 2, and the device is at 3.
const TO_ACCESSES: [usize; 19] = [0, 3, 0, 0, 3, 0, 0, 3, 0, 1, 1, 3, 1, 1, 2, 2, 3, 2, 2];

/// Takes these turns of five actors, and answers how often a page was held in them.
fn come_to_accesses(shared: &Shared, actors: &mut Vec<Actor>) -> u64
    requires actors { AreActors shared.now actors.old.items }
    requires five { length actors.old.items ≡ 5 }
    ensures actors { AreActors shared.now actors.new.items }
{
    let held = Held {
        pages: AtomicU64::new(0),
    };
    for at in TO_ACCESSES {
        if at < 5 {
            turn(shared, actors, at, &held);
        }
    }
    held.pages.load(Ordering::SeqCst)
}

/// An actor's turn, and how often it held a page in it.
fn access(shared: &Shared, actor: &mut Actor) -> (Ran, u64)
    requires { IsPassOf shared.now actor.old.pass }
    ensures { IsSame shared.now actor.old actor.new }
{
    let held = Held {
        pages: AtomicU64::new(0),
    };
    let ran = actor.turn(shared, &held);
    (ran, held.pages.load(Ordering::SeqCst))
}

/// A turn of an actor while another one's pass has page 0, and one when it was given back as it was.
fn beside_page(shared: &Shared, one: Actor, other: &mut Actor) -> Option<[Ran; 2]>
    requires own { IsPassOf shared.now one.pass × IsPassOf shared.now other.old.pass }
    requires memory { 0 < shared.now.script.setup.memory }
    ensures other { IsSame shared.now other.old other.new }
{
    let mut pass = one.end();
    let page = match shared.try_page(&mut pass, 0) {
        Ok(page) => page,
        Err(_) => return None,
    };
    let beside = other.turn(shared, &Free);
    shared.give_page(&mut pass, 0, page);
    Some([beside, other.turn(shared, &Free)])
}

/// What becomes of the back ends of five actors.
fn ends_of_five(
    alloc: Global,
    shared: &Shared,
    zero: &mut Pass,
    actors: &mut Vec<Actor>,
) -> EndsOfFive
    requires zero { zero.old.table ≡ shared.now.table }
    requires memory { 0 < shared.now.script.setup.memory }
    requires actors { AreActors shared.now actors.old.items }
{
    let _reader = last(shared, actors)?;
    let _device = last(shared, actors)?;
    let mut other = last(shared, actors)?;
    let mut first = last(shared, actors)?;
    let wrote = access(shared, &mut first);
    let beside = beside_page(shared, first, &mut other);
    let read = logged(alloc, shared, zero, other, b"\x01");
    Some((wrote, beside, read))
}

/// How often a page was held before, and these ends, of a run of the script. `None` where it hasn't five actors or has no memory.
fn back_ends_meet_in(alloc: Global, script: Script) -> Result<Option<(u64, EndsOfFive)>, AllocError>
    requires { IsPlayable script }
{
    let memory = script.setup.memory;
    let (shared, mut zero, mut actors) = Opened::build(alloc, script)?.parts();
    if actors.len() != 5 || memory < 1 {
        return Ok(None);
    }
    let before = come_to_accesses(&shared, &mut actors);
    Ok(Some((before, ends_of_five(alloc, &shared, &mut zero, &mut actors))))
}

#[test]
fn the_second_back_end_reads_what_the_first_wrote(rt: HostRuntime) -> Result<(), Fail> {
    let script = script_of(rt.alloc(), TWO_BACK_ENDS)?;
    let found = back_ends_meet_in(rt.alloc(), script)?;
    let mark = Mark {
        caller: Caller::Back(6),
        line: 1,
        part: 1,
        kind: Kind::Read,
        code: 0,
    };
    let turns = Some([busy(2, 3), MOVED]);
    let ends = Some(((MOVED, 1), turns, Some((1, 4, mark, true))));
    assert_eq!(rt; found, Some((0, ends)));
    Ok(())
}
