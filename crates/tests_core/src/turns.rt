//! The shared object as its callers meet it: passes, locks, and the end.
ghost use Rattle.std.specs.Prelude.{◌≡◌, [], length, None, IfOk};
ghost use Rattle.vi_model.specs.Playable.{IsPlayable};
ghost use Rattle.vi_turns.specs.Views.{first};

use crate::scripts::script_of;
use std::alloc::{AllocError, Global};
use std::test::Fail;
use vi_control::Control;
use vi_lines::Script;
use vi_log::Log;
use vi_memory::zero_pages;
use vi_turns::{Busy, Closed, Pass, Shared};

const SCRIPT: &[u8] =
    b"memory 3\nendpoint 7\nd0 attach 1 7\nd0 map 1 0x1000 0x1fff 0x0 rw\nb7 read 0x1000 4 after d0.2\n";

/// The object of a script, and its first pass.
fn opened(alloc: Global, script: &Script) -> Result<(Shared, Pass), AllocError>
    requires { IsPlayable script.now }
    ensures { IfOk result (λ r. (r.1.table ≡ r.0.table) × (r.0.script ≡ script.now) × (r.1.view ≡ first script.now)) }
{
    let control = Control::build(alloc, script)?;
    let pages = zero_pages(alloc, script.setup.memory)?;
    let log = Log::with_room(alloc, 0, 0)?;
    Shared::build(alloc, script, control, pages, log)
}

/// Whether one pass wins the control, and which exchange another one loses then.
fn contended(shared: &Shared, one: &mut Pass, two: &mut Pass) -> (bool, Option<Busy>)
    requires one { (one.old.table ≡ shared.now.table) × (one.old.view.held ≡ None) }
    requires two { (two.old.table ≡ shared.now.table) × (two.old.view.held ≡ None) }
{
    let won = shared.try_control(one).is_ok();
    (won, shared.try_control(two).err())
}

/// The same of the first two passes that are split, and how many tickets were drawn by then.
fn met(shared: &Shared, zero: &mut Pass, one: Log, two: Log) -> ((bool, Option<Busy>), u64)
    requires own { zero.old.table ≡ shared.now.table }
    requires first { zero.old.view ≡ first shared.now.script }
    requires logs { (one.entries ≡ []) × (two.entries ≡ []) }
{
    let mut one = shared.split(zero, one);
    let mut two = shared.split(zero, two);
    let found = contended(shared, &mut one, &mut two);
    (found, shared.front(zero))
}

#[test]
fn a_busy_names_the_word_and_the_holder(rt: HostRuntime) -> Result<(), Fail> {
    let logs = (
        Log::with_room(rt.alloc(), 0, 0)?,
        Log::with_room(rt.alloc(), 0, 0)?,
    );
    let script = script_of(rt.alloc(), SCRIPT)?;
    let (shared, mut zero) = opened(rt.alloc(), &script)?;
    let found = met(&shared, &mut zero, logs.0, logs.1);
    let busy = Busy { word: 1, found: 2 };
    assert_eq!(rt; found, ((true, Some(busy)), 0));
    Ok(())
}

/// Whether the logs of two passes are empty when these are joined.
fn joined(shared: &Shared, zero: &mut Pass, one: Log, two: Log) -> [bool; 2]
    requires own { zero.old.table ≡ shared.now.table }
    requires first { zero.old.view ≡ first shared.now.script }
    requires logs { (one.entries ≡ []) × (two.entries ≡ []) }
    ensures own { zero.new.table ≡ shared.now.table }
    ensures first { (zero.new.view.number ≡ 0) × (zero.new.view.held ≡ None) }
    ensures all { length zero.new.view.taken ≡ zero.new.view.made }
{
    let one = shared.split(zero, one);
    let two = shared.split(zero, two);
    let first = shared.join(zero, one).is_empty();
    [first, shared.join(zero, two).is_empty()]
}

/// How many pages are left, whether the log of pass 0 is empty, and how many records were dropped.
fn left(closed: &Closed) -> (usize, bool, u32) {
    closed.is_whole();
    let dropped = closed.control.dropped();
    (closed.pages.len(), closed.log.is_empty(), dropped)
}

/// The same of the object that ends with pass 0.
fn ended(shared: Shared, zero: Pass) -> (usize, bool, u32)
    requires own { zero.table ≡ shared.table }
    requires first { (zero.view.number ≡ 0) × (zero.view.held ≡ None) }
    requires all { length zero.view.taken ≡ zero.view.made }
{
    left(&shared.close(zero))
}

#[test]
fn ends_when_all_passes_were_joined(rt: HostRuntime) -> Result<(), Fail> {
    let logs = (
        Log::with_room(rt.alloc(), 4, 0)?,
        Log::with_room(rt.alloc(), 2, 0)?,
    );
    let script = script_of(rt.alloc(), SCRIPT)?;
    let (shared, mut zero) = opened(rt.alloc(), &script)?;
    let empty = joined(&shared, &mut zero, logs.0, logs.1);
    let end = ended(shared, zero);
    assert_eq!(rt; empty, [true, true]);
    assert_eq!(rt; end, (3, true, 0));
    Ok(())
}
