//! What each actor begins with, and the world of them all.
ghost use Rattle.std.specs.Prelude.{◌≡◌, ◌<◌, ◌≤◌, ℕ, IfOk, length, get_or, map};
ghost use Rattle.std.specs.List.{range_with_len};
ghost use Rattle.vi_lines.specs.Calls.{HasTransfers};
ghost use Rattle.vi_model.specs.Places.{place_count};
ghost use Rattle.vi_model.specs.Drivers.{no_stand};
ghost use Rattle.vi_driver.specs.Drivers.{own_driver};
ghost use Rattle.vi_model.specs.Playable.{IsPlayable};
ghost use Rattle.vi_core.specs.Opening.{AreNew, IsBuilt};

use crate::history::History;
use crate::room::{byte_room, entry_room};
use std::alloc::{AllocError, Global};
use vi_backend::Backend;
use vi_control::Control;
use vi_driver::Driver;
use vi_lines::Script;
use vi_memory::{Page, zero_pages};

/// How many drivers there are, some of them without lines.
const DRIVERS: u8 = 8;

/// The 8 drivers before their first calls. An error means out of memory.
pub fn drivers_of(alloc: Global, script: &Script) -> Result<Vec<Driver>, AllocError>
    ensures { IfOk result (λ drivers. drivers.items ≡ map (λ number. own_driver script.now number no_stand) (range_with_len 0 8)) }
{
    let mut drivers = Vec::new(alloc);
    for number in 0..DRIVERS {
        drivers.push(Driver::new(alloc, script, number)?)?;
    }
    Ok(drivers)
}

/// The back ends in the order of their endpoints. An error means out of memory.
pub fn backs_of(alloc: Global, script: &Script) -> Result<Vec<Backend>, AllocError>
    requires transfers { HasTransfers script.now }
    requires some { 1 ≤ script.now.setup.cache }
    requires most { script.now.setup.cache ≤ 64 }
    requires few { place_count script.now ≤ 16 }
    ensures { IfOk result (λ backs. AreNew script.now (place_count script.now) backs.items) }
{
    let places = script.setup.endpoints.len() as u32;
    let mut backs = Vec::new(alloc);
    for place in 0..places {
        backs.push(Backend::new(alloc, script, place)?)?;
    }
    Ok(backs)
}

/// What a world of the script is made of: the pages, the history, the drivers, the back ends and the control. An error
/// means out of memory.
pub fn parts_of(
    alloc: Global,
    script: &Script,
) -> Result<(Vec<Page>, History, Vec<Driver>, Vec<Backend>, Control), AllocError>
    requires { IsPlayable script.now }
    ensures { IfOk result (λ r. IsBuilt (record { script = script.now; control = r.4; drivers = r.2.items; backs = r.3.items; pages = r.0.items; history = r.1 })) }
{
    let lines = script.lines.as_slice();
    let pages = zero_pages(alloc, script.setup.memory)?;
    let history = History::with_room(alloc, entry_room(lines), byte_room(lines))?;
    let drivers = drivers_of(alloc, script)?;
    let backs = backs_of(alloc, script)?;
    // The deepest last: each way out drops what was built before.
    let control = Control::build(alloc, script)?;
    Ok((pages, history, drivers, backs, control))
}
