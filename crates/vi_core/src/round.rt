//! Whose turns a round has.
ghost use Rattle.std.specs.Prelude.{◌≡◌, ◌++◌, IfOk, OnOk};
ghost use Rattle.vi_model.specs.Rounds.{actors, backs_of, drivers_of};

use std::alloc::{AllocError, Global};
use vi_history::Caller;
use vi_lines::{Script, Who};

/// Drivers are numbered from 0 to 7.
const DRIVERS: u8 = 8;

/// The actors of a round, in the order of their turns: the drivers that have lines by number, the back ends in declared
/// order, the device and, unless events are off, the reader of fault records. An error means out of memory.
#[tactic(auto, unfolding(vi_model::specs::Rounds::actors))]
pub fn actors(alloc: Global, script: &Script) -> Result<Vec<Who>, AllocError>
    ensures { IfOk result (λ v. v.items ≡ actors script.now) }
{
    let mut actors = Vec::new(alloc);
    push_drivers(&mut actors, script)?;
    push_backs(&mut actors, script)?;
    actors.push(Who::Device)?;
    if script.setup.events {
        actors.push(Who::Events)?;
    }
    Ok(actors)
}

/// Adds the drivers that have lines. An error means out of memory.
fn push_drivers(actors: &mut Vec<Who>, script: &Script) -> Result<(), AllocError>
    ensures { OnOk result (actors.new.items ≡ actors.old.items ++ drivers_of script.now) }
{
    for number in 0..DRIVERS {
        if script.count(Caller::Driver(number)) > 0 {
            actors.push(Who::Driver(number))?;
        }
    }
    Ok(())
}

/// Adds the back ends. An error means out of memory.
fn push_backs(actors: &mut Vec<Who>, script: &Script) -> Result<(), AllocError>
    ensures { OnOk result (actors.new.items ≡ actors.old.items ++ backs_of script.now) }
{
    for endpoint in script.setup.endpoints.as_slice() {
        actors.push(Who::Back(endpoint.id))?;
    }
    Ok(())
}
