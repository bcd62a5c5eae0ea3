//! A run before its first turn.
ghost use Rattle.std.specs.Prelude.{◌≡◌, ◌==◌, ◌<◌, ◌≤◌, ℕ, [], length, Some, IfOk};
ghost use Rattle.std.specs.List.{position};
ghost use Rattle.vi_lines.specs.declared.line.Who.TheVariants as who;
ghost use Rattle.vi_model.specs.Places.{place_count, place_of};
ghost use Rattle.vi_model.specs.Playable.{IsPlayable};
ghost use Rattle.vi_model.specs.Rounds as rounds;
ghost use Rattle.vi_turns.specs.Views.{first, who_of};
ghost use Rattle.vi_run.specs.Roles.{HasRoomFor, IsNew};
ghost use Rattle.vi_run.specs.Runs.{IsOpened};

use crate::actor::Actor;
use crate::role::Role;
use std::alloc::{AllocError, Global};
use std::marker::Model;
use vi_backend::Backend;
use vi_bytes::EndpointSetup;
use vi_control::Control;
use vi_core::{actors, byte_room, entry_room};
use vi_driver::Driver;
use vi_lines::{Script, Who};
use vi_log::Log;
use vi_memory::zero_pages;
use vi_turns::{Pass, Shared};

/// All that a run needs: the shared object with its first pass, and the actors of the script. Contracts see these.
#[derive(Drop)]
pub struct Opened {
    pub(crate) shared: Shared,
    pub(crate) pass: Pass,
    pub(crate) actors: Vec<Actor>,
    // Room for the logs of the actors, once they have ended.
    pub(crate) logs: Vec<Log>,
}

impl Model for Opened {
    ghost use Rattle.std.specs.Prelude.{◌≡◌, ◌≤◌, length, vec_len, vec_capacity};
    ghost use Rattle.vi_run.specs.Runs.{OpenedValue, IsOpened};

    ghost Value = { OpenedValue };

    ghost view = { λ o. record { board = o.shared; pass = o.pass; actors = o.actors.items } };

    ghost invariant = { λ o. IsOpened o.shared o.pass o.actors.items × (vec_len o.logs ≡ 0) × (length o.actors.items ≤ vec_capacity o.logs) };
}

impl Opened {
    /// A run of the script in which nothing has happened, with all room that it needs: for mappings, grants, frames, and for
    /// each actor's entries with their bytes. An error means out of memory.
    pub fn build(alloc: Global, script: Script) -> Result<Opened, AllocError>
        requires { IsPlayable script }
        ensures { IfOk result (λ o. o.board.script ≡ script) }
    {
        set_up(alloc, &script)
    }

    /// The parts, for a caller with threads of its own: pass 0, and the actors in the order of a round, the i-th with the i-th pass that
    /// was split. It takes no memory.
    pub fn parts(self) -> (Shared, Pass, Vec<Actor>)
        ensures parts { (result.0 ≡ self.board) × (result.1 ≡ self.pass) × (result.2.items ≡ self.actors) }
        ensures opened { IsOpened result.0 result.1 result.2.items }
    {
        (self.shared, self.pass, self.actors)
    }
}

// A run of the script in which nothing has happened. An error means out of memory.
fn set_up(alloc: Global, script: &Script) -> Result<Opened, AllocError>
    requires { IsPlayable script.now }
    ensures { IfOk result (λ o. o.board.script ≡ script.now) }
{
    let round = actors(alloc, script)?;
    let logs = Vec::with_capacity(alloc, round.len())?;
    let (shared, mut pass) = shared_of(alloc, script)?;
    let all = actors_of(alloc, &shared, &mut pass, script, &round)?;
    Ok(Opened {
        shared,
        pass,
        actors: all,
        logs,
    })
}

// The shared object of the script, and its first pass. An error means out of memory.
fn shared_of(alloc: Global, script: &Script) -> Result<(Shared, Pass), AllocError>
    requires { IsPlayable script.now }
    ensures own { IfOk result (λ r. (r.1.table ≡ r.0.table) × (r.0.script ≡ script.now)) }
    ensures first { IfOk result (λ r. r.1.view ≡ first script.now) }
{
    let log = Log::with_room(alloc, 0, 0)?;
    let pages = zero_pages(alloc, script.setup.memory)?;
    // The deepest last: each way out drops what was built before.
    let control = Control::build(alloc, script)?;
    Shared::build(alloc, script, control, pages, log)
}

// The actors of a round in order, each with a pass that is split from the first one. An error means out of memory.
fn actors_of(
    alloc: Global,
    shared: &Shared,
    pass: &mut Pass,
    script: &Script,
    round: &[Who],
) -> Result<Vec<Actor>, AllocError>
    requires playable { IsPlayable script.now }
    requires own { (pass.old.table ≡ shared.now.table) × (shared.now.script ≡ script.now) }
    requires first { pass.old.view ≡ first script.now }
    requires round { round.now ≡ rounds.actors script.now }
    ensures { IfOk result (λ all. IsOpened shared.now pass.new all.items) }
{
    let mut all = Vec::with_capacity(alloc, round.len())?;
    for who in round {
        let role = role_of(alloc, script, *who)?;
        let log = log_for(alloc, script, &role)?;
        all.push_reserved(Actor {
            pass: shared.split(pass, log),
            who: *who,
            role,
        });
    }
    Ok(all)
}

// What an actor of the script begins with. An error means out of memory.
fn role_of(alloc: Global, script: &Script, who: Who) -> Result<Role, AllocError>
    requires playable { IsPlayable script.now }
    requires actor { (number : ℕ) × (who_of script.now number ≡ Some who) }
    ensures { IfOk result (λ role. IsNew script.now who role) }
{
    match who {
        Who::Driver(number) => Ok(Role::Driver(Driver::new(alloc, script, number)?)),
        Who::Back(id) => {
            let place = place_of(script, id);
            Ok(Role::Back(place, Backend::new(alloc, script, place)?))
        }
        Who::Device => Ok(Role::Device),
        Who::Events => Ok(Role::Events(script.setup.events)),
    }
}

// A log with room for the entries that the actor can make: none of a driver and of the event reader. An error is want of
// memory.
fn log_for(alloc: Global, script: &Script, role: &Role) -> Result<Log, AllocError>
    requires playable { IsPlayable script.now }
    ensures none { IfOk result (λ log. log.entries ≡ []) }
    ensures room { IfOk result (λ log. HasRoomFor script.now role.now log) }
{
    match role {
        Role::Driver(_) | Role::Events(_) => Log::with_room(alloc, 0, 0),
        Role::Back(..) | Role::Device => {
            let lines = script.lines.as_slice();
            Log::with_room(alloc, entry_room(lines), byte_room(lines))
        }
    }
}

// The place of the endpoint with this id. There is one.
fn place_of(script: &Script, id: u32) -> u32
    requires playable { IsPlayable script.now }
    requires endpoint { (number : ℕ) × (who_of script.now number ≡ Some (who.Back id)) }
    ensures place { result ≡ place_of script.now id }
    ensures below { result < place_count script.now }
{
    let place = first_with(script.setup.endpoints.as_slice(), id);
    place.unwrap() as u32
}

// The first place of an endpoint with this id.
fn first_with(endpoints: &[EndpointSetup], id: u32) -> Option<usize>
    ensures { result ≡ position (λ e. e.id == id) endpoints.now }
{
    endpoints.iter().position(|endpoint| endpoint.id == id)
}
