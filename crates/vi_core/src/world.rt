//! The world of a script, turn by turn.
ghost use Rattle.std.specs.Prelude.{◌≡◌, ◌==◌, true, IfOk};
ghost use Rattle.std.specs.List.{list_all, position};
ghost use Rattle.vi_history.specs.Outcomes.{IsWellMade};
ghost use Rattle.vi_model.specs.Playable.{IsPlayable};
ghost use Rattle.vi_model.specs.Rounds.{is_finished};
ghost use Rattle.vi_model.specs.Turns.{run, wished_page};
ghost use Rattle.vi_lines.specs.Ordered.{IsOrdered};
ghost use Rattle.vi_lines.specs.declared.line.Who.TheVariants as who;
ghost use Rattle.vi_driver.specs.Drivers as driver;
ghost use Rattle.vi_backend.specs.Wishes as back;
ghost use Rattle.vi_backend.specs.Wishes.{own_wish};
ghost use Rattle.vi_core.specs.Moves.{HasTurned};
ghost use Rattle.vi_core.specs.Outcomes.{outcome_of};
ghost use Rattle.vi_core.specs.Running.{history_of, opened};
ghost use Rattle.vi_core.specs.Well.{IsAnsweredAtOnce, IsWell};

use crate::conversing::{converse, reach};
use crate::driving::drive;
use crate::gate::Free;
use crate::history::History;
use crate::opening::parts_of;
use crate::outcome::outcome_of;
use crate::reader::read_event;
use crate::serving::serve;
use crate::turned::Turned;
use std::alloc::{AllocError, Global};
use std::marker::Model;
use vi_backend::{Backend, Wish};
use vi_control::Control;
use vi_driver::Driver;
use vi_history::Outcome;
use vi_lines::{Script, Who};
use vi_memory::Page;

/// A script at work: what its actors share, what each of them has, the memory, and the history of their turns. All room is
/// taken when it is built, and no turn takes memory.
#[derive(Drop)]
pub struct World {
    script: Script,
    control: Control,
    // By number.
    drivers: Vec<Driver>,
    // In the order of their endpoints' declaration.
    backs: Vec<Backend>,
    pages: Vec<Page>,
    history: History,
}

impl Model for World {
    ghost use Rattle.vi_core.specs.Running.{Running};

    ghost Value = { Running };

    ghost use Rattle.vi_core.specs.Inner.{seen, IsWorld};

    ghost view = { seen };

    ghost invariant = { IsWorld };
}

impl World {
    /// The world of a script in which nothing has happened, with room for all that its turns can make. An error is want of
    /// memory.
    pub fn build(alloc: Global, script: Script) -> Result<World, AllocError>
        requires { IsPlayable script }
        ensures { IfOk result (λ w. w ≡ opened script) }
    {
        let (pages, history, drivers, backs, control) = parts_of(alloc, &script)?;
        Ok(World {
            script,
            control,
            drivers,
            backs,
            pages,
            history,
        })
    }

    /// One turn of an actor. A driver or a back end that the script doesn't have changes nothing.
    pub fn turn(&mut self, who: Who) -> Turned
        ensures turn { HasTurned who self.old self.new result }
        ensures before { IsWell self.old }
        ensures after { IsWell self.new }
        ensures at_once { IsAnsweredAtOnce self.old }
    {
        self.keeps();
        let turned = self.take_turn(who);
        self.keeps();
        turned
    }

    fn take_turn(&mut self, who: Who) -> Turned
        ensures { HasTurned who self.old self.new result }
    {
        match who {
            Who::Driver(number) => self.driver_turn(number),
            Who::Back(id) => self.back_turn(id),
            Who::Device => self.device_turn(),
            Who::Events => self.reader_turn(),
        }
    }

    // It changes nothing: its clauses are what is so of every world.
    fn keeps(&self)
        ensures well { IsWell self.now }
        ensures at_once { IsAnsweredAtOnce self.now }
    {
        let _script = &self.script;
    }

    /// Turns of these actors in order.
    pub fn run(&mut self, turns: &[Who])
        ensures script { self.new.script ≡ self.old.script }
        ensures world { self.new.world ≡ run self.old.script self.old.world turns.now }
    {
        for who in turns {
            self.turn(*who);
        }
    }

    /// Whether every line of every caller is finished.
    pub fn finished(&self) -> bool
        ensures finished { result ≡ is_finished self.now.script self.now.world }
        ensures playable { IsPlayable self.now.script }
        ensures well { IsWell self.now }
        ensures ordered { result ≡ true → IsOrdered self.now.script (history_of self.now) }
    {
        are_drivers_finished(&self.drivers) && are_backs_finished(&self.backs)
    }

    /// What the turns have come to. An error means out of memory.
    pub fn outcome(self, alloc: Global) -> Result<Outcome, AllocError>
        ensures outcome { IfOk result (λ o. o ≡ outcome_of self.world) }
        ensures made { IfOk result IsWellMade }
    {
        self.came_to(alloc)
    }

    // The same, by a reference: nothing of the world is dropped on the way.
    fn came_to(&self, alloc: Global) -> Result<Outcome, AllocError>
        ensures outcome { IfOk result (λ o. o ≡ outcome_of self.now.world) }
        ensures made { IfOk result IsWellMade }
    {
        let entries = self.history.entries(alloc)?;
        outcome_of(alloc, entries, self.control.shown(), self.control.dropped())
    }

    fn driver_turn(&mut self, number: u8) -> Turned
        ensures { HasTurned (who.Driver number) self.old self.new result }
    {
        if number as usize >= self.drivers.len() {
            return Turned::Rest;
        }
        drive(&mut self.drivers[number as usize], &mut self.control)
    }

    fn back_turn(&mut self, id: u32) -> Turned
        ensures { HasTurned (who.Back id) self.old self.new result }
    {
        vi_backend::laws::wishes_agree();
        let Some(place) = place_of(&self.backs, id) else {
            return Turned::Waiting;
        };
        match wished_page(&self.backs[place]) {
            Some(page) => {
                let bytes = &mut self.pages[page as usize];
                let done = reach(&mut self.backs[place], bytes);
                self.history
                    .push(done.mark, bytes.read(done.from, done.len));
                Turned::Moved
            }
            None => converse(
                &mut self.control,
                place as u32,
                &mut self.backs[place],
                &Free,
            ),
        }
    }

    fn device_turn(&mut self) -> Turned
        ensures { HasTurned who.Device self.old self.new result }
    {
        let served = serve(&mut self.control, &Free);
        if let Some(mark) = served.mark {
            self.history.push(mark, self.control.answered());
        }
        served.turned
    }

    fn reader_turn(&mut self) -> Turned
        ensures { HasTurned who.Events self.old self.new result }
    {
        let events = has_events(&self.script);
        read_event(&mut self.control, events)
    }
}

/// The place of the back end with this id.
fn place_of(backs: &[Backend], id: u32) -> Option<usize>
    ensures { result ≡ position (λ b. b.id == id) backs.now }
{
    backs.iter().position(|back| back.id() == id)
}

/// The page of the memory that the back end wishes to access, if it wishes that.
fn wished_page(back: &Backend) -> Option<u64>
    ensures { result ≡ wished_page (own_wish back.now) }
{
    match back.next() {
        Wish::Access(page) => Some(page),
        Wish::Ask(_) | Wish::Receive | Wish::Rest => None,
    }
}

/// Whether these drivers have finished all their lines.
fn are_drivers_finished(drivers: &[Driver]) -> bool
    ensures { result ≡ list_all (λ d. driver.is_finished d) drivers.now }
{
    drivers.iter().all(|driver| driver.is_finished())
}

/// Whether these back ends have.
fn are_backs_finished(backs: &[Backend]) -> bool
    ensures { result ≡ list_all (λ b. back.is_finished b) backs.now }
{
    backs.iter().all(|back| back.is_finished())
}

/// Whether the script has an event reader.
fn has_events(script: &Script) -> bool
    ensures { result ≡ script.now.setup.events }
{
    script.setup.events
}
