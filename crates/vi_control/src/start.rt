//! The device starts and finishes what drivers ask for.
ghost use Rattle.std.specs.Prelude.{◌≡◌, ℕ, ◌<◌, ◌≤◌, ◌++◌, [], ◌∷◌, true, false, not, length, take, drop, Some, IsTrue, IfSome, IfNone};
ghost use Rattle.std.specs.List.{list_any, list_all};
ghost use Rattle.std.specs.Option.{option_map};
ghost use Rattle.vi_lines.specs.Value.{ScriptValue};
ghost use Rattle.vi_model.specs.Removals.{is_ready, first_ready, without_first};
ghost use Rattle.vi_model.specs.Starts.{tell};
ghost use Rattle.vi_lanes.specs.Value.{lanes_at};
ghost use Rattle.vi_removals.specs.Value.{removals_of, first_free, without_free, ready_of};
ghost use Rattle.vi_removals.specs.Takings.{IsTaking};
ghost use Rattle.vi_control.specs.Plan.{plan_of};
ghost use Rattle.vi_control.specs.Rooms.{HasRoom};
ghost use Rattle.vi_control.specs.Started.{opened_for, IsNext, HasNone};
ghost use Rattle.vi_control.specs.Value.{IsDeviceTurn};
ghost use Rattle.vi_control.specs.Work.{work_of, Starts};

use crate::Control;
use crate::answers::{answer, configure};
use crate::awaiting::{tell, whom};
use vi_calls::Calls;
use vi_history::Mark;
use vi_lanes::Lanes;
use vi_model::Task;
use vi_removals::{Ready, Removals};
use vi_shoot::{Token, Waiting};

impl Control {
    /// The removal that began first of those that wait for nobody is answered and takes effect. Where the mark is of a
    /// PROBE, `answered` has its properties.
    pub fn finish(&mut self) -> Mark
        requires room { HasRoom self.old }
        requires ready { IsTrue (list_any is_ready self.old.state.removals) }
        ensures turn { IsDeviceTurn self.old self.new (Some result) }
        ensures plan { self.new.plan ≡ self.old.plan }
    {
        let call = take_ready(&mut self.removals);
        configure(&mut self.config, &call.task);
        answer(
            &mut self.device,
            &mut self.calls,
            &mut self.properties,
            &mut self.probed,
            &call,
        )
    }

    /// The next request of the queue is started, or the setting of the lowest driver that left one: the work that `next`
    /// answered. A call that takes translations away which a back end may keep begins a removal, and then there is no
    /// mark; every other is answered.
    pub fn start(&mut self) -> Option<Mark>
        requires room { HasRoom self.old }
        requires work { (s : ScriptValue) → plan_of s ≡ self.old.plan → Starts (work_of s self.old.state) }
        ensures turn { IsDeviceTurn self.old self.new result }
        ensures plan { self.new.plan ≡ self.old.plan }
    {
        let call = next_call(&mut self.calls)?;
        match whom(&self.device, &self.removals, &self.grants, &call.task) {
            None => {
                configure(&mut self.config, &call.task);
                let mark = answer(
                    &mut self.device,
                    &mut self.calls,
                    &mut self.properties,
                    &mut self.probed,
                    &call,
                );
                Some(mark)
            }
            Some(waits) => {
                begin(
                    &mut self.removals,
                    &mut self.lanes,
                    &call,
                    &waits,
                    self.device.endpoints() as u32,
                );
                None
            }
        }
    }
}

// The first begun of the removals that wait for nobody leaves. As all removals, it takes translations away.
fn take_ready(removals: &mut Removals) -> Ready
    requires { IsTrue (list_any is_ready (removals_of removals.old)) }
    ensures first { Some result ≡ option_map ready_of (first_free removals.old.opened) }
    ensures left { removals.new ≡ record removals.old { opened = without_free removals.old.opened } }
    ensures removal { option_map (λ o. o.removal) (first_free removals.old.opened) ≡ first_ready (removals_of removals.old) }
    ensures removals { removals_of removals.new ≡ without_first (removals_of removals.old) }
    ensures taking { IsTaking removals.old.ids result.task }
{
    // Its contract says so of each removal.
    let _full = removals.is_full();
    removals.take_ready().unwrap()
}

// The call that is started next: the next request of the queue, or the setting of the lowest driver that left one.
fn next_call(calls: &mut Calls) -> Option<Ready>
    ensures next { IfSome result (IsNext calls.old calls.new) }
    ensures none { IfNone result (HasNone calls.old calls.new) }
{
    match calls.take() {
        Some(request) => Some(Ready {
            driver: request.driver,
            line: request.line,
            task: Task::Reads(request.reading),
            token: Token::Chain(request.head),
        }),
        None => next_setting(calls),
    }
}

fn next_setting(calls: &mut Calls) -> Option<Ready>
    requires { calls.old.queue ≡ [] }
    ensures next { IfSome result (IsNext calls.old calls.new) }
    ensures none { IfNone result (HasNone calls.old calls.new) }
{
    match calls.setting() {
        None => None,
        Some(driver) => {
            let setting = calls.take_setting(driver).unwrap();
            Some(Ready {
                driver,
                line: setting.line,
                task: Task::Sets(setting.on),
                token: Token::Setting {
                    driver,
                    line: setting.line,
                },
            })
        }
    }
}

// A removal begins, and whom it waits for is told.
fn begin(removals: &mut Removals, lanes: &mut Lanes, call: &Ready, waits: &Waiting, places: u32)
    requires room { length removals.old.opened < 8 }
    requires taking { IsTaking removals.old.ids call.now.task }
    requires someone { list_all not (take (length removals.old.ids) waits.now.0) ≡ false }
    requires beyond { list_all not (drop (length removals.old.ids) waits.now.0) ≡ true }
    requires ids { places ≡ length removals.old.ids }
    requires places { places ≡ length lanes.old.mail }
    requires down { (place : ℕ) → place < places → length (lanes_at place lanes.old).down ≤ 8 }
    ensures removals { removals.new ≡ record removals.old { opened = removals.old.opened ++ opened_for call.now (take (length removals.old.ids) waits.now.0) ∷ [] } }
    ensures lanes { lanes.new ≡ record lanes.old { mail = tell (opened_for call.now (take (length removals.old.ids) waits.now.0)).removal lanes.old.mail } }
{
    let span = removals.addresses(&call.task);
    tell(lanes, waits, places, &span);
    removals.begin(call.driver, call.line, call.task, waits, call.token);
}
