//! The device serves what back ends send.
ghost use Rattle.std.specs.Prelude.{◌≡◌, ◌<◌, [], Some, length, is_some, IsTrue};
ghost use Rattle.vi_lines.specs.Value.{ScriptValue};
ghost use Rattle.vi_model.specs.Control.{link_of};
ghost use Rattle.vi_model.specs.Device.{serve_parked, serve_up};
ghost use Rattle.vi_control.specs.Plan.{plan_of};
ghost use Rattle.vi_control.specs.Rooms.{HasRoom};
ghost use Rattle.vi_control.specs.Value.{made_by, IsDeviceTurn};
ghost use Rattle.vi_control.specs.Work.{work_of, Serves};

use crate::Control;
use crate::places::{first_frame, first_free};
use vi_history::Mark;

impl Control {
    /// The parked miss of the lowest place whose page isn't closed any more is served, or else the oldest frame of the
    /// lowest place that has one, an Ack before a Miss: the work that `next` answered. The mark is of an access that
    /// faults.
    pub fn serve(&mut self) -> Option<Mark>
        requires room { HasRoom self.old }
        requires work { (s : ScriptValue) → plan_of s ≡ self.old.plan → Serves (work_of s self.old.state) }
        ensures turn { IsDeviceTurn self.old self.new result }
        ensures plan { self.new.plan ≡ self.old.plan }
    {
        self.probed = false;
        if let Some(place) = first_free(&self.device, &self.removals, &self.lanes) {
            return self.serve_parked(place);
        }
        let place = first_frame(&self.lanes, self.device.endpoints() as u32)?;
        if self.lanes.has_ack(place) {
            self.serve_ack(place);
            return None;
        }
        self.serve_up(place)
    }

    // The parked miss of the back end at this place is served.
    fn serve_parked(&mut self, place: u32) -> Option<Mark>
        requires place { place < length self.old.plan.ids }
        requires answered { self.old.answered ≡ [] }
        requires room { HasRoom self.old }
        requires there { IsTrue (is_some (link_of self.old.state place).parked) }
        ensures turn { (s : ScriptValue) → plan_of s ≡ self.old.plan → serve_parked s self.old.state place (link_of self.old.state place).parked ≡ Some (made_by self.new result) }
        ensures plan { self.new.plan ≡ self.old.plan }
    {
        let miss = self.lanes.unpark(place)?;
        self.serve_miss(place, &miss)
    }

    // The oldest miss of the back end at this place that is on its way up is served.
    fn serve_up(&mut self, place: u32) -> Option<Mark>
        requires place { place < length self.old.plan.ids }
        requires answered { self.old.answered ≡ [] }
        requires room { HasRoom self.old }
        requires there { 0 < length (link_of self.old.state place).up }
        ensures turn { (s : ScriptValue) → plan_of s ≡ self.old.plan → serve_up s self.old.state place (link_of self.old.state place).up ≡ Some (made_by self.new result) }
        ensures plan { self.new.plan ≡ self.old.plan }
    {
        let miss = self.lanes.take_miss(place)?;
        self.serve_miss(place, &miss)
    }
}
