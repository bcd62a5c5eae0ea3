//! What drivers do with the control, and the posted numbers.
ghost use Rattle.std.specs.Prelude.{◌≡◌, ◌≤◌, ◌<◌, ◌+◌, None, length};
ghost use Rattle.vi_model.specs.Bounds.{open_calls};
ghost use Rattle.vi_model.specs.Control.{port_of};
ghost use Rattle.vi_model.specs.Drivers.{left, Chain, Switch, first_answer};
ghost use Rattle.vi_calls.specs.Collecting.{AreAnsweredOnce, collected_as, collected_into};
ghost use Rattle.vi_control.specs.Value.{with_state};
ghost use Rattle.vi_control.specs.Calls.{collected, IsCaller, posted_by, with_posted};

use crate::ids::place_of;
use crate::{Collected, Control};
use vi_history::Caller;

impl Control {
    /// A driver's line is queued as a request: its device-readable bytes, and the size of its device-writable part
    /// (Virtio 1.2, 5.13.6).
    pub fn submit(&mut self, driver: u8, line: u32, read: &[u8], write: u32)
        requires driver { driver < 8 }
        requires read { length read.now ≤ 1024 }
        requires write { write ≤ 1024 }
        requires some { 0 < length read.now + write }
        requires room { open_calls self.old.state < 8 }
        ensures { self.new ≡ with_state (left self.old.state driver line (Chain read.now write)) self.old }
    {
        self.calls.submit(driver, line, read, write);
    }

    /// A driver's line leaves a setting of the bypass field for the device (Virtio 1.2, 5.13.4).
    pub fn set_bypass(&mut self, driver: u8, line: u32, on: bool)
        requires driver { driver < 8 }
        requires free { (port_of self.old.state driver).setting ≡ None }
        ensures { self.new ≡ with_state (left self.old.state driver line (Switch on)) self.old }
    {
        self.calls.leave(driver, line, on);
    }

    /// A driver collects its answered line of the lowest number. What the device wrote to a request is copied to the
    /// front of `out`, and the rest of `out` stays. `NotYet` where no line of it is answered, and then nothing changes.
    pub fn collect(&mut self, driver: u8, out: &mut [u8; 1024]) -> Collected
        requires driver { driver < 8 }
        requires once { AreAnsweredOnce (port_of self.old.state driver).answered }
        ensures line { result ≡ collected_as (first_answer (port_of self.old.state driver).answered) }
        ensures bytes { out.new ≡ collected_into (first_answer (port_of self.old.state driver).answered) out.old }
        ensures rest { self.new ≡ with_state (collected driver self.old.state) self.old }
    {
        self.calls.collect(driver, out)
    }

    /// So many of the caller's first lines are finished.
    pub fn post(&mut self, caller: Caller, lines: u32)
        requires { IsCaller self.old.plan.ids caller }
        ensures { self.new ≡ with_state (with_posted self.old.plan.ids caller lines self.old.state) self.old }
    {
        match caller {
            Caller::Driver(driver) => self.calls.post(driver, lines),
            Caller::Back(id) => {
                let place = place_of(self.removals.ids(), id);
                self.posted[place as usize] = lines;
            }
        }
    }

    /// How many of the caller's first lines are finished, as was last posted.
    pub fn posted(&self, caller: Caller) -> u32
        requires { IsCaller self.now.plan.ids caller }
        ensures { result ≡ posted_by self.now.plan.ids self.now.state caller }
    {
        match caller {
            Caller::Driver(driver) => self.calls.posted(driver),
            Caller::Back(id) => {
                let place = place_of(self.removals.ids(), id);
                self.posted[place as usize]
            }
        }
    }
}
