//! The device's next work.
ghost use Rattle.std.specs.Prelude.{◌≡◌, IsTrue, ◌≤◌, None, length};
ghost use Rattle.std.specs.List.{list_any};
ghost use Rattle.vi_model.specs.Removals.{is_ready};
ghost use Rattle.vi_lines.specs.Value.{ScriptValue};
ghost use Rattle.vi_model.specs.Device.{device_turn};
ghost use Rattle.vi_control.specs.declared.work.Work.TheVariants.{Finish, Idle};
ghost use Rattle.vi_control.specs.Plan.{plan_of};
ghost use Rattle.vi_control.specs.Work.{work_of, setting_work};
ghost use Rattle.vi_control.specs.Cascade.{work_in};
ghost use Rattle.vi_control.specs.Granting.{AreSeated};

use crate::places::{first_frame, first_free};
use crate::{Control, Work};
use vi_calls::Calls;
use vi_device::Device;
use vi_lanes::Lanes;
use vi_removals::Removals;

impl Control {
    /// What the device does next, and `Idle` where it has to wait.
    pub fn next(&self) -> Work
        ensures work { (s : ScriptValue) → plan_of s ≡ self.now.plan → result ≡ work_of s self.now.state }
        ensures ready { result ≡ Finish → IsTrue (list_any is_ready self.now.state.removals) }
        ensures idle { result ≡ Idle → (s : ScriptValue) → plan_of s ≡ self.now.plan → device_turn s self.now.state ≡ None }
    {
        next_work(&self.device, &self.calls, &self.removals, &self.lanes)
    }
}

// The first of the five that applies.
fn next_work(device: &Device, calls: &Calls, removals: &Removals, lanes: &Lanes) -> Work
    requires seated { AreSeated device.now.dev removals.now }
    requires lanes { length removals.now.ids ≤ length lanes.now.mail }
    ensures { result ≡ work_in device.now.dev calls.now removals.now lanes.now }
{
    if removals.is_ready() {
        return Work::Finish;
    }
    if let Some(place) = first_free(device, removals, lanes) {
        return Work::Parked(place);
    }
    if let Some(place) = first_frame(lanes, device.endpoints() as u32) {
        return Work::Frame(place);
    }
    if !calls.is_empty() {
        return Work::Request;
    }
    setting_work(calls.setting())
}

// The setting of the lowest driver that left one.
fn setting_work(setting: Option<u8>) -> Work
    ensures { result ≡ setting_work setting }
{
    match setting {
        None => Work::Idle,
        Some(driver) => Work::Bypass(driver),
    }
}
