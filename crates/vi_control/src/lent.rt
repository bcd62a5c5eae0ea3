//! What the control shows and lends.
ghost use Rattle.std.specs.Prelude.{◌≡◌, ◌-◌, ◌↔◌, [], drop, length, map, slice_get, is_some, Some, IfSome, IsNone, IsTrue};
ghost use Rattle.std.specs.Option.{option_map};
ghost use Rattle.vi_events.specs.Buffers.{AreHeld, lists_in};
ghost use Rattle.vi_lanes.specs.Frames.{lanes_frames};
ghost use Rattle.vi_config.specs.Space.{config_bytes};
ghost use Rattle.vi_control.specs.Inner.{config_of};
ghost use Rattle.vi_control.specs.Queue.{ShowsState};
ghost use Rattle.vi_control.specs.Value.{with_state};
ghost use Rattle.vi_control.specs.Calls.{without_oldest};

use crate::Control;
use vi_history::Shown;
use vi_mail::Mail;
use vi_vring::Ring;

impl Control {
    /// The 512 bytes of properties where the last entry of the device is a PROBE's, and else nothing.
    pub fn answered(&self) -> &[u8]
        ensures { result.now ≡ self.now.answered }
    {
        if self.probed {
            return &self.properties;
        }
        &[]
    }

    /// The 40 bytes of the configuration space (Virtio 1.2, 5.13.4).
    pub fn config(&self) -> &[u8; 40]
        ensures { result.now ≡ config_bytes (config_of self.now.state.dev) }
    {
        &self.config
    }

    /// The oldest fault record that nobody has read, or `None` where none is. Its buffer is given back to the device.
    pub fn take_event(&mut self) -> Option<[u8; 24]>
        ensures oldest { result ≡ option_map (λ x. x.bytes) (slice_get self.old.state.events.waiting 0) }
        ensures none { IsNone result ↔ (self.old.state.events.waiting ≡ []) }
        ensures rest { self.new ≡ with_state (without_oldest self.old.state) self.old }
    {
        self.events.take()
    }

    /// The fault records that were delivered, oldest first. `entry` is the number of the fault, from 1.
    pub fn shown(&self) -> &[Shown]
        ensures { result.now ≡ self.now.state.events.shown }
    {
        self.events.shown()
    }

    /// How many fault records were dropped for want of a buffer.
    pub fn dropped(&self) -> u32
        ensures { result ≡ self.now.state.events.dropped }
    {
        self.events.dropped()
    }

    /// The event queue: its used chains hold the records that nobody has read, oldest first.
    pub fn event_queue(&self) -> &Ring
        ensures known { result.now.lists ≡ Some (lists_in result.now) }
        ensures held { AreHeld (record { buffers = self.now.plan.buffers; records = map (λ x. x.bytes) self.now.state.events.waiting }) (lists_in result.now) }
    {
        self.events.queue()
    }

    /// The request queue (Virtio 1.2, 5.13.2): its available chains are the requests that wait, the popped ones those
    /// that the device took and has not answered, which open removals name, and the used ones have the answers that
    /// nobody has collected.
    pub fn request_queue(&self) -> &Ring
        ensures known { IsTrue (is_some result.now.lists) }
        ensures shows { IfSome result.now.lists (ShowsState self.now.state) }
    {
        self.calls.queue()
    }

    /// The frames under way.
    pub fn mail(&self) -> &Mail
        ensures { result.now ≡ record { rows = map lanes_frames self.now.state.mail; slots = 8 } }
    {
        self.lanes.mail()
    }
}
