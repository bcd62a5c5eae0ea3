//! What a driver asks the device for.
use vi_history::Reading;

/// What a driver's call comes to for the device.
#[derive(Clone, Copy, Debug, PartialEq, Eq)]
pub enum Task {
    /// The bytes of a request come to this (Virtio 1.2, 5.13.6).
    Reads(Reading),
    /// The bypass field of the configuration is set to this (Virtio 1.2, 5.13.4).
    Sets(bool),
}
