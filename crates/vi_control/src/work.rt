//! What the device does next.

/// The device's next work, the first of these that applies.
#[derive(Clone, Copy, Debug, PartialEq, Eq)]
pub enum Work {
    /// The removal that began first of those that wait for nobody is finished.
    Finish,
    /// The parked miss of the back end at this place is served; its page is closed no more.
    Parked(u32),
    /// A frame of the back end at this place is served.
    Frame(u32),
    /// The next request of the queue is started.
    Request,
    /// The bypass setting of this driver is started.
    Bypass(u8),
    /// There is no work.
    Idle,
}
