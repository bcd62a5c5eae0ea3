//! What the device writes to a request's writable part.
ghost use Rattle.std.specs.Prelude.{◌≡◌, ◌++◌};
ghost use Rattle.vi_history.specs.Replies.{probed_answer};
ghost use Rattle.vi_calls.specs.Replies.{AreAnswer, answer_of, tail_bytes};

// The size of the properties of a PROBE.
const PROPERTIES_SIZE: usize = 512;

/// What the device replies to a request (Virtio 1.2, 5.13.6).
#[derive(Clone, Copy, Debug, PartialEq, Eq)]
pub enum Reply {
    /// Nothing is written: the bytes have no head, or there is too little room.
    Nothing,
    /// The status of a request other than PROBE.
    Status(u8),
    /// The status of a PROBE and the bytes of the endpoint's properties (Virtio 1.2, 5.13.6.7).
    Probed { status: u8, properties: [u8; 512] },
}

/// The tail with this status.
pub fn tail(status: u8) -> [u8; 4]
    ensures { result ≡ tail_bytes status }
{
    [status, 0, 0, 0]
}

/// The properties, and the tail with this status behind them.
pub fn probed(status: u8, properties: &[u8; 512]) -> [u8; 516]
    ensures bytes { result ≡ properties.now ++ tail_bytes status }
    ensures answer { answer_of result ≡ probed_answer status properties.now }
    ensures whole { AreAnswer result }
{
    let mut bytes = [0; 516];
    bytes[..PROPERTIES_SIZE].copy_from_slice(properties);
    bytes[PROPERTIES_SIZE] = status;
    bytes
}
