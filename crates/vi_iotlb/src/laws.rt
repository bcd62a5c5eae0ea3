//! What holds of frames and their bytes, each as the contract of a function that does nothing.
ghost use Rattle.std.specs.Prelude.{◌≡◌, ℕ, List, length};
ghost use Rattle.vi_iotlb.specs.Frames.{IsSendable, frame_bytes, frame_length, ReadAs};
ghost use Rattle.vi_iotlb.specs.declared.frame.Frame.{Frame};

/// The bytes that are written for a frame read as that frame. A message has 44 bytes, and a reply
/// 20.
pub fn frames_read_back()
    ensures length { (frame : Frame) → length (frame_bytes frame) ≡ frame_length frame }
    ensures reads { (frame : Frame) → IsSendable frame → ReadAs (frame_bytes frame) frame }
{}

/// Bytes read as one frame at most, which can be sent.
pub fn frames_read_once()
    ensures one { (bytes : List ℕ) (f g : Frame) → ReadAs bytes f → ReadAs bytes g → f ≡ g }
    ensures sendable { (bytes : List ℕ) (frame : Frame) → ReadAs bytes frame → IsSendable frame }
{}
