//! The parked frames.
ghost use Rattle.std.specs.Prelude.{◌≡◌, ◌<◌, Some, None, IfSome, length, replicate, slice_index_or, slice_set};
ghost use Rattle.vi_parked.specs.Asking.{IsAsking, AreAsking};

use std::marker::Model;
use vi_iotlb::Frame;

/// For each place of a back end, 0 to 15, the miss or the access fail that is parked, if one is. No
/// call takes memory.
#[derive(Debug, Drop)]
pub struct Parked {
    frames: [Option<Frame>; 16],
}

impl Model for Parked {
    ghost use Rattle.std.specs.Prelude.{List, Option};
    ghost use Rattle.vi_iotlb.specs.declared.frame.Frame.{Frame};
    ghost use Rattle.vi_parked.specs.Asking.{AreAsking};

    ghost Value = { List (Option Frame) };

    ghost view = { λ p. p.frames };

    ghost invariant = { λ p. AreAsking p.frames };
}

impl Parked {
    /// Nothing is parked.
    pub fn new() -> Parked
        ensures { result ≡ replicate 16 None }
    {
        Parked { frames: [None; 16] }
    }

    /// A miss or an access fail of this back end is parked.
    #[tactic(auto, using(crate::proofs::Places::asking_places))]
    pub fn park(&mut self, place: u32, frame: Frame)
        requires place { place < 16 }
        requires free { slice_index_or self.old place None ≡ None }
        requires asking { IsAsking frame }
        ensures parked { self.new ≡ slice_set self.old place (Some frame) }
        ensures places { length self.new ≡ 16 }
        ensures asking { AreAsking self.new }
    {
        self.frames[place as usize] = Some(frame);
    }

    /// What is parked there, or `None` where nothing is.
    #[tactic(auto, using(crate::proofs::Places::asking_places))]
    pub fn peek(&self, place: u32) -> Option<Frame>
        requires { place < 16 }
        ensures parked { result ≡ slice_index_or self.now place None }
        ensures asking { IfSome result IsAsking }
        ensures places { length self.now ≡ 16 }
        ensures all_asking { AreAsking self.now }
    {
        self.frames[place as usize]
    }

    /// What is parked there, or `None` where nothing is. Nothing is afterwards.
    #[tactic(auto, using(crate::proofs::Places::asking_places))]
    pub fn take(&mut self, place: u32) -> Option<Frame>
        requires { place < 16 }
        ensures parked { result ≡ slice_index_or self.old place None }
        ensures rest { self.new ≡ slice_set self.old place None }
        ensures asking { IfSome result IsAsking }
        ensures places { length self.new ≡ 16 }
        ensures all_asking { AreAsking self.new }
    {
        let frame = self.frames[place as usize];
        self.frames[place as usize] = None;
        frame
    }
}
