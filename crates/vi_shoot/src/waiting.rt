//! Which back ends a removal waits for.
ghost use Rattle.std.specs.Prelude.{◌≡◌, ◌<◌};
ghost use Rattle.vi_shoot.specs.Waits.{nobody, is_awaited, is_nobody, awaiting, not_awaiting};

/// For each place of an endpoint, whether its back end is waited for. The places are numbered in
/// the order in which the endpoints are declared, from 0, and there are at most 16.
#[derive(Clone, Copy, Debug, PartialEq, Eq)]
pub struct Waiting(pub [bool; 16]);

impl Waiting {
    /// No back end is waited for.
    pub fn none() -> Waiting
        ensures { result ≡ nobody }
    {
        Waiting([false; 16])
    }

    /// Whether no back end is waited for.
    pub fn is_none(&self) -> bool
        ensures { result ≡ is_nobody self.now }
    {
        self.0.iter().all(|awaited| !*awaited)
    }

    /// Whether the back end of this place is waited for. It never is at 16 or above.
    pub fn has(&self, place: u32) -> bool
        ensures { result ≡ is_awaited place self.now }
    {
        place < 16 && self.0[place as usize]
    }

    /// The back end of this place is waited for, too.
    pub fn set(&mut self, place: u32)
        requires { place < 16 }
        ensures { self.new ≡ awaiting place self.old }
    {
        self.0[place as usize] = true;
    }

    /// The back end of this place is not waited for any more.
    pub fn clear(&mut self, place: u32)
        requires { place < 16 }
        ensures { self.new ≡ not_awaiting place self.old }
    {
        self.0[place as usize] = false;
    }
}
