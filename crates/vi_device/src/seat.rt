//! The domain of one endpoint.
ghost use Rattle.std.specs.Prelude.{◌≡◌};
ghost use Rattle.vi_history.specs.Device.{is_in};

use vi_bytes::Membership;

/// An endpoint's id and the domain that it is in.
#[derive(Clone, Copy)]
pub struct Seat {
    pub id: u32,
    pub domain: Membership,
}

impl Seat {
    /// Whether the endpoint is attached to this domain.
    pub fn is_in(&self, domain: u32) -> bool
        ensures { result ≡ is_in domain self.now.domain }
    {
        match self.domain {
            Membership::Unattached => false,
            Membership::Member(id) => id == domain,
        }
    }
}
