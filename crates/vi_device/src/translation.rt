//! Where an address of an endpoint leads.
ghost use Rattle.std.specs.Prelude.{◌≡◌, ◌<◌, ◌≤◌, ◌^◌, Some, IfSome, length};
ghost use Rattle.vi_history.specs.Translation.{translate, lease, look, look_by, look_in_domain, permits, is_in_memory};
ghost use Rattle.vi_history.specs.Replies.{properties};
ghost use Rattle.vi_device.specs.Aims.{look_seen, HasFlags};
ghost use Rattle.vi_device.specs.Kept.{domain_seen};
ghost use Rattle.vi_device.specs.Seated.{endpoint_at};
ghost use Rattle.vi_device.specs.Values.{id_at};

use crate::Device;
use crate::aim::Aim;
use crate::held::Held;
use vi_bytes::{Lease, Mapping, Membership, Need, PAGE};
use vi_history::Found;
use vi_history::reason::{DOMAIN, MAPPING, UNKNOWN};

impl Device {
    /// The translation of an address for an endpoint and a need: the guest physical address, or the
    /// reason of the fault (Virtio 1.2, 5.13.2 and 5.13.6.9).
    pub fn translate(&self, place: u32, address: u64, need: Need) -> Found
        requires { place < length self.now.dev.endpoints }
        ensures { result ≡ translate self.now.dev (id_at self.now.dev place) address need }
    {
        match self.look(place, address) {
            Aim::Leads(target, flags) => {
                if !permits(need, flags) {
                    Found::Fault(MAPPING)
                } else if !self.has_in_memory(target) {
                    Found::Fault(UNKNOWN)
                } else {
                    Found::At(target)
                }
            }
            Aim::Nowhere(reason) => Found::Fault(reason),
        }
    }

    /// The lease of one page of an endpoint: its target page and the permitted needs. `None` where
    /// both needs fault at its first address. Pages are those of addresses below 2^64.
    pub fn lease(&self, place: u32, page: u64) -> Option<Lease>
        requires place_in { place < length self.now.dev.endpoints }
        requires page { page < 2 ^ 52 }
        ensures lease { result ≡ lease self.now.dev (id_at self.now.dev place) page }
        ensures permission { IfSome result (λ l. (1 ≤ l.perm) × (l.perm ≤ 3)) }
    {
        match self.look(place, PAGE * page) {
            Aim::Leads(target, flags) => {
                if self.has_in_memory(target) && flags % 4 != 0 {
                    Some(Lease {
                        page,
                        count: 1,
                        target: target / PAGE,
                        perm: flags as u8,
                    })
                } else {
                    None
                }
            }
            Aim::Nowhere(_) => None,
        }
    }

    /// The 512 bytes of the endpoint's properties (Virtio 1.2, 5.13.6.8), which are zeros for an
    /// unknown endpoint.
    #[tactic(auto, unfolding(vi_history::specs::Replies::properties, vi_history::specs::Replies::no_properties))]
    pub fn properties(&self, endpoint: u32) -> [u8; 512]
        ensures { result ≡ properties self.now.dev endpoint }
    {
        match self.endpoints.find(endpoint) {
            None => [0; 512],
            Some(place) => vi_prop::encode(self.endpoints.regions(place)),
        }
    }

    // What the address is found to be for the endpoint.
    fn look(&self, place: u32, address: u64) -> Aim
        requires { place < length self.now.dev.endpoints }
        ensures aim { look_seen result ≡ look self.now.dev (id_at self.now.dev place) address }
        ensures flags { HasFlags result }
    {
        self.look_by(place, address, self.endpoints.domain(place))
    }

    // What the address is found to be for the endpoint, which is in this domain or in none.
    fn look_by(&self, place: u32, address: u64, membership: Membership) -> Aim
        requires { place < length self.now.dev.endpoints }
        ensures aim { look_seen result ≡ look_by self.now.dev address (endpoint_at self.now.dev.endpoints place).regions membership }
        ensures flags { HasFlags result }
    {
        match membership {
            Membership::Unattached => if self.bypass {
                Aim::Leads(address, 3)
            } else {
                Aim::Nowhere(DOMAIN)
            },
            Membership::Member(domain) => match self.domains.find(domain) {
                None => Aim::Nowhere(DOMAIN),
                Some(held) => self.look_in_domain(place, address, held),
            },
        }
    }

    // What the address is found to be for the endpoint, which is in this domain.
    fn look_in_domain(&self, place: u32, address: u64, held: &Held) -> Aim
        requires { place < length self.now.dev.endpoints }
        ensures aim { look_seen result ≡ look_in_domain address (endpoint_at self.now.dev.endpoints place).regions (Some (domain_seen held.now)) }
        ensures flags { HasFlags result }
    {
        if held.bypass {
            return Aim::Leads(address, 3);
        }
        if self.endpoints.keeps(place, address) {
            return Aim::Nowhere(MAPPING);
        }
        match held.table.find(address) {
            None => Aim::Nowhere(MAPPING),
            Some(m) => Aim::Leads(m.target + (address - m.span.first), m.flags),
        }
    }

    // Whether the address lies in one of the memory's pages.
    fn has_in_memory(&self, address: u64) -> bool
        ensures { result ≡ is_in_memory self.now.dev.pages address }
    {
        address / PAGE < u64::from(self.pages)
    }
}

// Whether these flags of a MAP permit the need.
fn permits(need: Need, flags: u32) -> bool
    ensures { result ≡ permits need flags }
{
    match need {
        Need::Read => flags % 2 == 1,
        Need::Write => flags / 2 % 2 == 1,
    }
}
