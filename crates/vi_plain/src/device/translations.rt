//! Where an address of an endpoint leads (Virtio 1.2, 5.13.2 and 5.13.6.9).
ghost use Rattle.std.specs.Prelude.{◌≡◌};
ghost use Rattle.vi_history.specs.Device.{domain_of};
ghost use Rattle.vi_history.specs.Translation.{Leads, permits, look_in_domain, look_by, found_for, translate};
ghost use Rattle.vi_plain.specs.Kept.{KeepsOffset};

use crate::device::Device;
use crate::endpoint::Endpoint;
use vi_bytes::{Membership, Need, page_of};
use vi_history::Found;
use vi_history::reason::{DOMAIN, MAPPING, UNKNOWN};

// The flags of a mapping that permits both needs.
const BOTH: u32 = 3;

// Whether flags permit a need: bit 0 permits reading, bit 1 writing.
fn permits_need(need: Need, flags: u32) -> bool
    ensures { result ≡ permits need flags }
{
    match need {
        Need::Read => flags % 2 == 1,
        Need::Write => flags / 2 % 2 == 1,
    }
}

impl Device {
    /// The translation of an address for the endpoint of this id and a need.
    #[tactic(auto, unfolding(vi_history::specs::Translation::look))]
    pub fn translate(&self, endpoint: u32, address: u64, need: Need) -> Found
        ensures found { result ≡ translate self.now endpoint address need }
        ensures offset { KeepsOffset self.now.pages address result }
    {
        match self.endpoint(endpoint) {
            None => Found::Fault(DOMAIN),
            Some(x) => self.translate_for(x, address, need),
        }
    }

    // By the bypass field for an endpoint in no domain, else in its domain.
    fn translate_for(&self, x: &Endpoint, address: u64, need: Need) -> Found
        ensures found { result ≡ found_for self.now.pages need (look_by self.now address x.now.regions x.now.domain) }
        ensures offset { KeepsOffset self.now.pages address result }
    {
        match x.membership() {
            Membership::Unattached => {
                if self.bypass {
                    self.arrive(address, BOTH, need)
                } else {
                    Found::Fault(DOMAIN)
                }
            }
            Membership::Member(domain) => self.translate_in(domain, x, address, need),
        }
    }

    // By a bypass domain; not at all in a region of the endpoint; else by the domain's mappings.
    fn translate_in(&self, domain: u32, x: &Endpoint, address: u64, need: Need) -> Found
        ensures found { result ≡ found_for self.now.pages need (look_in_domain address x.now.regions (domain_of self.now domain)) }
        ensures offset { KeepsOffset self.now.pages address result }
    {
        let Some(y) = self.domain(domain) else {
            return Found::Fault(DOMAIN);
        };
        if y.is_bypass() {
            return self.arrive(address, BOTH, need);
        }
        if x.keeps(address) {
            return Found::Fault(MAPPING);
        }
        match y.mapping_at(address) {
            None => Found::Fault(MAPPING),
            Some(m) => self.arrive(m.target + (address - m.span.first), m.flags, need),
        }
    }

    // At a target that these flags permit: the need may be another, or the target outside the memory.
    fn arrive(&self, target: u64, flags: u32, need: Need) -> Found
        ensures found { result ≡ found_for self.now.pages need (Leads target flags) }
        ensures offset { KeepsOffset self.now.pages target result }
    {
        if !permits_need(need, flags) {
            Found::Fault(MAPPING)
        } else if page_of(target) >= u64::from(self.pages) {
            Found::Fault(UNKNOWN)
        } else {
            Found::At(target)
        }
    }
}
