//! A part of a line on its page.
ghost use Rattle.std.specs.Prelude.{◌≡◌, ◌≤◌, ◌+◌, ◌/◌, ◌%◌, ℕ, IfSome, take, drop, true};
ghost use Rattle.std.specs.Option.{option_map};
ghost use Rattle.vi_bytes.specs.Leases.{has_page};
ghost use Rattle.vi_history.specs.Translation.{permits};
ghost use Rattle.vi_history.specs.declared.call.Caller.{Caller};
ghost use Rattle.vi_lines.specs.Calls.{TransfersWell, parts_of, back_call};
ghost use Rattle.vi_model.specs.Backs.{access_in, work_page, work_answer};
ghost use Rattle.vi_model.specs.Starts.{entry_of};
ghost use Rattle.vi_backend.specs.Own.{IsGrantedLease};
ghost use Rattle.vi_backend.specs.Aims.{aim_of, aim_frame, aim_wish};

use crate::{Done, Wish};
use vi_bytes::{Lease, Need, PAGE, Part, cut, page_of};
use vi_history::{Caller, Kind, Mark};
use vi_iotlb::Frame;
use vi_lines::Job;
use vi_memory::Page;

/// The addresses of a part, and what they are needed for.
#[derive(Clone, Copy, Debug, PartialEq, Eq)]
pub struct Aim {
    pub part: Part,
    pub need: Need,
}

/// The aim of a part of a transfer, from 1.
pub fn aim_at(job: &Job, part: u32) -> Option<Aim>
    requires transfer { TransfersWell job.now }
    requires first { 1 ≤ part }
    requires last { part ≤ parts_of job.now }
    ensures { (id : ℕ) → result ≡ option_map aim_of (access_in (back_call id job.now part)) }
{
    match job {
        Job::Read { iova, len } => Some(Aim {
            part: cut(*iova, *len, part),
            need: Need::Read,
        }),
        Job::Write { iova, bytes } => Some(Aim {
            part: cut(*iova, bytes.len() as u32, part),
            need: Need::Write,
        }),
        Job::Ask(_) | Job::Raw { .. } | Job::Bypass(_) => None,
    }
}

impl Aim {
    /// The frame that asks for it: an `AccessFail` where a cached lease has its page.
    fn frame(&self, fail: bool) -> Frame
        ensures { result ≡ aim_frame self.now fail }
    {
        let Part { iova, len } = self.part;
        if fail {
            Frame::AccessFail {
                iova,
                len,
                need: self.need,
            }
        } else {
            Frame::Miss {
                iova,
                len,
                need: self.need,
            }
        }
    }

    /// The wish where the cache has this lease of its page.
    pub fn wish(&self, lease: Option<Lease>) -> Wish
        requires { IfSome lease (λ l. IsGrantedLease l × (has_page l (self.now.part.iova / PAGE) ≡ true)) }
        ensures { result ≡ aim_wish self.now lease }
    {
        match lease {
            None => Wish::Ask(self.frame(false)),
            Some(lease) => {
                if permits(self.need, lease.perm) {
                    Wish::Access(lease.target + (page_of(self.part.iova) - lease.page))
                } else {
                    Wish::Ask(self.frame(true))
                }
            }
        }
    }
}

/// Whether the permission covers the need.
fn permits(need: Need, perm: u8) -> bool
    ensures { result ≡ permits need perm }
{
    match need {
        Need::Read => perm % 2 == 1,
        Need::Write => perm / 2 % 2 == 1,
    }
}

/// Does a part of a transfer, from 1, on its page.
pub fn transfer(job: &Job, endpoint: u32, line: u32, part: u32, page: &mut Page) -> Done
    requires transfer { TransfersWell job.now }
    requires first { 1 ≤ part }
    requires last { part ≤ parts_of job.now }
    ensures page { IfSome (access_in (back_call endpoint job.now part))
        (λ a. page.new ≡ work_page page.old a.part a.work) }
    ensures mark { IfSome (access_in (back_call endpoint job.now part))
        (λ a. result.mark ≡ (entry_of (Caller.Back endpoint) line part (work_answer page.old a.part a.work)).mark) }
    ensures bytes { IfSome (access_in (back_call endpoint job.now part))
        (λ a. take result.len (drop result.from page.old) ≡ (entry_of (Caller.Back endpoint) line part (work_answer page.old a.part a.work)).bytes) }
    ensures within { result.from + result.len ≤ PAGE }
    ensures stays { take result.len (drop result.from page.new) ≡ take result.len (drop result.from page.old) }
{
    match job {
        Job::Read { iova, len } => {
            let part_at = cut(*iova, *len, part);
            Done {
                mark: mark(endpoint, line, part, Kind::Read),
                from: offset(part_at.iova),
                len: part_at.len,
            }
        }
        Job::Write { iova, bytes } => {
            let part_at = cut(*iova, bytes.len() as u32, part);
            let from = (part_at.iova - *iova) as usize;
            let start = offset(part_at.iova);
            page.write(start, &bytes.as_slice()[from..from + part_at.len as usize]);
            Done {
                mark: mark(endpoint, line, part, Kind::Wrote),
                from: start,
                len: 0,
            }
        }
        Job::Ask(_) | Job::Raw { .. } | Job::Bypass(_) => Done {
            mark: mark(endpoint, line, part, Kind::Nothing),
            from: 0,
            len: 0,
        },
    }
}

/// The offset of an address in its page.
fn offset(address: u64) -> u32
    ensures { result ≡ address % PAGE }
{
    (address % PAGE) as u32
}

/// The mark of a part of a back end's line.
fn mark(endpoint: u32, line: u32, part: u32, kind: Kind) -> Mark
    ensures { result ≡ record { caller = Caller.Back endpoint; line = line; part = part; kind = kind; code = 0 } }
{
    Mark {
        caller: Caller::Back(endpoint),
        line,
        part,
        kind,
        code: 0,
    }
}
