//! What a line of a script does.
ghost use Rattle.std.specs.Prelude.{◌≡◌, ◌≤◌, IfOk};
ghost use Rattle.vi_lines.specs.Calls.{TransfersWell, parts_of, driver_call, back_call};
ghost use Rattle.vi_lines.specs.Limits.{transferred};

use std::alloc::{AllocError, Global};
use vi_bytes::{Bytes, cut, parts};
use vi_history::{Call, Request};

/// What a line of a script asks for or transfers.
#[derive(Debug, Drop)]
pub enum Job {
    /// A driver's request.
    Ask(Request),
    /// A driver's request of these readable bytes with so many writable ones.
    Raw { read: Bytes, write: u32 },
    /// A driver sets the bypass field.
    Bypass(bool),
    /// A back end reads `len` bytes from the address `iova` on.
    Read { iova: u64, len: u32 },
    /// A back end writes these bytes from the address `iova` on.
    Write { iova: u64, bytes: Bytes },
}

impl Job {
    /// How many parts the job's transfer has, one a page; 0 for a job of a driver. A transfer has 1 to
    /// 65536 bytes, and its last address is at most 2^64 - 1.
    pub fn parts(&self) -> u32
        requires { TransfersWell self.now }
        ensures { result ≡ parts_of self.now }
    {
        match self {
            Job::Read { iova, len } => parts(*iova, *len),
            Job::Write { iova, bytes } => parts(*iova, bytes.len() as u32),
            Job::Ask(_) | Job::Raw { .. } | Job::Bypass(_) => 0,
        }
    }

    /// How many bytes the job transfers.
    pub fn transferred(&self) -> u64
        ensures { result ≡ transferred self.now }
    {
        match self {
            Job::Read { len, .. } => u64::from(*len),
            Job::Write { bytes, .. } => bytes.len() as u64,
            Job::Ask(_) | Job::Raw { .. } | Job::Bypass(_) => 0,
        }
    }

    /// The call of a driver's job, `None` for a transfer. An error means out of memory.
    pub fn ask(&self, alloc: Global) -> Result<Option<Call>, AllocError>
        ensures { IfOk result (λ call. call ≡ driver_call self.now) }
    {
        match self {
            Job::Ask(request) => Ok(Some(Call::Ask(*request))),
            Job::Raw { read, write } => {
                let read = Bytes::of(alloc, read.as_slice())?;
                Ok(Some(Call::Raw {
                    read,
                    write: *write,
                }))
            }
            Job::Bypass(on) => Ok(Some(Call::Bypass(*on))),
            Job::Read { .. } | Job::Write { .. } => Ok(None),
        }
    }

    /// The access of a part, from 1, of an endpoint's transfer, `None` for a job of a driver. An error
    /// means out of memory.
    pub fn access(
        &self,
        alloc: Global,
        endpoint: u32,
        part: u32,
    ) -> Result<Option<Call>, AllocError>
        requires transfer { TransfersWell self.now }
        requires first { 1 ≤ part }
        requires last { part ≤ parts_of self.now }
        ensures { IfOk result (λ call. call ≡ back_call endpoint self.now part) }
    {
        match self {
            Job::Read { iova, len } => Ok(Some(Call::Read {
                endpoint,
                part: cut(*iova, *len, part),
            })),
            Job::Write { iova, bytes } => {
                let part = cut(*iova, bytes.len() as u32, part);
                let from = (part.iova - *iova) as usize;
                let bytes = Bytes::of(alloc, &bytes.as_slice()[from..from + part.len as usize])?;
                Ok(Some(Call::Write {
                    endpoint,
                    part,
                    bytes,
                }))
            }
            Job::Ask(_) | Job::Raw { .. } | Job::Bypass(_) => Ok(None),
        }
    }
}
