//! A driver's line, with the bytes of its request.
ghost use Rattle.std.specs.Prelude.{◌≡◌, IfOk};
ghost use Rattle.vi_req.specs.Requests.{type_of};
ghost use Rattle.vi_history.specs.Requests.{writable_size};
ghost use Rattle.vi_model.specs.Drivers.{parcel_of};
ghost use Rattle.vi_driver.specs.Parcels.{encoded_of, read_in, write_in, switch_in};

use std::alloc::{AllocError, Global};
use std::marker::Model;
use vi_bytes::{Bytes, Items};
use vi_history::Request;
use vi_lines::{Await, Job, Line};
use vi_req::encode;

/// A copy of a line, whose request is encoded once, so that lending its bytes takes no memory.
#[derive(Debug, Drop)]
pub struct OwnLine {
    line: Line,
    encoded: Bytes,
}

impl Model for OwnLine {
    ghost use Rattle.std.specs.Prelude.{◌≡◌};
    ghost use Rattle.vi_lines.specs.declared.line.Line.{Line};
    ghost use Rattle.vi_driver.specs.Parcels.{encoded_of};

    ghost Value = { Line };

    ghost view = { λ o. o.line };

    ghost invariant = { λ o. o.encoded ≡ encoded_of o.line.job };
}

impl OwnLine {
    /// A copy of this line. An error means out of memory.
    pub fn of(alloc: Global, line: &Line) -> Result<OwnLine, AllocError>
        ensures { IfOk result (λ o. o ≡ line.now) }
    {
        let line = copied_line(alloc, line)?;
        let encoded = encoded(alloc, &line.job)?;
        Ok(OwnLine { line, encoded })
    }

    /// Whether the driver goes on without waiting for this request.
    pub fn is_add(&self) -> bool
        ensures { result ≡ self.now.add }
    {
        self.line.add
    }

    /// The lines that this one awaits.
    pub fn awaits(&self) -> &[Await]
        ensures { result.now ≡ self.now.awaits }
    {
        self.line.awaits.as_slice()
    }

    /// The device-readable part of the request, empty for a bypass setting.
    pub fn readable(&self) -> &[u8]
        ensures { result.now ≡ read_in (parcel_of self.now.job) }
    {
        match &self.line.job {
            Job::Ask(_) => self.encoded.as_slice(),
            Job::Raw { read, .. } => read.as_slice(),
            Job::Bypass(_) | Job::Read { .. } | Job::Write { .. } => &[],
        }
    }

    /// How many bytes the writable part of the request has, 0 for a bypass setting.
    pub fn writable(&self) -> u32
        ensures { result ≡ write_in (parcel_of self.now.job) }
    {
        match &self.line.job {
            Job::Ask(request) => answer_size(request),
            Job::Raw { write, .. } => *write,
            Job::Bypass(_) | Job::Read { .. } | Job::Write { .. } => 0,
        }
    }

    /// To what the bypass field is set, `None` for a request.
    pub fn setting(&self) -> Option<bool>
        ensures { result ≡ switch_in (parcel_of self.now.job) }
    {
        match self.line.job {
            Job::Bypass(on) => Some(on),
            Job::Ask(_) | Job::Raw { .. } | Job::Read { .. } | Job::Write { .. } => None,
        }
    }
}

/// The size of the writable part that the request needs: a tail of 4 bytes (Virtio 1.2, 5.13.6.1), and
/// before it 512 bytes of properties for a PROBE.
fn answer_size(request: &Request) -> u32
    ensures { result ≡ writable_size (type_of request.now) }
{
    match request {
        Request::Probe { .. } => 516,
        Request::Attach { .. }
        | Request::Detach { .. }
        | Request::Map { .. }
        | Request::Unmap { .. } => 4,
    }
}

/// The bytes of a job's request, none where the job isn't one.
fn encoded(alloc: Global, job: &Job) -> Result<Bytes, AllocError>
    ensures { IfOk result (λ b. b ≡ encoded_of job.now) }
{
    match job {
        Job::Ask(request) => encode(alloc, request),
        Job::Raw { .. } | Job::Bypass(_) | Job::Read { .. } | Job::Write { .. } => {
            Ok(Bytes::new(alloc))
        }
    }
}

fn copied_line(alloc: Global, line: &Line) -> Result<Line, AllocError>
    ensures { IfOk result (λ l. l ≡ line.now) }
{
    let job = copied_job(alloc, &line.job)?;
    let awaits = Items::of(alloc, line.awaits.as_slice())?;
    Ok(Line {
        caller: line.caller,
        job,
        add: line.add,
        awaits,
    })
}

fn copied_job(alloc: Global, job: &Job) -> Result<Job, AllocError>
    ensures { IfOk result (λ j. j ≡ job.now) }
{
    match job {
        Job::Ask(request) => Ok(Job::Ask(*request)),
        Job::Raw { read, write } => {
            let read = Bytes::of(alloc, read.as_slice())?;
            Ok(Job::Raw {
                read,
                write: *write,
            })
        }
        Job::Bypass(on) => Ok(Job::Bypass(*on)),
        Job::Read { iova, len } => Ok(Job::Read {
            iova: *iova,
            len: *len,
        }),
        Job::Write { iova, bytes } => {
            let bytes = Bytes::of(alloc, bytes.as_slice())?;
            Ok(Job::Write { iova: *iova, bytes })
        }
    }
}
