//! For how much a script's history needs room.
ghost use Rattle.std.specs.Prelude.{◌≡◌, ◌≤◌, ◌+◌, length, sum_by, All};
ghost use Rattle.vi_lines.specs.Calls.{TransfersWell, parts_of};
ghost use Rattle.vi_lines.specs.Limits.{bytes_in, transferred};
ghost use Rattle.vi_model.specs.Rounds.{calls_in};
ghost use Rattle.vi_core.specs.HistoryRoom.{answer_bytes, request_answer_bytes};

use vi_history::{Caller, Request};
use vi_lines::{Job, Line};

// How many bytes a PROBE's answer has (Virtio 1.2, 5.13.6.7).
const PROPERTIES: u32 = 512;

/// How many calls a script's lines have: one for a driver's line, and one for each part of a back end's
/// transfer. There are at most 10,000 lines, and each transfer has 1 to 65536 bytes, the last of them at
/// 2^64 - 1 or below.
pub fn entry_room(lines: &[Line]) -> u32
    requires few { length lines.now ≤ 10000 }
    requires transfers { All (λ l. TransfersWell l.job) lines.now }
    ensures { result ≡ sum_by (λ l. calls_in l) lines.now }
{
    let mut count = 0;
    for line in lines {
        count += calls(line);
    }
    count
}

fn calls(line: &Line) -> u32
    requires { TransfersWell line.now.job }
    ensures calls { result ≡ calls_in line.now }
    ensures few { result ≤ 17 }
{
    match line.caller {
        Caller::Driver(_) => 1,
        Caller::Back(_) => line.job.parts(),
    }
}

/// How many bytes the answers to all calls of a script's lines can have: 512 for a PROBE and for raw bytes,
/// which may read as one, and those that a transfer reads. There are at most 10,000 lines, and all transfers
/// together have at most 16,777,216 bytes.
pub fn byte_room(lines: &[Line]) -> u32
    requires few { length lines.now ≤ 10000 }
    requires bytes { bytes_in lines.now ≤ 16777216 }
    ensures { result ≡ sum_by (λ l. answer_bytes l.job) lines.now }
{
    let mut count = 0;
    for line in lines {
        count += answer_bytes(&line.job);
    }
    count
}

fn answer_bytes(job: &Job) -> u32
    ensures bytes { result ≡ answer_bytes job.now }
    ensures few { result ≤ 512 + transferred job.now }
{
    match job {
        Job::Ask(request) => request_answer_bytes(request),
        Job::Raw { .. } => PROPERTIES,
        Job::Read { len, .. } => *len,
        Job::Bypass(_) | Job::Write { .. } => 0,
    }
}

fn request_answer_bytes(request: &Request) -> u32
    ensures bytes { result ≡ request_answer_bytes request.now }
    ensures few { result ≤ 512 }
{
    match request {
        Request::Probe { .. } => PROPERTIES,
        Request::Attach { .. }
        | Request::Detach { .. }
        | Request::Map { .. }
        | Request::Unmap { .. } => 0,
    }
}
