//! For how much a script needs room.
ghost use Rattle.std.specs.Prelude.{◌≡◌, ◌≤◌, length, count_by, sum_by, All, IsTrue};
ghost use Rattle.vi_lines.specs.Calls.{TransfersWell, parts_of, driver_call};
ghost use Rattle.vi_lines.specs.Limits.{is_job};
ghost use Rattle.vi_model.specs.Rooms.{is_map_reading, is_map, is_back};
ghost use Rattle.vi_model.specs.Tasks.{task_in};

use vi_history::{Caller, Reading, Request};
use vi_lines::{Job, Line};

fn is_map(reading: &Reading) -> bool
    ensures { result ≡ is_map_reading reading.now }
{
    match reading {
        Reading::Asks(Request::Map { .. }) => true,
        Reading::Asks(
            Request::Attach { .. }
            | Request::Detach { .. }
            | Request::Unmap { .. }
            | Request::Probe { .. },
        )
        | Reading::Silent
        | Reading::Malformed { .. } => false,
    }
}

// Whether a line asks for a MAP, also in the bytes of a raw request.
fn asks_for_map(job: &Job) -> bool
    requires { IsTrue (is_job job.now) }
    ensures { result ≡ is_map (task_in (driver_call job.now)) }
{
    match job {
        Job::Ask(request) => is_map(&Reading::Asks(*request)),
        Job::Raw { read, write } => is_map(&vi_req::read(read.as_slice(), *write)),
        Job::Bypass(_) | Job::Read { .. } | Job::Write { .. } => false,
    }
}

/// How many of a script's lines ask for a MAP.
pub(crate) fn count_maps(lines: &[Line]) -> u32
    requires few { length lines.now ≤ 10000 }
    requires jobs { All (λ l. IsTrue (is_job l.job)) lines.now }
    ensures { result ≡ count_by (λ l. is_map (task_in (driver_call l.job))) lines.now }
{
    let mut count = 0;
    for line in lines {
        if asks_for_map(&line.job) {
            count += 1;
        }
    }
    count
}

/// How many parts all transfers of a script's lines have.
pub(crate) fn count_parts(lines: &[Line]) -> u32
    requires few { length lines.now ≤ 10000 }
    requires transfers { All (λ l. TransfersWell l.job) lines.now }
    ensures { result ≡ sum_by (λ l. parts_of l.job) lines.now }
{
    let mut count = 0;
    for line in lines {
        count += parts(&line.job);
    }
    count
}

fn parts(job: &Job) -> u32
    requires { TransfersWell job.now }
    ensures parts { result ≡ parts_of job.now }
    ensures few { result ≤ 17 }
{
    job.parts()
}

fn is_back(caller: Caller) -> bool
    ensures { result ≡ is_back caller }
{
    match caller {
        Caller::Driver(_) => false,
        Caller::Back(_) => true,
    }
}

/// How many of a script's lines are of back ends.
pub(crate) fn count_transfers(lines: &[Line]) -> u32
    requires { length lines.now ≤ 10000 }
    ensures { result ≡ count_by (λ l. is_back l.caller) lines.now }
{
    let mut count = 0;
    for line in lines {
        if is_back(line.caller) {
            count += 1;
        }
    }
    count
}
