//! What a control has of its script.
ghost use Rattle.std.specs.Prelude.{◌≡◌, map, replicate, All, IsTrue, IfOk};
ghost use Rattle.vi_config.specs.Space.{IsGranule, config_bytes};
ghost use Rattle.vi_history.specs.Start.{start_dev};
ghost use Rattle.vi_history.specs.declared.call.Caller.TheVariants.{Back};
ghost use Rattle.vi_lines.specs.Limits.{is_job};
ghost use Rattle.vi_control.specs.Plan.{transfer_of};
ghost use Rattle.vi_control.specs.Inner.{config_of};
ghost use Rattle.vi_control.specs.Opening.{transfers_in};

use crate::Transfer;
use std::alloc::{AllocError, Global};
use vi_bytes::{EndpointSetup, Need};
use vi_config::Config;
use vi_history::{Caller, Setup};
use vi_lines::{Job, Line};

/// The endpoints' ids in declared order. An error means out of memory.
pub(crate) fn ids_in(alloc: Global, endpoints: &[EndpointSetup]) -> Result<Vec<u32>, AllocError>
    ensures { IfOk result (λ ids. ids.items ≡ map (λ e. e.id) endpoints.now) }
{
    let mut ids = Vec::new(alloc);
    for endpoint in endpoints {
        ids.push(endpoint.id)?;
    }
    Ok(ids)
}

/// So many zeros. An error means out of memory.
pub(crate) fn zeros(alloc: Global, count: usize) -> Result<Vec<u32>, AllocError>
    ensures { IfOk result (λ v. v.items ≡ replicate count 0) }
{
    vec![in alloc; 0; count]
}

// What a line transfers. A line of a driver transfers nothing.
fn transfer_of(job: &Job) -> Transfer
    requires { IsTrue (is_job job.now) }
    ensures { result ≡ transfer_of job.now }
{
    match job {
        Job::Read { iova, len } => Transfer {
            iova: *iova,
            len: *len,
            need: Need::Read,
        },
        Job::Write { iova, bytes } => Transfer {
            iova: *iova,
            len: bytes.len() as u32,
            need: Need::Write,
        },
        Job::Ask(_) | Job::Raw { .. } | Job::Bypass(_) => Transfer {
            iova: 0,
            len: 0,
            need: Need::Read,
        },
    }
}

// What the caller's lines transfer, line by line.
fn transfers_in(alloc: Global, lines: &[Line], caller: Caller) -> Result<Vec<Transfer>, AllocError>
    requires { All (λ l. IsTrue (is_job l.job)) lines.now }
    ensures { IfOk result (λ ts. ts.items ≡ transfers_in lines.now caller) }
{
    let mut transfers = Vec::new(alloc);
    for line in lines {
        if line.caller == caller {
            transfers.push(transfer_of(&line.job))?;
        }
    }
    Ok(transfers)
}

/// What the back end of each of the endpoints transfers, line by line. An error means out of memory.
pub(crate) fn transfers_by(
    alloc: Global,
    lines: &[Line],
    ids: &[u32],
) -> Result<Vec<Vec<Transfer>>, AllocError>
    requires { All (λ l. IsTrue (is_job l.job)) lines.now }
    ensures { IfOk result (λ rows. map (λ t. t.items) rows.items ≡ map (λ id. transfers_in lines.now (Back id)) ids.now) }
{
    let mut rows = Vec::new(alloc);
    for id in ids {
        rows.push(transfers_in(alloc, lines, Caller::Back(*id))?)?;
    }
    Ok(rows)
}

/// The configuration space of the setup's device.
pub(crate) fn configuration(setup: &Setup) -> [u8; 40]
    requires { IsGranule setup.now.granule }
    ensures { result ≡ config_bytes (config_of (start_dev setup.now)) }
{
    let config = Config {
        granule: setup.granule,
        input: setup.input,
        bypass: setup.bypass,
    };
    config.encode()
}
