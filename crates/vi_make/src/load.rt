//! The load script.
ghost use Rattle.std.specs.Prelude.{◌≡◌, ◌<◌, ◌≤◌, IfOk, OnOk};
ghost use Rattle.std.specs.List.{flat_map, range_with_len};
ghost use Rattle.vi_make.specs.LoadScript.{Adds, setup_lines, attach_line, round_lines, load_script};

use crate::turn::{DRIVERS, MAX_ROUNDS, Turn};
use std::alloc::{AllocError, Global};
use vi_bytes::Bytes;

/// The setup of the load script.
const SETUP: &str =
    "memory 64\nqueue 64\ncache 8\nendpoint 1\nendpoint 2\nendpoint 3\nendpoint 4\n";

/// The load script of this many rounds, `20 * rounds + 11` lines that each end with LF:
///
/// - the setup: `memory 64`, `queue 64`, `cache 8`, and endpoints 1 to 4;
/// - for each driver J from 0 to 3 `dJ attach E E`, where E is J + 1 here and below;
/// - for each round R from 0 and in it for each driver J from 0 to 3 the five lines
///   - `dJ map E A B P rw`, where A is 1048576 + 4096 * (R mod 7), B is A + 4095 and P is
///     4096 * (16 * J + R mod 16); for R above 0 it ends with ` after bE.X`, where X is 3 * R;
///   - `bE write A V after dJ.Y`, where V is 4 * R + J as eight lower-case hexadecimal digits and Y is
///     2 * R + 2;
///   - `bE read A 4`;
///   - `dJ unmap E A B after bE.Z`, where Z is 3 * R + 2;
///   - `bE read A 4 after dJ.U`, where U is 2 * R + 3.
///
/// An error means out of memory.
pub fn make(alloc: Global, rounds: u32) -> Result<Bytes, AllocError>
    requires some { 1 ≤ rounds }
    requires most { rounds ≤ MAX_ROUNDS }
    ensures written { IfOk result (λ text. text ≡ load_script rounds) }
{
    let mut out = String::new(alloc);
    push_setup(&mut out)?;
    push_attaches(&mut out)?;
    for round in 0..rounds {
        push_round(alloc, &mut out, round)?;
    }
    Ok(Bytes::from_vec(out.into_bytes()))
}

/// Adds the setup.
#[tactic(auto, unfolding(crate::specs::LoadScript::setup_lines))]
fn push_setup(out: &mut String) -> Result<(), AllocError>
    ensures { OnOk result (Adds out.old out.new setup_lines) }
{
    out.push_str(SETUP)
}

/// Adds the line by which a driver attaches its endpoint.
#[tactic(auto, unfolding(crate::specs::LoadScript::attach_line))]
fn push_attach(out: &mut String, driver: u32) -> Result<(), AllocError>
    requires { driver < DRIVERS }
    ensures { OnOk result (Adds out.old out.new (attach_line driver)) }
{
    let endpoint = driver + 1;
    writeln!(out, "d{driver} attach {endpoint} {endpoint}")
}

/// Adds the lines by which all drivers attach their endpoints.
fn push_attaches(out: &mut String) -> Result<(), AllocError>
    ensures { OnOk result (Adds out.old out.new (flat_map (λ driver. attach_line driver) (range_with_len 0 DRIVERS))) }
{
    for driver in 0..DRIVERS {
        push_attach(out, driver)?;
    }
    Ok(())
}

/// Adds the lines of a round.
fn push_round(alloc: Global, out: &mut String, round: u32) -> Result<(), AllocError>
    requires { round < MAX_ROUNDS }
    ensures { OnOk result (Adds out.old out.new (round_lines round)) }
{
    for driver in 0..DRIVERS {
        Turn { round, driver }.push_lines(alloc, out)?;
    }
    Ok(())
}
