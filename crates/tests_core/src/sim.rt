//! The generator's first draws, and a small script's run.
ghost use Rattle.vi_model.specs.Playable.{IsPlayable};

use crate::scripts::script_of;
use std::alloc::{AllocError, Global};
use std::test::Fail;
use vi_history::Outcome;
use vi_lines::Script;
use vi_sim::{next_draw, sim};

/// A page is mapped and read.
const READ: &[u8] =
    b"endpoint 7\nd0 attach 1 7\nd0 map 1 0x1000 0x1fff 0x0 r\nb7 read 0x1ffe 2 after d0.2";

/// Knuth's generator MMIX has these numbers from 0 on.
#[test]
fn the_generator_is_mmix(rt: HostRuntime) -> Result<(), Fail> {
    let first = next_draw(0);
    let second = next_draw(first);
    assert_eq!(rt; first, 1_442_695_040_888_963_407);
    assert_eq!(rt; second, 1_876_011_003_808_476_466);
    assert_eq!(rt; next_draw(second), 11_166_244_414_315_200_793);
    Ok(())
}

/// How many entries and records there are, and how many records were dropped.
fn counted(outcome: &Outcome) -> (usize, usize, u32) {
    (outcome.entries.len(), outcome.shown.len(), outcome.dropped)
}

/// The counts of a run with this draw and so many drawn turns.
fn simulated(
    alloc: Global,
    script: Script,
    draw: u64,
    moves: u32,
) -> Result<(usize, usize, u32), AllocError>
    requires { IsPlayable script }
{
    Ok(counted(&sim(alloc, script, draw, moves)?))
}

#[test]
fn a_read_comes_to_its_end(rt: HostRuntime) -> Result<(), Fail> {
    let script = script_of(rt.alloc(), READ)?;
    assert_eq!(rt; simulated(rt.alloc(), script, 42, 20)?, (3, 0, 0));
    Ok(())
}
