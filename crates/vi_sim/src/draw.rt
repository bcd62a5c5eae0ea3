//! The generator of drawn turns.
ghost use Rattle.std.specs.Prelude.{◌≡◌, ◌<◌, length};
ghost use Rattle.vi_sim.specs.Schedule.{next_draw, picked};

use vi_lines::Who;

/// The generator's factor: a draw is the one before it times this, plus what is added, modulo 2^64.
const MULTIPLIER: u64 = 6_364_136_223_846_793_005;

/// What the generator adds.
const INCREMENT: u64 = 1_442_695_040_888_963_407;

/// The low bits of a draw name nobody: they repeat too soon.
const LOW_BITS: u32 = 33;

/// The draw after this one.
pub fn next_draw(draw: u64) -> u64
    ensures { result ≡ next_draw draw }
{
    draw.wrapping_mul(MULTIPLIER).wrapping_add(INCREMENT)
}

/// The one of these actors that a draw names.
pub(crate) fn picked(actors: &[Who], draw: u64) -> Who
    requires { 0 < length actors.now }
    ensures { result ≡ picked actors.now draw }
{
    let number = (draw >> LOW_BITS) % actors.len() as u64;
    actors[number as usize]
}
