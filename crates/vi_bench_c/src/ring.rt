//! A ring's round trip: add, pop, readable, push and collect.
ghost use Rattle.std.specs.Prelude.{◌≡◌};

use std::alloc::{AllocError, Global};
use vi_vring::{Popped, Ring};

/// How many bytes each part of a chain may have.
const PART: usize = 64;

/// Sends a request of 64 bytes through a ring and takes an answer of 4 bytes, so many times. How many
/// bytes of answers came.
pub fn run(alloc: Global, rounds: u32) -> Result<u64, AllocError> {
    let mut ring = Ring::build(alloc, 16, PART as u32, PART as u32)?;
    let mut answered: u64 = 0;
    for _round in 0..rounds {
        answered = answered.wrapping_add(round_trip(&mut ring));
    }
    Ok(answered)
}

/// One request there and its answer back: how many bytes the answer has.
fn round_trip(ring: &mut Ring) -> u64
    requires reading { ring.old.reading ≡ 64 }
    requires writing { ring.old.writing ≡ 64 }
    ensures reading { ring.new.reading ≡ 64 }
    ensures writing { ring.new.writing ≡ 64 }
{
    let request = [7; PART];
    let Ok(head) = ring.add(&request, 4) else {
        return 0;
    };
    let Popped::Chain(chain) = ring.pop() else {
        return 0;
    };
    let mut read = [0; PART];
    if chain.read as usize != PART || chain.write < 4 {
        return 0;
    }
    ring.readable(&chain, &mut read);
    ring.push(chain, &read[..4]);
    let mut answer = [0; PART];
    match ring.collect(head, &mut answer) {
        Some(len) => u64::from(len),
        None => 0,
    }
}
