//! The schedule of a simulated run.
ghost use Rattle.std.specs.Prelude.{◌≡◌, true, IfOk};
ghost use Rattle.vi_history.specs.Outcomes.{IsWellMade};
ghost use Rattle.vi_lines.specs.Legal.{HasRecords, IsLegalHistory};
ghost use Rattle.vi_lines.specs.Ordered.{IsOrdered};
ghost use Rattle.vi_model.specs.Playable.{IsPlayable};
ghost use Rattle.vi_model.specs.Rounds as rounds;
ghost use Rattle.vi_model.specs.Rounds.{is_finished};
ghost use Rattle.vi_sim.specs.Simulated.{after_draws, after_rounds, simulated, simulated_history, simulated_world};

use crate::draw::{next_draw, picked};
use std::alloc::{AllocError, Global};
use vi_core::{World, actors};
use vi_history::Outcome;
use vi_lines::{Script, Who};

/// The outcome of a script's run: first its own turns, then `moves` turns of actors that the generator draws from
/// `generator_seed` on, then rounds of one turn of each actor until all lines are finished. An error means out of memory.
#[tactic(auto, using(crate::proofs::Simulated::simulated_finished, crate::proofs::Simulated::simulated_ordered, crate::proofs::Simulated::simulated_legal, crate::proofs::Simulated::simulated_records))]
pub fn sim(
    alloc: Global,
    script: Script,
    generator_seed: u64,
    moves: u32,
) -> Result<Outcome, AllocError>
    requires { IsPlayable script }
    ensures outcome { IfOk result (λ o. o ≡ simulated script generator_seed moves) }
    ensures made { IfOk result IsWellMade }
    // every line is finished within the bound on rounds
    ensures finished { is_finished script (simulated_world script generator_seed moves) ≡ true }
    // the history is in order, each answer is the one-thread device's, and its fault records are shown well
    ensures ordered { IsOrdered script (simulated_history script generator_seed moves) }
    ensures legal { IsLegalHistory script (simulated_history script generator_seed moves) }
    ensures records { HasRecords script (simulated script generator_seed moves) }
{
    let round = actors(alloc, &script)?;
    let turns = Vec::from_slice(alloc, script.turns.as_slice())?;
    let mut world = World::build(alloc, script)?;
    world.run(&turns);
    take_draws(&mut world, &round, generator_seed, moves);
    finish(&mut world, &round);
    world.outcome(alloc)
}

/// So many turns of actors of the round that the generator draws, after this draw.
fn take_draws(world: &mut World, round: &[Who], generator_seed: u64, moves: u32)
    requires { round.now ≡ rounds.actors world.old.script }
    ensures { world.new ≡ after_draws world.old generator_seed moves }
{
    let mut draw = generator_seed;
    for number in 0..moves {
        draw = next_draw(draw);
        let _turned = world.turn(picked(round, draw));
    }
}

/// Rounds until every line is finished.
fn finish(world: &mut World, round: &[Who])
    requires { round.now ≡ rounds.actors world.old.script }
    ensures { world.new ≡ after_rounds world.old }
{
    while !world.finished() {
        world.run(round);
    }
}
