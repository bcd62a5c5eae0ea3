//! The run.
ghost use Rattle.std.specs.Prelude.{◌≡◌, ◌+◌, ◌<◌, ◌≤◌, true, length, All, vec_len, vec_capacity};
ghost use Rattle.std.specs.List.{list_all};
ghost use Rattle.vi_run.specs.Actors.{IsPassOf, is_done};
ghost use Rattle.vi_run.specs.Runs.{AreActors, AreSame, IsOpened, IsRun, IsSame};

use crate::actor::Actor;
use crate::finished::Finished;
use crate::opened::Opened;
use crate::ran::Ran;
use crate::waiting::{Round, Waiting};
use std::sync::Wait;
use std::thread::{Threads, for_each_chunk_mut};
use vi_core::{Gate, Turned};
use vi_log::Log;
use vi_turns::{Pass, Shared};

/// How many turns an actor takes in a row at most, as long as it moves.
const IN_A_ROW: u32 = 64;

/// How many turns a worker takes at most until all workers meet.
const TURNS: u32 = 4096;

/// The same where it doesn't pay to share the actors, or isn't known yet: soon the round before will have shown it.
const FEWEST_TURNS: u32 = 128;

/// Runs all actors on 1 to 16 workers until every line is finished, and joins their passes. Each worker has some of the actors; in
/// each round it takes at most 4096 turns of theirs, and fewer where another worker has taken as many or no actor moves. Where the
/// actors moved but a few times in a row, one worker has all of them in the next round, which is short.
pub fn run<R: Threads + Wait + Sync, G: Gate + Sync>(
    rt: &R,
    opened: Opened,
    workers: u32,
    gate: &G,
) -> Finished
    requires workers { (1 ≤ workers) × (workers ≤ 16) }
    ensures script { result.last.script ≡ opened.board.script }
    ensures run { IsRun result }
{
    let Opened {
        shared,
        pass,
        mut actors,
        logs,
    } = opened;
    let mut most = FEWEST_TURNS;
    let mut pays = true;
    for _round in rt.forever() {
        if are_finished(&actors) {
            break;
        }
        let size = share_of(actors.len(), workers, pays);
        pays = take_round(rt, &shared, &mut actors, size, most, gate);
        most = next_turns(most, pays);
    }
    end(shared, pass, actors, logs)
}

// How many of so many actors a worker has: its share, or all where it doesn't pay to share them.
fn share_of(count: usize, workers: u32, pays: bool) -> usize
    requires { 1 ≤ workers }
    ensures { 0 < result }
{
    if pays {
        count.div_ceil(workers as usize).max(1)
    } else {
        count.max(1)
    }
}

// How many turns the next round has: as long as it pays to share the actors, twice as many.
fn next_turns(turns: u32, pays: bool) -> u32 {
    if pays {
        turns.saturating_mul(2).min(TURNS)
    } else {
        FEWEST_TURNS
    }
}

// A round: each worker takes so many turns of its actors at most. The answer is whether it pays to share them.
fn take_round<R: Threads + Sync, G: Gate + Sync>(
    rt: &R,
    shared: &Shared,
    actors: &mut [Actor],
    size: usize,
    most: u32,
    gate: &G,
) -> bool
    requires size { 0 < size }
    requires actors { AreActors shared.now actors.old }
    ensures actors { AreActors shared.now actors.new }
    ensures length { length actors.new ≡ length actors.old }
{
    let round = Round::new(actors.len() <= size);
    for_each_chunk_mut(
        rt,
        actors,
        size,
        &|_start: usize, chunk: &mut [Actor]|
            requires { (0 < length chunk.old) × All (λ a. IsPassOf shared.now a.pass) chunk.old }
            ensures { AreSame shared.entry.now chunk.entry.now chunk.exit.now }
        {
            take_turns(shared, chunk, most, gate, &round);
        },
    );
    round.pays()
}

// So many turns of these actors at most, one after the other and over again, until the round is over.
fn take_turns<G: Gate>(shared: &Shared, chunk: &mut [Actor], most: u32, gate: &G, round: &Round)
    requires some { 0 < length chunk.old }
    requires own { All (λ a. IsPassOf shared.now a.pass) chunk.old }
    ensures same { AreSame shared.now chunk.old chunk.new }
{
    let mut turns = 0;
    let mut at = 0;
    let mut waiting = Waiting::default();
    while IN_A_ROW <= most - turns && !waiting.is_over {
        if at == chunk.len() {
            at = 0;
            waiting.look(round);
        }
        let taken = turns_in_a_row(shared, &mut chunk[at], gate);
        waiting.note(taken - 1, round);
        turns += taken;
        at += 1;
    }
    round.end();
}

// Turns of one actor as long as it moves, and one more than it moved.
fn turns_in_a_row<G: Gate>(shared: &Shared, actor: &mut Actor, gate: &G) -> u32
    requires own { IsPassOf shared.now actor.old.pass }
    ensures same { IsSame shared.now actor.old actor.new }
    ensures some { (1 ≤ result) × (result ≤ 64) }
{
    for turns in 1..IN_A_ROW {
        if actor.turn(shared, gate) != Ran::Turned(Turned::Moved) {
            return turns;
        }
    }
    IN_A_ROW
}

// Whether all actors have finished their lines.
fn are_finished(actors: &[Actor]) -> bool
    ensures { result ≡ list_all (λ a. is_done a) actors.now }
{
    actors.iter().all(|actor| actor.is_finished())
}

// Joins the passes of all actors, which have finished, and closes the shared object.
fn end(shared: Shared, mut pass: Pass, actors: Vec<Actor>, mut logs: Vec<Log>) -> Finished
    requires opened { IsOpened shared pass actors.items }
    requires finished { list_all (λ a. is_done a) actors.items ≡ true }
    requires room { (vec_len logs ≡ 0) × (length actors.items ≤ vec_capacity logs) }
    ensures script { result.last.script ≡ shared.script }
    ensures run { IsRun result }
{
    for actor in actors {
        let ended = actor.end();
        logs.push_reserved(shared.join(&mut pass, ended));
    }
    Finished::of(shared.close(pass), logs)
}
