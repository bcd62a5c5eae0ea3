//! What the workers of a round see of one another, and how one of them waits.
use std::sync::atomic::{AtomicBool, AtomicU64, Ordering};
use std::thread;

/// How often in a row a worker goes over its actors, while no actor of any worker moves, until the round is over.
const STILL: u32 = 128;

/// The same of a worker that is alone: nobody else could move one of them.
const STILL_ALONE: u32 = 1;

/// How many moves an actor has to make in a row on average, so that it pays to share the actors.
const WORTH: u64 = 8;

/// How often a worker yields at most after it went over its actors.
const YIELDS: u32 = 32;

/// A round: in it each worker takes turns of its actors, and then all workers meet.
#[derive(Drop)]
pub struct Round {
    /// How many turns in which its actor moved there were.
    moves: AtomicU64,
    /// How many times an actor took such turns, one or several in a row.
    visits: AtomicU64,
    /// Whether a worker has ended it.
    over: AtomicBool,
    /// Whether one worker has all actors.
    is_alone: bool,
}

impl Round {
    /// A round that begins. Where one worker has all actors, it has nobody to wait for.
    pub fn new(is_alone: bool) -> Self {
        Self {
            moves: AtomicU64::new(0),
            visits: AtomicU64::new(0),
            over: AtomicBool::new(false),
            is_alone,
        }
    }

    /// An actor moved so many times in a row.
    pub fn moved(&self, turns: u32) {
        self.moves.fetch_add(u64::from(turns), Ordering::Relaxed);
        self.visits.fetch_add(1, Ordering::Relaxed);
    }

    /// Whether its actors moved so often in a row that it pays to share them among several workers. Where each waits
    /// for another after a turn or two, it takes them longer to hear of one another than to move.
    pub fn pays(&self) -> bool {
        let visits = self.visits.load(Ordering::Relaxed);
        0 < visits && visits <= self.moves.load(Ordering::Relaxed) / WORTH
    }

    /// Ends the round for all workers: each ends it once it has gone over its actors.
    pub fn end(&self) {
        self.over.store(true, Ordering::Relaxed);
    }
}

/// How a worker waits: it yields the longer, the more often its own actors didn't move, and not at all
/// where it is alone.
#[derive(Default, Drop)]
pub struct Waiting {
    /// Whether its round is over: another worker has ended it, or no actor of any worker moves.
    pub is_over: bool,
    /// How often in a row it went over its actors while no actor of the round moved.
    still: u32,
    /// The moves of the round when it looked last.
    seen: u64,
    /// How often it yields next.
    yields: u32,
}

impl Waiting {
    /// It went over its actors: lets other workers go first, and looks at the round.
    pub fn look(&mut self, round: &Round) {
        if !round.is_alone {
            self.give_way();
        }
        let moves = round.moves.load(Ordering::Relaxed);
        self.still = if moves == self.seen {
            self.still.saturating_add(1)
        } else {
            0
        };
        self.seen = moves;
        let most = if round.is_alone { STILL_ALONE } else { STILL };
        self.is_over = most <= self.still || round.over.load(Ordering::Relaxed);
    }

    // Yields, and once more the next time.
    fn give_way(&mut self) {
        for _time in 0..self.yields {
            thread::yield_now();
        }
        self.yields = self.yields.saturating_add(1).min(YIELDS);
    }

    /// An actor of its own moved so many times in a row.
    pub fn note(&mut self, moves: u32, round: &Round) {
        if 0 < moves {
            self.yields = 0;
            round.moved(moves);
        }
    }
}
