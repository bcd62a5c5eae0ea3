//! The forms of the command line that run threads.
ghost use Rattle.std.specs.Prelude.{◌≡◌, map, string_bytes, IfSome};
ghost use Rattle.vi_threaded.specs.Threads.{IsThreaded, dirty_for, dirty_of, load_for, load_of, run_for, run_of, threaded_in, threaded_named, workers_of};

use vi_words::number;

/// How many workers a run has at most.
pub const MOST_WORKERS: u64 = 16;

/// How many entries of the history a round of `dirty` has at most.
pub const LONGEST_ROUND: u64 = 10_000;

/// What is to be run. The words of the command line are exactly those of its form.
#[derive(Clone, Copy, Debug, PartialEq, Eq)]
pub enum Threaded {
    /// `run W`: a script is read from standard input and run on 1 to 16 workers, and the report of the run is written.
    Run { workers: u32 },
    /// `load N W`: the load script of N rounds, 1 to 400, is run on W workers, and the summary of the run is written. Nothing
    /// is read.
    Load { rounds: u32, workers: u32 },
    /// `dirty K W`: as `run W`, and below the report stand the pages of the memory that the run wrote, for each K entries of
    /// its history, 1 to 10000, and for all.
    Dirty { every: u32, workers: u32 },
}

impl Threaded {
    /// The form that the words are, without the program's name, or `None`.
    pub fn parse(words: &[String]) -> Option<Threaded>
        ensures form { result ≡ threaded_in words.now }
        ensures bounds { IfSome result IsThreaded }
    {
        match words.split_first() {
            Some((name, behind)) => named(name.as_str(), behind),
            None => None,
        }
    }

    /// On how many workers it runs.
    pub(crate) fn workers(self) -> u32
        ensures { result ≡ workers_of self }
    {
        match self {
            Threaded::Run { workers }
            | Threaded::Load { workers, .. }
            | Threaded::Dirty { workers, .. } => workers,
        }
    }
}

/// A form by its name and the words behind it.
fn named(name: &str, behind: &[String]) -> Option<Threaded>
    ensures { result ≡ threaded_named name.now (map string_bytes behind.now) }
{
    match name {
        "run" => run_of(behind),
        "load" => load_of(behind),
        "dirty" => dirty_of(behind),
        _ => None,
    }
}

#[tactic(auto, using(crate::proofs::ThreadLemmas::no_run))]
fn run_of(behind: &[String]) -> Option<Threaded>
    ensures { result ≡ run_of (map string_bytes behind.now) }
{
    match behind {
        [workers] => run_for(number(workers.as_bytes())),
        _ => None,
    }
}

fn run_for(workers: Option<u64>) -> Option<Threaded>
    ensures { result ≡ run_for workers }
{
    let workers = workers?;
    if workers < 1 || workers > MOST_WORKERS {
        return None;
    }
    Some(Threaded::Run {
        workers: workers as u32,
    })
}

#[tactic(auto, using(crate::proofs::ThreadLemmas::no_load))]
fn load_of(behind: &[String]) -> Option<Threaded>
    ensures { result ≡ load_of (map string_bytes behind.now) }
{
    match behind {
        [rounds, workers] => load_for(number(rounds.as_bytes()), number(workers.as_bytes())),
        _ => None,
    }
}

fn load_for(rounds: Option<u64>, workers: Option<u64>) -> Option<Threaded>
    ensures { result ≡ load_for rounds workers }
{
    let rounds = rounds?;
    let workers = workers?;
    if rounds < 1 || rounds > 400 {
        return None;
    }
    if workers < 1 || workers > MOST_WORKERS {
        return None;
    }
    Some(Threaded::Load {
        rounds: rounds as u32,
        workers: workers as u32,
    })
}

#[tactic(auto, using(crate::proofs::ThreadLemmas::no_dirty))]
fn dirty_of(behind: &[String]) -> Option<Threaded>
    ensures { result ≡ dirty_of (map string_bytes behind.now) }
{
    match behind {
        [every, workers] => dirty_for(number(every.as_bytes()), number(workers.as_bytes())),
        _ => None,
    }
}

fn dirty_for(every: Option<u64>, workers: Option<u64>) -> Option<Threaded>
    ensures { result ≡ dirty_for every workers }
{
    let every = every?;
    let workers = workers?;
    if every < 1 || every > LONGEST_ROUND {
        return None;
    }
    if workers < 1 || workers > MOST_WORKERS {
        return None;
    }
    Some(Threaded::Dirty {
        every: every as u32,
        workers: workers as u32,
    })
}
