//! The forms of the command line.
ghost use Rattle.std.specs.Prelude.{◌≡◌, map, string_bytes};
ghost use Rattle.vi_commands.specs.Command.{alone, command_in, make_for, make_of, named, sim_for, sim_of};

use vi_words::number;

/// How many turns of drawn actors a run has at most.
pub const MOST_MOVES: u32 = 1_000_000;

/// What the program is to do. The words of the command line are exactly those of its form.
#[derive(Clone, Copy, Debug, PartialEq, Eq)]
pub enum Command {
    /// A script is read from standard input.
    Script(Task),
    /// Standard input has no script, and a text is made of it.
    Text(TextTask),
    /// `make N`: the load script of N rounds, 1 to 400, is written. Nothing is read.
    Make { rounds: u32 },
}

/// What is done with a script.
#[derive(Clone, Copy, Debug, PartialEq, Eq)]
pub enum Task {
    /// `sim S T`: it is run, and the report of the run is written. S is what the generator begins with, and T how
    /// many turns are drawn, at most `MOST_MOVES`.
    Sim { generator_seed: u64, moves: u32 },
    /// `one`: the one-thread device without caches replies to its lines in the order of the text, and
    /// the report of its replies is written.
    One,
    /// `check`: a line `report` and a report follow it, and the verdict on the report is written.
    Check,
}

/// What is done with an input that has no script.
#[derive(Clone, Copy, Debug, PartialEq, Eq)]
pub enum TextTask {
    /// `trace`: recorded IOTLB messages are judged, and the finding is written.
    Trace,
}

impl Command {
    /// The command whose form the words are, without the program's name, or `None`.
    pub fn parse(words: &[String]) -> Option<Command>
        ensures { result ≡ command_in words.now }
    {
        match words.split_first() {
            Some((name, behind)) => named(name.as_str(), behind),
            None => None,
        }
    }
}

/// A command by its name and the words behind it.
fn named(name: &str, behind: &[String]) -> Option<Command>
    ensures { result ≡ named name.now (map string_bytes behind.now) }
{
    match name {
        "sim" => sim_of(behind),
        "one" => alone(Command::Script(Task::One), behind),
        "check" => alone(Command::Script(Task::Check), behind),
        "make" => make_of(behind),
        "trace" => alone(Command::Text(TextTask::Trace), behind),
        _ => None,
    }
}

#[tactic(auto, using(crate::proofs::CommandLemmas::no_sim))]
fn sim_of(behind: &[String]) -> Option<Command>
    ensures { result ≡ sim_of (map string_bytes behind.now) }
{
    match behind {
        [generator_seed, moves] => sim_for(
            number(generator_seed.as_bytes()),
            number(moves.as_bytes()),
        ),
        _ => None,
    }
}

/// `sim S T` by the numbers that stand for S and T, if they are numbers.
fn sim_for(generator_seed: Option<u64>, moves: Option<u64>) -> Option<Command>
    ensures { result ≡ sim_for generator_seed moves }
{
    let generator_seed = generator_seed?;
    let moves = moves?;
    if moves > u64::from(MOST_MOVES) {
        return None;
    }
    Some(Command::Script(Task::Sim {
        generator_seed,
        moves: moves as u32,
    }))
}

#[tactic(auto, using(crate::proofs::CommandLemmas::no_make))]
fn make_of(behind: &[String]) -> Option<Command>
    ensures { result ≡ make_of (map string_bytes behind.now) }
{
    match behind {
        [rounds] => make_for(number(rounds.as_bytes())),
        _ => None,
    }
}

fn make_for(rounds: Option<u64>) -> Option<Command>
    ensures { result ≡ make_for rounds }
{
    let rounds = rounds?;
    if rounds < 1 || rounds > 400 {
        return None;
    }
    Some(Command::Make {
        rounds: rounds as u32,
    })
}

fn alone(command: Command, behind: &[String]) -> Option<Command>
    ensures { result ≡ alone command (map string_bytes behind.now) }
{
    if behind.is_empty() {
        Some(command)
    } else {
        None
    }
}
