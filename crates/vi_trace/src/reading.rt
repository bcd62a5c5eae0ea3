//! Traces are read from texts.
ghost use Rattle.std.specs.Prelude.{◌≡◌, ◌^◌, ◌-◌, ◌<◌, Ok, length, IfOk, MatchResult};
ghost use Rattle.std.specs.Option.{option_map};
ghost use Rattle.vi_trace.specs.Parsing.{Faults};
ghost use Rattle.vi_trace.specs.Traces.{bytes_in, need_of, access_in, event_of, line_at, followed, trace};
ghost use Rattle.vi_trace.specs.declared.trace.Event.TheVariants.{Down, Up};

use crate::trace::{Event, Trace, TraceLine};
use std::alloc::{AllocError, AllocFailed, Global};
use std::error::Error;
use std::fmt;
use vi_bytes::{Bytes, Items, Need};
use vi_words::{Lines, Words, hex_bytes, is_word, number, says_nothing};

/// Why no trace was read from a text.
#[derive(Clone, Copy, Debug, PartialEq, Eq)]
pub enum TraceFault {
    /// The text's first line that says something and has no form of a line, counted from 1.
    Bad { line: u32 },
    OutOfMemory,
}

impl fmt::Display for TraceFault {
    ghost use Rattle.std.specs.Prelude.{Some};
    ghost use Rattle.vi_trace.specs.Texts.{fault_text};

    ghost output = { λ e. Some (fault_text e) };

    fn fmt<W: fmt::Write>(&self, f: &mut fmt::Formatter<W>) -> fmt::Result {
        match self {
            TraceFault::Bad { line } => write!(f, "bad trace line {line}"),
            TraceFault::OutOfMemory => write!(f, "out of memory"),
        }
    }
}

impl Error for TraceFault {}

impl From<AllocError> for TraceFault {
    ghost use Rattle.std.specs.Prelude.{◌≡◌};
    ghost use Rattle.vi_trace.specs.declared.reading.TraceFault.TheVariants.{OutOfMemory};

    ghost from_gives = { λ _ e. e ≡ OutOfMemory };

    fn from(_: AllocError) -> TraceFault {
        TraceFault::OutOfMemory
    }
}

impl<T: Drop> From<AllocFailed<T>> for TraceFault {
    ghost use Rattle.std.specs.Prelude.{◌≡◌};
    ghost use Rattle.vi_trace.specs.declared.reading.TraceFault.TheVariants.{OutOfMemory};

    ghost from_gives = { λ _ e. e ≡ OutOfMemory };

    fn from(_: AllocFailed<T>) -> TraceFault {
        TraceFault::OutOfMemory
    }
}

/// The lines of the text that say something, in order, or the first that has no form. The text has fewer than
/// 2^32 - 1 bytes.
pub fn parse(alloc: Global, bytes: &[u8]) -> Result<Trace, TraceFault>
    requires { length bytes.now < 2 ^ 32 - 1 }
    ensures read { MatchResult result (λ t. trace bytes.now ≡ Ok t) (λ e. Faults e (trace bytes.now)) }
{
    let mut said = Vec::new(alloc);
    let mut lines = Lines::of(bytes);
    let mut number = 0;
    while let Some(line) = lines.take() {
        number += 1;
        add(alloc, &mut said, number, line)?;
    }
    Ok(Trace::from_lines(Items::from_vec(said)))
}

/// Adds what the line of this number says, if it says something.
#[tactic(auto, unfolding(crate::specs::Traces::line_at))]
fn add(alloc: Global, said: &mut Vec<TraceLine>, number: u32, line: &[u8]) -> Result<(), TraceFault>
    ensures { MatchResult result (λ _. followed (Ok said.old.items) (line_at number line.now) ≡ Ok said.new.items) (λ e. Faults e (line_at number line.now)) }
{
    let words = Words::of(line);
    if says_nothing(words.again()) {
        return Ok(());
    }
    let Some(event) = event(alloc, words)? else {
        return Err(TraceFault::Bad { line: number });
    };
    said.push(TraceLine { number, event })?;
    Ok(())
}

/// What a line of these words records; `None` where they have no form of a line. An error means out of memory.
#[tactic(auto, unfolding(crate::specs::Traces::event_of))]
fn event(alloc: Global, mut words: Words) -> Result<Option<Event>, AllocError>
    ensures { IfOk result (λ event. event ≡ event_of words.entry) }
{
    let Some(first) = words.take() else {
        return Ok(None);
    };
    if is_word(first, b"down") {
        down(alloc, words)
    } else if is_word(first, b"up") {
        up(alloc, words)
    } else if is_word(first, b"use") {
        Ok(access(words))
    } else {
        Ok(None)
    }
}

/// Bytes that went to the back end, by the words behind `down`.
fn down(alloc: Global, words: Words) -> Result<Option<Event>, AllocError>
    ensures { IfOk result (λ event. event ≡ option_map Down (bytes_in words.entry)) }
{
    match bytes(alloc, words)? {
        Some(bytes) => Ok(Some(Event::Down(bytes))),
        None => Ok(None),
    }
}

/// Bytes that came from it, by the words behind `up`.
fn up(alloc: Global, words: Words) -> Result<Option<Event>, AllocError>
    ensures { IfOk result (λ event. event ≡ option_map Up (bytes_in words.entry)) }
{
    match bytes(alloc, words)? {
        Some(bytes) => Ok(Some(Event::Up(bytes))),
        None => Ok(None),
    }
}

/// The bytes that one word spells.
fn bytes(alloc: Global, mut words: Words) -> Result<Option<Bytes>, AllocError>
    ensures { IfOk result (λ bytes. bytes ≡ bytes_in words.entry) }
{
    let Some(word) = words.take() else {
        return Ok(None);
    };
    match words.take() {
        Some(_) => Ok(None),
        None => hex_bytes(alloc, word),
    }
}

/// A use of an address, by the words behind `use`.
fn access(mut words: Words) -> Option<Event>
    ensures { result ≡ access_in words.entry }
{
    let address = words.take()?;
    let need = words.take()?;
    if words.take().is_some() {
        return None;
    }
    Some(Event::Access {
        address: number(address)?,
        need: need_of(need)?,
    })
}

/// What a use does, by its word.
fn need_of(word: &[u8]) -> Option<Need>
    ensures { result ≡ need_of word.now }
{
    if is_word(word, b"r") {
        Some(Need::Read)
    } else if is_word(word, b"w") {
        Some(Need::Write)
    } else {
        None
    }
}
