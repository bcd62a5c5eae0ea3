//! The pages of a script's history as text.
ghost use Rattle.std.specs.Prelude.{◌≡◌, ◌++◌, ◌≤◌, [], List, IfOk, OnOk, drop, take};
ghost use Rattle.vi_history.specs.Start.{start};
ghost use Rattle.vi_history.specs.declared.call.Call.{Call};
ghost use Rattle.vi_lines.specs.Legal.{AreCalls, IsLegalHistory};
ghost use Rattle.vi_lines.specs.Valid.{IsValid};
ghost use Rattle.vi_state.specs.Written.{page_set, written};
ghost use Rattle.vi_dirty.specs.Led.{CanGo, IsReady, led, maps_in};
ghost use Rattle.vi_dirty.specs.Rounds.{Adds, dirty_text, pages_text, pages_written, round_count, round_line, round_lines, text_from};

use crate::following::{count_maps, feed_all};
use crate::set::PageSet;
use crate::tracker::Tracker;
use std::alloc::{AllocError, Global};
use vi_bytes::Bytes;
use vi_history::Entry;
use vi_lines::Script;

/// A tracker on its way through a history, and the pages of all rounds so far.
#[derive(Drop)]
pub struct Course {
    pub tracker: Tracker,
    pub all: PageSet,
}

/// The pages that a script's history writes, round by round, as text. Each line ends with LF, and words are separated by one
/// space:
///
/// - `rounds R`, with the number of entries divided by `every`, rounded up;
/// - for each round `round I N` and the N pages that are written by its entries, rising;
/// - `dirty N` and the N pages that are written at all, rising.
///
/// A round has `every` entries, but for the last, which may have fewer. An error means out of memory.
pub fn text(
    alloc: Global,
    script: &Script,
    entries: &[Entry],
    every: u32,
) -> Result<Bytes, AllocError>
    requires valid { IsValid script.now }
    requires legal { IsLegalHistory script.now entries.now }
    requires some { 1 ≤ every }
    ensures { IfOk result (λ text. (calls : List Call) → AreCalls script.now entries.now calls → text ≡ dirty_text every (start script.now.setup) calls) }
{
    let mut course = begin(alloc, script, entries)?;
    let mut out = String::new(alloc);
    push_text(
        alloc,
        &mut out,
        script,
        &mut course,
        entries,
        every as usize,
    )?;
    Ok(Bytes::from_vec(out.into_bytes()))
}

// The course before the first entry, with room for all mappings that the history makes.
#[tactic(auto, unfolding(vi_history::specs::Start::start))]
fn begin(alloc: Global, script: &Script, entries: &[Entry]) -> Result<Course, AllocError>
    requires valid { IsValid script.now }
    requires legal { IsLegalHistory script.now entries.now }
    ensures go { IfOk result (λ course. CanGo script.now course.tracker course.all entries.now) }
    ensures one { IfOk result (λ course. course.tracker.one ≡ start script.now.setup) }
    ensures all { IfOk result (λ course. course.all.pages ≡ []) }
{
    let maps = count_maps(alloc, script, entries)?;
    let all = PageSet::new(alloc, script.setup.memory)?;
    let tracker = Tracker::new(alloc, &script.setup, maps)?;
    Ok(Course { tracker, all })
}

// Adds all lines.
fn push_text(
    alloc: Global,
    out: &mut String,
    script: &Script,
    course: &mut Course,
    entries: &[Entry],
    every: usize,
) -> Result<(), AllocError>
    requires valid { IsValid script.now }
    requires go { CanGo script.now course.old.tracker course.old.all entries.now }
    requires fresh { course.old.all.pages ≡ [] }
    requires some { 1 ≤ every }
    ensures { OnOk result ((calls : List Call) → AreCalls script.now entries.now calls → Adds out.old out.new (text_from every course.old.tracker.one calls)) }
{
    let count = entries.len().div_ceil(every);
    writeln!(out, "rounds {count}")?;
    push_rounds(alloc, out, script, course, entries, every)?;
    let pages = course.all.take(alloc)?;
    out.push_str("dirty ")?;
    push_pages(out, pages.as_slice())
}

// Adds the lines of the rounds.
fn push_rounds(
    alloc: Global,
    out: &mut String,
    script: &Script,
    course: &mut Course,
    entries: &[Entry],
    every: usize,
) -> Result<(), AllocError>
    requires valid { IsValid script.now }
    requires go { CanGo script.now course.old.tracker course.old.all entries.now }
    requires some { 1 ≤ every }
    ensures lines { OnOk result ((calls : List Call) → AreCalls script.now entries.now calls → Adds out.old out.new (round_lines every 1 (round_count every calls) course.old.tracker.one calls)) }
    ensures all { OnOk result ((calls : List Call) → AreCalls script.now entries.now calls → course.new.all.pages ≡ page_set course.old.all.room (course.old.all.pages ++ written course.old.tracker.one calls)) }
    ensures room { OnOk result (course.new.all.room ≡ course.old.all.room) }
{
    let count = entries.len().div_ceil(every);
    let mut rest = entries;
    for i in 0..count {
        let (round, later) = cut(rest, every);
        push_round(alloc, out, script, course, round, i + 1)?;
        rest = later;
    }
    Ok(())
}

// The first so many entries, or all where there are fewer, and the others.
fn cut(entries: &[Entry], every: usize) -> (&[Entry], &[Entry])
    ensures round { result.0.now ≡ take every entries.now }
    ensures later { result.1.now ≡ drop every entries.now }
{
    entries.split_at(every.min(entries.len()))
}

// Follows a round's entries, and adds its line.
fn push_round(
    alloc: Global,
    out: &mut String,
    script: &Script,
    course: &mut Course,
    round: &[Entry],
    number: usize,
) -> Result<(), AllocError>
    requires valid { IsValid script.now }
    requires ready { IsReady script.now course.old.tracker.one course.old.tracker.spare round.now }
    requires room { course.old.all.room ≡ course.old.tracker.one.dev.pages }
    ensures tracker { OnOk result (course.new.tracker ≡ record (led script.now course.old.tracker round.now) { set = [] }) }
    ensures line { OnOk result (Adds out.old out.new (round_line number (led script.now course.old.tracker round.now).set)) }
    ensures all { OnOk result (course.new.all ≡ record course.old.all { pages = page_set course.old.all.room (course.old.all.pages ++ (led script.now course.old.tracker round.now).set) }) }
{
    feed_all(alloc, script, &mut course.tracker, round)?;
    let pages = course.tracker.take(alloc)?;
    course.all.extend(pages.as_slice());
    write!(out, "round {number} ")?;
    push_pages(out, pages.as_slice())
}

// Adds how many pages there are, and the pages.
fn push_pages(out: &mut String, pages: &[u32]) -> Result<(), AllocError>
    ensures { OnOk result (Adds out.old out.new (pages_text pages.now)) }
{
    let count = pages.len();
    write!(out, "{count}")?;
    for page in pages {
        write!(out, " {page}")?;
    }
    out.push_str("\n")
}
