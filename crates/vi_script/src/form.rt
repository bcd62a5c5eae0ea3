//! The forms of statements: which words stand where in a line.
ghost use Rattle.std.specs.Prelude.{◌≡◌, ◌∷◌, [], ℕ, List, MatchResult};
ghost use Rattle.vi_script.specs.declared.fault.BadKind.TheVariants.{Word};
ghost use Rattle.vi_script.specs.Faults.{Finds};
ghost use Rattle.vi_script.specs.Forms.{SetsMemory, SetsQueue, SetsCache, SetsGranule, DeclaresEndpoint, StartsBypass, StartsEvents, number_form, switch_form, input_form, reserve_form, turns_form, turns_in_words, kind_of, actor_form, line_form, caller_of, form_of};
ghost use Rattle.vi_script.specs.Names.{named, all_turned};
ghost use Rattle.vi_script.specs.Formed.{sets, switches, formed};

use crate::deed::{ActWords, act, next_word, switch};
use crate::fault::{BadKind, Refusal};
use crate::name::{Name, TurnName, caller_name, turn_name};
use std::alloc::Global;
use vi_bytes::RegionKind;
use vi_words::{Words, is_word};

/// A setting of one number.
#[derive(Clone, Copy)]
pub enum Setting {
    Memory,
    Queue,
    Cache,
    Granule,
}

/// A setting that is on or off.
#[derive(Clone, Copy)]
pub enum Switch {
    Bypass,
    Events,
}

/// A statement, its numbers and bytes still words.
#[derive(Drop)]
pub enum FormWords<'a> {
    Sets(Setting, &'a [u8]),
    Switches(Switch, bool),
    Endpoint(&'a [u8]),
    Input {
        first: &'a [u8],
        last: &'a [u8],
    },
    Reserve {
        endpoint: &'a [u8],
        kind: RegionKind,
        first: &'a [u8],
        last: &'a [u8],
    },
    Turns(Vec<TurnName>),
    Acts(Name, ActWords<'a>),
}

/// The form that the words of a line have.
#[tactic(auto, unfolding(crate::specs::Forms::form_of))]
pub fn form<'a>(alloc: Global, mut words: Words<'a>) -> Result<FormWords<'a>, Refusal>
    ensures { Finds formed result (form_of words.entry) }
{
    let first = next_word(&mut words)?;
    if is_word(first, b"memory") {
        number(Setting::Memory, words)
    } else if is_word(first, b"queue") {
        number(Setting::Queue, words)
    } else if is_word(first, b"cache") {
        number(Setting::Cache, words)
    } else if is_word(first, b"granule") {
        number(Setting::Granule, words)
    } else if is_word(first, b"input") {
        input(words)
    } else if is_word(first, b"bypass") {
        switches(Switch::Bypass, words)
    } else if is_word(first, b"events") {
        switches(Switch::Events, words)
    } else if is_word(first, b"endpoint") {
        endpoint(words)
    } else if is_word(first, b"reserve") {
        reserve(words)
    } else if is_word(first, b"turns") {
        turns(alloc, words)
    } else {
        line(alloc, first, words)
    }
}

/// The one word behind a setting of a number.
fn number<'a>(setting: Setting, mut words: Words<'a>) -> Result<FormWords<'a>, Refusal>
    ensures { Finds formed result (number_form (sets setting) words.entry) }
{
    let word = next_word(&mut words)?;
    ended(words)?;
    Ok(FormWords::Sets(setting, word))
}

/// The one word behind `endpoint`.
fn endpoint<'a>(mut words: Words<'a>) -> Result<FormWords<'a>, Refusal>
    ensures { Finds formed result (number_form DeclaresEndpoint words.entry) }
{
    let word = next_word(&mut words)?;
    ended(words)?;
    Ok(FormWords::Endpoint(word))
}

/// The one word behind a setting that is on or off.
fn switches<'a>(setting: Switch, mut words: Words<'a>) -> Result<FormWords<'a>, Refusal>
    ensures { Finds formed result (switch_form (switches setting) words.entry) }
{
    let word = next_word(&mut words)?;
    ended(words)?;
    let on = switch(word)?;
    Ok(FormWords::Switches(setting, on))
}

/// The words behind `input`.
fn input<'a>(mut words: Words<'a>) -> Result<FormWords<'a>, Refusal>
    ensures { Finds formed result (input_form words.entry) }
{
    let first = next_word(&mut words)?;
    let last = next_word(&mut words)?;
    ended(words)?;
    Ok(FormWords::Input { first, last })
}

/// The words behind `reserve`.
fn reserve<'a>(mut words: Words<'a>) -> Result<FormWords<'a>, Refusal>
    ensures { Finds formed result (reserve_form words.entry) }
{
    let endpoint = next_word(&mut words)?;
    let kind = next_word(&mut words)?;
    let first = next_word(&mut words)?;
    let last = next_word(&mut words)?;
    ended(words)?;
    let kind = region_kind(kind)?;
    Ok(FormWords::Reserve {
        endpoint,
        kind,
        first,
        last,
    })
}

/// The kind of a region.
fn region_kind(word: &[u8]) -> Result<RegionKind, Refusal>
    ensures { Finds (λ kind. kind) result (kind_of word.now) }
{
    if is_word(word, b"reserved") {
        Ok(RegionKind::Reserved)
    } else if is_word(word, b"msi") {
        Ok(RegionKind::Msi)
    } else {
        Err(Refusal::Bad(BadKind::Word))
    }
}

/// The words behind `turns`, of which there is one or more.
fn turns<'a>(alloc: Global, words: Words<'a>) -> Result<FormWords<'a>, Refusal>
    ensures { Finds formed result (turns_form words.entry) }
{
    let turns = turn_names(alloc, words)?;
    if turns.is_empty() {
        return Err(Refusal::Bad(BadKind::Word));
    }
    Ok(FormWords::Turns(turns))
}

/// The turns that words name.
fn turn_names(alloc: Global, mut words: Words) -> Result<Vec<TurnName>, Refusal>
    ensures { Finds (λ names. all_turned names.items) result (turns_in_words words.entry) }
{
    let mut names = Vec::new(alloc);
    while let Some(word) = words.take() {
        names.push(turn_name(word)?)?;
    }
    Ok(names)
}

/// An actor line, whose first word is a caller's name.
fn line<'a>(alloc: Global, first: &[u8], words: Words<'a>) -> Result<FormWords<'a>, Refusal>
    ensures { Finds formed result (line_form (caller_of first.now) words.entry) }
{
    let caller = caller_name(first)?;
    let act = act(alloc, caller, words)?;
    Ok(FormWords::Acts(caller, act))
}

/// That no word is left.
fn ended(mut words: Words) -> Result<(), Refusal>
    ensures { MatchResult result (λ _. words.entry ≡ []) (λ e. (e ≡ Refusal.Bad Word) × ((word : List ℕ) × (rest : List (List ℕ)) × (words.entry ≡ word ∷ rest))) }
{
    match words.take() {
        Some(_) => Err(Refusal::Bad(BadKind::Word)),
        None => Ok(()),
    }
}
