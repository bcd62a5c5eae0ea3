//! The forms of actor lines: which words stand where behind a caller's name.
ghost use Rattle.std.specs.Prelude.{◌≡◌, ◌∷◌, [], ℕ, Bool, MatchResult};
ghost use Rattle.vi_script.specs.declared.fault.BadKind.TheVariants.{Word};
ghost use Rattle.vi_script.specs.Faults.{Finds};
ghost use Rattle.vi_script.specs.Forms.{Deed, some_awaits, ending_of, switch_of, act_with, attach_ending, map_ending, attach_act, detach_act, map_act, unmap_act, probe_act, raw_act, bypass_act, read_act, write_act, request_act, driver_act, back_act, act_of};
ghost use Rattle.vi_script.specs.Names.{named, all_awaited};
ghost use Rattle.vi_script.specs.Formed.{deed_of, acted};

use crate::fault::{BadKind, Refusal};
use crate::name::{AwaitedName, Name, awaited_name};
use std::alloc::Global;
use vi_words::{Words, is_word};

/// What an actor line does, its numbers and bytes still words.
#[derive(Clone, Copy)]
pub enum DeedWords<'a> {
    Attach {
        domain: &'a [u8],
        endpoint: &'a [u8],
        bypass: bool,
    },
    Detach {
        domain: &'a [u8],
        endpoint: &'a [u8],
    },
    Map {
        domain: &'a [u8],
        first: &'a [u8],
        last: &'a [u8],
        target: &'a [u8],
        flags: u32,
    },
    Unmap {
        domain: &'a [u8],
        first: &'a [u8],
        last: &'a [u8],
    },
    Probe {
        endpoint: &'a [u8],
    },
    Bypass {
        on: bool,
    },
    Raw {
        hex: &'a [u8],
        writable: &'a [u8],
    },
    Read {
        iova: &'a [u8],
        len: &'a [u8],
    },
    Write {
        iova: &'a [u8],
        hex: &'a [u8],
    },
}

/// What an actor line does, whether its driver goes on without waiting, and which lines it awaits.
#[derive(Drop)]
pub struct ActWords<'a> {
    pub deed: DeedWords<'a>,
    pub add: bool,
    pub awaits: Vec<AwaitedName>,
}

/// The next word where one must stand.
pub fn next_word<'a>(words: &mut Words<'a>) -> Result<&'a [u8], Refusal>
    ensures { MatchResult result (λ word. words.old ≡ word.now ∷ words.new) (λ e. (e ≡ Refusal.Bad Word) × (words.old ≡ [])) }
{
    words.take().ok_or(Refusal::Bad(BadKind::Word))
}

/// The words of a line from behind its caller's name on.
pub fn act<'a>(alloc: Global, caller: Name, words: Words<'a>) -> Result<ActWords<'a>, Refusal>
    ensures { Finds acted result (act_of (named caller) words.entry) }
{
    match caller {
        Name::Driver(_) => driver(alloc, words),
        Name::Back(_) => back(alloc, words),
    }
}

/// The words behind a driver's name: a bypass setting, `add` and a request, or a request.
fn driver<'a>(alloc: Global, words: Words<'a>) -> Result<ActWords<'a>, Refusal>
    ensures { Finds acted result (driver_act words.entry) }
{
    let mut rest = words.again();
    let verb = next_word(&mut rest)?;
    if is_word(verb, b"bypass") {
        bypass(alloc, rest)
    } else if is_word(verb, b"add") {
        request(alloc, true, rest)
    } else {
        request(alloc, false, words)
    }
}

/// The words behind a back end's name, by their verb.
fn back<'a>(alloc: Global, mut words: Words<'a>) -> Result<ActWords<'a>, Refusal>
    ensures { Finds acted result (back_act words.entry) }
{
    let verb = next_word(&mut words)?;
    if is_word(verb, b"read") {
        read(alloc, words)
    } else if is_word(verb, b"write") {
        write(alloc, words)
    } else {
        Err(Refusal::Bad(BadKind::Word))
    }
}

/// A request, by its verb.
fn request<'a>(alloc: Global, add: bool, mut words: Words<'a>) -> Result<ActWords<'a>, Refusal>
    ensures { Finds acted result (request_act add words.entry) }
{
    let verb = next_word(&mut words)?;
    if is_word(verb, b"attach") {
        attach(alloc, add, words)
    } else if is_word(verb, b"detach") {
        detach(alloc, add, words)
    } else if is_word(verb, b"map") {
        map(alloc, add, words)
    } else if is_word(verb, b"unmap") {
        unmap(alloc, add, words)
    } else if is_word(verb, b"probe") {
        probe(alloc, add, words)
    } else if is_word(verb, b"raw") {
        raw(alloc, add, words)
    } else {
        Err(Refusal::Bad(BadKind::Word))
    }
}

/// A deed whose line ends with these words.
fn ends<'a>(
    alloc: Global,
    add: bool,
    deed: DeedWords<'a>,
    words: Words<'a>,
) -> Result<ActWords<'a>, Refusal>
    ensures { Finds acted result (act_with add (deed_of deed.entry) words.entry) }
{
    let awaits = ending(alloc, words)?;
    Ok(ActWords { deed, add, awaits })
}

/// The awaited lines of an actor line's end: none, or those of the words behind `after`.
fn ending(alloc: Global, mut words: Words) -> Result<Vec<AwaitedName>, Refusal>
    ensures { Finds (λ names. all_awaited names.items) result (ending_of words.entry) }
{
    match words.take() {
        Some(word) if is_word(word, b"after") => awaited_names(alloc, words),
        Some(_) => Err(Refusal::Bad(BadKind::Word)),
        None => Ok(Vec::new(alloc)),
    }
}

/// The lines that words name, of which there is one or more.
fn awaited_names(alloc: Global, mut words: Words) -> Result<Vec<AwaitedName>, Refusal>
    ensures { Finds (λ names. all_awaited names.items) result (some_awaits words.entry) }
{
    let mut names = Vec::new(alloc);
    while let Some(word) = words.take() {
        names.push(awaited_name(word)?)?;
    }
    if names.is_empty() {
        return Err(Refusal::Bad(BadKind::Word));
    }
    Ok(names)
}

/// The words behind `attach`.
fn attach<'a>(alloc: Global, add: bool, mut words: Words<'a>) -> Result<ActWords<'a>, Refusal>
    ensures { Finds acted result (attach_act add words.entry) }
{
    let domain = next_word(&mut words)?;
    let endpoint = next_word(&mut words)?;
    let (bypass, words) = bypass_word(words);
    let deed = DeedWords::Attach {
        domain,
        endpoint,
        bypass,
    };
    ends(alloc, add, deed, words)
}

/// Whether `bypass` comes next, and the words behind it.
fn bypass_word<'a>(words: Words<'a>) -> (bool, Words<'a>)
    ensures { (add : Bool) (attaches : Bool → Deed) → attach_ending add attaches words.entry ≡ act_with add (attaches result.0) result.1 }
{
    let mut rest = words.again();
    match rest.take() {
        Some(word) if is_word(word, b"bypass") => (true, rest),
        _ => (false, words),
    }
}

/// The words behind `detach`.
fn detach<'a>(alloc: Global, add: bool, mut words: Words<'a>) -> Result<ActWords<'a>, Refusal>
    ensures { Finds acted result (detach_act add words.entry) }
{
    let domain = next_word(&mut words)?;
    let endpoint = next_word(&mut words)?;
    ends(alloc, add, DeedWords::Detach { domain, endpoint }, words)
}

/// The words behind `map`.
fn map<'a>(alloc: Global, add: bool, mut words: Words<'a>) -> Result<ActWords<'a>, Refusal>
    ensures { Finds acted result (map_act add words.entry) }
{
    let domain = next_word(&mut words)?;
    let first = next_word(&mut words)?;
    let last = next_word(&mut words)?;
    let target = next_word(&mut words)?;
    let (flags, words) = map_flags(words);
    let deed = DeedWords::Map {
        domain,
        first,
        last,
        target,
        flags,
    };
    ends(alloc, add, deed, words)
}

/// The flags that `r`, `w` or `rw` stands for, 0 where none of them comes next, and the words behind it.
fn map_flags<'a>(words: Words<'a>) -> (u32, Words<'a>)
    ensures { (add : Bool) (maps : ℕ → Deed) → map_ending add maps words.entry ≡ act_with add (maps result.0) result.1 }
{
    let mut rest = words.again();
    match rest.take() {
        Some(word) if is_word(word, b"r") => (1, rest),
        Some(word) if is_word(word, b"w") => (2, rest),
        Some(word) if is_word(word, b"rw") => (3, rest),
        _ => (0, words),
    }
}

/// The words behind `unmap`.
fn unmap<'a>(alloc: Global, add: bool, mut words: Words<'a>) -> Result<ActWords<'a>, Refusal>
    ensures { Finds acted result (unmap_act add words.entry) }
{
    let domain = next_word(&mut words)?;
    let first = next_word(&mut words)?;
    let last = next_word(&mut words)?;
    let deed = DeedWords::Unmap {
        domain,
        first,
        last,
    };
    ends(alloc, add, deed, words)
}

/// The words behind `probe`.
fn probe<'a>(alloc: Global, add: bool, mut words: Words<'a>) -> Result<ActWords<'a>, Refusal>
    ensures { Finds acted result (probe_act add words.entry) }
{
    let endpoint = next_word(&mut words)?;
    ends(alloc, add, DeedWords::Probe { endpoint }, words)
}

/// The words behind `raw`.
fn raw<'a>(alloc: Global, add: bool, mut words: Words<'a>) -> Result<ActWords<'a>, Refusal>
    ensures { Finds acted result (raw_act add words.entry) }
{
    let hex = next_word(&mut words)?;
    let writable = next_word(&mut words)?;
    ends(alloc, add, DeedWords::Raw { hex, writable }, words)
}

/// The words behind a driver's `bypass`.
fn bypass<'a>(alloc: Global, mut words: Words<'a>) -> Result<ActWords<'a>, Refusal>
    ensures { Finds acted result (bypass_act words.entry) }
{
    let word = next_word(&mut words)?;
    let on = switch(word)?;
    ends(alloc, false, DeedWords::Bypass { on }, words)
}

/// The words behind `read`.
fn read<'a>(alloc: Global, mut words: Words<'a>) -> Result<ActWords<'a>, Refusal>
    ensures { Finds acted result (read_act words.entry) }
{
    let iova = next_word(&mut words)?;
    let len = next_word(&mut words)?;
    ends(alloc, false, DeedWords::Read { iova, len }, words)
}

/// The words behind `write`.
fn write<'a>(alloc: Global, mut words: Words<'a>) -> Result<ActWords<'a>, Refusal>
    ensures { Finds acted result (write_act words.entry) }
{
    let iova = next_word(&mut words)?;
    let hex = next_word(&mut words)?;
    ends(alloc, false, DeedWords::Write { iova, hex }, words)
}

/// Whether a word is `on` or `off`.
pub fn switch(word: &[u8]) -> Result<bool, Refusal>
    ensures { Finds (λ on. on) result (switch_of word.now) }
{
    if is_word(word, b"on") {
        Ok(true)
    } else if is_word(word, b"off") {
        Ok(false)
    } else {
        Err(Refusal::Bad(BadKind::Word))
    }
}
