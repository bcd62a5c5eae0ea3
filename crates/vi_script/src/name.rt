//! Names of callers, of awaited lines and of turns, with numbers of any size.
ghost use Rattle.std.specs.Prelude.{◌≡◌};
ghost use Rattle.vi_words.specs.Numbers.{name_number_of};
ghost use Rattle.vi_script.specs.Faults.{Finds};
ghost use Rattle.vi_script.specs.Forms.{caller_of, await_of, turn_of};
ghost use Rattle.vi_script.specs.Judging.{turn_is_driver};
ghost use Rattle.vi_lines.specs.Limits.{is_driver};
ghost use Rattle.vi_script.specs.Names.{named, awaited, turned, caller_kept, await_kept, turn_kept};
ghost use Rattle.vi_script.specs.Statements.{fits, await_fits, turn_fits};

use crate::fault::{BadKind, Refusal};
use vi_history::Caller;
use vi_lines::{Await, Who};
use vi_words::{first_such, is_word, name_number};

/// The name of a caller. A number of 2^32 or more counts as 2^32.
#[derive(Clone, Copy, PartialEq, Eq)]
pub enum Name {
    Driver(u64),
    Back(u64),
}

impl Name {
    /// The name of a caller.
    pub fn of(caller: Caller) -> Name
        ensures { named result ≡ caller }
    {
        match caller {
            Caller::Driver(number) => Name::Driver(u64::from(number)),
            Caller::Back(id) => Name::Back(u64::from(id)),
        }
    }

    /// Whether an endpoint's id in the name is below 2^32.
    pub fn fits(self) -> bool
        ensures { result ≡ fits (named self) }
    {
        match self {
            Name::Driver(_) => true,
            Name::Back(id) => id < 1 << 32,
        }
    }

    /// The caller of this name, if its number is one that a caller can have; larger ones count as the
    /// largest.
    pub fn caller(self) -> Caller
        ensures { result ≡ caller_kept self }
    {
        match self {
            Name::Driver(number) => Caller::Driver(u8::try_from(number).unwrap_or(u8::MAX)),
            Name::Back(id) => Caller::Back(u32::try_from(id).unwrap_or(u32::MAX)),
        }
    }

    /// Whether a driver's number in the name is at most 7.
    pub fn is_driver(self) -> bool
        ensures { result ≡ is_driver (named self) }
    {
        match self {
            Name::Driver(number) => number <= 7,
            Name::Back(_) => true,
        }
    }
}

/// The name of an awaited line: its caller and its number, which counts as 2^32 from there on.
#[derive(Clone, Copy)]
pub struct AwaitedName {
    pub caller: Name,
    pub line: u64,
}

impl AwaitedName {
    /// Whether the caller's name fits, and the number is below 2^32.
    pub fn fits(self) -> bool
        ensures { result ≡ await_fits (awaited self) }
    {
        self.caller.fits() && self.line < 1 << 32
    }

    /// The line of this name, its numbers as those of `Name::caller`.
    pub fn kept(self) -> Await
        ensures { result ≡ await_kept self }
    {
        Await {
            caller: self.caller.caller(),
            line: u32::try_from(self.line).unwrap_or(u32::MAX),
        }
    }
}

/// The name of a turn.
#[derive(Clone, Copy)]
pub enum TurnName {
    Caller(Name),
    Device,
    Events,
}

impl TurnName {
    /// Whether the caller's name fits.
    pub fn fits(self) -> bool
        ensures { result ≡ turn_fits (turned self) }
    {
        match self {
            TurnName::Caller(caller) => caller.fits(),
            TurnName::Device | TurnName::Events => true,
        }
    }

    /// Whether a driver's number in the name is at most 7.
    pub fn is_driver(self) -> bool
        ensures { result ≡ turn_is_driver (turned self) }
    {
        match self {
            TurnName::Caller(caller) => caller.is_driver(),
            TurnName::Device | TurnName::Events => true,
        }
    }

    /// The turn of this name, its number as that of `Name::caller`.
    pub fn kept(self) -> Who
        ensures { result ≡ turn_kept self }
    {
        match self {
            TurnName::Caller(caller) => match caller.caller() {
                Caller::Driver(number) => Who::Driver(number),
                Caller::Back(id) => Who::Back(id),
            },
            TurnName::Device => Who::Device,
            TurnName::Events => Who::Events,
        }
    }
}

/// A number in a name.
fn number(word: &[u8]) -> Result<u64, Refusal>
    ensures { Finds (λ n. n) result (name_number_of word.now) }
{
    name_number(word).ok_or(Refusal::Bad(BadKind::Word))
}

/// The caller that a word names: `d` and a driver's number, or `b` and an endpoint's id.
pub fn caller_name(word: &[u8]) -> Result<Name, Refusal>
    ensures { Finds named result (caller_of word.now) }
{
    match word {
        [b'd', digits @ ..] => Ok(Name::Driver(number(digits)?)),
        [b'b', digits @ ..] => Ok(Name::Back(number(digits)?)),
        _ => Err(Refusal::Bad(BadKind::Word)),
    }
}

/// The line that a word names: a caller's name, a dot and a number.
pub fn awaited_name(word: &[u8]) -> Result<AwaitedName, Refusal>
    ensures { Finds awaited result (await_of word.now) }
{
    let Some(dot) = first_such(word, b'.') else {
        return Err(Refusal::Bad(BadKind::Word));
    };
    let caller = caller_name(&word[..dot])?;
    let line = number(&word[dot + 1..])?;
    Ok(AwaitedName { caller, line })
}

/// The turn that a word names: a caller, the device or the event reader.
pub fn turn_name(word: &[u8]) -> Result<TurnName, Refusal>
    ensures { Finds turned result (turn_of word.now) }
{
    if is_word(word, b"dev") {
        Ok(TurnName::Device)
    } else if is_word(word, b"evt") {
        Ok(TurnName::Events)
    } else {
        let caller = caller_name(word)?;
        Ok(TurnName::Caller(caller))
    }
}
