//! A driver's row.
ghost use Rattle.std.specs.Prelude.{◌≡◌, ◌<◌, ◌==◌, not, None, Some, length, filter, is_some};
ghost use Rattle.std.specs.Option.{option_map};
ghost use Rattle.vi_calls.specs.Rows.{no_row, setting_of, added, first_token, lower, other_tokens, without_first};

use arrayvec::ArrayVec;
use std::marker::Model;

/// A driver's line that sets the bypass field (Virtio 1.2, 5.13.4), and what it sets it to.
#[derive(Clone, Copy, Debug, PartialEq, Eq)]
pub struct Setting {
    pub line: u32,
    pub on: bool,
}

/// An answered line: that of a request, by the head of its used chain, or of a setting.
#[derive(Clone, Copy, Debug, PartialEq, Eq, Default)]
pub struct Token {
    pub line: u32,
    pub head: Option<u16>,
}

/// The setting that a driver left, its lines that are answered and not collected, in the order of the answers, at most
/// 8, and how many of its first lines are all finished. No call takes memory.
#[derive(Drop)]
pub struct Row {
    setting: Option<Setting>,
    answered: ArrayVec<Token, 8>,
    posted: u32,
}

impl Model for Row {
    ghost use Rattle.vi_calls.specs.Rows.{RowValue, row_of};

    ghost Value = { RowValue };

    ghost view = { row_of };
}

// The token of the lower line, the first of equal ones.
fn lower(token: Token, other: Option<Token>) -> Token
    ensures { result ≡ lower token other }
{
    match other {
        None => token,
        Some(other) => {
            if other.line < token.line {
                other
            } else {
                token
            }
        }
    }
}

// The token of the lowest line.
fn first(tokens: &[Token]) -> Option<Token>
    ensures { result ≡ first_token tokens.now }
{
    let mut first = None;
    let mut left = tokens.len();
    while left > 0 {
        left -= 1;
        first = Some(lower(tokens[left], first));
    }
    first
}

// Only the tokens of other lines stay.
fn drop_line(tokens: &mut ArrayVec<Token, 8>, line: u32)
    ensures { tokens.new.items ≡ other_tokens line tokens.old.items }
{
    tokens.retain(|token| token.line != line);
}

impl Row {
    /// No setting, no answered line, and none that is finished.
    pub fn new() -> Row
        ensures { result ≡ no_row }
    {
        Row {
            setting: None,
            answered: ArrayVec::new(),
            posted: 0,
        }
    }

    /// Leaves a setting.
    pub fn leave(&mut self, setting: Setting)
        requires { self.old.setting ≡ None }
        ensures { self.new ≡ record self.old { setting = Some (setting_of setting) } }
    {
        self.setting = Some(setting);
    }

    /// Whether a setting is left.
    pub fn has_setting(&self) -> bool
        ensures { result ≡ is_some self.now.setting }
    {
        self.setting.is_some()
    }

    /// The setting that was left, which is no more.
    pub fn take_setting(&mut self) -> Option<Setting>
        ensures taken { option_map setting_of result ≡ self.old.setting }
        ensures rest { self.new ≡ record self.old { setting = None } }
    {
        self.setting.take()
    }

    /// One more line is answered.
    pub fn add(&mut self, token: Token)
        requires { length self.old.answered < 8 }
        ensures { self.new ≡ added token self.old }
    {
        self.answered.push(token);
    }

    /// The answered line of the lowest number, which is no more, or `None` where no line is answered.
    pub fn take_first(&mut self) -> Option<Token>
        ensures first { result ≡ first_token self.old.answered }
        ensures rest { self.new ≡ without_first result self.old }
    {
        let first = first(&self.answered);
        if let Some(token) = first {
            drop_line(&mut self.answered, token.line);
        }
        first
    }

    /// So many of the first lines are all finished.
    pub fn post(&mut self, lines: u32)
        ensures { self.new ≡ record self.old { posted = lines } }
    {
        self.posted = lines;
    }

    /// How many of the first lines are all finished, as it was last posted.
    pub fn posted(&self) -> u32
        ensures { result ≡ self.now.posted }
    {
        self.posted
    }
}
