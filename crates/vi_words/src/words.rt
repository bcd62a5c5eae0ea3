//! The lines of a text and the words of a line, one after another, where they stand in the text.
ghost use Rattle.std.specs.Prelude.{◌≡◌, ◌==◌, ◌<◌, ◌&&◌, nat_le, [], ◌∷◌, length, not, position, IfSome, MatchOption};
ghost use Rattle.vi_words.specs.Words.{lines_of_text, words_of, is_word, is_comment, says_nothing, has_bad_byte};

use std::marker::Model;

/// The lines of a text that are still to be read.
#[derive(Debug, Drop)]
pub struct Lines<'a> {
    rest: &'a [u8],
}

impl<'a> Model for Lines<'a> {
    ghost use Rattle.std.specs.Prelude.{List, ℕ};
    ghost use Rattle.vi_words.specs.Words.{lines_of_text};

    ghost Value = { List (List ℕ) };

    ghost view = { λ l. lines_of_text l.rest.now };
}

impl<'a> Lines<'a> {
    /// All lines of a text.
    pub fn of(text: &'a [u8]) -> Lines<'a>
        ensures { result ≡ lines_of_text text.now }
    {
        Lines { rest: text }
    }

    /// The next line without its LF.
    pub fn take(&mut self) -> Option<&'a [u8]>
        ensures { MatchOption result ((self.old ≡ []) × (self.new ≡ [])) (λ line. self.old ≡ line.now ∷ self.new) }
    {
        let (line, rest) = cut_line(self.rest)?;
        self.rest = rest;
        Some(line)
    }
}

/// The words of a line that are still to be read.
#[derive(Debug, Drop)]
pub struct Words<'a> {
    rest: &'a [u8],
}

impl<'a> Model for Words<'a> {
    ghost use Rattle.std.specs.Prelude.{List, ℕ};
    ghost use Rattle.vi_words.specs.Words.{words_of};

    ghost Value = { List (List ℕ) };

    ghost view = { λ w. words_of w.rest.now };
}

impl<'a> Words<'a> {
    /// All words of a line.
    pub fn of(line: &'a [u8]) -> Words<'a>
        ensures { result ≡ words_of line.now }
    {
        Words { rest: line }
    }

    /// The next word.
    pub fn take(&mut self) -> Option<&'a [u8]>
        ensures { MatchOption result ((self.old ≡ []) × (self.new ≡ [])) (λ word. self.old ≡ word.now ∷ self.new) }
    {
        let (word, rest) = cut_word(self.rest)?;
        self.rest = rest;
        Some(word)
    }

    /// The same words, to be read once more.
    pub fn again(&self) -> Words<'a>
        ensures { result ≡ self.now }
    {
        Words { rest: self.rest }
    }
}

/// The first line of a text, and what stands behind it.
fn cut_line(text: &[u8]) -> Option<(&[u8], &[u8])>
    ensures { MatchOption result (lines_of_text text.now ≡ []) (λ parts. lines_of_text text.now ≡ parts.0.now ∷ lines_of_text parts.1.now) }
{
    match first_such(text, b'\n') {
        Some(end) => Some((&text[..end], &text[end + 1..])),
        None if text.is_empty() => None,
        None => Some((text, &[])),
    }
}

/// The first word of a line, and what stands behind it.
fn cut_word(line: &[u8]) -> Option<(&[u8], &[u8])>
    ensures { MatchOption result (words_of line.now ≡ []) (λ parts. words_of line.now ≡ parts.0.now ∷ words_of parts.1.now) }
{
    let start = first_other(line, b' ')?;
    let word = &line[start..];
    match first_such(word, b' ') {
        Some(end) => Some((&word[..end], &word[end..])),
        None => Some((word, &[])),
    }
}

/// Where the first byte other than this one stands.
fn first_other(bytes: &[u8], byte: u8) -> Option<usize>
    ensures place { result ≡ position (λ b. not (b == byte)) bytes.now }
    ensures within { IfSome result (λ at. at < length bytes.now) }
{
    bytes.iter().position(|b| *b != byte)
}

/// Where the first such byte stands.
pub fn first_such(bytes: &[u8], byte: u8) -> Option<usize>
    ensures place { result ≡ position (λ b. b == byte) bytes.now }
    ensures within { IfSome result (λ at. at < length bytes.now) }
{
    bytes.iter().position(|b| *b == byte)
}

/// Whether the word is this text.
pub fn is_word(word: &[u8], text: &[u8]) -> bool
    ensures { result ≡ is_word word.now text.now }
{
    word == text
}

/// Whether a byte isn't one of 32 to 126.
pub fn has_bad_byte(line: &[u8]) -> bool
    ensures { result ≡ has_bad_byte line.now }
{
    let mut bad = false;
    // No way out before the end, so that a compiler may look at many bytes at a time.
    for byte in line {
        bad |= is_bad(*byte);
    }
    bad
}

fn is_bad(byte: u8) -> bool
    ensures { result ≡ not (nat_le 32 byte && nat_le byte 126) }
{
    !(32 <= byte && byte <= 126)
}

/// Whether a line says nothing: it has no words, or the first begins with `#`.
pub fn says_nothing(mut words: Words) -> bool
    ensures { result ≡ says_nothing words.entry }
{
    match words.take() {
        Some(word) => is_comment(word),
        None => true,
    }
}

/// Whether the word begins with `#`.
fn is_comment(word: &[u8]) -> bool
    ensures { result ≡ is_comment word.now }
{
    match word {
        [first, ..] => *first == b'#',
        [] => false,
    }
}
