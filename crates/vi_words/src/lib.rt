//! Texts as lines, words and numbers: what scripts and traces are written in. It is for an author
//! of a reader of such texts.
//!
//! Main calls:
//! - `Lines::of` and `Words::of`, with `take`: the lines of a text; the words of a line.
//! - `number` and `name_number`: the number that a word spells, or `None`.
//! - `hex_bytes`: the bytes that a word of hexadecimal digits spells, or `None`.
//!
//! # Example
//! A test of `tests_lists` runs this:
//! ```
//! let mut lines = Lines::of(b"# x\n  d0  map\nend");
//! assert!(rt;
//!     lines
//!         .take()
//!         .is_some_and(|line| says_nothing(Words::of(line)))
//! );
//! let mut words = Words::of(lines.take().unwrap_or(b""));
//! assert!(rt; words.take().is_some_and(|word| is_word(word, b"d0")));
//! assert!(rt;
//!     words
//!         .again()
//!         .take()
//!         .is_some_and(|word| is_word(word, b"map"))
//! );
//! assert!(rt; lines.take().is_some_and(|line| !has_bad_byte(line)));
//! assert!(rt; lines.take().is_none());
//! assert!(rt; has_bad_byte(b"\t"));
//! ```
//!
//! # Limits
//! - A line ends with LF, which the last may lack. Space alone parts words: a tab is a byte of a
//!   word, which `has_bad_byte` finds.
//! - `number` answers numbers below 2^64. `name_number` answers 2^32 for all from there on.
//! - `hex_bytes` takes memory, and out of memory is its error. The others take none.
#![tactic(auto)]

mod hex_word;
mod numbers;
mod words;

pub use hex_word::hex_bytes;
pub use numbers::{digit, name_number, number};
pub use words::{Lines, Words, first_such, has_bad_byte, is_word, says_nothing};
