//! Numbers and bytes as words.
ghost use Rattle.std.specs.Prelude.{◌≡◌, ◌≤◌, ◌<◌, ◌+◌, ◌*◌, ◌^◌};
ghost use Rattle.std.specs.Option.{SomeIff, option_map};
ghost use Rattle.vi_words.specs.Numbers.{digit_of, bounded, digits_in, number_of, has_leading_zero, capped, name_number_of};

/// Larger numbers in names count as this one: no line, driver or endpoint has such a number.
const TOO_LARGE: u64 = 1 << 32;

/// A number: decimal digits, or `0x` and hexadecimal digits in either case, below 2^64. `None` where the
/// word isn't one.
#[tactic(auto, unfolding(crate::specs::Numbers::number_of))]
pub fn number(word: &[u8]) -> Option<u64>
    ensures { result ≡ number_of word.now }
{
    if word.starts_with(b"0x") {
        worth(16, &word[2..])
    } else {
        worth(10, word)
    }
}

/// A number in a name: decimal digits without a leading zero, except 0 itself. It may have any size; from
/// 2^32 on it counts as 2^32. `None` where the word isn't one.
#[tactic(auto, unfolding(crate::specs::Numbers::name_number_of))]
pub fn name_number(word: &[u8]) -> Option<u64>
    ensures { result ≡ name_number_of word.now }
{
    if has_leading_zero(word) {
        return None;
    }
    capped_worth(word)
}

/// Whether the word begins with 0 and goes on.
fn has_leading_zero(word: &[u8]) -> bool
    ensures { result ≡ has_leading_zero word.now }
{
    match word {
        [first, _, ..] => *first == b'0',
        _ => false,
    }
}

/// The number that decimal digits spell, or `TOO_LARGE` from there on.
fn capped_worth(word: &[u8]) -> Option<u64>
    ensures { result ≡ option_map capped (digits_in 10 word.now) }
{
    if word.is_empty() {
        return None;
    }
    let mut worth: u64 = 0;
    for byte in word {
        let digit = digit(*byte);
        if digit >= 10 {
            return None;
        }
        worth = (worth * 10 + u64::from(digit)).min(TOO_LARGE);
    }
    Some(worth)
}

/// The number that digits of this base spell, if it is below 2^64.
fn worth(base: u8, word: &[u8]) -> Option<u64>
    requires some { 1 ≤ base }
    requires most { base ≤ 16 }
    ensures { result ≡ bounded (digits_in base word.now) }
{
    if word.is_empty() {
        return None;
    }
    let mut worth: u64 = 0;
    for byte in word {
        let digit = digit(*byte);
        if digit >= base {
            return None;
        }
        worth = with_digit(worth, base, digit)?;
    }
    Some(worth)
}

/// A number with one more digit behind it, if it is below 2^64.
fn with_digit(worth: u64, base: u8, digit: u8) -> Option<u64>
    ensures { SomeIff result (worth * base + digit < 2 ^ 64) (worth * base + digit) }
{
    worth
        .checked_mul(u64::from(base))?
        .checked_add(u64::from(digit))
}

/// The digit that a byte spells, up to 15, letters in either case, or 16.
pub fn digit(byte: u8) -> u8
    ensures value { result ≡ digit_of byte }
    ensures most { result ≤ 16 }
{
    match byte {
        b'0'..=b'9' => byte - b'0',
        b'a'..=b'f' => byte - b'a' + 10,
        b'A'..=b'F' => byte - b'A' + 10,
        _ => 16,
    }
}
