//! Fields of a report's lines. Each reader takes its field from the front of the bytes, and answers
//! it with the bytes that follow it, or nothing where it doesn't stand there.
ghost use Rattle.std.specs.Prelude.{◌≡◌, ◌<◌, ◌≤◌, ◌^◌, ◌-◌, drop, length, min, take_while, IfSome};
ghost use Rattle.std.specs.Char.{is_ascii_digit};
ghost use Rattle.std.specs.List.{AllPass, prefix_len};
ghost use Rattle.std.specs.Str.Parse.{digits_value};
ghost use Rattle.vi_report.specs.Lines.{after, bytes_at, count_at, is_lower_digit, is_plain, number_at, sized_at};
ghost use Rattle.vi_report.specs.Parsing.{Finds, Reads};

use crate::fault::Refusal;
use hex::FromHex;
use std::alloc::Global;
use vi_bytes::Bytes;

/// What follows this text.
pub fn after<'a>(text: &[u8], bytes: &'a [u8]) -> Option<&'a [u8]>
    ensures { Finds (λ rest. rest.now) result (after text.now bytes.now) }
{
    bytes.strip_prefix(text)
}

/// A number below the limit, in decimal without needless zeros.
pub fn read_number(limit: u64, bytes: &[u8]) -> Option<(u64, &[u8])>
    ensures found { Finds (λ x. (x.0, x.1.now)) result (number_at limit bytes.now) }
    ensures below { IfSome result (λ x. x.0 < limit) }
{
    let (digits, rest) = decimal_digits(bytes);
    if !is_plain(digits) {
        return None;
    }
    let number = worth(digits);
    if number < limit {
        Some((number, rest))
    } else {
        None
    }
}

/// A number from 1 and below the limit.
#[tactic(auto, unfolding(crate::specs::Lines::count_at))]
pub fn read_count(limit: u64, bytes: &[u8]) -> Option<(u64, &[u8])>
    ensures found { Finds (λ x. (x.0, x.1.now)) result (count_at limit bytes.now) }
    ensures below { IfSome result (λ x. x.0 < limit) }
{
    let (number, rest) = read_number(limit, bytes)?;
    if number == 0 {
        return None;
    }
    Some((number, rest))
}

/// Bytes as lower-case digits, two for each.
pub fn read_bytes(alloc: Global, bytes: &[u8]) -> Result<(Bytes, &[u8]), Refusal>
    ensures { Reads (λ x. (x.0, x.1.now)) result (bytes_at bytes.now) }
{
    let (digits, rest) = lower_digits(bytes);
    let read = hex::decode(alloc, digits)?;
    Ok((Bytes::from_vec(read), rest))
}

/// This many bytes.
#[tactic(auto, unfolding(crate::specs::Lines::sized_at))]
pub fn read_sized(alloc: Global, size: usize, bytes: &[u8]) -> Result<(Bytes, &[u8]), Refusal>
    ensures { Reads (λ x. (x.0, x.1.now)) result (sized_at size bytes.now) }
{
    let (read, rest) = read_bytes(alloc, bytes)?;
    if read.len() != size {
        return Err(Refusal::Unfit);
    }
    Ok((read, rest))
}

/// The 24 bytes of a fault record (Virtio 1.2, 5.13.6.9) as lower-case digits.
pub fn read_record_bytes(bytes: &[u8]) -> Option<([u8; 24], &[u8])>
    ensures { Finds (λ x. (x.0, x.1.now)) result (sized_at 24 bytes.now) }
{
    let (digits, rest) = lower_digits(bytes);
    let record = <[u8; 24] as FromHex>::from_hex(digits).ok()?;
    Some((record, rest))
}

/// The decimal digits at the front, and what follows them.
fn decimal_digits(bytes: &[u8]) -> (&[u8], &[u8])
    ensures digits { result.0.now ≡ take_while is_ascii_digit bytes.now }
    ensures rest { result.1.now ≡ drop (prefix_len is_ascii_digit bytes.now) bytes.now }
{
    bytes.split_at(decimal_len(bytes))
}

/// The digits `0` to `9` and `a` to `f` at the front, and what follows them.
fn lower_digits(bytes: &[u8]) -> (&[u8], &[u8])
    ensures digits { result.0.now ≡ take_while is_lower_digit bytes.now }
    ensures rest { result.1.now ≡ drop (prefix_len is_lower_digit bytes.now) bytes.now }
{
    bytes.split_at(lower_len(bytes))
}

/// How many decimal digits stand at the front.
fn decimal_len(bytes: &[u8]) -> usize
    ensures count { result ≡ prefix_len is_ascii_digit bytes.now }
    ensures within { result ≤ length bytes.now }
{
    bytes.iter().take_while(|b| b.is_ascii_digit()).count()
}

/// How many of the digits `0` to `9` and `a` to `f` stand at the front.
fn lower_len(bytes: &[u8]) -> usize
    ensures count { result ≡ prefix_len is_lower_digit bytes.now }
    ensures within { result ≤ length bytes.now }
{
    bytes.iter().take_while(|b| is_lower_digit(**b)).count()
}

/// Whether the byte is one of the digits `0` to `9` and `a` to `f`.
fn is_lower_digit(byte: u8) -> bool
    ensures { result ≡ is_lower_digit byte }
{
    matches!(byte, b'0'..=b'9' | b'a'..=b'f')
}

/// Whether there is a digit, and no needless 0 in front.
fn is_plain(digits: &[u8]) -> bool
    ensures { result ≡ is_plain digits.now }
{
    match digits {
        [] => false,
        [_] => true,
        [first, ..] => *first != b'0',
    }
}

/// The number that decimal digits spell, or the largest one if it is larger.
fn worth(digits: &[u8]) -> u64
    requires { AllPass is_ascii_digit digits.now }
    ensures { result ≡ min (digits_value 10 digits.now) (2 ^ 64 - 1) }
{
    let mut worth: u64 = 0;
    for digit in digits {
        worth = worth
            .saturating_mul(10)
            .saturating_add(u64::from(*digit - b'0'));
    }
    worth
}
