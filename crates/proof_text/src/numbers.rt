//! Numbers as words.

ghost use Rattle.std.specs.Prelude.{◌≡◌, ◌≤◌, ◌++◌, decimal, IfSome, OnOk, OnErr};
ghost use Rattle.proof_text.specs.Numbers.{number_in, has_leading_zero, digits_in, digit_after};

use itoa::Buffer;
use std::alloc::AllocError;

/// The number that a word is, in decimal digits with no leading zero, if it is from low to high.
#[tactic(auto, unfolding(crate::specs::Numbers::number_in, crate::specs::Numbers::digits_in))]
pub fn read_number(word: &[u8], low: u64, high: u64) -> Option<u64>
    ensures value { result ≡ number_in low high word.now }
    ensures within { IfSome result (λ number. (low ≤ number) × (number ≤ high)) }
{
    if word.is_empty() || has_leading_zero(word) {
        return None;
    }
    let number = value_of(word)?;
    if low <= number && number <= high {
        Some(number)
    } else {
        None
    }
}

fn has_leading_zero(word: &[u8]) -> bool
    ensures { result ≡ has_leading_zero word.now }
{
    matches!(word, [b'0', _, ..])
}

/// The number that digits stand for, leading zeros or not, if it is below 2 ^ 64.
fn value_of(digits: &[u8]) -> Option<u64>
    ensures { result ≡ digits_in digits.now }
{
    let mut number: u64 = 0;
    for digit in digits {
        number = with_digit(number, *digit)?;
    }
    Some(number)
}

/// A number with one more digit at its end, if it stays below 2 ^ 64.
#[tactic(auto, unfolding(crate::specs::Numbers::digit_after))]
fn with_digit(number: u64, digit: u8) -> Option<u64>
    ensures { result ≡ digit_after number digit }
{
    if !digit.is_ascii_digit() {
        return None;
    }
    number.checked_mul(10)?.checked_add(u64::from(digit - b'0'))
}

/// Puts a number's decimal digits at the end.
pub fn print_number(out: &mut Vec<u8>, n: u64) -> Result<(), AllocError>
    ensures ok { OnOk result (out.new.items ≡ out.old.items ++ decimal n) }
    ensures err { OnErr result (out.new.items ≡ out.old.items) }
{
    let mut buffer = Buffer::new();
    out.extend_from_slice(buffer.format(n).as_bytes())
}
