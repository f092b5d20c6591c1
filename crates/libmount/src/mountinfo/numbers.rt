// Numbers as text.
ghost use Rattle.std.specs.Prelude.{◌≡◌, IfOk, Some};
ghost use Rattle.libmount.specs.Numbers.{digits_value, number_at, number_field, number_of};
ghost use Rattle.libmount.specs.Numbers.{unsigned, with_digit, Goes};
ghost use Rattle.libmount.specs.Reading.{Gives, fault_text};
ghost use Rattle.libmount.specs.Slices.{LiesIn, placed};

use crate::mountinfo::cuts::field;
use crate::mountinfo::refusals::Refusal;
use std::fmt;

/// What is wrong with a number.
#[derive(Clone, Copy, Debug, PartialEq, Eq)]
pub enum NumberFault {
    Empty,
    InvalidDigit,
    TooLarge,
}

impl NumberFault {
    /// What is wrong, in words.
    pub(crate) fn text(self) -> &'static str
        ensures { result.now ≡ fault_text self }
    {
        match self {
            NumberFault::Empty => "empty",
            NumberFault::InvalidDigit => "invalid digit",
            NumberFault::TooLarge => "number too large",
        }
    }
}

impl fmt::Display for NumberFault {
    ghost output = { λ e. Some (fault_text e) };

    fn fmt<W: fmt::Write>(&self, f: &mut fmt::Formatter<W>) -> fmt::Result {
        f.write_str(self.text())
    }
}

impl std::error::Error for NumberFault {}

// The number that a digit goes on to.
fn with_digit(number: u64, digit: u8) -> Result<u64, NumberFault>
    ensures { Goes number digit result }
{
    if !digit.is_ascii_digit() {
        return Err(NumberFault::InvalidDigit);
    }
    match number.checked_mul(10) {
        Some(tens) => match tens.checked_add(u64::from(digit - b'0')) {
            Some(more) => Ok(more),
            None => Err(NumberFault::TooLarge),
        },
        None => Err(NumberFault::TooLarge),
    }
}

fn digits_value(digits: &[u8]) -> Result<u64, NumberFault>
    ensures { result ≡ digits_value digits.now }
{
    if digits.is_empty() {
        return Err(NumberFault::InvalidDigit);
    }
    let mut number = 0;
    for digit in digits {
        number = with_digit(number, *digit)?;
    }
    Ok(number)
}

fn unsigned(text: &[u8]) -> &[u8]
    ensures { result.now ≡ unsigned text.now }
{
    if !text.is_empty() && text[0] == b'+' {
        &text[1..]
    } else {
        text
    }
}

/// A number: digits, and a plus may stand before them.
#[tactic(auto, unfolding(crate::specs::Numbers::number_of))]
fn number(text: &[u8]) -> Result<u64, NumberFault>
    ensures { result ≡ number_of text.now }
{
    if text.is_empty() {
        return Err(NumberFault::Empty);
    }
    digits_value(unsigned(text))
}

/// A number up to a space, and what follows it.
#[tactic(auto, unfolding(crate::specs::Numbers::number_at))]
pub(crate) fn number_at(bytes: &[u8]) -> Result<(u64, &[u8]), Refusal<'_>>
    ensures value { Gives (λ found. (found.0, placed found.1)) result
        (number_at (placed bytes.entry)) }
    ensures rest { IfOk result (λ found. LiesIn bytes.entry found.1) }
{
    let (text, rest) = field(b" ", bytes)?;
    match number(text) {
        Ok(number) => Ok((number, rest)),
        Err(fault) => Err(Refusal::Number(text, fault)),
    }
}

/// A number in a field that another mark ends, and what follows it.
#[tactic(auto, unfolding(crate::specs::Numbers::number_field))]
pub(crate) fn number_field<'a>(mark: &[u8], bytes: &'a [u8]) -> Result<(u64, &'a [u8]), Refusal<'a>>
    ensures value { Gives (λ found. (found.0, placed found.1)) result
        (number_field mark.now (placed bytes.entry)) }
    ensures rest { IfOk result (λ found. LiesIn bytes.entry found.1) }
{
    let (text, rest) = field(mark, bytes)?;
    let (number, _) = number_at(text)?;
    Ok((number, rest))
}
