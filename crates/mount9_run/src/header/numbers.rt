//! Numbers and modes of a header.
ghost use Rattle.std.specs.Prelude.{◌≡◌, ◌<◌, ◌≤◌, ◌-◌, ◌^◌, length, IfOk, IfSome, IsTrue};
ghost use Rattle.std.specs.Prelude.{EachIndex, slice_index};
ghost use Rattle.std.specs.List.{list_all};
ghost use Rattle.mount9_run.specs.Reading.{Gives};
ghost use Rattle.port_base.specs.Decimals.{number_of};
ghost use Rattle.mount9_run.specs.Numbers.{in_range, number_at};
ghost use Rattle.mount9_run.specs.Numbers.{number_field, is_octal, mode_of, mode_field};

use crate::header::error::HeaderError;
use crate::header::lines::field;
use port_base::decimals::number_of;

/// A number from `low` to `high`, where the text is one.
pub fn number_in(low: u64, high: u64, text: &[u8]) -> Option<u64>
    ensures value { result ≡ in_range low high (number_of text.now) }
    ensures range { IfSome result (λ n. (low ≤ n) × (n ≤ high)) }
{
    match number_of(text) {
        Some(n) => { if n >= low && n <= high { Some(n) } else { None } }
        None => None,
    }
}

/// The same, or the line that is refused.
#[tactic(auto, unfolding(crate::specs::Numbers::number_at))]
pub fn number(low: u64, high: u64, at: u64, text: &[u8]) -> Result<u64, HeaderError>
    ensures value { Gives (λ x. x) result (number_at low high at text.now) }
    ensures range { IfOk result (λ n. (low ≤ n) × (n ≤ high)) }
{
    match number_in(low, high, text) {
        Some(n) => Ok(n),
        None => Err(HeaderError::Line(at)),
    }
}

/// The same as a field, and what follows.
#[tactic(auto, unfolding(crate::specs::Numbers::number_field))]
pub fn number_field(low: u64, high: u64, at: u64, line: &[u8]) -> Result<(u64, &[u8]), HeaderError>
    ensures value { Gives (λ x. (x.0, x.1.now)) result (number_field low high at line.now) }
    ensures range { IfOk result (λ x. (low ≤ x.0) × (x.0 ≤ high)) }
{
    let (text, rest) = field(at, line)?;
    let n = number(low, high, at, text)?;
    Ok((n, rest))
}

/// A number of at most `high`.
pub fn small_number(high: u32, at: u64, text: &[u8]) -> Result<u32, HeaderError>
    ensures value { Gives (λ x. x) result (number_at 0 high at text.now) }
    ensures range { IfOk result (λ n. n ≤ high) }
{
    let n = number(0, high as u64, at, text)?;
    Ok(n as u32)
}

/// The number of an owner as a field, and what follows.
pub fn owner_field(at: u64, line: &[u8]) -> Result<(u32, &[u8]), HeaderError>
    ensures { Gives (λ x. (x.0, x.1.now)) result (number_field 0 (2 ^ 32 - 1) at line.now) }
{
    let (n, rest) = number_field(0, u32::MAX as u64, at, line)?;
    Ok((n as u32, rest))
}

fn are_octal(text: &[u8]) -> bool
    ensures value { result ≡ list_all is_octal text.now }
    ensures each { IsTrue result
        → EachIndex text.now (λ k. (48 ≤ slice_index text.now k) × (slice_index text.now k ≤ 55)) }
{
    text.iter().all(|b| *b >= b'0' && *b <= b'7')
}

// The value of four octal digits.
#[tactic(auto, unfolding(crate::specs::Numbers::mode_of))]
fn mode_value(text: &[u8]) -> Option<u32>
    ensures value { result ≡ mode_of text.now }
    ensures range { IfSome result (λ mode. mode < 4096) }
{
    if text.len() == 4 && are_octal(text) {
        Some(
            512 * (text[0] - b'0') as u32
                + 64 * (text[1] - b'0') as u32
                + 8 * (text[2] - b'0') as u32
                + (text[3] - b'0') as u32,
        )
    } else {
        None
    }
}

/// A mode of four octal digits as a field, and what follows.
#[tactic(auto, unfolding(crate::specs::Numbers::mode_field))]
pub fn mode_field(at: u64, line: &[u8]) -> Result<(u32, &[u8]), HeaderError>
    ensures value { Gives (λ x. (x.0, x.1.now)) result (mode_field at line.now) }
    ensures range { IfOk result (λ x. x.0 < 4096) }
{
    let (text, rest) = field(at, line)?;
    match mode_value(text) {
        Some(mode) => Ok((mode, rest)),
        None => Err(HeaderError::Line(at)),
    }
}
