//! Lines and fields of a header.
ghost use Rattle.std.specs.Prelude.{◌≡◌, ◌<◌, ◌+◌, ◌^◌, length, IfOk};
ghost use Rattle.std.specs.Option.{option_map};
ghost use Rattle.mount9_run.specs.Reading.{Gives, field_at, after_word, keyword_at, lines_of};
ghost use Rattle.mount9_run.specs.Reading.{line_at};

use crate::header::error::HeaderError;
use crate::text::split_once;

/// A line's number, and the bytes from it on.
#[derive(Clone, Copy, Drop)]
pub struct Place<'a> {
    pub number: u64,
    pub rest: &'a [u8],
    ghost fits: { number + length rest.now < 2 ^ 64 },
}

/// The next line, and the place after it.
pub fn next_line<'a>(at: Place<'a>) -> Result<(&'a [u8], Place<'a>), HeaderError>
    ensures value { Gives (λ x. (x.0.now, (x.1.number, lines_of x.1.rest.now))) result
        (line_at (at.entry.number, lines_of at.entry.rest.now)) }
    ensures shorter { IfOk result (λ x. length x.1.rest.now < length at.entry.rest.now) }
{
    match split_once(at.rest, b'\n') {
        Some((line, rest)) => Ok((
            line,
            Place {
                number: at.number + 1,
                rest,
            },
        )),
        None => Err(HeaderError::Line(at.number)),
    }
}

/// A field, which a space ends, and what follows.
#[tactic(auto, unfolding(crate::specs::Reading::field_at))]
pub fn field(at: u64, line: &[u8]) -> Result<(&[u8], &[u8]), HeaderError>
    ensures { Gives (λ x. (x.0.now, x.1.now)) result (field_at at line.now) }
{
    match split_once(line, b' ') {
        Some((field, rest)) => Ok((field, rest)),
        None => Err(HeaderError::Line(at)),
    }
}

/// What follows this word, where the line begins with it.
#[tactic(auto, unfolding(crate::specs::Reading::after_word))]
pub fn after_word<'a>(word: &[u8], line: &'a [u8]) -> Option<&'a [u8]>
    ensures { option_map (λ x. x.now) result ≡ after_word word.now line.now }
{
    match split_once(line, b' ') {
        Some((first, rest)) => { if first == word { Some(rest) } else { None } }
        None => None,
    }
}

/// What follows this word, which has to begin the line.
#[tactic(auto, unfolding(crate::specs::Reading::keyword_at))]
pub fn keyword<'a>(word: &[u8], at: u64, line: &'a [u8]) -> Result<&'a [u8], HeaderError>
    ensures { Gives (λ x. x.now) result (keyword_at word.now at line.now) }
{
    match after_word(word, line) {
        Some(rest) => Ok(rest),
        None => Err(HeaderError::Line(at)),
    }
}
