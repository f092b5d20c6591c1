//! The lines `present PATH` of a header: directories that mounts may stand on.
ghost use Rattle.std.specs.Prelude.{◌≡◌, []};
ghost use Rattle.mount9_run.specs.Reading.{Gives, GivesNext, gathered, lines_of};
ghost use Rattle.mount9_run.specs.HeaderLines.{present_at};

use crate::header::error::HeaderError;
use crate::header::lines::{Place, after_word, next_line};
use crate::header::path::path_of_field;
use crate::path::is_path;
use port_base::words::Words;
use std::alloc::Global;

// Takes one more path, unless the line is of another kind.
#[tactic(auto, unfolding(crate::specs::HeaderLines::present_at))]
fn take_present(
    alloc: Global,
    at: u64,
    present: &mut Words,
    line: &[u8],
) -> Result<bool, HeaderError>
    ensures { GivesNext result present.old present.new (present_at at present.old line.now) }
{
    let Some(field) = after_word(b"present", line) else {
        return Ok(false);
    };
    let path = path_of_field(alloc, at, field)?;
    if !is_path(&path) {
        return Err(HeaderError::Line(at));
    }
    match present.push(&path) {
        Ok(()) => Ok(true),
        Err(_) => Err(HeaderError::NoMemory),
    }
}

/// The paths of these lines, and the place after them.
pub fn present_lines<'a>(alloc: Global, start: Place<'a>) -> Result<(Words, Place<'a>), HeaderError>
    ensures { Gives (λ x. (x.0, (x.1.number, lines_of x.1.rest.now))) result
        (gathered present_at [] start.entry.number (lines_of start.entry.rest.now)) }
{
    let mut present = Words::new(alloc);
    let mut at = start;
    'lines: loop {
        let (line, next) = next_line(at)?;
        if !take_present(alloc, at.number, &mut present, line)? {
            return Ok((present, at));
        }
        at = next;
    }
}
