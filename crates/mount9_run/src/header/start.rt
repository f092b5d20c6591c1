//! The first lines of a header, and that of the top directory.
ghost use Rattle.std.specs.Prelude.{◌≡◌, ◌<◌, ◌≤◌, codes, IfOk};
ghost use Rattle.tree_model.specs.Good.{IsGoodStamp, IsGoodLimits};
ghost use Rattle.mount9_run.specs.Reading.{Gives, lines_of};
ghost use Rattle.mount9_run.specs.HeaderLines.{stamp_at, limits_at, permit_at, top_at};
ghost use Rattle.mount9_run.specs.Header.{start_at};

use crate::header::error::HeaderError;
use crate::header::lines::{Place, keyword, next_line};
use crate::header::numbers::{mode_field, number, number_field, owner_field, small_number};
use tree_model::{Limits, Stamp};

/// The first lines: the moment of every change, the times of the header's records, what the tree
/// may hold, and whether mounting is permitted.
#[derive(Clone, Copy, Debug)]
pub struct Start {
    pub moment: Stamp,
    pub born: Stamp,
    pub limits: Limits,
    pub permitted: bool,
}

/// The top directory's mode, below 4096, and owners.
#[derive(Clone, Copy, Debug)]
pub struct Top {
    pub mode: u32,
    pub uid: u32,
    pub gid: u32,
}

// `WORD SEC NSEC`
#[tactic(auto, unfolding(crate::specs::HeaderLines::stamp_at))]
fn stamp_line(word: &[u8], at: u64, line: &[u8]) -> Result<Stamp, HeaderError>
    ensures value { Gives (λ x. x) result (stamp_at word.now at line.now) }
    ensures good { IfOk result IsGoodStamp }
{
    let rest = keyword(word, at, line)?;
    let (sec, rest) = number_field(0, u64::MAX, at, rest)?;
    let nsec = small_number(999999999, at, rest)?;
    Ok(Stamp { sec, nsec })
}

// `limits FILE ENTRIES LINKS`
#[tactic(auto, unfolding(crate::specs::HeaderLines::limits_at))]
fn limits_line(at: u64, line: &[u8]) -> Result<Limits, HeaderError>
    ensures value { Gives (λ x. x) result (limits_at at line.now) }
    ensures good { IfOk result IsGoodLimits }
{
    let rest = keyword(b"limits", at, line)?;
    let (file, rest) = number_field(0, 1073741824, at, rest)?;
    let (entries, rest) = number_field(0, 1048576, at, rest)?;
    let links = number(1, 65000, at, rest)?;
    Ok(Limits {
        file,
        entries,
        links,
    })
}

// `permit yes` or `permit no`
#[tactic(auto, unfolding(crate::specs::HeaderLines::permit_at))]
fn permit_line(at: u64, line: &[u8]) -> Result<bool, HeaderError>
    ensures { Gives (λ x. x) result (permit_at at line.now) }
{
    let rest = keyword(b"permit", at, line)?;
    if rest == b"yes".as_slice() {
        Ok(true)
    } else if rest == b"no".as_slice() {
        Ok(false)
    } else {
        Err(HeaderError::Line(at))
    }
}

/// `top MODE UID GID`
#[tactic(auto, unfolding(crate::specs::HeaderLines::top_at))]
pub fn top_line(at: u64, line: &[u8]) -> Result<Top, HeaderError>
    ensures value { Gives (λ x. x) result (top_at at line.now) }
    ensures good { IfOk result (λ top. top.mode < 4096) }
{
    let rest = keyword(b"top", at, line)?;
    let (mode, rest) = mode_field(at, rest)?;
    let (uid, rest) = owner_field(at, rest)?;
    let gid = small_number(u32::MAX, at, rest)?;
    Ok(Top { mode, uid, gid })
}

/// The first five lines, and the place after them.
#[tactic(auto, unfolding(crate::specs::Header::start_at))]
pub fn start_lines(at: Place<'_>) -> Result<(Start, Place<'_>), HeaderError>
    ensures value { Gives (λ x. (x.0, (x.1.number, lines_of x.1.rest.now))) result
        (start_at (at.entry.number, lines_of at.entry.rest.now)) }
    ensures good { IfOk result (λ x. IsGoodStamp x.0.moment × IsGoodStamp x.0.born
        × IsGoodLimits x.0.limits) }
{
    let (l1, at2) = next_line(at)?;
    if l1 != b"mount9 1".as_slice() {
        return Err(HeaderError::Line(at.number));
    }
    let (l2, at3) = next_line(at2)?;
    let moment = stamp_line(b"moment", at2.number, l2)?;
    let (l3, at4) = next_line(at3)?;
    let born = stamp_line(b"born", at3.number, l3)?;
    let (l4, at5) = next_line(at4)?;
    let limits = limits_line(at4.number, l4)?;
    let (l5, at6) = next_line(at5)?;
    let permitted = permit_line(at5.number, l5)?;
    Ok((
        Start {
            moment,
            born,
            limits,
            permitted,
        },
        at6,
    ))
}
