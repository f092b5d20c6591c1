//! Lines of a report, in memory. After an `Err` the line is of no use.
ghost use Rattle.std.specs.Prelude.{◌≡◌, ◌++◌, ◌∷◌, [], IsTrue, OnOk, fold};
ghost use Rattle.hex.specs.Hex.{encode_lower};
ghost use Rattle.mount9_run.specs.Verdicts.{is_reported, IsReported};
ghost use Rattle.mount9_run.specs.ReportLines.{with_field, cause_fields, directory_line};
ghost use Rattle.mount9_run.specs.ReportLines.{entry_line, file_head, link_line, number_line};
ghost use Rattle.mount9_run.specs.ReportLines.{verdict_line};

use crate::report::fields::{push_attr, push_field, push_key_number, push_name, push_number};
use crate::report::verdict::{BridgeError, Served, Stopped, Verdict};
use port_base::buffer::push;
use port_base::sink::NoMemory;
use std::alloc::Global;
use tree_model::Attr;

// Begins a line with its word.
fn start_line(line: &mut Vec<u8>, word: &[u8]) -> Result<(), NoMemory>
    ensures { OnOk result (line.new.items ≡ word.now) }
{
    line.clear();
    push(line, word)
}

// Ends a line.
fn end_line(line: &mut Vec<u8>) -> Result<(), NoMemory>
    ensures { OnOk result (line.new.items ≡ line.old.items ++ 10 ∷ []) }
{
    push(line, b"\n")
}

/// Makes a directory's line.
#[tactic(auto, unfolding(crate::specs::ReportLines::directory_line))]
pub fn make_directory_line(
    alloc: Global,
    line: &mut Vec<u8>,
    attr: &Attr,
    above: u64,
    next_cookie: u64,
) -> Result<(), NoMemory>
    ensures { OnOk result (line.new.items ≡ directory_line attr.now above next_cookie) }
{
    start_line(line, b"dir")?;
    push_attr(alloc, line, attr)?;
    push_number(alloc, line, above)?;
    push_number(alloc, line, next_cookie)?;
    end_line(line)
}

/// An entry of a directory: its cookie, the inode that it names, and its name.
#[derive(Clone, Copy)]
pub struct ShownEntry<'a> {
    pub cookie: u64,
    pub child: u64,
    pub name: &'a [u8],
}

/// Makes the line of a directory's entry.
#[tactic(auto, unfolding(crate::specs::ReportLines::entry_line))]
pub fn make_entry_line(
    alloc: Global,
    line: &mut Vec<u8>,
    dir: u64,
    shown: ShownEntry<'_>,
) -> Result<(), NoMemory>
    ensures { OnOk result (line.new.items ≡ entry_line dir shown.entry.cookie shown.entry.child
        shown.entry.name.now) }
{
    start_line(line, b"in")?;
    push_number(alloc, line, dir)?;
    push_number(alloc, line, shown.cookie)?;
    push_number(alloc, line, shown.child)?;
    push_name(line, shown.name)?;
    end_line(line)
}

/// Makes the front of a file's line, up to its bytes.
#[tactic(auto, unfolding(crate::specs::ReportLines::file_head))]
pub fn make_file_head(alloc: Global, line: &mut Vec<u8>, attr: &Attr) -> Result<(), NoMemory>
    ensures { OnOk result (line.new.items ≡ file_head attr.now) }
{
    start_line(line, b"file")?;
    push_attr(alloc, line, attr)?;
    push(line, b" ")
}

/// Makes the line of a symbolic link.
#[tactic(auto, unfolding(crate::specs::ReportLines::link_line))]
pub fn make_link_line(
    alloc: Global,
    line: &mut Vec<u8>,
    attr: &Attr,
    target: &[u8],
) -> Result<(), NoMemory>
    ensures { OnOk result (line.new.items ≡ link_line attr.now target.now) }
{
    start_line(line, b"link")?;
    push_attr(alloc, line, attr)?;
    push_name(line, target)?;
    end_line(line)
}

/// Makes a line of a word and a number.
#[tactic(auto, unfolding(crate::specs::ReportLines::number_line))]
pub fn make_number_line(
    alloc: Global,
    line: &mut Vec<u8>,
    word: &[u8],
    n: u64,
) -> Result<(), NoMemory>
    ensures { OnOk result (line.new.items ≡ number_line word.now n) }
{
    start_line(line, word)?;
    push_number(alloc, line, n)?;
    end_line(line)
}

/// Makes a line of bytes in hex.
pub fn make_hex_line(alloc: Global, line: &mut Vec<u8>, bytes: &[u8]) -> Result<(), NoMemory>
    ensures { OnOk result (line.new.items ≡ encode_lower bytes.now ++ 10 ∷ []) }
{
    let text = hex::encode(alloc, bytes).map_err(|_| NoMemory)?;
    start_line(line, text.as_bytes())?;
    end_line(line)
}

// Adds why a run stopped.
fn push_cause(alloc: Global, line: &mut Vec<u8>, cause: BridgeError) -> Result<(), NoMemory>
    requires { IsTrue (is_reported cause) }
    ensures { OnOk result (line.new.items ≡ fold with_field line.old.items (cause_fields cause)) }
{
    match cause {
        BridgeError::Torn => push_field(line, b"torn"),
        BridgeError::BadLength => push_field(line, b"length"),
        BridgeError::TurnsSpent => push_field(line, b"turns"),
        BridgeError::MsizeTooSmall => push_field(line, b"msize"),
        BridgeError::Mount(errno) => {
            push_field(line, b"mount")?;
            push_number(alloc, line, errno as u64)
        }
        BridgeError::Attach(errno) => {
            push_field(line, b"attach")?;
            push_number(alloc, line, errno as u64)
        }
        BridgeError::NoMemory => unreachable!(),
        BridgeError::Read => unreachable!(),
        BridgeError::Write => unreachable!(),
        BridgeError::Unmount => unreachable!(),
    }
}

#[tactic(auto, unfolding(crate::specs::ReportLines::verdict_line))]
fn make_served_line(alloc: Global, line: &mut Vec<u8>, served: &Served) -> Result<(), NoMemory>
    ensures { OnOk result (line.new.items ≡ verdict_line (Verdict.Done served.now)) }
{
    start_line(line, b"served")?;
    push_key_number(alloc, line, b"flags=", served.flags)?;
    push_key_number(alloc, line, b"handled=", served.handled as u64)?;
    end_line(line)
}

#[tactic(auto, unfolding(crate::specs::ReportLines::verdict_line))]
fn make_stopped_line(alloc: Global, line: &mut Vec<u8>, stopped: &Stopped) -> Result<(), NoMemory>
    requires { IsTrue (is_reported stopped.now.cause) }
    ensures { OnOk result (line.new.items ≡ verdict_line (Verdict.Halted stopped.now)) }
{
    start_line(line, b"stopped")?;
    push_cause(alloc, line, stopped.cause)?;
    push_key_number(alloc, line, b"handled=", stopped.handled as u64)?;
    end_line(line)
}

/// Makes the line that tells how a run ended.
pub fn make_verdict_line(
    alloc: Global,
    line: &mut Vec<u8>,
    verdict: &Verdict,
) -> Result<(), NoMemory>
    requires { IsReported verdict.now }
    ensures { OnOk result (line.new.items ≡ verdict_line verdict.now) }
{
    match verdict {
        Verdict::Done(served) => make_served_line(alloc, line, served),
        Verdict::Halted(stopped) => make_stopped_line(alloc, line, stopped),
    }
}
