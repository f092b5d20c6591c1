//! Fields of a line of a report, in memory. Each call but the first of a line adds a space before
//! its field. After an `Err` the line is of no use.
ghost use Rattle.std.specs.Prelude.{◌≡◌, ◌++◌, ◌∷◌, [], OnOk, fold, replicate, ◌≤◌};
ghost use Rattle.std.specs.Fmt.{decimal};
ghost use Rattle.port_base.specs.Escapes.{octal_digit, escaped};
ghost use Rattle.mount9_run.specs.ReportLines.{with_field, mode_text, stamp_text, attr_fields};
ghost use Rattle.mount9_run.specs.ReportLines.{key_number};

use port_base::buffer::push;
use port_base::escapes::push_escaped;
use port_base::sink::NoMemory;
use std::alloc::Global;
use tree_model::{Attr, Stamp};

// Adds a number as it is.
fn push_decimal(alloc: Global, line: &mut Vec<u8>, n: u64) -> Result<(), NoMemory>
    ensures { OnOk result (line.new.items ≡ line.old.items ++ decimal n) }
{
    let text = n.to_string(alloc).map_err(|_| NoMemory)?;
    push(line, text.as_bytes())
}

/// Adds a field.
pub fn push_field(line: &mut Vec<u8>, field: &[u8]) -> Result<(), NoMemory>
    ensures { OnOk result (line.new.items ≡ with_field line.old.items field.now) }
{
    push(line, b" ")?;
    push(line, field)
}

/// Adds a number.
pub fn push_number(alloc: Global, line: &mut Vec<u8>, n: u64) -> Result<(), NoMemory>
    ensures { OnOk result (line.new.items ≡ with_field line.old.items (decimal n)) }
{
    let text = n.to_string(alloc).map_err(|_| NoMemory)?;
    push_field(line, text.as_bytes())
}

/// Adds a key and a number.
pub fn push_key_number(
    alloc: Global,
    line: &mut Vec<u8>,
    key: &[u8],
    n: u64,
) -> Result<(), NoMemory>
    ensures { OnOk result (line.new.items ≡ with_field line.old.items (key_number key.now n)) }
{
    push_field(line, key)?;
    push_decimal(alloc, line, n)
}

// The octal digit of a number at a place that is a power of 8.
fn octal_digit(n: u32, place: u32) -> u8
    requires { 1 ≤ place }
    ensures { result ≡ octal_digit n place }
{
    b'0' + ((n / place) % 8) as u8
}

/// Adds a mode.
#[tactic(auto, unfolding(crate::specs::ReportLines::mode_text))]
pub fn push_mode(line: &mut Vec<u8>, mode: u32) -> Result<(), NoMemory>
    ensures { OnOk result (line.new.items ≡ with_field line.old.items (mode_text mode)) }
{
    let digits = [
        octal_digit(mode, 512),
        octal_digit(mode, 64),
        octal_digit(mode, 8),
        octal_digit(mode, 1),
    ];
    push_field(line, &digits)
}

// Adds so many zeros.
fn push_zeros(line: &mut Vec<u8>, count: usize) -> Result<(), NoMemory>
    ensures { OnOk result (line.new.items ≡ line.old.items ++ replicate count 48) }
{
    for _ in 0..count {
        line.push(b'0').map_err(|_| NoMemory)?;
    }
    Ok(())
}

/// Adds a moment.
#[tactic(auto, unfolding(crate::specs::ReportLines::stamp_text))]
pub fn push_stamp(alloc: Global, line: &mut Vec<u8>, stamp: Stamp) -> Result<(), NoMemory>
    ensures { OnOk result (line.new.items ≡ with_field line.old.items (stamp_text stamp)) }
{
    push_number(alloc, line, stamp.sec)?;
    push(line, b".")?;
    let nsec = stamp.nsec.to_string(alloc).map_err(|_| NoMemory)?;
    push_zeros(line, 9usize.saturating_sub(nsec.len()))?;
    push(line, nsec.as_bytes())
}

/// Adds a name with its escapes.
pub fn push_name(line: &mut Vec<u8>, name: &[u8]) -> Result<(), NoMemory>
    ensures { OnOk result (line.new.items ≡ with_field line.old.items (escaped name.now)) }
{
    push(line, b" ")?;
    push_escaped(line, name)
}

/// Adds what is told of an inode: INO MODE UID GID LINKS A M C.
pub fn push_attr(alloc: Global, line: &mut Vec<u8>, attr: &Attr) -> Result<(), NoMemory>
    ensures { OnOk result (line.new.items ≡ fold with_field line.old.items (attr_fields attr.now)) }
{
    push_number(alloc, line, attr.ino)?;
    push_mode(line, attr.mode)?;
    push_number(alloc, line, attr.uid as u64)?;
    push_number(alloc, line, attr.gid as u64)?;
    push_number(alloc, line, attr.links)?;
    push_stamp(alloc, line, attr.atime)?;
    push_stamp(alloc, line, attr.mtime)?;
    push_stamp(alloc, line, attr.ctime)
}
