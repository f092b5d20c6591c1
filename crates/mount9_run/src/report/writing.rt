//! A report, written to a sink. After an `Err` the sink was sent a front of what the call writes.
ghost use Rattle.std.specs.Prelude.{◌≡◌, ◌++◌, ◌∷◌, [], take, drop, codes};
ghost use Rattle.hex.specs.Hex.{encode_lower};
ghost use Rattle.mount9_run.specs.Verdicts.{IsReported};
ghost use Rattle.mount9_run.specs.Wrote.{Wrote, at_sink};
ghost use Rattle.mount9_run.specs.ReportLines.{directory_line, entry_line, file_head, link_line};
ghost use Rattle.mount9_run.specs.ReportLines.{number_line, hex_lines, verdict_line};
ghost use Rattle.mount9_run.specs.Report.{replies_text, closing};

use crate::report::lines::{
    ShownEntry, make_directory_line, make_entry_line, make_file_head, make_hex_line,
    make_link_line, make_number_line, make_verdict_line,
};
use crate::report::verdict::Verdict;
use port_base::sink::{Sink, SinkFault, write_all};
use std::alloc::Global;
use tree_model::Attr;

/// Writes a text.
pub fn write_text<K: Sink>(out: &mut K, text: &[u8]) -> Result<(), SinkFault>
    ensures { Wrote (at_sink (K.sent out.old) (K.faults out.old) (K.kept out.old))
        (at_sink (K.sent out.new) (K.faults out.new) (K.kept out.new))
        text.now result }
{
    write_all(out, text)
}

/// Writes a line of a word and a number.
pub fn write_number_line<K: Sink>(
    alloc: Global,
    out: &mut K,
    word: &[u8],
    n: u64,
) -> Result<(), SinkFault>
    ensures { Wrote (at_sink (K.sent out.old) (K.faults out.old) (K.kept out.old))
        (at_sink (K.sent out.new) (K.faults out.new) (K.kept out.new))
        (number_line word.now n) result }
{
    let mut line = Vec::new(alloc);
    if make_number_line(alloc, &mut line, word, n).is_err() {
        return Err(SinkFault::NoMemory);
    }
    write_text(out, &line)
}

/// Writes the line that tells how a run ended.
pub fn write_verdict<K: Sink>(
    alloc: Global,
    out: &mut K,
    verdict: &Verdict,
) -> Result<(), SinkFault>
    requires { IsReported verdict.now }
    ensures { Wrote (at_sink (K.sent out.old) (K.faults out.old) (K.kept out.old))
        (at_sink (K.sent out.new) (K.faults out.new) (K.kept out.new))
        (verdict_line verdict.now) result }
{
    let mut line = Vec::new(alloc);
    if make_verdict_line(alloc, &mut line, verdict).is_err() {
        return Err(SinkFault::NoMemory);
    }
    write_text(out, &line)
}

/// Writes a directory's line. The buffer's contents are of no use before and after.
pub fn write_directory_line<K: Sink>(
    alloc: Global,
    out: &mut K,
    buffer: &mut Vec<u8>,
    attr: &Attr,
    above: u64,
    next_cookie: u64,
) -> Result<(), SinkFault>
    ensures { Wrote (at_sink (K.sent out.old) (K.faults out.old) (K.kept out.old))
        (at_sink (K.sent out.new) (K.faults out.new) (K.kept out.new))
        (directory_line attr.now above next_cookie) result }
{
    if make_directory_line(alloc, buffer, attr, above, next_cookie).is_err() {
        return Err(SinkFault::NoMemory);
    }
    write_text(out, buffer)
}

/// Writes the line of a directory's entry. The buffer's contents are of no use before and after.
pub fn write_entry_line<K: Sink>(
    alloc: Global,
    out: &mut K,
    buffer: &mut Vec<u8>,
    dir: u64,
    shown: ShownEntry<'_>,
) -> Result<(), SinkFault>
    ensures { Wrote (at_sink (K.sent out.old) (K.faults out.old) (K.kept out.old))
        (at_sink (K.sent out.new) (K.faults out.new) (K.kept out.new))
        (entry_line dir shown.entry.cookie shown.entry.child shown.entry.name.now) result }
{
    if make_entry_line(alloc, buffer, dir, shown).is_err() {
        return Err(SinkFault::NoMemory);
    }
    write_text(out, buffer)
}

/// Writes the front of a file's line, up to its bytes. The buffer's contents are of no use before
/// and after.
pub fn write_file_head<K: Sink>(
    alloc: Global,
    out: &mut K,
    buffer: &mut Vec<u8>,
    attr: &Attr,
) -> Result<(), SinkFault>
    ensures { Wrote (at_sink (K.sent out.old) (K.faults out.old) (K.kept out.old))
        (at_sink (K.sent out.new) (K.faults out.new) (K.kept out.new))
        (file_head attr.now) result }
{
    if make_file_head(alloc, buffer, attr).is_err() {
        return Err(SinkFault::NoMemory);
    }
    write_text(out, buffer)
}

/// Writes the line of a symbolic link. The buffer's contents are of no use before and after.
pub fn write_link_line<K: Sink>(
    alloc: Global,
    out: &mut K,
    buffer: &mut Vec<u8>,
    attr: &Attr,
    target: &[u8],
) -> Result<(), SinkFault>
    ensures { Wrote (at_sink (K.sent out.old) (K.faults out.old) (K.kept out.old))
        (at_sink (K.sent out.new) (K.faults out.new) (K.kept out.new))
        (link_line attr.now target.now) result }
{
    if make_link_line(alloc, buffer, attr, target).is_err() {
        return Err(SinkFault::NoMemory);
    }
    write_text(out, buffer)
}

/// Writes bytes in hex.
pub fn write_hex<K: Sink>(alloc: Global, out: &mut K, bytes: &[u8]) -> Result<(), SinkFault>
    ensures { Wrote (at_sink (K.sent out.old) (K.faults out.old) (K.kept out.old))
        (at_sink (K.sent out.new) (K.faults out.new) (K.kept out.new))
        (encode_lower bytes.now) result }
{
    match hex::encode(alloc, bytes) {
        Ok(text) => write_text(out, text.as_bytes()),
        Err(_) => Err(SinkFault::NoMemory),
    }
}

// The first 32 bytes, and what follows.
fn first_row(bytes: &[u8]) -> (&[u8], &[u8])
    ensures row { result.0.now ≡ take 32 bytes.now }
    ensures rest { result.1.now ≡ drop 32 bytes.now }
{
    if bytes.len() < 32 {
        (bytes, &[])
    } else {
        bytes.split_at(32)
    }
}

// Writes a line of bytes in hex.
fn write_hex_line<K: Sink>(
    alloc: Global,
    out: &mut K,
    buffer: &mut Vec<u8>,
    row: &[u8],
) -> Result<(), SinkFault>
    ensures { Wrote (at_sink (K.sent out.old) (K.faults out.old) (K.kept out.old))
        (at_sink (K.sent out.new) (K.faults out.new) (K.kept out.new))
        (encode_lower row.now ++ 10 ∷ []) result }
{
    if make_hex_line(alloc, buffer, row).is_err() {
        return Err(SinkFault::NoMemory);
    }
    write_text(out, buffer)
}

// Writes lines of 32 bytes in hex.
fn write_hex_lines<K: Sink>(alloc: Global, out: &mut K, bytes: &[u8]) -> Result<(), SinkFault>
    ensures { Wrote (at_sink (K.sent out.old) (K.faults out.old) (K.kept out.old))
        (at_sink (K.sent out.new) (K.faults out.new) (K.kept out.new))
        (hex_lines bytes.now) result }
{
    let mut buffer = Vec::new(alloc);
    let mut rest = bytes;
    'rows: for _ in 0..bytes.len().div_ceil(32) {
        let (row, after) = first_row(rest);
        write_hex_line(alloc, out, &mut buffer, row)?;
        rest = after;
    }
    Ok(())
}

/// Writes the replies.
#[tactic(auto, unfolding(crate::specs::Report::replies_text))]
pub fn write_replies<K: Sink>(alloc: Global, out: &mut K, replies: &[u8]) -> Result<(), SinkFault>
    ensures { Wrote (at_sink (K.sent out.old) (K.faults out.old) (K.kept out.old))
        (at_sink (K.sent out.new) (K.faults out.new) (K.kept out.new))
        (replies_text replies.now) result }
{
    write_text(out, b"replies\n")?;
    write_hex_lines(alloc, out, replies)
}

/// Writes the table of mounts, and the number of 9P messages.
#[tactic(auto, unfolding(crate::specs::Report::closing))]
pub fn write_closing<K: Sink>(
    alloc: Global,
    out: &mut K,
    table: &[u8],
    nine: u64,
) -> Result<(), SinkFault>
    ensures { Wrote (at_sink (K.sent out.old) (K.faults out.old) (K.kept out.old))
        (at_sink (K.sent out.new) (K.faults out.new) (K.kept out.new))
        (closing table.now nine) result }
{
    write_text(out, b"mounts\n")?;
    write_text(out, table)?;
    write_text(out, b"end\n")?;
    write_number_line(alloc, out, b"nine", nine)
}
