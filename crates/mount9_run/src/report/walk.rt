//! The lines of a tree, read from its host. After an `Err` the sink was sent a front of what the
//! call writes.
ghost use Rattle.std.specs.Prelude.{◌≡◌, OnOk, IsTrue, length};
ghost use Rattle.std.specs.FinMap as map;
ghost use Rattle.hex.specs.Hex.{encode_lower};
ghost use Rattle.tree_model.specs.Tree.{body_at, is_directory_at, linked};
ghost use Rattle.tree_model.specs.Reading.{bytes_at, is_file_at, part};
ghost use Rattle.tree_host.specs.TreeHosts.{tree};
ghost use Rattle.mount9_run.specs.Wrote.{Wrote, at_sink};
ghost use Rattle.mount9_run.specs.ReportLines.{file_line, hex_or_dash};
ghost use Rattle.mount9_run.specs.Report.{entries_text, records_text, tree_text};
ghost use Rattle.mount9_run.specs.Walking.{entries_in, directory_text, stored_text, linked_text};
ghost use Rattle.mount9_run.specs.Walking.{IsStored};

use crate::report::lines::ShownEntry;
use crate::report::writing::{
    write_directory_line, write_entry_line, write_file_head, write_hex, write_link_line,
    write_number_line, write_text,
};
use port_base::sink::{Sink, SinkFault};
use std::alloc::{AllocError, Global};
use tree_host::TreeHost;
use tree_model::{Attr, Kind};

// How many bytes of a file are read at once.
const PIECE: usize = 4096;

// Writes the entries of a directory.
fn write_entries<K: Sink>(
    alloc: Global,
    out: &mut K,
    buffer: &mut Vec<u8>,
    host: &TreeHost,
    dir: u64,
) -> Result<(), SinkFault>
    requires { IsTrue (is_directory_at (body_at (tree host.now).records dir)) }
    ensures { Wrote (at_sink (K.sent out.old) (K.faults out.old) (K.kept out.old))
        (at_sink (K.sent out.new) (K.faults out.new) (K.kept out.new))
        (entries_text dir (entries_in (tree host.now) dir)) result }
{
    let mut at = 0;
    'entries: while let Some((cookie, child, name)) = host.peek_entry(dir, at) {
        let shown = ShownEntry {
            cookie,
            child,
            name,
        };
        write_entry_line(alloc, out, buffer, dir, shown)?;
        at = cookie;
    }
    Ok(())
}

// Writes a directory's line and those of its entries.
fn write_directory<K: Sink>(
    alloc: Global,
    out: &mut K,
    buffer: &mut Vec<u8>,
    host: &TreeHost,
    attr: &Attr,
) -> Result<(), SinkFault>
    requires { IsTrue (is_directory_at (body_at (tree host.now).records attr.now.ino)) }
    ensures { Wrote (at_sink (K.sent out.old) (K.faults out.old) (K.kept out.old))
        (at_sink (K.sent out.new) (K.faults out.new) (K.kept out.new))
        (directory_text (tree host.now) attr.now) result }
{
    let above = host.above(attr.ino);
    let next_cookie = host.next_cookie(attr.ino);
    write_directory_line(alloc, out, buffer, attr, above, next_cookie)?;
    write_entries(alloc, out, buffer, host, attr.ino)
}

// Reads a piece of a file.
fn read_piece(host: &TreeHost, ino: u64, offset: u64, piece: &mut Vec<u8>) -> Result<(), AllocError>
    requires { IsTrue (is_file_at (body_at (tree host.now).records ino)) }
    ensures { OnOk result (piece.new.items ≡ part (bytes_at (tree host.now) ino) offset PIECE) }
{
    let mut bytes = [0u8; PIECE];
    let count = host.peek_bytes(ino, offset, &mut bytes);
    piece.clear();
    piece.extend_from_slice(&bytes[..count])
}

// Writes the bytes of a file in hex, piece by piece.
fn write_pieces<K: Sink>(
    alloc: Global,
    out: &mut K,
    buffer: &mut Vec<u8>,
    host: &TreeHost,
    ino: u64,
) -> Result<(), SinkFault>
    requires { IsTrue (is_file_at (body_at (tree host.now).records ino)) }
    ensures { Wrote (at_sink (K.sent out.old) (K.faults out.old) (K.kept out.old))
        (at_sink (K.sent out.new) (K.faults out.new) (K.kept out.new))
        (encode_lower (bytes_at (tree host.now) ino)) result }
{
    let mut offset = 0;
    'pieces: loop {
        match read_piece(host, ino, offset, buffer) {
            Ok(()) => {}
            Err(_) => return Err(SinkFault::NoMemory),
        }
        let piece = buffer.as_slice();
        if piece.is_empty() {
            return Ok(());
        }
        write_hex(alloc, out, piece)?;
        offset += piece.len() as u64;
    }
}

// Writes the bytes of a file in hex, or - for nothing.
#[tactic(auto, unfolding(crate::specs::ReportLines::hex_or_dash))]
fn write_bytes<K: Sink>(
    alloc: Global,
    out: &mut K,
    buffer: &mut Vec<u8>,
    host: &TreeHost,
    ino: u64,
    size: u64,
) -> Result<(), SinkFault>
    requires file { IsTrue (is_file_at (body_at (tree host.now).records ino)) }
    requires size { size ≡ length (bytes_at (tree host.now) ino) }
    ensures { Wrote (at_sink (K.sent out.old) (K.faults out.old) (K.kept out.old))
        (at_sink (K.sent out.new) (K.faults out.new) (K.kept out.new))
        (hex_or_dash (bytes_at (tree host.now) ino)) result }
{
    if size == 0 {
        write_text(out, b"-")
    } else {
        write_pieces(alloc, out, buffer, host, ino)
    }
}

// Writes a file's line.
fn write_file<K: Sink>(
    alloc: Global,
    out: &mut K,
    buffer: &mut Vec<u8>,
    host: &TreeHost,
    attr: &Attr,
) -> Result<(), SinkFault>
    requires file { IsTrue (is_file_at (body_at (tree host.now).records attr.now.ino)) }
    requires size { attr.now.size ≡ length (bytes_at (tree host.now) attr.now.ino) }
    ensures { Wrote (at_sink (K.sent out.old) (K.faults out.old) (K.kept out.old))
        (at_sink (K.sent out.new) (K.faults out.new) (K.kept out.new))
        (file_line attr.now (bytes_at (tree host.now) attr.now.ino)) result }
{
    write_file_head(alloc, out, buffer, attr)?;
    write_bytes(alloc, out, buffer, host, attr.ino, attr.size)?;
    write_text(out, b"\n")
}

// Writes the lines of a record.
fn write_stored<K: Sink>(
    alloc: Global,
    out: &mut K,
    buffer: &mut Vec<u8>,
    host: &TreeHost,
    attr: &Attr,
) -> Result<(), SinkFault>
    requires { IsStored (tree host.now) attr.now }
    ensures { Wrote (at_sink (K.sent out.old) (K.faults out.old) (K.kept out.old))
        (at_sink (K.sent out.new) (K.faults out.new) (K.kept out.new))
        (stored_text (tree host.now) attr.now.ino) result }
{
    match attr.kind {
        Kind::File => write_file(alloc, out, buffer, host, attr),
        Kind::Directory => write_directory(alloc, out, buffer, host, attr),
        Kind::Link => write_link_line(alloc, out, buffer, attr, host.peek_target(attr.ino)),
    }
}

// Writes the lines of a record that entries name.
fn write_linked<K: Sink>(
    alloc: Global,
    out: &mut K,
    buffer: &mut Vec<u8>,
    host: &TreeHost,
    attr: &Attr,
) -> Result<(), SinkFault>
    requires { IsStored (tree host.now) attr.now }
    ensures { Wrote (at_sink (K.sent out.old) (K.faults out.old) (K.kept out.old))
        (at_sink (K.sent out.new) (K.faults out.new) (K.kept out.new))
        (linked_text (tree host.now) attr.now.ino) result }
{
    if attr.links == 0 {
        return Ok(());
    }
    write_stored(alloc, out, buffer, host, attr)
}

// Writes the records that are linked.
fn write_records<K: Sink>(alloc: Global, out: &mut K, host: &TreeHost) -> Result<(), SinkFault>
    ensures { Wrote (at_sink (K.sent out.old) (K.faults out.old) (K.kept out.old))
        (at_sink (K.sent out.new) (K.faults out.new) (K.kept out.new))
        (records_text (map.entries (linked (tree host.now)).records)) result }
{
    let mut buffer = Vec::new(alloc);
    let mut at = 0;
    'records: while let Some(attr) = host.record_after(at) {
        write_linked(alloc, out, &mut buffer, host, &attr)?;
        at = attr.ino;
    }
    Ok(())
}

/// Writes the next number of a tree and its linked records.
#[tactic(auto, unfolding(crate::specs::Report::tree_text))]
pub fn write_tree<K: Sink>(alloc: Global, out: &mut K, host: &TreeHost) -> Result<(), SinkFault>
    ensures { Wrote (at_sink (K.sent out.old) (K.faults out.old) (K.kept out.old))
        (at_sink (K.sent out.new) (K.faults out.new) (K.kept out.new))
        (tree_text (linked (tree host.now))) result }
{
    write_number_line(alloc, out, b"tree", host.next_ino())?;
    write_records(alloc, out, host)
}
