//! The lines of a header that add records: `dir`, `file`, `link` and `hard`.
ghost use Rattle.std.specs.Prelude.{◌≡◌, ◌==◌, true, IfOk};
ghost use Rattle.std.specs.List.{list_any};
ghost use Rattle.tree_model.specs.Good.{IsGoodTarget};
ghost use Rattle.mount9_run.specs.Reading.{Gives};
ghost use Rattle.mount9_run.specs.HeaderRecords.{bytes_of, bytes_field, is_record_path};
ghost use Rattle.mount9_run.specs.HeaderRecords.{record_path_at, is_target, target_field};
ghost use Rattle.mount9_run.specs.HeaderRecords.{directory_at, file_at, link_at, hard_at};
ghost use Rattle.mount9_run.specs.HeaderRecords.{record_line};
ghost use Rattle.mount9_run.specs.HeaderViews.{GivesBytes, IsLineInRange, line_view};

use crate::header::error::HeaderError;
use crate::header::lines::field;
use crate::header::numbers::{mode_field, owner_field};
use crate::header::path::path_of_field;
use crate::path::is_root;
use port_base::names::is_utf8;
use std::alloc::Global;
use tree_machine::limits::TARGET_LIMIT;

/// What a line adds: a record, or one more name of what stands at the path `old`. Modes are
/// permission bits, below 4096.
#[derive(Debug, Drop)]
pub enum LineItem {
    Directory {
        mode: u32,
        uid: u32,
        gid: u32,
    },
    File {
        mode: u32,
        uid: u32,
        gid: u32,
        bytes: Vec<u8>,
    },
    Link {
        uid: u32,
        gid: u32,
        target: Vec<u8>,
    },
    Hard {
        old: Vec<u8>,
    },
}

/// What a line adds, and at which path.
#[derive(Debug, Drop)]
pub struct RecordLine {
    pub item: LineItem,
    pub path: Vec<u8>,
}

// ---- fields

// The bytes of hex, or nothing for `-`.
#[tactic(auto, unfolding(crate::specs::HeaderRecords::bytes_of))]
fn bytes_of(alloc: Global, text: &[u8]) -> Result<Option<Vec<u8>>, HeaderError>
    ensures { GivesBytes result (bytes_of text.now) }
{
    if text == b"-".as_slice() {
        return Ok(Some(Vec::new(alloc)));
    }
    if text.is_empty() {
        return Ok(None);
    }
    match hex::decode(alloc, text) {
        Ok(bytes) => Ok(Some(bytes)),
        Err(hex::FromHexError::OutOfMemory) => Err(HeaderError::NoMemory),
        Err(_) => Ok(None),
    }
}

#[tactic(auto, unfolding(crate::specs::HeaderRecords::bytes_field))]
fn bytes_field(alloc: Global, at: u64, line: &[u8]) -> Result<(Vec<u8>, &[u8]), HeaderError>
    ensures { Gives (λ x. (x.0.items, x.1.now)) result (bytes_field at line.now) }
{
    let (text, rest) = field(at, line)?;
    match bytes_of(alloc, text)? {
        Some(bytes) => Ok((bytes, rest)),
        None => Err(HeaderError::Line(at)),
    }
}

fn is_record_path(path: &[u8]) -> bool
    ensures { result ≡ is_record_path path.now }
{
    is_root(path) && path.len() != 1
}

// A path that a record may stand at.
#[tactic(auto, unfolding(crate::specs::HeaderRecords::record_path_at))]
fn record_path(alloc: Global, at: u64, field: &[u8]) -> Result<Vec<u8>, HeaderError>
    ensures value { Gives (λ path. path.items) result (record_path_at at field.now) }
    ensures good { IfOk result (λ path. is_record_path path.items ≡ true) }
{
    let path = path_of_field(alloc, at, field)?;
    if !is_record_path(&path) {
        return Err(HeaderError::Line(at));
    }
    Ok(path)
}

fn has_zero(text: &[u8]) -> bool
    ensures { result ≡ list_any (λ b. b == 0) text.now }
{
    text.iter().any(|b| *b == 0)
}

fn is_target(text: &[u8]) -> bool
    ensures { result ≡ is_target text.now }
{
    !text.is_empty() && text.len() <= TARGET_LIMIT && is_utf8(text) && !has_zero(text)
}

#[tactic(auto, unfolding(crate::specs::HeaderRecords::target_field))]
fn target_field(alloc: Global, at: u64, line: &[u8]) -> Result<(Vec<u8>, &[u8]), HeaderError>
    ensures value { Gives (λ x. (x.0.items, x.1.now)) result (target_field at line.now) }
    ensures good { IfOk result (λ x. IsGoodTarget x.0.items) }
{
    let (text, rest) = field(at, line)?;
    let target = path_of_field(alloc, at, text)?;
    if !is_target(&target) {
        return Err(HeaderError::Line(at));
    }
    Ok((target, rest))
}

// ---- lines

// `dir MODE UID GID PATH`, without its first word.
#[tactic(auto, unfolding(crate::specs::HeaderRecords::directory_at))]
fn directory_line(alloc: Global, at: u64, fields: &[u8]) -> Result<RecordLine, HeaderError>
    ensures value { Gives line_view result (directory_at at fields.now) }
    ensures good { IfOk result IsLineInRange }
{
    let (mode, rest) = mode_field(at, fields)?;
    let (uid, rest) = owner_field(at, rest)?;
    let (gid, rest) = owner_field(at, rest)?;
    let path = record_path(alloc, at, rest)?;
    Ok(RecordLine {
        item: LineItem::Directory { mode, uid, gid },
        path,
    })
}

// `file MODE UID GID HEX PATH`, without its first word.
#[tactic(auto, unfolding(crate::specs::HeaderRecords::file_at))]
fn file_line(alloc: Global, at: u64, fields: &[u8]) -> Result<RecordLine, HeaderError>
    ensures value { Gives line_view result (file_at at fields.now) }
    ensures good { IfOk result IsLineInRange }
{
    let (mode, rest) = mode_field(at, fields)?;
    let (uid, rest) = owner_field(at, rest)?;
    let (gid, rest) = owner_field(at, rest)?;
    let (bytes, rest) = bytes_field(alloc, at, rest)?;
    let path = record_path(alloc, at, rest)?;
    Ok(RecordLine {
        item: LineItem::File {
            mode,
            uid,
            gid,
            bytes,
        },
        path,
    })
}

// `link UID GID TARGET PATH`, without its first word.
#[tactic(auto, unfolding(crate::specs::HeaderRecords::link_at))]
fn link_line(alloc: Global, at: u64, fields: &[u8]) -> Result<RecordLine, HeaderError>
    ensures value { Gives line_view result (link_at at fields.now) }
    ensures good { IfOk result IsLineInRange }
{
    let (uid, rest) = owner_field(at, fields)?;
    let (gid, rest) = owner_field(at, rest)?;
    let (target, rest) = target_field(alloc, at, rest)?;
    let path = record_path(alloc, at, rest)?;
    Ok(RecordLine {
        item: LineItem::Link { uid, gid, target },
        path,
    })
}

// `hard OLD PATH`, without its first word.
#[tactic(auto, unfolding(crate::specs::HeaderRecords::hard_at))]
fn hard_line(alloc: Global, at: u64, fields: &[u8]) -> Result<RecordLine, HeaderError>
    ensures value { Gives line_view result (hard_at at fields.now) }
    ensures good { IfOk result IsLineInRange }
{
    let (text, rest) = field(at, fields)?;
    let old = record_path(alloc, at, text)?;
    let path = record_path(alloc, at, rest)?;
    Ok(RecordLine {
        item: LineItem::Hard { old },
        path,
    })
}

/// What a record's line says.
#[tactic(auto, unfolding(crate::specs::HeaderRecords::record_line))]
pub fn record_line(alloc: Global, at: u64, line: &[u8]) -> Result<RecordLine, HeaderError>
    ensures value { Gives line_view result (record_line at line.now) }
    ensures good { IfOk result IsLineInRange }
{
    let (word, fields) = field(at, line)?;
    if word == b"file".as_slice() {
        return file_line(alloc, at, fields);
    }
    if word == b"dir".as_slice() {
        return directory_line(alloc, at, fields);
    }
    if word == b"link".as_slice() {
        return link_line(alloc, at, fields);
    }
    if word == b"hard".as_slice() {
        return hard_line(alloc, at, fields);
    }
    Err(HeaderError::Line(at))
}
