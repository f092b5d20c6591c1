//! The tree of a header: the records and names that its lines add, one after another.
ghost use Rattle.std.specs.Prelude.{◌≡◌, IfOk, IsSome, Option, None};
ghost use Rattle.std.specs.FinMap as map;
ghost use Rattle.port_base.specs.Names.{name_fault};
ghost use Rattle.tree_host.specs.TreeHosts.{add_of, tree, IsGoodItem, IsStoredItem};
ghost use Rattle.mount9_run.specs.Reading.{Gives, GivesNext, gathered, lines_of};
ghost use Rattle.mount9_run.specs.HeaderRecords.{added, standing, with_item, with_line, record_at};
ghost use Rattle.mount9_run.specs.HeaderViews.{item_view, line_view, ChangesTree, IsItemInRange};
ghost use Rattle.mount9_run.specs.HeaderViews.{IsLineInRange};

use crate::header::error::HeaderError;
use crate::header::lines::{Place, next_line};
use crate::header::path::{directory_path, split_path};
use crate::header::records::{LineItem, RecordLine, record_line};
use std::alloc::Global;
use tree_host::{NewItem, TreeHost};
use tree_model::HostError;

// The inode at a path.
fn standing(at: u64, host: &TreeHost, path: &[u8]) -> Result<u64, HeaderError>
    ensures value { Gives (λ ino. ino) result (standing at (tree host.now) path.now) }
    ensures stored { IfOk result (λ ino. IsSome (map.get (tree host.now).records ino)) }
{
    match host.find(path) {
        Some(ino) => Ok(ino),
        None => Err(HeaderError::Line(at)),
    }
}

// Adds an entry, and the record that it names where that is new.
fn add_entry(
    at: u64,
    host: &mut TreeHost,
    dir: u64,
    name: &[u8],
    item: NewItem<'_>,
) -> Result<(), HeaderError>
    requires stored { IsSome (map.get (tree host.old).records dir) }
    requires named { name_fault name.now ≡ None }
    requires item { IsGoodItem item }
    requires there { IsStoredItem (tree host.old).records item }
    ensures tree { Gives (λ _. tree host.new) result
        (added at (add_of host.old.born (tree host.old) dir name.now item.entry)) }
    ensures rest { ChangesTree host.old host.new }
{
    match host.add(dir, name, item) {
        Ok(_) => Ok(()),
        Err(e) => match e {
            HostError::Errno(_) => Err(HeaderError::Line(at)),
            HostError::Fault => unreachable!(),
            HostError::NoMemory => Err(HeaderError::NoMemory),
        },
    }
}

// Adds what an item says.
fn add_item(
    at: u64,
    host: &mut TreeHost,
    dir: u64,
    name: &[u8],
    item: &LineItem,
) -> Result<(), HeaderError>
    requires stored { IsSome (map.get (tree host.old).records dir) }
    requires named { name_fault name.now ≡ None }
    requires range { IsItemInRange item.now }
    ensures tree { Gives (λ _. tree host.new) result
        (with_item host.old.born at (tree host.old) dir name.now (item_view item.now)) }
    ensures rest { ChangesTree host.old host.new }
{
    match item {
        LineItem::Directory { mode, uid, gid } => {
            let (mode, uid, gid) = (*mode, *uid, *gid);
            add_entry(at, host, dir, name, NewItem::Dir { mode, uid, gid })
        }
        LineItem::File {
            mode,
            uid,
            gid,
            bytes,
        } => {
            let (mode, uid, gid) = (*mode, *uid, *gid);
            let file = NewItem::File {
                mode,
                uid,
                gid,
                bytes,
            };
            add_entry(at, host, dir, name, file)
        }
        LineItem::Link { uid, gid, target } => {
            let (uid, gid) = (*uid, *gid);
            add_entry(at, host, dir, name, NewItem::Link { uid, gid, target })
        }
        LineItem::Hard { old } => {
            let ino = standing(at, host, old)?;
            add_entry(at, host, dir, name, NewItem::Hard { ino })
        }
    }
}

// Adds what a line says.
#[tactic(auto, unfolding(crate::specs::HeaderRecords::with_line))]
fn add_line(at: u64, host: &mut TreeHost, line: &RecordLine) -> Result<(), HeaderError>
    requires { IsLineInRange line.now }
    ensures tree { Gives (λ _. tree host.new) result
        (with_line host.old.born at (tree host.old) (line_view line.now)) }
    ensures rest { ChangesTree host.old host.new }
{
    let (front, name) = split_path(at, &line.path)?;
    let dir = standing(at, host, directory_path(front))?;
    add_item(at, host, dir, name, &line.item)
}

// Takes one more line, unless it is `end`.
#[tactic(auto, unfolding(crate::specs::HeaderRecords::record_at))]
fn take_line(alloc: Global, at: u64, host: &mut TreeHost, line: &[u8]) -> Result<bool, HeaderError>
    ensures tree { GivesNext result (tree host.old) (tree host.new)
        (record_at host.old.born at (tree host.old) line.now) }
    ensures rest { ChangesTree host.old host.new }
{
    if line == b"end".as_slice() {
        return Ok(false);
    }
    let record = record_line(alloc, at, line)?;
    add_line(at, host, &record)?;
    Ok(true)
}

/// Adds what these lines say, up to the line `end`, and answers the place of that line.
pub fn add_lines<'a>(
    alloc: Global,
    host: &mut TreeHost,
    start: Place<'a>,
) -> Result<Place<'a>, HeaderError>
    ensures tree { Gives (λ at. (tree host.new, (at.number, lines_of at.rest.now))) result
        (gathered (record_at host.old.born) (tree host.old) start.entry.number
        (lines_of start.entry.rest.now)) }
    ensures rest { ChangesTree host.old host.new }
{
    let mut at = start;
    'lines: loop {
        let (line, next) = next_line(at)?;
        if !take_line(alloc, at.number, host, line)? {
            return Ok(at);
        }
        at = next;
    }
}
