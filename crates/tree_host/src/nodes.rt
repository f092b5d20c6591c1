//! Records in a table, by inode number.
ghost use Rattle.std.specs.Prelude.{◌≡◌, ◌≢◌, ◌==◌, not, Result, Ok, None, ℕ, ◌+◌, ◌-◌, ◌^◌, ◌<◌};
ghost use Rattle.std.specs.Prelude.{OnOk, OnErr, IfOk, IfErr, Err, IsSome, IsTrue, option_map};
ghost use Rattle.std.specs.Prelude.{unwrap_or, false};
ghost use Rattle.std.specs.List.{slice_split};
ghost use Rattle.std.specs.FinMap as map;
ghost use Rattle.std.specs.Result.{result_map_both};
ghost use Rattle.tree_model.specs.Tree.{body_at, is_directory_at};
ghost use Rattle.tree_model.specs.Finding.{entries_at, ino_among, root_of, path_names};
ghost use Rattle.tree_model.specs.Making.{change, joined_by, next_cookie, new_name_refused};
ghost use Rattle.tree_model.specs.Sound.{has_no_links, swept};
ghost use Rattle.tree_host.specs.Holds.{is_held};
ghost use Rattle.tree_host.specs.Host.{as_errno, Answers};
ghost use Rattle.tree_model.specs.Reading.{shown_entry, entry_after_among};
ghost use Rattle.tree_host.specs.Walking.{part_step, part_end, walk_parts};
ghost use Rattle.tree_model.specs.Opening.{body_answer, unless, open_refused, readlink_body};
ghost use Rattle.tree_model.specs.Opening.{found_at};
ghost use Rattle.tree_model.specs.Attributes.{kind_of};
ghost use Rattle.tree_model.specs.Placing.{link_refused, one_link_more};
ghost use Rattle.tree_host.specs.Stored.{links};
ghost use Rattle.tree_host.specs.Kept.{tree_from, put_by, IsFree};
ghost use Rattle.tree_host.specs.Changing.{change_refused, changed_by, is_small, Makes};
ghost use Rattle.tree_model.specs.Attributing.{refused_at, write_refused, overwritten_at, fitting};
ghost use Rattle.tree_model.specs.declared.attributes.Limits.{Limits};
ghost use Rattle.tree_model.specs.declared.attributes.Stamp.{Stamp};

mod creations;
mod moves;
mod removals;

use crate::change::Change;
use crate::entry::Entry;
use crate::holds::is_held;
use crate::listing::DirEntry;
use crate::node::Node;
pub use creations::{NewName, create_node, link_node, make_node};
pub use moves::{Move, Place, found, move_entry, move_refusal, sweep_replaced};
use port_base::errno::{ENOENT, ENOTDIR};
use port_base::table::Table;
pub use removals::{find_empty, find_file, remove_entry};
use std::alloc::{AllocError, Global};
use tree_model::attributes::TOP;
use tree_model::{HostError, Limits, Stamp};

/// The inode that a name of a directory names.
pub fn find_in(nodes: &Table<Node>, dir: u64, name: &[u8]) -> Result<u64, HostError>
    ensures { result ≡ as_errno (ino_among false name.now (entries_at nodes.now dir)) }
{
    match nodes.get(dir) {
        Some(node) => node.ino_of(name),
        None => Err(HostError::Errno(ENOTDIR)),
    }
}

/// Whether an inode is a directory.
pub fn is_directory(nodes: &Table<Node>, ino: u64) -> bool
    ensures { result ≡ is_directory_at (body_at nodes.now ino) }
{
    match nodes.get(ino) {
        Some(node) => node.is_directory(),
        None => false,
    }
}

/// Whether a record is there that has no links.
pub fn has_no_links(nodes: &Table<Node>, ino: u64) -> bool
    ensures { result ≡ has_no_links (map.get nodes.now ino) }
{
    match nodes.get(ino) {
        Some(node) => node.links() == 0,
        None => false,
    }
}

/// Takes a record away that has no links and no hold.
pub fn sweep(nodes: &mut Table<Node>, holds: &Table<u64>, ino: u64)
    ensures { nodes.new ≡ swept (is_held holds.now) nodes.old ino }
{
    if has_no_links(nodes, ino) && !is_held(holds, ino) {
        nodes.remove(ino);
    }
}

// One more part of a path.
fn walk_part(nodes: &Table<Node>, at: Result<u64, HostError>, part: &[u8]) -> Result<u64, HostError>
    ensures { (told : Result ℕ ℕ) → at ≡ as_errno told → result ≡ as_errno
        (part_step nodes.now part.now told) }
{
    let ino = at?;
    if part.is_empty() {
        return Ok(ino);
    }
    find_in(nodes, ino, part)
}

// Where a path from the top leads, whatever stands there.
fn reach(nodes: &Table<Node>, path: &[u8]) -> Result<u64, HostError>
    ensures { result ≡ as_errno (walk_parts nodes.now (Ok TOP)
        (slice_split (λ b. b == 47) path.now)) }
{
    let mut at = Ok(TOP);
    for part in path.split(|b| *b == b'/') {
        at = walk_part(nodes, at, part);
    }
    at
}

/// The inode at the end of a path from the top, if there is one.
pub fn find(nodes: &Table<Node>, path: &[u8]) -> Option<u64>
    ensures { (next : ℕ) (limits : Limits) (moment : Stamp) →
        result ≡ found_at (tree_from nodes.now next limits moment) (path_names path.now) }
{
    match reach(nodes, path) {
        Ok(ino) => Some(ino),
        Err(_) => None,
    }
}

fn end_of_walk(nodes: &Table<Node>, at: Result<u64, HostError>) -> Result<u64, HostError>
    ensures { (told : Result ℕ ℕ) → at ≡ as_errno told → result ≡ as_errno
        (part_end nodes.now told) }
{
    let ino = at?;
    if is_directory(nodes, ino) {
        Ok(ino)
    } else {
        Err(HostError::Errno(ENOTDIR))
    }
}

/// The directory at the end of a path from the top, whatever else the tree has.
pub fn walk(nodes: &Table<Node>, path: &[u8]) -> Result<u64, HostError>
    ensures answer { (next : ℕ) (limits : Limits) (moment : Stamp) →
        result ≡ as_errno (root_of (tree_from nodes.now next limits moment) (path_names path.now)) }
    ensures errno { IfErr result (λ e. (n : ℕ) × (e ≡ HostError.Errno n)) }
{
    end_of_walk(nodes, reach(nodes, path))
}

/// Whether an inode may be opened.
pub fn open_check(nodes: &Table<Node>, ino: u64, flags: u32) -> Result<(), HostError>
    ensures { result ≡ as_errno (body_answer (λ b. unless (open_refused flags (kind_of b)))
        (body_at nodes.now ino)) }
{
    let Some(node) = nodes.get(ino) else {
        return Err(HostError::Errno(ENOENT));
    };
    match node.open_refusal(flags) {
        Some(errno) => Err(HostError::Errno(errno)),
        None => Ok(()),
    }
}

/// The target of a link.
pub fn read_link(alloc: Global, nodes: &Table<Node>, ino: u64) -> Result<Vec<u8>, HostError>
    ensures answer { Answers (body_answer readlink_body (body_at nodes.now ino))
        (result_map_both (λ target. target.items) (λ e. e) result) }
    ensures fault { result ≢ Err HostError.Fault }
{
    match nodes.get(ino) {
        Some(node) => node.read_link(alloc),
        None => Err(HostError::Errno(ENOENT)),
    }
}

/// The first refusal of a new name in a directory.
pub fn refusal(nodes: &Table<Node>, dir: u64, name: &[u8], number: u64, limit: u64) -> Option<u32>
    ensures { result ≡ new_name_refused (not (has_no_links (map.get nodes.now dir))) limit number
        name.now (body_at nodes.now dir) }
{
    match nodes.get(dir) {
        Some(node) => node.refusal(name, number, limit),
        None => Some(ENOTDIR),
    }
}

/// The first refusal of one more name of a record.
pub fn link_refusal(
    nodes: &Table<Node>,
    dir: u64,
    name: &[u8],
    ino: u64,
    limits: Limits,
) -> Option<u32>
    ensures { result ≡ link_refused (not (has_no_links (map.get nodes.now dir))) limits name.now
        (body_at nodes.now dir) (map.get nodes.now ino) }
{
    let Some(directory) = nodes.get(dir) else {
        return Some(ENOTDIR);
    };
    match nodes.get(ino) {
        Some(node) => directory.link_refusal(name, node, limits),
        None => Some(ENOENT),
    }
}

fn take_away(nodes: &mut Table<Node>, ino: u64)
    ensures { nodes.new ≡ map.remove nodes.old ino }
{
    nodes.remove(ino);
}

// Adds an entry in the place of the one that has its name, where there is memory for it.
fn put_into(
    alloc: Global,
    nodes: &mut Table<Node>,
    dir: u64,
    name: &[u8],
    ino: u64,
) -> Result<(), AllocError>
    requires room { unwrap_or (option_map next_cookie (body_at nodes.old dir)) 0 < 2 ^ 64 - 1 }
    ensures ok { OnOk result (nodes.new ≡ change (put_by name.now ino) nodes.old dir) }
    ensures err { OnErr result (nodes.new ≡ nodes.old) }
{
    match nodes.get_mut(dir) {
        Some(node) => node.join(alloc, name, ino),
        None => Ok(()),
    }
}

/// Adds a record with an entry for it. When out of memory, what was added is taken away again.
pub fn add_node(
    alloc: Global,
    nodes: &mut Table<Node>,
    dir: u64,
    name: &[u8],
    ino: u64,
    node: Node,
) -> Result<(), AllocError>
    requires room { unwrap_or (option_map next_cookie (body_at nodes.old dir)) 0 < 2 ^ 64 - 1 }
    requires free { IsFree nodes.old dir name.now }
    requires apart { dir ≢ ino }
    requires fresh { map.get nodes.old ino ≡ None }
    ensures ok { OnOk result (nodes.new ≡ change (joined_by name.now ino)
        (map.insert nodes.old ino node) dir) }
    ensures err { OnErr result (nodes.new ≡ nodes.old) }
{
    nodes.insert(ino, node)?;
    match put_into(alloc, nodes, dir, name, ino) {
        Ok(()) => Ok(()),
        Err(error) => {
            take_away(nodes, ino);
            Err(error)
        }
    }
}

fn link_more(nodes: &mut Table<Node>, ino: u64)
    requires { unwrap_or (option_map links (map.get nodes.old ino)) 0 < 2 ^ 64 - 1 }
    ensures { nodes.new ≡ change one_link_more nodes.old ino }
{
    match nodes.get_mut(ino) {
        Some(node) => node.link_more(),
        None => (),
    }
}

/// Adds an entry for a record that is there, where there is memory for it.
pub fn add_name(
    alloc: Global,
    nodes: &mut Table<Node>,
    dir: u64,
    name: &[u8],
    ino: u64,
) -> Result<(), AllocError>
    requires room { unwrap_or (option_map next_cookie (body_at nodes.old dir)) 0 < 2 ^ 64 - 1 }
    requires free { IsFree nodes.old dir name.now }
    requires apart { dir ≢ ino }
    requires few { unwrap_or (option_map links (map.get nodes.old ino)) 0 < 2 ^ 64 - 1 }
    ensures ok { OnOk result (nodes.new ≡ change (joined_by name.now ino)
        (change one_link_more nodes.old ino) dir) }
    ensures err { OnErr result (nodes.new ≡ nodes.old) }
{
    put_into(alloc, nodes, dir, name, ino)?;
    link_more(nodes, ino);
    Ok(())
}

/// Makes a change of a record, where nothing refuses it.
pub fn change_node(
    nodes: &mut Table<Node>,
    ino: u64,
    wanted: Change,
    moment: Stamp,
    limit: u64,
) -> Result<(), HostError>
    ensures made { Makes (refused_at (change_refused wanted limit) (body_at nodes.old ino))
        (change (changed_by wanted moment) nodes.old ino) nodes.old nodes.new result }
    ensures small { IsTrue (is_small wanted) → result ≢ Err HostError.NoMemory }
{
    match nodes.get_mut(ino) {
        Some(node) => node.change(wanted, moment, limit),
        None => Err(HostError::Errno(ENOENT)),
    }
}

/// Writes the bytes that end by the limit over those of a file.
pub fn write_node(
    nodes: &mut Table<Node>,
    ino: u64,
    offset: u64,
    new: &[u8],
    moment: Stamp,
    limit: u64,
) -> Result<(), HostError>
    ensures { Makes (refused_at (write_refused limit offset new.now) (body_at nodes.old ino))
        (change (overwritten_at moment offset (fitting limit offset new.now)) nodes.old ino)
        nodes.old nodes.new result }
{
    match nodes.get_mut(ino) {
        Some(node) => node.write(offset, new, moment, limit),
        None => Err(HostError::Errno(ENOENT)),
    }
}

// An entry with what is told of the inode that it names.
fn shown(alloc: Global, nodes: &Table<Node>, entry: &DirEntry) -> Result<Option<Entry>, HostError>
    ensures told { IfOk result (λ shown. shown ≡ shown_entry nodes.now entry.now) }
    ensures memory { IfErr result (λ e. e ≡ HostError.NoMemory) }
{
    let Some(node) = nodes.get(entry.ino()) else {
        return Ok(None);
    };
    let name = Vec::from_slice(alloc, entry.name())?;
    Ok(Some(Entry {
        cookie: entry.cookie(),
        name,
        attr: node.attr(entry.ino()),
    }))
}

/// The first entry of a directory above a cookie.
pub fn entry_after(
    alloc: Global,
    nodes: &Table<Node>,
    dir: u64,
    cookie: u64,
) -> Result<Option<Entry>, HostError>
    ensures answer { Answers (entry_after_among nodes.now cookie (entries_at nodes.now dir))
        result }
    ensures fault { result ≢ Err HostError.Fault }
{
    let Some(node) = nodes.get(dir) else {
        return Err(HostError::Errno(ENOTDIR));
    };
    if !node.is_directory() {
        return Err(HostError::Errno(ENOTDIR));
    }
    match node.entry_above(cookie) {
        Some(entry) => shown(alloc, nodes, entry),
        None => Ok(None),
    }
}
