//! Entries of a table's directories that move.
ghost use Rattle.std.specs.Prelude.{◌≡◌, ◌&&◌, not, false, ◌-◌, ◌^◌, ◌<◌, OnOk, OnErr, option_map};
ghost use Rattle.std.specs.Prelude.{unwrap_or, is_some, ◌==◌};
ghost use Rattle.tree_model.specs.declared.attributes.Stamp.{Stamp};
ghost use Rattle.tree_model.specs.Tree.{body_at, is_directory_at};
ghost use Rattle.tree_model.specs.Finding.{entries_at, ino_among};
ghost use Rattle.tree_model.specs.Making.{change, joined_by, next_cookie};
ghost use Rattle.std.specs.Result.{result_ok};
ghost use Rattle.tree_model.specs.Creating.{stamped};
ghost use Rattle.tree_model.specs.Unlinking.{parted_by};
ghost use Rattle.tree_model.specs.Renaming.{above_at, climbs_past, place_refused, replace_refused};
ghost use Rattle.tree_model.specs.Renaming.{room_refused, move_refused, moved_below};
ghost use Rattle.tree_host.specs.Holds.{is_held};
ghost use Rattle.tree_host.specs.Kept.{tree_from, replaced_in, displaced_in, swept_of};

use super::creations::stamp;
use super::removals::{is_empty, name_less, part_from};
use super::{find_in, is_directory, put_into, sweep};
use crate::node::Node;
use port_base::errno::{EINVAL, EISDIR, ENOSPC, ENOTDIR, ENOTEMPTY};
use port_base::table::Table;
use std::alloc::{AllocError, Global};
use tree_model::attributes::TOP;
use tree_model::{Limits, Stamp};

/// A name in a directory.
#[derive(Clone, Copy)]
pub struct Place<'a> {
    pub dir: u64,
    pub name: &'a [u8],
}

/// An inode's name that moves from one place to another, where an inode may be replaced.
#[derive(Clone, Copy)]
pub struct Move<'a> {
    pub from: Place<'a>,
    pub to: Place<'a>,
    pub ino: u64,
    pub there: Option<u64>,
}

fn above_at(nodes: &Table<Node>, ino: u64) -> u64
    ensures { result ≡ above_at nodes.now ino }
{
    match nodes.get(ino) {
        Some(node) => node.above(),
        None => 0,
    }
}

// Whether a climb from a directory comes to the top in fewer steps than given, and never to an
// inode.
fn climbs_past(nodes: &Table<Node>, ino: u64, steps: u64, dir: u64) -> bool
    ensures { result ≡ climbs_past nodes.now ino steps dir }
{
    let mut at = dir;
    for _ in 0..steps {
        if at == ino {
            return false;
        }
        if at == TOP {
            return true;
        }
        at = above_at(nodes, at);
    }
    false
}

// Whether an inode is a directory, and the directory `dir` at or below it.
fn is_at_or_below(nodes: &Table<Node>, ino: u64, steps: u64, dir: u64) -> bool
    ensures { result ≡ is_directory_at (body_at nodes.now ino) && not
        (climbs_past nodes.now ino steps dir) }
{
    let directory = is_directory(nodes, ino);
    directory && !climbs_past(nodes, ino, steps, dir)
}

// Why an inode can't take the place of another.
fn place_refusal(nodes: &Table<Node>, ino: u64, there: u64) -> Option<u32>
    ensures { result ≡ place_refused (body_at nodes.now ino) (body_at nodes.now there) }
{
    let moved = is_directory(nodes, ino);
    let replaced = is_directory(nodes, there);
    let empty = is_empty(nodes, there);
    if moved && !replaced {
        return Some(ENOTDIR);
    }
    if !moved && replaced {
        return Some(EISDIR);
    }
    if empty { None } else { Some(ENOTEMPTY) }
}

fn replace_refusal(nodes: &Table<Node>, ino: u64, there: Option<u64>) -> Option<u32>
    ensures { result ≡ replace_refused nodes.now ino there }
{
    match there {
        Some(there) => place_refusal(nodes, ino, there),
        None => None,
    }
}

// Why the directory that an entry moves to has no room for it.
fn room_refusal(nodes: &Table<Node>, moved: Move<'_>, limit: u64) -> Option<u32>
    ensures { result ≡ room_refused limit
        (not (is_some moved.entry.there) && not (moved.entry.from.dir == moved.entry.to.dir))
        (body_at nodes.now moved.entry.to.dir) }
{
    match nodes.get(moved.to.dir) {
        Some(node) => {
            let more = moved.there.is_none() && moved.from.dir != moved.to.dir;
            let full = more && node.is_full(limit);
            if full || node.has_no_cookie() {
                Some(ENOSPC)
            } else {
                None
            }
        }
        None => Some(ENOTDIR),
    }
}

/// The first refusal of a move, of a tree whose next inode and bounds are these.
pub fn move_refusal(nodes: &Table<Node>, moved: Move<'_>, next: u64, limits: Limits) -> Option<u32>
    ensures { (moment : Stamp) → result ≡ move_refused (tree_from nodes.now next limits moment)
        moved.entry.from.dir moved.entry.to.dir moved.entry.ino moved.entry.there }
{
    let below = is_at_or_below(nodes, moved.ino, next, moved.to.dir);
    if below {
        return Some(EINVAL);
    }
    if let Some(errno) = replace_refusal(nodes, moved.ino, moved.there) {
        return Some(errno);
    }
    room_refusal(nodes, moved, limits.entries)
}

/// The inode that a name of a directory names, if there is one.
pub fn found(nodes: &Table<Node>, dir: u64, name: &[u8]) -> Option<u64>
    ensures { result ≡ result_ok (ino_among false name.now (entries_at nodes.now dir)) }
{
    match find_in(nodes, dir, name) {
        Ok(ino) => Some(ino),
        Err(_) => None,
    }
}

// What is replaced has a name less, and its directory is stamped.
fn displace(nodes: &mut Table<Node>, dir: u64, there: Option<u64>, moment: Stamp)
    ensures { nodes.new ≡ displaced_in moment dir there nodes.old }
{
    if let Some(ino) = there {
        name_less(nodes, ino, moment);
        stamp(nodes, dir, moment);
    }
}

// Adds an entry of a name, in the place of that of the inode that has the name, if there is one.
fn put_replacing(
    alloc: Global,
    nodes: &mut Table<Node>,
    to: Place<'_>,
    ino: u64,
    there: Option<u64>,
    moment: Stamp,
) -> Result<(), AllocError>
    requires room { unwrap_or (option_map next_cookie (body_at nodes.old to.dir)) 0
        < 2 ^ 64 - 1 }
    requires there { there ≡ result_ok (ino_among false to.name.now
        (entries_at nodes.old to.dir)) }
    ensures ok { OnOk result (nodes.new ≡ replaced_in moment to.entry.dir to.entry.name.now there
        (change (joined_by to.entry.name.now ino) nodes.old to.entry.dir)) }
    ensures err { OnErr result (nodes.new ≡ nodes.old) }
{
    put_into(alloc, nodes, to.dir, to.name, ino)?;
    displace(nodes, to.dir, there, moment);
    Ok(())
}

fn settle(nodes: &mut Table<Node>, ino: u64, moment: Stamp, dir: u64)
    ensures { nodes.new ≡ change (moved_below moment dir) nodes.old ino }
{
    match nodes.get_mut(ino) {
        Some(node) => node.settle(moment, dir),
        None => (),
    }
}

/// Adds an entry of the new name, and takes away the one that it replaces and the old one. Without
/// memory nothing changes.
pub fn move_entry(
    alloc: Global,
    nodes: &mut Table<Node>,
    moved: Move<'_>,
    moment: Stamp,
) -> Result<(), AllocError>
    requires room { unwrap_or (option_map next_cookie (body_at nodes.old moved.to.dir)) 0
        < 2 ^ 64 - 1 }
    requires there { moved.there ≡ result_ok (ino_among false moved.to.name.now
        (entries_at nodes.old moved.to.dir)) }
    ensures ok { OnOk result (nodes.new ≡ change (moved_below moment moved.entry.to.dir)
        (change (stamped moment) (change (parted_by moved.entry.from.name.now moment)
        (replaced_in moment moved.entry.to.dir moved.entry.to.name.now moved.entry.there
        (change (joined_by moved.entry.to.name.now moved.entry.ino) nodes.old moved.entry.to.dir))
        moved.entry.from.dir) moved.entry.to.dir) moved.entry.ino) }
    ensures err { OnErr result (nodes.new ≡ nodes.old) }
{
    let Move {
        from,
        to,
        ino,
        there,
    } = moved;
    put_replacing(alloc, nodes, to, ino, there, moment)?;
    part_from(nodes, from.dir, from.name, moment);
    stamp(nodes, to.dir, moment);
    settle(nodes, ino, moment, to.dir);
    Ok(())
}

/// Takes what was replaced away, where it has no links and no hold.
pub fn sweep_replaced(nodes: &mut Table<Node>, holds: &Table<u64>, there: Option<u64>)
    ensures { nodes.new ≡ swept_of (is_held holds.now) there nodes.old }
{
    match there {
        Some(ino) => sweep(nodes, holds, ino),
        None => (),
    }
}
