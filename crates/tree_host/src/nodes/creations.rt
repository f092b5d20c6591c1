//! Entries that a table's directories get while it is served.
ghost use Rattle.std.specs.Prelude.{◌≡◌, ◌≢◌, None, ◌-◌, ◌^◌, ◌<◌, OnOk, OnErr, option_map};
ghost use Rattle.std.specs.Prelude.{unwrap_or};
ghost use Rattle.std.specs.FinMap as map;
ghost use Rattle.tree_model.specs.Tree.{body_at};
ghost use Rattle.tree_model.specs.Making.{change, joined_by, next_cookie};
ghost use Rattle.tree_model.specs.Placing.{one_link_more};
ghost use Rattle.tree_model.specs.Attributing.{restamped};
ghost use Rattle.tree_model.specs.Creating.{stamped};
ghost use Rattle.tree_host.specs.Stored.{links};
ghost use Rattle.tree_host.specs.Kept.{IsFree};
ghost use Rattle.tree_host.specs.Holds.{held_more};

use super::{add_name, add_node};
use crate::holds::{hold, lower};
use crate::node::Node;
use port_base::table::Table;
use std::alloc::{AllocError, Global};
use tree_model::Stamp;

/// The mtime and ctime of a directory become the moment.
pub fn stamp(nodes: &mut Table<Node>, dir: u64, moment: Stamp)
    ensures { nodes.new ≡ change (stamped moment) nodes.old dir }
{
    match nodes.get_mut(dir) {
        Some(node) => node.stamp(moment),
        None => (),
    }
}

fn touch(nodes: &mut Table<Node>, ino: u64, moment: Stamp)
    ensures { nodes.new ≡ change (restamped moment) nodes.old ino }
{
    match nodes.get_mut(ino) {
        Some(node) => node.touch(moment),
        None => (),
    }
}

/// A name that a directory gets at a moment, and the inode that it names.
#[derive(Clone, Copy)]
pub struct NewName<'a> {
    pub dir: u64,
    pub name: &'a [u8],
    pub ino: u64,
    pub moment: Stamp,
}

/// Adds a record with an entry for it, in a directory that is stamped. Without memory nothing
/// changes.
pub fn make_node(
    alloc: Global,
    nodes: &mut Table<Node>,
    new: NewName<'_>,
    node: Node,
) -> Result<(), AllocError>
    requires room { unwrap_or (option_map next_cookie (body_at nodes.old new.dir)) 0
        < 2 ^ 64 - 1 }
    requires free { IsFree nodes.old new.dir new.name.now }
    requires apart { new.dir ≢ new.ino }
    requires fresh { map.get nodes.old new.ino ≡ None }
    ensures ok { OnOk result (nodes.new ≡ change (stamped new.entry.moment)
        (change (joined_by new.entry.name.now new.entry.ino)
        (map.insert nodes.old new.entry.ino node) new.entry.dir) new.entry.dir) }
    ensures err { OnErr result (nodes.new ≡ nodes.old) }
{
    add_node(alloc, nodes, new.dir, new.name, new.ino, node)?;
    stamp(nodes, new.dir, new.moment);
    Ok(())
}

/// The same, and the new record is held.
pub fn create_node(
    alloc: Global,
    nodes: &mut Table<Node>,
    holds: &mut Table<u64>,
    new: NewName<'_>,
    node: Node,
) -> Result<(), AllocError>
    requires room { unwrap_or (option_map next_cookie (body_at nodes.old new.dir)) 0
        < 2 ^ 64 - 1 }
    requires free { IsFree nodes.old new.dir new.name.now }
    requires apart { new.dir ≢ new.ino }
    requires fresh { map.get nodes.old new.ino ≡ None }
    requires unheld { map.get holds.old new.ino ≡ None }
    ensures ok { OnOk result (nodes.new ≡ change (stamped new.entry.moment)
        (change (joined_by new.entry.name.now new.entry.ino)
        (map.insert nodes.old new.entry.ino node) new.entry.dir) new.entry.dir) }
    ensures err { OnErr result (nodes.new ≡ nodes.old) }
    ensures held { OnOk result (holds.new ≡ held_more holds.old new.entry.ino) }
    ensures let_go { OnErr result (holds.new ≡ holds.old) }
{
    hold(holds, new.ino)?;
    match make_node(alloc, nodes, new, node) {
        Ok(()) => Ok(()),
        Err(error) => {
            lower(holds, new.ino);
            Err(error)
        }
    }
}

/// Adds an entry for a record that is there, which is stamped as its directory is. Without memory
/// nothing changes.
pub fn link_node(alloc: Global, nodes: &mut Table<Node>, new: NewName<'_>) -> Result<(), AllocError>
    requires room { unwrap_or (option_map next_cookie (body_at nodes.old new.dir)) 0
        < 2 ^ 64 - 1 }
    requires free { IsFree nodes.old new.dir new.name.now }
    requires apart { new.dir ≢ new.ino }
    requires few { unwrap_or (option_map links (map.get nodes.old new.ino)) 0 < 2 ^ 64 - 1 }
    ensures ok { OnOk result (nodes.new ≡ change (stamped new.entry.moment)
        (change (restamped new.entry.moment) (change (joined_by new.entry.name.now new.entry.ino)
        (change one_link_more nodes.old new.entry.ino) new.entry.dir) new.entry.ino)
        new.entry.dir) }
    ensures err { OnErr result (nodes.new ≡ nodes.old) }
{
    add_name(alloc, nodes, new.dir, new.name, new.ino)?;
    touch(nodes, new.ino, new.moment);
    stamp(nodes, new.dir, new.moment);
    Ok(())
}
