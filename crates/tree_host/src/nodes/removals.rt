//! Entries of a table's directories that go.
ghost use Rattle.std.specs.Prelude.{◌≡◌, false};
ghost use Rattle.tree_model.specs.Tree.{body_at};
ghost use Rattle.tree_model.specs.Finding.{entries_at, ino_among};
ghost use Rattle.tree_model.specs.Making.{change};
ghost use Rattle.tree_model.specs.Unlinking.{unless_directory, is_empty_at, if_empty, parted_by};
ghost use Rattle.tree_model.specs.Unlinking.{one_name_less};
ghost use Rattle.tree_host.specs.Host.{as_errno};

use super::{find_in, is_directory};
use crate::node::Node;
use port_base::errno::{EISDIR, ENOTDIR, ENOTEMPTY};
use port_base::table::Table;
use tree_model::{HostError, Stamp};

/// The inode that a name of a directory names, where it is no directory.
pub fn find_file(nodes: &Table<Node>, dir: u64, name: &[u8]) -> Result<u64, HostError>
    ensures { result ≡ as_errno (unless_directory nodes.now
        (ino_among false name.now (entries_at nodes.now dir))) }
{
    let ino = find_in(nodes, dir, name)?;
    let directory = is_directory(nodes, ino);
    if directory {
        return Err(HostError::Errno(EISDIR));
    }
    Ok(ino)
}

/// Whether an inode lists nothing.
pub fn is_empty(nodes: &Table<Node>, ino: u64) -> bool
    ensures { result ≡ is_empty_at (body_at nodes.now ino) }
{
    match nodes.get(ino) {
        Some(node) => node.is_empty(),
        None => true,
    }
}

/// The inode that a name of a directory names, where it is a directory without entries.
pub fn find_empty(nodes: &Table<Node>, dir: u64, name: &[u8]) -> Result<u64, HostError>
    ensures { result ≡ as_errno (if_empty nodes.now
        (ino_among false name.now (entries_at nodes.now dir))) }
{
    let ino = find_in(nodes, dir, name)?;
    let directory = is_directory(nodes, ino);
    if !directory {
        return Err(HostError::Errno(ENOTDIR));
    }
    let empty = is_empty(nodes, ino);
    if !empty {
        return Err(HostError::Errno(ENOTEMPTY));
    }
    Ok(ino)
}

/// An inode has a name less.
pub fn name_less(nodes: &mut Table<Node>, ino: u64, moment: Stamp)
    ensures { nodes.new ≡ change (one_name_less moment) nodes.old ino }
{
    match nodes.get_mut(ino) {
        Some(node) => node.name_less(moment),
        None => (),
    }
}

/// The entry of a name goes.
pub fn part_from(nodes: &mut Table<Node>, dir: u64, name: &[u8], moment: Stamp)
    ensures { nodes.new ≡ change (parted_by name.now moment) nodes.old dir }
{
    match nodes.get_mut(dir) {
        Some(node) => node.part(name, moment),
        None => (),
    }
}

/// Takes an entry away, and a name of the record that it names.
pub fn remove_entry(nodes: &mut Table<Node>, dir: u64, name: &[u8], ino: u64, moment: Stamp)
    ensures { nodes.new ≡ change (parted_by name.now moment)
        (change (one_name_less moment) nodes.old ino) dir }
{
    name_less(nodes, ino, moment);
    part_from(nodes, dir, name, moment);
}
