//! What is read of a tree in memory without changing it. No reader faults.
ghost use Rattle.std.specs.Prelude.{◌≡◌, option_map, option_and_then};
ghost use Rattle.tree_model.specs.Finding.{entries_of};
ghost use Rattle.tree_model.specs.Reading.{entry_above};
ghost use Rattle.tree_host.specs.Kept.{entry_from};

use super::TreeHost;
use crate::node::Node;
use crate::nodes::find;
use port_base::paths::is_rooted_path;
use tree_model::Attr;

fn peek(node: &Node, cookie: u64) -> Option<(u64, u64, &[u8])>
    ensures { option_map entry_from result ≡ option_and_then (entry_above cookie)
        (entries_of node.now.body) }
{
    match node.entry_above(cookie) {
        Some(entry) => Some((entry.cookie(), entry.ino(), entry.name())),
        None => None,
    }
}

impl TreeHost {
    ghost use Rattle.std.specs.Prelude.{◌≡◌, ◌++◌, length, drop, option_map, IsTrue};
    ghost use Rattle.tree_model.specs.Tree.{body_at, is_directory_at};
    ghost use Rattle.tree_model.specs.Reading.{record_after_of, above_of, next_cookie_of};
    ghost use Rattle.tree_model.specs.Reading.{peek_entry_of, is_file_at, bytes_at, part};
    ghost use Rattle.tree_model.specs.Opening.{at_path, is_link_at, target_at};
    ghost use Rattle.tree_host.specs.TreeHosts.{tree};

    /// What is told of the record with the least number above `ino`.
    pub fn record_after(&self, ino: u64) -> Option<Attr>
        ensures { result ≡ record_after_of (tree self.now) ino }
    {
        match self.nodes.next_after(ino) {
            Some((next, node)) => Some(node.attr(next)),
            None => None,
        }
    }

    /// The number that the next record gets.
    pub fn next_ino(&self) -> u64
        ensures { result ≡ (tree self.now).next }
    {
        self.next
    }

    /// The number of the directory above a directory; the top is above itself.
    pub fn above(&self, dir: u64) -> u64
        requires { IsTrue (is_directory_at (body_at (tree self.now).records dir)) }
        ensures { result ≡ above_of (tree self.now) dir }
    {
        match self.nodes.get(dir) {
            Some(node) => node.above(),
            None => 0,
        }
    }

    /// The cookie that the next entry of a directory gets.
    pub fn next_cookie(&self, dir: u64) -> u64
        requires { IsTrue (is_directory_at (body_at (tree self.now).records dir)) }
        ensures { result ≡ next_cookie_of (tree self.now) dir }
    {
        match self.nodes.get(dir) {
            Some(node) => node.next_cookie(),
            None => 0,
        }
    }

    /// The first entry of a directory above a cookie: its cookie, the inode that it names, and its
    /// name.
    pub fn peek_entry(&self, dir: u64, cookie: u64) -> Option<(u64, u64, &[u8])>
        requires { IsTrue (is_directory_at (body_at (tree self.now).records dir)) }
        ensures { option_map entry_from result ≡ peek_entry_of (tree self.now) dir cookie }
    {
        match self.nodes.get(dir) {
            Some(node) => peek(node, cookie),
            None => None,
        }
    }

    /// Copies the bytes of a file from an offset on, as many as there are and fit, and returns how
    /// many.
    pub fn peek_bytes(&self, ino: u64, offset: u64, buf: &mut [u8]) -> usize
        requires { IsTrue (is_file_at (body_at (tree self.now).records ino)) }
        ensures count { result ≡ length (part (bytes_at (tree self.now) ino) offset
            (length buf.old)) }
        ensures bytes { buf.new ≡ part (bytes_at (tree self.now) ino) offset (length buf.old) ++
            drop result buf.old }
    {
        match self.nodes.get(ino) {
            Some(node) => node.read(offset, buf),
            None => 0,
        }
    }

    /// The target of a link.
    pub fn peek_target(&self, ino: u64) -> &[u8]
        requires { IsTrue (is_link_at (body_at (tree self.now).records ino)) }
        ensures { result.now ≡ target_at (tree self.now) ino }
    {
        match self.nodes.get(ino) {
            Some(node) => node.target(),
            None => &[],
        }
    }

    /// The inode at the end of a rooted path by exact names, whatever its kind. A path that isn't
    /// rooted leads nowhere.
    pub fn find(&self, path: &[u8]) -> Option<u64>
        ensures { result ≡ at_path (tree self.now) path.now }
    {
        if !is_rooted_path(path) {
            return None;
        }
        find(&self.nodes, path)
    }
}
