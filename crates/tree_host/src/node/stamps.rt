//! Times that become the moment, and what is new then.
ghost use Rattle.std.specs.Prelude.{◌≡◌, ◌-◌, ◌^◌, length, nat_le};
ghost use Rattle.tree_model.specs.Tree.{listed};
ghost use Rattle.tree_model.specs.Making.{next_cookie};
ghost use Rattle.tree_model.specs.Attributing.{restamped};
ghost use Rattle.tree_model.specs.Creating.{stamped, empty_file, empty_directory};
ghost use Rattle.tree_model.specs.Renaming.{placed_below, moved_below};

use super::{Node, Stored};
use std::alloc::Global;
use tree_model::Stamp;

const MODES: u32 = 4096;

impl Node {
    /// A file without bytes, of the owners 0 and 0, the mode modulo 4096.
    pub fn empty_file(alloc: Global, mode: u32, moment: Stamp) -> Self
        ensures { result ≡ empty_file moment mode }
    {
        Node {
            body: Stored::Bytes(Vec::new(alloc)),
            mode: mode % MODES,
            uid: 0,
            gid: 0,
            links: 1,
            atime: moment,
            mtime: moment,
            ctime: moment,
        }
    }

    /// A directory without entries below the directory `above`, of the owners 0 and 0, the mode
    /// modulo 4096.
    pub fn empty_directory(alloc: Global, mode: u32, above: u64, moment: Stamp) -> Self
        ensures { result ≡ empty_directory moment mode above }
    {
        Node::directory(alloc, mode % MODES, 0, 0, above, moment)
    }

    /// Its entries changed at the moment.
    pub fn stamp(&mut self, moment: Stamp)
        ensures { self.new ≡ stamped moment self.old }
    {
        self.mtime = moment;
        self.ctime = moment;
    }

    /// Its ctime becomes the moment.
    pub fn touch(&mut self, moment: Stamp)
        ensures { self.new ≡ restamped moment self.old }
    {
        self.ctime = moment;
    }

    /// It was moved into the directory `dir`.
    pub fn settle(&mut self, moment: Stamp, dir: u64)
        ensures { self.new ≡ moved_below moment dir self.old }
    {
        if let Stored::Names { above, .. } = &mut self.body {
            *above = dir;
        }
        self.ctime = moment;
    }

    /// Whether it lists as many entries as there may be.
    pub fn is_full(&self, limit: u64) -> bool
        ensures { result ≡ nat_le limit (length (listed self.now.body)) }
    {
        match &self.body {
            Stored::Names { listing, .. } => listing.len() as u64 >= limit,
            Stored::Bytes(_) => limit == 0,
            Stored::Target(_) => limit == 0,
        }
    }

    /// Whether no cookie is left for an entry.
    pub fn has_no_cookie(&self) -> bool
        ensures { result ≡ nat_le (2 ^ 64 - 1) (next_cookie self.now.body) }
    {
        match &self.body {
            Stored::Names { listing, .. } => listing.next_cookie() >= u64::MAX,
            Stored::Bytes(_) => false,
            Stored::Target(_) => false,
        }
    }
}
