//! How a tree is shared.
ghost use Rattle.std.specs.Prelude.{◌≡◌, ◌+◌, ◌<◌, ◌^◌, true, false};
ghost use Rattle.tree_model.specs.Finding.{path_names};
ghost use Rattle.tree_model.specs.Settings.{mapped, shown_of};
ghost use Rattle.tree_model.specs.Attributes.{type_bits};
ghost use Rattle.std.specs.FinMap as map;
ghost use Rattle.port_base.specs.Paths.{is_rooted_path};
ghost use Rattle.p9_server.specs.Configs.{settings_of};

use crate::config::Config;
use std::collections::BTreeMap;
use std::marker::Model;
use tree_model::{Attr, Kind};

/// Numbers of owners by numbers of owners.
pub type ServerIdMap<T> = BTreeMap<T, T>;

/// The users that are shown for the users of the tree.
pub type ServerUidMap = ServerIdMap<u32>;

/// The groups that are shown for the groups of the tree.
pub type ServerGidMap = ServerIdMap<u32>;

/// The path of the root, the maps of owners, how names are looked up, and how many fids there may
/// be.
#[derive(Drop)]
pub struct Share {
    root: Vec<u8>,
    uid_map: ServerUidMap,
    gid_map: ServerGidMap,
    ascii_casefold: bool,
    fid_limit: u32,
}

impl Model for Share {
    ghost use Rattle.std.specs.Prelude.{◌≡◌, ◌<◌, ◌^◌, true, false};
    ghost use Rattle.std.specs.FinMap as map;
    ghost use Rattle.tree_model.specs.Finding.{path_names};
    ghost use Rattle.tree_model.specs.Settings.{Settings};
    ghost use Rattle.port_base.specs.Paths.{is_rooted_path};

    ghost Value = { Settings };

    ghost use Rattle.std.specs.Coded.{codes};

    ghost coded = { Prim.hlevel (codes, map.code) };

    ghost view = { λ a. record {
      root = path_names a.root.items;
      uid_map = map.from_entries a.uid_map.entries;
      gid_map = map.from_entries a.gid_map.entries;
      casefold = a.ascii_casefold;
      limit = a.fid_limit;
    } };

    ghost invariant = { λ a. (is_rooted_path a.root.items ≡ true) × (a.fid_limit < 2 ^ 32) };
}

// The bits of a mode that tell its kind.
fn type_bits(kind: Kind) -> u32
    ensures { result ≡ type_bits kind }
{
    match kind {
        Kind::File => 0o100000,
        Kind::Directory => 0o040000,
        Kind::Link => 0o120000,
    }
}

// An owner without a pair stays.
fn mapped(ids: &ServerIdMap<u32>, id: u32) -> u32
    ensures { result ≡ mapped (map.from_entries ids.now.entries) id }
{
    match ids.get(&id) {
        Some(shown) => *shown,
        None => id,
    }
}

impl Share {
    /// How a configuration shares a tree.
    pub fn new(config: Config) -> Self
        requires { is_rooted_path config.root.items ≡ true }
        ensures { result ≡ settings_of config }
    {
        let Config {
            root,
            msize: _,
            uid_map,
            gid_map,
            ascii_casefold,
            fid_limit,
        } = config;
        Share {
            root,
            uid_map,
            gid_map,
            ascii_casefold,
            fid_limit,
        }
    }

    /// The path of the root.
    pub fn root(&self) -> &[u8]
        ensures root { path_names result.now ≡ self.now.root }
        ensures rooted { is_rooted_path result.now ≡ true }
    {
        &self.root
    }

    /// Whether a name is found that differs in the case of ASCII letters alone.
    pub fn folds_case(&self) -> bool
        ensures { result ≡ self.now.casefold }
    {
        self.ascii_casefold
    }

    /// How many fids there may be.
    pub fn fid_limit(&self) -> u32
        ensures { result ≡ self.now.limit }
    {
        self.fid_limit
    }

    /// What is shown of an inode.
    pub fn shown(&self, attr: &Attr) -> Attr
        requires { attr.now.mode < 4096 }
        ensures { result ≡ shown_of self.now attr.now }
    {
        Attr {
            mode: type_bits(attr.kind) + attr.mode,
            uid: mapped(&self.uid_map, attr.uid),
            gid: mapped(&self.gid_map, attr.gid),
            ..*attr
        }
    }
}
