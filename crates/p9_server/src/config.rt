//! How a server is set up.
ghost use Rattle.std.specs.Prelude.{◌≡◌, ◌∷◌, [], false, IfOk};
ghost use Rattle.p9_server.specs.Configs.{config_refused};

use crate::share::{ServerGidMap, ServerUidMap, Share};
use p9_wire::protocol::MIN_MESSAGE_SIZE;
use port_base::paths::is_rooted_path;
use port_base::sink::NoMemory;
use std::alloc::Global;
use std::collections::BTreeMap;
use std::fmt;

/// The usual greatest size of a frame, in bytes.
pub const STANDARD_MSIZE: u32 = 65560;

/// How a server is set up.
#[derive(Drop)]
pub struct Config {
    /// The path of the directory that is shared: `/`, or `/` and names without fault joined by
    /// single slashes.
    pub root: Vec<u8>,
    /// The greatest size of a frame, in bytes: at least 256.
    pub msize: u32,
    /// The users that are shown for the users of the tree; one without a pair stays.
    pub uid_map: ServerUidMap,
    /// The groups that are shown for the groups of the tree; one without a pair stays.
    pub gid_map: ServerGidMap,
    /// Whether a walk takes a name that differs in the case of ASCII letters alone, where the exact
    /// name isn't there: the first such entry in the order of cookies.
    pub ascii_casefold: bool,
    /// How many fids there may be.
    pub fid_limit: u32,
}

/// Why a server can't be set up.
#[derive(Clone, Copy, Debug, PartialEq, Eq)]
pub enum ConfigError {
    /// The greatest size of a frame is below 256.
    MsizeTooSmall,
    /// The root isn't `/`, nor `/` and names without fault joined by single slashes.
    BadRoot,
    /// Out of memory.
    NoMemory,
}

impl fmt::Display for ConfigError {
    fn fmt<W: fmt::Write>(&self, f: &mut fmt::Formatter<W>) -> fmt::Result {
        match self {
            ConfigError::MsizeTooSmall => write!(f, "frames of less than 256 bytes are too small"),
            ConfigError::BadRoot => write!(
                f,
                "the root isn't `/` or names joined by single slashes"
            ),
            ConfigError::NoMemory => write!(f, "out of memory"),
        }
    }
}

/// A host that isn't served, and why.
#[derive(Drop)]
pub struct Refused<H> {
    /// The host, as it was.
    pub host: H,
    /// Why it isn't served.
    pub cause: ConfigError,
}

impl Config {
    /// The root `/`, frames of up to 65560 bytes, owners as they are, exact names, and as many fids
    /// as there are numbers.
    pub fn standard(alloc: Global) -> Result<Config, NoMemory>
        ensures root { IfOk result (λ c. c.root.items ≡ 47 ∷ []) }
        ensures msize { IfOk result (λ c. c.msize ≡ 65560) }
        ensures maps { IfOk result (λ c. (c.uid_map.entries ≡ []) × (c.gid_map.entries ≡ [])) }
        ensures exact { IfOk result (λ c. c.ascii_casefold ≡ false) }
        ensures fids { IfOk result (λ c. c.fid_limit ≡ 4294967295) }
    {
        let root = Vec::from_slice(alloc, b"/").map_err(|_| NoMemory)?;
        Ok(Config {
            root,
            msize: STANDARD_MSIZE,
            uid_map: BTreeMap::new(alloc),
            gid_map: BTreeMap::new(alloc),
            ascii_casefold: false,
            fid_limit: u32::MAX,
        })
    }
}

/// Why a server can't be set up so: its frames are too small, or its root isn't one.
pub fn config_refused(config: &Config) -> Option<ConfigError>
    ensures { result ≡ config_refused config.now.msize config.now.root.items }
{
    if config.msize < MIN_MESSAGE_SIZE {
        return Some(ConfigError::MsizeTooSmall);
    }
    if !is_rooted_path(&config.root) {
        return Some(ConfigError::BadRoot);
    }
    None
}
