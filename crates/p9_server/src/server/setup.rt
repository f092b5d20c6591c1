//! How a server begins and ends.
ghost use Rattle.std.specs.Prelude.{◌≡◌, ◌≢◌, None, Some, IfOk, IfErr};
ghost use Rattle.std.specs.FinMap as map;
ghost use Rattle.tree_model.specs.Tree.{linked};
ghost use Rattle.p9_server.specs.Configs.{config_refused, settings_of, standard_settings};
ghost use Rattle.p9_server.specs.declared.config.TheConstants.{STANDARD_MSIZE};
ghost use Rattle.p9_server.specs.declared.config.ConfigError.TheVariants as ConfigError;
ghost use Rattle.p9_server.specs.Steps.{server_state};

use super::Server;
use crate::config::{Config, ConfigError, Refused, STANDARD_MSIZE, config_refused};
use crate::fids::release_all;
use crate::share::{ServerGidMap, ServerUidMap, Share};
use port_base::table::Table;
use std::alloc::Global;
use tree_host::Host;

impl<H: Host> Server<H> {
    /// Serves a host of which nothing is held. A refusal hands the host back: `MsizeTooSmall` for
    /// frames below 256 bytes, then `BadRoot` for a root that isn't `/` or an absolute path of
    /// names without fault.
    pub fn with_config(alloc: Global, host: H, config: Config) -> Result<Server<H>, Refused<H>>
        requires { H.holds host ≡ map.empty }
        ensures allowed { IfOk result (λ s. config_refused config.msize config.root.items ≡ None) }
        ensures state { IfOk result (λ s. server_state (H.tree s.host) s.fids s.msize s.share
            ≡ server_state (H.tree host) map.empty config.msize (settings_of config)) }
        ensures host { IfOk result (λ s. s.host ≡ host) }
        ensures asked { IfOk result (λ s. s.asked ≡ 0) }
        ensures cause { IfErr result (λ r. config_refused config.msize config.root.items
            ≡ Some r.cause) }
        ensures back { IfErr result (λ r. r.host ≡ host) }
    {
        if let Some(cause) = config_refused(&config) {
            return Err(Refused { host, cause });
        }
        Ok(Server {
            alloc,
            host,
            fids: Table::new(alloc),
            msize: config.msize,
            share: Share::new(config),
            asked: 0,
        })
    }

    /// Serves a directory of a host of which nothing is held, by its path, with the standard sizes,
    /// exact names and as many fids as there are numbers. A refusal hands the host back: `BadRoot`
    /// for a root that isn't `/` or an absolute path of names without fault.
    pub fn new(
        alloc: Global,
        host: H,
        root: &[u8],
        uid_map: ServerUidMap,
        gid_map: ServerGidMap,
    ) -> Result<Server<H>, Refused<H>>
        requires { H.holds host ≡ map.empty }
        ensures allowed { IfOk result (λ s. config_refused STANDARD_MSIZE root.now ≡ None) }
        ensures state { IfOk result (λ s. server_state (H.tree s.host) s.fids s.msize s.share
            ≡ server_state (H.tree host) map.empty STANDARD_MSIZE
            (standard_settings root.now uid_map.entries gid_map.entries)) }
        ensures host { IfOk result (λ s. s.host ≡ host) }
        ensures asked { IfOk result (λ s. s.asked ≡ 0) }
        ensures cause { IfErr result (λ r. r.cause ≢ ConfigError.NoMemory
            → config_refused STANDARD_MSIZE root.now ≡ Some r.cause) }
        ensures back { IfErr result (λ r. r.host ≡ host) }
    {
        let Ok(root) = Vec::from_slice(alloc, root) else {
            return Err(Refused {
                host,
                cause: ConfigError::NoMemory,
            });
        };
        let config = Config {
            root,
            msize: STANDARD_MSIZE,
            uid_map,
            gid_map,
            ascii_casefold: false,
            fid_limit: u32::MAX,
        };
        Server::with_config(alloc, host, config)
    }

    /// The host, with all holds released: of its tree the linked records are left, and its calls
    /// fail as they did.
    pub fn into_host(self) -> H
        ensures tree { H.tree result ≡ linked (H.tree self.host) }
        ensures holds { H.holds result ≡ map.empty }
        ensures calls { H.calls result ≡ H.calls self.host }
    {
        let Server {
            alloc: _,
            mut host,
            mut fids,
            msize: _,
            share: _,
            asked: _,
        } = self;
        release_all(&mut host, &mut fids);
        host
    }
}
