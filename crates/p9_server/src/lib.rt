//! A 9P2000.L server of a host's tree.
#![tactic(auto)]

mod config;
mod config_json;
mod config_text;
mod directory_reader;
mod examples;
mod fid_state;
mod fids;
mod lookup;
mod pages;
mod paths;
mod qids;
mod replies;
mod server;
mod share;

pub use config::{Config, ConfigError, Refused};
pub use config_json::ConfigJsonError;
pub use config_text::{ConfigTextError, boolean_of};
pub use directory_reader::{DirEntry, FileType, ReadDir, read_dir};
pub use fid_model::Nine;
pub use qids::qid_of;
pub use server::Server;
pub use share::{ServerGidMap, ServerIdMap, ServerUidMap};

#[cfg(test)]
mod tests;
