//! A host of a tree of files, and one that keeps its tree in memory.
#![tactic(auto)]

mod change;
mod entry;
mod examples;
mod holds;
pub mod host;
mod listing;
pub mod memory;
mod node;
mod nodes;

pub use entry::Entry;
pub use host::Host;
pub use memory::{NewItem, TreeHost};
pub use tree_model::{Attr, HostError, Kind, Limits, Stamp, Statfs, TimeSet};
