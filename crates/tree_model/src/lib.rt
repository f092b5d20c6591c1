//! The tree of files: what it is, what each call on it answers, and laws over it.
#![tactic(auto)]

pub mod attributes;
mod examples;
pub mod laws;

pub use attributes::{Attr, HostError, Kind, Limits, Stamp, Statfs, TimeSet};
