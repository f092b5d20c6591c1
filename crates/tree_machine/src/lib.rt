//! The machine that answers FUSE requests from a plain tree: the definitions that the headline
//! cites, and laws over runs.
#![tactic(auto)]

mod examples;
pub mod laws;
pub mod limits;
