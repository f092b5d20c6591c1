//! The gate: FUSE requests, answered by asking a 9P server.
#![tactic(auto)]

mod examples;
pub mod gate;
pub mod laws;
pub mod pump;
