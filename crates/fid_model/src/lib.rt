//! The 9P server as a machine on fids, and the trait of what serves a tree by it.
#![tactic(auto)]

mod directory_examples;
mod examples;
mod file_examples;
pub mod laws;
mod nine;
mod session_examples;
pub mod setattr;
pub mod unlinkat;

pub use nine::Nine;
