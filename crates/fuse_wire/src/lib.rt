//! FUSE frames on the wire: requests by their grammar, replies by their layouts (Linux `fuse.h`,
//! protocol 7).
#![tactic(auto)]

pub mod answers;
pub mod attr;
mod bodies;
pub mod call_flags;
pub mod context;
mod examples;
mod fields;
#[cfg(test)]
mod file_tests;
pub mod filesystem;
pub mod frames;
pub mod head;
pub mod ids;
mod laws;
pub mod layouts;
pub mod listing;
pub mod opcode;
pub mod protocol;
pub mod reply;
pub mod request;
pub mod setattr;
#[cfg(test)]
mod tests;
