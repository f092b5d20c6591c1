//! What every crate stands on: sources and sinks of bytes, numbers of the system, names, tables
//! and words.
#![tactic(auto)]

pub mod blocks;
pub mod buffer;
pub mod decimals;
pub mod errno;
pub mod escapes;
mod examples;
pub mod failing;
pub mod flags;
pub mod memory;
pub mod names;
pub mod oflag;
pub mod paths;
pub mod quoting;
pub mod sink;
pub mod source;
pub mod std_io;
pub mod table;
pub mod take;
pub mod words;
