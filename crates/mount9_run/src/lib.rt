//! The program: the words of its command line, the header of its input, and its report.
#![tactic(auto)]

pub mod command;
mod examples;
pub mod header;
pub mod laws;
mod mount;
pub mod path;
pub mod report;
pub mod run;
#[cfg(test)]
mod tests;
pub mod text;
