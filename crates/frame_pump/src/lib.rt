//! The loop over frames: what answers frames one at a time, run over the frames of a source.
#![tactic(auto)]

pub mod answerer;
mod examples;
pub mod laws;
pub mod outcome;
pub mod run;
#[cfg(test)]
mod tests;
