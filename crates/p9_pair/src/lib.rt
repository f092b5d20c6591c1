//! Tests alone: the client's calls over a server of a tree in memory, and the examples of
//! README.md.
#![tactic(auto)]

#[cfg(test)]
mod changes;
#[cfg(test)]
mod listing;
#[cfg(test)]
mod readme;
#[cfg(test)]
mod tests;
