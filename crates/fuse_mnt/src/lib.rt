//! A mounter in memory: a table of mounts that mounts as a system does.
#![tactic(auto)]

mod lookups;
mod moving;
mod paths;
#[cfg(test)]
mod readme;
mod rows;
mod table;
pub mod table_mounter;
#[cfg(test)]
mod tests;
