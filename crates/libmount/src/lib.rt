//! Mounts: builders of mounts, a parser of mountinfo tables that copies nothing it needn't, and
//! the flags of a mount in such a table.
#![tactic(auto)]

pub mod bind;
mod binding;
mod builder_examples;
pub mod builder_laws;
#[cfg(test)]
mod builder_tests;
pub mod errors;
mod examples;
pub mod explanation;
#[cfg(test)]
mod explanation_tests;
mod failure;
pub mod flag_change;
pub mod laws;
pub mod mounter;
pub mod mountinfo;
mod mounting;
pub mod move_mount;
pub mod operation;
pub mod overlay;
pub mod path_list;
pub mod probe;
#[cfg(test)]
mod readme;
pub mod remount;
mod remounting;
pub mod script_probe;
mod table_examples;
pub mod table_laws;
mod texts;
pub mod tmpfs;
