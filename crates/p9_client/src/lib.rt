//! Asking a 9P server: one typed call a message, over any `Nine`.
#![tactic(auto)]

mod directories;
mod examples;
mod exchange;
mod fids;
mod inodes;
mod listing;
mod specials;
mod texts;

pub use directories::{link, mkdir, rename_at, unlink_at};
pub use fids::{attach, clunk, copy_fid, create, open, open_truncated, walk_one};
pub use inodes::{fsync, get_attr, read, read_link, set_attr, stat_fs, write};
pub use listing::read_entries;
pub use specials::{Device, mknod, symlink};
