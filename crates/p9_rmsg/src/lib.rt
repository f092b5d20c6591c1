//! The messages that a 9P2000.L server answers, the frames that they are sent in, and entries of
//! directories.
#![tactic(auto)]

mod body;
pub mod dirent;
mod examples;
mod fields;
pub mod frame;
pub mod kind;
pub mod message;
#[cfg(test)]
mod tests;

pub use dirent::Dirent;
pub use frame::Rframe;
pub use message::{
    Rattach, Rauth, Rgetattr, Rgetlock, Rlcreate, Rlerror, Rlock, Rlopen, Rmessage, Rmkdir, Rmknod,
    Rread, Rreaddir, Rreadlink, Rstatfs, Rsymlink, Rversion, Rwalk, Rwrite, Rxattrwalk,
};
