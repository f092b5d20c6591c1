//! The messages that a 9P2000.L client sends, and the frames that they are sent in.
#![tactic(auto)]

mod body;
pub mod count;
mod examples;
mod fields;
pub mod frame;
pub mod kind;
pub mod message;
#[cfg(test)]
mod tests;

pub use count::tframe_decode;
pub use frame::Tframe;
pub use message::{
    Tattach, Tauth, Tclunk, Tflush, Tfsync, Tgetattr, Tgetlock, Tlcreate, Tlink, Tlock, Tlopen,
    Tmessage, Tmkdir, Tmknod, Tread, Treaddir, Treadlink, Tremove, Trename, Trenameat, Tsetattr,
    Tstatfs, Tsymlink, Tunlinkat, Tversion, Twalk, Twrite, Txattrcreate, Txattrwalk,
};
