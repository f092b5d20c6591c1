//! Values as 9P spells them: numbers, texts, data, qids, many values behind their count, and
//! frames.
#![tactic(auto)]

mod bytes;
pub mod data;
pub mod error;
pub mod fields;
pub mod format;
pub mod frame;
mod items;
pub mod numbers;
pub mod protocol;
pub mod qid;
#[cfg(test)]
mod tests;
pub mod text;

pub use data::{Data, MAX_DATA_LENGTH};
pub use error::WireError;
pub use format::WireFormat;
pub use qid::Qid;
pub use text::P9String;
