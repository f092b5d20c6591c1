//! The table of mounts as `/proc/PID/mountinfo` shows it (`proc(5)`).

mod cuts;
mod errors;
mod escapes;
mod lines;
mod numbers;
mod options;
mod parsing;
pub(crate) mod parts;
mod refusals;
mod rows;

pub use errors::{ParseError, ParseRowError, RowError, RowFault};
pub use escapes::Field;
pub use parsing::Parser;
pub use rows::{MountPoint, parse_mount_point};

#[cfg(test)]
mod tests;
