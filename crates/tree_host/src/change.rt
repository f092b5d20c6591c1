//! Changes of one record.
use tree_model::TimeSet;

/// What changes: the ctime alone, a mode, the owners that are given, the times, or the length of a
/// file.
#[derive(Clone, Copy)]
pub enum Change {
    Ctime,
    Mode(u32),
    Owner(Option<u32>, Option<u32>),
    Times(TimeSet, TimeSet),
    Len(u64),
}
