//! An index in one object.
use crate::entries::Entries;

/// The greatest number of entries of an index in one object.
pub const SORTED_LIMIT: usize = 512;

/// An index in one object.
#[derive(Debug, Drop)]
pub struct Sorted {
    pub entries: Entries<SORTED_LIMIT>,
}
