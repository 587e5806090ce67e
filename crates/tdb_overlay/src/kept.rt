//! What is kept of a partition.
use crate::overlay::Leader;
use std::collections::BTreeMap;
use tdb_base::Piece;

/// What is kept of a partition: what is told of it, and the ranks that were changed.
#[derive(Drop)]
pub(crate) struct KeptPartition {
    pub(crate) leader: Leader,
    pub(crate) edits: BTreeMap<u32, Option<Piece>>,
}
