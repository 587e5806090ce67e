//! An open log.

use crate::overlay::Overlay;
use tdb_append::Head;
use tdb_base::{Piece, Suite};
use tdb_seg::Segments;

/// The tree of the last checkpoint, as it is kept in memory.
#[derive(Drop)]
pub struct BaseTree {
    /// The root of its roster, if it had a partition.
    pub root: Option<Piece>,
    /// The partitions as its leaders tell them.
    pub leaders: Overlay,
}

/// What is kept in memory of a log that was read from a device: its suite, its last text, its segments,
/// its last checkpoint and its partitions.
#[derive(Drop)]
pub struct Recovered {
    /// The suite of the log's texts. A store's log has one.
    pub suite: Suite,
    /// The last text of the chain, which the anchor names.
    pub head: Head,
    /// The segments in use, and where the next piece goes.
    pub segments: Segments,
    /// The partitions, and where the records of their chunks stand.
    pub overlay: Overlay,
    /// The tree of the last checkpoint.
    pub tree: BaseTree,
}
