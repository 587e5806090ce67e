//! Location maps: trees of sealed nodes of 64 entries, from ranks to the pieces of chunks or leaders.
//!
//! It stands on tdb_node and tdb_seal for a node's bytes and record, and on tdb_seg for the places
//! of new ones. It carries one promise: a tree is a finite map from rank to piece, which `lookup`
//! and `walk` read and `update` changes, with damage told exactly. Each layer above reads and
//! writes its maps by it, so a digit or a name taken wrongly would lose chunks.
#![tactic(auto)]

mod edits;
mod layer;
mod looking;
mod nodes;
mod pieces;
mod storing;
mod tree;
mod updating;
mod walking;

pub use layer::{Layer, UpdateError};
pub use looking::lookup;
pub use nodes::node_of;
pub use pieces::{PieceError, Pieces};
pub use tree::{MAP_HEIGHT, Tree};
pub use updating::update;
pub use walking::{walk, walk_narrow};
