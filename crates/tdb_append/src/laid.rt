//! A piece that has its place.
use tdb_base::{Bytes, Place};

/// The bytes of a piece, and where on the device they go.
#[derive(Debug, Drop)]
pub struct Laid {
    pub place: Place,
    pub bytes: Bytes,
}
