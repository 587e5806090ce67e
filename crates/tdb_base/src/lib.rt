//! The words that every layer shares: numbers of partitions, ranks and places, pieces and their
//! digests, suites, and the reading and writing of fields in bytes.
//!
//! It stands on the standard library, and on `itoa` for decimal digits. It carries one promise:
//! a reader answers a value exactly where the bytes have it, and a writer gives exactly its bytes.
//! Each format above is built from these fields, so a change of one changes them all.
#![tactic(auto)]

mod bytes;
mod decimal;
mod failed;
mod fields;
mod front;
mod names;
mod piece;
mod piece_fields;
mod suite;

pub use bytes::Bytes;
pub use decimal::{push_decimal, read_decimal};
pub use failed::Failed;
pub use fields::{
    bytes32_at, push_bytes, push_u32, push_u64, put_bytes, put_bytes32, put_u32, put_u64,
    take_bytes, take_u32, take_u64, u32_at, u64_at,
};
pub use front::{split_bytes32, split_u32, split_u64};
pub use names::{Id, PartId, Rank, TxId};
pub use piece::{
    DEVICE_LIMIT, Damage, Digest, Key, NoRoom, Piece, Place, SEGMENT_LENGTH, SEGMENT_LIMIT,
};
pub use piece_fields::{entry_at, piece_at, put_entry, put_piece};
pub use suite::Suite;
