//! One change of a commit, in the 72 bytes that every kind of change has.
ghost use Rattle.std.specs.Prelude.{◌≡◌, ◌+◌, ◌≤◌, ◌++◌, ◌↔◌, IsTrue, OnOk, length};
ghost use Rattle.tdb_list.specs.Entry.{IsPartition, IsNoPiece, IsWrite, IsFree, IsMake, IsCopy, IsDrop, IsEntry, IsEntryValue, entry_bytes};

use std::alloc::AllocError;
use tdb_base::{
    Digest, Piece, Place, push_bytes, push_u32, push_u64, split_bytes32, split_u32, split_u64,
};

/// The length of an entry in bytes.
pub const ENTRY_LENGTH: usize = 72;

const WRITE: u32 = 1;

const FREE: u32 = 2;

const MAKE: u32 = 3;

const COPY: u32 = 4;

const DROP: u32 = 5;

/// The number of ranks of a partition.
const RANK_LIMIT: u32 = 262_144;

/// The greatest number of a suite.
const SUITE_LAST: u32 = 2;

/// One change. Fields that its kind doesn't use are zero.
#[derive(Clone, Copy, Debug, PartialEq, Eq)]
pub struct Entry {
    /// 1 write, 2 free, 3 make, 4 copy, 5 drop.
    pub kind: u32,
    /// The partition, 1 to 4,095; the source of a copy.
    pub part: u32,
    /// The rank of a write or a free, below 262,144; the partition that a copy makes.
    pub rank: u32,
    /// The number of the suite of a write or a make.
    pub suite: u32,
    /// The home of a write, 1 to 4,095.
    pub home: u32,
    /// The birth of a write, at least 1.
    pub birth: u64,
    /// The piece of a write, which lies in one segment.
    pub piece: Piece,
}

fn is_partition(number: u32) -> bool
    ensures { IsTrue result ↔ IsPartition number }
{
    number >= 1 && number <= 4_095
}

fn is_no_piece(piece: &Piece) -> bool
    ensures { IsTrue result ↔ IsNoPiece piece.now }
{
    piece.length == 0 && piece.place.0 == 0 && piece.digest.0 == [0; 32]
}

impl Entry {
    /// Whether the entry is in the grammar of its kind.
    pub fn is_well_formed(&self) -> bool
        ensures { IsTrue result ↔ IsEntry self.now }
    {
        self.is_write() || self.is_free() || self.is_make() || self.is_copy() || self.is_drop()
    }

    fn is_write(&self) -> bool
        ensures { IsTrue result ↔ IsWrite self.now }
    {
        self.kind == WRITE
            && is_partition(self.part)
            && self.rank < RANK_LIMIT
            && self.suite <= SUITE_LAST
            && is_partition(self.home)
            && self.birth >= 1
            && self.piece.lies_in_one_segment()
    }

    fn is_free(&self) -> bool
        ensures { IsTrue result ↔ IsFree self.now }
    {
        self.kind == FREE
            && is_partition(self.part)
            && self.rank < RANK_LIMIT
            && self.suite == 0
            && self.home == 0
            && self.birth == 0
            && is_no_piece(&self.piece)
    }

    fn is_make(&self) -> bool
        ensures { IsTrue result ↔ IsMake self.now }
    {
        self.kind == MAKE
            && is_partition(self.part)
            && self.rank == 0
            && self.suite <= SUITE_LAST
            && self.home == 0
            && self.birth == 0
            && is_no_piece(&self.piece)
    }

    fn is_copy(&self) -> bool
        ensures { IsTrue result ↔ IsCopy self.now }
    {
        self.kind == COPY
            && is_partition(self.part)
            && is_partition(self.rank)
            && self.suite == 0
            && self.home == 0
            && self.birth == 0
            && is_no_piece(&self.piece)
    }

    fn is_drop(&self) -> bool
        ensures { IsTrue result ↔ IsDrop self.now }
    {
        self.kind == DROP
            && is_partition(self.part)
            && self.rank == 0
            && self.suite == 0
            && self.home == 0
            && self.birth == 0
            && is_no_piece(&self.piece)
    }
}

/// Appends the spelling of an entry.
pub fn push_entry(bytes: &mut Vec<u8>, entry: &Entry) -> Result<(), AllocError>
    ensures { OnOk result (bytes.new.items ≡ bytes.old.items ++ entry_bytes entry.now) }
{
    push_u32(bytes, entry.kind)?;
    push_u32(bytes, entry.part)?;
    push_u32(bytes, entry.rank)?;
    push_u32(bytes, entry.suite)?;
    push_u32(bytes, entry.home)?;
    push_u32(bytes, entry.piece.length)?;
    push_u64(bytes, entry.birth)?;
    push_u64(bytes, entry.piece.place.0)?;
    push_bytes(bytes, &entry.piece.digest.0)?;
    Ok(())
}

/// Splits the fields of an entry off the front, whether or not they are in the grammar.
pub fn split_entry(bytes: &[u8]) -> (Entry, &[u8])
    requires { 72 ≤ length bytes.now }
    ensures value { IsEntryValue result.0 }
    ensures spelled { bytes.now ≡ entry_bytes result.0 ++ result.1.now }
{
    let (kind, rest) = split_u32(bytes);
    let (part, rest) = split_u32(rest);
    let (rank, rest) = split_u32(rest);
    let (suite, rest) = split_u32(rest);
    let (home, rest) = split_u32(rest);
    let (length, rest) = split_u32(rest);
    let (birth, rest) = split_u64(rest);
    let (place, rest) = split_u64(rest);
    let (digest, rest) = split_bytes32(rest);
    let piece = Piece {
        place: Place(place),
        length,
        digest: Digest(digest),
    };
    let entry = Entry {
        kind,
        part,
        rank,
        suite,
        home,
        birth,
        piece,
    };
    (entry, rest)
}
