//! The leader of a partition: what it is, and the root of its map.
ghost use Rattle.std.specs.Prelude.{◌≡◌, ◌↔◌, ◌≤◌, IsTrue, IfOk, IfErr, length};
ghost use Rattle.tdb_node.specs.declared.leader.Leader.{Leader};
ghost use Rattle.tdb_node.specs.declared.error.NodeError.TheVariants.{Form};
ghost use Rattle.tdb_node.specs.Node.{IsEntry};
ghost use Rattle.tdb_node.specs.Leader.{IsInLeaderFormat, IsLeader};

use crate::entry::{ENTRY_LENGTH, push_entry, read_entry};
use crate::error::NodeError;
use std::alloc::{AllocError, Global};
use tdb_base::{Piece, Suite, push_bytes, push_u32, push_u64, split_u32, split_u64};

const MAGIC: [u8; 8] = *b"TDBLDR01";

/// The length of a leader in bytes: magic, 32 bytes of numbers, and the entry of the root.
const LEADER_LENGTH: usize = MAGIC.len() + 32 + ENTRY_LENGTH;

/// The greatest number of a partition.
const PARTITION_LAST: u32 = 4_095;

/// The number of ranks of a partition.
const RANK_LIMIT: u32 = 262_144;

/// A partition as a checkpoint has it.
#[derive(Clone, Copy, Debug, PartialEq, Eq)]
pub struct Leader {
    /// How its records are enciphered.
    pub suite: Suite,
    /// The number of the partition that was made with its key, 1 to 4,095.
    pub home: u32,
    /// The count of the commit that made that partition, at least 1.
    pub birth: u64,
    /// One more than the greatest rank that was ever written, 0 to 262,144.
    pub next: u32,
    /// The partition that it is a copy of, 0 where it was made.
    pub parent: u32,
    /// The count of the commit that made or copied it, at least 1.
    pub born: u64,
    /// The root of its map, if it has any chunk.
    pub root: Option<Piece>,
}

impl Leader {
    /// Whether the leader has a spelling: its fields are in their ranges.
    pub fn is_well_formed(&self) -> bool
        ensures { IsTrue result ↔ IsInLeaderFormat self.now }
    {
        1 <= self.home
            && self.home <= PARTITION_LAST
            && 1 <= self.birth
            && self.next <= RANK_LIMIT
            && self.parent <= PARTITION_LAST
            && 1 <= self.born
            && self.root_lies()
    }

    fn root_lies(&self) -> bool
        ensures { IsTrue result ↔ IsEntry self.now.root }
    {
        match &self.root {
            Some(root) => root.lies_in_one_segment(),
            None => true,
        }
    }
}

/// The one spelling of a leader, 88 bytes.
pub fn write_leader(alloc: Global, leader: &Leader) -> Result<Vec<u8>, AllocError>
    requires { IsInLeaderFormat leader.now }
    ensures { IfOk result (λ bytes. IsLeader leader.now bytes.items) }
{
    let mut bytes = Vec::with_capacity(alloc, LEADER_LENGTH)?;
    push_bytes(&mut bytes, &MAGIC)?;
    push_u32(&mut bytes, leader.suite.number())?;
    push_u32(&mut bytes, leader.home)?;
    push_u64(&mut bytes, leader.birth)?;
    push_u32(&mut bytes, leader.next)?;
    push_u32(&mut bytes, leader.parent)?;
    push_u64(&mut bytes, leader.born)?;
    push_entry(&mut bytes, &leader.root)?;
    Ok(bytes)
}

/// The leader that the bytes spell. It takes no memory, so `Memory` never comes.
pub fn read_leader(bytes: &[u8]) -> Result<Leader, NodeError>
    ensures found { IfOk result (λ leader. IsLeader leader bytes.now) }
    ensures form { IfErr result (λ error. (error ≡ Form) × ((leader : Leader) → IsLeader leader bytes.now → ⊥)) }
{
    if bytes.len() != LEADER_LENGTH {
        return Err(NodeError::Form);
    }
    let (magic, rest) = bytes.split_at(MAGIC.len());
    let (suite, rest) = split_u32(rest);
    let (home, rest) = split_u32(rest);
    let (birth, rest) = split_u64(rest);
    let (next, rest) = split_u32(rest);
    let (parent, rest) = split_u32(rest);
    let (born, rest) = split_u64(rest);
    let root = read_entry(rest)?;
    let Some(suite) = Suite::of_number(suite) else {
        return Err(NodeError::Form);
    };
    let leader = Leader {
        suite,
        home,
        birth,
        next,
        parent,
        born,
        root,
    };
    if magic == MAGIC.as_slice() && leader.is_well_formed() {
        Ok(leader)
    } else {
        Err(NodeError::Form)
    }
}
