//! The segment table: which segments of the device are used.
ghost use Rattle.std.specs.Prelude.{◌≡◌, ◌↔◌, ℕ, ◌<◌, ◌≤◌, ◌-◌, ◌*◌, ◌^◌, IsTrue, IfOk, IfErr, length, slice_index};
ghost use Rattle.std.specs.List.{flat_map};
ghost use Rattle.std.specs.Int.{w64, to_be_bytes};
ghost use Rattle.tdb_node.specs.declared.table.Table.{Table};
ghost use Rattle.tdb_node.specs.declared.error.NodeError.TheVariants.{Form};
ghost use Rattle.tdb_node.specs.SegmentTable.{table_bytes, IsTable, IsSegmentTable};

use crate::error::NodeError;
use std::alloc::{AllocError, Global};
use tdb_base::{push_bytes, push_u32, push_u64, split_u32, split_u64};

const MAGIC: [u8; 8] = *b"TDBSEG01";

/// The length of a table in bytes: magic, segments, four zero bytes and 64 words.
const TABLE_LENGTH: usize = 528;

/// Which segments are used. Bit `i` of word `w`, bit 0 being the least, stands for segment
/// `64 * w + i`.
#[derive(Clone, Copy, Debug, PartialEq, Eq)]
pub struct Table {
    /// The number of segments of the device, 16 to 4,096.
    pub segments: u32,
    /// The bits of the used segments. Those from `segments` on are zero.
    pub used: [u64; 64],
}

/// Whether at most the lowest `bits` bits of a word are set.
fn fits_bits(word: u64, bits: u32) -> bool
    ensures { IsTrue result ↔ (bits < 64 → word < 2 ^ bits) }
{
    bits >= 64 || word >> bits == 0
}

/// Whether no bit of the words stands for a segment from `segments` on.
fn names_only_segments(segments: u32, used: &[u64; 64]) -> bool
    ensures words { (k : ℕ) → slice_index used.now k < 2 ^ 64 }
    ensures named { IsTrue result ↔ ((k : ℕ) → k < 64 → segments - 64 * k < 64 →
        slice_index used.now k < 2 ^ (segments - 64 * k)) }
{
    for (index, word) in used.iter().enumerate() {
        if !fits_bits(*word, segments.saturating_sub(64 * index as u32)) {
            return false;
        }
    }
    true
}

impl Table {
    /// Whether the table has a spelling: its number of segments is in range, and each used
    /// segment is one of them.
    pub fn is_well_formed(&self) -> bool
        ensures { IsTrue result ↔ IsTable self.now }
    {
        if self.segments < 16 || self.segments > 4_096 {
            return false;
        }
        names_only_segments(self.segments, &self.used)
    }
}

/// The one spelling of a table, 528 bytes.
pub fn write_table(alloc: Global, table: &Table) -> Result<Vec<u8>, AllocError>
    requires { IsTable table.now }
    ensures { IfOk result (λ bytes. bytes.items ≡ table_bytes table.now) }
{
    let mut bytes = Vec::with_capacity(alloc, TABLE_LENGTH)?;
    push_bytes(&mut bytes, &MAGIC)?;
    push_u32(&mut bytes, table.segments)?;
    push_u32(&mut bytes, 0)?;
    for word in table.used.iter() {
        push_u64(&mut bytes, *word)?;
    }
    Ok(bytes)
}

/// The words of the bitmap.
fn words_of(bytes: &[u8]) -> [u64; 64]
    requires { length bytes.now ≡ 512 }
    ensures words { (k : ℕ) → slice_index result k < 2 ^ 64 }
    ensures spelled { bytes.now ≡ flat_map (to_be_bytes w64) result }
{
    let mut words = [0; 64];
    let mut rest = bytes;
    for word in words.iter_mut() {
        let (number, behind) = split_u64(rest);
        *word = number;
        rest = behind;
    }
    words
}

/// The table that the bytes spell. It takes no memory, so `Memory` never comes.
pub fn read_table(bytes: &[u8]) -> Result<Table, NodeError>
    ensures found { IfOk result (λ table. IsSegmentTable table bytes.now) }
    ensures form { IfErr result (λ error. (error ≡ Form) × ((table : Table) → IsSegmentTable table bytes.now → ⊥)) }
{
    if bytes.len() != TABLE_LENGTH {
        return Err(NodeError::Form);
    }
    let (magic, rest) = bytes.split_at(MAGIC.len());
    let (segments, rest) = split_u32(rest);
    let (zero, rest) = split_u32(rest);
    let table = Table {
        segments,
        used: words_of(rest),
    };
    if magic == MAGIC.as_slice() && zero == 0 && table.is_well_formed() {
        Ok(table)
    } else {
        Err(NodeError::Form)
    }
}
