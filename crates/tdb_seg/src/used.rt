//! The words of a segment table, as the set of the segments that it has as used.
ghost use Rattle.std.specs.Prelude.{◌≡◌, ℕ, ◌<◌, ◌^◌, length, slice_get, slice_index};
ghost use Rattle.std.specs.FinSet as set;
ghost use Rattle.tdb_node.specs.SegmentTable.{IsTable, IsTableValue};
ghost use Rattle.tdb_seg.specs.SegmentSpace.{missing_below};
ghost use Rattle.tdb_seg.specs.TableSpace.{used_in};

use tdb_node::Table;

const WORD_BITS: u32 = 64;

/// Does nothing. Its contract says what each table's words meet.
pub fn known_words(words: &[u64; 64])
    ensures number { length words.now ≡ 64 }
    ensures fit { (k : ℕ) → slice_index words.now k < 2 ^ 64 }
{
    let _first = words[0];
}

/// Whether the table has the segment as used.
pub fn has_segment(table: &Table, segment: u32) -> bool
    requires value { IsTableValue table.now }
    requires table { IsTable table.now }
    ensures { result ≡ set.contains (used_in table.now) segment }
{
    if segment >= table.segments {
        return false;
    }
    let word = table.used[(segment / WORD_BITS) as usize];
    word >> (segment % WORD_BITS) & 1 == 1
}

/// How many segments the table has as free.
pub fn count_unused(table: &Table) -> u32
    requires value { IsTableValue table.now }
    requires table { IsTable table.now }
    ensures { result ≡ length (missing_below (used_in table.now) table.now.segments) }
{
    let mut used = 0;
    for word in table.used.iter() {
        used += word.count_ones();
    }
    table.segments - used
}

/// The least segment that the table has as free.
pub fn least_unused(table: &Table) -> Option<u32>
    requires value { IsTableValue table.now }
    requires table { IsTable table.now }
    ensures { result ≡ slice_get (missing_below (used_in table.now) table.now.segments) 0 }
{
    for (index, word) in table.used.iter().enumerate() {
        if *word != u64::MAX {
            let segment = WORD_BITS * index as u32 + word.trailing_ones();
            return (segment < table.segments).then_some(segment);
        }
    }
    None
}

/// The table with one more segment as used.
pub fn use_segment(table: &mut Table, segment: u32)
    requires value { IsTableValue table.old }
    requires table { IsTable table.old }
    requires segment { segment < table.old.segments }
    ensures value { IsTableValue table.new }
    ensures table { IsTable table.new }
    ensures segments { table.new.segments ≡ table.old.segments }
    ensures used { used_in table.new ≡ set.insert (used_in table.old) segment }
{
    table.used[(segment / WORD_BITS) as usize] |= 1 << (segment % WORD_BITS);
}
