//! The segments of a device in memory.
ghost use Rattle.std.specs.Prelude.{◌≡◌, ◌↔◌, ℕ, ◌+◌, ◌*◌, ◌/◌, ◌-◌, ◌<◌, ◌≤◌, IfOk, IfErr, IsErr, IfSome, IsTrue, OnErr, Ok, Err, Some};
ghost use Rattle.std.specs.FinSet as set;
ghost use Rattle.tdb_base.specs.Segment.{LiesInSegment};
ghost use Rattle.tdb_node.specs.SegmentTable.{IsTable, IsUsed};
ghost use Rattle.tdb_seg.specs.SegmentSpace.{IsSegmentSpace, EndsInSegment, fresh_space, free_segments, free_count};
ghost use Rattle.tdb_seg.specs.SegmentSpace.{bytes_left, at_free_segment, next_place as next_place_in, place_in};
ghost use Rattle.tdb_seg.specs.SegmentSpace.{with_bytes, note_in};
ghost use Rattle.tdb_seg.specs.TableSpace.{used_in, table_space};

use crate::used::{count_unused, has_segment, known_words, least_unused, use_segment};
use std::marker::Model;
use tdb_base::{DEVICE_LIMIT, NoRoom, Piece, Place, SEGMENT_LENGTH};
use tdb_node::Table;

/// Which segments of a device are used, and the end of the last piece that was placed.
///
/// Contracts see the number of segments, the set of the used ones, and the tail.
#[derive(Clone, Copy, Debug)]
pub struct Segments {
    table: Table,
    tail: Option<Place>,
}

impl Model for Segments {
    ghost use Rattle.tdb_seg.specs.SegmentSpace.{SegmentSpace};
    ghost use Rattle.tdb_seg.specs.SpaceCode.{space_code};

    ghost Value = { SegmentSpace };

    ghost coded = { space_code };

    ghost use Rattle.tdb_seg.specs.Inside.{space_of, IsKept, fields_of};

    ghost view = { space_of };

    ghost invariant = { IsKept };

    ghost inverse = { fields_of };

    ghost use Rattle.tdb_seg.specs.InsideLaws.{fields_of-space_of};

    ghost inverse_ok = { fields_of-space_of };
}

impl Segments {
    /// The segments of a fresh device, 16 to 4,096. None is used, and there is no tail.
    pub fn new(segments: u32) -> Segments
        requires least { 16 ≤ segments }
        requires most { segments ≤ 4096 }
        ensures { result ≡ fresh_space segments }
    {
        Segments {
            table: Table {
                segments,
                used: [0; 64],
            },
            tail: None,
        }
    }

    /// The segments that a table has as used, and the end of the last piece. A tail at a
    /// segment's end belongs to that segment.
    pub fn at(table: &Table, tail: Place) -> Segments
        requires table { IsTable table.now }
        requires tail { (k : ℕ) × IsUsed table.now k × EndsInSegment tail.0 k }
        ensures { result ≡ table_space table.now tail }
    {
        known_words(&table.used);
        Segments {
            table: *table,
            tail: Some(tail),
        }
    }

    /// Whether the place can be the tail of a table: it stands behind the start, and not behind
    /// the end, of a segment that the table has as used.
    pub fn is_tail(table: &Table, tail: Place) -> bool
        requires { IsTable table.now }
        ensures { IsTrue result ↔ ((k : ℕ) × IsUsed table.now k × EndsInSegment tail.0 k) }
    {
        known_words(&table.used);
        if tail.0 <= SEGMENT_LENGTH || tail.0 > DEVICE_LIMIT {
            return false;
        }
        let segment = (tail.0 - 1) / SEGMENT_LENGTH - 1;
        has_segment(table, segment as u32)
    }

    /// Places a piece of `length` bytes, and gives its place; its end is the new tail. A segment is
    /// taken for it only where more than `keep` are free. A refusal has `length` and the bytes
    /// that are left at the tail, and changes nothing.
    pub fn place(&mut self, length: u32, keep: u32) -> Result<Place, NoRoom>
        requires some { 1 ≤ length }
        requires most { length ≤ 262144 }
        ensures placed { IfOk result (λ place. place_in self.old length keep ≡ Ok (place, self.new)) }
        ensures refused { IfErr result (λ refusal. place_in self.old length keep ≡ Err refusal) }
        ensures cause { IsErr result ↔ ((bytes_left self.old.tail < length) × (free_count self.old ≤ keep)) }
        ensures unchanged { OnErr result (self.new ≡ self.old) }
    {
        let Some(place) = self.next_place(length, keep) else {
            return Err(NoRoom {
                need: length,
                free: self.tail_left(),
            });
        };
        self.add(place, length);
        Ok(place)
    }

    /// Whether the piece has bytes and lies in one of the segments.
    pub fn holds(&self, piece: &Piece) -> bool
        ensures { IsTrue result ↔ ((k : ℕ) × (k < self.now.segments) × LiesInSegment piece.now.place.0 piece.now.length k) }
    {
        piece.lies_in_one_segment()
            && piece.place.0 / SEGMENT_LENGTH <= u64::from(self.table.segments)
    }

    /// A piece that stands on the device already: its segment is used, and the tail is its end.
    pub fn note(&mut self, piece: &Piece)
        requires { (k : ℕ) × (k < self.old.segments) × LiesInSegment piece.now.place.0 piece.now.length k }
        ensures { self.new ≡ note_in self.old piece.now }
    {
        self.add(piece.place, piece.length);
    }

    /// The number of segments of the device, 16 to 4,096.
    pub fn segments(&self) -> u32
        ensures { result ≡ self.now.segments }
    {
        self.table.segments
    }

    /// Whether a segment is used. One that the device doesn't have isn't.
    pub fn is_used(&self, segment: u32) -> bool
        ensures { result ≡ set.contains self.now.used segment }
    {
        has_segment(&self.table, segment)
    }

    /// How many segments are free.
    pub fn free(&self) -> u32
        ensures { result ≡ free_count self.now }
    {
        count_unused(&self.table)
    }

    /// The end of the last piece, or none before the first.
    pub fn tail(&self) -> Option<Place>
        ensures { result ≡ self.now.tail }
    {
        self.tail
    }

    /// The bytes from the tail to its segment's end.
    pub fn tail_left(&self) -> u32
        ensures { result ≡ bytes_left self.now.tail }
    {
        match self.tail {
            None => 0,
            Some(tail) => ((SEGMENT_LENGTH - tail.0 % SEGMENT_LENGTH) % SEGMENT_LENGTH) as u32,
        }
    }

    /// The used segments as a segment table, for a checkpoint.
    pub fn table(&self) -> Table
        ensures table { IsTable result }
        ensures segments { result.segments ≡ self.now.segments }
        ensures used { used_in result ≡ self.now.used }
    {
        self.table
    }

    /// Does nothing. Its contract says what every value meets.
    pub fn known(&self)
        ensures { IsSegmentSpace self.now }
    {
        let _ = &self.tail;
    }

    /// Where the next `length` bytes go, if they can be placed.
    fn next_place(&self, length: u32, keep: u32) -> Option<Place>
        requires some { 1 ≤ length }
        requires most { length ≤ 262144 }
        ensures next { result ≡ next_place_in self.now length keep }
        ensures lies { IfSome result (λ place. (k : ℕ) × (k < self.now.segments) × LiesInSegment place.0 length k) }
    {
        match self.tail {
            Some(tail) if length <= self.tail_left() => Some(tail),
            _ => self.next_segment(keep),
        }
    }

    /// The start of the least free segment, where more than `keep` are free.
    fn next_segment(&self, keep: u32) -> Option<Place>
        ensures { result ≡ at_free_segment (free_segments self.now) keep }
    {
        if count_unused(&self.table) <= keep {
            return None;
        }
        let segment = least_unused(&self.table)?;
        Some(Place(SEGMENT_LENGTH * (u64::from(segment) + 1)))
    }

    /// `length` bytes stand at the place.
    fn add(&mut self, place: Place, length: u32)
        requires { (k : ℕ) × (k < self.old.segments) × LiesInSegment place.0 length k }
        ensures { self.new ≡ with_bytes self.old place length }
    {
        let table = &mut self.table;
        let segment = (place.0 / SEGMENT_LENGTH - 1) as u32;
        use_segment(table, segment);
        self.tail = Some(Place(place.0 + u64::from(length)));
    }
}
