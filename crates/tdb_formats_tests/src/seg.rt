//! Places that were worked out by hand from the rule and the sizes of records.
ghost use Rattle.std.specs.Prelude.{◌≡◌, slice_index};

use std::test::Fail;
use tdb_base::{Digest, NoRoom, Piece, Place};
use tdb_node::Table;
use tdb_seg::Segments;

/// What placing answers, for a length of 1 to 262,144 bytes.
fn outcome(segments: &mut Segments, length: u32, keep: u32) -> Result<Place, NoRoom> {
    if length == 0 || length > 262_144 {
        return Err(NoRoom {
            need: length,
            free: 0,
        });
    }
    segments.place(length, keep)
}

/// The device of 16 segments after so many pieces, each of which fills a segment.
fn filled(pieces: u32) -> Segments {
    let mut segments = Segments::new(16);
    for _ in 0..pieces {
        let _ = segments.place(262_144, 0);
    }
    segments
}

/// A table of 16 segments, of which the bits of a word are in use.
fn sixteen(word: u64) -> Table
    ensures { slice_index result.used 0 ≡ word }
{
    let mut used = [0; 64];
    used[0] = word;
    Table { segments: 16, used }
}

fn refusal(need: u32, free: u32) -> Result<Place, NoRoom> {
    Err(NoRoom { need, free })
}

#[test]
fn the_first_pieces_of_a_store_follow_one_another(rt: HostRuntime) {
    let mut segments = Segments::new(16);
    assert_eq!(rt; segments.tail(), None);
    assert_eq!(rt; segments.tail_left(), 0);
    assert_eq!(rt; segments.free(), 16);
    // the table, the opening list, and a note's record and list
    for (length, keep, place) in [
        (576, 0, 262_144),
        (208, 4, 262_720),
        (69, 4, 262_928),
        (136, 4, 262_997),
    ] {
        assert_eq!(rt; outcome(&mut segments, length, keep), Ok(Place(place)));
    }
    assert_eq!(rt; segments.tail(), Some(Place(263_133)));
    assert_eq!(rt; segments.tail_left(), 261_155);
    assert_eq!(rt; segments.free(), 15);
    assert_eq!(rt; segments.segments(), 16);
    assert_eq!(rt; segments.table(), sixteen(1));
}

#[test]
fn commits_of_one_chunk_leave_four_segments_free(rt: HostRuntime) -> Result<(), Fail> {
    let mut segments = Segments::new(16);
    segments.place(576, 0)?;
    segments.place(136, 4)?;
    for rank in 0..36 {
        let segment = rank / 3;
        let before = if segment == 0 { 712 } else { 0 };
        let place = 262_144 * (segment + 1) + before + 65_720 * (rank % 3);
        assert_eq!(rt;
            segments.place(65_584, 4),
            Ok(Place(place)),
            "record of {rank}"
        );
        assert_eq!(rt;
            segments.place(136, 4),
            Ok(Place(place + 65_584)),
            "list of {rank}"
        );
    }
    assert_eq!(rt; segments.free(), 4);
    // a refusal changes nothing, so what fits is placed behind the tail, up to the segment's end
    for (length, keep, answer) in [
        (65_584, 4, refusal(65_584, 64_984)),
        (65_584, 5, refusal(65_584, 64_984)),
        (64_985, 4, refusal(64_985, 64_984)),
        (64_984, 4, Ok(Place(3_342_888))),
        (1, 4, refusal(1, 0)),
        (1, 3, Ok(Place(3_407_872))),
    ] {
        assert_eq!(rt;
            outcome(&mut segments, length, keep),
            answer,
            "{length} bytes"
        );
    }
    Ok(())
}

#[test]
fn a_segment_is_taken_only_where_more_are_free_than_are_kept(rt: HostRuntime) {
    // segments in use, how many have to stay free, and where a byte goes
    for (pieces, keep, answer) in [
        (0, 0, Ok(Place(262_144))),
        (0, 15, Ok(Place(262_144))),
        (0, 16, refusal(1, 0)),
        (11, 4, Ok(Place(3_145_728))),
        (12, 4, refusal(1, 0)),
        (13, 2, Ok(Place(3_670_016))),
        (14, 2, refusal(1, 0)),
        (15, 0, Ok(Place(4_194_304))),
        (16, 0, refusal(1, 0)),
    ] {
        let mut segments = filled(pieces);
        assert_eq!(rt; segments.free(), 16 - pieces.min(16));
        assert_eq!(rt;
            outcome(&mut segments, 1, keep),
            answer,
            "after {pieces}, {keep} kept"
        );
    }
}

#[test]
fn a_tail_at_its_segments_end_has_no_bytes_left(rt: HostRuntime) {
    let table = sixteen(0b1011);
    assert!(rt; table.is_well_formed());
    for (tail, is_tail) in [
        (262_144, false),
        (262_145, true),
        (524_288, true),
        (786_432, true),
        (786_433, false),
        (1_048_576, false),
        (1_048_577, true),
        (1_310_720, true),
        (1_310_721, false),
        (1_074_003_968, false),
        (18_446_744_073_709_551_615, false),
    ] {
        assert_eq!(rt;
            Segments::is_tail(&table, Place(tail)),
            is_tail,
            "at {tail}"
        );
    }
    // the end of segment 1, which is the start of segment 2
    let mut segments = Segments::at(&table, Place(786_432));
    segments.known();
    assert_eq!(rt; segments.tail_left(), 0);
    assert_eq!(rt; segments.free(), 13);
    for (segment, is_used) in [
        (0, true),
        (1, true),
        (2, false),
        (3, true),
        (4, false),
        (16, false),
    ] {
        assert_eq!(rt; segments.is_used(segment), is_used, "segment {segment}");
    }
    // the least free segment is taken, and then the next
    assert_eq!(rt; segments.place(262_144, 0), Ok(Place(786_432)));
    assert_eq!(rt; segments.place(1, 0), Ok(Place(1_310_720)));
    assert_eq!(rt; segments.table(), sixteen(0b1_1111));
}

#[test]
fn a_piece_lies_in_one_of_the_segments(rt: HostRuntime) {
    let segments = Segments::new(16);
    for (place, length, holds) in [
        (262_144, 262_144, true),
        (262_144, 262_145, false),
        (262_144, 0, false),
        (262_143, 1, false),
        (524_287, 2, false),
        (4_456_447, 1, true),
        (4_456_448, 1, false),
    ] {
        let piece = Piece {
            place: Place(place),
            length,
            digest: Digest([0; 32]),
        };
        assert_eq!(rt; segments.holds(&piece), holds, "{length} at {place}");
    }
}

#[test]
fn a_piece_that_is_noted_takes_its_segment_and_the_tail(rt: HostRuntime) {
    let mut segments = Segments::new(4_096);
    segments.note(&Piece {
        place: Place(17_039_460),
        length: 300,
        digest: Digest([7; 32]),
    });
    assert_eq!(rt; segments.tail(), Some(Place(17_039_760)));
    assert!(rt; segments.is_used(64));
    assert!(rt; !segments.is_used(63));
    assert_eq!(rt; segments.free(), 4_095);
    assert_eq!(rt; segments.place(261_000, 4_094), Ok(Place(17_039_760)));
    assert_eq!(rt; segments.place(1_000, 4_094), Ok(Place(262_144)));
}

#[test]
fn the_least_free_segment_may_be_in_a_later_word(rt: HostRuntime) {
    let mut segments = Segments::new(4_096);
    for _ in 0..130 {
        let _ = segments.place(262_144, 0);
    }
    assert_eq!(rt; segments.place(1, 3_965), Ok(Place(34_340_864)));
    assert_eq!(rt; segments.free(), 3_965);
}
