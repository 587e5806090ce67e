use std::test::Fail;
use tdb_base::{PartId, Rank, TxId};
use tdb_script::{Line, read_line};

#[test]
fn a_line_is_read_exactly_in_the_grammar(rt: HostRuntime) {
    let greatest = TxId(4_294_967_295);
    let table: [(&[u8], Option<Line<'_>>); 25] = [
        (b"begin 1", Some(Line::Begin(TxId(1)))),
        (b"begin 4294967295", Some(Line::Begin(greatest))),
        (b"begin 4294967296", None),
        (b"begin 0", None),
        (b"begin 01", None),
        (b"begin", None),
        (b"begin 1 ", None),
        (b" begin 1", None),
        (b"BEGIN 1", None),
        (b"new 1 note hello", Some(Line::New(TxId(1), b"hello"))),
        (b"new 1 note  hello ", Some(Line::New(TxId(1), b" hello "))),
        (b"new 1 note ", None),
        (b"new 1 note", None),
        (b"new 0 note hello", None),
        (b"new 1 note a\0b", None),
        (b"new 1 note a\x7fb", None),
        (b"commit 1", Some(Line::Commit(TxId(1)))),
        (b"commit +1", None),
        (b"abort 4294967295", Some(Line::Abort(greatest))),
        (b"abort 0", None),
        (b"abort 1 2", None),
        (b"abort", None),
        (b"quit", Some(Line::Quit)),
        (b"quit ", None),
        (b"", None),
    ];
    for (bytes, expected) in table.iter() {
        assert!(rt; read_line(bytes) == *expected, "{bytes:?}");
    }
}

#[test]
fn a_line_that_gets_an_object_has_two_numbers(rt: HostRuntime) {
    let greatest = Line::Get(TxId(4_294_967_295), Rank(262_143));
    let table: [(&[u8], Option<Line<'_>>); 12] = [
        (b"get 1 0", Some(Line::Get(TxId(1), Rank(0)))),
        (b"get 4294967295 262143", Some(greatest)),
        (b"get 1 262144", None),
        (b"get 1 4294967296", None),
        (b"get 0 1", None),
        (b"get 1 01", None),
        (b"get 1  1", None),
        (b"get 1 ", None),
        (b"get 1", None),
        (b"get 1 2 3", None),
        (b"get 1 2 ", None),
        (b"gets 1 2", None),
    ];
    for (bytes, expected) in table.iter() {
        assert!(rt; read_line(bytes) == *expected, "{bytes:?}");
    }
}

#[test]
fn a_line_of_partitions_has_its_numbers(rt: HostRuntime) {
    let greatest = PartId(4_294_967_295);
    let table: [(&[u8], Option<Line<'_>>); 28] = [
        (b"snapshot 3", Some(Line::Snapshot(PartId(3)))),
        (b"snapshot 0", Some(Line::Snapshot(PartId(0)))),
        (b"snapshot 4294967295", Some(Line::Snapshot(greatest))),
        (b"snapshot 4294967296", None),
        (b"snapshot 03", None),
        (b"snapshot 3 ", None),
        (b"snapshot", None),
        (b"snapshot 3 4", None),
        (b"drop 4095", Some(Line::Drop(PartId(4095)))),
        (b"drop 0", Some(Line::Drop(PartId(0)))),
        (b"drop 4294967295", Some(Line::Drop(greatest))),
        (b"drop 4294967296", None),
        (b"drop ", None),
        (b"drop -1", None),
        (b"peek 3 1", Some(Line::Peek(PartId(3), Rank(1)))),
        (b"peek 0 0", Some(Line::Peek(PartId(0), Rank(0)))),
        (
            b"peek 4294967295 262143",
            Some(Line::Peek(greatest, Rank(262_143))),
        ),
        (b"peek 3 262144", None),
        (b"peek 4294967296 1", None),
        (b"peek 3 01", None),
        (b"peek 3", None),
        (b"peek 3 1 ", None),
        (b"peek 3  1", None),
        (b"parts", Some(Line::Parts)),
        (b"parts ", None),
        (b"parts 3", None),
        (b"part", None),
        (b"PARTS", None),
    ];
    for (bytes, expected) in table.iter() {
        assert!(rt; read_line(bytes) == *expected, "{bytes:?}");
    }
}

#[test]
fn a_note_in_a_line_has_at_most_2000_bytes(rt: HostRuntime) -> Result<(), Fail> {
    let mut line = b"new 1 note ".to_vec(rt.alloc())?;
    for _ in 0..2000 {
        line.push(b'~')?;
    }
    assert!(rt; matches!(read_line(&line), Some(Line::New(TxId(1), text)) if text.len() == 2000));
    line.push(b'~')?;
    assert!(rt; read_line(&line).is_none());
    Ok(())
}
