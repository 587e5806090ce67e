// Commit texts and their marks, against those that an independent model of the formats gives.
use tdb_base::{Digest, Key, Piece, Place, Suite, put_bytes32};
use tdb_first_path::{FIRST_MARK, FIRST_TEXT, SECOND_MARK, SECOND_TEXT, THIRD_MARK, THIRD_TEXT};
use tdb_mac::{PreparedKey, hmac};
use tdb_mark::{
    CHECKPOINT, COMMIT, Commit, commit_key, mark, read_commit, read_commit_with, write_commit,
    write_commit_with,
};

#[derive(Clone, Copy)]
struct Row {
    text: [u8; 256],
    mark: Digest,
    kind: u32,
    count: u64,
    prev: Digest,
    place: u64,
    length: u32,
}

#[test]
fn texts_are_read_and_written(rt: HostRuntime) {
    let key = commit_key(&[0; 32]);
    let prepared = PreparedKey::new(&key);
    let rows = [
        Row {
            text: FIRST_TEXT,
            mark: Digest(FIRST_MARK),
            kind: CHECKPOINT,
            count: 1,
            prev: Digest([0; 32]),
            place: 262144,
            length: 576,
        },
        Row {
            text: SECOND_TEXT,
            mark: Digest(SECOND_MARK),
            kind: COMMIT,
            count: 2,
            prev: Digest(FIRST_MARK),
            place: 262720,
            length: 208,
        },
        Row {
            text: THIRD_TEXT,
            mark: Digest(THIRD_MARK),
            kind: COMMIT,
            count: 3,
            prev: Digest(SECOND_MARK),
            place: 262997,
            length: 136,
        },
    ];
    for row in &rows {
        let Some(commit) = read_commit(&row.text, &key) else {
            assert!(rt; false, "the text of count {}", row.count);
            return;
        };
        assert!(rt; commit.suite == Suite::Plain && commit.base == 1 && commit.segments == 16);
        assert_eq!(rt; commit.kind, row.kind);
        assert_eq!(rt; commit.count, row.count);
        assert!(rt; commit.prev == row.prev);
        assert!(rt; commit.first.place == Place(row.place));
        assert_eq!(rt; commit.first.length, row.length);
        assert!(rt; commit.root.is_none());
        assert!(rt; read_commit_with(&row.text, &prepared) == Some(commit));
        assert!(rt; commit.is_in_format());
        assert!(rt; write_commit(&commit, &key) == row.text);
        assert!(rt; write_commit_with(&commit, &prepared) == row.text);
        assert!(rt; mark(&row.text) == row.mark);
    }
}

#[test]
fn a_checkpoint_with_a_root_is_read_back(rt: HostRuntime) {
    let key = commit_key(&[7; 32]);
    let piece = Piece {
        place: Place(1_073_741_824),
        length: 262_144,
        digest: Digest([0xab; 32]),
    };
    let commit = Commit {
        kind: CHECKPOINT,
        suite: Suite::Aes256,
        count: u64::MAX,
        prev: Digest([1; 32]),
        base: u64::MAX,
        segments: 4_096,
        first: piece,
        root: Some(piece),
    };
    assert!(rt; commit.is_in_format());
    assert!(rt; read_commit(&write_commit(&commit, &key), &key) == Some(commit));
}

fn tagged_anew(mut text: [u8; 256], key: &Key) -> [u8; 256] {
    if let Some(fields) = text.get(..224) {
        let tag = hmac(&key.0, fields);
        put_bytes32(&mut text, 224, &tag);
    }
    text
}

// Bytes that are changed, with the tag computed anew.
#[test]
fn a_text_outside_the_format_is_refused_under_a_right_tag(rt: HostRuntime) {
    let key = commit_key(&[0; 32]);
    for (at, byte) in [
        (0u8, b'B'),
        (11, 3),
        (15, 3),
        (23, 0),
        (63, 0),
        (63, 2),
        (63, 3),
        (66, 0x10),
        (67, 15),
        (68, 1),
        (115, 1),
        (159, 1),
        (160, 1),
        (200, 1),
        (223, 1),
    ] {
        let mut text = SECOND_TEXT;
        text[usize::from(at)] = byte;
        let text = tagged_anew(text, &key);
        assert!(rt; read_commit(&text, &key).is_none(), "{byte} at {at}");
    }
    let mut text = SECOND_TEXT;
    text[255] ^= 1;
    assert!(rt; read_commit(&text, &key).is_none());
    assert!(rt; read_commit(&SECOND_TEXT[..255], &key).is_none());
    assert!(rt; read_commit(&[], &key).is_none());
    assert!(rt; read_commit(&SECOND_TEXT, &commit_key(&[1; 32])).is_none());
}
