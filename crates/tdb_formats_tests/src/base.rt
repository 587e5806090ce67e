use std::test::Fail;
use tdb_base::{
    Bytes, Digest, Piece, Place, Suite, bytes32_at, entry_at, piece_at, push_bytes, push_decimal,
    push_u32, push_u64, put_bytes, put_bytes32, put_entry, put_piece, put_u32, put_u64,
    read_decimal, take_bytes, take_u32, take_u64, u32_at, u64_at,
};

#[test]
fn fields_are_taken_where_all_their_bytes_stand(rt: HostRuntime) {
    let bytes = [0x80, 1, 2, 3, 4, 5, 6, 7, 8];
    for (at, number) in [
        (0, Some(0x8001_0203)),
        (5, Some(0x0506_0708)),
        (6, None),
        (9, None),
        (usize::MAX, None),
    ] {
        assert_eq!(rt; take_u32(&bytes, at), number, "four bytes at {at}");
    }
    for (at, number) in [
        (0, Some(0x8001_0203_0405_0607)),
        (1, Some(0x0102_0304_0506_0708)),
        (2, None),
        (usize::MAX - 7, None),
    ] {
        assert_eq!(rt; take_u64(&bytes, at), number, "eight bytes at {at}");
    }
    assert!(rt; take_bytes(&bytes, 7, 2) == Some(b"\x07\x08".as_slice()));
    assert!(rt; take_bytes(&bytes, 9, 0) == Some(b"".as_slice()));
    assert!(rt; take_bytes(&bytes, 8, 2).is_none());
    assert!(rt; take_bytes(&bytes, 1, usize::MAX).is_none());
    assert_eq!(rt; u32_at(&bytes, 1), 0x0102_0304);
    assert_eq!(rt; u64_at(&bytes, 1), 0x0102_0304_0506_0708);
}

#[test]
fn fields_are_written_at_their_place_alone(rt: HostRuntime) {
    let mut text = [9; 52];
    put_bytes(&mut text, 1, b"ab");
    put_u32(&mut text, 3, 0x0102_0304);
    put_u64(&mut text, 7, 0x0102_0304_0506_0708);
    put_bytes32(&mut text, 15, &[5; 32]);
    assert!(rt;
        &text[..15] == b"\x09ab\x01\x02\x03\x04\x01\x02\x03\x04\x05\x06\x07\x08".as_slice()
    );
    assert_eq!(rt; bytes32_at(&text, 15), [5; 32]);
    assert!(rt; &text[47..] == [9; 5].as_slice());
}

#[test]
fn fields_are_appended(rt: HostRuntime) -> Result<(), Fail> {
    let mut text = Vec::new(rt.alloc());
    push_bytes(&mut text, b"n ")?;
    push_decimal(&mut text, 18_446_744_073_709_551_615)?;
    push_u32(&mut text, 0x4142_4344)?;
    push_u64(&mut text, 0x6162_6364_6566_6768)?;
    push_decimal(&mut text, 0)?;
    let bytes = Bytes::from(text);
    assert!(rt; bytes.as_slice() == b"n 18446744073709551615ABCDabcdefgh0".as_slice());
    assert_eq!(rt; bytes.len(), 35);
    assert!(rt; !bytes.is_empty());
    assert_eq!(rt; Bytes::new(bytes.into_vec()).len(), 35);
    Ok(())
}

#[test]
fn a_decimal_number_has_one_spelling(rt: HostRuntime) {
    for (word, number) in [
        ("0", Some(0)),
        ("7", Some(7)),
        ("1090", Some(1090)),
        ("18446744073709551615", Some(u64::MAX)),
        ("18446744073709551616", None),
        ("99999999999999999999", None),
        ("", None),
        ("00", None),
        ("07", None),
        ("+7", None),
        ("-7", None),
        (" 7", None),
        ("7 ", None),
        ("7a", None),
        ("٧", None),
    ] {
        assert_eq!(rt; read_decimal(word.as_bytes()), number, "of {word}");
    }
    assert_eq!(rt; read_decimal(b"\xff7"), None);
}

#[test]
fn suites_have_their_numbers_and_words(rt: HostRuntime) {
    for (number, suite, word) in [
        (0, Suite::Plain, "plain"),
        (1, Suite::Aes128, "aes128"),
        (2, Suite::Aes256, "aes256"),
    ] {
        assert_eq!(rt; suite.number(), number);
        assert!(rt; Suite::of_number(number) == Some(suite));
        assert_eq!(rt; suite.word(), word);
    }
    assert!(rt; Suite::of_number(3).is_none());
}

#[test]
fn a_piece_lies_between_the_ring_and_the_last_segments_end(rt: HostRuntime) {
    for (place, length, within) in [
        (262_144, 262_144, true),
        (262_143, 1, false),
        (262_144, 0, false),
        (262_145, 262_144, false),
        (524_287, 1, true),
        (524_287, 2, false),
        (1_074_003_967, 1, true),
        (1_074_003_967, 2, false),
        (1_074_003_968, 1, false),
        (u64::MAX, u32::MAX, false),
    ] {
        let piece = Piece {
            place: Place(place),
            length,
            digest: Digest([0; 32]),
        };
        assert_eq!(rt;
            piece.lies_in_one_segment(),
            within,
            "{length} bytes at {place}"
        );
    }
}

#[test]
fn an_entry_is_the_number_one_and_a_piece_or_zeros(rt: HostRuntime) {
    let piece = Piece {
        place: Place(0x0102_0304_0506_0708),
        length: 0x090a_0b0c,
        digest: Digest([0xdd; 32]),
    };
    let mut text = [7; 52];
    put_entry(&mut text, 2, &Some(piece));
    assert!(rt;
        &text[..18]
            == b"\x07\x07\x00\x00\x00\x01\x09\x0a\x0b\x0c\x01\x02\x03\x04\x05\x06\x07\x08".as_slice()
    );
    assert!(rt;
        &text[18..]
            == b"\xdd\xdd\xdd\xdd\xdd\xdd\xdd\xdd\xdd\xdd\xdd\xdd\xdd\xdd\xdd\xdd\
            \xdd\xdd\xdd\xdd\xdd\xdd\xdd\xdd\xdd\xdd\xdd\xdd\xdd\xdd\xdd\xdd\x07\x07"
                .as_slice()
    );
    assert!(rt; entry_at(&text, 2) == Some(piece));
    put_entry(&mut text, 2, &None);
    assert!(rt; &text[2..50] == [0; 48].as_slice());
    assert!(rt; entry_at(&text, 2).is_none());
    put_piece(&mut text, 8, &piece);
    assert!(rt; piece_at(&text, 8) == piece);
}
