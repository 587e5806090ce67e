use std::test::Fail;
use tdb_class::{Field, FieldKind, ShortText, push_text, split_text};

const LETTERS: [u8; 33] = *b"abcdefghijklmnopqrstuvwxyz_012345";

fn text(bytes: &[u8]) -> Option<Field> {
    Some(Field::Text(ShortText::new(bytes)?))
}

#[test]
fn a_short_text_has_at_most_32_bytes_of_any_kind(rt: HostRuntime) {
    let table: [(&[u8], bool); 6] = [
        (b"", true),
        (b"\0\xff ~", true),
        (b"a\0\0", true),
        (&LETTERS[..31], true),
        (&LETTERS[..32], true),
        (&LETTERS, false),
    ];
    for (bytes, fits) in table.iter() {
        match ShortText::new(bytes) {
            Some(text) => assert!(rt; *fits && text.bytes() == *bytes, "{bytes:?}"),
            None => assert!(rt; !*fits, "{bytes:?}"),
        }
    }
}

#[test]
fn a_word_has_1_to_32_small_letters_digits_and_underscores(rt: HostRuntime) -> Result<(), Fail> {
    let table: [(&[u8], bool); 12] = [
        (b"", false),
        (b"a", true),
        (b"z9_0", true),
        (&LETTERS[1..], true),
        (b"A", false),
        (b"a b", false),
        (b"a-b", false),
        (b"/", false),
        (b":", false),
        (b"`", false),
        (b"{", false),
        (b"a\0", false),
    ];
    for (bytes, is_word) in table.iter() {
        let text = ShortText::new(bytes).ok_or("too long")?;
        assert_eq!(rt; text.is_word(), *is_word, "{bytes:?}");
    }
    Ok(())
}

#[test]
fn numbers_come_before_texts_and_both_ascend(rt: HostRuntime) -> Result<(), Fail> {
    let ascending = [
        Field::Num(0),
        Field::Num(256),
        Field::Num(u64::MAX),
        text(b"").ok_or("too long")?,
        text(b"\0").ok_or("too long")?,
        text(b"9").ok_or("too long")?,
        text(b"a").ok_or("too long")?,
        text(b"aa").ok_or("too long")?,
        text(b"b").ok_or("too long")?,
        text(b"\xff").ok_or("too long")?,
    ];
    for (i, low) in ascending.iter().enumerate() {
        for (j, high) in ascending.iter().enumerate() {
            assert_eq!(rt; low.cmp(high), i.cmp(&j), "{i} and {j}");
            assert_eq!(rt; *low == *high, i == j, "{i} and {j}");
        }
        let kind = if i < 3 {
            FieldKind::Num
        } else {
            FieldKind::Text
        };
        assert_eq!(rt; low.kind(), kind, "{i}");
    }
    Ok(())
}

#[test]
fn a_text_stands_behind_its_length_in_four_bytes(rt: HostRuntime) -> Result<(), Fail> {
    let mut bytes = b"x".to_vec(rt.alloc())?;
    push_text(&mut bytes, &ShortText::new(b"hello").ok_or("too long")?)?;
    push_text(&mut bytes, &ShortText::new(b"").ok_or("too long")?)?;
    assert!(rt; bytes.as_slice() == b"x\0\0\0\x05hello\0\0\0\0".as_slice());
    let table: [(&[u8], Option<(&[u8], &[u8])>); 7] = [
        (b"\0\0\0\x05hello", Some((b"hello", b""))),
        (b"\0\0\0\x05hello, you", Some((b"hello", b", you"))),
        (b"\0\0\0\0\0\0\0\x01", Some((b"", b"\0\0\0\x01"))),
        (b"\0\0\0\x05hell", None),
        (b"\x01\0\0\x01h", None),
        (b"\0\0\0", None),
        (b"", None),
    ];
    for (bytes, expected) in table.iter() {
        let found = match split_text(bytes) {
            Some((text, rest)) => *expected == Some((text.bytes(), rest)),
            None => expected.is_none(),
        };
        assert!(rt; found, "{bytes:?}");
    }
    for (length, is_text) in [(32, true), (33, false)] {
        let mut bytes = [0, 0, 0, length].to_vec(rt.alloc())?;
        bytes.extend_from_slice(&LETTERS)?;
        assert_eq!(rt; split_text(&bytes).is_some(), is_text, "{length}");
    }
    Ok(())
}
