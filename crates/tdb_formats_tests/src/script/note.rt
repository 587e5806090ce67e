use std::test::Fail;
use tdb_base::Bytes;
use tdb_script::{Note, read_stored_note, stored_note};

#[test]
fn hello_is_stored_in_21_bytes(rt: HostRuntime) -> Result<(), Fail> {
    let note = Note::new(Bytes::from(b"hello".to_vec(rt.alloc())?)).ok_or("no note")?;
    let chunk = stored_note(rt.alloc(), note.text())?;
    assert!(rt; chunk.as_slice() == b"\0\0\0\0\0\0\0\x01\0\0\0\x01\0\0\0\x05hello".as_slice());
    assert!(rt; read_stored_note(chunk.as_slice()) == Some(b"hello".as_slice()));
    Ok(())
}

#[test]
fn a_chunk_is_read_exactly_where_it_is_a_member_that_is_a_note(rt: HostRuntime) {
    let table: [(&[u8], Option<&[u8]>); 16] = [
        (b"\0\0\0\0\0\0\0\x01\0\0\0\x01\0\0\0\x01 ", Some(b" ")),
        (b"\0\0\0\x05\0\0\0\x01\0\0\0\x01\0\0\0\x02hi", Some(b"hi")),
        (b"\0\0\xff\xff\0\0\0\x01\0\0\0\x01\0\0\0\x02hi", Some(b"hi")),
        (b"\0\x01\0\0\0\0\0\x01\0\0\0\x01\0\0\0\x02hi", None),
        (b"\x01\0\0\0\0\0\0\x01\0\0\0\x01\0\0\0\x02hi", None),
        (b"\0\0\0\0\0\0\0\x02\0\0\0\x01\0\0\0\x02hi", None),
        (b"\0\0\0\0\0\0\0\0\0\0\0\x01\0\0\0\x02hi", None),
        (b"\0\0\0\0\0\0\0\x01\0\0\0\x02\0\0\0\x02hi", None),
        (b"\0\0\0\0\0\0\0\x01\0\0\0\0\0\0\0\x02hi", None),
        (b"\0\0\0\0\0\0\0\x01\0\0\0\x01\0\0\0\x03hi", None),
        (b"\0\0\0\0\0\0\0\x01\0\0\0\x01\0\0\0\x01hi", None),
        (b"\0\0\0\0\0\0\0\x01\0\0\0\x01\0\0\0\x02h\x7f", None),
        (b"\0\0\0\0\0\0\0\x01\0\0\0\x01\0\0\0\x02\x1fi", None),
        (b"\0\0\0\0\0\0\0\x01\0\0\0\x01\0\0\0\0", None),
        (b"\0\0\0\0\0\0\0\x01\0\0\0\x01\0\0\0", None),
        (b"", None),
    ];
    for (chunk, expected) in table.iter() {
        assert!(rt; read_stored_note(chunk) == *expected, "{chunk:?}");
    }
}

#[test]
fn a_stored_note_has_at_most_2000_bytes_of_text(rt: HostRuntime) -> Result<(), Fail> {
    for (last_byte, length, found) in [(0xd0, 2000, true), (0xd1, 2001, false)] {
        let mut chunk = b"\0\0\0\0\0\0\0\x01\0\0\0\x01\0\0\x07".to_vec(rt.alloc())?;
        chunk.push(last_byte)?;
        for _ in 0..length {
            chunk.push(b'~')?;
        }
        assert!(rt; read_stored_note(&chunk).is_some() == found, "{length}");
    }
    Ok(())
}

#[test]
fn a_note_shows_its_text(rt: HostRuntime) -> Result<(), Fail> {
    let note = Note::new(Bytes::from(b"a {b} ~".to_vec(rt.alloc())?)).ok_or("no note")?;
    let shown = format!(in rt.alloc(); "{note}")?;
    assert!(rt; shown.as_str() == "a {b} ~");
    assert!(rt; note.text() == b"a {b} ~".as_slice());
    let other = Note::new(Bytes::from(b"caf\xc3\xa9".to_vec(rt.alloc())?));
    assert!(rt; other.is_none());
    Ok(())
}
