//! Sealed records, against the record of a note as an independent model of the format has it. Its plain text begins at 48.
use std::test::Fail;
use tdb_base::{Key, Suite};
use tdb_first_path::NOTE;
use tdb_seal::{Name, SealError, read_record, seal_record};

/// The name of the first note's chunk.
const NOTE_NAME: Name = Name {
    kind: 1,
    suite: Suite::Plain,
    home: 1,
    rank: 1,
};

#[test]
fn the_record_of_the_first_note_is_sealed_and_read_back(rt: HostRuntime) -> Result<(), Fail> {
    let key = Key([7; 32]);
    let record = NOTE;
    let plain = &record[48..];
    let bytes = seal_record(rt.alloc(), &key, &NOTE_NAME, plain)?;
    assert_eq!(rt; bytes.as_slice(), NOTE.as_slice());
    assert_eq!(rt;
        read_record(rt.alloc(), &key, &NOTE_NAME, &record)?.as_slice(),
        plain
    );
    Ok(())
}

#[test]
fn a_record_is_48_bytes_longer_than_its_plain_text(rt: HostRuntime) -> Result<(), Fail> {
    let key = Key([7; 32]);
    let plain = [0; 1_456];
    for (length, sealed) in [(0, 48), (21, 69), (88, 136), (528, 576), (1_456, 1_504)] {
        if length <= plain.len() {
            let bytes = seal_record(rt.alloc(), &key, &NOTE_NAME, &plain[..length])?;
            assert_eq!(rt; bytes.len(), sealed);
        }
    }
    Ok(())
}

#[test]
fn another_name_or_length_is_refused(rt: HostRuntime) {
    let key = Key([7; 32]);
    // the place of a byte that is changed to 9
    for at in [0, 11, 15, 19, 23, 27, 31, 47] {
        let mut bytes = NOTE;
        bytes[at] = 9;
        let read = read_record(rt.alloc(), &key, &NOTE_NAME, &bytes);
        assert!(rt; matches!(read, Err(SealError::Form)), "at {at}");
    }
    let ciphered = Name {
        suite: Suite::Aes128,
        ..NOTE_NAME
    };
    let read = read_record(rt.alloc(), &key, &ciphered, &NOTE);
    assert!(rt; matches!(read, Err(SealError::Form)));
}
