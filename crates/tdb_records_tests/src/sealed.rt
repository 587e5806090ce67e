// The record of the first note under each cipher, as an independent model of the format has it, and
// the lengths of records.
ghost use Rattle.std.specs.Prelude.{◌≡◌};

use std::test::Fail;
use tdb_base::{Key, Suite};
use tdb_mac::derive;
use tdb_seal::{
    Name, RecordKey, SealError, read_record, read_record_with, seal_record, seal_record_with,
};

/// The chunk of the note `hello`, which is in no collection.
const NOTE: [u8; 21] = *b"\0\0\0\0\0\0\0\x01\0\0\0\x01\0\0\0\x05hello";

/// Its record as chunk 1 of partition 1, which commit 2 made, under a secret of 32 zero bytes.
const BY_AES_128: [u8; 80] =
    *b"\x54\x44\x42\x52\x45\x43\x30\x31\x00\x00\x00\x01\x00\x00\x00\x01\x00\x00\x00\x01\x00\x00\x00\x01\
    \x00\x00\x00\x15\x00\x00\x00\x20\x78\x93\x8b\xeb\xdc\xbe\x26\x65\x48\x85\x0d\x4a\x8b\x2a\xf7\x54\
    \xe4\x82\xa5\x38\xa9\x89\xec\x73\xbe\x82\x7d\x6e\x47\xf7\xa9\xca\x67\x69\x75\x0f\x1c\x8e\x09\x05\
    \xaf\x90\x65\xa1\x15\xe2\xf7\x06";

const BY_AES_256: [u8; 80] =
    *b"\x54\x44\x42\x52\x45\x43\x30\x31\x00\x00\x00\x01\x00\x00\x00\x02\x00\x00\x00\x01\x00\x00\x00\x01\
    \x00\x00\x00\x15\x00\x00\x00\x20\xd3\xd4\xf0\x5b\x86\xa4\x1d\xd7\x5e\x43\x5d\xbe\x87\xb9\xe3\xf4\
    \xd0\xb8\x69\xcb\x1e\xad\xe4\xf5\x48\x50\xce\x01\xd6\x78\x75\xdb\xdd\xf5\xf8\x9d\x95\x8a\x17\x2b\
    \x84\x7d\x80\x57\x37\xd1\xd6\x3b";

fn name_of(suite: Suite) -> Name
    ensures { result.suite ≡ suite }
{
    Name {
        kind: 1,
        suite,
        home: 1,
        rank: 1,
    }
}

#[test]
fn records_under_a_cipher_are_those_of_the_model(rt: HostRuntime) -> Result<(), Fail> {
    let key = derive(&[0; 32], b"TDBpartn", 1, 2);
    for (suite, record) in [(Suite::Aes128, BY_AES_128), (Suite::Aes256, BY_AES_256)] {
        let name = name_of(suite);
        let prepared = RecordKey::new(&key, suite);
        let sealed = seal_record_with(rt.alloc(), &prepared, &name, &NOTE)?;
        assert_eq!(rt; sealed.as_slice(), record.as_slice());
        let plain = read_record_with(rt.alloc(), &prepared, &name, &record)?;
        assert_eq!(rt; plain.as_slice(), NOTE.as_slice());
    }
    Ok(())
}

#[test]
fn a_suite_and_a_length_give_the_length_of_a_record(rt: HostRuntime) -> Result<(), Fail> {
    let key = Key([7; 32]);
    let plain = [0; 3_072];
    // plain bytes; bytes of the record under no cipher; under either cipher
    for (length, open, ciphered) in [
        (0, 48, 64),
        (15, 63, 64),
        (16, 64, 80),
        (21, 69, 80),
        (88, 136, 144),
        (528, 576, 592),
        (1_456, 1_504, 1_520),
        (3_072, 3_120, 3_136),
    ] {
        assert!(rt; length <= plain.len());
        let text = &plain[..length];
        let record = seal_record(rt.alloc(), &key, &name_of(Suite::Plain), text)?;
        assert_eq!(rt; record.len(), open);
        for suite in [Suite::Aes128, Suite::Aes256] {
            let record = seal_record(rt.alloc(), &key, &name_of(suite), text)?;
            assert_eq!(rt; record.len(), ciphered, "at {length}");
        }
    }
    Ok(())
}

#[test]
fn another_name_key_or_byte_is_refused(rt: HostRuntime) {
    let key = derive(&[0; 32], b"TDBpartn", 1, 2);
    let name = name_of(Suite::Aes128);
    assert!(rt; read_record(rt.alloc(), &key, &name, &BY_AES_128).is_ok());
    for other in [
        Name { kind: 6, ..name },
        Name { home: 2, ..name },
        Name { rank: 2, ..name },
        name_of(Suite::Aes256),
        name_of(Suite::Plain),
    ] {
        let read = read_record(rt.alloc(), &key, &other, &BY_AES_128);
        assert!(rt; matches!(read, Err(SealError::Form)), "{other:?}");
    }
    let read = read_record(rt.alloc(), &Key([0; 32]), &name, &BY_AES_128);
    assert!(rt; matches!(read, Err(SealError::Form)), "another key");
    // the first byte of the vector, and the last of the body
    for at in [32, 79] {
        let mut bytes = BY_AES_128;
        bytes[at] = 0;
        let read = read_record(rt.alloc(), &key, &name, &bytes);
        assert!(rt; matches!(read, Err(SealError::Form)), "at {at}");
    }
}
