// The stream of a backup of one note, and what is no header, item or end of a stream.
use std::alloc::{AllocError, Global};
use std::test::Fail;
use tdb_bakfmt::{
    FULL, Header, INCREMENTAL, Item, ItemError, read_end, read_header, read_item, write_end,
    write_header, write_item,
};
use tdb_base::{Bytes, Digest, Key, Suite};

/// The chunk of the note `hello`, which is in no collection.
const NOTE: [u8; 21] = *b"\0\0\0\0\0\0\0\x01\0\0\0\x01\0\0\0\x05hello";

/// A full backup under no cipher of snapshot 3, which commit 4 made, with that note at rank 1. The
/// tag is that of the bytes before it under a secret of 32 zero bytes.
const STREAM: [u8; 165] = *b"TDBBAK01\0\0\0\x01\0\0\0\0\0\0\0\x03\0\0\0\0\
    \0\0\0\0\0\0\0\x04\0\0\0\0\0\0\0\0\0\0\0\0\0\0\0\0\
    \0\0\0\x01\0\0\0\x01\0\0\0\x45TDBREC01\0\0\0\x06\0\0\0\0\0\0\0\x03\0\0\0\x01\
    \0\0\0\x15\0\0\0\x15\0\0\0\0\0\0\0\0\0\0\0\0\0\0\0\0\
    \0\0\0\0\0\0\0\x01\0\0\0\x01\0\0\0\x05hello\
    \0\0\0\x03\xb3\x03\xaf\x59\x87\x92\xa9\x2c\x79\x82\x4b\xb4\x02\x38\x3c\xba\
    \x11\x9e\x3f\x14\x5a\x8e\x7e\xb1\xbc\x8f\x8e\x86\xf1\x07\x7f\x8d";

const TAG: [u8; 32] = *b"\xb3\x03\xaf\x59\x87\x92\xa9\x2c\x79\x82\x4b\xb4\x02\x38\x3c\xba\
    \x11\x9e\x3f\x14\x5a\x8e\x7e\xb1\xbc\x8f\x8e\x86\xf1\x07\x7f\x8d";

/// The header of an incremental backup.
const INCREMENT: [u8; 48] = *b"TDBBAK01\0\0\0\x02\0\0\0\x01\0\0\x0f\xff\0\0\0\x01\
    \x01\x02\x03\x04\x05\x06\x07\x08\0\0\0\0\0\0\0\x01\0\0\0\0\0\0\0\0";

/// The key of the backup of snapshot 3, which commit 4 made, under a secret of 32 zero bytes.
const KEY: Key = Key(
    *b"\x35\x27\x61\xab\x75\x85\x99\x50\x6d\x8a\x67\xfc\x7c\x3e\xab\xe3\
    \xcb\xc2\xf1\x6e\x3b\xfb\x0f\xcf\x91\x14\xc9\x24\xad\xf2\x30\x78",
);

/// The item of the note under each cipher, as an independent model of the format has it.
const BY_AES_128: [u8; 92] = *b"\0\0\0\x01\0\0\0\x01\0\0\0\x50TDBREC01\0\0\0\x06\
    \0\0\0\x01\0\0\0\x03\0\0\0\x01\0\0\0\x15\0\0\0\x20\x7d\x68\xca\xd4\
    \xa0\x66\xe0\xbf\xfa\x5f\xde\x1e\xc9\x2f\xaf\x3f\x24\x27\x32\x32\x20\x0d\x82\xc8\x8c\x8f\x9e\x34\
    \x1e\x42\xc5\x7d\xf3\x5f\xe1\xd2\x92\xcb\xe2\xc0\x48\xc1\x13\xa0\x6f\x4b\xf6\x8d";

const BY_AES_256: [u8; 92] = *b"\0\0\0\x01\0\0\0\x01\0\0\0\x50TDBREC01\0\0\0\x06\
    \0\0\0\x02\0\0\0\x03\0\0\0\x01\0\0\0\x15\0\0\0\x20\x81\x95\x25\x8f\
    \x6a\x21\xce\x9b\x13\x67\x2d\x01\x2f\x33\xb3\x04\x22\x93\xd4\x10\x17\x90\x5d\x7a\x9f\x38\x15\x69\
    \x5c\xb1\x45\x2e\xce\xb9\x5a\xb2\xf3\x25\xdc\x87\x7f\xa4\xb0\xd9\x3e\x24\x1c\x55";

/// A header, by its kind, part, born, base part and base born.
fn header_of(fields: (u32, u32, u64, u32, u64), suite: Suite) -> Header {
    Header {
        kind: fields.0,
        suite,
        part: fields.1,
        born: fields.2,
        base_part: fields.3,
        base_born: fields.4,
    }
}

fn full(suite: Suite) -> Header {
    header_of((FULL, 3, 4, 0, 0), suite)
}

fn increment() -> Header {
    let fields = (INCREMENTAL, 4_095, 0x0102_0304_0506_0708, 1, 1);
    header_of(fields, Suite::Aes128)
}

#[test]
fn a_header_has_48_bytes(rt: HostRuntime) {
    for (header, bytes) in [
        (full(Suite::Plain), &STREAM[..48]),
        (increment(), &INCREMENT),
    ] {
        assert!(rt; header.is_in_format());
        assert!(rt; write_header(&header).as_slice() == bytes, "{header:?}");
        assert!(rt; read_header(bytes) == Some(header), "{header:?}");
    }
    for bytes in [&STREAM[..47], &STREAM[..49], &STREAM, &[]] {
        assert!(rt; read_header(bytes).is_none(), "{bytes:?}");
    }
}

#[test]
fn the_limits_of_a_header_are_those_of_the_format(rt: HostRuntime) {
    let table = [
        ((1, 1, 1, 0, 0), true),
        ((1, 4_095, u64::MAX, 0, 0), true),
        ((1, 0, 1, 0, 0), false),
        ((1, 4_096, 1, 0, 0), false),
        ((1, 1, 0, 0, 0), false),
        ((1, 1, 1, 1, 0), false),
        ((1, 1, 1, 0, 1), false),
        ((1, 1, 1, 1, 1), false),
        ((2, 1, 1, 1, 1), true),
        ((2, 4_095, u64::MAX, 4_095, u64::MAX), true),
        ((2, 1, 1, 0, 1), false),
        ((2, 1, 1, 4_096, 1), false),
        ((2, 1, 1, 1, 0), false),
        ((2, 1, 1, 0, 0), false),
        ((0, 1, 1, 0, 0), false),
        ((3, 1, 1, 1, 1), false),
    ];
    for (fields, is_in_format) in table.iter() {
        let header = header_of(*fields, Suite::Aes256);
        assert!(rt; header.is_in_format() == *is_in_format, "{header:?}");
    }
}

#[test]
fn another_byte_makes_no_header(rt: HostRuntime) {
    let mut header = [0; 48];
    header.copy_from_slice(&STREAM[..48]);
    // the place of a byte, and the byte that stands there instead
    for (at, byte) in [
        (0, b't'),
        (7, b'2'),
        (11, 0),
        (11, 2),
        (15, 3),
        (18, 0x10),
        (19, 0),
        (23, 1),
        (31, 0),
        (39, 1),
        (40, 1),
        (47, 1),
    ] {
        let mut bytes = header;
        assert!(rt; at < bytes.len());
        bytes[at] = byte;
        assert!(rt; read_header(&bytes).is_none(), "{byte} at {at}");
    }
    for (at, byte) in [(11, 1), (18, 0x10), (22, 0x10), (23, 0), (39, 0)] {
        let mut bytes = INCREMENT;
        assert!(rt; at < bytes.len());
        bytes[at] = byte;
        assert!(rt; read_header(&bytes).is_none(), "{byte} at {at}");
    }
}

#[test]
fn an_end_has_a_tag_of_32_bytes(rt: HostRuntime) {
    let end = &STREAM[129..];
    assert!(rt; write_end(&Digest(TAG)).as_slice() == end);
    assert!(rt; read_end(end) == Some(Digest(TAG)));
    // a tag of 31 bytes, one of 33, and a tag alone
    for bytes in [&end[..35], &STREAM[128..], &end[4..], &[]] {
        assert!(rt; read_end(bytes).is_none(), "{bytes:?}");
    }
    let mut bytes = [0; 36];
    bytes.copy_from_slice(end);
    for (at, byte) in [(0, 3), (2, 1), (3, 1), (3, 2), (3, 4)] {
        let mut bytes = bytes;
        assert!(rt; at < bytes.len());
        bytes[at] = byte;
        assert!(rt; read_end(&bytes).is_none(), "{byte} at {at}");
    }
}

#[test]
fn an_item_is_written_and_read_under_each_suite(rt: HostRuntime) -> Result<(), Fail> {
    for (suite, bytes) in [
        (Suite::Plain, &STREAM[48..129]),
        (Suite::Aes128, &BY_AES_128),
        (Suite::Aes256, &BY_AES_256),
    ] {
        let item = Item {
            rank: 1,
            bytes: Some(Bytes::from(NOTE.to_vec(rt.alloc())?)),
        };
        let written = write_item(rt.alloc(), &full(suite), &KEY, &item)?;
        assert!(rt; written.as_slice() == bytes, "{suite:?}");
        let item = read_item(rt.alloc(), &full(suite), &KEY, bytes)?;
        let plain = item.bytes.ok_or("an absence")?;
        assert!(rt;
            item.rank == 1 && plain.as_slice() == NOTE.as_slice(),
            "{suite:?}"
        );
    }
    Ok(())
}

/// Whether the bytes are no item under the header and the key of the backup.
fn is_no_item(alloc: Global, header: &Header, bytes: &[u8]) -> bool {
    matches!(read_item(alloc, header, &KEY, bytes), Err(ItemError::Form))
}

#[test]
fn another_byte_makes_no_item(rt: HostRuntime) {
    let mut item = [0; 81];
    item.copy_from_slice(&STREAM[48..129]);
    let header = full(Suite::Plain);
    // the place of a byte, and the byte that stands there instead
    for (at, byte) in [
        (3, 0),
        (3, 2),
        (3, 3),
        (5, 4),
        (7, 2),
        (11, 0x44),
        (11, 0x46),
        (12, b't'),
        (23, 1),
        (27, 1),
        (31, 4),
        (35, 2),
        (39, 0x14),
        (43, 0x14),
        (44, 1),
        (59, 1),
    ] {
        let mut bytes = item;
        assert!(rt; at < bytes.len());
        bytes[at] = byte;
        assert!(rt; is_no_item(rt.alloc(), &header, &bytes), "{byte} at {at}");
    }
}

#[test]
fn an_item_is_of_its_stream_and_key(rt: HostRuntime) {
    let header = full(Suite::Aes128);
    let of_another_part = header_of((FULL, 4, 4, 0, 0), Suite::Aes128);
    assert!(rt; !is_no_item(rt.alloc(), &header, &BY_AES_128));
    for other in [full(Suite::Aes256), full(Suite::Plain), of_another_part] {
        assert!(rt; is_no_item(rt.alloc(), &other, &BY_AES_128), "{other:?}");
    }
    let read = read_item(rt.alloc(), &header, &Key([0; 32]), &BY_AES_128);
    assert!(rt; matches!(read, Err(ItemError::Form)), "another key");
    for bytes in [&BY_AES_128[..91], &BY_AES_128[..11], &BY_AES_128[..7], &[]] {
        assert!(rt; is_no_item(rt.alloc(), &header, bytes), "{bytes:?}");
    }
}

#[test]
fn an_absence_stands_in_an_incremental_stream_alone(rt: HostRuntime) -> Result<(), Fail> {
    let header = increment();
    assert!(rt; header.kind == INCREMENTAL);
    let absence = Item {
        rank: 262_143,
        bytes: None,
    };
    let bytes = write_item(rt.alloc(), &header, &KEY, &absence)?;
    assert!(rt; bytes.as_slice() == b"\0\0\0\x02\0\x03\xff\xff".as_slice());
    let item = read_item(rt.alloc(), &header, &KEY, &bytes)?;
    assert!(rt; item.rank == 262_143 && item.bytes.is_none());
    assert!(rt; is_no_item(rt.alloc(), &full(Suite::Aes128), &bytes));
    let table: [&[u8]; 5] = [
        b"\0\0\0\x02\0\x04\0\0",
        b"\0\0\0\x03\0\0\0\x01",
        b"\0\0\0\0\0\0\0\x01",
        b"\0\0\0\x02\0\0\0",
        b"\0\0\0\x02\0\0\0\x01\0",
    ];
    for bytes in table.iter() {
        assert!(rt; is_no_item(rt.alloc(), &header, bytes), "{bytes:?}");
    }
    Ok(())
}

/// An item under no cipher of so many zeros, by the last bytes of the lengths of its record and of
/// the zeros.
fn item_of_zeros(alloc: Global, count: u32, record: u8, plain: u8) -> Result<Vec<u8>, AllocError> {
    let mut head = [0; 60];
    head.copy_from_slice(&STREAM[48..108]);
    (head[9], head[11]) = (1, record);
    (head[37], head[39]) = (1, plain);
    (head[41], head[43]) = (1, plain);
    let mut bytes = head.to_vec(alloc)?;
    for _ in 0..count {
        bytes.push(0)?;
    }
    Ok(bytes)
}

#[test]
fn an_item_has_at_most_65536_plain_bytes(rt: HostRuntime) -> Result<(), Fail> {
    let header = full(Suite::Plain);
    let longest = item_of_zeros(rt.alloc(), 65_536, 0x30, 0)?;
    assert!(rt; !is_no_item(rt.alloc(), &header, &longest));
    let longer = item_of_zeros(rt.alloc(), 65_537, 0x31, 1)?;
    assert!(rt; is_no_item(rt.alloc(), &header, &longer));
    Ok(())
}
