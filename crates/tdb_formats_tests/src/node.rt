// The segment table, against the first one of a store as an independent model of the format has it.
use std::test::Fail;
use tdb_node::{NodeError, Table, read_table, write_table};

/// The table of a device of 16 segments that has only its first one in use.
fn first_table() -> Table {
    let mut used = [0; 64];
    used[0] = 1;
    Table { segments: 16, used }
}

/// Its bytes, as an independent model of the format has them.
fn first_bytes() -> [u8; 528] {
    let mut bytes = [0; 528];
    bytes[..8].copy_from_slice(&[0x54, 0x44, 0x42, 0x53, 0x45, 0x47, 0x30, 0x31]);
    bytes[11] = 0x10;
    bytes[23] = 0x01;
    bytes
}

#[test]
fn the_first_table_is_written_and_read_back(rt: HostRuntime) -> Result<(), Fail> {
    let table = first_table();
    assert!(rt; table.is_well_formed());
    let bytes = write_table(rt.alloc(), &table)?;
    assert_eq!(rt; bytes.as_slice(), first_bytes().as_slice());
    assert_eq!(rt; read_table(&first_bytes()), Ok(table));
    Ok(())
}

#[test]
fn one_changed_byte_decides(rt: HostRuntime) {
    // the place of a byte, what is written there, and whether a table remains
    for (at, byte, is_read) in [
        (0, 0x55, false),
        (10, 0x0f, true),
        (10, 0x10, false),
        (11, 0x0f, false),
        (15, 0x01, false),
        (22, 0x80, true),
        (21, 0x01, false),
        (527, 0x01, false),
    ] {
        let mut bytes = first_bytes();
        bytes[at] = byte;
        assert_eq!(rt; read_table(&bytes).is_ok(), is_read, "at {at}");
    }
    let bytes = first_bytes();
    assert_eq!(rt; read_table(&bytes[1..]), Err(NodeError::Form));
}
