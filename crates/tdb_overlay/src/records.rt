//! The records of the system that a store seals: tables and lists of changes.
ghost use Rattle.std.specs.Prelude.{◌≡◌, ◌+◌, ◌*◌, IfOk, length};
ghost use Rattle.std.specs.List.{AllByRecursion};
ghost use Rattle.tdb_list.specs.ChangeList.{IsList, list_bytes};
ghost use Rattle.tdb_list.specs.Entry.{IsEntryValue};
ghost use Rattle.tdb_node.specs.SegmentTable.{IsTable, IsTableValue, table_bytes};
ghost use Rattle.tdb_seal.specs.SealedRecord.{IsSealedRecord};
ghost use Rattle.tdb_overlay.specs.Keys.{system_key};
ghost use Rattle.tdb_overlay.specs.SealedOnly.{IsRecord};
ghost use Rattle.tdb_overlay.specs.StoreState.{record_length};
ghost use Rattle.tdb_overlay.specs.Names.{list_name, table_name};

use crate::keys::Keys;
use std::alloc::{AllocError, Global};
use tdb_base::Suite;
use tdb_list::{Entry, write_list};
use tdb_node::{Table, write_table};
use tdb_seal::Name;

const TABLE: u32 = 4;

const LIST: u32 = 5;

/// Seals a segment table in the suite of its store.
pub fn seal_table(
    alloc: Global,
    keys: &Keys,
    suite: Suite,
    table: &Table,
) -> Result<Vec<u8>, AllocError>
    requires table { IsTable table.now }
    requires value { IsTableValue table.now }
    ensures sealed { IfOk result (λ bytes. IsSealedRecord (system_key keys.now) (table_name suite) (table_bytes table.now) bytes.items) }
    ensures is_record { IfOk result (λ bytes. IsRecord keys.now bytes.items) }
    ensures size { IfOk result (λ bytes. length bytes.items ≡ record_length suite 528) }
    ensures known { IsTableValue table.now }
{
    let table = write_table(alloc, table)?;
    let name = Name {
        kind: TABLE,
        suite,
        home: 0,
        rank: 0,
    };
    keys.seal_system(alloc, &name, &table)
}

/// Seals a list of changes in the suite of its store.
pub fn seal_list(
    alloc: Global,
    keys: &Keys,
    suite: Suite,
    entries: &[Entry],
) -> Result<Vec<u8>, AllocError>
    requires list { IsList entries.now }
    requires values { AllByRecursion IsEntryValue entries.now }
    ensures sealed { IfOk result (λ bytes. IsSealedRecord (system_key keys.now) (list_name suite) (list_bytes entries.now) bytes.items) }
    ensures is_record { IfOk result (λ bytes. IsRecord keys.now bytes.items) }
    ensures size { IfOk result (λ bytes. length bytes.items ≡ record_length suite (16 + 72 * length entries.now)) }
{
    let list = write_list(alloc, entries)?;
    let name = Name {
        kind: LIST,
        suite,
        home: 0,
        rank: 0,
    };
    keys.seal_system(alloc, &name, &list)
}
