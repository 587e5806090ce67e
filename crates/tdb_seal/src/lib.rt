//! Sealed records: plain bytes under a name and a key, as they stand on the device.
//!
//! It stands on tdb_base for the fields, tdb_mac for initial vectors and cipher keys, and tdb_aes
//! and tdb_cbc for the body. It carries one promise: a record is a function of key, name and plain
//! text, the sealer gives it, and the reader answers the plain text exactly where the bytes are its
//! record under the name that was asked for. A reader that didn't compare the whole name would let
//! one record pass for another; another key or initial vector makes each record written unreadable.
#![tactic(auto)]

mod cipher;
mod key;
mod laws;
mod plain;
mod record;

pub use key::{RecordKey, read_record_with, seal_record_with};
pub use laws::{
    plain_text_has_one_record, record_has_one_plain_text, record_length_is_of_its_suite,
};
pub use record::{Name, PLAIN_LIMIT, SealError, read_record, seal_record};
