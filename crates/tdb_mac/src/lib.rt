//! Message authentication: HMAC with SHA-256 (FIPS 198-1), and the keys that are derived by it.
//!
//! It stands on `tdb_base` for keys, and on `sha2` for SHA-256 (FIPS 180-4). It promises that each
//! tag is the standard's formula, whether the text is handed in whole or in pieces and whether the
//! key was prepared or not. Every record's initial value, every commit text's tag and every key
//! below the secret comes from here: a changed byte makes each device written before unreadable.
#![tactic(auto)]

mod key;
mod mac;

pub use key::{PreparedKey, derive};
pub use mac::{Mac, hmac};
