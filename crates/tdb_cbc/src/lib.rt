// Cipher block chaining over AES (SP 800-38A section 6.2) with the padding of RFC 5652 section 6.3.
//
// Stands on tdb_aes. Carries the promise that what was sealed opens to the text that was sealed, and
// that each refusal says what was wrong. A change of a block, of the order or of the padding changes
// every record that is stored.
#![tactic(auto)]

mod blocks;
mod cbc;
mod error;
mod padding;

pub use cbc::{push_sealed, seal, unseal};
pub use error::CbcError;
