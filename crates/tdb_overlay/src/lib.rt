//! What an open log is: the definitions of a well-formed log and of what it needs on the device, and
//! the partitions as its change lists tell them.
//!
//! It stands on the formats and on the state of the database. Every promise on what a later run
//! finds is stated in its words: `specs/` says which bytes of a trace are a store, and which are
//! damage. What is changed there changes what each of those promises means.
#![tactic(auto)]

mod batch;
mod fetching;
mod kept;
mod keys;
mod laws;
mod layer;
mod overlay;
mod pieces;
mod record_keys;
mod records;
mod recovered;
mod runs;
mod text;

pub use batch::{Batch, LayError};
pub use fetching::{FetchError, fetch, fetch_text};
pub use keys::Keys;
pub use laws::{
    intact_by_required, log_extends, log_is_one, log_stays, log_tells_its_state,
    placing_spares_required,
};
pub use overlay::{Leader, Overlay, Reserved, Seen};
pub use pieces::DevicePieces;
pub use records::{seal_list, seal_table};
pub use recovered::{BaseTree, Recovered};
pub use runs::{put_is_a_step, runs_join, runs_keep};
pub use text::put_commit;
