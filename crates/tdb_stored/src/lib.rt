//! What the chunks of a database of objects hold: members of collections, and the objects that
//! keep the collections and their indexes.
//!
//! It stands on tdb_class, whose laws it carries for the universe of all these forms over the
//! universe of an application, and on tdb_base. It carries one promise: each form is made exactly
//! within its ranges and orders, has one pickle, and is read from exactly that. Every index above
//! is kept in these forms, so one that was read out of order would lose entries.
#![tactic(auto)]

mod bucket;
mod catalog;
mod classes;
mod directory;
mod entries;
mod head;
mod inner;
mod items;
mod member;
mod node;
mod pair;
mod sorted;
mod spelled;
mod stored;

pub use bucket::{BUCKET_LIMIT, Bucket};
pub use catalog::{CATALOG_LIMIT, Catalog, Listed};
pub use directory::Directory;
pub use entries::Entries;
pub use head::{HEAD_LIMIT, Head, Indexed};
pub use inner::{Inner, NODE_LIMIT};
pub use member::Member;
pub use node::TreeNode;
pub use pair::{Pair, push_key};
pub use sorted::{SORTED_LIMIT, Sorted};
pub use stored::Stored;
