//! Items of lists in bytes, each of which says where it ends.
ghost use Rattle.std.specs.Prelude.{◌≡◌, ◌<◌, ◌≤◌, ◌^◌, ◌++◌, ℕ, List, OnOk, IfSome, IfNone, length};
ghost use Rattle.std.specs.Int.{w32, to_be_bytes};
ghost use Rattle.tdb_stored.specs.SpellingLaws.{one_rank};

use std::alloc::AllocError;
use tdb_base::{push_u32, split_u32};

/// What is written in bytes that no other item's bytes begin with.
pub trait Spelled: Copy + Drop {
    /// Holds of the values of the type.
    ghost is_item: { Self → Type 0 };

    /// The bytes of an item.
    ghost spelling: { Self → List ℕ };

    /// The value is one of the type. It costs nothing.
    fn known(&self)
        ensures { is_item self.now };

    /// Appends the bytes of the item.
    fn push(&self, bytes: &mut Vec<u8>) -> Result<(), AllocError>
        ensures { OnOk result (bytes.new.items ≡ bytes.old.items ++ spelling self.now) };

    /// Splits an item off the front, or answers `None` where no item stands there.
    fn split(bytes: &[u8]) -> Option<(Self, &[u8])>
        ensures some { IfSome result (λ parts. is_item parts.0 × (bytes.now ≡ spelling parts.0 ++ parts.1.now)) }
        ensures none { IfNone result ((item : Self) (rest : List ℕ) → is_item item → bytes.now ≡ spelling item ++ rest → ⊥) };

    /// One item stands at the front of bytes.
    ghost one_item: { (x y : Self) (r s : List ℕ) → is_item x → is_item y → spelling x ++ r ≡ spelling y ++ s → (x ≡ y) × (r ≡ s) };
}

/// A rank, in four bytes.
impl Spelled for u32 {
    ghost is_item = { λ rank. rank < 2 ^ 32 };

    ghost spelling = { to_be_bytes w32 };

    ghost one_item = { one_rank };

    fn known(&self) {
        let _rank = *self;
    }

    fn push(&self, bytes: &mut Vec<u8>) -> Result<(), AllocError> {
        push_u32(bytes, *self)
    }

    fn split(bytes: &[u8]) -> Option<(u32, &[u8])> {
        if bytes.len() < 4 {
            None
        } else {
            Some(split_u32(bytes))
        }
    }
}
