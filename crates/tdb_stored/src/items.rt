//! Lists of items in bytes, with and without their number in front.
ghost use Rattle.std.specs.Prelude.{◌≡◌, ◌<◌, ◌≤◌, ◌^◌, ◌++◌, ℕ, List, OnOk, IfOk, IfSome, IfNone, length};
ghost use Rattle.std.specs.List.{flat_map, AllByRecursion};
ghost use Rattle.std.specs.Int.{w32, to_be_bytes};
ghost use Rattle.tdb_class.specs.declared.universe.PickleError.TheVariants.{Form};
ghost use Rattle.tdb_stored.specs.Spelling.{IsList, counted_bytes};

use crate::spelled::Spelled;
use std::alloc::{AllocError, Global};
use tdb_base::{push_u32, split_u32};
use tdb_class::PickleError;

/// Each item is one of its type. It costs nothing.
pub fn known_items<T: Spelled>(items: &[T])
    ensures { AllByRecursion T.is_item items.now }
{
    for item in items {
        item.known();
    }
}

/// Appends the items, one after another.
pub fn push_items<T: Spelled>(bytes: &mut Vec<u8>, items: &[T]) -> Result<(), AllocError>
    ensures { OnOk result (bytes.new.items ≡ bytes.old.items ++ flat_map T.spelling items.now) }
{
    for item in items {
        item.push(bytes)?;
    }
    Ok(())
}

/// Appends the number of items, and the items.
pub fn push_counted<T: Spelled>(bytes: &mut Vec<u8>, items: &[T]) -> Result<(), AllocError>
    requires { length items.now < 2 ^ 32 }
    ensures { OnOk result (bytes.new.items ≡ bytes.old.items ++ counted_bytes T.spelling items.now) }
{
    push_u32(bytes, items.len() as u32)?;
    push_items(bytes, items)
}

/// Splits so many items off the front.
pub fn split_items<T: Spelled>(
    alloc: Global,
    count: usize,
    bytes: &[u8],
) -> Result<(Vec<T>, &[u8]), PickleError>
    ensures found { IfOk result (λ parts. AllByRecursion T.is_item parts.0.items × (length parts.0.items ≡ count)
        × (bytes.now ≡ flat_map T.spelling parts.0.items ++ parts.1.now)) }
    ensures form { result ≡ Err Form → (items : List T) (rest : List ℕ) → AllByRecursion T.is_item items → length items ≡ count
        → bytes.now ≡ flat_map T.spelling items ++ rest → ⊥ }
{
    let mut items = Vec::with_capacity(alloc, count)?;
    let mut rest = bytes;
    for _ in 0..count {
        let parts = match T::split(rest) {
            Some(parts) => parts,
            None => return Err(PickleError::Form),
        };
        items.push(parts.0)?;
        rest = parts.1;
    }
    Ok((items, rest))
}

/// Splits a number that is at most a limit off the front.
fn split_count(limit: usize, bytes: &[u8]) -> Option<(usize, &[u8])>
    requires { limit < 2 ^ 32 }
    ensures some { IfSome result (λ parts. (parts.0 ≤ limit) × (bytes.now ≡ to_be_bytes w32 parts.0 ++ parts.1.now)) }
    ensures none { IfNone result ((count : ℕ) (rest : List ℕ) → count ≤ limit → bytes.now ≡ to_be_bytes w32 count ++ rest → ⊥) }
{
    if bytes.len() < 4 {
        return None;
    }
    let (count, rest) = split_u32(bytes);
    let count = count as usize;
    if count <= limit {
        Some((count, rest))
    } else {
        None
    }
}

/// Splits at most so many items, behind their number, off the front.
pub fn split_counted<T: Spelled>(
    alloc: Global,
    limit: usize,
    bytes: &[u8],
) -> Result<(Vec<T>, &[u8]), PickleError>
    requires { limit < 2 ^ 32 }
    ensures found { IfOk result (λ parts. IsList T.is_item limit parts.0.items
        × (bytes.now ≡ counted_bytes T.spelling parts.0.items ++ parts.1.now)) }
    ensures form { result ≡ Err Form → (items : List T) (rest : List ℕ) → IsList T.is_item limit items
        → bytes.now ≡ counted_bytes T.spelling items ++ rest → ⊥ }
{
    match split_count(limit, bytes) {
        Some((count, rest)) => split_items(alloc, count, rest),
        None => Err(PickleError::Form),
    }
}

/// The items that the bytes are, at most so many and behind their number.
pub fn read_counted<T: Spelled>(
    alloc: Global,
    limit: usize,
    bytes: &[u8],
) -> Result<Vec<T>, PickleError>
    requires { limit < 2 ^ 32 }
    ensures found { IfOk result (λ items. IsList T.is_item limit items.items × (bytes.now ≡ counted_bytes T.spelling items.items)) }
    ensures only { IfOk result (λ found. (items : List T) → IsList T.is_item limit items
        → bytes.now ≡ counted_bytes T.spelling items → found.items ≡ items) }
    ensures form { result ≡ Err Form → (items : List T) → IsList T.is_item limit items → bytes.now ≡ counted_bytes T.spelling items → ⊥ }
{
    let (items, rest) = split_counted(alloc, limit, bytes)?;
    if rest.is_empty() {
        Ok(items)
    } else {
        Err(PickleError::Form)
    }
}

/// The items that the bytes are, so many.
pub fn read_items<T: Spelled>(
    alloc: Global,
    count: usize,
    bytes: &[u8],
) -> Result<Vec<T>, PickleError>
    ensures found { IfOk result (λ items. AllByRecursion T.is_item items.items × (length items.items ≡ count)
        × (bytes.now ≡ flat_map T.spelling items.items)) }
    ensures form { result ≡ Err Form → (items : List T) → AllByRecursion T.is_item items → length items ≡ count
        → bytes.now ≡ flat_map T.spelling items → ⊥ }
{
    let (items, rest) = split_items(alloc, count, bytes)?;
    if rest.is_empty() {
        Ok(items)
    } else {
        Err(PickleError::Form)
    }
}
