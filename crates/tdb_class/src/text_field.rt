//! Short texts as fields of bytes: a length of four bytes, and the text.
ghost use Rattle.std.specs.Prelude.{◌≡◌, ◌≤◌, ◌++◌, ℕ, List, IfSome, IfNone, OnOk, length};
ghost use Rattle.tdb_class.specs.TextBytes.{text_bytes};
ghost use Rattle.tdb_class.specs.declared.short_text.TheConstants.{SHORT_TEXT_LIMIT};

use crate::short_text::ShortText;
use std::alloc::AllocError;
use tdb_base::{push_bytes, push_u32, split_u32};

/// Appends a text behind its length.
pub fn push_text(bytes: &mut Vec<u8>, text: &ShortText) -> Result<(), AllocError>
    ensures { OnOk result (bytes.new.items ≡ bytes.old.items ++ text_bytes text.now) }
{
    let text = text.bytes();
    push_u32(bytes, text.len() as u32)?;
    push_bytes(bytes, text)
}

/// Splits a text behind its length off the front, or answers `None` where no text of at most 32
/// bytes stands there.
pub fn split_text(bytes: &[u8]) -> Option<(ShortText, &[u8])>
    ensures some { IfSome result (λ parts. (length parts.0 ≤ SHORT_TEXT_LIMIT) × (bytes.now ≡ text_bytes parts.0 ++ parts.1.now)) }
    ensures none { IfNone result ((text rest : List ℕ) → length text ≤ SHORT_TEXT_LIMIT → bytes.now ≡ text_bytes text ++ rest → ⊥) }
{
    if bytes.len() < 4 {
        return None;
    }
    let (length, rest) = split_u32(bytes);
    let length = length as usize;
    if rest.len() < length {
        return None;
    }
    let (text, rest) = rest.split_at(length);
    Some((ShortText::new(text)?, rest))
}
