//! Decimal numbers, each with one spelling.
ghost use Rattle.std.specs.Prelude.{◌≡◌, ◌<◌, ◌^◌, ◌++◌, ℕ, decimal, IfSome, IfNone, is_ok, if◌then◌else◌};

use itoa::Buffer;
use std::alloc::AllocError;

/// The number whose decimal digits a word is. A sign, a leading zero, another byte, no digit at
/// all, and a number of 2^64 or more are refused.
pub fn read_decimal(word: &[u8]) -> Option<u64>
    ensures found { IfSome result (λ number. word.now ≡ decimal number) }
    ensures none { IfNone result ((number : ℕ) → number < 2 ^ 64 → word.now ≡ decimal number → ⊥) }
{
    let Ok(text) = str::from_utf8(word) else {
        return None;
    };
    let Ok(number) = text.parse::<u64>() else {
        return None;
    };
    if Buffer::new().format(number) == text {
        Some(number)
    } else {
        None
    }
}

/// Appends the decimal digits of a number.
pub fn push_decimal(text: &mut Vec<u8>, number: u64) -> Result<(), AllocError>
    ensures { text.new.items ≡ (if is_ok result then text.old.items ++ decimal number else text.old.items) }
{
    text.extend_from_slice(Buffer::new().format(number).as_bytes())
}
