// What the reference reads records and texts by: tags, keys, and the fields of bytes.
use sha2::{Digest, Sha256};
use std::alloc::{AllocError, Global};

/// A key of a secret, by its label and two numbers.
pub(crate) fn derived_key(
    alloc: Global,
    secret: &[u8],
    label: &[u8; 8],
    a: u64,
    b: u64,
) -> Result<[u8; 32], AllocError> {
    let mut text = label.to_vec(alloc)?;
    text.extend_from_slice(&a.to_be_bytes())?;
    text.extend_from_slice(&b.to_be_bytes())?;
    hmac(alloc, secret, &text)
}

/// The tag of a text: H((key xor 5c..) (H((key xor 36..) text))), the key filled up to 64 bytes by zeros. No key here
/// is longer.
pub(crate) fn hmac(alloc: Global, key: &[u8], text: &[u8]) -> Result<[u8; 32], AllocError> {
    let mut inner = padded(alloc, key, 0x36)?;
    inner.extend_from_slice(text)?;
    let mut outer = padded(alloc, key, 0x5c)?;
    outer.extend_from_slice(&Sha256::digest(&inner))?;
    Ok(Sha256::digest(&outer))
}

// The 64 bytes of a key, each exclusive or the pad.
fn padded(alloc: Global, key: &[u8], pad: u8) -> Result<Vec<u8>, AllocError> {
    let mut block = Vec::new(alloc);
    for at in 0..64 {
        block.push(key.get(at).copied().unwrap_or(0) ^ pad)?;
    }
    Ok(block)
}

/// The number whose bytes stand there, most significant first, eight at most.
pub(crate) fn number(bytes: &[u8], at: usize, length: usize) -> Option<u64> {
    let mut number = 0u64;
    for byte in bytes.get(at..at.checked_add(length)?)? {
        number = number.wrapping_mul(256).wrapping_add(u64::from(*byte));
    }
    Some(number)
}

/// Whether there are zeros from one place up to another.
pub(crate) fn is_zero(bytes: &[u8], from: usize, to: usize) -> bool {
    match bytes.get(from..to) {
        Some(field) => field.iter().all(|byte| *byte == 0),
        None => false,
    }
}

/// Whether a magic stands at the front.
pub(crate) fn starts_with(bytes: &[u8], magic: &[u8; 8]) -> bool {
    bytes.get(..8) == Some(magic.as_slice())
}

/// Whether a partition has this number.
pub(crate) fn is_partition(number: u64) -> bool {
    (1..=4095).contains(&number)
}

/// Whether a piece lies in one of the 4,096 segments, of which the first begins behind the ring of texts.
pub(crate) fn lies_in_one_segment(place: u64, length: u64) -> bool {
    let Some(end) = place.checked_add(length) else {
        return false;
    };
    length >= 1 && (1..=4096u64).any(|k| 262_144 * k <= place && end <= 262_144 * (k + 1))
}
