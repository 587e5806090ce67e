//! Fields at places in bytes: numbers, most significant byte first, and strings of bytes.
ghost use Rattle.std.specs.Prelude.{◌≡◌, ◌+◌, ◌<◌, ◌≤◌, ◌++◌, ◌↔◌, length, length as list_length, take, drop, IsNone};
ghost use Rattle.std.specs.Prelude.{IfSome, OnErr, is_ok, if◌then◌else◌, vec_len, vec_capacity};
ghost use Rattle.std.specs.Int.{w32, w64, from_be_bytes, to_be_bytes};

use std::alloc::AllocError;

/// The bytes of a field, or `None` where fewer stand there.
pub fn take_bytes(bytes: &[u8], at: usize, length: usize) -> Option<&[u8]>
    ensures some { IfSome result (λ field. field.now ≡ take length (drop at bytes.now)) }
    ensures none { IsNone result ↔ (list_length bytes.now < at + length) }
{
    bytes.get(at..at.checked_add(length)?)
}

/// A number of four bytes, or `None` where fewer stand there.
pub fn take_u32(bytes: &[u8], at: usize) -> Option<u32>
    ensures some { IfSome result (λ number. number ≡ from_be_bytes w32 (take 4 (drop at bytes.now))) }
    ensures none { IsNone result ↔ (length bytes.now < at + 4) }
{
    match at.checked_add(4) {
        Some(end) if end <= bytes.len() => Some(u32_at(bytes, at)),
        _ => None,
    }
}

/// A number of eight bytes, or `None` where fewer stand there.
pub fn take_u64(bytes: &[u8], at: usize) -> Option<u64>
    ensures some { IfSome result (λ number. number ≡ from_be_bytes w64 (take 8 (drop at bytes.now))) }
    ensures none { IsNone result ↔ (length bytes.now < at + 8) }
{
    match at.checked_add(8) {
        Some(end) if end <= bytes.len() => Some(u64_at(bytes, at)),
        _ => None,
    }
}

/// The number of four bytes at a place.
pub fn u32_at(bytes: &[u8], at: usize) -> u32
    requires { at + 4 ≤ length bytes.now }
    ensures { result ≡ from_be_bytes w32 (take 4 (drop at bytes.now)) }
{
    u32::from_be_bytes([bytes[at], bytes[at + 1], bytes[at + 2], bytes[at + 3]])
}

/// The number of eight bytes at a place.
pub fn u64_at(bytes: &[u8], at: usize) -> u64
    requires { at + 8 ≤ length bytes.now }
    ensures { result ≡ from_be_bytes w64 (take 8 (drop at bytes.now)) }
{
    u64::from_be_bytes([
        bytes[at],
        bytes[at + 1],
        bytes[at + 2],
        bytes[at + 3],
        bytes[at + 4],
        bytes[at + 5],
        bytes[at + 6],
        bytes[at + 7],
    ])
}

/// The 32 bytes at a place, as of a digest.
pub fn bytes32_at(bytes: &[u8], at: usize) -> [u8; 32]
    requires { at + 32 ≤ length bytes.now }
    ensures { result ≡ take 32 (drop at bytes.now) }
{
    let mut field = [0; 32];
    field.copy_from_slice(&bytes[at..at + 32]);
    field
}

/// Writes a field at a place.
pub fn put_bytes(text: &mut [u8], at: usize, field: &[u8])
    requires { at + length field.now ≤ length text.old }
    ensures front { take (at + length field.now) text.new ≡ take at text.old ++ field.now }
    ensures behind { drop (at + length field.now) text.new ≡ drop (at + length field.now) text.old }
{
    text[at..at + field.len()].copy_from_slice(field);
}

/// Writes 32 bytes at a place.
pub fn put_bytes32(text: &mut [u8], at: usize, field: &[u8; 32])
    requires { at + 32 ≤ length text.old }
    ensures front { take (at + 32) text.new ≡ take at text.old ++ field.now }
    ensures behind { drop (at + 32) text.new ≡ drop (at + 32) text.old }
{
    put_bytes(text, at, field);
}

/// Writes a number in four bytes at a place.
pub fn put_u32(text: &mut [u8], at: usize, number: u32)
    requires { at + 4 ≤ length text.old }
    ensures front { take (at + 4) text.new ≡ take at text.old ++ to_be_bytes w32 number }
    ensures behind { drop (at + 4) text.new ≡ drop (at + 4) text.old }
{
    put_bytes(text, at, &number.to_be_bytes());
}

/// Writes a number in eight bytes at a place.
pub fn put_u64(text: &mut [u8], at: usize, number: u64)
    requires { at + 8 ≤ length text.old }
    ensures front { take (at + 8) text.new ≡ take at text.old ++ to_be_bytes w64 number }
    ensures behind { drop (at + 8) text.new ≡ drop (at + 8) text.old }
{
    put_bytes(text, at, &number.to_be_bytes());
}

/// Appends a field. It can fail only where the vector has too little capacity.
pub fn push_bytes(text: &mut Vec<u8>, field: &[u8]) -> Result<(), AllocError>
    ensures items { text.new.items ≡ (if is_ok result then text.old.items ++ field.now else text.old.items) }
    ensures full { OnErr result (vec_capacity text.old < vec_len text.old + length field.now) }
{
    text.extend_from_slice(field)
}

/// Appends a number in four bytes. It can fail only where the vector has too little capacity.
pub fn push_u32(text: &mut Vec<u8>, number: u32) -> Result<(), AllocError>
    ensures items { text.new.items ≡ (if is_ok result then text.old.items ++ to_be_bytes w32 number else text.old.items) }
    ensures full { OnErr result (vec_capacity text.old < vec_len text.old + 4) }
{
    text.extend_from_slice(&number.to_be_bytes())
}

/// Appends a number in eight bytes. It can fail only where the vector has too little capacity.
pub fn push_u64(text: &mut Vec<u8>, number: u64) -> Result<(), AllocError>
    ensures items { text.new.items ≡ (if is_ok result then text.old.items ++ to_be_bytes w64 number else text.old.items) }
    ensures full { OnErr result (vec_capacity text.old < vec_len text.old + 8) }
{
    text.extend_from_slice(&number.to_be_bytes())
}
