//! Texts sealed and opened.

ghost use Rattle.std.specs.Prelude.{◌≡◌, ◌↔◌, ℕ, ◌+◌, ◌*◌, ◌/◌, ◌<◌, ◌≤◌, ◌++◌, List, IfOk, IsErrOf, OnErr, is_ok};
ghost use Rattle.std.specs.Prelude.{if◌then◌else◌, length, vec_capacity, vec_len};
ghost use Rattle.tdb_cbc.specs.Blocks.{joined};
ghost use Rattle.tdb_cbc.specs.Cbc.{plain_block};
ghost use Rattle.tdb_cbc.specs.Sealed.{HasNoWholeBlocks, Opens, sealed};

use crate::blocks::{block_at, xor_blocks};
use crate::error::CbcError;
use crate::padding::{padded_block, padding_of};
use std::alloc::{AllocError, Global};
use tdb_aes::Schedule;

/// The text padded to whole blocks and enciphered (SP 800-38A section 6.2, RFC 5652 section 6.3).
///
/// The initialization vector is no part of the result.
pub fn seal(
    alloc: Global,
    schedule: &Schedule,
    iv: &[u8; 16],
    plain: &[u8],
) -> Result<Vec<u8>, AllocError>
    ensures value { IfOk result (λ bytes. bytes.items ≡ sealed schedule.now iv.now plain.now) }
    ensures length { IfOk result (λ bytes. length bytes.items ≡ 16 * (length plain.now / 16 + 1)) }

    // The text is all that `unseal` can give for it.
    ensures opens { IfOk result (λ bytes. (text : List ℕ)
        → Opens schedule.now iv.now bytes.items text ↔ (text ≡ plain.now)) }
{
    let mut text = Vec::with_capacity(alloc, 16 * (plain.len() / 16) + 16)?;
    push_sealed(&mut text, schedule, iv, plain)?;
    Ok(text)
}

/// Appends what `seal` gives. It can fail only where the vector has too little capacity, and then
/// leaves it as it was.
pub fn push_sealed(
    text: &mut Vec<u8>,
    schedule: &Schedule,
    iv: &[u8; 16],
    plain: &[u8],
) -> Result<(), AllocError>
    ensures items { text.new.items
        ≡ (if is_ok result then text.old.items ++ sealed schedule.now iv.now plain.now else text.old.items) }
    ensures full { OnErr result (vec_capacity text.old < vec_len text.old + 16 * (length plain.now / 16 + 1)) }
{
    let whole = plain.len() / 16;
    text.reserve(16 * whole + 16)?;
    let mut previous = *iv;
    for j in 0..whole {
        let next = schedule.encrypt_block(xor_blocks(block_at(plain, j), &previous));
        text.extend_from_slice(&next)?;
        previous = next;
    }
    let last = schedule.encrypt_block(xor_blocks(padded_block(&plain[16 * whole..]), &previous));
    text.extend_from_slice(&last)?;
    Ok(())
}

/// The text that was sealed under this key and initialization vector.
///
/// Bytes that `seal` gave open to the text that it was given, and what opens to a text is what
/// `seal` gives for it.
pub fn unseal(
    alloc: Global,
    schedule: &Schedule,
    iv: &[u8; 16],
    bytes: &[u8],
) -> Result<Vec<u8>, CbcError>
    ensures value { IfOk result (λ plain. Opens schedule.now iv.now bytes.now plain.items) }
    ensures again { IfOk result (λ plain. bytes.now ≡ sealed schedule.now iv.now plain.items) }
    ensures shorter { IfOk result (λ plain. length plain.items < length bytes.now) }
    ensures length { IsErrOf result CbcError.Length ↔ HasNoWholeBlocks bytes.now }
    ensures padding { IsErrOf result CbcError.Padding
        ↔ ((HasNoWholeBlocks bytes.now → ⊥) × ((text : List ℕ) → Opens schedule.now iv.now bytes.now text → ⊥)) }
{
    if bytes.is_empty() || bytes.len() % 16 != 0 {
        return Err(CbcError::Length);
    }
    let last = bytes.len() / 16 - 1;
    let end = opened_block(schedule, iv, bytes, last);
    let Some(padding) = padding_of(&end) else {
        return Err(CbcError::Padding);
    };
    let plain = opened_text(alloc, schedule, iv, bytes, last, &end[..16 - padding])?;
    Ok(plain)
}

// The first `count` blocks of the bytes, deciphered, and then `rest`.
fn opened_text(
    alloc: Global,
    schedule: &Schedule,
    iv: &[u8; 16],
    bytes: &[u8],
    count: usize,
    rest: &[u8],
) -> Result<Vec<u8>, AllocError>
    requires whole { 16 * count + 16 ≤ length bytes.now }
    requires short { length rest.now ≤ 16 }
    ensures { IfOk result (λ plain. plain.items
        ≡ joined (plain_block schedule.now iv.now bytes.now) count ++ rest.now) }
{
    let mut plain = Vec::with_capacity(alloc, 16 * count + rest.len())?;
    for j in 0..count {
        plain.extend_from_slice(&opened_block(schedule, iv, bytes, j))?;
    }
    plain.extend_from_slice(rest)?;
    Ok(plain)
}

// Block `j` of the bytes, deciphered.
#[inline(always)]
fn opened_block(schedule: &Schedule, iv: &[u8; 16], bytes: &[u8], j: usize) -> [u8; 16]
    requires { 16 * j + 16 ≤ length bytes.now }
    ensures { result ≡ plain_block schedule.now iv.now bytes.now j }
{
    let opened = schedule.decrypt_block(block_at(bytes, j));
    if j == 0 {
        xor_blocks(opened, iv)
    } else {
        xor_blocks(opened, &block_at(bytes, j - 1))
    }
}
