// The tables as functions of a byte.

ghost use Rattle.std.specs.Prelude.{◌≡◌, [], ◌∷◌};
ghost use Rattle.std.specs.Int.{w32, from_be_bytes, to_be_bytes};
ghost use Rattle.tdb_aes.specs.Field.{product};
ghost use Rattle.tdb_aes.specs.MixColumns.{inverse_mix_polynomial, mix_polynomial, polynomial_product};
ghost use Rattle.tdb_aes.specs.SubBytes.{inverse_sub_byte, sub_byte};

use crate::tables::{
    COLUMN_0, COLUMN_1, COLUMN_2, COLUMN_3, INVERSE_COLUMN_0, INVERSE_COLUMN_1, INVERSE_COLUMN_2,
    INVERSE_COLUMN_3, INVERSE_S_BOX, S_BOX,
};

#[inline(always)]
pub(crate) fn substituted(byte: u8) -> u8
    ensures { result ≡ sub_byte byte }
{
    S_BOX[byte as usize]
}

#[inline(always)]
pub(crate) fn inverse_substituted(byte: u8) -> u8
    ensures { result ≡ inverse_sub_byte byte }
{
    INVERSE_S_BOX[byte as usize]
}

#[inline(always)]
fn column_0(byte: u8) -> u32
    ensures { to_be_bytes w32 result ≡ product 0x02 (sub_byte byte) ∷ product 0x01 (sub_byte byte)
        ∷ product 0x01 (sub_byte byte) ∷ product 0x03 (sub_byte byte) ∷ [] }
{
    COLUMN_0[byte as usize]
}

#[inline(always)]
fn column_1(byte: u8) -> u32
    ensures { to_be_bytes w32 result ≡ product 0x03 (sub_byte byte) ∷ product 0x02 (sub_byte byte)
        ∷ product 0x01 (sub_byte byte) ∷ product 0x01 (sub_byte byte) ∷ [] }
{
    COLUMN_1[byte as usize]
}

#[inline(always)]
fn column_2(byte: u8) -> u32
    ensures { to_be_bytes w32 result ≡ product 0x01 (sub_byte byte) ∷ product 0x03 (sub_byte byte)
        ∷ product 0x02 (sub_byte byte) ∷ product 0x01 (sub_byte byte) ∷ [] }
{
    COLUMN_2[byte as usize]
}

#[inline(always)]
fn column_3(byte: u8) -> u32
    ensures { to_be_bytes w32 result ≡ product 0x01 (sub_byte byte) ∷ product 0x01 (sub_byte byte)
        ∷ product 0x03 (sub_byte byte) ∷ product 0x02 (sub_byte byte) ∷ [] }
{
    COLUMN_3[byte as usize]
}

#[inline(always)]
fn inverse_column_0(byte: u8) -> u32
    ensures { to_be_bytes w32 result ≡ product 0x0e (inverse_sub_byte byte) ∷ product 0x09 (inverse_sub_byte byte)
        ∷ product 0x0d (inverse_sub_byte byte) ∷ product 0x0b (inverse_sub_byte byte) ∷ [] }
{
    INVERSE_COLUMN_0[byte as usize]
}

#[inline(always)]
fn inverse_column_1(byte: u8) -> u32
    ensures { to_be_bytes w32 result ≡ product 0x0b (inverse_sub_byte byte) ∷ product 0x0e (inverse_sub_byte byte)
        ∷ product 0x09 (inverse_sub_byte byte) ∷ product 0x0d (inverse_sub_byte byte) ∷ [] }
{
    INVERSE_COLUMN_1[byte as usize]
}

#[inline(always)]
fn inverse_column_2(byte: u8) -> u32
    ensures { to_be_bytes w32 result ≡ product 0x0d (inverse_sub_byte byte) ∷ product 0x0b (inverse_sub_byte byte)
        ∷ product 0x0e (inverse_sub_byte byte) ∷ product 0x09 (inverse_sub_byte byte) ∷ [] }
{
    INVERSE_COLUMN_2[byte as usize]
}

#[inline(always)]
fn inverse_column_3(byte: u8) -> u32
    ensures { to_be_bytes w32 result ≡ product 0x09 (inverse_sub_byte byte) ∷ product 0x0d (inverse_sub_byte byte)
        ∷ product 0x0b (inverse_sub_byte byte) ∷ product 0x0e (inverse_sub_byte byte) ∷ [] }
{
    INVERSE_COLUMN_3[byte as usize]
}

// A column after SubBytes.
#[inline(always)]
pub(crate) fn substituted_word(a: u8, b: u8, c: u8, d: u8) -> u32
    ensures word { result ≡ from_be_bytes w32 (sub_byte a ∷ sub_byte b ∷ sub_byte c ∷ sub_byte d ∷ []) }
    ensures bytes { to_be_bytes w32 result ≡ sub_byte a ∷ sub_byte b ∷ sub_byte c ∷ sub_byte d ∷ [] }
{
    let column = [
        substituted(a),
        substituted(b),
        substituted(c),
        substituted(d),
    ];
    u32::from_be_bytes(column)
}

// A column after InvSubBytes.
#[inline(always)]
pub(crate) fn inverse_substituted_word(a: u8, b: u8, c: u8, d: u8) -> u32
    ensures { to_be_bytes w32 result
        ≡ inverse_sub_byte a ∷ inverse_sub_byte b ∷ inverse_sub_byte c ∷ inverse_sub_byte d ∷ [] }
{
    u32::from_be_bytes([
        inverse_substituted(a),
        inverse_substituted(b),
        inverse_substituted(c),
        inverse_substituted(d),
    ])
}

// A column after SubBytes and MixColumns.
#[inline(always)]
pub(crate) fn mixed_word(a: u8, b: u8, c: u8, d: u8) -> u32
    ensures { to_be_bytes w32 result
        ≡ polynomial_product mix_polynomial (sub_byte a ∷ sub_byte b ∷ sub_byte c ∷ sub_byte d ∷ []) }
{
    column_0(a) ^ column_1(b) ^ column_2(c) ^ column_3(d)
}

// A column after InvSubBytes and InvMixColumns.
#[inline(always)]
pub(crate) fn inverse_mixed_word(a: u8, b: u8, c: u8, d: u8) -> u32
    ensures { to_be_bytes w32 result
        ≡ polynomial_product inverse_mix_polynomial
        (inverse_sub_byte a ∷ inverse_sub_byte b ∷ inverse_sub_byte c ∷ inverse_sub_byte d ∷ []) }
{
    inverse_column_0(a) ^ inverse_column_1(b) ^ inverse_column_2(c) ^ inverse_column_3(d)
}
