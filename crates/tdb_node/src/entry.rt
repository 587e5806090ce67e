//! One entry of 48 bytes: a piece, or none.
ghost use Rattle.std.specs.Prelude.{◌≡◌, ◌++◌, IfOk, IfErr, IfSome, OnOk, Option, length};
ghost use Rattle.tdb_base.specs.declared.piece.Piece.{Piece};
ghost use Rattle.tdb_base.specs.PieceBytes.{IsPieceValue, piece_bytes, entry_bytes};
ghost use Rattle.tdb_node.specs.declared.error.NodeError.TheVariants.{Form};
ghost use Rattle.tdb_node.specs.Node.{IsEntry, IsEntryValue};

use crate::error::NodeError;
use std::alloc::AllocError;
use tdb_base::{
    Digest, Piece, Place, push_bytes, push_u32, push_u64, split_bytes32, split_u32, split_u64,
};

/// The length of an entry in bytes.
pub(crate) const ENTRY_LENGTH: usize = 48;

/// The length of an entry behind its number.
const PIECE_LENGTH: usize = 44;

fn push_piece(bytes: &mut Vec<u8>, piece: &Piece) -> Result<(), AllocError>
    ensures value { OnOk result (IsPieceValue piece.now) }
    ensures spelled { OnOk result (bytes.new.items ≡ bytes.old.items ++ piece_bytes piece.now) }
{
    push_u32(bytes, piece.length)?;
    push_u64(bytes, piece.place.0)?;
    push_bytes(bytes, &piece.digest.0)?;
    Ok(())
}

/// Appends the spelling of an entry.
pub(crate) fn push_entry(bytes: &mut Vec<u8>, entry: &Option<Piece>) -> Result<(), AllocError>
    ensures value { OnOk result (IsEntryValue entry.now) }
    ensures spelled { OnOk result (bytes.new.items ≡ bytes.old.items ++ entry_bytes entry.now) }
{
    match entry {
        None => {
            push_bytes(bytes, &[0; ENTRY_LENGTH])?;
        }
        Some(piece) => {
            push_u32(bytes, 1)?;
            push_piece(bytes, piece)?;
        }
    }
    Ok(())
}

fn piece_of(bytes: &[u8]) -> Piece
    requires { length bytes.now ≡ 44 }
    ensures value { IsPieceValue result }
    ensures spelled { bytes.now ≡ piece_bytes result }
{
    let (length, rest) = split_u32(bytes);
    let (place, rest) = split_u64(rest);
    let (digest, _) = split_bytes32(rest);
    Piece {
        place: Place(place),
        length,
        digest: Digest(digest),
    }
}

/// The entry that the bytes spell.
pub(crate) fn read_entry(bytes: &[u8]) -> Result<Option<Piece>, NodeError>
    requires { length bytes.now ≡ 48 }
    ensures found { IfOk result (λ entry. IsEntryValue entry × IsEntry entry × (bytes.now ≡ entry_bytes entry)) }
    ensures form { IfErr result (λ error. (error ≡ Form)
        × ((entry : Option Piece) → IsEntryValue entry → IsEntry entry → bytes.now ≡ entry_bytes entry → ⊥)) }
{
    let (number, rest) = split_u32(bytes);
    if number == 0 && rest == [0; PIECE_LENGTH].as_slice() {
        return Ok(None);
    }
    let piece = piece_of(rest);
    if number == 1 && piece.lies_in_one_segment() {
        Ok(Some(piece))
    } else {
        Err(NodeError::Form)
    }
}
