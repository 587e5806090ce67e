//! Pieces as fields: their length, place and digest in 44 bytes, and entries of 48 bytes.
ghost use Rattle.std.specs.Prelude.{◌≡◌, ◌+◌, ◌≤◌, ◌++◌, length, take, drop};
ghost use Rattle.tdb_base.specs.PieceBytes.{piece_bytes, entry_bytes, piece_from, entry_from};

use crate::fields::{bytes32_at, put_bytes, put_bytes32, put_u32, put_u64, u32_at, u64_at};
use crate::piece::{Digest, Piece, Place};

/// Writes a piece's length, place and digest at a place, in 44 bytes.
pub fn put_piece(text: &mut [u8], at: usize, piece: &Piece)
    requires { at + 44 ≤ length text.old }
    ensures front { take (at + 44) text.new ≡ take at text.old ++ piece_bytes piece.now }
    ensures behind { drop (at + 44) text.new ≡ drop (at + 44) text.old }
{
    put_u32(text, at, piece.length);
    put_u64(text, at + 4, piece.place.0);
    put_bytes32(text, at + 12, &piece.digest.0);
}

/// Writes an entry of 48 bytes at a place: the number 1 and a piece, or zeros where there is none.
pub fn put_entry(text: &mut [u8], at: usize, entry: &Option<Piece>)
    requires { at + 48 ≤ length text.old }
    ensures front { take (at + 48) text.new ≡ take at text.old ++ entry_bytes entry.now }
    ensures behind { drop (at + 48) text.new ≡ drop (at + 48) text.old }
{
    match entry {
        None => put_bytes(text, at, &[0; 48]),
        Some(piece) => {
            put_u32(text, at, 1);
            put_piece(text, at + 4, piece);
        }
    }
}

/// The piece whose length, place and digest are the 44 bytes at a place.
pub fn piece_at(bytes: &[u8], at: usize) -> Piece
    requires { at + 44 ≤ length bytes.now }
    ensures { result ≡ piece_from bytes.now at }
{
    Piece {
        length: u32_at(bytes, at),
        place: Place(u64_at(bytes, at + 4)),
        digest: Digest(bytes32_at(bytes, at + 12)),
    }
}

/// The piece that the entry at a place names, or `None` where its first four bytes aren't the
/// number 1. It doesn't look at the other bytes of an entry that names none.
pub fn entry_at(bytes: &[u8], at: usize) -> Option<Piece>
    requires { at + 48 ≤ length bytes.now }
    ensures { result ≡ entry_from bytes.now at }
{
    if u32_at(bytes, at) == 1 {
        Some(piece_at(bytes, at + 4))
    } else {
        None
    }
}
