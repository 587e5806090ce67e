//! The end of a stream: the tag of all bytes before it.
ghost use Rattle.std.specs.Prelude.{◌≡◌, IfSome, IfNone, length};
ghost use Rattle.tdb_base.specs.declared.piece.Digest.{Digest};
ghost use Rattle.tdb_bakfmt.specs.End.{end_bytes};

use tdb_base::{Digest, bytes32_at, put_bytes32, put_u32, u32_at};

/// The number that an end begins with.
const END: u32 = 3;

/// The number of bytes of an end.
pub const END_LENGTH: usize = 36;

/// The one spelling of an end.
pub fn write_end(tag: &Digest) -> [u8; 36]
    ensures { result ≡ end_bytes tag.now }
{
    let mut text = [0; END_LENGTH];
    put_u32(&mut text, 0, END);
    put_bytes32(&mut text, 4, &tag.0);
    text
}

/// The tag of the end that the bytes spell. Bytes of any length may be asked.
pub fn read_end(bytes: &[u8]) -> Option<Digest>
    ensures found { IfSome result (λ tag. bytes.now ≡ end_bytes tag) }
    ensures none { IfNone result ((tag : Digest) → length tag.0 ≡ 32 → bytes.now ≡ end_bytes tag → ⊥) }
{
    if bytes.len() != END_LENGTH || u32_at(bytes, 0) != END {
        return None;
    }
    Some(Digest(bytes32_at(bytes, 4)))
}
