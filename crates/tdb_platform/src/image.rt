// Writes to the bytes of a device.
ghost use Rattle.std.specs.Prelude.{◌≡◌, ◌+◌, ◌≤◌, ◌++◌, length, take, drop, OnOk, OnErr};
ghost use Rattle.tdb_platform.specs.Image.{overwritten, written_over};

use std::alloc::AllocError;

// Puts a piece in place of the bytes from a place on.
fn put(image: &mut [u8], at: usize, piece: &[u8])
    requires { at + length piece.now ≤ length image.old }
    ensures { image.new ≡ take at image.old ++ piece.now ++ drop (at + length piece.now) image.old }
{
    image[at..at + piece.len()].copy_from_slice(piece);
}

/// Writes a piece, with one byte all over a gap before it. Without memory the image stays.
pub fn write_over(image: &mut Vec<u8>, at: usize, piece: &[u8], gap: u8) -> Result<(), AllocError>
    ensures ok { OnOk result (image.new.items ≡ written_over gap image.old.items at piece.now) }
    ensures err { OnErr result (image.new.items ≡ image.old.items) }
{
    let Some(end) = at.checked_add(piece.len()) else {
        return Err(AllocError);
    };
    image.resize(end.max(image.len()), gap)?;
    put(image, at, piece);
    Ok(())
}

/// Writes a piece, with zero bytes in a gap before it. Without memory the image stays.
pub fn overwrite(image: &mut Vec<u8>, at: usize, piece: &[u8]) -> Result<(), AllocError>
    ensures ok { OnOk result (image.new.items ≡ overwritten image.old.items at piece.now) }
    ensures err { OnErr result (image.new.items ≡ image.old.items) }
{
    write_over(image, at, piece, 0)
}
