//! Fields split off the front of bytes, so that a reader goes over a format field by field.
ghost use Rattle.std.specs.Prelude.{◌≡◌, ◌≤◌, ◌++◌, length};
ghost use Rattle.std.specs.Int.{w32, w64, to_be_bytes};

/// Splits a number of four bytes off the front.
pub fn split_u32(bytes: &[u8]) -> (u32, &[u8])
    requires { 4 ≤ length bytes.now }
    ensures { bytes.now ≡ to_be_bytes w32 result.0 ++ result.1.now }
{
    let (front, rest) = bytes.split_at(4);
    let number = u32::from_be_bytes([front[0], front[1], front[2], front[3]]);
    (number, rest)
}

/// Splits a number of eight bytes off the front.
pub fn split_u64(bytes: &[u8]) -> (u64, &[u8])
    requires { 8 ≤ length bytes.now }
    ensures { bytes.now ≡ to_be_bytes w64 result.0 ++ result.1.now }
{
    let (front, rest) = bytes.split_at(8);
    let number = u64::from_be_bytes([
        front[0], front[1], front[2], front[3], front[4], front[5], front[6], front[7],
    ]);
    (number, rest)
}

/// Splits 32 bytes off the front, as of a digest.
pub fn split_bytes32(bytes: &[u8]) -> ([u8; 32], &[u8])
    requires { 32 ≤ length bytes.now }
    ensures { bytes.now ≡ result.0 ++ result.1.now }
{
    let (front, rest) = bytes.split_at(32);
    let mut field = [0; 32];
    field.copy_from_slice(front);
    (field, rest)
}
