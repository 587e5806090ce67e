// Blocks of 16 bytes.

ghost use Rattle.std.specs.Prelude.{◌≡◌, ◌+◌, ◌*◌, ◌≤◌, length};
ghost use Rattle.tdb_cbc.specs.Blocks.{block, xor_bytes};

// Block `j` of a text.
#[inline(always)]
pub(crate) fn block_at(text: &[u8], j: usize) -> [u8; 16]
    requires { 16 * j + 16 ≤ length text.now }
    ensures { result ≡ block text.now j }
{
    let mut block = [0; 16];
    block.copy_from_slice(&text[16 * j..16 * j + 16]);
    block
}

// The exclusive or of two blocks.
#[inline(always)]
pub(crate) fn xor_blocks(mut a: [u8; 16], b: &[u8; 16]) -> [u8; 16]
    ensures { result ≡ xor_bytes a b.now }
{
    for i in 0..16 {
        a[i] ^= b[i];
    }
    a
}
