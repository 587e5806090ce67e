// The padding of a last block.

ghost use Rattle.std.specs.Prelude.{◌≡◌, ◌≢◌, ℕ, ◌-◌, ◌<◌, ◌≤◌, ◌++◌, MatchOption, drop, length, replicate, slice_index};
ghost use Rattle.tdb_cbc.specs.LastBlock.{EndsInPadding};

// What is left of a text after its whole blocks, with the padding.
pub(crate) fn padded_block(rest: &[u8]) -> [u8; 16]
    requires { length rest.now < 16 }
    ensures { result ≡ rest.now ++ replicate (16 - length rest.now) (16 - length rest.now) }
{
    let mut block = [(16 - rest.len()) as u8; 16];
    block[..rest.len()].copy_from_slice(rest);
    block
}

// The number of bytes of padding at the end of a block, where it ends in one.
pub(crate) fn padding_of(block: &[u8; 16]) -> Option<usize>
    ensures { MatchOption result ((n : ℕ) → EndsInPadding block.now n → ⊥) (EndsInPadding block.now) }
{
    let last = block[15];
    let length = last as usize;
    if length == 0 || length > 16 {
        return None;
    }
    for i in 16 - length..16 {
        if block[i] != last {
            return None;
        }
    }
    Some(length)
}
