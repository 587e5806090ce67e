//! A list of bytes that is owned.
ghost use Rattle.std.specs.Prelude.{◌≡◌, ◌==◌, length};

use std::marker::Model;

/// Bytes, which contracts see as their list. None of its methods takes memory.
#[derive(Debug, Drop)]
pub struct Bytes(Vec<u8>);

impl Model for Bytes {
    ghost use Rattle.std.specs.Prelude.{ℕ, List};

    ghost Value = { List ℕ };

    ghost view = { λ bytes. bytes.0.items };
}

impl From<Vec<u8>> for Bytes {
    ghost from_gives = { λ vec bytes. bytes ≡ vec.items };

    fn from(vec: Vec<u8>) -> Bytes {
        Bytes(vec)
    }
}

impl Bytes {
    /// The bytes of a vector.
    pub fn new(vec: Vec<u8>) -> Bytes
        ensures { result ≡ vec.items }
    {
        Bytes(vec)
    }

    /// Gives the vector back.
    pub fn into_vec(self) -> Vec<u8>
        ensures { result.items ≡ self }
    {
        self.0
    }

    /// The bytes in order.
    pub fn as_slice(&self) -> &[u8]
        ensures { result.now ≡ self.now }
    {
        self.0.as_slice()
    }

    /// How many bytes there are.
    pub fn len(&self) -> usize
        ensures { result ≡ length self.now }
    {
        self.0.len()
    }

    /// Whether there is no byte.
    pub fn is_empty(&self) -> bool
        ensures { result ≡ (length self.now == 0) }
    {
        self.0.is_empty()
    }
}
