//! The header of a stream: which backup it is.
ghost use Rattle.std.specs.Prelude.{◌≡◌, ◌↔◌, IsTrue, IfSome, IfNone, length};
ghost use Rattle.tdb_base.specs.declared.suite.Suite.{Suite};
ghost use Rattle.tdb_bakfmt.specs.declared.header.Header.{Header};
ghost use Rattle.tdb_bakfmt.specs.Header.{IsFull, IsIncremental, IsHeader, IsHeaderValue, header_bytes, header_from};

use tdb_base::{Suite, put_bytes, put_u32, put_u64, u32_at, u64_at};
use tdb_model::PARTITION_LIMIT;

const MAGIC: [u8; 8] = *b"TDBBAK01";

/// The number of bytes of a header.
pub const HEADER_LENGTH: usize = 48;

/// The kind of a backup that has each chunk of its part.
pub const FULL: u32 = 1;

/// The kind of a backup that has what differs from a base.
pub const INCREMENTAL: u32 = 2;

/// Which backup a stream is.
#[derive(Clone, Copy, Debug, PartialEq, Eq)]
pub struct Header {
    /// `FULL` or `INCREMENTAL`.
    pub kind: u32,
    /// How the records of the items are enciphered.
    pub suite: Suite,
    /// The number of the snapshot that was backed up, 1 to 4,095.
    pub part: u32,
    /// The count of the commit that made it, at least 1.
    pub born: u64,
    /// The number of the base; 0 in a full backup, else 1 to 4,095.
    pub base_part: u32,
    /// The count of the commit that made the base; 0 in a full backup, else at least 1.
    pub base_born: u64,
}

impl Header {
    /// Whether the fields are in the ranges of the format.
    pub fn is_in_format(&self) -> bool
        ensures { IsTrue result ↔ IsHeader self.now }
    {
        1 <= self.part
            && self.part <= PARTITION_LIMIT
            && 1 <= self.born
            && (self.is_full() || self.is_incremental())
    }

    fn is_full(&self) -> bool
        ensures { IsTrue result ↔ IsFull self.now }
    {
        self.kind == FULL && self.base_part == 0 && self.base_born == 0
    }

    fn is_incremental(&self) -> bool
        ensures { IsTrue result ↔ IsIncremental self.now }
    {
        self.kind == INCREMENTAL
            && 1 <= self.base_part
            && self.base_part <= PARTITION_LIMIT
            && 1 <= self.base_born
    }
}

/// The one spelling of a header.
pub fn write_header(header: &Header) -> [u8; 48]
    requires { IsHeader header.now }
    ensures { result ≡ header_bytes header.now }
{
    spell(header)
}

/// The header that the bytes spell. Bytes of any length may be asked.
pub fn read_header(bytes: &[u8]) -> Option<Header>
    ensures found { IfSome result (λ header. IsHeader header × (bytes.now ≡ header_bytes header)) }
    ensures none { IfNone result ((header : Header) → IsHeaderValue header → IsHeader header → bytes.now ≡ header_bytes header → ⊥) }
{
    if bytes.len() != HEADER_LENGTH {
        return None;
    }
    let Some(suite) = Suite::of_number(u32_at(bytes, 12)) else {
        return None;
    };
    let header = fields_at(bytes, suite);
    if !header.is_in_format() {
        return None;
    }
    if spell(&header).as_slice() == bytes {
        Some(header)
    } else {
        None
    }
}

fn fields_at(bytes: &[u8], suite: Suite) -> Header
    requires { length bytes.now ≡ 48 }
    ensures { result ≡ header_from bytes.now suite }
{
    Header {
        kind: u32_at(bytes, 8),
        suite,
        part: u32_at(bytes, 16),
        born: u64_at(bytes, 24),
        base_part: u32_at(bytes, 20),
        base_born: u64_at(bytes, 32),
    }
}

fn spell(header: &Header) -> [u8; 48]
    ensures { result ≡ header_bytes header.now }
{
    let mut text = [0; HEADER_LENGTH];
    put_bytes(&mut text, 0, &MAGIC);
    put_u32(&mut text, 8, header.kind);
    put_u32(&mut text, 12, header.suite.number());
    put_u32(&mut text, 16, header.part);
    put_u32(&mut text, 20, header.base_part);
    put_u64(&mut text, 24, header.born);
    put_u64(&mut text, 32, header.base_born);
    put_u64(&mut text, 40, 0);
    text
}
