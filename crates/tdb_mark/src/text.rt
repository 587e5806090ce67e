//! The text of a commit: written, read, and marked.
ghost use Rattle.std.specs.Prelude.{◌≡◌, IfSome, IfNone, length, take};
ghost use Rattle.sha2.specs.Sha256.{sha256};
ghost use Rattle.tdb_base.specs.declared.suite.Suite.{Suite};
ghost use Rattle.tdb_mark.specs.declared.commit.Commit.{Commit};
ghost use Rattle.tdb_mark.specs.CommitFormat.{IsInFormat, IsCommitValue};
ghost use Rattle.tdb_mark.specs.CommitText.{commit_key_of, commit_fields, commit_text, IsCommitText, commit_from, commit_of};

use crate::commit::Commit;
use sha2::Sha256;
use tdb_base::{
    Digest, Key, Suite, bytes32_at, entry_at, piece_at, put_bytes, put_bytes32, put_entry,
    put_piece, put_u32, put_u64, u32_at, u64_at,
};
use tdb_mac::{PreparedKey, derive};

const MAGIC: [u8; 8] = *b"TDBCMT01";

/// The number of bytes of a commit text.
const TEXT_LENGTH: usize = 256;

/// The key of the commit texts' tags, which is derived from the secret.
pub fn commit_key(secret: &[u8; 32]) -> Key
    ensures { result.0 ≡ commit_key_of secret.now }
{
    derive(secret, b"TDBcommt", 0, 0)
}

/// The text of a commit under a prepared key.
pub fn write_commit_with(commit: &Commit, key: &PreparedKey) -> [u8; 256]
    requires { IsInFormat commit.now }
    ensures { result ≡ commit_text key.now commit.now }
{
    spell(commit, key)
}

/// The text of a commit under a key.
pub fn write_commit(commit: &Commit, key: &Key) -> [u8; 256]
    requires { IsInFormat commit.now }
    ensures { result ≡ commit_text key.now.0 commit.now }
{
    write_commit_with(commit, &PreparedKey::new(key))
}

/// The commit whose text the bytes are under a prepared key.
pub fn read_commit_with(bytes: &[u8], key: &PreparedKey) -> Option<Commit>
    ensures found { IfSome result (λ commit. IsCommitText key.now bytes.now commit) }
    ensures none { IfNone result ((commit : Commit) → IsCommitValue commit → IsCommitText key.now bytes.now commit → ⊥) }
    ensures value { result ≡ commit_of key.now bytes.now }
{
    read(bytes, key)
}

/// The commit whose text the bytes are under a key. Bytes of any length may be asked.
pub fn read_commit(bytes: &[u8], key: &Key) -> Option<Commit>
    ensures found { IfSome result (λ commit. IsCommitText key.now.0 bytes.now commit) }
    ensures none { IfNone result ((commit : Commit) → IsCommitValue commit → IsCommitText key.now.0 bytes.now commit → ⊥) }
    ensures value { result ≡ commit_of key.now.0 bytes.now }
{
    read_commit_with(bytes, &PreparedKey::new(key))
}

/// The mark of a commit text, which the anchor and the next text hold.
pub fn mark(text: &[u8; 256]) -> Digest
    ensures { result.0 ≡ sha256 text.now }
{
    Digest(<Sha256 as sha2::Digest>::digest(text))
}

// Writes all but the tag.
fn put_fields(text: &mut [u8; 256], commit: &Commit)
    ensures { take 224 text.new ≡ commit_fields commit.now }
{
    put_bytes(text, 0, &MAGIC);
    put_u32(text, 8, commit.kind);
    put_u32(text, 12, commit.suite.number());
    put_u64(text, 16, commit.count);
    put_bytes32(text, 24, &commit.prev.0);
    put_u64(text, 56, commit.base);
    put_u32(text, 64, commit.segments);
    put_piece(text, 68, &commit.first);
    put_entry(text, 112, &commit.root);
    put_bytes(text, 160, &[0; 64]);
}

fn spell(commit: &Commit, key: &PreparedKey) -> [u8; 256]
    ensures { result ≡ commit_text key.now commit.now }
{
    let mut text = [0; TEXT_LENGTH];
    put_fields(&mut text, commit);
    let tag = key.tag(&text[..224]);
    put_bytes32(&mut text, 224, &tag);
    text
}

fn fields_at(bytes: &[u8], suite: Suite) -> Commit
    requires { length bytes.now ≡ 256 }
    ensures { result ≡ commit_from bytes.now suite }
{
    Commit {
        kind: u32_at(bytes, 8),
        suite,
        count: u64_at(bytes, 16),
        prev: Digest(bytes32_at(bytes, 24)),
        base: u64_at(bytes, 56),
        segments: u32_at(bytes, 64),
        first: piece_at(bytes, 68),
        root: entry_at(bytes, 112),
    }
}

// Reads the fields, spells them again and compares, so that each byte of the text is looked at.
fn read(bytes: &[u8], key: &PreparedKey) -> Option<Commit>
    ensures { result ≡ commit_of key.now bytes.now }
{
    if bytes.len() != TEXT_LENGTH {
        return None;
    }
    let Some(suite) = Suite::of_number(u32_at(bytes, 12)) else {
        return None;
    };
    let commit = fields_at(bytes, suite);
    if !commit.is_in_format() {
        return None;
    }
    if spell(&commit, key).as_slice() == bytes {
        Some(commit)
    } else {
        None
    }
}
