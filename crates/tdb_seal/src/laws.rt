//! Laws of sealed records.
ghost use Rattle.std.specs.Prelude.{◌≡◌, ◌+◌, ℕ, List, length};
ghost use Rattle.tdb_seal.specs.declared.record.Name.{Name};
ghost use Rattle.tdb_seal.specs.SealedRecord.{IsSealedRecord, body_length};

/// Two plain texts never share a record under one key and one name.
pub fn record_has_one_plain_text()
    ensures { (key : List ℕ) (name : Name) (one other bytes : List ℕ) → IsSealedRecord key name one bytes
        → IsSealedRecord key name other bytes → one ≡ other }
{}

/// A record is a function of key, name and plain text.
pub fn plain_text_has_one_record()
    ensures { (key : List ℕ) (name : Name) (plain one other : List ℕ) → IsSealedRecord key name plain one
        → IsSealedRecord key name plain other → one ≡ other }
{}

/// How long a record is: 48 bytes and the body, which is the plain text or its whole blocks with the
/// padding.
pub fn record_length_is_of_its_suite()
    ensures { (key : List ℕ) (name : Name) (plain bytes : List ℕ) → IsSealedRecord key name plain bytes
        → length bytes ≡ 48 + body_length name.suite (length plain) }
{}
