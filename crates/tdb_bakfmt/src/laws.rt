//! Laws of the stream's grammar: each value has one spelling, and each spelling one value.
ghost use Rattle.std.specs.Prelude.{◌≡◌, ℕ, List};
ghost use Rattle.tdb_bakfmt.specs.declared.header.Header.{Header};
ghost use Rattle.tdb_bakfmt.specs.declared.item.Item.{Item};
ghost use Rattle.tdb_bakfmt.specs.Header.{IsHeader, IsHeaderValue, header_bytes};
ghost use Rattle.tdb_bakfmt.specs.Item.{IsItemText};

/// Two headers with one text are one.
pub fn header_has_one_text()
    ensures { (one other : Header) → IsHeaderValue one → IsHeader one → IsHeaderValue other → IsHeader other
        → header_bytes one ≡ header_bytes other → one ≡ other }
{}

/// An item is spelled in one way under a header and a key.
pub fn item_has_one_text()
    ensures { (header : Header) (key : List ℕ) (item : Item) (one other : List ℕ) → IsItemText header key item one
        → IsItemText header key item other → one ≡ other }
{}

/// Two items with one text under a header and a key are one.
pub fn bytes_are_one_item()
    ensures { (header : Header) (key : List ℕ) (one other : Item) (bytes : List ℕ) → IsItemText header key one bytes
        → IsItemText header key other bytes → one ≡ other }
{}
