//! Laws of well-formed logs, over the definitions alone.
ghost use Rattle.std.specs.Prelude.{◌≡◌, ◌+◌, ◌≤◌, ◌++◌, ◌∷◌, [], ℕ, List, All, Ok};
ghost use Rattle.sha2.specs.Sha256.{sha256};
ghost use Rattle.tdb_append.specs.Placed.{Placed, with_all_written};
ghost use Rattle.tdb_append.specs.Put.{slot_place};
ghost use Rattle.tdb_base.specs.declared.piece.Piece.{Piece};
ghost use Rattle.tdb_base.specs.declared.piece.Place.{Place};
ghost use Rattle.tdb_base.specs.Trace.{Trace, WrittenPiece};
ghost use Rattle.tdb_mark.specs.declared.commit.Commit.{Commit};
ghost use Rattle.tdb_mark.specs.CommitText.{commit_key_of, commit_of};
ghost use Rattle.tdb_mark.specs.Unforged.{IsUnforged};
ghost use Rattle.tdb_model.specs.Apply.{History, state_of};
ghost use Rattle.tdb_platform.specs.Outside.{Anchor};
ghost use Rattle.tdb_seg.specs.SegmentSpace.{SegmentSpace, fits};
ghost use Rattle.tdb_overlay.specs.Found.{Store};
ghost use Rattle.tdb_overlay.specs.Images.{IsIntactIn};
ghost use Rattle.tdb_overlay.specs.Log.{IsLog};
ghost use Rattle.tdb_overlay.specs.NextText.{GoesOnWith, IsLaidText};
ghost use Rattle.tdb_overlay.specs.Required.{IsRequired};
ghost use Rattle.tdb_overlay.specs.RequiredPlaces.{AreClearOf, HasSameBytes, IsClearOf, IsWhereRequired};
ghost use Rattle.tdb_overlay.specs.SealedOnly.{IsRecord};
ghost use Rattle.tdb_overlay.specs.StoreState.{StoreState};
ghost use Rattle.tdb_overlay.specs.WellFormedLog.{IsWellFormedLog};

/// A log leads to the chunks that its history leads to.
pub fn log_tells_its_state()
    ensures { (written : List WrittenPiece) (store : Store) (anchor : Anchor) (history : History) (last : StoreState) →
        IsLog written store anchor history last → last.chunks ≡ state_of history }
{}

/// What is written later doesn't change the log of an anchor.
pub fn log_stays()
    ensures { (written more : List WrittenPiece) (store : Store) (anchor : Anchor) (history : History) (last : StoreState) →
        IsLog written store anchor history last → IsLog (written ++ more) store anchor history last }
{}

/// An anchor has one log under a secret: one history and one last state, and where there is a text, one store.
pub fn log_is_one()
    ensures { (written : List WrittenPiece) (store other : Store) (anchor : Anchor) (history more : History) (last end : StoreState) →
        store.secret ≡ other.secret → IsLog written store anchor history last → IsLog written other anchor more end →
        (history ≡ more) × (last ≡ end) × (1 ≤ anchor.0 → store ≡ other) }
{}

/// A log stays well formed as sealed records are written, and then its next text. Then it is well formed for the text too,
/// whose log has what the text adds.
pub fn log_extends()
    ensures records { (secret : List ℕ) (trace : Trace) (anchor : Anchor) (pieces : List Placed) →
        IsWellFormedLog trace.written secret anchor → All (λ p. IsRecord secret p.bytes) pieces →
        IsWellFormedLog (with_all_written trace pieces).written secret anchor }
    ensures text { (store : Store) (trace later : Trace) (anchor : Anchor) (text : List ℕ) (c : Commit)
        (pieces : List Placed) (added : History) →
        IsWellFormedLog trace.written store.secret anchor →
        IsLaidText store.secret text c pieces → GoesOnWith trace.written store anchor c pieces added →
        later ≡ with_all_written trace (pieces ++ record { place = slot_place c.count; bytes = text } ∷ []) →
        IsUnforged later (commit_of (commit_key_of store.secret)) →
        IsWellFormedLog later.written store.secret anchor
        × IsWellFormedLog later.written store.secret (c.count, sha256 text)
        × ((before : History) (from : StoreState) → IsLog trace.written store anchor before from →
        (to : StoreState) × IsLog later.written store (c.count, sha256 text) (before ++ added) to) }
{}

/// What a log needs stands in the slot of one of its last 1,001 texts, or where it was placed. So it has no byte in the slot of
/// the next count, nor where anything is placed after the log's last state.
pub fn placing_spares_required()
    ensures stands { (written : List WrittenPiece) (store : Store) (anchor : Anchor) (history : History) (last : StoreState)
        (piece : Piece) →
        IsLog written store anchor history last → IsRequired written store anchor piece → IsWhereRequired last piece }
    ensures slot { (written : List WrittenPiece) (store : Store) (anchor : Anchor) (history : History) (last : StoreState)
        (piece : Piece) →
        IsLog written store anchor history last → IsRequired written store anchor piece → IsClearOf piece (slot_place (anchor.0 + 1)) 256 }
    ensures places { (written : List WrittenPiece) (store : Store) (anchor : Anchor) (history : History) (last : StoreState)
        (piece : Piece) (lengths : List ℕ) (keep : ℕ) (places : List Place) (after : SegmentSpace) →
        IsLog written store anchor history last → IsRequired written store anchor piece →
        All (λ n. (1 ≤ n) × (n ≤ 262144)) lengths → fits last.space lengths keep ≡ Ok (places, after) → AreClearOf piece lengths places }
{}

/// Where an image is intact, so is each image with the same bytes at all that the log needs.
pub fn intact_by_required()
    ensures { (image other : List ℕ) (written : List WrittenPiece) (store : Store) (anchor : Anchor) →
        ((piece : Piece) → IsRequired written store anchor piece → HasSameBytes piece image other) →
        IsIntactIn image written store anchor → IsIntactIn other written store anchor }
{}
