//! Laws of checkpoints that are laid, over the definitions alone.
ghost use Rattle.std.specs.Prelude.{[], ℕ, List};
ghost use Rattle.tdb_append.specs.Placed.{Placed};
ghost use Rattle.tdb_mark.specs.declared.commit.Commit.{Commit};
ghost use Rattle.tdb_model.specs.Apply.{History};
ghost use Rattle.tdb_platform.specs.Outside.{Outside};
ghost use Rattle.tdb_seg.specs.SegmentSpace.{SegmentSpace};
ghost use Rattle.tdb_overlay.specs.Covering.{Covers};
ghost use Rattle.tdb_overlay.specs.Log.{IsLog};
ghost use Rattle.tdb_overlay.specs.NextText.{GoesOnWith};
ghost use Rattle.tdb_overlay.specs.Sound.{IsSound};
ghost use Rattle.tdb_overlay.specs.StoreState.{StoreState};
ghost use Rattle.tdb_overlay.specs.declared.recovered.Recovered.{Recovered};
ghost use Rattle.tdb_check.specs.Behind.{IsKeptBehind, IsPut, IsUnwritten};
ghost use Rattle.tdb_check.specs.NewCheckpoint.{HasKnownLog, HasNoChange, IsCheckpointed, KnowsLog, NamesHead, store_of_log};
ghost use Rattle.tdb_check.specs.NextCheckpoint.{IsNextCheckpoint};

/// A checkpoint that was laid by reads alone goes on with the log that is known, and adds no commit to it.
pub fn checkpoint_is_a_step()
    ensures { (old mid : Outside) (secret : List ℕ) (log : Recovered) (c : Commit) (pieces : List Placed) (space : SegmentSpace)
        (told : Covers) →
        IsUnwritten old mid → IsNextCheckpoint mid secret log c pieces space told → IsSound secret mid → NamesHead old log →
        HasKnownLog old secret log → GoesOnWith mid.trace.written (store_of_log secret log) mid.anchor c pieces [] }
{}

/// Behind its put, what is kept in memory stands for the state of the log, and the tree of the checkpoint tells this state.
pub fn checkpoint_is_known()
    ensures stands { (old mid new : Outside) (secret : List ℕ) (was now_is : Recovered) (c : Commit) (pieces : List Placed)
        (space : SegmentSpace) (told : Covers) →
        IsUnwritten old mid → IsNextCheckpoint mid secret was c pieces space told → IsSound secret mid → NamesHead old was →
        IsPut mid new secret c pieces → IsKeptBehind was now_is c space told →
        (history : History) (from : StoreState) → IsLog old.trace.written (store_of_log secret was) old.anchor history from →
        KnowsLog old secret was from → IsCheckpointed old new secret was now_is history from }
    // and no rank has changed since
    ensures unchanged { (o : Outside) (secret : List ℕ) (was now_is : Recovered) (c : Commit) (pieces : List Placed)
        (space : SegmentSpace) (told : Covers) →
        IsNextCheckpoint o secret was c pieces space told → IsKeptBehind was now_is c space told → HasNoChange now_is.overlay }
{}
