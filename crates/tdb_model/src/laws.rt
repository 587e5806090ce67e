//! Laws of states, of changes and of the check.
ghost use Rattle.std.specs.Prelude.{◌≡◌, ◌⊎◌, ◌≤◌, ℕ, List, [], ◌∷◌, ◌++◌, Some, None, Contains};
ghost use Rattle.std.specs.FinMap.{empty, get, insert};
ghost use Rattle.std.specs.Option.{option_or};
ghost use Rattle.tdb_base.specs.declared.names.PartId.{PartId};
ghost use Rattle.tdb_base.specs.declared.names.Rank.{Rank};
ghost use Rattle.tdb_base.specs.declared.suite.Suite.{Suite};
ghost use Rattle.tdb_model.specs.Apply.{apply, apply_all, made, History, state_of};
ghost use Rattle.tdb_model.specs.Check.{check, refusal, first_refusal};
ghost use Rattle.tdb_model.specs.InRange.{IsInRange};
ghost use Rattle.tdb_model.specs.Opening.{opening_changes};
ghost use Rattle.tdb_model.specs.State.{State, Partition, no_partitions};
ghost use Rattle.tdb_model.specs.declared.change.Change.{Change};
ghost use Rattle.tdb_model.specs.declared.change.Change.TheVariants.{Write, Free, Drop};

/// One commit more applies its changes to the state before.
pub fn history_goes_on()
    ensures { (history : History) (count : ℕ) (changes : List Change)
        → state_of (history ++ (count, changes) ∷ []) ≡ apply_all count (state_of history) changes }
{}

/// The empty database is in range, and changes that pass the check keep a database so.
pub fn ranges_are_kept()
    ensures begins { IsInRange no_partitions }
    ensures keeps { (count : ℕ) (state : State) (changes : List Change) → 1 ≤ count → IsInRange state → check state changes ≡ None
        → IsInRange (apply_all count state changes) }
{}

/// A copy is frozen: a change that passes the check leaves it as it is, or drops it.
pub fn copies_are_frozen()
    ensures { (count : ℕ) (earlier : List Change) (state : State) (change : Change) (part : ℕ) (copy : Partition) →
        get state part ≡ Some copy → (copy.parent ≡ 0 → ⊥) → refusal earlier state change ≡ None →
        (get (apply count state change) part ≡ Some copy) ⊎ ((dropped : PartId) × (dropped.0 ≡ part) × (change ≡ Drop dropped)) }
{}

/// A copy stays as it is through each commit that passes the check and doesn't drop it, whatever becomes of its source.
pub fn copies_stay_until_dropped()
    ensures { (count : ℕ) (state : State) (changes : List Change) (part : ℕ) (copy : Partition) →
        get state part ≡ Some copy → (copy.parent ≡ 0 → ⊥) → check state changes ≡ None →
        (get (apply_all count state changes) part ≡ Some copy)
        ⊎ ((dropped : PartId) × (dropped.0 ≡ part) × Contains changes (Drop dropped)) }
{}

/// To free a rank that has no chunk changes nothing.
pub fn free_of_no_chunk_changes_nothing()
    ensures { (count : ℕ) (state : State) (part : PartId) (rank : Rank) (partition : Partition) →
        get state part.0 ≡ Some partition → get partition.chunks rank.0 ≡ None → apply count state (Free part rank) ≡ state }
{}

/// Whatever count a change gets, the changes behind it are refused alike.
pub fn no_test_reads_a_count()
    ensures { (count : ℕ) (earlier : List Change) (state : State) (change : Change) (later : List Change) →
        first_refusal earlier state (change ∷ later) ≡ option_or (refusal earlier state change)
        (first_refusal (earlier ++ change ∷ []) (apply count state change) later) }
{}

/// A new database after its opening commit, which has count 2, and one write.
pub fn first_commits()
    ensures opens { (suite : Suite) → check no_partitions (opening_changes suite) ≡ None }
    ensures state { (suite : Suite) (bytes : List ℕ) →
        state_of ((2, opening_changes suite) ∷ (3, Write (record { 0 = 1 }) (record { 0 = 1 }) bytes ∷ []) ∷ []) ≡
        insert (insert no_partitions
        1 (record { suite = suite; home = 1; birth = 2; next = 2; parent = 0; born = 2; chunks = insert empty 1 bytes }))
        2 (record { suite = suite; home = 2; birth = 2; next = 0; parent = 0; born = 2; chunks = empty }) }
{}
