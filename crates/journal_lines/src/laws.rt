//! Laws of every content.
ghost use Rattle.std.specs.Prelude.{◌≡◌, ◌≤◌, ◌⊎◌, ℕ, List, [], ◌∷◌, ◌++◌, length, take, All};
ghost use Rattle.journal_lines.specs.Journal.{journal_of, HasBatches, HasNoForged, RecoversTo, IsDamaged, IsForeign};
ghost use Rattle.journal_lines.specs.Objects.{IsBatch};

/// States that a content recovers to at most one list of entries. If it is damaged, or is no journal, it recovers to
/// none.
pub fn one_recovery()
    ensures once { (content : List ℕ) (entries others : List (List ℕ)) → RecoversTo content entries
        → RecoversTo content others → entries ≡ others }
    ensures damaged { (content : List ℕ) (number : ℕ) (entries : List (List ℕ)) → IsDamaged content number
        → RecoversTo content entries → ⊥ }
    ensures foreign { (content : List ℕ) (entries : List (List ℕ)) → IsForeign content → RecoversTo content entries
        → ⊥ }
{}

/// States that what a crash leaves of an append, any bytes in its range, recovers to the batches before it, with the
/// new one or without, if no line is forged.
pub fn torn_append_recovers()
    ensures { (batches : List (List (List ℕ))) (commands : List (List ℕ)) (torn : List ℕ) → All IsBatch batches
        → IsBatch commands
        → length (journal_of batches ++ torn) ≤ length (journal_of (batches ++ commands ∷ []))
        → HasNoForged (journal_of (batches ++ commands ∷ [])) (journal_of batches ++ torn)
        → HasBatches (journal_of batches ++ torn) batches
        ⊎ HasBatches (journal_of batches ++ torn) (batches ++ commands ∷ []) }
{}

/// States that what a cut of a torn end leaves, of whatever length between, recovers to the same batches.
pub fn torn_cut_recovers()
    ensures { (content : List ℕ) (batches : List (List (List ℕ))) (most : ℕ) → HasBatches content batches
        → length (journal_of batches) ≤ most → HasBatches (take most content) batches }
{}
