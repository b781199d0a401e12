//! Laws of what the lines alone determine.
ghost use Rattle.std.specs.Prelude.{◌≡◌, ℕ, List, ◌++◌, length, take};
ghost use Rattle.journal_serve.specs.Trace.{Exchange, IsDetermined, LeadsThrough, lines_in};

use crate::applies::Applies;

/// States that if a state and a line determine what the line does, the lines determine the exchanges and the state at
/// their end. Neither the pieces in which the lines came nor the lines that shared a sync make a difference.
pub fn lines_determine_exchanges<A: Applies>()
    ensures all { IsDetermined A.takes → (old one other : A) (a b : List Exchange) → LeadsThrough A.takes old a one
        → LeadsThrough A.takes old b other
        → lines_in b ≡ lines_in a → (b ≡ a) × (other ≡ one) }
    // The first lines determine the first exchanges.
    ensures first { IsDetermined A.takes → (old one other : A) (a b : List Exchange) (others : List (List ℕ))
        → LeadsThrough A.takes old a one → LeadsThrough A.takes old b other
        → lines_in b ≡ lines_in a ++ others → take (length a) b ≡ a }
{}
