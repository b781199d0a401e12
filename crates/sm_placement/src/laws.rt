//! Laws of every placement, for those who reason about one: functions with nothing in them, whose contracts are the
//! laws.
ghost use Rattle.std.specs.Prelude.{◌≡◌, ◌≤◌, ◌↔◌, ℕ, Ok};
ghost use Rattle.sm_placement.specs.Setup.{Setup, IsSetup, Sizes, sizes_of};
ghost use Rattle.sm_placement.specs.Place.{Place, load_at, answer_at, IsAllowed, NumberedAsCalled, LooksAtNoLasts};
ghost use Rattle.sm_placement.specs.Place.{LiveMoves};
ghost use Rattle.sm_placement.specs.Lead.{LeadWhereDescribed, ServingByLead};
ghost use Rattle.sm_placement.specs.declared.limits.TheConstants.{MOST_LOAD, MOST_REPLICAS};

use sm_server::{Call, Cell, leads_where_led};

/// States that a call is answered with a next cell exactly if it is allowed, and leads to that cell.
#[tactic(auto, using(crate::proofs::Calls::allowed_answer))]
pub fn answered_where_allowed()
    ensures { (c : Sizes) (p : Place) (s v : ℕ) (call : Call) (to : Cell) → load_at c p v ≤ c.room v
        → ((answer_at c p s v call ≡ Ok to) ↔ IsAllowed c p s v call to) }
{
    leads_where_led();
}

/// States that a numbered call is the call itself once, and nothing when it is tried again. A call looks at no numbers.
pub fn numbered_as_called()
    ensures numbered { (c : Sizes) (p : Place) (s v : ℕ) (call : Call) (number : ℕ)
        → NumberedAsCalled c p s v call number }
    ensures called { (c : Sizes) (p : Place) → LooksAtNoLasts c p }
{}

/// States that the lead of a shard's cells is found exactly if it describes them under some handover number. There is
/// none exactly if no lead does.
pub fn lead_where_described()
    ensures { (n : ℕ) (row : ℕ → Cell) → ((v : ℕ) → n ≤ v → row v ≡ Cell.Absent) → LeadWhereDescribed n row }
{}

/// States that the lead that describes a shard's cells tells who serves it.
pub fn serving_by_lead()
    ensures { ServingByLead }
{}

/// States that a server that goes down takes its own live replicas with it, and one that comes up brings its own.
pub fn live_moves()
    ensures { (c : Sizes) (p : Place) → LiveMoves c p }
{}

/// States that the numbers of a configuration are small.
pub fn sizes_are_small()
    ensures room { (setup : Setup) (v : ℕ) → IsSetup setup → (sizes_of setup).room v ≤ MOST_LOAD }
    ensures load { (setup : Setup) (s : ℕ) → IsSetup setup → (sizes_of setup).load s ≤ MOST_LOAD }
    ensures floor { (setup : Setup) (s : ℕ) → IsSetup setup → (sizes_of setup).floor s ≤ MOST_REPLICAS }
{}
