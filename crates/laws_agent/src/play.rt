//! A worked play, computed by the definitions.
ghost use Rattle.laws_agent.specs.ClusterPlays.{ServesAgain};

use laws_network::brings_back;

/// Shows that if a server is lost in the middle of a handover, the others tell what they have, an order that comes late
/// is turned away, and the old owner serves again.
pub fn serves_again()
    ensures { ServesAgain }
{
    brings_back();
}
