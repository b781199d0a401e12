//! Links, which carry the calls of streams to their servers.
ghost use Rattle.std.specs.Prelude.{◌≡◌, ◌+◌, ◌-◌, ◌^◌, ℕ};
ghost use Rattle.sm_placement.specs.Sums.{bit};
ghost use Rattle.sm_protocol.specs.declared.event.Passage.{Passage};
ghost use Rattle.sm_protocol.specs.declared.event.Passage.TheVariants.{Through};
ghost use Rattle.sm_reservation.specs.declared.stream_id.StreamId.{StreamId};
ghost use Rattle.sm_machine.specs.Losses.{is_lost};

use sm_protocol::Passage;
use sm_reservation::StreamId;

/// A carrier of streams' calls to their servers. It may lose a call, or the answer to one.
pub trait Link {
    /// The number of tries that it has lost.
    ghost losses: { Self → ℕ };

    /// Before it was asked, for which stream, under which number, what it answered, and as it stands then.
    ghost asked: { Self → StreamId → ℕ → Passage → Self → Type 0 };

    /// Says what becomes of a stream's try of a call under a number. Nothing is lost if the count of losses can rise no
    /// more.
    fn passage(&mut self, stream: StreamId, number: u64) -> Passage
        ensures asked { asked self.old stream number result self.new }
        ensures count { losses self.new ≡ losses self.old + bit (is_lost result) }
        ensures full { losses self.old ≡ 2 ^ 64 - 1 → result ≡ Through };

    /// Returns the number of tries that it has lost.
    fn lost(&self) -> u64
        ensures { result ≡ losses self.now };
}
