//! Deliveries of publications to the map's owner.
ghost use Rattle.std.specs.Prelude.{◌≡◌};
ghost use Rattle.laws_network.specs.Orders.{newer};

use sm_placement::Entry;

/// Returns what the map shows of a shard once an entry for it has come. That is the entry, if its version is above the
/// one that is shown, and otherwise what was shown. The publication is answered in either case.
pub fn entry_after(shown: Entry, sent: Entry) -> Entry
    ensures { result ≡ newer shown sent }
{
    if shown.version < sent.version {
        return sent;
    }
    shown
}
