//! The word that stands for an entry of the map.
ghost use Rattle.std.specs.Prelude.{◌≡◌};
ghost use Rattle.sm_map.specs.Entry.{IsInRange, entry_for, word_for};
ghost use Rattle.sm_placement.specs.declared.limits.TheConstants.{MOST_SERVERS};

use sm_placement::Entry;
use sm_server::ServerId;

/// A word is the version times this, plus the server's number and one, or plus 0 for no server.
const VERSION_UNIT: u64 = 65_536;

/// Returns the word that stands for an entry.
pub fn word_of(entry: Entry) -> u64
    requires { IsInRange MOST_SERVERS entry }
    ensures word { result ≡ word_for entry }
    ensures back { entry_for result ≡ entry }
{
    let server = match entry.server {
        Some(server) => u64::from(server.number()) + 1,
        None => 0,
    };
    entry.version * VERSION_UNIT + server
}

/// Returns the entry that a word stands for.
pub fn entry_of(word: u64) -> Entry
    ensures entry { result ≡ entry_for word }
    ensures back { word_for result ≡ word }
    ensures only { (e : _) → IsInRange MOST_SERVERS e → word ≡ word_for e → result ≡ e }
{
    let server = match (word % VERSION_UNIT) as u32 {
        0 => None,
        after => Some(ServerId::new(after - 1)),
    };
    Entry {
        server,
        version: word / VERSION_UNIT,
    }
}
