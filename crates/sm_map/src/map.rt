//! The words of the map, their one publisher, and the passes by which they are read.
//!
//! No call here waits or takes a lock, and none but `open` takes memory. A publisher and a pass take no bytes: proofs
//! know by them what was stored and what was seen. A look is no older than what its pass has seen, and than what had
//! been stored when the pass was made or last met the publisher. Nothing is said of how old it may be beyond that.
ghost use Rattle.std.specs.Prelude.{◌≡◌, ◌<◌, ◌≤◌, [], ◌∷◌, Some, All, IfOk, length};
ghost use Rattle.sm_map.specs.Entry.{IsInRange};
ghost use Rattle.sm_map.specs.History.{AllSameOrOlder, Follows, IsNotBefore, newest, words_for};
ghost use Rattle.sm_map.specs.Models.{HasAllSeen, IsSince, history};
ghost use Rattle.sm_placement.specs.declared.limits.TheConstants.{MOST_SERVERS};

use crate::entry::{entry_of, word_of};
use crate::rule::{Look, Meet, Opening, Parts, Published, Store, View};
use atomic_table::{Seat, Table};
use sm_placement::Entry;
use sm_server::ShardId;
use std::alloc::{AllocError, Global};
use std::marker::Model;
use std::mem;

/// The words of a map, one for each shard. Any thread may read them; the one publisher stores them.
#[derive(Drop)]
pub struct Words {
    table: Table<(), View, Opening, Published, Global>,
}

impl Model for Words {
    ghost use Rattle.sm_map.specs.Models.{WordsModel, words_model};
    ghost use Rattle.sm_map.specs.Rule.{HasWords};

    ghost Value = { WordsModel };

    ghost view = { λ w. words_model w.table.shared.table_id w.table.shared.key.servers w.table.shared.key.entries.items };

    ghost invariant = { λ w. HasWords w.table.shared.table_id w.table.shared.key.servers w.table.shared.key.entries.items };
}

/// The right to store a map's words. There is one for each map.
#[derive(Drop)]
pub struct Publisher {
    seat: Seat<(), View>,
}

impl Model for Publisher {
    ghost use Rattle.sm_map.specs.Models.{PublisherModel};
    ghost use Rattle.sm_map.specs.Rule.{IsPublisherSeat, publisher_of};

    ghost Value = { PublisherModel };

    ghost view = { λ p. publisher_of p.seat.table_id p.seat.me.0 };

    ghost invariant = { λ p. IsPublisherSeat p.seat.me };
}

/// The pass of a reader of a map's words. By it proofs know what the reader has seen.
#[derive(Drop)]
pub struct Pass {
    seat: Seat<(), View>,
}

impl Model for Pass {
    ghost use Rattle.sm_map.specs.Models.{PassModel};
    ghost use Rattle.sm_map.specs.Rule.{IsPassSeat, pass_model};

    ghost Value = { PassModel };

    ghost view = { λ p. pass_model p.seat.table_id p.seat.me.0 };

    ghost invariant = { λ p. IsPassSeat p.seat.me };
}

/// Returns the words of some entries.
fn words_of(alloc: Global, entries: &[Entry]) -> Result<Vec<u64>, AllocError>
    requires { All (IsInRange MOST_SERVERS) entries.now }
    ensures { IfOk result (λ v. v.items ≡ words_for entries.now) }
{
    let mut words = Vec::with_capacity(alloc, entries.len().max(1))?;
    for entry in entries {
        words.push_reserved(word_of(*entry));
    }
    if entries.is_empty() {
        words.push_reserved(0);
    }
    Ok(words)
}

impl Words {
    /// Opens a map with an entry for each shard, and returns its words and their publisher. If there is no shard, one
    /// word stands for none and stays 0.
    pub fn open(
        alloc: Global,
        servers: u32,
        entries: &[Entry],
    ) -> Result<(Words, Publisher), AllocError>
        requires servers { servers ≤ MOST_SERVERS }
        requires entries { All (IsInRange servers) entries.now }
        ensures servers { IfOk result (λ opened. opened.0.servers ≡ servers) }
        ensures opening { IfOk result (λ opened. opened.0.opening ≡ entries.now) }
        ensures publisher { IfOk result (λ opened. opened.1 ≡ record { words = opened.0; stores = [] }) }
    {
        let words = words_of(alloc, entries)?;
        let opening = Opening {
            servers,
            entries: Vec::from_slice(alloc, entries)?,
        };
        let (table, seat) = Table::of_words(alloc, words.as_slice(), &opening)?;
        Ok((Words { table }, Publisher { seat }))
    }

    /// Makes a new pass, which has seen nothing. Each look by it is no older than what is stored by now.
    pub fn pass(&self, publisher: &mut Publisher) -> Pass
        requires { publisher.old.words ≡ self.now }
        ensures same { publisher.new ≡ publisher.old }
        ensures pass { result ≡ record { words = self.now; since = publisher.old.stores; seen = [] } }
    {
        let seat = self.table.shared.split_seat::<Parts>(&mut publisher.seat);
        Pass { seat }
    }

    /// Returns the entry of a shard, by one load of its word. It is no older than what the pass has seen, and than what
    /// had been stored when the pass was made or last met the publisher.
    pub fn look(&self, pass: &mut Pass, shard: ShardId) -> Entry
        requires pass { pass.old.words ≡ self.now }
        requires shard { shard < length self.now.opening }
        ensures seen { pass.new ≡ record {
          words = self.now;
          since = pass.old.since;
          seen = (shard, result)
              ∷ pass.old.seen;
        } }
        ensures not_older { AllSameOrOlder pass.old.seen shard result }
        ensures not_before { IsNotBefore self.now.opening pass.old.since shard result }
        ensures in_range { IsInRange self.now.servers result }
    {
        let shared = &self.table.shared;
        let word = shared.load::<Look>(&mut pass.seat, shard.number() as usize);
        entry_of(word)
    }

    /// Publishes the next entry of a shard, by one store of its word.
    pub fn store(&self, publisher: &mut Publisher, shard: ShardId, entry: Entry)
        requires publisher { publisher.old.words ≡ self.now }
        requires shard { shard < length self.now.opening }
        requires in_range { IsInRange self.now.servers entry }
        requires next { Follows (history publisher.old shard) entry }
        ensures { publisher.new ≡ record { words = self.now; stores = (shard, entry) ∷ publisher.old.stores } }
    {
        let shared = &self.table.shared;
        let word = word_of(entry);
        shared.store::<Store>(&mut publisher.seat, shard.number() as usize, word);
    }

    /// Returns the publisher's newest entry of a shard, for a pass that is in one thread with the publisher, for
    /// example if the publisher stands behind a lock. One load of the shard's word gives the entry; three loads beside
    /// it only tell proofs that the two met.
    pub fn meet_in(&self, publisher: &mut Publisher, pass: &mut Pass, shard: ShardId) -> Entry
        requires publisher { publisher.old.words ≡ self.now }
        requires pass { pass.old.words ≡ self.now }
        requires shard { shard < length self.now.opening }
        ensures same { publisher.new ≡ publisher.old }
        ensures seen { pass.new ≡ record {
          words = self.now;
          since = publisher.old.stores;
          seen = (shard, result)
              ∷ pass.old.seen;
        } }
        ensures last { newest (history publisher.old shard) ≡ Some result }
        ensures earlier { IsSince publisher.old pass.old }
        ensures stand { HasAllSeen publisher.old pass.old }
        ensures not_older { AllSameOrOlder pass.old.seen shard result }
        ensures in_range { IsInRange self.now.servers result }
    {
        let shared = &self.table.shared;
        let place = shared.split_seat::<Parts>(&mut publisher.seat);
        let seat = mem::replace(&mut pass.seat, place);
        shared.join_seat::<Parts>(&mut publisher.seat, seat);
        let word = shared.load::<Meet>(&mut publisher.seat, shard.number() as usize);
        pass.seat = shared.split_seat::<Parts>(&mut publisher.seat);
        entry_of(word)
    }

    /// Does what `meet_in` does, by value.
    pub fn meet(
        &self,
        mut publisher: Publisher,
        mut pass: Pass,
        shard: ShardId,
    ) -> (Publisher, Pass, Entry)
        requires publisher { publisher.words ≡ self.now }
        requires pass { pass.words ≡ self.now }
        requires shard { shard < length self.now.opening }
        ensures same { result.0 ≡ publisher }
        ensures seen { result.1 ≡ record {
          words = self.now;
          since = publisher.stores;
          seen = (shard, result.2)
              ∷ pass.seen;
        } }
        ensures last { newest (history publisher shard) ≡ Some result.2 }
        ensures earlier { IsSince publisher pass }
        ensures stand { HasAllSeen publisher pass }
        ensures not_older { AllSameOrOlder pass.seen shard result.2 }
        ensures in_range { IsInRange self.now.servers result.2 }
    {
        let entry = self.meet_in(&mut publisher, &mut pass, shard);
        (publisher, pass, entry)
    }
}
