//! The history: what happened at which place. A place counts the commands that changed something.
ghost use Rattle.std.specs.Prelude.{◌≡◌, IfOk, OnErr, OnOk, length, slice_index_or, slice_set};
ghost use Rattle.smpland_state.specs.History.{ended_at, ordered_at, published_at, recorded_at};
ghost use Rattle.smpland_state.specs.History.{history_of_next_epoch, opened_history, with_begun, with_ended};
ghost use Rattle.smpland_state.specs.History.{with_moved, with_published, with_recorded};

use indexmap::IndexMap;
use sm_reservation::StreamId;
use sm_server::{ServerId, ShardId};
use std::alloc::{AllocError, Global};
use std::marker::Model;

/// The cell of a shard at a server.
#[derive(Clone, Copy, Debug, PartialEq, Eq, Hash)]
struct CellAt {
    shard: ShardId,
    server: ServerId,
}

/// A plan: where the present order of each of its streams came up, and where the plan has ended.
#[derive(Drop)]
struct PlanPlaces {
    ordered: Vec<u64>,
    ended: Option<u64>,
}

impl Model for PlanPlaces {
    ghost use Rattle.smpland_state.specs.History.{PlanPlacesModel};

    ghost Value = { PlanPlacesModel };

    ghost view = { λ p. record { ordered = p.ordered.items; ended = p.ended } };
}

/// The places where present orders came up, where entries of the map and cells changed, and where plans of the epoch
/// ended.
#[derive(Drop)]
pub struct History {
    alloc: Global,
    /// The place where the map and all cells were recorded anew: the opening of the document in force.
    mapped: u64,
    /// The places where each entry of the map changed last, by the shards' numbers.
    published: Vec<u64>,
    /// The places where cells were recorded last that have changed since.
    recorded: IndexMap<CellAt, u64>,
    plans: Vec<PlanPlaces>,
}

impl Model for History {
    ghost use Rattle.smpland_state.specs.History.{HistoryModel};

    ghost Value = { HistoryModel };

    ghost view = { λ h. record {
      mapped = h.mapped;
      published = h.published.items;
      recorded = h.recorded.entries;
      plans = h.plans.items;
    } };
}

impl PlanPlaces {
    /// Notes that a stream has come to where it stands at a place.
    fn note_moved(&mut self, place: u64, stream: u32)
        ensures { self.new ≡ record self.old { ordered = slice_set self.old.ordered stream place } }
    {
        set_place(&mut self.ordered, stream as usize, place);
    }

    /// Notes that the plan has ended at a place.
    fn note_ended(&mut self, place: u64)
        ensures { self.new ≡ record self.old { ended = Some place } }
    {
        self.ended = Some(place);
    }
}

/// Sets the place at an index, if there is one.
fn set_place(places: &mut [u64], index: usize, place: u64)
    ensures { places.new ≡ slice_set places.old index place }
{
    if index < places.len() {
        places[index] = place;
    }
}

/// The place at an index, 0 if there is none.
fn place_at(places: &[u64], index: usize) -> u64
    ensures { result ≡ slice_index_or places.now index 0 }
{
    match places.get(index) {
        Some(place) => *place,
        None => 0,
    }
}

impl History {
    /// The history of a journal that is opened at a place, over a number of shards.
    pub fn new(alloc: Global, shards: u32, place: u64) -> Result<Self, AllocError>
        ensures { IfOk result (λ history. history ≡ opened_history shards place) }
    {
        Ok(History {
            alloc,
            mapped: place,
            published: vec![in alloc; place; shards as usize]?,
            recorded: IndexMap::new(alloc),
            plans: Vec::new(alloc),
        })
    }

    /// Turns to the next epoch, which has no plans yet.
    pub fn begin_epoch(&mut self)
        ensures { self.new ≡ history_of_next_epoch self.old }
    {
        self.plans.clear();
    }

    /// Notes that the next plan has begun at a place, with a number of streams.
    pub fn note_begun(&mut self, place: u64, streams: u64) -> Result<(), AllocError>
        ensures noted { OnOk result (self.new ≡ with_begun self.old place streams) }
        ensures unchanged { OnErr result (self.new ≡ self.old) }
    {
        let ordered = vec![in self.alloc; place; streams as usize]?;
        self.plans.push(PlanPlaces {
            ordered,
            ended: None,
        })?;
        Ok(())
    }

    /// Notes that a stream has come to where it stands at a place.
    pub fn note_moved(&mut self, place: u64, id: StreamId)
        ensures { self.new ≡ with_moved self.old place id }
    {
        let plan = id.plan as usize;
        if plan < self.plans.len() {
            self.plans[plan].note_moved(place, id.stream);
        }
    }

    /// Notes that a plan has ended at a place.
    pub fn note_ended(&mut self, place: u64, number: u32)
        ensures { self.new ≡ with_ended self.old place number }
    {
        let plan = number as usize;
        if plan < self.plans.len() {
            self.plans[plan].note_ended(place);
        }
    }

    /// Notes that a shard's entry of the map has changed at a place.
    pub fn note_published(&mut self, place: u64, shard: ShardId)
        ensures { self.new ≡ with_published self.old place shard }
    {
        set_place(&mut self.published, shard.number() as usize, place);
    }

    /// Notes that what a server has of a shard has changed at a place.
    pub fn note_recorded(
        &mut self,
        place: u64,
        shard: ShardId,
        server: ServerId,
    ) -> Result<(), AllocError>
        ensures { OnOk result (self.new ≡ with_recorded self.old place shard server) }
    {
        let _ = self.recorded.insert(CellAt { shard, server }, place)?;
        Ok(())
    }

    /// The place where a stream came to where it stands, 0 if nothing is known of it.
    pub fn ordered(&self, id: StreamId) -> u64
        ensures { result ≡ ordered_at self.now id }
    {
        match self.plans.get(id.plan as usize) {
            Some(plan) => place_at(plan.ordered.as_slice(), id.stream as usize),
            None => 0,
        }
    }

    /// The number of plans that have begun in the present epoch.
    pub fn plan_count(&self) -> usize
        ensures { result ≡ length self.now.plans }
    {
        self.plans.len()
    }

    /// The place where a plan has ended, if it has.
    pub fn ended(&self, number: usize) -> Option<u64>
        ensures { result ≡ ended_at self.now number }
    {
        match self.plans.get(number) {
            Some(plan) => plan.ended,
            None => None,
        }
    }

    /// The place where a shard's entry of the map changed last, 0 if nothing is known of it.
    pub fn published(&self, shard: ShardId) -> u64
        ensures { result ≡ published_at self.now shard }
    {
        place_at(self.published.as_slice(), shard.number() as usize)
    }

    /// The place where it was recorded last what a server has of a shard.
    pub fn recorded(&self, shard: ShardId, server: ServerId) -> u64
        ensures { result ≡ recorded_at self.now shard server }
    {
        match self.recorded.get(&CellAt { shard, server }) {
            Some(place) => *place,
            None => self.mapped,
        }
    }
}
