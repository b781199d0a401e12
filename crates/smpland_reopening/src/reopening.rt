//! Reopenings under documents.
ghost use Rattle.std.specs.Prelude.{◌≡◌, ◌<◌, [], List, IfOk, IfErr, None, length, map};
ghost use Rattle.sm_placement.specs.Config.{setup_of};
ghost use Rattle.sm_placement.specs.Opening.{opened_place};
ghost use Rattle.sm_placement.specs.Setup.{Setup};
ghost use Rattle.laws_network.specs.ReopeningLaws.{no_reopening};
ghost use Rattle.sm_reopening.specs.Ongoing.{net_reopening, recorded_place, recorded_setup, shards_of};
ghost use Rattle.sm_driver.specs.Copies.{kept_copies};
ghost use Rattle.sm_driver.specs.Driver.{record_of};
ghost use Rattle.sm_driver.specs.Orders.{epoch_base};
ghost use Rattle.sm_driver.specs.Permits.{AreEarlierPermits};
ghost use Rattle.smpland_reopening.specs.Begun.{BeginsUnder, HasRecorded, IsBegun, IsNumberedGround};
ghost use Rattle.smpland_reopening.specs.Begun.{NumbersUnder};
ghost use Rattle.smpland_reopening.specs.Kept.{kept_on};
ghost use Rattle.smpland_reopening.specs.Proposal.{has_shard};

use crate::beginning::{Begun, Ground, begin_over_driver, begin_over_nothing, ground_of};
use crate::fault::ReopenFault;
use crate::kept::KeptRecord;
use crate::roles::Roles;
use crate::unknown_shard::UnknownShard;
use sm_driver::{Driver, EPOCH_STEP};
use sm_placement::{Config, Placement};
use sm_plan_text::Document;
use sm_reopening::OngoingReopening;
use sm_server::{ServerId, ShardId};
use std::alloc::Global;
use std::marker::Model;

/// The epoch that a reopening opens, in its journal.
#[derive(Clone, Copy)]
pub(crate) struct OpenedEpoch {
    pub journal: u64,
    pub epoch: u32,
}

/// A reopening under way, whose servers and shards have names. Those that are recorded keep their numbers, those of
/// reopenings that were replaced keep theirs, and the new ones of the document follow in its order.
pub struct DocumentReopening {
    pub(crate) ongoing: OngoingReopening,
    pub(crate) journal: u64,
    pub(crate) epoch: u32,
    pub(crate) document: Document,
    /// All servers and shards that have numbers. Those that the document leaves out have no room there, and want no
    /// replicas.
    pub(crate) numbering: Config,
    /// The numbers of the document's servers and shards, in the document's order.
    pub(crate) servers: Vec<ServerId>,
    pub(crate) shards: Vec<ShardId>,
    /// The document's roles.
    pub(crate) documented: Roles,
    /// The permits of the recorded servers that are down.
    pub(crate) permits: Vec<Option<u64>>,
    /// Of each recorded shard, how many copies each acknowledged write surely has; one where nothing stands.
    pub(crate) kept: Vec<u32>,
    pub(crate) unknown_shards: Vec<UnknownShard>,
    /// The placement on which the next driver opens, once a settlement is confirmed.
    pub(crate) next: Option<Placement>,
}

impl Model for DocumentReopening {
    ghost use Rattle.smpland_reopening.specs.Reopening.{IsReopening, ReopeningModel};

    ghost Value = { ReopeningModel };

    ghost view = { λ r. record { ongoing = r.ongoing; journal = r.journal; epoch = r.epoch; document = r.document; numbering = r.numbering; servers = r.servers.items; shards = r.shards.items; documented = r.documented; permits = r.permits.items; kept = r.kept.items; unknown_shards = r.unknown_shards.items; next = r.next } };

    ghost invariant = { λ r. IsReopening (record { ongoing = r.ongoing; journal = r.journal; epoch = r.epoch; document = r.document; numbering = r.numbering; servers = r.servers.items; shards = r.shards.items; documented = r.documented; permits = r.permits.items; kept = r.kept.items; unknown_shards = r.unknown_shards.items; next = r.next }) };
}

impl Drop for DocumentReopening {
    fn drop(self) {
        drop(self.into_next());
    }
}

impl DocumentReopening {
    ghost use Rattle.smpland_reopening.specs.Reopening.{IsReopening};

    /// Ends the reopening, and returns what the next driver opens with.
    pub(crate) fn into_next(self) -> Option<Placement>
        ensures next { result ≡ self.next }
        ensures is { IsReopening self }
    {
        let DocumentReopening {
            ongoing,
            journal: _,
            epoch: _,
            document,
            numbering,
            servers,
            shards,
            documented,
            permits,
            kept,
            unknown_shards,
            next,
        } = self;
        drop(ongoing);
        drop(document);
        drop(numbering);
        drop(servers);
        drop(shards);
        drop(documented);
        drop(permits);
        drop(kept);
        drop(unknown_shards);
        next
    }
}

impl DocumentReopening {
    /// The reopening that has begun under a document, with what it keeps of the record. Its fences are to be sent.
    fn new(
        alloc: Global,
        begun: Begun,
        document: Document,
        kept: KeptRecord,
        opened: OpenedEpoch,
    ) -> DocumentReopening
        requires begun { IsBegun document.config opened.epoch begun }
        requires permits { AreEarlierPermits (epoch_base opened.epoch) kept.permits.items }
        ensures ongoing { result.ongoing ≡ begun.ongoing }
        ensures numbering { result.numbering ≡ begun.ground.numbering }
        ensures journal { result.journal ≡ opened.journal }
        ensures epoch { result.epoch ≡ opened.epoch }
        ensures document { result.document ≡ document }
        ensures permits { result.permits ≡ kept.permits.items }
        ensures kept { result.kept ≡ kept.copies.items }
        ensures numbered { (numbered : Setup)
            → IsNumberedGround numbered document.config document.cells.items begun.ground
            → NumbersUnder numbered result }
        ensures next { result.next ≡ None }
    {
        let Begun { ongoing, ground } = begun;
        let KeptRecord { permits, copies } = kept;
        let Ground {
            numbering,
            servers,
            shards,
            documented,
        } = ground;
        DocumentReopening {
            ongoing,
            journal: opened.journal,
            epoch: opened.epoch,
            document,
            numbering,
            servers,
            shards,
            documented,
            permits,
            kept: copies,
            unknown_shards: Vec::new(alloc),
            next: None,
        }
    }

    /// Begins a reopening under a document over what a driver has recorded. Its fences are to be sent. If it does not
    /// begin, the document comes back.
    pub fn begin(
        alloc: Global,
        driver: &Driver,
        document: Document,
        lost: &[&str],
        epoch: u32,
    ) -> Result<DocumentReopening, (Document, ReopenFault)>
        requires { driver.now.epoch < epoch }
        ensures over { IfOk result (λ r. BeginsUnder
            (no_reopening (length driver.now.machine.placement.setup.servers))
            driver.now.machine.placement.setup document.config r.numbering
            (map (λ n. n.now) lost.now) epoch r.ongoing) }
        ensures numbered { IfOk result (λ r. NumbersUnder driver.now.machine.placement.setup r) }
        ensures recorded { IfOk result (λ r. HasRecorded driver.now.machine.placement.setup (record_of driver.now).place
            (length r.numbering.shards) r.ongoing) }
        ensures next { IfOk result (λ r. r.next ≡ None) }
        ensures permits { IfOk result (λ r. r.permits ≡ driver.now.permits) }
        ensures kept { IfOk result (λ r. r.kept ≡ kept_copies driver.now) }
        ensures journal { IfOk result (λ r. r.journal ≡ driver.now.journal) }
        ensures epoch { IfOk result (λ r. r.epoch ≡ epoch) }
        ensures document { IfOk result (λ r. r.document ≡ document) }
        ensures back { IfErr result (λ e. e.0 ≡ document) }
    {
        let journal = driver.journal();
        let opened = OpenedEpoch { journal, epoch };
        match begin_over_driver(alloc, driver, &document, lost, epoch) {
            Ok((begun, kept)) => Ok(Self::new(alloc, begun, document, kept, opened)),
            Err(fault) => Err((document, fault)),
        }
    }

    /// Begins the first reopening of a journal, over nothing that is recorded. Its fences are to be sent. If it does
    /// not begin, the document comes back.
    pub fn begin_anew(
        alloc: Global,
        document: Document,
        lost: &[&str],
        journal: u64,
        epoch: u32,
    ) -> Result<DocumentReopening, (Document, ReopenFault)>
        ensures over { IfOk result (λ r. BeginsUnder (no_reopening 0) (setup_of [] []) document.config r.numbering
            (map (λ n. n.now) lost.now) epoch r.ongoing) }
        ensures numbered { IfOk result (λ r. NumbersUnder (setup_of [] []) r) }
        ensures recorded { IfOk result (λ r. HasRecorded (setup_of [] [])
            (opened_place (record { cells = []; listed = []; down = []; limit = 0 }))
            (length r.numbering.shards) r.ongoing) }
        ensures next { IfOk result (λ r. r.next ≡ None) }
        ensures permits { IfOk result (λ r. r.permits ≡ []) }
        ensures kept { IfOk result (λ r. r.kept ≡ []) }
        ensures journal { IfOk result (λ r. r.journal ≡ journal) }
        ensures epoch { IfOk result (λ r. r.epoch ≡ epoch) }
        ensures document { IfOk result (λ r. r.document ≡ document) }
        ensures back { IfErr result (λ e. e.0 ≡ document) }
    {
        let opened = OpenedEpoch { journal, epoch };
        match begin_over_nothing(alloc, &document, lost, epoch) {
            Ok(begun) => {
                let kept = KeptRecord {
                    permits: Vec::new(alloc),
                    copies: Vec::new(alloc),
                };
                Ok(Self::new(alloc, begun, document, kept, opened))
            }
            Err(fault) => Err((document, fault)),
        }
    }

    /// Begins the reopening that replaces this one, over what is recorded here. Its fences are to be sent. If it does
    /// not begin, the document comes back.
    pub fn replace(
        &self,
        alloc: Global,
        document: Document,
        lost: &[&str],
        epoch: u32,
    ) -> Result<DocumentReopening, (Document, ReopenFault)>
        requires { self.now.epoch < epoch }
        ensures over { IfOk result (λ r. BeginsUnder
            (net_reopening self.now.ongoing) self.now.numbering document.config r.numbering
            (map (λ n. n.now) lost.now) epoch r.ongoing) }
        ensures numbered { IfOk result (λ r. NumbersUnder self.now.numbering r) }
        ensures recorded { IfOk result (λ r. HasRecorded (recorded_setup self.now.ongoing)
            (recorded_place self.now.ongoing) (length r.numbering.shards) r.ongoing) }
        ensures next { IfOk result (λ r. r.next ≡ None) }
        ensures permits { IfOk result (λ r. r.permits ≡ self.now.permits) }
        ensures kept { IfOk result (λ r. r.kept ≡ kept_on self.now) }
        ensures journal { IfOk result (λ r. r.journal ≡ self.now.journal) }
        ensures epoch { IfOk result (λ r. r.epoch ≡ epoch) }
        ensures document { IfOk result (λ r. r.document ≡ document) }
        ensures back { IfErr result (λ e. e.0 ≡ document) }
    {
        match self.replaced(alloc, &document, lost, epoch) {
            Ok((begun, kept)) => {
                let journal = self.journal;
                let opened = OpenedEpoch { journal, epoch };
                Ok(Self::new(alloc, begun, document, kept, opened))
            }
            Err(fault) => Err((document, fault)),
        }
    }

    /// Begins the reopening that replaces this one, but for its document.
    fn replaced(
        &self,
        alloc: Global,
        document: &Document,
        lost: &[&str],
        epoch: u32,
    ) -> Result<(Begun, KeptRecord), ReopenFault>
        ensures begun { IfOk result (λ b. IsBegun document.now.config epoch b.0) }
        ensures over { IfOk result (λ b. BeginsUnder
            (net_reopening self.now.ongoing) self.now.numbering document.now.config b.0.ground.numbering
            (map (λ n. n.now) lost.now) epoch b.0.ongoing) }
        ensures numbered { IfOk result (λ b. IsNumberedGround self.now.numbering document.now.config
            document.now.cells.items b.0.ground) }
        ensures recorded { IfOk result (λ b. HasRecorded (recorded_setup self.now.ongoing)
            (recorded_place self.now.ongoing) (length b.0.ground.numbering.shards) b.0.ongoing) }
        ensures permits { IfOk result (λ b. b.1.permits.items ≡ self.now.permits) }
        ensures earlier { IfOk result (λ b. AreEarlierPermits (epoch_base self.now.epoch) b.1.permits.items) }
        ensures kept { IfOk result (λ b. b.1.copies.items ≡ kept_on self.now) }
    {
        let (ground, members) = ground_of(alloc, &self.numbering, document, lost)?;
        let base = epoch as u64 * EPOCH_STEP;
        let shards = ground.numbering.shard_count();
        let ongoing = self.ongoing.replace(alloc, base, &members, shards)?;
        let kept = KeptRecord {
            permits: Vec::from_slice(alloc, &self.permits)?,
            copies: self.kept_on(alloc)?,
        };
        Ok((Begun { ongoing, ground }, kept))
    }

    /// Returns the number of the reopening, which becomes the base of all parties.
    pub fn base(&self) -> u64
        ensures { result ≡ (net_reopening self.now.ongoing).base }
    {
        self.ongoing.base()
    }

    /// Returns the journal that it belongs to.
    pub fn journal(&self) -> u64
        ensures { result ≡ self.now.journal }
    {
        self.journal
    }

    /// Returns the epoch that it opens.
    pub fn epoch(&self) -> u32
        ensures { result ≡ self.now.epoch }
    {
        self.epoch
    }

    /// The number of places that the document gives the log.
    pub fn log_room(&self) -> u32
        ensures { result ≡ self.now.document.log }
    {
        self.document.log
    }

    /// Returns the configuration of all servers and shards that have numbers.
    pub fn numbering(&self) -> &Config
        ensures numbering { result.now ≡ self.now.numbering }
        ensures shards { length self.now.numbering.shards ≡ shards_of self.now.ongoing }
    {
        &self.numbering
    }

    /// Returns the document's own configuration.
    pub fn documented(&self) -> &Config
        ensures { result.now ≡ self.now.document.config }
    {
        &self.document.config
    }

    /// Whether the document has a shard that has a number.
    pub fn has_shard(&self, shard: ShardId) -> bool
        ensures { result ≡ has_shard self.now shard }
    {
        self.shards.contains(&shard)
    }
}
