//! The beginning of a reopening under a document: its numbers, and its parties.
ghost use Rattle.std.specs.Prelude.{◌≡◌, ◌≢◌, ◌+◌, ◌<◌, [], ℕ, IfErr, IfOk, OnOk, Some, None, if◌then◌else◌, length};
ghost use Rattle.std.specs.Prelude.{map};
ghost use Rattle.sm_placement.specs.Layout.{place_of};
ghost use Rattle.sm_placement.specs.Setup.{IsSetup};
ghost use Rattle.sm_placement.specs.Config.{setup_of};
ghost use Rattle.sm_placement.specs.Opening.{opened_place};
ghost use Rattle.laws_network.specs.ReopeningLaws.{no_reopening};
ghost use Rattle.sm_driver.specs.Copies.{kept_copies};
ghost use Rattle.sm_driver.specs.Driver.{record_of};
ghost use Rattle.sm_driver.specs.Orders.{epoch_base};
ghost use Rattle.sm_driver.specs.Permits.{AreEarlierPermits};
ghost use Rattle.smpland_reopening.specs.Begun.{BeginsUnder, HasRecorded, IsBegun, IsGround, IsNumberedGround};
ghost use Rattle.smpland_reopening.specs.Begun.{is_cell_at, members_under, roles_by};
ghost use Rattle.smpland_reopening.specs.Faults.{cell_fault, document_fault, fault_of_cells};
ghost use Rattle.smpland_reopening.specs.RoleGrids.{role_at};
ghost use Rattle.smpland_reopening.specs.Roles.{role_by_cell};

use crate::fault::ReopenFault;
use crate::kept::KeptRecord;
use crate::members::{first_lost, members_of};
use crate::numbering::{no_config, number_servers, number_shards};
use crate::roles::{Roles, role_of};
use sm_driver::{Driver, EPOCH_STEP};
use sm_placement::{Config, ConfigFault, OpenFault, Placement};
use sm_plan_text::Document;
use sm_reopening::{Membership, OngoingReopening};
use sm_server::{Cell, ServerId, ShardId};
use std::alloc::{AllocError, Global};

/// The configuration by which all parties of a reopening are numbered, and the document's roles.
#[derive(Drop)]
pub(crate) struct Ground {
    pub numbering: Config,
    pub servers: Vec<ServerId>,
    pub shards: Vec<ShardId>,
    pub documented: Roles,
}

/// A reopening that has begun, but for its document.
#[derive(Drop)]
pub(crate) struct Begun {
    pub ongoing: OngoingReopening,
    pub ground: Ground,
}

/// The fault for which a document may not begin a reopening, by that for which its placement is not opened.
fn cell_fault(fault: OpenFault) -> Option<ReopenFault>
    ensures { result ≡ cell_fault fault }
{
    match fault {
        OpenFault::NoMemory => Some(ReopenFault::NoMemory),
        OpenFault::DoubleCell { shard, server } => Some(ReopenFault::DoubleCell { shard, server }),
        OpenFault::BadLead { shard } => Some(ReopenFault::BadLead { shard }),
        _ => None,
    }
}

/// The fault of a document's cells for which it may not begin a reopening, before which want of memory may come.
fn fault_of_cells(alloc: Global, document: &Document) -> Option<ReopenFault>
    ensures { result ≢ Some ReopenFault.NoMemory → result ≡ fault_of_cells document.now }
{
    match document.open(alloc) {
        Ok(_placement) => None,
        Err(fault) => cell_fault(fault),
    }
}

/// Refuses a document that may not begin a reopening, whatever is recorded.
fn check_document(alloc: Global, document: &Document, lost: &[&str]) -> Result<(), ReopenFault>
    ensures ok { OnOk result (document_fault document.now (map (λ n. n.now) lost.now) ≡ None) }
    ensures refused { IfErr result (λ fault. fault ≢ ReopenFault.NoMemory
        → document_fault document.now (map (λ n. n.now) lost.now) ≡ Some fault) }
{
    if let Some(fault) = fault_of_cells(alloc, document) {
        return Err(fault);
    }
    match first_lost(&document.config, lost) {
        Some(server) => Err(ReopenFault::LostServer { server }),
        None => Ok(()),
    }
}

/// Writes the role that a document's cell gives, by the numbers of a reopening.
fn write_role(
    roles: &mut Roles,
    named: &(ShardId, ServerId, Cell),
    shards: &[ShardId],
    servers: &[ServerId],
)
    ensures roles { (s v : ℕ) → s < roles.old.shards → v < roles.old.servers → role_at roles.new s v
        ≡ (if is_cell_at shards.now servers.now s v named.now then role_by_cell named.now.2
        else role_at roles.old s v) }
    ensures shards { roles.new.shards ≡ roles.old.shards }
    ensures servers { roles.new.servers ≡ roles.old.servers }
{
    if let Some(shard) = shards.get(named.0.number() as usize) {
        if let Some(server) = servers.get(named.1.number() as usize) {
            roles.assign(*shard, *server, role_of(&named.2));
        }
    }
}

/// Returns the roles that a document gives, by the numbers of a reopening.
fn documented_roles(
    alloc: Global,
    document: &Document,
    numbering: &Config,
    shards: &[ShardId],
    servers: &[ServerId],
) -> Result<Roles, AllocError>
    ensures roles { IfOk result (λ roles. role_at roles
        ≡ roles_by numbering.now shards.now servers.now document.now.cells.items) }
    ensures width { IfOk result (λ roles. roles.servers ≡ length numbering.now.servers) }
    ensures apart { OnOk result (IsSetup numbering.now) }
{
    let mut roles = Roles::none(alloc, numbering.shard_count(), numbering.server_count())?;
    for named in &document.cells {
        write_role(&mut roles, named, shards, servers);
    }
    Ok(roles)
}

/// Numbers what has a number, and what is new in a document behind it.
pub(crate) fn ground_of(
    alloc: Global,
    recorded: &Config,
    document: &Document,
    lost: &[&str],
) -> Result<(Ground, Vec<Membership>), ReopenFault>
    ensures ground { IfOk result (λ g. IsGround recorded.now document.now.config g.0) }
    ensures numbered { IfOk result (λ g. IsNumberedGround recorded.now document.now.config
        document.now.cells.items g.0) }
    ensures members { IfOk result (λ g. g.1.items
        ≡ members_under g.0.numbering document.now.config (map (λ n. n.now) lost.now)) }
{
    check_document(alloc, document, lost)?;
    let servers = number_servers(alloc, recorded, &document.config)?;
    let shards = number_shards(alloc, recorded, &document.config)?;
    let numbering = match Config::new(alloc, &servers.rows, &shards.rows) {
        Ok(numbering) => numbering,
        Err(ConfigFault::NoMemory) => return Err(ReopenFault::NoMemory),
        Err(_) => return Err(ReopenFault::TooMany),
    };
    let (servers, shards) = (servers.numbers, shards.numbers);
    let documented = documented_roles(alloc, document, &numbering, &shards, &servers)?;
    let members = members_of(alloc, &numbering, &document.config, lost)?;
    let ground = Ground {
        numbering,
        servers,
        shards,
        documented,
    };
    Ok((ground, members))
}

/// Returns a placement of nothing.
fn nothing(alloc: Global) -> Result<Placement, AllocError>
    ensures setup { IfOk result (λ p. p.setup ≡ setup_of [] []) }
    ensures place { IfOk result (λ p. place_of p
        ≡ opened_place (record { cells = []; listed = []; down = []; limit = 0 })) }
{
    let config = no_config(alloc)?;
    match Placement::open(alloc, &config, &[], &[], &[], 0) {
        Ok(placement) => Ok(placement),
        Err(OpenFault::NoMemory) => Err(AllocError),
        Err(_) => unreachable!(),
    }
}

/// Begins a reopening over a placement that is recorded.
fn begin_over(
    alloc: Global,
    placement: &Placement,
    document: &Document,
    lost: &[&str],
    epoch: u32,
) -> Result<Begun, ReopenFault>
    ensures begun { IfOk result (λ b. IsBegun document.now.config epoch b) }
    ensures over { IfOk result (λ b. BeginsUnder
        (no_reopening (length placement.now.setup.servers)) placement.now.setup document.now.config
        b.ground.numbering (map (λ n. n.now) lost.now) epoch b.ongoing) }
    ensures numbered { IfOk result (λ b. IsNumberedGround placement.now.setup document.now.config
        document.now.cells.items b.ground) }
    ensures recorded { IfOk result (λ b. HasRecorded placement.now.setup (place_of placement.now)
        (length b.ground.numbering.shards) b.ongoing) }
{
    let (ground, members) = ground_of(alloc, placement.config(), document, lost)?;
    let base = epoch as u64 * EPOCH_STEP;
    let shards = ground.numbering.shard_count();
    let ongoing = OngoingReopening::begin(alloc, base, placement, &members, shards)?;
    Ok(Begun { ongoing, ground })
}

/// Begins a reopening over what a driver has recorded, with what is kept of that beside the placement.
pub(crate) fn begin_over_driver(
    alloc: Global,
    driver: &Driver,
    document: &Document,
    lost: &[&str],
    epoch: u32,
) -> Result<(Begun, KeptRecord), ReopenFault>
    ensures begun { IfOk result (λ b. IsBegun document.now.config epoch b.0) }
    ensures over { IfOk result (λ b. BeginsUnder
        (no_reopening (length driver.now.machine.placement.setup.servers)) driver.now.machine.placement.setup
        document.now.config b.0.ground.numbering (map (λ n. n.now) lost.now) epoch b.0.ongoing) }
    ensures numbered { IfOk result (λ b. IsNumberedGround driver.now.machine.placement.setup document.now.config
        document.now.cells.items b.0.ground) }
    ensures recorded { IfOk result (λ b. HasRecorded driver.now.machine.placement.setup (record_of driver.now).place
        (length b.0.ground.numbering.shards) b.0.ongoing) }
    ensures permits { IfOk result (λ b. b.1.permits.items ≡ driver.now.permits) }
    ensures earlier { IfOk result (λ b. AreEarlierPermits (epoch_base (driver.now.epoch + 1)) b.1.permits.items) }
    ensures kept { IfOk result (λ b. b.1.copies.items ≡ kept_copies driver.now) }
{
    let kept = KeptRecord {
        permits: Vec::from_slice(alloc, driver.permits())?,
        copies: driver.kept_copies(alloc)?,
    };
    let placement = driver.machine().placement();
    let begun = begin_over(alloc, placement, document, lost, epoch)?;
    Ok((begun, kept))
}

/// Begins a reopening over nothing.
pub(crate) fn begin_over_nothing(
    alloc: Global,
    document: &Document,
    lost: &[&str],
    epoch: u32,
) -> Result<Begun, ReopenFault>
    ensures begun { IfOk result (λ b. IsBegun document.now.config epoch b) }
    ensures over { IfOk result (λ b. BeginsUnder (no_reopening 0)
        (setup_of [] []) document.now.config b.ground.numbering (map (λ n. n.now) lost.now) epoch b.ongoing) }
    ensures numbered { IfOk result (λ b. IsNumberedGround (setup_of [] []) document.now.config
        document.now.cells.items b.ground) }
    ensures recorded { IfOk result (λ b. HasRecorded (setup_of [] [])
        (opened_place (record { cells = []; listed = []; down = []; limit = 0 }))
        (length b.ground.numbering.shards) b.ongoing) }
{
    let placement = nothing(alloc)?;
    begin_over(alloc, &placement, document, lost, epoch)
}
