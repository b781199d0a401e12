//! Proposals, by the numbers of a reopening.
ghost use Rattle.std.specs.Prelude.{◌≡◌, ◌<◌, ◌++◌, ◌∷◌, ℕ, [], IfNone, IfOk, OnOk, Some, false, length, map, true};
ghost use Rattle.std.specs.Prelude.{slice_index_or};
ghost use Rattle.std.specs.List.{filter};
ghost use Rattle.sm_placement.specs.Setup.{sizes_of};
ghost use Rattle.sm_reopening.specs.Ongoing.{net_reopening};
ghost use Rattle.sm_reopening.specs.Proposal.{proposed_cell};
ghost use Rattle.smpland_reopening.specs.Chosen.{proposed_role, role_by_proposal, roles_with};
ghost use Rattle.smpland_reopening.specs.Proposal.{NamesLost, document_shards, documented_roles, has_shard};
ghost use Rattle.smpland_reopening.specs.Proposal.{is_shard_among, lost_shards, names_shard, proposed_primary};
ghost use Rattle.smpland_reopening.specs.Proposed.{IsProposalOf, is_unmet, is_silent, live_and_floor, proposal_role};
ghost use Rattle.smpland_reopening.specs.Proposed.{roles_proposed, unanswered_servers};
ghost use Rattle.smpland_reopening.specs.Confirmed.{is_down_next};
ghost use Rattle.smpland_reopening.specs.RoleGrids.{role_at};
ghost use Rattle.smpland_reopening.specs.Roles.{is_down_in, role_by_cell};

use crate::marks::{is_marked, mark};
use crate::reopening::DocumentReopening;
use crate::roles::{Roles, role_of};
use sm_server::{Role, ServerId, ShardId};
use std::alloc::{AllocError, Global};

/// The first of shards that is not among others.
fn first_beside(shards: &[ShardId], others: &[ShardId]) -> Option<ShardId>
    ensures { IfNone result ((s : ℕ) → is_shard_among shards.now s ≡ true → is_shard_among others.now s ≡ true) }
{
    for shard in shards {
        if !others.contains(shard) {
            return Some(*shard);
        }
    }
    None
}

/// The first of shards that is not among others, or otherwise the first of those that is not among these.
fn first_apart(shards: &[ShardId], others: &[ShardId]) -> Option<ShardId>
    ensures { IfNone result ((s : ℕ) → is_shard_among others.now s ≡ is_shard_among shards.now s) }
{
    first_beside(shards, others).or(first_beside(others, shards))
}

/// A shard that would have fewer live replicas than its floor.
#[derive(Clone, Copy, Debug, PartialEq, Eq)]
pub struct ShortFloor {
    pub shard: ShardId,
    pub live: u32,
    pub floor: u32,
}

/// The settlement that may be confirmed, by the numbers of the reopening.
#[derive(Drop)]
pub struct Proposal {
    pub(crate) roles: Roles,
    /// The shards that may lack acknowledged writes, or that no server is left with all of. Those that the document
    /// leaves out may be among them.
    pub lost: Vec<ShardId>,
    pub floors: Vec<ShortFloor>,
    /// The servers that have not answered, and stay as they are recorded.
    pub carried: Vec<ServerId>,
}

impl Proposal {
    /// The role that is proposed for a server.
    pub fn role(&self, shard: ShardId, server: ServerId) -> Option<Role>
        ensures { result ≡ proposal_role self.now shard server }
    {
        self.roles.get(shard.number(), server.number())
    }
}

/// Adds a floor if it is not met.
fn push_short(short: &mut Vec<ShortFloor>, floor: ShortFloor) -> Result<(), AllocError>
    ensures { OnOk result (short.new.items ≡ short.old.items ++ filter is_unmet (floor ∷ [])) }
{
    if floor.live < floor.floor {
        short.push(floor)?;
    }
    Ok(())
}

impl DocumentReopening {
    /// Returns the primary that is proposed for a shard.
    pub(crate) fn proposed_primary(&self, shard: ShardId) -> Option<ServerId>
        ensures { result ≡ proposed_primary self.now shard }
    {
        self.ongoing.proposed_primary(&self.documented.list, shard)
    }

    /// Returns the role that is proposed for a server, if the shard goes to this primary.
    fn proposed_role(
        &self,
        shard: ShardId,
        primary: &Option<ServerId>,
        server: ServerId,
    ) -> Option<Role>
        ensures { result
            ≡ role_by_cell (proposed_cell self.now.ongoing (documented_roles self.now) shard primary.now server) }
    {
        let documented = self.documented.list.as_slice();
        let cell = self
            .ongoing
            .proposed_cell(documented, shard, *primary, server);
        role_of(&cell)
    }

    /// Proposes the replicas of a shard.
    fn propose_shard(&self, roles: &mut Roles, shard: ShardId)
        requires { roles.old.servers ≡ (net_reopening self.now.ongoing).servers }
        ensures roles { (s v : ℕ) → s < roles.old.shards → v < roles.old.servers
            → role_at roles.new s v ≡ roles_with (role_at roles.old) (Some shard)
            (role_by_proposal self.now shard) s v }
        ensures shards { roles.new.shards ≡ roles.old.shards }
        ensures servers { roles.new.servers ≡ roles.old.servers }
    {
        let primary = self.proposed_primary(shard);
        for number in 0..self.ongoing.server_count() {
            let server = ServerId::new(number);
            roles.assign(shard, server, self.proposed_role(shard, &primary, server));
        }
    }

    /// Proposes the replicas of the document's shards. Those that it leaves out are to be nowhere.
    pub(crate) fn proposed_roles(&self, alloc: Global) -> Result<Roles, AllocError>
        ensures shards { IfOk result (λ roles. roles.shards ≡ length self.now.numbering.shards) }
        ensures servers { IfOk result (λ roles. roles.servers ≡ length self.now.numbering.servers) }
        ensures roles { IfOk result (λ roles. (s v : ℕ)
            → s < length self.now.numbering.shards → v < length self.now.numbering.servers
            → role_at roles s v ≡ proposed_role self.now s v) }
        ensures all { IfOk result (λ roles. role_at roles ≡ roles_proposed self.now) }
    {
        let (shards, servers) = (self.numbering.shard_count(), self.numbering.server_count());
        let mut roles = Roles::none(alloc, shards, servers)?;
        for shard in &self.shards {
            self.propose_shard(&mut roles, *shard);
        }
        Ok(roles)
    }

    /// Returns by number which shards the document has.
    fn shard_marks(&self, alloc: Global) -> Result<Vec<bool>, AllocError>
        ensures { IfOk result (λ marks. (k : ℕ) → k < length self.now.numbering.shards
            → slice_index_or marks.items k false ≡ has_shard self.now k) }
    {
        let mut marks = vec![in alloc; false; self.numbering.shard_count() as usize]?;
        for shard in &self.shards {
            mark(&mut marks, shard.number());
        }
        Ok(marks)
    }

    /// Returns the shards of the document, in the order of their numbers.
    pub fn shards_in_order(&self, alloc: Global) -> Result<Vec<ShardId>, AllocError>
        ensures { IfOk result (λ shards. shards.items ≡ document_shards self.now) }
    {
        let marks = self.shard_marks(alloc)?;
        let mut shards = Vec::new(alloc);
        for number in 0..self.numbering.shard_count() {
            if is_marked(&marks, number) {
                shards.push(ShardId::new(number))?;
            }
        }
        Ok(shards)
    }

    /// Whether the proposal names a shard as lost.
    fn names_shard(&self, shard: ShardId) -> bool
        ensures { result ≡ names_shard self.now shard }
    {
        let copies = self.kept_of(shard);
        self.ongoing
            .is_named_lost(&self.documented.list, copies, shard)
    }

    /// Adds a shard if it is named as lost.
    fn push_lost(&self, lost: &mut Vec<ShardId>, shard: ShardId) -> Result<(), AllocError>
        ensures { OnOk result (lost.new.items
            ≡ lost.old.items ++ filter (names_shard self.now) (shard ∷ [])) }
    {
        if self.names_shard(shard) {
            lost.push(shard)?;
        }
        Ok(())
    }

    /// The shards that are named as lost, in the order of their numbers: those that the document leaves out, too.
    pub fn lost_shards(&self, alloc: Global) -> Result<Vec<ShardId>, AllocError>
        ensures { IfOk result (λ lost. lost.items ≡ lost_shards self.now) }
    {
        let mut lost = Vec::new(alloc);
        for number in 0..self.numbering.shard_count() {
            self.push_lost(&mut lost, ShardId::new(number))?;
        }
        Ok(lost)
    }

    /// Returns the first shard that the proposal names as lost and that is not named here, or otherwise that is named
    /// here and not by the proposal.
    pub(crate) fn first_unnamed(
        &self,
        alloc: Global,
        named: &[ShardId],
    ) -> Result<Option<ShardId>, AllocError>
        ensures { IfOk result (λ found. IfNone found (NamesLost self.now named.now)) }
    {
        let lost = self.lost_shards(alloc)?;
        Ok(first_apart(&lost, named))
    }

    /// The floor that the document gives a shard.
    fn floor(&self, shard: ShardId) -> u32
        ensures { result ≡ (sizes_of self.now.numbering).floor shard }
    {
        if shard.number() < self.numbering.shard_count() {
            self.numbering.floor(shard)
        } else {
            0
        }
    }

    /// How many servers that are up would have a replica of a shard, and its floor.
    fn live_and_floor(&self, roles: &Roles, down: &[bool], shard: ShardId) -> ShortFloor
        requires servers { roles.now.servers ≡ length self.now.numbering.servers }
        requires down { is_down_in down.now ≡ is_down_next self.now }
        ensures { result ≡ live_and_floor self.now (role_at roles.now) shard }
    {
        ShortFloor {
            shard,
            live: roles.live(shard, down),
            floor: self.floor(shard),
        }
    }

    /// The floors of shards that would not be met.
    fn short_floors(
        &self,
        alloc: Global,
        roles: &Roles,
        shards: &[ShardId],
    ) -> Result<Vec<ShortFloor>, AllocError>
        requires { roles.now.servers ≡ length self.now.numbering.servers }
        ensures { IfOk result (λ short. short.items
            ≡ filter is_unmet (map (live_and_floor self.now (role_at roles.now)) shards.now)) }
    {
        let down = self.down_servers(alloc)?;
        let mut short = Vec::new(alloc);
        for shard in shards {
            push_short(&mut short, self.live_and_floor(roles, &down, *shard))?;
        }
        Ok(short)
    }

    /// Adds a server if it has been asked and has not answered.
    fn push_silent(&self, servers: &mut Vec<ServerId>, server: ServerId) -> Result<(), AllocError>
        ensures { OnOk result (servers.new.items ≡ servers.old.items ++ filter (is_silent self.now) (server ∷ [])) }
    {
        if self.ongoing.is_asked(server) && !self.ongoing.has_told(server) {
            servers.push(server)?;
        }
        Ok(())
    }

    /// The servers that have not answered, in the order of their numbers.
    fn silent_servers(&self, alloc: Global) -> Result<Vec<ServerId>, AllocError>
        ensures { IfOk result (λ servers. servers.items ≡ unanswered_servers self.now) }
    {
        let mut servers = Vec::new(alloc);
        for number in 0..self.ongoing.server_count() {
            self.push_silent(&mut servers, ServerId::new(number))?;
        }
        Ok(servers)
    }

    /// Proposes what may be confirmed.
    pub fn proposal(&self, alloc: Global) -> Result<Proposal, AllocError>
        ensures { IfOk result (IsProposalOf self.now) }
    {
        let shards = self.shards_in_order(alloc)?;
        let roles = self.proposed_roles(alloc)?;
        let lost = self.lost_shards(alloc)?;
        let floors = self.short_floors(alloc, &roles, &shards)?;
        let carried = self.silent_servers(alloc)?;
        Ok(Proposal {
            roles,
            lost,
            floors,
            carried,
        })
    }
}
