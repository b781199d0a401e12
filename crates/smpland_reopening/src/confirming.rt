//! Confirming what is settled.
ghost use Rattle.std.specs.Prelude.{◌≡◌, ◌≢◌, ◌≤◌, ◌<◌, ◌&&◌, ◌||◌, ℕ, IfOk, OnErr, OnOk, Some, false, length, map};
ghost use Rattle.std.specs.Prelude.{not, slice_get, slice_index_or, true};
ghost use Rattle.std.specs.List.{range_with_len};
ghost use Rattle.sm_placement.specs.Layout.{place_of};
ghost use Rattle.sm_placement.specs.Lead.{IsSettled};
ghost use Rattle.sm_placement.specs.Setup.{names_of_servers, names_of_shards, sizes_of};
ghost use Rattle.laws_network.specs.Reopening.{Confirm, Server, Settlement, entered, is_asked};
ghost use Rattle.sm_reopening.specs.Faults.{MayConfirm};
ghost use Rattle.sm_reopening.specs.Ongoing.{left_out_of, net_reopening, told_copies};
ghost use Rattle.sm_reopening.specs.Proposal.{is_the};
ghost use Rattle.smpland_reopening.specs.Chosen.{IsAsChosen, chosen_role};
ghost use Rattle.smpland_reopening.specs.Confirmed.{KeepsChosen, SettlesChosen, down_in_order, is_down_next};
ghost use Rattle.smpland_reopening.specs.Confirmed.{is_still_down, roles_chosen, roles_in_order};
ghost use Rattle.smpland_reopening.specs.Eased.{IsEased};
ghost use Rattle.smpland_reopening.specs.Faults.{IsRefusedWithUnknown};
ghost use Rattle.smpland_reopening.specs.Proposal.{NamesLost};
ghost use Rattle.smpland_reopening.specs.Reopening.{IsRenumbered, IsUnder};
ghost use Rattle.smpland_reopening.specs.RoleGrids.{role_at};
ghost use Rattle.smpland_reopening.specs.Roles.{cell_by_role, is_down_in};
ghost use Rattle.smpland_reopening.specs.Settled.{IsPlacedBy};

use crate::choice::Choice;
use crate::fault::ConfirmRefusal;
use crate::marks::mark;
use crate::opening::{is_down, settled_placement};
use crate::reopening::DocumentReopening;
use crate::roles::Roles;
use sm_placement::{OpenFault, Placement};
use sm_plan_code::MOST_PLACES;
use sm_reopening::ConfirmFault;
use sm_server::{ServerId, ShardId};
use std::alloc::{AllocError, Global};

impl DocumentReopening {
    /// Returns whether the document has a server that has a number.
    fn has_server(&self, server: ServerId) -> bool
        ensures { result ≡ (is_asked (net_reopening self.now.ongoing) (Server server)
            && not (left_out_of self.now.ongoing server)) }
    {
        self.ongoing.is_asked(server) && !self.ongoing.is_left_out(server)
    }

    /// Returns by number which servers are recorded down, of those that the document has.
    #[tactic(auto, using(crate::proofs::Lists::pushed_more))]
    fn recorded_down(&self, alloc: Global) -> Result<Vec<bool>, AllocError>
        ensures { IfOk result (λ down. down.items
            ≡ map (is_still_down self.now) (range_with_len 0 (net_reopening self.now.ongoing).servers)) }
    {
        let mut down = Vec::new(alloc);
        for number in 0..self.ongoing.server_count() {
            let server = ServerId::new(number);
            down.push(self.has_server(server) && self.ongoing.is_recorded_down(server))?;
        }
        Ok(down)
    }

    /// Marks a server that the document calls down.
    fn call_down(&self, down: &mut Vec<bool>, server: ServerId)
        ensures length { length down.new.items ≡ length down.old.items }
        ensures marked { (v : ℕ) → v < length down.old.items → slice_index_or down.new.items v false
            ≡ (slice_index_or down.old.items v false || is_the (slice_get self.now.servers server) v) }
    {
        if let Some(number) = self.servers.get(server.number() as usize) {
            mark(down, number.number());
        }
    }

    /// Returns by number which servers are down: those that the document calls so, and those that it has and that are
    /// recorded so.
    pub(crate) fn down_servers(&self, alloc: Global) -> Result<Vec<bool>, AllocError>
        ensures { IfOk result (λ down. is_down_in down.items ≡ is_down_next self.now) }
    {
        let mut down = self.recorded_down(alloc)?;
        for server in &self.document.down {
            self.call_down(&mut down, *server);
        }
        Ok(down)
    }

    /// Returns the number of a shard of the document.
    fn shard_number(&self, shard: u32) -> u32
        ensures { result ≡ slice_index_or self.now.shards shard u32.MAX }
    {
        match self.shards.get(shard as usize) {
            Some(number) => number.number(),
            None => u32::MAX,
        }
    }

    /// Returns the number of a server of the document.
    fn server_number(&self, server: u32) -> u32
        ensures { result ≡ slice_index_or self.now.servers server u32.MAX }
    {
        match self.servers.get(server as usize) {
            Some(number) => number.number(),
            None => u32::MAX,
        }
    }

    /// Gives a shard of the document the roles of its number.
    fn fill_row(&self, roles: &Roles, list: &mut Roles, shard: u32)
        requires { shard < list.old.shards }
        ensures row { (v : ℕ) → v < list.old.servers
            → role_at list.new shard v ≡ role_at roles.now (slice_index_or self.now.shards shard u32.MAX)
            (slice_index_or self.now.servers v u32.MAX) }
        ensures others { (t v : ℕ) → t ≢ shard → role_at list.new t v ≡ role_at list.old t v }
        ensures shards { list.new.shards ≡ list.old.shards }
        ensures servers { list.new.servers ≡ list.old.servers }
    {
        for server in 0..list.servers {
            let role = roles.get(self.shard_number(shard), self.server_number(server));
            list.set(shard, server, role);
        }
    }

    /// Returns the roles of the document's servers and shards, under its own numbers.
    fn documents_roles(&self, alloc: Global, roles: &Roles) -> Result<Roles, AllocError>
        ensures roles { IfOk result (λ list. (k v : ℕ) → k < length self.now.document.config.shards
            → v < length self.now.document.config.servers
            → role_at list k v ≡ role_at roles.now (slice_index_or self.now.shards k u32.MAX)
            (slice_index_or self.now.servers v u32.MAX)) }
        ensures shards { IfOk result (λ list. list.shards ≡ length self.now.document.config.shards) }
        ensures servers { IfOk result (λ list. list.servers ≡ length self.now.document.config.servers) }
        ensures order { IfOk result (λ list. role_at list ≡ roles_in_order self.now (role_at roles.now)) }
    {
        let shards = self.document.config.shard_count();
        let servers = self.document.config.server_count();
        let mut list = Roles::none(alloc, shards, servers)?;
        for shard in 0..shards {
            self.fill_row(roles, &mut list, shard);
        }
        Ok(list)
    }

    /// Returns which of the document's servers are down, under its own numbers.
    fn documents_down(&self, alloc: Global, down: &[bool]) -> Result<Vec<bool>, AllocError>
        ensures { IfOk result (λ list. list.items ≡ map (is_down_in down.now) self.now.servers) }
    {
        self.servers
            .iter()
            .map(|server| is_down(down, server.number()))
            .collect(alloc)
    }

    /// Returns the placement of roles under the document's own numbers.
    fn next_placement(
        &self,
        alloc: Global,
        roles: &Roles,
        down: &[bool],
    ) -> Result<Placement, OpenFault>
        ensures settled { IfOk result (λ p. IsSettled (sizes_of p.setup) (place_of p)) }
        ensures servers { IfOk result (λ p. names_of_servers p.setup ≡ names_of_servers self.now.document.config) }
        ensures shards { IfOk result (λ p. names_of_shards p.setup ≡ names_of_shards self.now.document.config) }
        ensures eased { IfOk result (λ p. IsEased self.now.document.config p.setup) }
        ensures cells { IfOk result (λ p. (k v : ℕ) → k < length self.now.document.config.shards
            → v < length self.now.document.config.servers
            → (place_of p).cells k v ≡ cell_by_role (role_at roles.now (slice_index_or self.now.shards k u32.MAX)
            (slice_index_or self.now.servers v u32.MAX))) }
        ensures down { IfOk result (λ p. (v : ℕ) → v < length self.now.document.config.servers
            → (place_of p).down v ≡ is_down_in (map (is_down_in down.now) self.now.servers) v) }
        ensures placed { IfOk result (IsPlacedBy self.now.document.config (roles_in_order self.now (role_at roles.now))
            (is_down_in (map (is_down_in down.now) self.now.servers)) self.now.document.limit) }
    {
        let roles = self.documents_roles(alloc, roles)?;
        let down = self.documents_down(alloc, down)?;
        let limit = self.document.limit;
        settled_placement(alloc, &self.document.config, &roles, &down, limit)
    }

    /// Returns the placement of roles under the numbers of the reopening, and the same under the document's own.
    fn placements_of(
        &self,
        alloc: Global,
        roles: &Roles,
    ) -> Result<(Placement, Placement), OpenFault>
        requires shards { roles.now.shards ≡ length self.now.numbering.shards }
        requires servers { roles.now.servers ≡ length self.now.numbering.servers }
        ensures settled { IfOk result (λ p. IsSettled (sizes_of p.0.setup) (place_of p.0)) }
        ensures servers { IfOk result (λ p. names_of_servers p.0.setup ≡ names_of_servers self.now.numbering) }
        ensures shards { IfOk result (λ p. names_of_shards p.0.setup ≡ names_of_shards self.now.numbering) }
        ensures next_settled { IfOk result (λ p. IsSettled (sizes_of p.1.setup) (place_of p.1)) }
        ensures same { IfOk result (λ p. (room : ℕ)
            → IsRenumbered self.now.document.config self.now.shards self.now.servers
            (record { setup = p.0.setup; place = place_of p.0; room = room }) p.1) }
        ensures cells { IfOk result (λ p. (s v : ℕ) → (place_of p.0).cells s v ≡ cell_by_role (role_at roles.now s v)) }
        ensures placed { IfOk result (λ p. IsPlacedBy self.now.numbering (role_at roles.now) (is_down_next self.now)
            self.now.document.limit p.0) }
        ensures kept { IfOk result (λ p. IsPlacedBy self.now.document.config
            (roles_in_order self.now (role_at roles.now)) (down_in_order self.now) self.now.document.limit p.1) }
    {
        let down = self.down_servers(alloc)?;
        let limit = self.document.limit;
        let settlement = settled_placement(alloc, &self.numbering, roles, &down, limit)?;
        let next = self.next_placement(alloc, roles, &down)?;
        Ok((settlement, next))
    }

    /// The roles that were chosen for some shards, and those that are proposed for the others.
    fn chosen_roles(&self, alloc: Global, chosen: &[Choice]) -> Result<Roles, AllocError>
        ensures roles { IfOk result (λ roles. (s v : ℕ)
            → s < length self.now.numbering.shards → v < length self.now.numbering.servers
            → role_at roles s v ≡ chosen_role self.now chosen.now s v) }
        ensures shards { IfOk result (λ roles. roles.shards ≡ length self.now.numbering.shards) }
        ensures servers { IfOk result (λ roles. roles.servers ≡ length self.now.numbering.servers) }
        ensures all { IfOk result (λ roles. role_at roles ≡ roles_chosen self.now chosen.now) }
    {
        let mut roles = self.proposed_roles(alloc)?;
        for choice in chosen {
            roles.choose(choice, &self.shards, &self.servers);
        }
        Ok(roles)
    }

    /// Confirms what is proposed, with other replicas of some shards: settles are to be sent. The shards that may be
    /// lost are named. Otherwise nothing changes.
    pub fn confirm(
        &mut self,
        alloc: Global,
        chosen: &[Choice],
        named: &[ShardId],
    ) -> Result<(), ConfirmRefusal>
        ensures confirmed { OnOk result ((s : Settlement) × MayConfirm self.old.ongoing s
            × (net_reopening self.new.ongoing ≡ entered (Confirm s) (net_reopening self.old.ongoing))
            × IsAsChosen self.old chosen.now s.place × SettlesChosen self.old chosen.now s) }
        ensures kept { OnOk result (KeepsChosen self.old self.new chosen.now) }
        ensures named { OnOk result (NamesLost self.old named.now) }
        ensures copies { OnOk result (told_copies self.new.ongoing ≡ told_copies self.old.ongoing) }
        ensures under { OnOk result (IsUnder self.old self.new) }
        ensures unchanged { OnErr result (self.new ≡ self.old) }
    {
        if let Some(party) = self.waits_for(alloc)?.first() {
            return Err(ConfirmRefusal::Missing { party: *party });
        }
        if let Some(shard) = self.first_unnamed(alloc, named)? {
            return Err(ConfirmRefusal::Unnamed { shard });
        }
        let roles = self.chosen_roles(alloc, chosen)?;
        let (settlement, next) = self.placements_of(alloc, &roles)?;
        self.confirm_placement(settlement, next)
    }

    /// The refusal of a settlement as long as servers have shards that nobody knows.
    fn fault_with_unknown_shards(&self, settlement: &Placement) -> ConfirmRefusal
        requires settled { IsSettled (sizes_of settlement.now.setup) (place_of settlement.now) }
        requires servers { names_of_servers settlement.now.setup ≡ names_of_servers self.now.numbering }
        requires shards { names_of_shards settlement.now.setup ≡ names_of_shards self.now.numbering }
        ensures { IsRefusedWithUnknown self.now.ongoing
            (record { setup = settlement.now.setup; place = place_of settlement.now; room = self.now.document.log })
            result }
    {
        match self.ongoing.fault_of(settlement, self.document.log) {
            Some(fault) => ConfirmRefusal::Cells(fault),
            None => ConfirmRefusal::UnknownShard,
        }
    }

    /// Confirms a settlement, and keeps what the next driver opens with.
    fn confirm_placement(
        &mut self,
        settlement: Placement,
        next: Placement,
    ) -> Result<(), ConfirmRefusal>
        requires settled { IsSettled (sizes_of settlement.setup) (place_of settlement) }
        requires servers { names_of_servers settlement.setup ≡ names_of_servers self.old.numbering }
        requires shards { names_of_shards settlement.setup ≡ names_of_shards self.old.numbering }
        requires next_settled { IsSettled (sizes_of next.setup) (place_of next) }
        requires same { (room : ℕ) → IsRenumbered self.old.document.config self.old.shards self.old.servers
            (record { setup = settlement.setup; place = place_of settlement; room = room }) next }
        ensures confirmed { OnOk result ((s : Settlement) × MayConfirm self.old.ongoing s
            × (net_reopening self.new.ongoing ≡ entered (Confirm s) (net_reopening self.old.ongoing))
            × (s.place ≡ place_of settlement) × (s.setup ≡ settlement.setup) × (s.room ≡ self.old.document.log)) }
        ensures next { OnOk result (self.new.next ≡ Some next) }
        ensures copies { OnOk result (told_copies self.new.ongoing ≡ told_copies self.old.ongoing) }
        ensures under { OnOk result (IsUnder self.old self.new) }
        ensures unchanged { OnErr result (self.new ≡ self.old) }
    {
        let log = self.document.log;
        if !self.unknown_shards.is_empty() {
            return Err(self.fault_with_unknown_shards(&settlement));
        }
        if log > MOST_PLACES || log < next.down_count() {
            return Err(ConfirmRefusal::Cells(ConfirmFault::LogFull));
        }
        match self.ongoing.confirm(settlement, log) {
            Ok(()) => {
                self.next = Some(next);
                Ok(())
            }
            Err((settlement, fault)) => {
                drop(settlement);
                Err(ConfirmRefusal::Cells(fault))
            }
        }
    }
}
