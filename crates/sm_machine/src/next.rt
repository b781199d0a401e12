//! Next acts of streams: a call, an entry of the published map, or a signal that is not posted.
ghost use Rattle.std.specs.Prelude.{◌≡◌, ◌<◌, ℕ, IfSome, Some, true};
ghost use Rattle.sm_plan_code.specs.declared.instruction.Instr.TheVariants.{Wait};
ghost use Rattle.sm_placement.specs.declared.limits.TheConstants.{VERSIONS_END};
ghost use Rattle.sm_plan_code.specs.Acts.{next_call};
ghost use Rattle.sm_plan_code.specs.After.{to_list};
ghost use Rattle.sm_plan_code.specs.Instr.{shard_of};
ghost use Rattle.sm_reservation.specs.Pool.{leads_of};
ghost use Rattle.sm_protocol.specs.State.{is_begun, numbers_end, signal_count};
ghost use Rattle.sm_protocol.specs.Next.{blocked_on, entry_by, entry_listing, instruction_before, next_call_of};
ghost use Rattle.sm_protocol.specs.Next.{next_entry_of, unposted};
ghost use Rattle.sm_machine.specs.State.{whole_of, state_of};
ghost use Rattle.sm_machine.specs.Working.{IsWorking};

use crate::engine::Engine;
use crate::tries::shard_of;
use sm_placement::Entry;
use sm_plan_code::{Instr, ServerCall, call_of, listed_under, number_after};
use sm_reservation::StreamId;
use sm_server::{ServerId, ShardId};

impl Engine {
    /// Returns the instruction that a running stream makes next.
    fn instruction_before(&self, id: StreamId) -> Option<Instr>
        ensures { result ≡ instruction_before (state_of self.now) id }
    {
        if !self.is_begun(id) || self.progress(id).done {
            return None;
        }
        self.next_instruction(id)
    }

    /// Returns the call of an instruction at the highest handover numbers, None if it is no call.
    pub fn call_at_numbers(&self, instr: &Instr) -> Option<ServerCall>
        requires shard { IfSome (shard_of instr.now) (λ s. s < (state_of self.now).sizes.shards) }
        requires numbers { (s : ℕ) → (state_of self.now).numbers s < numbers_end }
        ensures { result ≡ next_call (state_of self.now).numbers instr.now }
    {
        match shard_of(instr) {
            None => None,
            Some(shard) => call_of(instr, number_after(instr, self.number(shard))),
        }
    }

    /// Returns the call that a running stream stands before, with its handover number.
    pub fn next_call(&self, id: StreamId) -> Option<ServerCall>
        requires { IsWorking (whole_of self.now) }
        ensures { result ≡ next_call_of (state_of self.now) id }
    {
        match self.instruction_before(id) {
            None => None,
            Some(instr) => self.call_at_numbers(&instr),
        }
    }

    /// Returns the server that a publication of a shard lists.
    fn listed_next(&self, shard: ShardId) -> Option<ServerId>
        requires { shard < (state_of self.now).sizes.shards }
        ensures { result ≡ to_list (leads_of (state_of self.now).sizes (state_of self.now).place shard) }
    {
        match self.placement().lead(shard) {
            Some(lead) => listed_under(lead),
            None => None,
        }
    }

    /// Returns a shard's next entry of the published map, if it lists this server.
    fn entry_listing(&self, shard: ShardId, server: Option<ServerId>) -> (ShardId, Entry)
        requires shard { shard < (state_of self.now).sizes.shards }
        requires version { (state_of self.now).place.version shard < VERSIONS_END }
        ensures { result ≡ entry_listing (state_of self.now) shard server }
    {
        let version = self.placement().entry(shard).version + 1;
        (shard, Entry { server, version })
    }

    /// Returns the entry that an instruction adds to the published map, None if it adds none.
    fn entry_by(&self, instr: &Instr) -> Option<(ShardId, Entry)>
        requires shard { IfSome (shard_of instr.now) (λ s. s < (state_of self.now).sizes.shards) }
        requires versions { (s : ℕ) → s < (state_of self.now).sizes.shards
            → (state_of self.now).place.version s < VERSIONS_END }
        ensures { result ≡ entry_by (state_of self.now) (Some instr.now) }
    {
        match *instr {
            Instr::Publish { shard } => {
                let listed = self.listed_next(shard);
                Some(self.entry_listing(shard, listed))
            }
            Instr::Unlist { shard } => Some(self.entry_listing(shard, None)),
            _ => None,
        }
    }

    /// Returns the entry that a running stream stands before, with its shard.
    pub fn next_entry(&self, id: StreamId) -> Option<(ShardId, Entry)>
        requires { IsWorking (whole_of self.now) }
        ensures { result ≡ next_entry_of (state_of self.now) id }
    {
        match self.instruction_before(id) {
            None => None,
            Some(instr) => self.entry_by(&instr),
        }
    }

    /// Returns the signal that an instruction of a stream waits for, if it is not posted.
    fn unposted(&self, id: StreamId, instr: &Instr) -> Option<u32>
        requires begun { is_begun (state_of self.now) id ≡ true }
        requires signal { (q : ℕ) → instr.now ≡ Wait q → q < signal_count (state_of self.now) id.plan }
        ensures { result ≡ unposted (state_of self.now) id.plan (Some instr.now) }
    {
        match *instr {
            Instr::Wait { signal } => {
                if self.is_posted(id, signal) {
                    None
                } else {
                    Some(signal)
                }
            }
            _ => None,
        }
    }

    /// Returns the signal that a running stream waits for, if it is not posted.
    pub fn blocked_on(&self, id: StreamId) -> Option<u32>
        requires { IsWorking (whole_of self.now) }
        ensures { result ≡ blocked_on (state_of self.now) id }
    {
        match self.instruction_before(id) {
            None => None,
            Some(instr) => self.unposted(id, &instr),
        }
    }
}
