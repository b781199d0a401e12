//! Steps that are no calls.
ghost use Rattle.std.specs.Prelude.{◌≡◌, ◌<◌, None};
ghost use Rattle.sm_placement.specs.Sums.{put2};
ghost use Rattle.sm_reservation.specs.Hold.{minus, plus};
ghost use Rattle.sm_plan_code.specs.declared.instruction.Instr.TheVariants as instr;
ghost use Rattle.sm_protocol.specs.State.{parcel_at};
ghost use Rattle.sm_protocol.specs.Steps.{entry_added, posted};
ghost use Rattle.sm_machine.specs.Course.{hold_in, rights_in, capacity_in};
ghost use Rattle.sm_machine.specs.State.{whole_of, state_of, grant_of, with_state};
ghost use Rattle.sm_machine.specs.Ready.{IsReadyToGo, IsReadyToPublish, IsReadyToPost, IsReadyToTake, IsReadyToEnd};
ghost use Rattle.sm_machine.specs.Steps.{went_on, taken, ended_whole};

use crate::engine::Engine;
use sm_protocol::Played;
use sm_reservation::StreamId;
use sm_server::{ServerId, ShardId};

impl Engine {
    /// Records a step of a stream, which then stands behind an instruction that is no call.
    fn go_on(&mut self, id: StreamId)
        requires { IsReadyToGo (state_of self.old) id }
        ensures { whole_of self.new ≡ with_state (whole_of self.old) (went_on (state_of self.old) id) }
    {
        let progress = self.progress(id);
        self.set_progress(id, progress.behind());
        self.record_step(id, Played::Moved);
    }

    /// Publishes another entry of a shard in the map, for a stream's instruction.
    pub fn step_publish(&mut self, id: StreamId, shard: ShardId, listed: Option<ServerId>)
        requires { IsReadyToPublish (state_of self.old) id shard listed }
        ensures { whole_of self.new ≡ with_state (whole_of self.old)
            (entry_added (state_of self.old) id shard listed).1 }
    {
        self.entries_fit();
        self.go_on(id);
        self.publish(shard, listed);
    }

    /// Posts a signal, for a stream.
    pub fn step_signal(&mut self, id: StreamId, signal: u32)
        requires { IsReadyToPost (whole_of self.old) id signal }
        ensures whole { whole_of self.new ≡ record
            (whole_of self.old) {
              state = (posted (state_of self.old) id signal).1;
              grants = put2
                  (whole_of self.old).grants id.plan id.stream (grant_of self.new id);
              parcels = put2
                  (whole_of self.old).parcels id.plan signal ((whole_of self.new).parcels id.plan signal);
            } }
        ensures sent { hold_in ((whole_of self.new).parcels id.plan signal)
            ≡ plus (hold_in ((whole_of self.old).parcels id.plan signal))
            (parcel_at (state_of self.old) id.plan signal) }
        ensures left { hold_in (grant_of self.new id)
            ≡ minus (hold_in (grant_of self.old id)) (parcel_at (state_of self.old) id.plan signal) }
        ensures kept { capacity_in (grant_of self.new id) ≡ capacity_in (grant_of self.old id) }
    {
        self.post(id, signal);
        self.go_on(id);
    }

    /// Gives a stream the parcel of a signal that was posted.
    pub fn step_wait(&mut self, id: StreamId, signal: u32)
        requires { IsReadyToTake (whole_of self.old) id signal }
        ensures whole { whole_of self.new ≡ record
            (whole_of self.old) {
              state = taken (state_of self.old) id signal;
              grants = put2
                  (whole_of self.old).grants id.plan id.stream (grant_of self.new id);
              parcels = put2
                  (whole_of self.old).parcels id.plan signal None;
            } }
        ensures hold { hold_in (grant_of self.new id)
            ≡ plus (hold_in (grant_of self.old id)) (rights_in ((whole_of self.old).parcels id.plan signal)) }
        ensures kept { capacity_in (grant_of self.new id) ≡ capacity_in (grant_of self.old id) }
    {
        self.wait(id, signal);
        self.go_on(id);
    }

    /// Ends a stream, and sets the number of places of the log that are free then.
    pub fn step_end(&mut self, id: StreamId, free: u64)
        requires { IsReadyToEnd (whole_of self.old) id }
        ensures { whole_of self.new ≡ ended_whole (whole_of self.old) id free }
    {
        self.give_back(id);
        self.finish_one(id);
        self.set_free(free);
        self.record_step(id, Played::Done);
    }
}
