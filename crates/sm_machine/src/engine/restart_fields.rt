#![tactic(auto, unfolding(crate::specs::State::whole_of))]
//! The fields of a machine that restarts read and change: which servers are down, the pool that pays for it, and the
//! list of unfinished plans. `restarting` records what happens.
ghost use Rattle.std.specs.Prelude.{◌≡◌, ◌<◌, ◌^◌, Some, None, OnOk, IfErr, false, length, IsTrue};
ghost use Rattle.sm_placement.specs.Place.{set_down};
ghost use Rattle.sm_machine.specs.State.{whole_of, state_of};
ghost use Rattle.sm_task_controller.specs.Decision.{denial};
ghost use Rattle.sm_machine.specs.Engaged.{engaged_by};
ghost use Rattle.sm_machine.specs.SpareReplicas.{live_there, CanPayLive, CanGetLive};
ghost use Rattle.sm_machine.specs.Restarted.{down_whole, up_whole};
ghost use Rattle.sm_machine.specs.Unfinished.{unfinished_below};

use crate::engine::Engine;
use crate::spare_replicas::{get_live, pay_live};
use sm_reservation::StreamId;
use sm_server::ServerId;
use sm_task_controller::{Approved, Denied, decide};

impl Engine {
    /// Tells whether the server is known, and down.
    pub fn is_down(&self, server: ServerId) -> bool
        ensures down { result ≡ (state_of self.now).place.down server }
        ensures known { IsTrue result → server < (state_of self.now).sizes.servers }
    {
        let servers = self.placement.config().server_count();
        server.number() < servers && self.placement.is_down(server)
    }

    /// Brings a server up: the spare replicas that are live at it are in the pool again.
    pub fn bring_up(&mut self, server: ServerId)
        requires server { server < (state_of self.old).sizes.servers }
        requires fits { CanGetLive (whole_of self.old).pool
            (live_there (set_down (state_of self.old).place server false) server)
            (state_of self.old).sizes.shards }
        ensures { whole_of self.new ≡ up_whole (whole_of self.old) server }
    {
        self.placement.set_up(server);
        get_live(&mut self.pool, &self.placement, server);
    }

    /// Takes a server down: the spare replicas that were live at it are out of the pool.
    pub fn take_down(&mut self, server: ServerId)
        requires server { server < (state_of self.old).sizes.servers }
        requires spare { CanPayLive (whole_of self.old).pool (live_there (state_of self.old).place server)
            (state_of self.old).sizes.shards }
        ensures { whole_of self.new ≡ down_whole (whole_of self.old) server }
    {
        pay_live(&mut self.pool, &self.placement, server);
        self.placement.set_down(server);
    }

    /// Returns the unfinished plans, by their numbers, in the order of their starts.
    pub fn unfinished(&self) -> &[u32]
        ensures { result.now ≡ unfinished_below (whole_of self.now).unfinished (length (state_of self.now).plans) }
    {
        self.unfinished.as_slice()
    }

    /// Returns the lowest stream of a plan that engages a server.
    pub fn engaged_by(&self, plan: u32, server: ServerId) -> Option<StreamId>
        requires { plan < length (state_of self.now).plans }
        ensures { result ≡ engaged_by (state_of self.now) server plan }
    {
        self.plans.at(plan as usize).engaged(plan, server)
    }

    /// Decides whether a server may be restarted now, if its lowest engaging stream is this one.
    pub fn decide(&self, server: ServerId, engaged: Option<StreamId>) -> Result<Approved, Denied>
        requires server { server < (state_of self.now).sizes.servers }
        requires free { (whole_of self.now).free < 2 ^ 32 }
        ensures approved { OnOk result (denial (state_of self.now).sizes (state_of self.now).place
            (whole_of self.now).pool engaged (whole_of self.now).free server ≡ None) }
        ensures denied { IfErr result (λ why. denial (state_of self.now).sizes (state_of self.now).place
            (whole_of self.now).pool engaged (whole_of self.now).free server ≡ Some why) }
    {
        decide(
            &self.placement,
            &self.pool,
            engaged,
            self.free as u32,
            server,
        )
    }
}
