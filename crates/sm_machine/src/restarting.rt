//! Restarts as events: an approval and an end, each recorded with its change; and which stream engages a server.
ghost use Rattle.std.specs.Prelude.{◌≡◌, ◌<◌, None, true};
ghost use Rattle.sm_task_controller.specs.Decision.{denial};
ghost use Rattle.sm_protocol.specs.Happens.{engaged};
ghost use Rattle.sm_machine.specs.State.{whole_of, state_of};
ghost use Rattle.sm_machine.specs.Working.{IsWorking};
ghost use Rattle.sm_machine.specs.Restarted.{approved_whole, restarted_whole};

use crate::engine::Engine;
use sm_protocol::{Event, Played};
use sm_reservation::StreamId;
use sm_server::ServerId;

impl Engine {
    /// Ends a restart: the server is up.
    pub fn end_restart(&mut self, server: ServerId)
        requires working { IsWorking (whole_of self.old) }
        requires server { server < (state_of self.old).sizes.servers }
        requires down { (state_of self.old).place.down server ≡ true }
        ensures { whole_of self.new ≡ restarted_whole (whole_of self.old) server }
    {
        self.record(Event::Done { server }, Played::Up);
        self.bring_up(server);
    }

    /// Begins a restart: the server is down.
    pub fn start_restart(&mut self, server: ServerId)
        requires working { IsWorking (whole_of self.old) }
        requires server { server < (state_of self.old).sizes.servers }
        requires granted { denial (state_of self.old).sizes (state_of self.old).place (whole_of self.old).pool
            (engaged (state_of self.old) server) (whole_of self.old).free server ≡ None }
        ensures { whole_of self.new ≡ approved_whole (whole_of self.old) server }
    {
        self.record(Event::Approve { server }, Played::Approved);
        self.take_down(server);
        let free = self.free().saturating_sub(2);
        self.set_free(free);
    }

    /// Returns the lowest stream that engages a server.
    pub fn engaged(&self, server: ServerId) -> Option<StreamId>
        requires { IsWorking (whole_of self.now) }
        ensures { result ≡ engaged (state_of self.now) server }
    {
        let plans = self.unfinished();
        for plan in plans {
            let found = self.engaged_by(*plan, server);
            if found.is_some() {
                return found;
            }
        }
        None
    }
}
