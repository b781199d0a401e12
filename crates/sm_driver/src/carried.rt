//! Servers that a reopening has carried over.
ghost use Rattle.std.specs.Prelude.{◌≡◌, ◌<◌, ◌&&◌, IfOk, length, slice_set, false};
ghost use Rattle.sm_placement.specs.Layout.{place_of};
ghost use Rattle.sm_driver.specs.Carried.{carried_down, was_carried};

use sm_placement::Placement;
use sm_server::ServerId;
use std::alloc::{AllocError, Global};
use std::marker::Model;

/// Marks of the servers that are carried over, by the servers' numbers.
#[derive(Drop)]
pub(crate) struct CarriedServers {
    marks: Vec<bool>,
}

impl Model for CarriedServers {
    ghost use Rattle.std.specs.Prelude.{Bool, List};

    ghost Value = { List Bool };

    ghost view = { λ c. c.marks.items };
}

/// Whether a server is marked as carried over, and down in a placement.
fn is_carried_down(placement: &Placement, marks: &[bool], server: u32) -> bool
    requires { server < length placement.now.setup.servers }
    ensures { result ≡ (was_carried marks.now server && (place_of placement.now).down server) }
{
    match marks.get(server as usize) {
        None => false,
        Some(mark) => *mark && placement.is_down(ServerId::new(server)),
    }
}

impl CarriedServers {
    /// Those of the marked servers that are down in a placement.
    #[tactic(auto, using(crate::proofs::Lists::mapped_more))]
    pub fn at_opening(
        alloc: Global,
        placement: &Placement,
        marks: &[bool],
    ) -> Result<CarriedServers, AllocError>
        ensures { IfOk result (λ carried. carried
            ≡ carried_down marks.now (length placement.now.setup.servers) (place_of placement.now).down) }
    {
        let mut kept = Vec::new(alloc);
        for number in 0..placement.config().server_count() {
            kept.push(is_carried_down(placement, marks, number))?;
        }
        Ok(CarriedServers { marks: kept })
    }

    /// The marks of all servers, by the servers' numbers.
    pub fn as_slice(&self) -> &[bool]
        ensures { result.now ≡ self.now }
    {
        self.marks.as_slice()
    }

    /// Takes a server's mark away.
    pub fn clear(&mut self, server: ServerId)
        requires { server < length self.old }
        ensures { self.new ≡ slice_set self.old server false }
    {
        self.marks[server.number() as usize] = false;
    }
}
