//! Permits of restarts.
ghost use Rattle.std.specs.Prelude.{◌≡◌, ◌≤◌, [], length, vec_capacity};
ghost use Rattle.sm_placement.specs.Layout.{place_of};
ghost use Rattle.sm_machine.specs.Permits.{filter_below};

use sm_placement::Placement;
use sm_server::ServerId;
use std::marker::Model;

/// The right to end the restart of a server. It can be neither copied nor dropped.
pub struct Permit {
    server: ServerId,
}

impl Model for Permit {
    ghost use Rattle.std.specs.Prelude.{ℕ};

    ghost Value = { ℕ };

    ghost view = { λ permit. permit.server };
}

impl Permit {
    /// Makes the permit for a server.
    pub(crate) fn new(server: ServerId) -> Permit
        ensures { result ≡ server }
    {
        Permit { server }
    }

    /// Returns the server that it is for.
    pub fn server(&self) -> ServerId
        ensures { result ≡ self.now }
    {
        self.server
    }

    /// Spends the permit, and returns the server that it was for.
    pub(crate) fn into_server(self) -> ServerId
        ensures { result ≡ self }
    {
        let Permit { server } = self;
        server
    }

    /// Ends with its machine.
    fn close(self) {
        let Permit { server: _ } = self;
    }
}

/// Makes a permit for each server that is down, by the servers' numbers.
pub(crate) fn permits_of(mut permits: Vec<Permit>, placement: &Placement) -> Vec<Permit>
    requires empty { permits.items ≡ [] }
    requires room { length placement.now.setup.servers ≤ vec_capacity permits }
    ensures { result.items ≡ filter_below (place_of placement.now).down (length placement.now.setup.servers) }
{
    for number in 0..placement.config().server_count() {
        let server = ServerId::new(number);
        if placement.is_down(server) {
            permits.push_reserved(Permit::new(server));
        }
    }
    permits
}

/// Ends permits with their machine. Takes no memory.
pub(crate) fn close_permits(mut permits: Vec<Permit>) {
    while let Some(permit) = permits.pop() {
        permit.close();
    }
    permits.destroy_empty();
}
