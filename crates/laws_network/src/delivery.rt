//! Deliveries of orders to servers.
ghost use Rattle.std.specs.Prelude.{◌≡◌};
ghost use Rattle.laws_network.specs.Orders.{delivery_of};

use sm_server::{Call, Cell, Refusal, serve};

/// The result of an order at its server.
#[derive(Clone, Copy, Debug, PartialEq, Eq)]
pub enum Delivery {
    /// An order with a higher number has had its effect on the cell: this one has none, and is not answered.
    Old,
    /// It has had its effect before, and gets the same answer again.
    Again,
    /// It has its effect now, and this is the cell after it.
    Served(Cell),
    /// It can have no effect.
    Refused(Refusal),
}

/// Returns what a server makes of an order that comes to it, by what it alone has: the cell, and the number of the last
/// order that had an effect on it. `free_room` is what the server has left, and `load` what the shard needs if the
/// server has nothing of it yet.
pub fn deliver(
    cell: Cell,
    last: u64,
    number: u64,
    free_room: u64,
    load: u64,
    call: Call,
) -> Delivery
    ensures { result ≡ delivery_of cell last number free_room load call }
{
    if number < last {
        return Delivery::Old;
    }
    if number == last {
        return Delivery::Again;
    }
    match serve(cell, free_room, load, true, call) {
        Ok(next) => Delivery::Served(next),
        Err(why) => Delivery::Refused(why),
    }
}
