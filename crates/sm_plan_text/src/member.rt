//! The members of a document's objects.
ghost use Rattle.std.specs.Prelude.{◌≡◌, Some};
ghost use Rattle.sm_plan_text.specs.Members.{text_of};

use std::fmt;

/// A member of an object. The whole text, a document or a plan counts as one too, if that is no object or has a member
/// that it does not know.
#[derive(Clone, Copy, Debug, PartialEq, Eq)]
pub enum Member {
    Document,
    Limit,
    Servers,
    Shards,
    Log,
    Calls,
    Name,
    Region,
    Room,
    Down,
    Load,
    Want,
    Cap,
    Spread,
    Listed,
    Cells,
    Server,
    State,
    Call,
    Shard,
    Role,
    From,
    To,
    Other,
    Number,
    Plan,
    Plans,
    Format,
    Budget,
    Signals,
    Streams,
    Retries,
    Holds,
    Code,
    Crowns,
    Spare,
    Amount,
    Lead,
    Do,
    Signal,
    Events,
    Event,
    Stream,
    Ticket,
    When,
    More,
    Moves,
    Drain,
    Asks,
}

/// The texts of the members, in their order.
const TEXTS: [&str; 49] = [
    "document", "limit", "servers", "shards", "log", "calls", "name", "region", "room", "down",
    "load", "want", "cap", "spread", "listed", "cells", "server", "state", "call", "shard", "role",
    "from", "to", "other", "number", "plan", "plans", "format", "budget", "signals", "streams",
    "retries", "holds", "code", "crowns", "spare", "amount", "lead", "do", "signal", "events",
    "event", "stream", "ticket", "when", "more", "moves", "drain", "asks",
];

impl Member {
    /// Returns the member as it is written.
    pub const fn text(self) -> &'static str
        ensures { result.now ≡ text_of self }
    {
        TEXTS[self as usize]
    }
}

impl fmt::Display for Member {
    ghost output = { λ member. Some (text_of member) };

    fn fmt<W: fmt::Write>(&self, f: &mut fmt::Formatter<W>) -> fmt::Result {
        f.write_str(self.text())
    }
}
