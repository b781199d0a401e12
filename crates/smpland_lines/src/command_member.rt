//! The members of commands.

/// A member of a command, or of an entry of its lists; or the whole line.
#[derive(Clone, Copy, Debug, PartialEq, Eq)]
pub enum CommandMember {
    Command,
    Do,
    Id,
    Document,
    Journal,
    Epoch,
    Plan,
    Name,
    Stream,
    Number,
    Server,
    Shard,
    Moves,
    From,
    To,
    By,
    Permit,
    Nonce,
    Lost,
    Why,
    Base,
    Slots,
    Unknown,
    Cells,
    Place,
    Answer,
    Cell,
    Party,
    Handover,
    Last,
    Load,
    Cut,
    Position,
    View,
    Reached,
    State,
    Fence,
    Copies,
}

/// The members as they are written, in their order.
const TEXTS: [&str; 38] = [
    "command", "do", "id", "document", "journal", "epoch", "plan", "name", "stream", "number",
    "server", "shard", "moves", "from", "to", "by", "permit", "nonce", "lost", "why", "base",
    "slots", "unknown", "cells", "place", "answer", "cell", "party", "handover", "last", "load",
    "cut", "position", "view", "reached", "state", "fence", "copies",
];

impl CommandMember {
    ghost use Rattle.std.specs.Prelude.{◌≡◌};
    ghost use Rattle.smpland_lines.specs.Texts.{member_text};

    /// Returns the member as it is written.
    pub const fn text(self) -> &'static str
        ensures { result.now ≡ member_text self }
    {
        TEXTS[self as usize]
    }
}
