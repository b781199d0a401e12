//! Commands: what lines ask for.

use json_tree::Tree;

/// The mark by which a client tells its line.
#[derive(Clone, Copy)]
pub enum Id<'a> {
    Text(&'a str),
    Number(u64),
}

/// The answer of a server, or of the map's owner, to a fence.
#[derive(Clone, Copy)]
pub enum InventoryText<'t, 'a> {
    /// The map's owner tells that it is fenced, and no more.
    Map,
    /// The server has these slots.
    Slots(&'t [Tree<'a>]),
    /// The server has lost its slots, and asks for them under this nonce.
    Unknown { nonce: u64 },
}

/// The part of the state that a line asks for.
#[derive(Clone, Copy)]
pub enum StateOf<'a> {
    Whole,
    Shard(&'a str),
    Plan(u32),
}

/// The word of a server to a present order in place of an answer.
#[derive(Clone, Copy, Debug, PartialEq, Eq)]
pub enum FailedAnswer {
    Old,
    Refused,
    Foreign,
    NotReady,
}

/// The command of a line on a journal that is open.
#[derive(Clone, Copy)]
pub enum DriverCommand<'t, 'a> {
    /// To begin a plan under a name.
    Begin {
        plan: &'t Tree<'a>,
        name: &'a str,
    },
    /// To take the answer to an order or a publication.
    Answered {
        plan: u32,
        stream: u32,
        number: u64,
    },
    /// To give leave to restart a server, for whom it names.
    Approve {
        server: &'a str,
        by: &'a str,
    },
    /// To take the end of the restart that has this permit, of a server with this base.
    Restarted {
        permit: u64,
        base: Option<u64>,
    },
    /// To give a server that has lost its slots what is recorded of them.
    Restore {
        server: &'a str,
        nonce: u64,
    },
    /// To open the next epoch.
    NewEpoch,
    /// To note how many replicas of a shard have each acknowledged write.
    Copied {
        shard: &'a str,
        journal: u64,
        fence: u64,
        copies: u32,
    },
}

/// The command of a line on a reopening.
#[derive(Clone, Copy)]
pub enum ReopeningCommand<'t, 'a> {
    /// To begin a reopening over a document. Servers that are lost are given as texts that are names.
    Reopen {
        document: &'t Tree<'a>,
        lost: &'t [Tree<'a>],
        journal: Option<u64>,
        epoch: Option<u32>,
    },
    /// To take what a server tells, or the map's owner, which is no server.
    Fenced {
        server: Option<&'a str>,
        base: u64,
        told: InventoryText<'t, 'a>,
    },
    /// To confirm a proposal, but for the shards whose cells are given. Shards that may be lost are given as texts that
    /// are names.
    Confirm {
        base: u64,
        cells: &'t [Tree<'a>],
        lost: &'t [Tree<'a>],
    },
    /// To take the answer to a settle from a server, or from the map's owner, which is no server.
    Settled {
        server: Option<&'a str>,
        base: u64,
    },
}

/// The question of a line. It changes nothing.
#[derive(Clone, Copy)]
pub enum Question<'t, 'a> {
    /// What the program is, and where its journal stands.
    Hello,
    /// The present orders.
    Orders,
    /// All that is recorded, or what is recorded of one shard or plan.
    State { of: StateOf<'a> },
    /// The published map.
    Map,
    /// The service as a document.
    Document,
    /// What has come up since a place.
    Since { place: u64 },
    /// A question that is refused while a reopening is under way.
    InForce(PlanQuestion<'t, 'a>),
}

/// A question about the plans and slots of an epoch that is in force.
#[derive(Clone, Copy)]
pub enum PlanQuestion<'t, 'a> {
    /// Whether a plan would begin now.
    Check {
        plan: &'t Tree<'a>,
    },
    /// A plan of moves.
    Moves {
        moves: &'t [Tree<'a>],
    },
    /// A plan that empties a server.
    Drain {
        server: &'a str,
    },
    /// The slots of a server, read at a place, against the record.
    Audit {
        server: &'a str,
        place: u64,
        slots: &'t [Tree<'a>],
    },
    /// What to do about an order that has failed.
    Failed {
        plan: u32,
        stream: u32,
        number: u64,
        answer: FailedAnswer,
    },
}

/// The command of a line.
#[derive(Clone, Copy)]
pub enum LineCommand<'t, 'a> {
    /// To open a journal over the placement of a document.
    Open {
        document: &'t Tree<'a>,
        journal: u64,
        epoch: u32,
    },
    Driver(DriverCommand<'t, 'a>),
    Reopening(ReopeningCommand<'t, 'a>),
    Question(Question<'t, 'a>),
}
