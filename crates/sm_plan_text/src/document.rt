//! A document, from its text.
ghost use Rattle.std.specs.Prelude.{◌≡◌, ◌≢◌, [], Option, Some, None, Ok, Err, IfOk, IfErr, OnOk, unwrap_or, map};
ghost use Rattle.sm_plan_text.specs.Words.{Data, view, noted, Scope, HasIds, row_of, id_named, setup_of, config_fault};
ghost use Rattle.sm_plan_text.specs.Words.{sizes_of, place_of, IsSettled, opened_place, open_fault, opening_of};
ghost use Rattle.sm_plan_text.specs.Words.{document_table, document_faults, rows_in, IsDocument, AreKept, IsWork};
ghost use Rattle.sm_plan_text.specs.Words.{work_noted, IsOutlined, IsOutline, data_of, read_data, read, rows_of};
ghost use Rattle.sm_plan_text.specs.Words.{rows_of_parts};

use crate::cursor::id_named;
use crate::limits::{DOWN_LIMIT, LOG_PLACES, MOST_EVENTS};
use crate::outline::{Early, Outline};
use crate::rows::{Servers, Shards, read_servers, read_shards};
use crate::{Cursor, Entry, Faults, Form, Member, Names, Rule, TextFault};
use json_tree::{ReadFault, Scratch, Tree};
use sm_placement::{
    Config, ConfigFault, MOST_SERVERS, MOST_SHARDS, OpenFault, Placement, Server, Shard,
};
use sm_plan_code::{MOST_MOVES, MOST_PLACES, MOST_PLANS, Move, Plan};
use sm_protocol::Event;
use sm_server::{Call, Cell, ServerId, ShardId};
use std::alloc::{AllocError, Global};

/// A document's content.
pub struct Document {
    pub config: Config,
    /// The cells that hold something, each with its shard and server.
    pub cells: Vec<(ShardId, ServerId, Cell)>,
    /// The published map's entry of each shard.
    pub listed: Vec<Option<ServerId>>,
    /// The servers that are down.
    pub down: Vec<ServerId>,
    /// The greatest number of servers that may be down at once.
    pub limit: u32,
    /// The number of places of the log.
    pub log: u32,
    /// The calls to make, each for a shard at a server.
    pub calls: Option<Vec<(ShardId, ServerId, Call)>>,
    /// The plan to check, to play or to run.
    pub plan: Option<Plan>,
    /// The plans to run beside each other.
    pub plans: Option<Vec<Plan>>,
    /// The events that are to happen, one after the other. They name a plan by its place among the plans of the
    /// document.
    pub events: Option<Vec<Event>>,
    /// The moves to make a plan for.
    pub moves: Option<Vec<Move>>,
    /// The server to make a plan for that empties it.
    pub drain: Option<ServerId>,
    /// The shards to ask for while plans run.
    pub asks: Vec<ShardId>,
}

impl Drop for Document {
    fn drop(self) {
        let Document {
            config: _config,
            cells: _cells,
            listed: _listed,
            down: _down,
            limit: _,
            log: _,
            calls: _calls,
            plan: _plan,
            plans: _plans,
            events: _events,
            moves: _moves,
            drain: _,
            asks: _asks,
        } = self;
    }
}

impl Document {
    /// Opens the placement that the document names, or returns the first reason why it is not opened, before which want
    /// of memory may come.
    pub fn open(&self, alloc: Global) -> Result<Placement, OpenFault>
        ensures ok { IfOk result (λ p. place_of p ≡ opened_place (opening_of (rows_of self.now))) }
        ensures setup { IfOk result (λ p. p.setup ≡ self.now.config) }
        ensures valid { OnOk result (open_fault (sizes_of self.now.config) (opening_of (rows_of self.now)) ≡ None) }
        ensures settled { IfOk result (λ p. IsSettled (sizes_of self.now.config) (place_of p)) }
        ensures refused { IfErr result (λ why. why ≢ OpenFault.NoMemory
            → open_fault (sizes_of self.now.config) (opening_of (rows_of self.now)) ≡ Some why) }
    {
        Placement::open(
            alloc,
            &self.config,
            self.cells.as_slice(),
            self.listed.as_slice(),
            self.down.as_slice(),
            self.limit,
        )
    }
}

/// The content of a document beside its servers and shards.
#[derive(Drop)]
struct Work {
    limit: u32,
    log: u32,
    calls: Option<Vec<(ShardId, ServerId, Call)>>,
    plan: Option<Plan>,
    plans: Option<Vec<Plan>>,
    events: Option<Vec<Event>>,
    moves: Option<Vec<Move>>,
    drain: Option<ServerId>,
    asks: Vec<ShardId>,
}

/// Returns the JSON value of the bytes.
#[tactic(auto, using(crate::proofs::Texts::data_of_text, crate::proofs::Texts::data_of_none))]
pub fn parse<'a>(
    alloc: Global,
    bytes: &'a [u8],
    scratch: &'a mut Scratch,
) -> Result<Tree<'a>, TextFault>
    ensures ok { IfOk result (λ value. data_of bytes.now ≡ Some (view value)) }
    ensures fault { IfErr result (λ why. why ≢ TextFault.NoMemory → why ≡ TextFault.NotJson) }
    ensures none { IfErr result (λ why. why ≢ TextFault.NoMemory → data_of bytes.now ≡ None) }
{
    let Ok(text) = str::from_utf8(bytes) else {
        return Err(TextFault::NotJson);
    };
    match Tree::read(alloc, text, scratch) {
        Ok(value) => Ok(value),
        Err(ReadFault::NoMemory) => Err(TextFault::NoMemory),
        Err(ReadFault::NotJson) => Err(TextFault::NotJson),
    }
}

/// Returns an outline of the JSON value of the bytes. If its lists cannot be read early, all of it is kept.
#[tactic(auto, using(crate::proofs::Texts::data_of_text, crate::proofs::Texts::data_of_none))]
fn outline_of<'a>(
    alloc: Global,
    bytes: &'a [u8],
    scratch: &'a mut Scratch,
    spare: &'a mut Scratch,
) -> Result<Outline<'a>, TextFault>
    ensures ok { IfOk result (λ outline. (d : Data) × (data_of bytes.now ≡ Some d) × IsOutline outline d) }
    ensures fault { IfErr result (λ why. why ≢ TextFault.NoMemory → why ≡ TextFault.NotJson) }
    ensures none { IfErr result (λ why. why ≢ TextFault.NoMemory → data_of bytes.now ≡ None) }
{
    if let Ok(text) = str::from_utf8(bytes) {
        match Outline::read_early(alloc, text, scratch) {
            Ok(outline) => return Ok(outline),
            Err(ReadFault::NoMemory) => return Err(TextFault::NoMemory),
            Err(ReadFault::NotJson) => {}
        }
    }
    let tree = parse(alloc, bytes, spare)?;
    Ok(Outline { tree, early: None })
}

/// Returns the members of a document.
fn document_rules() -> &'static [Rule]
    ensures { (scope : Scope) → map (row_of scope) result.now ≡ document_table scope.shards.now scope.servers.now }
{
    &[
        Rule::One(Member::Limit, Form::Whole(DOWN_LIMIT)),
        Rule::One(Member::Servers, Form::List(MOST_SERVERS)),
        Rule::One(Member::Shards, Form::List(MOST_SHARDS)),
        Rule::Maybe(Member::Log, Form::Whole(MOST_PLACES)),
        Rule::Maybe(Member::Calls, Form::List(MOST_EVENTS)),
        Rule::Maybe(Member::Plan, Form::Object),
        Rule::Maybe(Member::Plans, Form::List(MOST_PLANS)),
        Rule::Maybe(Member::Events, Form::List(MOST_EVENTS)),
        Rule::Maybe(Member::Moves, Form::List(MOST_MOVES)),
        Rule::Maybe(Member::Drain, Form::Server),
        Rule::Maybe(Member::Asks, Form::Asks),
    ]
}

/// A shard that is asked for. Its faults are those of the document itself.
impl Entry for ShardId {
    ghost value = { λ scope entry. unwrap_or (id_named scope.shards.now entry) 0 };

    ghost faults_of = { λ scope parent entry. [] };

    fn read(cursor: &Cursor<'_, '_>, _faults: &mut Faults) -> Result<Self, AllocError> {
        Ok(ShardId::new(id_named(cursor.tree, cursor.scope.shards).unwrap_or(0)))
    }
}

/// Reads what a document says beside its servers and shards, whose names the scope has.
fn read_work(
    cursor: &Cursor<'_, '_>,
    early: Option<Early>,
    faults: &mut Faults,
) -> Result<Work, AllocError>
    ensures work { (calls events : Option Data) → AreKept cursor.now.scope early (view cursor.now.tree.now) calls events
        → IfOk result (λ work. HasIds cursor.now.scope → faults.new.lowest ≡ None
        → IsWork cursor.now.scope (view cursor.now.tree.now) calls events work) }
    ensures faults { (calls events : Option Data)
        → AreKept cursor.now.scope early (view cursor.now.tree.now) calls events
        → OnOk result (faults.new.lowest ≡ work_noted cursor.now.scope
        (view cursor.now.tree.now) calls events faults.old.lowest) }
{
    let (calls, events) = match early {
        Some(early) => (early.calls, early.events),
        None => (None, None),
    };
    Ok(Work {
        limit: cursor.number(Member::Limit, DOWN_LIMIT),
        log: cursor.number_or(Member::Log, MOST_PLACES, LOG_PLACES),
        calls: cursor.list_or_early(Member::Calls, calls, faults)?,
        plan: cursor.inner(Member::Plan, faults)?,
        plans: cursor.list_or_none(Member::Plans, faults)?,
        events: cursor.list_or_early(Member::Events, events, faults)?,
        moves: cursor.list_or_none(Member::Moves, faults)?,
        drain: cursor.server_found(Member::Drain),
        asks: cursor.list(Member::Asks, faults)?,
    })
}

/// Reads the servers and shards of a document, which may be no configuration, and what it says beside them.
fn read_parts(
    alloc: Global,
    tree: &Tree<'_>,
    early: Option<Early>,
    faults: &mut Faults,
) -> Result<(Servers, Shards, Work), AllocError>
    ensures rows { (d : Data) → IsOutlined early (view tree.now) d
        → IfOk result (λ parts. faults.new.lowest ≡ None → rows_of_parts parts ≡ rows_in d) }
    ensures faults { (d : Data) → IsOutlined early (view tree.now) d
        → OnOk result (faults.new.lowest ≡ noted faults.old.lowest (document_faults d)) }
{
    // Some members of the document name what stands in its lists, and their faults come before those of the lists.
    let mut listed = Faults { lowest: None };
    let names = Names::new(alloc);
    let lists = Cursor::new(alloc, &*tree, Member::Document, &names, &names);
    let servers = read_servers(alloc, lists.entries(Member::Servers), &mut listed)?;
    let shard_items = lists.entries(Member::Shards);
    let shards = read_shards(alloc, shard_items, &servers.names, &mut listed)?;
    let (shard_names, server_names) = (&shards.names, &servers.names);
    let cursor = Cursor::new(alloc, &*tree, Member::Document, shard_names, server_names);
    cursor.note_own(document_rules(), faults)?;
    faults.append(listed);
    let work = read_work(&cursor, early, faults)?;
    Ok((servers, shards, work))
}

/// Makes the configuration of servers and shards that are one.
fn configuration(alloc: Global, servers: &[Server], shards: &[Shard]) -> Result<Config, AllocError>
    requires { config_fault (setup_of servers.now shards.now) ≡ None }
    ensures { IfOk result (λ config. config ≡ setup_of servers.now shards.now) }
{
    match Config::new(alloc, servers, shards) {
        Ok(config) => Ok(config),
        Err(ConfigFault::NoMemory) => Err(AllocError),
        Err(_) => unreachable!(),
    }
}

/// Reads the document of an outline: of a tree, and of the lists that were read early.
fn from_outline(alloc: Global, tree: &Tree<'_>, early: Option<Early>) -> Result<Document, TextFault>
    requires { (d : Data) × IsOutlined early (view tree.now) d }
    ensures ok { (d : Data) → IsOutlined early (view tree.now) d
        → IfOk result (λ document. read_data (Some d) ≡ Ok (rows_of document)) }
    ensures refused { (d : Data) → IsOutlined early (view tree.now) d
        → IfErr result (λ why. why ≢ TextFault.NoMemory → read_data (Some d) ≡ Err why) }
    ensures known { IfOk result (λ document. IsDocument (rows_of document)) }
{
    let mut faults = Faults { lowest: None };
    let (servers, shards, work) = read_parts(alloc, tree, early, &mut faults)?;
    if let Some(fault) = faults.lowest {
        return Err(fault);
    }
    let config = configuration(alloc, &servers.rows, &shards.rows)?;
    Ok(Document {
        config,
        cells: shards.cells,
        listed: shards.listed,
        down: servers.down,
        limit: work.limit,
        log: work.log,
        calls: work.calls,
        plan: work.plan,
        plans: work.plans,
        events: work.events,
        moves: work.moves,
        drain: work.drain,
        asks: work.asks,
    })
}

/// Reads a document from the bytes of its text.
pub fn read_document(alloc: Global, bytes: &[u8]) -> Result<Document, TextFault>
    ensures ok { IfOk result (λ document. read bytes.now ≡ Ok (rows_of document)) }
    ensures refused { IfErr result (λ why. why ≢ TextFault.NoMemory → read bytes.now ≡ Err why) }
    ensures known { IfOk result (λ document. IsDocument (rows_of document)) }
{
    let mut scratch = Scratch::new(alloc);
    let mut spare = Scratch::new(alloc);
    let outline = outline_of(alloc, bytes, &mut scratch, &mut spare)?;
    let Outline { tree, early } = outline;
    from_outline(alloc, &tree, early)
}

/// Reads a document that is a value of a text, as one that stands inside another object.
pub fn read_document_value(alloc: Global, value: &Tree<'_>) -> Result<Document, TextFault>
    ensures ok { IfOk result (λ document. read_data (Some (view value.now)) ≡ Ok (rows_of document)) }
    ensures refused { IfErr result (λ why. why ≢ TextFault.NoMemory → read_data (Some (view value.now)) ≡ Err why) }
    ensures known { IfOk result (λ document. IsDocument (rows_of document)) }
{
    from_outline(alloc, value, None)
}
