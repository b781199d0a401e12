//! The servers and shards of a document, with the shards' cells.
ghost use Rattle.std.specs.Prelude.{◌≡◌, ◌++◌, ◌∷◌, [], map, length, IfOk, OnOk, if◌then◌else◌};
ghost use Rattle.sm_plan_text.specs.Words.{bytes_eq, insert_key, view, noted, text_in, flag_in, names_in, entries_in};
ghost use Rattle.sm_plan_text.specs.Words.{id_of, own_faults, walked, cell_in, server_row, server_table, server_faults};
ghost use Rattle.sm_plan_text.specs.Words.{server_in, down_in, shard_row, cap_limit, shard_table, faults_of_shard};
ghost use Rattle.sm_plan_text.specs.Words.{shard_faults, shard_in, listed_in, cell_faults, named_cell, cells_of_shard};
ghost use Rattle.sm_plan_text.specs.Words.{cells_in};
ghost use Rattle.sm_plan_text.specs.declared.member.Member.TheVariants as members;

use crate::cursor::id;
use crate::limits::LOAD_LIMIT;
use crate::rule::{Form, LISTED, Rule, SERVER};
use crate::{Cursor, Faults, Member, Names};
use json_tree::Tree;
use sm_placement::{MOST_CELLS, MOST_REPLICAS, Server, Shard};
use sm_server::{Cell, Role, ServerId, ShardId};
use std::alloc::{AllocError, Global};

/// The servers that have been read, their names, and those that are down.
#[derive(Drop)]
pub struct Servers {
    pub rows: Vec<Server>,
    pub names: Names,
    pub down: Vec<ServerId>,
}

const SERVER_RULES: &[Rule] = &[
    Rule::One(Member::Name, Form::NewServer),
    Rule::One(Member::Region, Form::Name),
    Rule::One(Member::Room, Form::Whole(LOAD_LIMIT)),
    Rule::Maybe(Member::Down, Form::Flag),
];

/// Reads one server more.
#[tactic(auto, using(std::proofs::lemmas::List::map_push))]
fn add_server(
    alloc: Global,
    object: &Tree<'_>,
    servers: &mut Servers,
    faults: &mut Faults,
) -> Result<(), AllocError>
    ensures rows { OnOk result (map server_row servers.new.rows.items
        ≡ map server_row servers.old.rows.items ++ server_in (view object.now) ∷ []) }
    ensures names { OnOk result (servers.new.names
        ≡ insert_key bytes_eq servers.old.names (text_in members.Name (view object.now))) }
    ensures down { OnOk result (servers.new.down.items
        ≡ (if flag_in members.Down (view object.now) then servers.old.down.items
        ++ id_of (length servers.old.rows.items) ∷ [] else servers.old.down.items)) }
    ensures faults { OnOk result (faults.new.lowest
        ≡ noted faults.old.lowest (own_faults members.Servers (server_table servers.old.names) (view object.now))) }
{
    let names = &servers.names;
    let cursor = Cursor::new(alloc, object, Member::Servers, names, names);
    cursor.note_own(SERVER_RULES, faults)?;
    let row = Server {
        name: cursor.name(Member::Name)?,
        region: cursor.name(Member::Region)?,
        room: u64::from(cursor.number(Member::Room, LOAD_LIMIT)),
    };
    let name = cursor.name(Member::Name)?;
    let is_down = cursor.flag(Member::Down);
    let server = ServerId::new(id(servers.rows.len()));
    servers.names.insert(name)?;
    servers.rows.push(row)?;
    if is_down {
        servers.down.push(server)?;
    }
    Ok(())
}

/// Reads the servers of a list.
pub fn read_servers(
    alloc: Global,
    items: &[Tree<'_>],
    faults: &mut Faults,
) -> Result<Servers, AllocError>
    ensures rows { IfOk result (λ servers. map server_row servers.rows.items ≡ map server_in (map view items.now)) }
    ensures names { IfOk result (λ servers. servers.names ≡ names_in (map view items.now)) }
    ensures down { IfOk result (λ servers. servers.down.items ≡ down_in (map view items.now)) }
    ensures faults { OnOk result (faults.new.lowest
        ≡ noted faults.old.lowest (walked server_faults [] (map view items.now))) }
{
    let mut servers = Servers {
        rows: Vec::with_capacity(alloc, items.len())?,
        names: Names::new(alloc),
        down: Vec::new(alloc),
    };
    for item in items {
        add_server(alloc, item, &mut servers, faults)?;
    }
    Ok(servers)
}

/// A cell with the shard and the server that it is of.
type NamedCell = (ShardId, ServerId, Cell);

/// The shards that have been read, their names, what the published map says of each, and their cells.
#[derive(Drop)]
pub struct Shards {
    pub rows: Vec<Shard>,
    pub names: Names,
    pub listed: Vec<Option<ServerId>>,
    pub cells: Vec<NamedCell>,
}

/// Returns the greatest number of a shard's replicas that may be away at once.
fn cap_limit(shard: &Cursor<'_, '_>) -> u32
    ensures { result ≡ cap_limit (view shard.now.tree.now) }
{
    match shard.whole_number(Member::Want) {
        Some(want) => want.min(u64::from(MOST_REPLICAS)) as u32,
        None => MOST_REPLICAS,
    }
}

/// Returns the cell of a replica in a role.
fn cell_of(role: Role) -> Cell
    ensures { result ≡ cell_in role }
{
    match role {
        Role::Primary => Cell::Primary,
        Role::Secondary => Cell::Secondary,
    }
}

/// Reads the cells of a shard.
fn add_cells(
    cursor: &Cursor<'_, '_>,
    shard: ShardId,
    cells: &mut Vec<NamedCell>,
    faults: &mut Faults,
) -> Result<(), AllocError>
    ensures cells { OnOk result (cells.new.items
        ≡ cells.old.items ++ map (named_cell cursor.now.scope.servers.now shard)
        (entries_in members.Cells (view cursor.now.tree.now))) }
    ensures faults { OnOk result (faults.new.lowest
        ≡ noted faults.old.lowest (walked (cell_faults cursor.now.scope.servers.now) []
        (entries_in members.Cells (view cursor.now.tree.now)))) }
{
    let items = cursor.entries(Member::Cells);
    for tree in items {
        let cell = Cursor {
            tree,
            member: Member::Cells,
            ..*cursor
        };
        cell.note_own(&[SERVER, Rule::One(Member::State, Form::Role)], faults)?;
        let state = cell_of(cell.role(Member::State));
        cells.push((shard, cell.server(Member::Server), state))?;
    }
    Ok(())
}

/// Notes the faults of a shard itself.
fn note_shard(
    cursor: &Cursor<'_, '_>,
    most_cells: usize,
    faults: &mut Faults,
) -> Result<(), AllocError>
    ensures { OnOk result (faults.new.lowest ≡ noted faults.old.lowest
        (own_faults cursor.now.member (shard_table cursor.now.scope.servers.now cursor.now.scope.shards.now
        most_cells (view cursor.now.tree.now)) (view cursor.now.tree.now))) }
{
    let rules = [
        Rule::One(Member::Name, Form::NewShard),
        Rule::One(Member::Load, Form::Whole(LOAD_LIMIT)),
        Rule::One(Member::Want, Form::Whole(MOST_REPLICAS)),
        Rule::One(Member::Cap, Form::Whole(cap_limit(cursor))),
        Rule::One(Member::Spread, Form::Whole(MOST_REPLICAS)),
        LISTED,
        Rule::One(Member::Cells, Form::List(most_cells)),
    ];
    cursor.note_own(&rules, faults)
}

/// Reads one shard more.
#[tactic(auto, using(std::proofs::lemmas::List::map_push, crate::proofs::WalkLemmas::noted_append))]
fn add_shard(
    alloc: Global,
    object: &Tree<'_>,
    servers: &Names,
    shards: &mut Shards,
    faults: &mut Faults,
) -> Result<(), AllocError>
    ensures rows { OnOk result (map shard_row shards.new.rows.items
        ≡ map shard_row shards.old.rows.items ++ shard_in (view object.now) ∷ []) }
    ensures names { OnOk result (shards.new.names
        ≡ insert_key bytes_eq shards.old.names (text_in members.Name (view object.now))) }
    ensures listed { OnOk result (shards.new.listed.items
        ≡ shards.old.listed.items ++ listed_in servers.now (view object.now) ∷ []) }
    ensures cells { OnOk result (shards.new.cells.items
        ≡ shards.old.cells.items ++ cells_of_shard servers.now (length shards.old.rows.items, view object.now)) }
    ensures faults { OnOk result (faults.new.lowest
        ≡ noted faults.old.lowest (faults_of_shard servers.now shards.old.names (length shards.old.cells.items)
        (view object.now))) }
{
    let most_cells = MOST_CELLS.saturating_sub(shards.cells.len());
    let cursor = Cursor::new(alloc, object, Member::Shards, &shards.names, servers);
    note_shard(&cursor, most_cells, faults)?;
    let shard = ShardId::new(id(shards.rows.len()));
    add_cells(&cursor, shard, &mut shards.cells, faults)?;
    let row = Shard {
        name: cursor.name(Member::Name)?,
        load: u64::from(cursor.number(Member::Load, LOAD_LIMIT)),
        want: cursor.number(Member::Want, MOST_REPLICAS),
        cap: cursor.number(Member::Cap, cap_limit(&cursor)),
        spread: cursor.number(Member::Spread, MOST_REPLICAS),
    };
    let name = cursor.name(Member::Name)?;
    shards.listed.push(cursor.server_found(Member::Listed))?;
    shards.names.insert(name)?;
    shards.rows.push(row)?;
    Ok(())
}

/// Reads the shards of a list.
pub fn read_shards(
    alloc: Global,
    items: &[Tree<'_>],
    servers: &Names,
    faults: &mut Faults,
) -> Result<Shards, AllocError>
    ensures rows { IfOk result (λ shards. map shard_row shards.rows.items ≡ map shard_in (map view items.now)) }
    ensures names { IfOk result (λ shards. shards.names ≡ names_in (map view items.now)) }
    ensures listed { IfOk result (λ shards. shards.listed.items ≡ map (listed_in servers.now) (map view items.now)) }
    ensures cells { IfOk result (λ shards. shards.cells.items ≡ cells_in servers.now (map view items.now)) }
    ensures faults { OnOk result (faults.new.lowest
        ≡ noted faults.old.lowest (walked (shard_faults servers.now) [] (map view items.now))) }
{
    let mut shards = Shards {
        rows: Vec::with_capacity(alloc, items.len())?,
        names: Names::new(alloc),
        listed: Vec::with_capacity(alloc, items.len())?,
        cells: Vec::new(alloc),
    };
    for item in items {
        add_shard(alloc, item, servers, &mut shards, faults)?;
    }
    Ok(shards)
}
