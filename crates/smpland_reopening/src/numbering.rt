//! The numbers of servers and shards while a reopening is under way: those that are recorded keep theirs, and the new
//! ones of a document follow in its order.
ghost use Rattle.std.specs.Prelude.{◌≡◌, ◌++◌, ◌∷◌, [], ℕ, ◌<◌, IfOk, OnOk, Some, length, map, slice_get};
ghost use Rattle.std.specs.List.{filter};
ghost use Rattle.sm_placement.specs.Config.{server_names, server_row, shard_names, shard_row, setup_of};
ghost use Rattle.sm_placement.specs.Setup.{names_of_servers, names_of_shards};
ghost use Rattle.smpland_reopening.specs.Numbers.{AreNumbered, KeepsNames, is_new_server, is_new_shard};
ghost use Rattle.smpland_reopening.specs.Numbers.{numbered_under, server_as_documented, shard_as_documented};

use crate::fault::ReopenFault;
use sm_placement::{Config, ConfigFault, MOST_SERVERS, MOST_SHARDS, Server, Shard};
use sm_server::{ServerId, ShardId};
use std::alloc::{AllocError, Global};

/// Servers, each at its number, and the numbers of a document's servers in its order.
#[derive(Drop)]
pub(crate) struct NumberedServers {
    pub rows: Vec<Server>,
    pub numbers: Vec<ServerId>,
}

/// Shards, each at its number, and the numbers of a document's shards in its order.
#[derive(Drop)]
pub(crate) struct NumberedShards {
    pub rows: Vec<Shard>,
    pub numbers: Vec<ShardId>,
}

/// Returns a recorded server as a document has it: without room if the document leaves it out.
fn documented_server(document: &Config, server: &Server) -> Result<Server, AllocError>
    ensures { IfOk result (λ row. server_row row ≡ server_as_documented document.now (server_row server.now)) }
{
    let room = match document.server_named(&server.name) {
        Some(number) => document.room(number),
        None => 0,
    };
    Ok(Server {
        name: server.name.clone()?,
        region: server.region.clone()?,
        room,
    })
}

/// Returns a recorded shard as a document has it: without replicas if the document leaves it out.
fn documented_shard(document: &Config, shard: &Shard) -> Result<Shard, AllocError>
    ensures { IfOk result (λ row. shard_row row ≡ shard_as_documented document.now (shard_row shard.now)) }
{
    let mut row = Shard {
        name: shard.name.clone()?,
        load: shard.load,
        want: 0,
        cap: 0,
        spread: 0,
    };
    if let Some(number) = document.shard_named(&shard.name) {
        let documented = document.shard(number);
        row.load = documented.load;
        row.want = documented.want;
        row.cap = documented.cap;
        row.spread = documented.spread;
    }
    Ok(row)
}

/// Gives a server the next number.
fn append_server(rows: &mut Vec<Server>, server: &Server) -> Result<(), AllocError>
    ensures names { OnOk result (server_names rows.new.items
        ≡ server_names rows.old.items ++ (server_row server.now).name ∷ []) }
    ensures rows { OnOk result (map server_row rows.new.items
        ≡ map server_row rows.old.items ++ server_row server.now ∷ []) }
{
    rows.push(server.clone()?)?;
    Ok(())
}

/// Returns the number that a document's server has, or otherwise gives it the next one.
#[tactic(auto, using(crate::proofs::Numbers::server_found, crate::proofs::Numbers::keeps_before, crate::proofs::Numbers::server_appended))]
fn server_number(
    rows: &mut Vec<Server>,
    recorded: &Config,
    server: &Server,
) -> Result<ServerId, ReopenFault>
    requires { KeepsNames (names_of_servers recorded.now) (server_names rows.old.items) }
    ensures kept { OnOk result (KeepsNames (server_names rows.old.items) (server_names rows.new.items)) }
    ensures number { IfOk result (λ number. slice_get (server_names rows.new.items) number
        ≡ Some (server_row server.now).name) }
    ensures rows { OnOk result (map server_row rows.new.items
        ≡ map server_row rows.old.items ++ filter (is_new_server recorded.now) (server_row server.now ∷ [])) }
{
    if let Some(number) = recorded.server_named(&server.name) {
        return Ok(number);
    }
    if rows.len() >= MOST_SERVERS {
        return Err(ReopenFault::TooMany);
    }
    let number = ServerId::new(rows.len() as u32);
    append_server(rows, server)?;
    Ok(number)
}

/// Notes the number of a document's next server.
fn note_server(numbers: &mut Vec<ServerId>, number: ServerId) -> Result<(), AllocError>
    ensures { OnOk result (numbers.new.items ≡ numbers.old.items ++ number ∷ []) }
{
    numbers.push(number)?;
    Ok(())
}

/// Gives a shard the next number.
fn append_shard(rows: &mut Vec<Shard>, shard: &Shard) -> Result<(), AllocError>
    ensures names { OnOk result (shard_names rows.new.items
        ≡ shard_names rows.old.items ++ (shard_row shard.now).name ∷ []) }
    ensures rows { OnOk result (map shard_row rows.new.items
        ≡ map shard_row rows.old.items ++ shard_row shard.now ∷ []) }
{
    rows.push(shard.clone()?)?;
    Ok(())
}

/// Returns the number that a document's shard has, or otherwise gives it the next one.
#[tactic(auto, using(crate::proofs::Numbers::shard_found, crate::proofs::Numbers::keeps_before, crate::proofs::Numbers::shard_appended))]
fn shard_number(
    rows: &mut Vec<Shard>,
    recorded: &Config,
    shard: &Shard,
) -> Result<ShardId, ReopenFault>
    requires { KeepsNames (names_of_shards recorded.now) (shard_names rows.old.items) }
    ensures kept { OnOk result (KeepsNames (shard_names rows.old.items) (shard_names rows.new.items)) }
    ensures number { IfOk result (λ number. slice_get (shard_names rows.new.items) number
        ≡ Some (shard_row shard.now).name) }
    ensures rows { OnOk result (map shard_row rows.new.items
        ≡ map shard_row rows.old.items ++ filter (is_new_shard recorded.now) (shard_row shard.now ∷ [])) }
{
    if let Some(number) = recorded.shard_named(&shard.name) {
        return Ok(number);
    }
    if rows.len() >= MOST_SHARDS {
        return Err(ReopenFault::TooMany);
    }
    let number = ShardId::new(rows.len() as u32);
    append_shard(rows, shard)?;
    Ok(number)
}

/// Notes the number of a document's next shard.
fn note_shard(numbers: &mut Vec<ShardId>, number: ShardId) -> Result<(), AllocError>
    ensures { OnOk result (numbers.new.items ≡ numbers.old.items ++ number ∷ []) }
{
    numbers.push(number)?;
    Ok(())
}

/// Returns the recorded servers as a document has them.
#[tactic(auto, using(crate::proofs::Numbers::server_names_next))]
fn recorded_servers(
    alloc: Global,
    recorded: &Config,
    document: &Config,
) -> Result<Vec<Server>, AllocError>
    ensures names { IfOk result (λ rows. server_names rows.items ≡ names_of_servers recorded.now) }
    ensures rows { IfOk result (λ rows. map server_row rows.items
        ≡ map (server_as_documented document.now) recorded.now.servers) }
{
    let mut rows = Vec::new(alloc);
    for number in 0..recorded.server_count() {
        let server = recorded.server(ServerId::new(number));
        rows.push(documented_server(document, server)?)?;
    }
    Ok(rows)
}

/// Returns the recorded shards as a document has them.
#[tactic(auto, using(crate::proofs::Numbers::shard_names_next))]
fn recorded_shards(
    alloc: Global,
    recorded: &Config,
    document: &Config,
) -> Result<Vec<Shard>, AllocError>
    ensures names { IfOk result (λ rows. shard_names rows.items ≡ names_of_shards recorded.now) }
    ensures rows { IfOk result (λ rows. map shard_row rows.items
        ≡ map (shard_as_documented document.now) recorded.now.shards) }
{
    let mut rows = Vec::new(alloc);
    for number in 0..recorded.shard_count() {
        let shard = recorded.shard(ShardId::new(number));
        rows.push(documented_shard(document, shard)?)?;
    }
    Ok(rows)
}

/// Numbers the servers that are recorded, and behind them those that are new in a document.
#[tactic(auto, using(crate::proofs::Numbers::none_numbered, crate::proofs::Numbers::numbered_next, crate::proofs::Numbers::server_name_at, sm_placement::proofs::ConfigLemmas::length_map))]
pub(crate) fn number_servers(
    alloc: Global,
    recorded: &Config,
    document: &Config,
) -> Result<NumberedServers, ReopenFault>
    ensures kept { IfOk result (λ numbered. KeepsNames (names_of_servers recorded.now)
        (server_names numbered.rows.items)) }
    ensures numbered { IfOk result (λ numbered. AreNumbered
        (server_names numbered.rows.items) numbered.numbers.items (names_of_servers document.now)) }
    ensures rows { IfOk result (λ numbered. map server_row numbered.rows.items
        ≡ (numbered_under recorded.now document.now).servers) }
{
    let mut rows = recorded_servers(alloc, recorded, document)?;
    let mut numbers = Vec::new(alloc);
    for place in 0..document.server_count() {
        let number = server_number(&mut rows, recorded, document.server(ServerId::new(place)))?;
        note_server(&mut numbers, number)?;
    }
    Ok(NumberedServers { rows, numbers })
}

/// Numbers the shards that are recorded, and behind them those that are new in a document.
#[tactic(auto, using(crate::proofs::Numbers::none_numbered, crate::proofs::Numbers::numbered_next, crate::proofs::Numbers::shard_name_at, sm_placement::proofs::ConfigLemmas::length_map))]
pub(crate) fn number_shards(
    alloc: Global,
    recorded: &Config,
    document: &Config,
) -> Result<NumberedShards, ReopenFault>
    ensures kept { IfOk result (λ numbered. KeepsNames (names_of_shards recorded.now)
        (shard_names numbered.rows.items)) }
    ensures numbered { IfOk result (λ numbered. AreNumbered (shard_names numbered.rows.items) numbered.numbers.items
        (names_of_shards document.now)) }
    ensures rows { IfOk result (λ numbered. map shard_row numbered.rows.items
        ≡ (numbered_under recorded.now document.now).shards) }
{
    let mut rows = recorded_shards(alloc, recorded, document)?;
    let mut numbers = Vec::new(alloc);
    for place in 0..document.shard_count() {
        let number = shard_number(&mut rows, recorded, document.shard(ShardId::new(place)))?;
        note_shard(&mut numbers, number)?;
    }
    Ok(NumberedShards { rows, numbers })
}

/// Returns a configuration of nothing.
pub(crate) fn no_config(alloc: Global) -> Result<Config, AllocError>
    ensures { IfOk result (λ config. config ≡ setup_of [] []) }
{
    match Config::new(alloc, &[], &[]) {
        Ok(config) => Ok(config),
        Err(ConfigFault::NoMemory) => Err(AllocError),
        Err(_) => unreachable!(),
    }
}
