//! The servers and shards that placements are of.
ghost use Rattle.std.specs.Prelude.{◌≡◌, ◌≢◌, ◌≤◌, ◌<◌, ◌-◌, ◌++◌, ◌∷◌, ◌&&◌, [], true, false, not, map, Some, None};
ghost use Rattle.std.specs.Prelude.{length, position, string_bytes, is_none, IsTrue, IfOk, OnOk, IfErr, IfSome};
ghost use Rattle.std.specs.List.{list_any, list_all};
ghost use Rattle.std.specs.Cmp.Lexicographic.{pointwise};
ghost use Rattle.std.specs.Str.{bytes_eq};
ghost use Rattle.sm_placement.specs.declared.config.ConfigFault.TheVariants.{NoMemory};
ghost use Rattle.sm_placement.specs.Names.{is_name_byte, is_name, has_double};
ghost use Rattle.sm_placement.specs.Setup.{is_too_large, is_well_named_server, is_well_named_shard, has_good_names};
ghost use Rattle.sm_placement.specs.Setup.{is_good_server, is_good_shard, has_good_numbers, same_server, same_shard};
ghost use Rattle.sm_placement.specs.Config.{server_row, shard_row, setup_of, server_names, shard_names};

use crate::limits::{MOST_LOAD, MOST_NAME_BYTES, MOST_REPLICAS, MOST_SERVERS, MOST_SHARDS};
use indexmap::IndexSet;
use sm_server::{ServerId, ShardId};
use std::alloc::{AllocError, Global};
use std::marker::Model;
use thiserror::Error;

/// A server: its name, its region, and its room, which is the load that it can take.
#[derive(Clone, Debug, Drop, PartialEq, Eq)]
pub struct Server {
    pub name: String,
    pub region: String,
    pub room: u64,
}

/// A shard: its name, the load of each replica, and three numbers: how many replicas it wants, how many of these may be
/// away at once, and in how many regions the replicas are to stand.
#[derive(Clone, Debug, Drop, PartialEq, Eq)]
pub struct Shard {
    pub name: String,
    pub load: u64,
    pub want: u32,
    pub cap: u32,
    pub spread: u32,
}

impl Shard {
    /// Returns the floor: the number of live replicas that the shard never falls below.
    pub fn floor(&self) -> u32
        ensures { result ≡ self.now.want - self.now.cap }
    {
        self.want.saturating_sub(self.cap)
    }
}

/// Why servers and shards are no configuration.
#[derive(Clone, Copy, Debug, PartialEq, Eq, Error)]
pub enum ConfigFault {
    /// There was no memory for the copies and the tables of names.
    #[error("out of memory")]
    NoMemory,
    /// There are more servers or more shards than a configuration may have.
    #[error("more than 1024 servers or 4096 shards")]
    TooMany,
    /// A server's or shard's name, or a region, has no bytes, too many, or one that may not stand there.
    #[error("a name or region is not 1 to 32 letters, digits, '-', '_' or '.'")]
    BadName,
    /// Two servers have one name, or two shards. A server and a shard may share one.
    #[error("two servers or two shards have one name")]
    DoubleName,
    /// A room, load, want, cap or spread is above its limit, or a cap is above its shard's want.
    #[error("a number is above its limit, or a shard's cap is above its want")]
    BadNumber,
}

/// Servers and shards, each with the number of its position.
#[derive(Debug)]
pub struct Config {
    servers: Vec<Server>,
    shards: Vec<Shard>,
    server_names: IndexSet<String>,
    shard_names: IndexSet<String>,
}

/// Drops everything in one call, instead of one call for each list.
impl Drop for Config {
    fn drop(self) {
        let Config {
            servers,
            shards,
            server_names,
            shard_names,
        } = self;
        drop(servers);
        drop(shards);
        drop(server_names);
        drop(shard_names);
    }
}

impl Model for Config {
    ghost use Rattle.std.specs.Prelude.{◌≡◌, map, string_bytes};
    ghost use Rattle.sm_placement.specs.Setup.{Setup, IsSetup, names_of_servers, names_of_shards};

    ghost Value = { Setup };

    ghost use Rattle.sm_placement.specs.Config.{setup_of};

    ghost view = { λ c. setup_of c.servers.items c.shards.items };

    ghost invariant = { λ c. (map string_bytes c.server_names.keys ≡ names_of_servers (setup_of c.servers.items c.shards.items)) × (map string_bytes c.shard_names.keys ≡ names_of_shards (setup_of c.servers.items c.shards.items)) × IsSetup (setup_of c.servers.items c.shards.items) };
}

impl From<AllocError> for ConfigFault {
    ghost from_gives = { λ _ why. why ≡ NoMemory };

    fn from(_error: AllocError) -> ConfigFault {
        ConfigFault::NoMemory
    }
}

/// Tells whether a byte may stand in a name.
fn is_name_byte(byte: u8) -> bool
    ensures { result ≡ is_name_byte byte }
{
    byte.is_ascii_alphanumeric() || matches!(byte, b'-' | b'.' | b'_')
}

/// Tells whether all bytes of a text may stand in a name.
fn are_name_bytes(text: &str) -> bool
    ensures { result ≡ list_all is_name_byte text.now }
{
    text.bytes().all(is_name_byte)
}

/// Tells whether a text is a name: 1 to 32 letters or digits of ASCII, `-`, `.` and `_`.
pub fn is_name(text: &str) -> bool
    ensures { result ≡ is_name text.now }
{
    !text.is_empty() && text.len() <= MOST_NAME_BYTES && are_name_bytes(text)
}

/// Tells whether there are more servers or shards than a configuration may have.
fn is_too_large(servers: &[Server], shards: &[Shard]) -> bool
    ensures { result ≡ is_too_large (setup_of servers.now shards.now) }
{
    servers.len() > MOST_SERVERS || shards.len() > MOST_SHARDS
}

/// Tells whether a server's name and region are names.
fn is_well_named_server(server: &Server) -> bool
    ensures { result ≡ is_well_named_server (server_row server.now) }
{
    is_name(&server.name) && is_name(&server.region)
}

/// Tells whether a shard's name is a name.
fn is_well_named_shard(shard: &Shard) -> bool
    ensures { result ≡ is_well_named_shard (shard_row shard.now) }
{
    is_name(&shard.name)
}

/// Tells whether every server is well named.
fn are_well_named_servers(servers: &[Server]) -> bool
    ensures { result ≡ list_all (λ s. is_well_named_server (server_row s)) servers.now }
{
    servers.iter().all(is_well_named_server)
}

/// Tells whether every shard is well named.
fn are_well_named_shards(shards: &[Shard]) -> bool
    ensures { result ≡ list_all (λ s. is_well_named_shard (shard_row s)) shards.now }
{
    shards.iter().all(is_well_named_shard)
}

/// Tells whether a server's room is within its limit.
fn is_good_server(server: &Server) -> bool
    ensures { result ≡ is_good_server (server_row server.now) }
{
    server.room <= MOST_LOAD
}

/// Tells whether a shard's numbers are within their limits.
fn is_good_shard(shard: &Shard) -> bool
    ensures { result ≡ is_good_shard (shard_row shard.now) }
{
    shard.load <= MOST_LOAD
        && shard.want <= MOST_REPLICAS
        && shard.cap <= MOST_REPLICAS
        && shard.spread <= MOST_REPLICAS
        && shard.cap <= shard.want
}

/// Tells whether each server's room is within its limit.
fn are_good_servers(servers: &[Server]) -> bool
    ensures { result ≡ list_all (λ s. is_good_server (server_row s)) servers.now }
{
    servers.iter().all(is_good_server)
}

/// Tells whether each shard's numbers are within their limits.
fn are_good_shards(shards: &[Shard]) -> bool
    ensures { result ≡ list_all (λ s. is_good_shard (shard_row s)) shards.now }
{
    shards.iter().all(is_good_shard)
}

/// Tells whether every server and every shard is well named.
#[tactic(auto, using(crate::proofs::ConfigLemmas::all_well_named_servers, crate::proofs::ConfigLemmas::all_well_named_shards))]
fn has_good_names(servers: &[Server], shards: &[Shard]) -> bool
    ensures { result ≡ has_good_names (setup_of servers.now shards.now) }
{
    are_well_named_servers(servers) && are_well_named_shards(shards)
}

/// Tells whether all numbers are within their limits.
#[tactic(auto, using(crate::proofs::ConfigLemmas::all_good_servers, crate::proofs::ConfigLemmas::all_good_shards))]
fn has_good_numbers(servers: &[Server], shards: &[Shard]) -> bool
    ensures { result ≡ has_good_numbers (setup_of servers.now shards.now) }
{
    are_good_servers(servers) && are_good_shards(shards)
}

/// A table of names that is not yet part of a configuration.
struct Names {
    table: IndexSet<String>,
}

/// Drops everything in one call, instead of one call for each list.
impl Drop for Names {
    fn drop(self) {
        let Names { table } = self;
        drop(table);
    }
}

impl Names {
    /// Returns the table itself.
    fn into_table(self) -> IndexSet<String>
        ensures { result ≡ self.table }
    {
        let Names { table } = self;
        table
    }
}

/// Puts a name last in a table, and says whether it was new there.
#[tactic(auto, using(crate::proofs::ConfigLemmas::any_name))]
fn insert_name(alloc: Global, names: &mut Names, name: &str) -> Result<bool, AllocError>
    ensures added { IfOk result (λ added. added
        ≡ not (list_any (bytes_eq name.now) (map string_bytes names.old.table.keys))) }
    ensures names { IfOk result (λ added. IsTrue added
        → map string_bytes names.new.table.keys ≡ map string_bytes names.old.table.keys ++ name.now ∷ []) }
{
    Ok(names.table.insert(String::from_str(alloc, name)?)?)
}

/// Returns the table of the servers' names, or nothing if two have one name.
#[tactic(auto, using(crate::proofs::DoubleLemmas::server_names_more, crate::proofs::DoubleLemmas::server_single_more, crate::proofs::DoubleLemmas::server_double_here))]
fn server_table(alloc: Global, servers: &[Server]) -> Result<Option<Names>, AllocError>
    ensures double { IfOk result (λ table. is_none table ≡ has_double (server_names servers.now)) }
    ensures names { IfOk result (λ table. IfSome table
        (λ names. map string_bytes names.table.keys ≡ server_names servers.now)) }
{
    let mut names = Names {
        table: IndexSet::new(alloc),
    };
    for server in servers {
        if !insert_name(alloc, &mut names, &server.name)? {
            return Ok(None);
        }
    }
    Ok(Some(names))
}

/// Returns the table of the shards' names, or nothing if two have one name.
#[tactic(auto, using(crate::proofs::DoubleLemmas::shard_names_more, crate::proofs::DoubleLemmas::shard_single_more, crate::proofs::DoubleLemmas::shard_double_here))]
fn shard_table(alloc: Global, shards: &[Shard]) -> Result<Option<Names>, AllocError>
    ensures double { IfOk result (λ table. is_none table ≡ has_double (shard_names shards.now)) }
    ensures names { IfOk result (λ table. IfSome table
        (λ names. map string_bytes names.table.keys ≡ shard_names shards.now)) }
{
    let mut names = Names {
        table: IndexSet::new(alloc),
    };
    for shard in shards {
        if !insert_name(alloc, &mut names, &shard.name)? {
            return Ok(None);
        }
    }
    Ok(Some(names))
}

/// Tells whether two lists of servers agree.
#[tactic(auto, using(crate::proofs::SameLemmas::same_server_rows))]
fn same_servers(servers: &[Server], others: &[Server]) -> bool
    ensures { result ≡ pointwise same_server (map server_row servers.now) (map server_row others.now) }
{
    servers == others
}

/// Tells whether two lists of shards agree.
#[tactic(auto, using(crate::proofs::SameLemmas::same_shard_rows))]
fn same_shards(shards: &[Shard], others: &[Shard]) -> bool
    ensures { result ≡ pointwise same_shard (map shard_row shards.now) (map shard_row others.now) }
{
    shards == others
}

/// Copies servers.
#[tactic(auto, using(crate::proofs::CopyLemmas::server_copies))]
fn copied_servers(alloc: Global, servers: &[Server]) -> Result<Vec<Server>, AllocError>
    ensures { IfOk result (λ copy. map server_row copy.items ≡ map server_row servers.now) }
{
    Vec::from_clones(alloc, servers)
}

/// Copies shards.
#[tactic(auto, using(crate::proofs::CopyLemmas::shard_copies))]
fn copied_shards(alloc: Global, shards: &[Shard]) -> Result<Vec<Shard>, AllocError>
    ensures { IfOk result (λ copy. map shard_row copy.items ≡ map shard_row shards.now) }
{
    Vec::from_clones(alloc, shards)
}

/// Copies servers and shards.
fn copied_rows(
    alloc: Global,
    servers: &[Server],
    shards: &[Shard],
) -> Result<(Vec<Server>, Vec<Shard>), AllocError>
    ensures servers { IfOk result (λ rows. map server_row rows.0.items ≡ map server_row servers.now) }
    ensures shards { IfOk result (λ rows. map shard_row rows.1.items ≡ map shard_row shards.now) }
{
    let servers = copied_servers(alloc, servers)?;
    Ok((servers, copied_shards(alloc, shards)?))
}

/// Copies a table of names.
#[tactic(auto, using(crate::proofs::CopyLemmas::name_copies))]
fn copied_names(names: &IndexSet<String>) -> Result<Names, AllocError>
    ensures { IfOk result (λ copy. map string_bytes copy.table.keys ≡ map string_bytes names.now.keys) }
{
    Ok(Names {
        table: names.clone()?,
    })
}

/// Returns the number of a name in a table.
#[tactic(auto, using(crate::proofs::ConfigLemmas::position_map))]
fn number_of(names: &IndexSet<String>, name: &str) -> Option<u32>
    requires { length names.now.keys ≤ MOST_SHARDS }
    ensures { result ≡ position (λ n. bytes_eq name.now n) (map string_bytes names.now.keys) }
{
    match names.get_index_of(name) {
        Some(index) => Some(index as u32),
        None => None,
    }
}

impl Config {
    ghost use Rattle.std.specs.Prelude.{slice_index_or, IfSome};
    ghost use Rattle.sm_placement.specs.Setup.{IsSetup, no_server, no_shard, server_named, shard_named, sizes_of};
    ghost use Rattle.sm_placement.specs.Config.{server_row, shard_row, setup_of, config_fault};

    /// Copies servers and shards, or says why they are no configuration: the first fault in the order of `ConfigFault`.
    /// Too many entries and bad names are found without memory; `NoMemory` may stand before a double name or a bad
    /// number.
    #[tactic(auto, using(crate::proofs::SetupLemmas::setup_from_tests))]
    pub fn new(alloc: Global, servers: &[Server], shards: &[Shard]) -> Result<Config, ConfigFault>
        ensures ok { IfOk result (λ config. config ≡ setup_of servers.now shards.now) }
        ensures valid { OnOk result (config_fault (setup_of servers.now shards.now) ≡ None) }
        ensures refused { IfErr result (λ why. why ≢ ConfigFault.NoMemory
            → config_fault (setup_of servers.now shards.now) ≡ Some why) }
        ensures early { IfErr result (λ why. why ≡ ConfigFault.NoMemory
            → (is_too_large (setup_of servers.now shards.now) ≡ false)
            × (has_good_names (setup_of servers.now shards.now) ≡ true)) }
    {
        if is_too_large(servers, shards) {
            return Err(ConfigFault::TooMany);
        }
        if !has_good_names(servers, shards) {
            return Err(ConfigFault::BadName);
        }
        let Some(server_names) = server_table(alloc, servers)? else {
            return Err(ConfigFault::DoubleName);
        };
        let Some(shard_names) = shard_table(alloc, shards)? else {
            return Err(ConfigFault::DoubleName);
        };
        if !has_good_numbers(servers, shards) {
            return Err(ConfigFault::BadNumber);
        }
        let (servers, shards) = copied_rows(alloc, servers, shards)?;
        Ok(Config {
            servers,
            shards,
            server_names: server_names.into_table(),
            shard_names: shard_names.into_table(),
        })
    }

    /// Copies the configuration.
    pub fn copy(&self, alloc: Global) -> Result<Config, AllocError>
        ensures { IfOk result (λ config. config ≡ self.now) }
    {
        let server_names = copied_names(&self.server_names)?;
        let shard_names = copied_names(&self.shard_names)?;
        let (servers, shards) = copied_rows(alloc, self.servers(), self.shards())?;
        Ok(Config {
            servers,
            shards,
            server_names: server_names.into_table(),
            shard_names: shard_names.into_table(),
        })
    }

    /// Returns the servers, each at its number.
    pub fn servers(&self) -> &[Server]
        ensures { map server_row result.now ≡ self.now.servers }
    {
        self.servers.as_slice()
    }

    /// Returns the shards, each at its number.
    pub fn shards(&self) -> &[Shard]
        ensures { map shard_row result.now ≡ self.now.shards }
    {
        self.shards.as_slice()
    }

    /// Returns the number of servers.
    #[tactic(auto, using(crate::proofs::ConfigLemmas::length_map))]
    pub fn server_count(&self) -> u32
        ensures count { result ≡ length self.now.servers }
        ensures setup { IsSetup self.now }
    {
        self.servers.len() as u32
    }

    /// Returns the number of shards.
    #[tactic(auto, using(crate::proofs::ConfigLemmas::length_map))]
    pub fn shard_count(&self) -> u32
        ensures count { result ≡ length self.now.shards }
        ensures setup { IsSetup self.now }
    {
        self.shards.len() as u32
    }

    /// Returns the server with a number.
    #[tactic(auto, using(crate::proofs::ConfigLemmas::length_map, crate::proofs::ConfigLemmas::server_at))]
    pub fn server(&self, server: ServerId) -> &Server
        requires { server < length self.now.servers }
        ensures row { server_row result.now ≡ slice_index_or self.now.servers server no_server }
        ensures room { result.now.room ≡ (sizes_of self.now).room server }
        ensures fits { result.now.room ≤ MOST_LOAD }
        ensures named { server_named self.now (string_bytes result.now.name) ≡ Some server }
    {
        &self.servers[server.number() as usize]
    }

    /// Returns the shard with a number.
    #[tactic(auto, using(crate::proofs::ConfigLemmas::length_map, crate::proofs::ConfigLemmas::shard_at))]
    pub fn shard(&self, shard: ShardId) -> &Shard
        requires { shard < length self.now.shards }
        ensures row { shard_row result.now ≡ slice_index_or self.now.shards shard no_shard }
        ensures load { result.now.load ≡ (sizes_of self.now).load shard }
        ensures fits { result.now.load ≤ MOST_LOAD }
        ensures want { result.now.want ≤ MOST_REPLICAS }
        ensures cap { result.now.cap ≤ result.now.want }
        ensures spread { result.now.spread ≤ MOST_REPLICAS }
        ensures named { shard_named self.now (string_bytes result.now.name) ≡ Some shard }
    {
        &self.shards[shard.number() as usize]
    }

    /// Returns a server's room: the load that it can take.
    pub fn room(&self, server: ServerId) -> u64
        requires { server < length self.now.servers }
        ensures room { result ≡ (sizes_of self.now).room server }
        ensures fits { result ≤ MOST_LOAD }
    {
        self.server(server).room
    }

    /// Returns the load of each of a shard's replicas.
    pub fn load(&self, shard: ShardId) -> u64
        requires { shard < length self.now.shards }
        ensures load { result ≡ (sizes_of self.now).load shard }
        ensures fits { result ≤ MOST_LOAD }
    {
        self.shard(shard).load
    }

    /// Returns a shard's floor: the number of live replicas that it never falls below.
    pub fn floor(&self, shard: ShardId) -> u32
        requires { shard < length self.now.shards }
        ensures floor { result ≡ (sizes_of self.now).floor shard }
        ensures bound { result ≤ MOST_REPLICAS }
    {
        self.shard(shard).floor()
    }

    /// Returns the number of the server with this name.
    pub fn server_named(&self, name: &str) -> Option<ServerId>
        ensures named { result ≡ server_named self.now name.now }
        ensures within { IfSome result (λ server. server < length self.now.servers) }
    {
        number_of(&self.server_names, name).map(ServerId::new)
    }

    /// Returns the number of the shard with this name.
    pub fn shard_named(&self, name: &str) -> Option<ShardId>
        ensures named { result ≡ shard_named self.now name.now }
        ensures within { IfSome result (λ shard. shard < length self.now.shards) }
    {
        number_of(&self.shard_names, name).map(ShardId::new)
    }
}

impl PartialEq for Config {
    ghost use Rattle.std.specs.Prelude.{◌↔◌};
    ghost use Rattle.std.specs.Cmp.{partial_equiv_from_equiv};
    ghost use Rattle.sm_placement.specs.Setup.{same_setup, same_setup_laws};

    ghost eq = { same_setup };

    ghost laws = { partial_equiv_from_equiv same_setup_laws };

    fn eq(&self, other: &Config) -> bool
        ensures same { result ≡ same_setup self.now other.now }
        ensures equal { IsTrue result ↔ (self.now ≡ other.now) }
    {
        same_servers(self.servers(), other.servers()) && same_shards(self.shards(), other.shards())
    }
}

impl Eq for Config {
    ghost use Rattle.sm_placement.specs.Setup.{same_setup_laws};

    ghost laws = { same_setup_laws };
}
