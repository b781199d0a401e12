//! A plan, from a text of its own.
ghost use Rattle.std.specs.Prelude.{◌≡◌, ◌≢◌, Ok, Err, Some, IfOk, IfErr, length};
ghost use Rattle.sm_plan_text.specs.Words.{IsSetup, names_of_servers, names_of_shards, IsKnownPlan, read_plan};
ghost use Rattle.sm_plan_text.specs.Words.{read_plan_data, view};

use crate::document::parse;
use crate::{Cursor, Entry, Faults, Member, Names, TextFault};
use json_tree::{Scratch, Tree};
use sm_placement::Config;
use sm_plan_code::Plan;
use sm_server::{ServerId, ShardId};
use std::alloc::{AllocError, Global};

/// Returns the names of the servers of a configuration.
fn server_names(alloc: Global, config: &Config) -> Result<Names, AllocError>
    ensures names { IfOk result (λ names. names ≡ names_of_servers config.now) }
    ensures setup { IsSetup config.now }
{
    let mut names = Names::new(alloc);
    for number in 0..config.server_count() {
        names.insert(config.server(ServerId::new(number)).name.clone()?)?;
    }
    Ok(names)
}

/// Returns the names of the shards of a configuration.
fn shard_names(alloc: Global, config: &Config) -> Result<Names, AllocError>
    ensures names { IfOk result (λ names. names ≡ names_of_shards config.now) }
    ensures setup { IsSetup config.now }
{
    let mut names = Names::new(alloc);
    for number in 0..config.shard_count() {
        names.insert(config.shard(ShardId::new(number)).name.clone()?)?;
    }
    Ok(names)
}

/// Reads a plan for a configuration that is a value of a text, as one that stands inside another object.
pub fn read_plan_value(alloc: Global, config: &Config, value: &Tree<'_>) -> Result<Plan, TextFault>
    ensures ok { IfOk result (λ plan.
        read_plan_data (names_of_shards config.now) (names_of_servers config.now) (Some (view value.now)) ≡ Ok plan) }
    ensures refused { IfErr result (λ why. why ≢ TextFault.NoMemory
        → read_plan_data (names_of_shards config.now) (names_of_servers config.now) (Some (view value.now)) ≡ Err why) }
    ensures fits { IfOk result (λ plan. IsKnownPlan (length config.now.shards) (length config.now.servers) plan) }
{
    let shards = shard_names(alloc, config)?;
    let servers = server_names(alloc, config)?;
    let cursor = Cursor::new(alloc, &*value, Member::Document, &shards, &servers);
    let mut faults = Faults { lowest: None };
    let plan = Plan::read(&cursor, &mut faults)?;
    match faults.lowest {
        Some(fault) => Err(fault),
        None => Ok(plan),
    }
}

/// Reads a plan for a configuration from the bytes of its text.
pub fn read_plan(alloc: Global, config: &Config, bytes: &[u8]) -> Result<Plan, TextFault>
    ensures ok { IfOk result (λ plan. read_plan (names_of_shards config.now) (names_of_servers config.now) bytes.now
        ≡ Ok plan) }
    ensures refused { IfErr result (λ why. why ≢ TextFault.NoMemory
        → read_plan (names_of_shards config.now) (names_of_servers config.now) bytes.now ≡ Err why) }
    ensures fits { IfOk result (λ plan. IsKnownPlan (length config.now.shards) (length config.now.servers) plan) }
{
    let mut scratch = Scratch::new(alloc);
    let value = parse(alloc, bytes, &mut scratch)?;
    read_plan_value(alloc, config, &value)
}
