//! Servers and shards by their names.
ghost use Rattle.std.specs.Prelude.{◌≡◌};
ghost use Rattle.sm_refusals.specs.Names.{server_name, shard_name};

use sm_placement::Config;
use sm_server::{ServerId, ShardId};

/// The name of a server, empty if there is no such server.
pub fn server_name<'a>(config: &'a Config, server: ServerId) -> &'a str
    ensures { result.now ≡ server_name config.now server }
{
    match config.servers().get(server.number() as usize) {
        Some(server) => server.name.as_str(),
        None => "",
    }
}

/// The name of a shard, empty if there is no such shard.
pub fn shard_name<'a>(config: &'a Config, shard: ShardId) -> &'a str
    ensures { result.now ≡ shard_name config.now shard }
{
    match config.shards().get(shard.number() as usize) {
        Some(shard) => shard.name.as_str(),
        None => "",
    }
}
