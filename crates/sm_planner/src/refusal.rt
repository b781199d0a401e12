//! Why moves get no plan.
ghost use Rattle.std.specs.Prelude.{◌≡◌, ◌∷◌, []};
ghost use Rattle.sm_refusals.specs.Refusals.{fields_of, refusal_model, server_field, shard_field};
ghost use Rattle.sm_planner.specs.NoPlans.{no_plan_as, no_plan_refusal};

use sm_placement::Config;
use sm_refusals::{Field, Fields, RefusalText};
use sm_server::{ServerId, ShardId};
use std::alloc::AllocError;
use thiserror::Error;

/// The reason why there is no plan. If there are several reasons other than `NoMemory`, the first one in this order is
/// given. `NoMemory` comes only if `NotThere`, `Held` and `ServerDown` do not, and says nothing of the others.
#[derive(Clone, Copy, Debug, PartialEq, Eq, Error)]
pub enum NoPlan {
    /// Memory was short.
    #[error("out of memory")]
    NoMemory,
    /// The server has no primary or secondary of the shard.
    #[error("{server} has no replica of {shard}")]
    NotThere {
        /// The shard.
        shard: ShardId,
        /// The server.
        server: ServerId,
    },
    /// The cell is not absent, or a right that is needed is not free.
    #[error("{server} has a part of {shard}, or a right is taken")]
    Held {
        /// The shard.
        shard: ShardId,
        /// The server.
        server: ServerId,
    },
    /// The server is down.
    #[error("{server} is down")]
    ServerDown {
        /// The server.
        server: ServerId,
    },
    /// No move that is left fits, in the order in which the rule places them. The first of them goes to this server.
    /// Another order might fit.
    #[error("{server} has too little room")]
    NoRoom {
        /// The server.
        server: ServerId,
    },
    /// No server may take the shard.
    #[error("no server may take {shard}")]
    NoPlace {
        /// The shard.
        shard: ShardId,
    },
    /// The shard's replicas would lie in too few regions.
    #[error("{shard} would lie in too few regions")]
    Spread {
        /// The shard.
        shard: ShardId,
    },
    /// There are more than 4,096 moves or more than 256 signals.
    #[error("too many moves or signals")]
    TooMany,
}

fn refused<'a>(number: u32, kind: &'a str, fields: Fields<'a>) -> RefusalText<'a>
    ensures { refusal_model result ≡ no_plan_as number kind.now (fields_of fields.entry) }
{
    RefusalText {
        front: "no plan: ",
        number,
        kind,
        fields,
    }
}

/// The cell of a shard at a server, by their names.
fn cell<'a>(config: &'a Config, shard: ShardId, server: ServerId) -> Fields<'a>
    ensures { fields_of result ≡ shard_field config.now shard ∷ server_field config.now server ∷ [] }
{
    Fields::Two(Field::shard(config, shard), Field::server(config, server))
}

impl NoPlan {
    /// The refusal that says so.
    pub fn refusal<'a>(self, config: &'a Config) -> RefusalText<'a>
        ensures { refusal_model result ≡ no_plan_refusal config.now self }
    {
        match self {
            NoPlan::NoMemory => refused(1, "NoMemory", Fields::None),
            NoPlan::NotThere { shard, server } => refused(
                2,
                "NotThere",
                cell(config, shard, server),
            ),
            NoPlan::Held { shard, server } => refused(3, "Held", cell(config, shard, server)),
            NoPlan::ServerDown { server } => refused(
                4,
                "ServerDown",
                Fields::One(Field::server(config, server)),
            ),
            NoPlan::NoRoom { server } => refused(
                5,
                "NoRoom",
                Fields::One(Field::server(config, server)),
            ),
            NoPlan::NoPlace { shard } => refused(
                6,
                "NoPlace",
                Fields::One(Field::shard(config, shard)),
            ),
            NoPlan::Spread { shard } => refused(
                7,
                "Spread",
                Fields::One(Field::shard(config, shard)),
            ),
            NoPlan::TooMany => refused(8, "TooMany", Fields::None),
        }
    }
}

impl From<AllocError> for NoPlan {
    ghost use Rattle.sm_planner.specs.declared.refusal.NoPlan.TheVariants.{NoMemory};

    ghost from_gives = { λ _ why. why ≡ NoMemory };

    ghost use Rattle.std.specs.Prelude.{◌≡◌};

    fn from(_error: AllocError) -> NoPlan {
        NoPlan::NoMemory
    }
}
