//! Admission: whether a plan may start.
ghost use Rattle.std.specs.Prelude.{◌≡◌, OnOk, OnErr, IfErr};
ghost use Rattle.sm_placement.specs.Setup.{sizes_of};
ghost use Rattle.sm_placement.specs.Layout.{place_of};
ghost use Rattle.sm_reservation.specs.declared.right.Key.{Key};
ghost use Rattle.sm_reservation.specs.Pool.{pool_hold, true_rights, HasSize};
ghost use Rattle.sm_verifier.specs.Admission.{AreFree, AreTrue, IsHeldUpBy, IsIn, MayStart};

use crate::Checked;
use crate::amounts::{first_short_room, first_short_spare};
use crate::declared::{declared_room, declared_spare};
use crate::downs::first_down;
use crate::free::first_taken;
use crate::truth::first_untrue;
use sm_placement::Placement;
use sm_reservation::{Key, Pool};
use sm_server::{ServerId, ShardId};
use thiserror::Error;

/// The reason why a plan may not start.
#[derive(Clone, Copy, Debug, PartialEq, Eq, Error)]
pub enum Holding {
    /// A stream declares a cell right or a crown that is not true of the placement.
    #[error("{key} is declared, and is not so in the placement")]
    Untrue {
        /// Its key.
        key: Key,
    },
    /// A stream declares a cell right or a crown that is not in the pool, or that an earlier stream declares.
    #[error("{key} is declared, and is taken")]
    Taken {
        /// Its key.
        key: Key,
    },
    /// The streams declare more room of a server than the pool has.
    #[error("{declared} of the room of {server} is declared, and {free} is free")]
    ShortRoom {
        /// The server.
        server: ServerId,
        /// The amount that the pool has.
        free: u64,
        /// The amount that the streams declare together.
        declared: u64,
    },
    /// The streams declare more spare replicas of a shard than the pool has.
    #[error("{declared} spare replicas of {shard} are declared, and {free} are free")]
    ShortSpare {
        /// The shard.
        shard: ShardId,
        /// The amount that the pool has.
        free: u64,
        /// The amount that the streams declare together.
        declared: u64,
    },
    /// An instruction mentions a server that is down.
    #[error("{server} is down, and the plan mentions it")]
    ServerDown {
        /// The server.
        server: ServerId,
    },
}

/// Judges whether a checked plan may start at a placement with its pool. Takes no memory.
///
/// The rules are looked at in the order of `Holding`, each over all streams: the first one that is not kept is named,
/// at the first stream and its lowest key, or at the lowest server or shard.
pub fn admit(checked: &Checked, pool: &Pool, placement: &Placement) -> Result<(), Holding>
    requires size { HasSize (sizes_of checked.now.setup) pool.now }
    requires setup { placement.now.setup ≡ checked.now.setup }
    ensures admitted { OnOk result (MayStart checked.now pool.now placement.now) }
    ensures holding { IfErr result (IsHeldUpBy checked.now pool.now placement.now) }
    ensures refused { OnErr result (¬ MayStart checked.now pool.now placement.now) }
{
    let streams = checked.plan().streams();
    if let Some(key) = first_untrue(placement, streams) {
        return Err(Holding::Untrue { key });
    }
    if let Some(key) = first_taken(pool, streams) {
        return Err(Holding::Taken { key });
    }
    admit_free(checked, pool, placement)
}

/// Judges as `admit` does, if each cell right and crown of the pool is true of the placement. Takes no memory.
///
/// Rights that the pool has then need no look at the placement. If a declared right is taken, all declared ones are
/// looked up there, since one that is not true is named first.
pub fn admit_from_true_pool(
    checked: &Checked,
    pool: &Pool,
    placement: &Placement,
) -> Result<(), Holding>
    requires size { HasSize (sizes_of checked.now.setup) pool.now }
    requires setup { placement.now.setup ≡ checked.now.setup }
    requires true_pool { (key : Key) → IsIn (pool_hold pool.now)
        (true_rights (sizes_of placement.now.setup) (place_of placement.now)) key }
    ensures admitted { OnOk result (MayStart checked.now pool.now placement.now) }
    ensures holding { IfErr result (IsHeldUpBy checked.now pool.now placement.now) }
    ensures refused { OnErr result (¬ MayStart checked.now pool.now placement.now) }
{
    if first_taken(pool, checked.plan().streams()).is_some() {
        return admit(checked, pool, placement);
    }
    admit_free(checked, pool, placement)
}

/// Judges by room, spare replicas and servers alone, if the cell rights and crowns that the streams declare are true
/// and free.
fn admit_free(checked: &Checked, pool: &Pool, placement: &Placement) -> Result<(), Holding>
    requires setup { placement.now.setup ≡ checked.now.setup }
    requires true_ones { AreTrue (sizes_of checked.now.setup) (place_of placement.now) checked.now.plan.streams }
    requires free_ones { AreFree (pool_hold pool.now) checked.now.plan.streams }
    ensures admitted { OnOk result (MayStart checked.now pool.now placement.now) }
    ensures holding { IfErr result (IsHeldUpBy checked.now pool.now placement.now) }
    ensures refused { OnErr result (¬ MayStart checked.now pool.now placement.now) }
{
    let streams = checked.plan().streams();
    if let Some(server) = first_short_room(pool, streams) {
        return Err(Holding::ShortRoom {
            server,
            free: pool.room(server),
            declared: declared_room(streams, server),
        });
    }
    if let Some(shard) = first_short_spare(pool, streams) {
        return Err(Holding::ShortSpare {
            shard,
            free: pool.spare(shard),
            declared: declared_spare(streams, shard),
        });
    }
    if let Some(server) = first_down(placement, streams) {
        return Err(Holding::ServerDown { server });
    }
    Ok(())
}
