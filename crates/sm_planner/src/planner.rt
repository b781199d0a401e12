//! Plans from moves, and from a server that is to be emptied, at a placement with its pool.
ghost use Rattle.std.specs.Prelude.{◌≡◌, ◌<◌, All, IfOk, IfErr, None, length};
ghost use Rattle.sm_placement.specs.Setup.{sizes_of};
ghost use Rattle.sm_placement.specs.Layout.{place_of};
ghost use Rattle.sm_reservation.specs.Pool.{pool_hold};
ghost use Rattle.sm_verifier.specs.Admission.{IsAdmitted};
ghost use Rattle.sm_planner.specs.Basis.{basis_of, IsMoveOf};
ghost use Rattle.sm_planner.specs.Laws.{IsUsable, HasScene};
ghost use Rattle.sm_planner.specs.Refusal.{first_refused, IsPlanOf, IsNoPlanFor};
ghost use Rattle.sm_planner.specs.Draft.{IsDraftOf};
ghost use Rattle.sm_planner.specs.Drain.{drain_refusal, IsDrainPlan, IsNoDrainFor};

use crate::draining::leaving;
use crate::held::first_refused;
use crate::payment::{signals, stretches};
use crate::placing::place_all;
use crate::refusal::NoPlan;
use crate::spread::first_too_close;
use crate::writing::{Draft, write};
use sm_placement::Placement;
use sm_plan_code::{MOST_MOVES, MOST_SIGNALS, Move, Plan};
use sm_reservation::Pool;
use sm_server::ServerId;
use sm_verifier::{Checked, Fault, check};
use std::alloc::Global;

/// Places moves that are not refused one by one, and finds what they pay.
fn draft(alloc: Global, placement: &Placement, pool: &Pool, moves: &[Move]) -> Result<Draft, NoPlan>
    requires known { All (IsMoveOf placement.now.setup) moves.now }
    requires open { first_refused (basis_of placement.now pool.now) moves.now ≡ None }
    ensures drafted { IfOk result (IsDraftOf (basis_of placement.now pool.now) moves.now) }
    ensures refused { IfErr result (IsNoPlanFor (basis_of placement.now pool.now) moves.now) }
{
    let placing = place_all(alloc, placement, pool, moves)?;
    if let Some(i) = placing.first_left(moves) {
        return Err(NoPlan::NoRoom {
            server: moves[i].to,
        });
    }
    if let Some(shard) = first_too_close(alloc, placement, moves)? {
        return Err(NoPlan::Spread { shard });
    }
    if moves.len() > MOST_MOVES {
        return Err(NoPlan::TooMany);
    }
    let order = placing.in_order(alloc, moves)?;
    let placed = stretches(alloc, placement, pool, &order)?;
    let signals = signals(alloc, &placed)?;
    if signals.len() > MOST_SIGNALS {
        return Err(NoPlan::TooMany);
    }
    Ok(Draft {
        moves: order,
        placed,
        signals,
    })
}

/// Returns the plan, checked for the configuration of the placement. It passes the check, and is admitted.
fn checked(alloc: Global, placement: &Placement, pool: &Pool, plan: Plan) -> Result<Checked, NoPlan>
    requires { IsUsable (basis_of placement.now pool.now) plan }
    ensures plan { IfOk result (λ checked. checked.plan ≡ plan) }
    ensures setup { IfOk result (λ checked. checked.setup ≡ placement.now.setup) }
    ensures admitted { IfOk result (λ checked. IsAdmitted (sizes_of placement.now.setup) (place_of placement.now)
        (pool_hold pool.now) checked.plan) }
    ensures memory { IfErr result (λ why. why ≡ NoPlan.NoMemory) }
{
    match check(alloc, placement.config(), plan) {
        Ok(checked) => Ok(checked),
        Err((_, Fault::NoMemory)) => Err(NoPlan::NoMemory),
        Err(_) => unreachable!(),
    }
}

/// Plans the moves, at a placement with its pool.
#[tactic(auto, using(crate::proofs::law::Existing::refused_alone, crate::proofs::Answering::alone_not_memory))]
pub(crate) fn moves_at(
    alloc: Global,
    placement: &Placement,
    pool: &Pool,
    moves: &[Move],
) -> Result<Checked, NoPlan>
    requires scene { HasScene (basis_of placement.now pool.now) }
    requires known { All (IsMoveOf placement.now.setup) moves.now }
    ensures setup { IfOk result (λ checked. checked.setup ≡ placement.now.setup) }
    ensures admitted { IfOk result (λ checked. IsAdmitted (sizes_of placement.now.setup) (place_of placement.now)
        (pool_hold pool.now) checked.plan) }
    ensures plan { IfOk result (λ checked. IsPlanOf (basis_of placement.now pool.now) moves.now checked.plan) }
    ensures refused { IfErr result (IsNoPlanFor (basis_of placement.now pool.now) moves.now) }
    ensures early { IfErr result (λ why. why ≡ NoPlan.NoMemory
        → first_refused (basis_of placement.now pool.now) moves.now ≡ None) }
{
    if let Some(why) = first_refused(placement, pool, moves) {
        return Err(why);
    }
    let draft = draft(alloc, placement, pool, moves)?;
    let plan = write(alloc, placement, pool, &draft)?;
    checked(alloc, placement, pool, plan)
}

/// Plans to empty a server, at a placement with its pool.
#[tactic(auto, using(crate::proofs::Departing::drain_planned))]
pub(crate) fn drain_at(
    alloc: Global,
    placement: &Placement,
    pool: &Pool,
    server: ServerId,
) -> Result<Checked, NoPlan>
    requires scene { HasScene (basis_of placement.now pool.now) }
    requires server { server < length placement.now.setup.servers }
    ensures setup { IfOk result (λ checked. checked.setup ≡ placement.now.setup) }
    ensures admitted { IfOk result (λ checked. IsAdmitted (sizes_of placement.now.setup) (place_of placement.now)
        (pool_hold pool.now) checked.plan) }
    ensures plan { IfOk result (λ checked. IsDrainPlan (basis_of placement.now pool.now) server checked.plan) }
    ensures refused { IfErr result (IsNoDrainFor (basis_of placement.now pool.now) server) }
    ensures early { IfErr result (λ why. why ≡ NoPlan.NoMemory
        → drain_refusal (basis_of placement.now pool.now) server ≡ None) }
{
    let moves = leaving(alloc, placement, pool, server)?;
    moves_at(alloc, placement, pool, &moves)
}
