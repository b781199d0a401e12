//! Plans for a machine as it stands.
ghost use Rattle.std.specs.Prelude.{◌≡◌, ◌<◌, None, All, IfOk, IfErr, length};
ghost use Rattle.sm_plan_code.specs.Plan.{PlanModel};
ghost use Rattle.sm_planner.specs.Basis.{basis_now, IsMoveOf, MayStartNow};
ghost use Rattle.sm_planner.specs.Refusal.{first_refused, IsPlanOf, IsNoPlanFor};
ghost use Rattle.sm_planner.specs.Drain.{drain_refusal, IsDrainPlan, IsNoDrainFor};

use crate::planner::{drain_at, moves_at};
use crate::refusal::NoPlan;
use sm_machine::Machine;
use sm_plan_code::Move;
use sm_server::ServerId;
use sm_verifier::Checked;
use std::alloc::Global;

/// Plans the moves, for the machine as it stands: the plan may start beside the plans that run. If the rule refuses
/// nothing, only memory may be short.
pub fn moves(alloc: Global, machine: &Machine, moves: &[Move]) -> Result<Checked, NoPlan>
    requires { All (IsMoveOf machine.now.placement.setup) moves.now }
    ensures setup { IfOk result (λ checked. checked.setup ≡ machine.now.placement.setup) }
    ensures admitted { IfOk result (λ checked. MayStartNow machine.now checked.plan) }
    ensures plan { IfOk result (λ checked. IsPlanOf (basis_now machine.now) moves.now checked.plan) }
    ensures refused { IfErr result (IsNoPlanFor (basis_now machine.now) moves.now) }
    ensures memory { (plan : PlanModel) → IsPlanOf (basis_now machine.now) moves.now plan
        → IfErr result (λ why. why ≡ NoPlan.NoMemory) }
    ensures early { IfErr result (λ why. why ≡ NoPlan.NoMemory
        → first_refused (basis_now machine.now) moves.now ≡ None) }
{
    machine.is_reached();
    moves_at(alloc, machine.placement(), machine.pool(), moves)
}

/// Plans to empty a server, for the machine as it stands. If the rule refuses nothing, only memory may be short.
pub fn drain(alloc: Global, machine: &Machine, server: ServerId) -> Result<Checked, NoPlan>
    requires { server < length machine.now.placement.setup.servers }
    ensures setup { IfOk result (λ checked. checked.setup ≡ machine.now.placement.setup) }
    ensures admitted { IfOk result (λ checked. MayStartNow machine.now checked.plan) }
    ensures plan { IfOk result (λ checked. IsDrainPlan (basis_now machine.now) server checked.plan) }
    ensures refused { IfErr result (IsNoDrainFor (basis_now machine.now) server) }
    ensures memory { (plan : PlanModel) → IsDrainPlan (basis_now machine.now) server plan
        → IfErr result (λ why. why ≡ NoPlan.NoMemory) }
    ensures early { IfErr result (λ why. why ≡ NoPlan.NoMemory → drain_refusal (basis_now machine.now) server ≡ None) }
{
    machine.is_reached();
    drain_at(alloc, machine.placement(), machine.pool(), server)
}
