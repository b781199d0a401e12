//! An order of all steps of a plan, or how far its streams get.
ghost use Rattle.std.specs.Prelude.{◌≡◌, ◌<◌, ◌≤◌, ◌↔◌, IsTrue, IfOk, IfErr, OnOk, All, length};
ghost use Rattle.sm_plan_code.specs.Plan.{KnowsSignal};
ghost use Rattle.sm_verifier.specs.Order.{code_at, IsOrder, IsStuckAt};
ghost use Rattle.sm_verifier.specs.Walk.{IsWalk, CanGo, AreStuck, IsMarked, left, IsMove, IsSweep, HaveEnded, AreStops};
ghost use Rattle.sm_plan_code.specs.declared.limits.TheConstants.{MOST_INSTRUCTIONS, MOST_SIGNALS};

use sm_plan_code::{Instr, Plan};
use std::alloc::{AllocError, Global};

/// The progress of each stream of a plan.
#[derive(Drop)]
struct Walk {
    /// The number of steps that each stream has made, its end among them.
    positions: Vec<u32>,
    /// For each signal, whether it is posted.
    posted: Vec<bool>,
    /// The steps made, each a stream's number and a position in its code.
    steps: Vec<(u32, u32)>,
}

/// Makes a walk on which no step is made yet.
fn start(alloc: Global, plan: &Plan) -> Result<Walk, AllocError>
    ensures { IfOk result (λ walk. IsWalk plan.now walk) }
{
    Ok(Walk {
        positions: vec![in alloc; 0; plan.streams().len()]?,
        posted: vec![in alloc; false; plan.signals().len()]?,
        steps: Vec::new(alloc),
    })
}

/// Returns the code of a stream.
fn code_of(plan: &Plan, stream: u32) -> &[Instr]
    requires { stream < length plan.now.streams }
    ensures value { result.now ≡ code_at plan.now stream }
    ensures short { length result.now ≤ MOST_INSTRUCTIONS }
    ensures known { All (KnowsSignal (length plan.now.signals)) result.now }
    ensures signals { length plan.now.signals ≤ MOST_SIGNALS }
{
    let stream = &plan.streams()[stream as usize];
    stream.code.as_slice()
}

/// Tells whether a stream has a step left, and waits for no signal.
fn can_go(plan: &Plan, walk: &Walk, stream: u32) -> bool
    requires walk { IsWalk plan.now walk.now }
    requires stream { stream < length plan.now.streams }
    ensures { IsTrue result ↔ CanGo plan.now walk.now stream }
{
    let code = code_of(plan, stream);
    let position = walk.positions[stream as usize] as usize;
    if position >= code.len() {
        return position == code.len();
    }
    match code[position] {
        Instr::Wait { signal } => walk.posted[signal as usize],
        _ => true,
    }
}

/// Marks the signal as posted, if the instruction posts one.
fn mark(instr: &Instr, posted: &mut [bool])
    requires { KnowsSignal (length posted.old) instr.now }
    ensures count { length posted.new ≡ length posted.old }
    ensures marked { IsMarked instr.now posted.old posted.new }
{
    if let Instr::Signal { signal } = *instr {
        posted[signal as usize] = true;
    }
}

/// Makes the next step of a stream.
fn go(plan: &Plan, stream: u32, walk: &mut Walk) -> Result<(), AllocError>
    requires walk { IsWalk plan.now walk.old }
    requires stream { stream < length plan.now.streams }
    requires can_go { CanGo plan.now walk.old stream }
    ensures walk { OnOk result (IsWalk plan.now walk.new) }
    ensures left { OnOk result (left walk.new < left walk.old) }
{
    let code = code_of(plan, stream);
    let position = walk.positions[stream as usize];
    walk.steps.push((stream, position))?;
    walk.positions[stream as usize] = position + 1;
    if let Some(instr) = code.get(position as usize) {
        mark(instr, walk.posted.as_mut_slice());
    }
    Ok(())
}

/// Makes steps of a stream as long as it can go: whether it made one.
fn go_far(plan: &Plan, stream: u32, walk: &mut Walk) -> Result<bool, AllocError>
    requires walk { IsWalk plan.now walk.old }
    requires stream { stream < length plan.now.streams }
    ensures walk { OnOk result (IsWalk plan.now walk.new) }
    ensures stuck { OnOk result (¬ CanGo plan.now walk.new stream) }
    ensures moved { IfOk result (λ moved. IsMove moved walk.old walk.new) }
{
    let mut moved = false;
    while can_go(plan, walk, stream) {
        go(plan, stream, walk)?;
        moved = true;
    }
    Ok(moved)
}

/// Takes each stream in turn as far as it can go: whether one made a step.
fn sweep(plan: &Plan, walk: &mut Walk) -> Result<bool, AllocError>
    requires { IsWalk plan.now walk.old }
    ensures walk { OnOk result (IsWalk plan.now walk.new) }
    ensures moved { IfOk result (λ moved. IsSweep plan.now moved walk.old walk.new) }
{
    let mut moved = false;
    for stream in 0..plan.streams().len() as u32 {
        if go_far(plan, stream, walk)? {
            moved = true;
        }
    }
    Ok(moved)
}

/// Takes the streams as far as they can go.
fn go_on(plan: &Plan, walk: &mut Walk) -> Result<(), AllocError>
    requires { IsWalk plan.now walk.old }
    ensures walk { OnOk result (IsWalk plan.now walk.new) }
    ensures stuck { OnOk result (AreStuck plan.now walk.new (length plan.now.streams)) }
{
    while sweep(plan, walk)? {}
    Ok(())
}

/// Tells whether every stream has finished.
fn have_ended(plan: &Plan, positions: &[u32]) -> bool
    requires { length positions.now ≡ length plan.now.streams }
    ensures { IsTrue result ↔ HaveEnded plan.now positions.now }
{
    for stream in 0..plan.streams().len() as u32 {
        if positions[stream as usize] as usize <= code_of(plan, stream).len() {
            return false;
        }
    }
    true
}

/// Returns where each stream stops: at its position, or at its code's length if it has finished.
fn stops_of(alloc: Global, plan: &Plan, positions: &[u32]) -> Result<Vec<u32>, AllocError>
    requires { length positions.now ≡ length plan.now.streams }
    ensures { IfOk result (λ stops. AreStops plan.now positions.now stops.items) }
{
    let mut stops = Vec::new(alloc);
    for stream in 0..plan.streams().len() as u32 {
        let end = code_of(plan, stream).len() as u32;
        stops.push(positions[stream as usize].min(end))?;
    }
    Ok(stops)
}

/// Returns an order of all steps of a plan, or the greatest positions that its streams get to if there is none.
pub(crate) fn order_of(
    alloc: Global,
    plan: &Plan,
) -> Result<Result<Vec<(u32, u32)>, Vec<u32>>, AllocError>
    ensures order { IfOk result (λ found. IfOk found (λ order. IsOrder plan.now order.items)) }
    ensures stuck { IfOk result (λ found. IfErr found (λ positions. IsStuckAt plan.now positions.items)) }
{
    let mut walk = start(alloc, plan)?;
    go_on(plan, &mut walk)?;
    if have_ended(plan, walk.positions.as_slice()) {
        return Ok(Ok(walk.steps));
    }
    Ok(Err(stops_of(alloc, plan, walk.positions.as_slice())?))
}
