//! Local steps.
ghost use Rattle.std.specs.Prelude.{◌≡◌, ◌≤◌, ◌<◌, None, Some, length, true, if◌then◌else◌};
ghost use Rattle.sm_protocol.specs.Words.{first_from};
ghost use Rattle.sm_protocol.specs.State.{is_begun, next_instruction, stream_count, stream_id};
ghost use Rattle.sm_machine.specs.State.{state_of};
ghost use Rattle.sm_driver.specs.Advance.{is_free, posts_signal, IsAdvanced, IsFreeAlone, IsFreeIn};

use sm_machine::{Director, Machine};
use sm_plan_code::Instr;
use sm_protocol::Event;
use sm_reservation::StreamId;

/// The instruction that a stream makes next.
fn next_instruction(machine: &Machine, id: StreamId) -> Option<Instr>
    requires { is_begun (state_of machine.now) id ≡ true }
    ensures { result ≡ next_instruction (state_of machine.now) id }
{
    let stream = &machine.plan(id.plan).streams()[id.stream as usize];
    stream.code.get(machine.position(id)).copied()
}

/// Whether a stream that was begun can make its next step without anybody.
fn goes_by_itself(machine: &Machine, id: StreamId) -> bool
    requires { is_begun (state_of machine.now) id ≡ true }
    ensures { result ≡ is_free (state_of machine.now) id }
{
    match next_instruction(machine, id) {
        None | Some(Instr::Signal { .. }) => !machine.is_done(id),
        Some(Instr::Wait { .. }) => !machine.is_done(id) && machine.blocked_on(id).is_none(),
        Some(_) => false,
    }
}

/// Whether a stream can make its next step without anybody.
pub fn is_free(machine: &Machine, id: StreamId) -> bool
    ensures { result ≡ is_free (state_of machine.now) id }
{
    machine.is_begun(id) && goes_by_itself(machine, id)
}

/// Whether a stream's next step posts a signal.
fn posts(machine: &Machine, id: StreamId) -> bool
    requires { is_begun (state_of machine.now) id ≡ true }
    ensures { result ≡ posts_signal (next_instruction (state_of machine.now) id) }
{
    matches!(next_instruction(machine, id), Some(Instr::Signal { .. }))
}

/// The lowest free stream of a plan.
fn free_in(machine: &Machine, plan: u32) -> Option<StreamId>
    requires { plan < length (state_of machine.now).plans }
    ensures { result ≡ first_from 0 (stream_count (state_of machine.now) plan)
        (λ i. if is_free (state_of machine.now) (stream_id plan i) then Some (stream_id plan i) else None) }
{
    let count = machine.plan(plan).streams().len();
    for stream in 0..count {
        let id = StreamId {
            plan,
            stream: stream as u32,
        };
        if goes_by_itself(machine, id) {
            return Some(id);
        }
    }
    None
}

/// Makes every local step, each time that of the lowest stream that can make one. Streams of other plans
/// can make none at the call.
pub(crate) fn advance_plan(director: &mut Director, plan: u32)
    requires known { plan < length (state_of director.old).plans }
    requires alone { IsFreeIn (state_of director.old) plan }
    ensures advanced { IsAdvanced (state_of director.old) (state_of director.new) }
    ensures setup { director.new.placement.setup ≡ director.old.placement.setup }
{
    while let Some(id) = free_in(director.machine(), plan) {
        let _ = director.play(Event::Step { stream: id });
        director.machine().is_reached();
    }
}

/// Makes every local step, each time that of the lowest stream that can make one. Other streams can make
/// none at the call. Once it posts a signal, others of its plan may go on too.
pub(crate) fn advance(director: &mut Director, id: StreamId)
    requires { IsFreeAlone (state_of director.old) id }
    ensures advanced { IsAdvanced (state_of director.old) (state_of director.new) }
    ensures setup { director.new.placement.setup ≡ director.old.placement.setup }
{
    while is_free(director.machine(), id) {
        if posts(director.machine(), id) {
            advance_plan(director, id.plan);
            return;
        }
        let _ = director.play(Event::Step { stream: id });
        director.machine().is_reached();
    }
}
