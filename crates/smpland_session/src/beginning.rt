//! The begin of a plan.
ghost use Rattle.std.specs.Prelude.{◌≡◌, ◌↔◌, IfErr, IfNone, IfOk, IfSome, IsTrue, None, Some, length, option_map};
ghost use Rattle.json_tree.specs.View.{view};
ghost use Rattle.sm_placement.specs.Setup.{sizes_of};
ghost use Rattle.smpland_state.specs.Names.{value_of};
ghost use Rattle.sm_plan_code.specs.Plan.{IsKnownPlan};
ghost use Rattle.sm_verifier.specs.Plan.{IsCheckedPlan};
ghost use Rattle.smpland_state.specs.Begun.{begun_plan};
ghost use Rattle.smpland_state.specs.Known.{unknown_called};
ghost use Rattle.smpland_session.specs.Asked.{SaysPlan};
ghost use Rattle.smpland_session.specs.Begins.{IsNotSaid, kept_plan};
ghost use Rattle.smpland_session.specs.Checks.{IsUnready};
ghost use Rattle.smpland_session.specs.Outcomes.{BeginOutcome, StartOutcome};

use crate::command_context::CommandContext;
use crate::decline::Decline;
use crate::driver_outcome::DriverOutcome;
use crate::planning::known_plan;
use json_tree::Tree;
use sm_machine::{ReadyPlan, make_ready};
use sm_placement::Config;
use sm_plan_code::Plan;
use sm_plan_text::{TextFault, read_plan_value, write_plan};
use smpland_state::{BegunPlan, JournalState, note_begun};
use std::alloc::{AllocError, Global};

/// The plan that has begun, as it was begun, if it is of the present epoch: those of earlier ones are not kept.
fn kept_plan(opened: &JournalState, begun: BegunPlan) -> Option<&Plan>
    ensures { option_map (λ plan. plan.now) result ≡ kept_plan opened.now.driver begun }
{
    let machine = opened.driver.machine();
    if begun.epoch == opened.driver.epoch() && u64::from(begun.number) < machine.plan_count() {
        Some(machine.plan(begun.number))
    } else {
        None
    }
}

/// Whether two plans over the names of a configuration are the same: if they are written alike.
fn is_same_plan(
    alloc: Global,
    config: &Config,
    kept: &Plan,
    said: &Plan,
) -> Result<bool, AllocError>
    requires { IsKnownPlan (length config.now.shards) (length config.now.servers) said.now }
    ensures { IfOk result (λ same. IsTrue same ↔ said.now ≡ kept.now) }
{
    if !kept.fits(config) {
        return Ok(false);
    }
    let kept = write_plan(alloc, config, kept)?;
    let said = write_plan(alloc, config, said)?;
    Ok(said.as_slice() == kept.as_slice())
}

/// Why a value does not say the plan that has begun under a name, if it does not.
fn not_said(
    opened: &JournalState,
    alloc: Global,
    value: &Tree<'_>,
    name: &str,
    kept: &Plan,
) -> Result<Option<Decline>, AllocError>
    ensures said { IfOk result (λ found. IfNone found
        (SaysPlan opened.now.driver.machine.placement.setup (view value.now) kept.now)) }
    ensures not_said { IfOk result (λ found. IfSome found (λ why.
        IsNotSaid opened.now.driver.machine.placement.setup (view value.now) name.now kept.now why)) }
{
    let config = opened.driver.machine().config();
    let said = match read_plan_value(alloc, config, value) {
        Ok(plan) => plan,
        Err(TextFault::NoMemory) => return Err(AllocError),
        Err(fault) => return Ok(Some(Decline::NoPlan(fault))),
    };
    if is_same_plan(alloc, config, kept, &said)? {
        Ok(None)
    } else {
        Ok(Some(Decline::OtherPlan(String::from_str(alloc, name)?)))
    }
}

/// A plan as a line brings it, under its name.
#[derive(Clone, Copy)]
struct NamedPlan<'t, 'a> {
    value: &'t Tree<'a>,
    name: &'t str,
}

/// What comes of a begin under a name under which a plan has begun before.
fn begun_before(
    opened: &JournalState,
    at: CommandContext,
    alloc: Global,
    said: NamedPlan<'_, '_>,
    plan: BegunPlan,
) -> Result<DriverOutcome, AllocError>
    requires { value_of opened.now.plans said.name.now ≡ Some plan }
    ensures { IfOk result (λ outcome. BeginOutcome (view said.entry.value.now) said.entry.name.now at.is_reopening
        opened.now outcome opened.now) }
{
    let goes_on = !at.is_reopening;
    let Some(kept) = kept_plan(opened, plan) else {
        return Ok(DriverOutcome::BegunBefore { plan, goes_on });
    };
    match not_said(opened, alloc, said.value, said.name, kept)? {
        Some(why) => Ok(DriverOutcome::Declined(why)),
        None => Ok(DriverOutcome::BegunBefore { plan, goes_on }),
    }
}

/// The plan that a value says, ready to begin: it calls no server that is not known.
fn ready(
    opened: &JournalState,
    alloc: Global,
    value: &Tree<'_>,
) -> Result<Result<ReadyPlan, Decline>, AllocError>
    ensures setup { IfOk result (λ found. IfOk found (λ ready.
        ready.setup ≡ opened.now.driver.machine.placement.setup)) }
    ensures checked { IfOk result (λ found. IfOk found (λ ready. IsCheckedPlan (sizes_of ready.setup) ready.plan)) }
    ensures said { IfOk result (λ found. IfOk found (λ ready.
        SaysPlan opened.now.driver.machine.placement.setup (view value.now) ready.plan)) }
    ensures known { IfOk result (λ found. IfOk found (λ ready. unknown_called opened.now.driver ready.plan ≡ None)) }
    ensures unready { IfOk result (λ found. IfErr found (IsUnready opened.now.driver (view value.now))) }
{
    match known_plan(opened, alloc, value)? {
        Ok(checked) => {
            let _count = checked.plan().streams().len();
            match make_ready(alloc, checked) {
                Ok(ready) => Ok(Ok(ready)),
                Err(_) => Err(AllocError),
            }
        }
        Err(why) => Ok(Err(why)),
    }
}

/// Gives a plan that has begun at a place its name, and returns it.
fn name_plan(
    opened: &mut JournalState,
    place: u64,
    number: u32,
    name: &str,
) -> Result<BegunPlan, AllocError>
    requires { value_of opened.old.plans name.now ≡ None }
    ensures driver { opened.new.driver ≡ opened.old.driver }
    ensures plan { IfOk result (λ plan. plan ≡ begun_plan opened.new.driver number) }
{
    let plan = opened.begun_plan(number);
    opened.plans.insert(name, plan)?;
    note_begun(&mut opened.history, &opened.driver, place, plan)?;
    Ok(plan)
}

/// Begins a plan that is ready at a place.
fn start(
    opened: &mut JournalState,
    place: u64,
    ready: ReadyPlan,
    name: &str,
) -> Result<DriverOutcome, AllocError>
    requires setup { ready.setup ≡ opened.old.driver.machine.placement.setup }
    requires new { value_of opened.old.plans name.now ≡ None }
    ensures { IfOk result (λ outcome. StartOutcome ready.plan opened.old outcome opened.new) }
{
    match opened.driver.begin(ready) {
        Ok(number) => {
            let plan = name_plan(opened, place, number, name)?;
            Ok(DriverOutcome::Begun(plan))
        }
        Err((ready, fault)) => {
            let _ = ready.back();
            Ok(DriverOutcome::Declined(Decline::NotBegun(fault)))
        }
    }
}

/// Begins the plan of a command, unless one has begun under its name or a reopening is under way.
pub fn begin(
    opened: &mut JournalState,
    at: CommandContext,
    alloc: Global,
    value: &Tree<'_>,
    name: &str,
) -> Result<DriverOutcome, AllocError>
    ensures { IfOk result (λ outcome.
        BeginOutcome (view value.now) name.now at.is_reopening opened.old outcome opened.new) }
{
    // Whoever begins the same plan again under its name is told so.
    if let Some(plan) = opened.plans.get(name) {
        return begun_before(opened, at, alloc, NamedPlan { value, name }, plan);
    }
    if at.is_reopening {
        return Ok(DriverOutcome::Declined(Decline::Reopening));
    }
    match ready(opened, alloc, value)? {
        Ok(ready) => start(opened, at.place, ready, name),
        Err(why) => Ok(DriverOutcome::Declined(why)),
    }
}
