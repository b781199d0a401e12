//! The report of a document's events.
ghost use Rattle.std.specs.Prelude.{◌≡◌, ◌≤◌, All, Err, IfErr, IfOk, Ok, OnOk, Some, [], ◌∷◌, length, map};
ghost use Rattle.std.specs.Prelude.{string_bytes, false};
ghost use Rattle.sm_placement.specs.Setup.{sizes_of};
ghost use Rattle.sm_placement.specs.Place.{down_count};
ghost use Rattle.sm_placement.specs.Layout.{place_of};
ghost use Rattle.sm_placement.specs.Lead.{IsSettled};
ghost use Rattle.sm_plan_code.specs.Plan.{IsKnownPlan};
ghost use Rattle.sm_verifier.specs.Plan.{IsSound};
ghost use Rattle.sm_plan_text.specs.Documents.{IsDocument};
ghost use Rattle.sm_plan_text.specs.Reading.{rows_of};
ghost use Rattle.sm_protocol.specs.Laws.{NamesKnown};
ghost use Rattle.sm_machine.specs.Hand.{AreFor, hand_plan};
ghost use Rattle.sm_report_text.specs.Checking.{accepted_line};
ghost use Rattle.sm_report.specs.Stop.{IfEnded, IfMade};
ghost use Rattle.sm_report.specs.Player.{scene_of, IsSetUp};
ghost use Rattle.sm_report.specs.Playing.{opened_scene};
ghost use Rattle.sm_report_text.specs.EventLines.{plan_front};
ghost use Rattle.sm_report.specs.Report.{Output};
ghost use Rattle.sm_report.specs.Stages.{AtChecks, IsFaultReport, Then, begin_stage};
ghost use Rattle.sm_report.specs.Output.{played_output, IsLoggedForPlay, IsPlacedForPlay, IsOpenedForPlay};
ghost use Rattle.sm_report.specs.Output.{IsAloneForPlay, IsPlayReport, IsPlayedOutput};
ghost use Rattle.sm_plan_code.specs.declared.limits.TheConstants.{MOST_PLACES};

use crate::made_report::MadeReport;
use crate::player::Player;
use crate::playing::play_events;
use crate::stages::{checked, member, placement, require_log_room, require_one_source_of_plans};
use crate::stop::Stop;
use sm_placement::{Config, Placement};
use sm_plan_code::Plan;
use sm_plan_text::{Document, Member};
use sm_protocol::{Event, Played};
use sm_report_text::{push_accepted, push_ending, push_plan_front};
use sm_verifier::Checked;
use std::alloc::{AllocError, Global};

/// Takes the plan at a place of the document, once it has passed the check; otherwise the report ends.
fn check_at(
    alloc: Global,
    many: bool,
    place: usize,
    placement: &Placement,
    plan: Plan,
) -> Result<Checked, Stop>
    requires { IsKnownPlan (length placement.now.setup.shards) (length placement.now.setup.servers) plan }
    ensures setup { IfOk result (λ checked. checked.setup ≡ placement.now.setup) }
    ensures plan { IfOk result (λ checked. checked.plan ≡ plan) }
    ensures sound { OnOk result (IsSound (sizes_of placement.now.setup) plan) }
    ensures ends { IfErr result (λ stop. IfEnded stop
        (IsFaultReport (sizes_of placement.now.setup) (plan_front many place) plan)) }
{
    let mut front = String::new(alloc);
    push_plan_front(&mut front, many, place)?;
    checked(alloc, front.as_str(), placement, plan)
}

/// Takes the plans of a document, once each has passed the check; otherwise the report ends with the first that does
/// not.
fn all_checked(
    alloc: Global,
    many: bool,
    placement: &Placement,
    plans: Vec<Plan>,
) -> Result<Vec<Option<Checked>>, Stop>
    requires { All (IsKnownPlan (length placement.now.setup.shards) (length placement.now.setup.servers)) plans.items }
    ensures waiting { IfOk result (λ waiting. map hand_plan waiting.items ≡ map (λ plan. Some plan) plans.items) }
    ensures checked { IfOk result (λ waiting. AreFor placement.now.setup waiting.items) }
    ensures passed { OnOk result ((output : Output)
        → AtChecks (sizes_of placement.now.setup) many 0 plans.items (λ other. other ≡ output) output) }
    ensures ends { IfErr result (λ stop. IfEnded stop
        (AtChecks (sizes_of placement.now.setup) many 0 plans.items (λ other. ⊥))) }
{
    let mut left = plans;
    let mut waiting = Vec::with_capacity(alloc, left.len())?;
    for place in 0..left.len() {
        let plan = left.remove(0);
        let checked = check_at(alloc, many, place, placement, plan)?;
        waiting.push_reserved(Some(checked));
    }
    Ok(waiting)
}

/// Makes the player of a document's events, once each of its plans has passed the check.
fn open_player(
    alloc: Global,
    many: bool,
    placement: Placement,
    log: u32,
    plans: Vec<Plan>,
) -> Result<Player, Stop>
    requires settled { IsSettled (sizes_of placement.setup) (place_of placement) }
    requires room { down_count (sizes_of placement.setup) (place_of placement) ≤ log }
    requires most { log ≤ MOST_PLACES }
    requires known { All (IsKnownPlan (length placement.setup.shards) (length placement.setup.servers)) plans.items }
    ensures scene { IfOk result (λ p. scene_of p
        ≡ opened_scene (sizes_of placement.setup) (place_of placement) log plans.items) }
    ensures setup { IfOk result (λ p. p.director.placement.setup ≡ placement.setup) }
    ensures ready { IfOk result IsSetUp }
    ensures passed { OnOk result ((output : Output)
        → AtChecks (sizes_of placement.setup) many 0 plans.items (λ other. other ≡ output) output) }
    ensures ends { IfErr result (λ stop. IfEnded stop
        (AtChecks (sizes_of placement.setup) many 0 plans.items (λ other. ⊥))) }
{
    let waiting = all_checked(alloc, many, &placement, plans)?;
    Ok(Player::open(alloc, placement, log, waiting)?)
}

/// Plays events, and returns their report, behind a front.
fn report_played(
    alloc: Global,
    config: &Config,
    front: String,
    many: bool,
    mut player: Player,
    events: &[Event],
) -> Result<MadeReport, AllocError>
    requires ready { IsSetUp player }
    requires known { All (NamesKnown (sizes_of config.now)) events.now }
    requires setup { player.director.placement.setup ≡ config.now }
    ensures { IfOk result (λ made. made ≡ played_output config.now many (string_bytes front) events.now
        (scene_of player)) }
{
    let mut text = front;
    let told = play_events(alloc, &mut text, config, many, &mut player, events);
    let placement = player.close();
    told?;
    push_ending(&mut text, &placement)?;
    Ok(MadeReport::done(text))
}

/// Returns the report of the events of a document whose plans are begun by events.
fn report_list(
    alloc: Global,
    config: &Config,
    many: bool,
    placement: Placement,
    log: u32,
    plans: Vec<Plan>,
    events: &[Event],
) -> Result<MadeReport, Stop>
    requires setup { placement.setup ≡ config.now }
    requires settled { IsSettled (sizes_of placement.setup) (place_of placement) }
    requires room { down_count (sizes_of placement.setup) (place_of placement) ≤ log }
    requires most { log ≤ MOST_PLACES }
    requires known { All (IsKnownPlan (length placement.setup.shards) (length placement.setup.servers)) plans.items }
    requires events { All (NamesKnown (sizes_of config.now)) events.now }
    ensures { IfMade result (AtChecks (sizes_of config.now) many 0 plans.items
        (IsPlayedOutput config.now many [] events.now
        (opened_scene (sizes_of config.now) (place_of placement) log plans.items))) }
{
    let player = open_player(alloc, many, placement, log, plans)?;
    Ok(report_played(alloc, config, String::new(alloc), many, player, events)?)
}

/// Begins the plan at the first place before any event; otherwise the report ends.
fn begin_alone(alloc: Global, config: &Config, player: &mut Player) -> Result<(), Stop>
    requires { IsSetUp player.old }
    ensures ok { OnOk result (begin_stage config.now (scene_of player.old) ≡ Ok (scene_of player.new)) }
    ensures ready { OnOk result (IsSetUp player.new) }
    ensures setup { OnOk result (player.new.director.placement.setup ≡ player.old.director.placement.setup) }
    ensures ends { IfErr result (λ stop. IfEnded stop
        (λ made. begin_stage config.now (scene_of player.old) ≡ Err made)) }
{
    match player.play(alloc, Event::Begin { plan: 0 }) {
        Ok(Played::NotBegun(why)) => Err(Stop::Report(MadeReport::not_begun(alloc, config, why)?)),
        Ok(_) => Ok(()),
        Err(_) => Err(Stop::NoMemory),
    }
}

/// Returns the report of a player's one plan and of its events, behind a front.
fn report_begun(
    alloc: Global,
    config: &Config,
    front: String,
    mut player: Player,
    events: &[Event],
) -> Result<MadeReport, Stop>
    requires ready { IsSetUp player }
    requires known { All (NamesKnown (sizes_of config.now)) events.now }
    requires setup { player.director.placement.setup ≡ config.now }
    ensures { IfMade result (Then (begin_stage config.now (scene_of player))
        (IsPlayedOutput config.now false (string_bytes front) events.now)) }
{
    match begin_alone(alloc, config, &mut player) {
        Ok(()) => Ok(report_played(alloc, config, front, false, player, events)?),
        Err(stop) => {
            let _ = player.close();
            Err(stop)
        }
    }
}

/// Returns the report of the events of a document that has one plan, which begins before them.
fn report_one(
    alloc: Global,
    config: &Config,
    placement: Placement,
    log: u32,
    plan: Plan,
    events: &[Event],
) -> Result<MadeReport, Stop>
    requires setup { placement.setup ≡ config.now }
    requires settled { IsSettled (sizes_of placement.setup) (place_of placement) }
    requires room { down_count (sizes_of placement.setup) (place_of placement) ≤ log }
    requires most { log ≤ MOST_PLACES }
    requires known { IsKnownPlan (length placement.setup.shards) (length placement.setup.servers) plan }
    requires events { All (NamesKnown (sizes_of config.now)) events.now }
    ensures { IfMade result (AtChecks (sizes_of config.now) false 0 (plan ∷ [])
        (Then (begin_stage config.now (opened_scene (sizes_of config.now) (place_of placement) log (plan ∷ [])))
        (IsPlayedOutput config.now false (accepted_line plan) events.now))) }
{
    let mut front = String::new(alloc);
    push_accepted(&mut front, &plan)?;
    let mut plans = Vec::with_capacity(alloc, 1)?;
    plans.push_reserved(plan);
    let player = open_player(alloc, false, placement, log, plans)?;
    report_begun(alloc, config, front, player, events)
}

/// Returns the report of a document's events at its placement, whose log has room. It takes the plans out of the
/// document.
fn report_logged(
    alloc: Global,
    document: &mut Document,
    placement: Placement,
    events: &[Event],
) -> Result<MadeReport, Stop>
    requires document { IsDocument (rows_of document.old) }
    requires setup { placement.setup ≡ (rows_of document.old).setup }
    requires settled { IsSettled (sizes_of placement.setup) (place_of placement) }
    requires room { down_count (sizes_of placement.setup) (place_of placement) ≤ document.old.log }
    requires events { All (NamesKnown (sizes_of (rows_of document.old).setup)) events.now }
    ensures { IfMade result (IsLoggedForPlay (rows_of document.old) events.now (place_of placement) tt) }
{
    let log = document.log;
    let plan = document.plan.take();
    let plans = document.plans.take();
    let config = &document.config;
    match (plan, plans) {
        (_, Some(plans)) => report_list(alloc, config, true, placement, log, plans, events),
        (Some(plan), None) => report_one(alloc, config, placement, log, plan, events),
        (None, None) => {
            report_list(
                alloc,
                config,
                false,
                placement,
                log,
                Vec::new(alloc),
                events,
            )
        }
    }
}

/// Returns the report of a document's events at its placement.
fn report_placed(
    alloc: Global,
    document: &mut Document,
    placement: Placement,
    events: &[Event],
) -> Result<MadeReport, Stop>
    requires document { IsDocument (rows_of document.old) }
    requires setup { placement.setup ≡ (rows_of document.old).setup }
    requires settled { IsSettled (sizes_of placement.setup) (place_of placement) }
    requires events { All (NamesKnown (sizes_of (rows_of document.old).setup)) events.now }
    ensures { IfMade result (IsPlacedForPlay (rows_of document.old) events.now (place_of placement)) }
{
    require_log_room(alloc, document, &placement)?;
    report_logged(alloc, document, placement, events)
}

/// Returns the report of a document's events, which were taken out of it.
fn report_events(
    alloc: Global,
    document: &mut Document,
    events: &[Event],
) -> Result<MadeReport, Stop>
    requires document { IsDocument (rows_of document.old) }
    requires events { All (NamesKnown (sizes_of (rows_of document.old).setup)) events.now }
    ensures { IfMade result (IsOpenedForPlay (rows_of document.old) events.now) }
{
    let placement = placement(alloc, document)?;
    report_placed(alloc, document, placement, events)
}

/// Returns the report of the events of a document that has one plan at most, or a list of plans.
fn report_alone(alloc: Global, document: &mut Document) -> Result<MadeReport, Stop>
    requires { IsDocument (rows_of document.old) }
    ensures { IfMade result (IsAloneForPlay (rows_of document.old) tt) }
{
    let events = member(alloc, Member::Events, document.events.take())?;
    report_events(alloc, document, events.as_slice())
}

/// Takes a document's events out of it with its plans, and returns their report.
pub fn report_play(alloc: Global, document: &mut Document) -> Result<MadeReport, Stop>
    requires { IsDocument (rows_of document.old) }
    ensures { IfMade result (IsPlayReport (rows_of document.old)) }
{
    require_one_source_of_plans(alloc, document)?;
    report_alone(alloc, document)
}
