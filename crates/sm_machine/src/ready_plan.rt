//! Plans that are ready to start.
ghost use Rattle.std.specs.Prelude.{◌≡◌, ◌≤◌, ◌++◌, ◌∷◌, [], All, length, vec_capacity, IfOk, OnOk, IfErr, OnErr};
ghost use Rattle.sm_reservation.specs.Capacity.{most_keys};
ghost use Rattle.sm_plan_code.specs.Plan.{IsSmallParcel};
ghost use Rattle.sm_placement.specs.Setup.{sizes_of};
ghost use Rattle.sm_machine.specs.Servers.{AreMentionedBy};
ghost use Rattle.sm_machine.specs.Started.{ArePeaksOf};
ghost use Rattle.sm_machine.specs.Starts.{IsEmptyCourse, IsEmptyCarried, ready_course, ready_signal, ready_courses};
ghost use Rattle.sm_machine.specs.Starts.{ready_signals, begun_of};

use crate::begun::Begun;
use crate::carried::Carried;
use crate::plan_room::PlanRoom;
use crate::servers::MentionedServers;
use crate::stream::Course;
use crate::token::StreamToken;
use sm_reservation::{Grant, Parcel};
use sm_verifier::Checked;
use std::alloc::{AllocError, AllocFailed, Global};
use std::marker::Model;

/// A checked plan with all the room that its start needs. It can be neither copied nor dropped: a start spends it, or
/// `back` gives the checked plan back.
pub struct ReadyPlan {
    checked: Checked,
    courses: Vec<Course>,
    signals: Vec<Carried>,
    mentioned: Vec<MentionedServers>,
    tokens: Vec<StreamToken>,
    room: PlanRoom,
}

impl Model for ReadyPlan {
    ghost use Rattle.std.specs.Prelude.{◌≡◌, ◌≤◌, [], length, vec_capacity};
    ghost use Rattle.sm_verifier.specs.Checked.{CheckedModel};
    ghost use Rattle.sm_placement.specs.Setup.{sizes_of};
    ghost use Rattle.sm_machine.specs.Starts.{ready_courses, ready_signals};
    ghost use Rattle.sm_machine.specs.Started.{ArePeaksOf};
    ghost use Rattle.sm_machine.specs.Servers.{AreMentionedBy};

    ghost Value = { CheckedModel };

    ghost view = { λ r. r.checked };

    ghost invariant = { λ r. (r.courses.items ≡ ready_courses r.checked) × (r.signals.items ≡ ready_signals r.checked) × AreMentionedBy r.checked.plan.streams r.mentioned.items × (r.tokens.items ≡ []) × (length r.checked.plan.streams ≤ vec_capacity r.tokens) × ArePeaksOf (sizes_of r.checked.setup) r.checked (length r.checked.plan.streams) };
}

/// Ends streams that hold nothing. Takes no memory.
fn discard_courses(courses: Vec<Course>)
    requires { All IsEmptyCourse courses.items }
{
    let mut courses = courses;
    for _ in 0..courses.len() {
        match courses.pop() {
            Some(course) => course.discard(),
            None => {}
        }
    }
    courses.destroy_empty();
}

/// Ends signals that carry nothing. Takes no memory.
fn discard_signals(signals: Vec<Carried>)
    requires { All IsEmptyCarried signals.items }
{
    let mut signals = signals;
    for _ in 0..signals.len() {
        match signals.pop() {
            Some(signal) => signal.discard(),
            None => {}
        }
    }
    signals.destroy_empty();
}

/// Returns the number of keys of the longest list of a parcel.
fn longest_of(parcel: &Parcel) -> u32
    requires { IsSmallParcel parcel.now }
    ensures { result ≡ most_keys parcel.now }
{
    let cells = parcel.cells().len();
    let crowns = parcel.crowns().len();
    let room = parcel.room().len();
    let spare = parcel.spare().len();
    cells.max(crowns).max(room).max(spare) as u32
}

/// Makes another stream, with an empty grant.
fn add_course(alloc: Global, courses: &mut Vec<Course>, capacity: u32) -> Result<(), AllocError>
    ensures ok { OnOk result (courses.new.items ≡ courses.old.items ++ ready_course capacity ∷ []) }
    ensures err { OnErr result (courses.new.items ≡ courses.old.items) }
{
    let grant = Grant::empty(alloc, capacity)?;
    match courses.push(Course::new(grant)) {
        Ok(()) => Ok(()),
        Err(AllocFailed { value }) => {
            value.discard();
            Err(AllocError)
        }
    }
}

/// Makes another signal, with an empty grant that has capacity for its parcel.
fn add_signal(alloc: Global, signals: &mut Vec<Carried>, parcel: &Parcel) -> Result<(), AllocError>
    requires { IsSmallParcel parcel.now }
    ensures ok { OnOk result (signals.new.items ≡ signals.old.items ++ ready_signal parcel.now ∷ []) }
    ensures err { OnErr result (signals.new.items ≡ signals.old.items) }
{
    let grant = Grant::empty(alloc, longest_of(parcel))?;
    match signals.push(Carried::new(grant)) {
        Ok(()) => Ok(()),
        Err(AllocFailed { value }) => {
            value.discard();
            Err(AllocError)
        }
    }
}

/// Makes the streams of a checked plan, each with an empty grant that has capacity for all that it holds on its way.
fn make_courses(alloc: Global, checked: &Checked) -> Result<Vec<Course>, AllocError>
    ensures courses { IfOk result (λ courses. courses.items ≡ ready_courses checked.now) }
    ensures peaks { OnOk result (ArePeaksOf (sizes_of checked.now.setup) checked.now
        (length checked.now.plan.streams)) }
{
    let count = checked.plan().streams().len();
    let mut courses = Vec::new(alloc);
    for stream in 0..count {
        match add_course(alloc, &mut courses, checked.peak(stream as u32)) {
            Ok(()) => {}
            Err(error) => {
                discard_courses(courses);
                return Err(error);
            }
        }
    }
    Ok(courses)
}

/// Makes the signals of a checked plan, each with an empty grant that has capacity for its parcel.
fn make_signals(alloc: Global, checked: &Checked) -> Result<Vec<Carried>, AllocError>
    ensures { IfOk result (λ signals. signals.items ≡ ready_signals checked.now) }
{
    let parcels = checked.plan().signals();
    let mut signals = Vec::new(alloc);
    for parcel in parcels {
        match add_signal(alloc, &mut signals, parcel) {
            Ok(()) => {}
            Err(error) => {
                discard_signals(signals);
                return Err(error);
            }
        }
    }
    Ok(signals)
}

/// Makes the streams and the signals of a checked plan, each with capacity for what it will have, and the servers that
/// each stream mentions.
fn make_parts(
    alloc: Global,
    checked: &Checked,
) -> Result<(Vec<Course>, Vec<Carried>, Vec<MentionedServers>), AllocError>
    ensures courses { IfOk result (λ r. r.0.items ≡ ready_courses checked.now) }
    ensures signals { IfOk result (λ r. r.1.items ≡ ready_signals checked.now) }
    ensures mentioned { IfOk result (λ r. AreMentionedBy checked.now.plan.streams r.2.items) }
    ensures peaks { OnOk result (ArePeaksOf (sizes_of checked.now.setup) checked.now
        (length checked.now.plan.streams)) }
{
    let mentioned = MentionedServers::of_each(alloc, checked.plan().streams())?;
    let courses = make_courses(alloc, checked)?;
    match make_signals(alloc, checked) {
        Ok(signals) => Ok((courses, signals, mentioned)),
        Err(error) => {
            discard_courses(courses);
            Err(error)
        }
    }
}

/// Makes room for a plan, and for the tokens of `count` streams.
fn make_room(alloc: Global, count: usize) -> Result<(PlanRoom, Vec<StreamToken>), AllocError>
    ensures none { IfOk result (λ r. r.1.items ≡ []) }
    ensures room { IfOk result (λ r. count ≤ vec_capacity r.1) }
{
    let room = PlanRoom::new(alloc)?;
    match Vec::with_capacity(alloc, count) {
        Ok(tokens) => Ok((room, tokens)),
        Err(error) => {
            room.discard();
            Err(error)
        }
    }
}

/// Takes all memory that the start of a checked plan needs. If memory is short the checked plan comes back.
pub fn make_ready(alloc: Global, checked: Checked) -> Result<ReadyPlan, (Checked, AllocError)>
    ensures ready { IfOk result (λ ready. ready ≡ checked) }
    ensures back { IfErr result (λ e. e.0 ≡ checked) }
{
    let count = checked.plan().streams().len();
    let (room, tokens) = match make_room(alloc, count) {
        Ok(made) => made,
        Err(error) => return Err((checked, error)),
    };
    match make_parts(alloc, &checked) {
        Ok((courses, signals, mentioned)) => Ok(ReadyPlan {
            checked,
            courses,
            signals,
            mentioned,
            tokens,
            room,
        }),
        Err(error) => {
            tokens.destroy_empty();
            room.discard();
            Err((checked, error))
        }
    }
}

impl ReadyPlan {
    /// Returns the checked plan.
    pub fn checked(&self) -> &Checked
        ensures value { result.now ≡ self.now }
        ensures peaks { ArePeaksOf (sizes_of self.now.setup) self.now (length self.now.plan.streams) }
    {
        &self.checked
    }

    /// Gives up the plan's room, and returns the checked plan. Takes no memory.
    pub fn back(self) -> Checked
        ensures { result ≡ self }
    {
        let ReadyPlan {
            checked,
            courses,
            signals,
            mentioned: _,
            tokens,
            room,
        } = self;
        discard_courses(courses);
        discard_signals(signals);
        tokens.destroy_empty();
        room.discard();
        checked
    }

    /// Returns the plan as it is begun, before its streams have what they declare, with its room and with room for
    /// their tokens. Takes no memory.
    pub(crate) fn into_begun(self, since: u32) -> (Begun, PlanRoom, Vec<StreamToken>)
        ensures begun { result.0 ≡ begun_of self since }
        ensures none { result.2.items ≡ [] }
        ensures room { length self.plan.streams ≤ vec_capacity result.2 }
    {
        let ReadyPlan {
            checked,
            courses,
            signals,
            mentioned,
            tokens,
            room,
        } = self;
        let plan = checked.into_plan();
        let begun = Begun::new(plan, since, courses, signals, mentioned);
        (begun, room, tokens)
    }
}
