//! Checked plans.
ghost use Rattle.std.specs.Prelude.{◌≡◌, ◌<◌, length, slice_index, slice_index_or};
ghost use Rattle.sm_placement.specs.Setup.{sizes_of};
ghost use Rattle.sm_reservation.specs.Rights.{no_rights};
ghost use Rattle.sm_reservation.specs.HoldOf.{hold_of};
ghost use Rattle.sm_plan_code.specs.Plan.{IsKnownPlan};
ghost use Rattle.sm_verifier.specs.Stream.{stream_at, final_hold};
ghost use Rattle.sm_verifier.specs.Peak.{IsPeak};
ghost use Rattle.sm_verifier.specs.Order.{IsOrder};
ghost use Rattle.sm_verifier.specs.Plan.{IsSound};
ghost use Rattle.sm_verifier.specs.Checked.{checked_model, IsChecked};

use sm_placement::Config;
use sm_plan_code::Plan;
use sm_reservation::Parcel;
use std::marker::Model;

/// The findings of a check about a plan that passes it.
#[derive(Drop)]
pub(crate) struct Findings {
    /// A copy of the configuration.
    pub config: Config,
    /// An order of the plan's steps.
    pub order: Vec<(u32, u32)>,
    /// The rights that each stream holds at its end.
    pub finals: Vec<Parcel>,
    /// The most keys that one list of each stream's hold has.
    pub peaks: Vec<u32>,
}

/// A plan that has passed the check, with what the check found out.
///
/// There is no other way to get one than the check, and none to change one.
pub struct Checked {
    config: Config,
    plan: Plan,
    order: Vec<(u32, u32)>,
    finals: Vec<Parcel>,
    peaks: Vec<u32>,
}

/// Drops everything in one call, instead of one call for each list.
impl Drop for Checked {
    fn drop(self) {
        let Checked {
            config,
            plan,
            order,
            finals,
            peaks,
        } = self;
        drop(config);
        drop(plan);
        drop(order);
        drop(finals);
        drop(peaks);
    }
}

impl Model for Checked {
    ghost use Rattle.sm_verifier.specs.Checked.{CheckedModel, IsChecked};

    ghost Value = { CheckedModel };

    ghost use Rattle.sm_verifier.specs.CheckedView.{checked_of};

    ghost view = { checked_of };

    ghost invariant = { λ a. IsChecked (checked_of a) };
}

impl Checked {
    /// Returns the plan with what the check found out about it.
    pub(crate) fn new(plan: Plan, findings: Findings) -> Checked
        requires { IsChecked (checked_model findings.config plan findings.order.items findings.finals.items
            findings.peaks.items) }
        ensures { result ≡ checked_model findings.config plan findings.order.items findings.finals.items
            findings.peaks.items }
    {
        let Findings {
            config,
            order,
            finals,
            peaks,
        } = findings;
        Checked {
            config,
            plan,
            order,
            finals,
            peaks,
        }
    }

    /// Returns the configuration that the plan was checked for.
    pub fn config(&self) -> &Config
        ensures { result.now ≡ self.now.setup }
    {
        &self.config
    }

    /// Returns the plan.
    pub fn plan(&self) -> &Plan
        ensures value { result.now ≡ self.now.plan }
        ensures fits { IsKnownPlan (length self.now.setup.shards) (length self.now.setup.servers) self.now.plan }
        ensures sound { IsSound (sizes_of self.now.setup) self.now.plan }
    {
        &self.plan
    }

    /// Returns the plan, which is checked no longer.
    pub fn into_plan(self) -> Plan
        ensures value { result ≡ self.plan }
        ensures fits { IsKnownPlan (length self.setup.shards) (length self.setup.servers) self.plan }
        ensures sound { IsSound (sizes_of self.setup) self.plan }
    {
        let Checked {
            config: _,
            plan,
            order: _,
            finals: _,
            peaks: _,
        } = self;
        plan
    }

    /// Returns an order of the plan's steps, each as the number of a stream and a position in its code. The position
    /// behind the last instruction is the stream's end.
    pub fn order(&self) -> &[(u32, u32)]
        ensures value { result.now ≡ self.now.order }
        ensures order { IsOrder self.now.plan self.now.order }
    {
        self.order.as_slice()
    }

    /// Returns what a stream holds at its end.
    pub fn final_hold(&self, stream: u32) -> &Parcel
        requires { stream < length self.now.plan.streams }
        ensures value { result.now ≡ slice_index_or self.now.finals stream no_rights }
        ensures hold { hold_of result.now ≡ final_hold (stream_at (sizes_of self.now.setup) self.now.plan stream) }
    {
        &self.finals[stream as usize]
    }

    /// Returns the greatest number of keys that one list of a stream's hold has on its way.
    pub fn peak(&self, stream: u32) -> u32
        requires { stream < length self.now.plan.streams }
        ensures value { result ≡ slice_index self.now.peaks stream }
        ensures peak { IsPeak (stream_at (sizes_of self.now.setup) self.now.plan stream) result }
    {
        self.peaks[stream as usize]
    }
}
