//! Plans: streams of instructions, what each of them holds at its start, and what each signal carries.
ghost use Rattle.std.specs.Prelude.{◌≡◌, ◌↔◌, IsTrue, IfSome, IfNone, IfOk, OnOk, IfErr, length};
ghost use Rattle.sm_plan_code.specs.Plan.{IsPlan, IsPlanFault, IsKnownPlan};
ghost use Rattle.sm_plan_code.specs.Parts.{parts_of};

use crate::Instr;
use crate::fits::is_known_plan;
use crate::limits::{is_small_plan, knows_signals};
use sm_placement::Config;
use sm_reservation::Parcel;
use std::marker::Model;
use thiserror::Error;

/// Instructions that are made one after another, and the rights that they begin with.
pub struct Stream {
    /// The greatest number of calls that the stream makes.
    pub budget: u32,
    /// The number of further tries that it has for calls whose answer is lost.
    pub retries: u32,
    /// The rights that the stream holds at its start.
    pub holds: Parcel,
    /// The instructions in their order.
    pub code: Vec<Instr>,
}

/// Drops everything in one call, instead of one call for each list.
impl Drop for Stream {
    fn drop(self) {
        let Stream {
            budget: _,
            retries: _,
            holds,
            code,
        } = self;
        drop(holds);
        drop(code);
    }
}

impl Model for Stream {
    ghost use Rattle.sm_plan_code.specs.Plan.{StreamModel};

    ghost Value = { StreamModel };

    ghost view = { λ s. record { budget = s.budget; retries = s.retries; holds = s.holds; code = s.code.items } };
}

/// The parts of a plan.
#[derive(Drop)]
pub struct Parts {
    /// The greatest number of calls and retries that the streams have together.
    pub budget: u32,
    /// The streams, each at its number.
    pub streams: Vec<Stream>,
    /// The parcel that each signal carries, at the signal's number.
    pub signals: Vec<Parcel>,
}

/// Why parts are no plan.
#[derive(Clone, Copy, Debug, PartialEq, Eq, Error)]
pub enum PlanFault {
    /// A list is too long, or a budget, a stream's retries or an amount of a parcel is too great.
    #[error("a list, a budget, retries or an amount is above its limit")]
    TooMany,
    /// A signal is posted or waited for that has no parcel.
    #[error("an instruction names a signal that the plan does not have")]
    UnknownSignal,
}

/// Streams and signals: each within its limits, and all signals of the instructions known.
pub struct Plan {
    budget: u32,
    streams: Vec<Stream>,
    signals: Vec<Parcel>,
}

/// Drops everything in one call, instead of one call for each list.
impl Drop for Plan {
    fn drop(self) {
        let Plan {
            budget: _,
            streams,
            signals,
        } = self;
        drop(streams);
        drop(signals);
    }
}

impl Model for Plan {
    ghost use Rattle.sm_plan_code.specs.Plan.{PlanModel, IsPlan};

    ghost Value = { PlanModel };

    ghost use Rattle.sm_plan_code.specs.Parts.{plan_of};

    ghost view = { plan_of };

    ghost invariant = { λ p. IsPlan (plan_of p) };
}

/// Returns the first fault of the parts.
fn fault_of(parts: &Parts) -> Option<PlanFault>
    ensures fault { IfSome result (λ fault. IsPlanFault (parts_of parts.now) fault) }
    ensures none { IfNone result (IsPlan (parts_of parts.now)) }
{
    if !is_small_plan(parts) {
        return Some(PlanFault::TooMany);
    }
    if !knows_signals(parts) {
        return Some(PlanFault::UnknownSignal);
    }
    None
}

impl Plan {
    /// Makes a plan. Parts that are none come back with the first fault in the order of `PlanFault`.
    ///
    /// A plan has at most 64 streams, 256 signals and a budget of 262,144. A stream has at most 4,096 instructions, and
    /// its budget and its retries are at most 262,144 each. A parcel, a stream's or a signal's, has at most 4,096
    /// entries in each of its lists, and amounts up to 4,294,967,295.
    pub fn new(parts: Parts) -> Result<Plan, (Parts, PlanFault)>
        ensures ok { IfOk result (λ plan. plan ≡ parts_of parts) }
        ensures valid { OnOk result (IsPlan (parts_of parts)) }
        ensures parts { IfErr result (λ e. e.0 ≡ parts) }
        ensures fault { IfErr result (λ e. IsPlanFault (parts_of parts) e.1) }
    {
        if let Some(fault) = fault_of(&parts) {
            return Err((parts, fault));
        }
        let Parts {
            budget,
            streams,
            signals,
        } = parts;
        Ok(Plan {
            budget,
            streams,
            signals,
        })
    }

    /// Returns the greatest number of calls and retries that the streams have together.
    pub fn budget(&self) -> u32
        ensures value { result ≡ self.now.budget }
        ensures plan { IsPlan self.now }
    {
        self.budget
    }

    /// Returns the streams, each at its number.
    pub fn streams(&self) -> &[Stream]
        ensures value { result.now ≡ self.now.streams }
        ensures plan { IsPlan self.now }
    {
        self.streams.as_slice()
    }

    /// Returns the parcel that each signal carries, at the signal's number.
    pub fn signals(&self) -> &[Parcel]
        ensures value { result.now ≡ self.now.signals }
        ensures plan { IsPlan self.now }
    {
        self.signals.as_slice()
    }

    /// Returns the parts of the plan.
    pub fn into_parts(self) -> Parts
        ensures parts { parts_of result ≡ self }
        ensures plan { IsPlan self }
    {
        let Plan {
            budget,
            streams,
            signals,
        } = self;
        Parts {
            budget,
            streams,
            signals,
        }
    }

    /// Tells whether each shard and server that the plan names is in the configuration: in its instructions, in what
    /// its streams hold and in what its signals carry.
    pub fn fits(&self, config: &Config) -> bool
        ensures { IsTrue result ↔ IsKnownPlan (length config.now.shards) (length config.now.servers) self.now }
    {
        is_known_plan(config.shard_count(), config.server_count(), self)
    }
}
