//! Permits of restarts that were given under names.
ghost use Rattle.std.specs.Prelude.{◌≡◌, IfOk, option_map};
ghost use Rattle.std.specs.Option.{option_copied};
ghost use Rattle.smpland_state.specs.Given.{HasGivenPermit, IsPermitGiven, given_at, given_by, given_in_next_epoch};
ghost use Rattle.smpland_state.specs.Given.{name_among, none_given};

use std::alloc::{AllocError, Global};
use std::marker::Model;

/// A permit that was given, the name of its server, whose number may be another one after a reopening, and the name
/// under which it was given.
#[derive(Drop)]
pub struct GivenPermit {
    pub server: String,
    pub permit: u64,
    pub by: String,
}

/// The permit that a name stands for: one of those of an epoch.
#[derive(Clone, Copy, Debug, PartialEq, Eq)]
pub struct GivenAt {
    epoch: u32,
    index: usize,
}

/// The permits that were given in the present epoch and in the one before.
#[derive(Drop)]
pub struct GivenPermits {
    alloc: Global,
    epoch: u32,
    present: Vec<GivenPermit>,
    before: Vec<GivenPermit>,
}

impl Model for GivenPermits {
    ghost use Rattle.smpland_state.specs.Given.{GivenPermitsModel};

    ghost Value = { GivenPermitsModel };

    ghost view = { λ g. record { epoch = g.epoch; present = g.present.items; before = g.before.items } };
}

/// The name under which a permit was given, if it is among these.
fn name_among(given: &[GivenPermit], permit: u64) -> Option<&str>
    ensures { option_map (λ name. name.now) result ≡ name_among given.now permit }
{
    let given = given.iter().find(|given| given.permit == permit)?;
    Some(given.by.as_str())
}

/// A permit that is given to a server under a name.
fn given_permit(
    alloc: Global,
    server: &str,
    permit: u64,
    by: &str,
) -> Result<GivenPermit, AllocError>
    ensures { IfOk result (IsPermitGiven server.now permit by.now) }
{
    let server = String::from_str(alloc, server)?;
    let by = String::from_str(alloc, by)?;
    Ok(GivenPermit { server, permit, by })
}

impl GivenPermits {
    /// No permits, in an epoch.
    pub fn new(alloc: Global, epoch: u32) -> Self
        ensures { result ≡ none_given epoch }
    {
        GivenPermits {
            alloc,
            epoch,
            present: Vec::new(alloc),
            before: Vec::new(alloc),
        }
    }

    /// A permit that was given, if it has not been forgotten.
    pub fn get(&self, at: GivenAt) -> Option<&GivenPermit>
        ensures { option_copied result ≡ given_at self.now at }
    {
        if at.epoch == self.epoch {
            self.present.get(at.index)
        } else {
            self.before.get(at.index)
        }
    }

    /// The name under which a permit was given, if it has not been forgotten.
    pub fn by(&self, permit: u64) -> Option<&str>
        ensures { option_map (λ name. name.now) result ≡ given_by self.now permit }
    {
        let present = name_among(self.present.as_slice(), permit);
        present.or(name_among(self.before.as_slice(), permit))
    }

    /// Adds a permit that is given to a server under a name, and returns where it stands.
    pub fn push(&mut self, server: &str, permit: u64, by: &str) -> Result<GivenAt, AllocError>
        ensures { IfOk result (HasGivenPermit server.now permit by.now self.old self.new) }
    {
        let at = GivenAt {
            epoch: self.epoch,
            index: self.present.len(),
        };
        let given = given_permit(self.alloc, server, permit, by)?;
        self.present.push(given)?;
        Ok(at)
    }

    /// Turns to the next epoch: the permits of the epoch before the last one are forgotten.
    pub fn begin_epoch(&mut self, epoch: u32)
        ensures { self.new ≡ given_in_next_epoch epoch self.old }
    {
        self.epoch = epoch;
        let alloc = self.alloc;
        let present = std::mem::replace(&mut self.present, Vec::new(alloc));
        self.before = present;
    }
}
