//! The servers that streams' codes mention, made once.
ghost use Rattle.std.specs.Prelude.{◌≡◌, IfOk, OnOk};
ghost use Rattle.sm_machine.specs.Servers.{is_in, AreMentioned, AreMentionedBy, HasGrownBy, HasGrownByCode};

use sm_plan_code::{Instr, Stream, names};
use sm_server::ServerId;
use std::alloc::{AllocError, Global};
use std::marker::Model;

/// The servers that a code mentions, with flags up to the last of them. So a look at one takes a time that does not
/// grow with the code.
#[derive(Drop)]
pub(crate) struct MentionedServers {
    flags: Vec<bool>,
}

impl Model for MentionedServers {
    ghost use Rattle.std.specs.Prelude.{List, Bool};

    ghost Value = { List Bool };

    ghost view = { λ s. s.flags.items };
}

/// Adds a server, if one is given.
fn add_server(flags: &mut Vec<bool>, server: Option<ServerId>) -> Result<(), AllocError>
    ensures { OnOk result (HasGrownBy server flags.old.items flags.new.items) }
{
    let Some(server) = server else {
        return Ok(());
    };
    let number = server.number() as usize;
    if number >= flags.len() {
        flags.resize(number + 1, false)?;
    }
    flags[number] = true;
    Ok(())
}

/// Adds the servers that a code mentions.
fn add_code(flags: &mut Vec<bool>, code: &[Instr]) -> Result<(), AllocError>
    ensures { OnOk result (HasGrownByCode code.now flags.old.items flags.new.items) }
{
    for instr in code {
        let named = names(instr);
        add_server(flags, named.first)?;
        add_server(flags, named.second)?;
    }
    Ok(())
}

impl MentionedServers {
    /// Finds the servers that a code mentions.
    pub fn of(alloc: Global, code: &[Instr]) -> Result<MentionedServers, AllocError>
        ensures { IfOk result (AreMentioned code.now) }
    {
        let mut flags = Vec::new(alloc);
        add_code(&mut flags, code)?;
        Ok(MentionedServers { flags })
    }

    /// Finds, for each of the streams, the servers that it mentions.
    pub fn of_each(alloc: Global, streams: &[Stream]) -> Result<Vec<MentionedServers>, AllocError>
        ensures { IfOk result (λ sets. AreMentionedBy streams.now sets.items) }
    {
        let mut sets = Vec::new(alloc);
        for stream in streams {
            sets.push(MentionedServers::of(alloc, &stream.code)?)?;
        }
        Ok(sets)
    }

    /// Tells whether the code mentions the server.
    pub fn has(&self, server: ServerId) -> bool
        ensures { result ≡ is_in self.now server }
    {
        self.flags
            .get(server.number() as usize)
            .copied()
            .unwrap_or(false)
    }
}
