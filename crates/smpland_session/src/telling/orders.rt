//! All present orders.
ghost use Rattle.std.specs.Prelude.{◌≡◌, ◌++◌, OnOk};
ghost use Rattle.smpland_session.specs.Questions.{all_orders, orders_reply, present_notices, present_orders};

use crate::session::Session;
use smpland_lines::Writer;
use smpland_state::{JournalState, write_no_list, write_notices};
use std::alloc::{AllocError, Global};

impl Session {
    /// Writes all present orders, and the servers that are to be told that they were carried over, as long as no
    /// reopening is under way.
    fn write_orders_in_force(&self, alloc: Global, writer: &mut Writer) -> Result<(), AllocError>
        ensures { OnOk result (writer.new.tokens ≡ writer.old.tokens ++ orders_reply self.now.opened) }
    {
        write_present_orders(&self.opened, alloc, writer)?;
        write_no_list(writer, "fence")?;
        write_no_list(writer, "settle")?;
        write_present_notices(&self.opened, alloc, writer)?;
        Ok(())
    }

    /// Writes all present orders, what a reopening waits for, and the servers that are to be told that they were
    /// carried over.
    pub(super) fn write_orders(&self, alloc: Global, writer: &mut Writer) -> Result<(), AllocError>
        ensures { OnOk result (writer.new.tokens ≡ writer.old.tokens ++ all_orders self.now.opened self.now.under_way) }
    {
        match &self.under_way {
            Some(current) => current.write_orders(alloc, writer),
            None => self.write_orders_in_force(alloc, writer),
        }
    }
}

/// Writes, as a member, the orders and publications of the journal that is open: none if none is.
fn write_present_orders(
    opened: &Option<JournalState>,
    alloc: Global,
    writer: &mut Writer,
) -> Result<(), AllocError>
    ensures { OnOk result (writer.new.tokens ≡ writer.old.tokens ++ present_orders opened.now) }
{
    match opened {
        Some(opened) => opened.messages(alloc).write_all(writer),
        None => write_no_list(writer, "orders"),
    }
}

/// Writes, as a member, the servers that are to be told that they were carried over: none if no journal is open.
fn write_present_notices(
    opened: &Option<JournalState>,
    alloc: Global,
    writer: &mut Writer,
) -> Result<(), AllocError>
    ensures { OnOk result (writer.new.tokens ≡ writer.old.tokens ++ present_notices opened.now) }
{
    match opened {
        Some(opened) => write_notices(opened, alloc, writer),
        None => write_no_list(writer, "notice"),
    }
}
