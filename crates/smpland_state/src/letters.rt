//! An order, or a publication, as it goes out.
ghost use Rattle.std.specs.Prelude.{◌≡◌, ◌++◌, OnOk};
ghost use Rattle.sm_placement.specs.Setup.{sizes_of};
ghost use Rattle.sm_placement.specs.Layout.{place_of};
ghost use Rattle.sm_driver.specs.Driver.{record_of};
ghost use Rattle.sm_driver.specs.Orders.{net_order, net_publication};
ghost use Rattle.smpland_state.specs.Calls.{asked_members, published_members, size_members};
ghost use Rattle.smpland_state.specs.Messages.{head_members, letter_by, letter_text, stream_message, notice_by};
ghost use Rattle.smpland_state.specs.Messages.{notice_text, outgoing_text};

use crate::bits::write_bits;
use crate::calls::{call_word, write_call};
use crate::holders::{write_holders, write_listed};
use crate::messages::Messages;
use sm_driver::{StreamMessage, StreamOrder, StreamPublication};
use sm_placement::{Config, Placement};
use sm_plan_code::ServerCall;
use sm_reservation::StreamId;
use sm_server::{ServerId, ShardId};
use smpland_lines::{Writer, server_name, shard_name, write_name, write_number, write_text};
use std::alloc::AllocError;

/// The load of each replica of a shard: 0 if there is no such shard.
fn load_of(config: &Config, shard: ShardId) -> u64
    ensures { result ≡ (sizes_of config.now).load shard }
{
    match config.shards().get(shard.number() as usize) {
        Some(shard) => shard.load,
        None => 0,
    }
}

/// The load that a server has room for: 0 if there is no such server.
fn room_of(config: &Config, server: ServerId) -> u64
    ensures { result ≡ (sizes_of config.now).room server }
{
    match config.servers().get(server.number() as usize) {
        Some(server) => server.room,
        None => 0,
    }
}

/// Writes what an order asks for: its server, its call and its shard.
fn write_asked(writer: &mut Writer, config: &Config, asked: &ServerCall) -> Result<(), AllocError>
    ensures { OnOk result (writer.new.tokens ≡ writer.old.tokens ++ asked_members config.now asked.now) }
{
    write_text(writer, "server", server_name(config, asked.server))?;
    write_text(writer, "call", call_word(&asked.call))?;
    write_text(writer, "shard", shard_name(config, asked.shard))?;
    write_call(writer, config, &asked.call)?;
    Ok(())
}

/// Writes the load of an order's shard, and the room of its server.
fn write_sizes(writer: &mut Writer, config: &Config, asked: &ServerCall) -> Result<(), AllocError>
    ensures { OnOk result (writer.new.tokens ≡ writer.old.tokens
        ++ size_members ((sizes_of config.now).load asked.now.shard) ((sizes_of config.now).room asked.now.server)) }
{
    write_number(writer, "load", load_of(config, asked.shard))?;
    write_number(writer, "room", room_of(config, asked.server))?;
    Ok(())
}

/// Writes what a publication asks of the map's owner.
fn write_published(
    writer: &mut Writer,
    config: &Config,
    publication: &StreamPublication,
) -> Result<(), AllocError>
    ensures { OnOk result (writer.new.tokens ≡ writer.old.tokens
        ++ published_members config.now publication.now.shard publication.now.entry) }
{
    write_name(writer, "server", None)?;
    write_text(writer, "call", "publish")?;
    write_text(writer, "shard", shard_name(config, publication.shard))?;
    write_listed(writer, config, "to", publication.entry.server)?;
    write_number(writer, "version", publication.entry.version)?;
    Ok(())
}

impl Messages<'_> {
    /// The servers and shards of the journal.
    fn config(&self) -> &Config
        ensures setup { result.now ≡ self.now.driver.now.machine.placement.setup }
        ensures sizes { sizes_of result.now ≡ (record_of self.now.driver.now).sizes }
    {
        self.driver.machine().config()
    }

    /// The placement that is recorded.
    fn placement(&self) -> &Placement
        ensures setup { result.now.setup ≡ self.now.driver.now.machine.placement.setup }
        ensures place { place_of result.now ≡ (record_of self.now.driver.now).place }
    {
        self.driver.machine().placement()
    }

    /// Writes of which stream a message is, and its number.
    fn write_head(
        &self,
        writer: &mut Writer,
        stream: StreamId,
        number: u64,
    ) -> Result<(), AllocError>
        ensures { OnOk result (writer.new.tokens ≡ writer.old.tokens
            ++ head_members self.now.driver.now.journal self.now.driver.now.epoch self.now.driver.now.fence stream
            number) }
    {
        let epoch = self.driver.epoch();
        let fence = self.driver.fence();
        write_bits(writer, self.alloc, "journal", self.driver.journal())?;
        write_number(writer, "epoch", u64::from(epoch))?;
        write_number(writer, "fence", fence)?;
        write_number(writer, "plan", u64::from(stream.plan))?;
        write_number(writer, "stream", u64::from(stream.stream))?;
        write_number(writer, "number", number)?;
        Ok(())
    }

    /// Writes an order.
    fn write_order(&self, writer: &mut Writer, order: &StreamOrder) -> Result<(), AllocError>
        ensures { OnOk result (writer.new.tokens ≡ writer.old.tokens
            ++ letter_text self.now.driver.now (letter_by self.now.driver.now (net_order order.now))) }
    {
        let config = self.config();
        writer.begin_object()?;
        self.write_head(writer, order.stream, order.number)?;
        write_asked(writer, config, &order.call)?;
        write_sizes(writer, config, &order.call)?;
        write_holders(writer, self.placement(), order.call.shard)?;
        writer.end_object()?;
        Ok(())
    }

    /// Writes a publication.
    fn write_publication(
        &self,
        writer: &mut Writer,
        publication: &StreamPublication,
    ) -> Result<(), AllocError>
        ensures { OnOk result (writer.new.tokens ≡ writer.old.tokens
            ++ notice_text self.now.driver.now (notice_by self.now.driver.now (net_publication publication.now))
            publication.now.number) }
    {
        writer.begin_object()?;
        self.write_head(writer, publication.stream, publication.number)?;
        write_published(writer, self.config(), publication)?;
        writer.end_object()?;
        Ok(())
    }

    /// Writes an order or a publication.
    fn write_message(&self, writer: &mut Writer, message: &StreamMessage) -> Result<(), AllocError>
        ensures { OnOk result (writer.new.tokens ≡ writer.old.tokens ++ outgoing_text self.now.driver.now message.now) }
    {
        match message {
            StreamMessage::Order(order) => self.write_order(writer, order),
            StreamMessage::Publication(publication) => self.write_publication(writer, publication),
        }
    }

    /// Writes the order or the publication that a stream stands before, if it stands before one.
    pub fn write_of(&self, writer: &mut Writer, stream: StreamId) -> Result<(), AllocError>
        ensures { OnOk result (writer.new.tokens ≡ writer.old.tokens ++ stream_message self.now.driver.now stream) }
    {
        match self.driver.message(stream) {
            Some(message) => self.write_message(writer, &message),
            None => Ok(()),
        }
    }
}
