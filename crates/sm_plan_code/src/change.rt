//! The exchange that an instruction makes: its line of the table of rights, as a change of what is held.
ghost use Rattle.std.specs.Prelude.{◌≡◌, ◌<◌, ℕ, None, Some, IfOk, IfErr, IfSome, Ok, Err, length};
ghost use Rattle.sm_placement.specs.Setup.{Sizes, sizes_of};
ghost use Rattle.sm_reservation.specs.Rights.{Rights};
ghost use Rattle.sm_reservation.specs.Hold.{minus, plus};
ghost use Rattle.sm_reservation.specs.HoldOf.{hold_of};
ghost use Rattle.sm_reservation.specs.CanJoin.{AreApart};
ghost use Rattle.sm_reservation.specs.Change.{portion_rights};
ghost use Rattle.sm_reservation.specs.Short.{first_short};
ghost use Rattle.sm_plan_code.specs.Instr.{shard_of, IsOwn};
ghost use Rattle.sm_plan_code.specs.After.{after, comes_to, first_why, unless_refused, line_of, to_list, lead_held};
ghost use Rattle.sm_plan_code.specs.After.{listed_of, prepare_add_line, prepare_drop_line, add_secondary_line};
ghost use Rattle.sm_plan_code.specs.After.{add_primary_line, drop_held_line, drop_led_line, to_primary_line};
ghost use Rattle.sm_plan_code.specs.After.{to_secondary_line, publish_line, unlist_line};
ghost use Rattle.sm_reservation.specs.declared.right.PlainCell.TheVariants as plain;
ghost use Rattle.sm_plan_code.specs.Table.{portion, cell, crown, room, held_crown, exchanged, exchange_of, no_exchange};
ghost use Rattle.sm_plan_code.specs.Table.{IsSmallPortion, prepare_add_exchange, prepare_drop_exchange};
ghost use Rattle.sm_plan_code.specs.Table.{add_secondary_exchange, add_primary_exchange, drop_held_exchange};
ghost use Rattle.sm_plan_code.specs.Table.{drop_led_exchange, to_primary_exchange, to_secondary_exchange};
ghost use Rattle.sm_plan_code.specs.Table.{publish_exchange, unlist_exchange};

use crate::{Instr, Why};
use sm_placement::{Config, Lead};
use sm_reservation::{CellRight, Change, Crown, Hold, PlainCell, Portion, Room, Spare};
use sm_server::{Role, ServerId, ShardId};

/// Makes a portion of rights of the four kinds, at most one of each.
fn portion(
    cell: Option<CellRight>,
    crown: Option<Crown>,
    room: Option<Room>,
    spare: Option<Spare>,
) -> Portion
    ensures { result ≡ portion cell crown room spare }
{
    Portion {
        cell,
        crown,
        room,
        spare,
    }
}

/// Returns the right to a cell.
fn cell(shard: ShardId, server: ServerId, state: PlainCell) -> Option<CellRight>
    ensures { result ≡ cell shard server state }
{
    Some(CellRight {
        shard,
        server,
        state,
    })
}

/// Returns the crown of a shard if it is held.
fn crown_of(hold: &Hold, shard: ShardId) -> Option<Crown>
    ensures { result ≡ held_crown shard ((hold_of hold.now.rights).crowns shard) }
{
    hold.crown(shard).map(|(lead, listed)| Crown {
        shard,
        lead,
        listed,
    })
}

/// Returns a crown with another lead and the same listed server.
const fn led(held: &Crown, lead: Lead) -> Option<Crown>
    ensures { result ≡ crown held.now.shard lead held.now.listed }
{
    Some(Crown {
        shard: held.shard,
        lead,
        listed: held.listed,
    })
}

/// Returns a crown with the same lead and another listed server.
const fn listing(held: &Crown, listed: Option<ServerId>) -> Option<Crown>
    ensures { result ≡ crown held.now.shard held.now.lead listed }
{
    Some(Crown {
        shard: held.shard,
        lead: held.lead,
        listed,
    })
}

/// Returns the rights that a replica needs before it comes to a server: the right to its absent cell there, and room
/// for its load.
fn absent_with_room(
    config: &Config,
    hold: &Hold,
    shard: ShardId,
    server: ServerId,
) -> Result<(Option<CellRight>, Option<Room>), Why>
    requires { shard < length config.now.shards }
    ensures { result ≡ unless_refused (first_why
        (comes_to (sizes_of config.now) shard server (hold_of hold.now.rights)))
        (cell shard server plain.Absent, room server ((sizes_of config.now).load shard)) }
{
    match hold.cell(shard, server) {
        None => return Err(Why::NoRight),
        Some(PlainCell::Secondary) => return Err(Why::WrongState),
        Some(PlainCell::Absent) => {}
    }
    let amount = config.load(shard);
    if hold.room(server) < amount {
        return Err(Why::NoRoom);
    }
    let absent = cell(shard, server, PlainCell::Absent);
    Ok((absent, Some(Room { server, amount })))
}

/// Prepares `server` for a primary that `owner` hands over.
fn prepare_add(
    config: &Config,
    hold: &Hold,
    shard: ShardId,
    server: ServerId,
    owner: ServerId,
) -> Result<Change, Why>
    requires { shard < length config.now.shards }
    ensures { result ≡ exchanged (prepare_add_line (sizes_of config.now) shard server owner
        (hold_of hold.now.rights)) (prepare_add_exchange (sizes_of config.now) shard server owner
        (listed_of ((hold_of hold.now.rights).crowns shard))) }
{
    let crown = crown_of(hold, shard).ok_or(Why::NoCrown)?;
    if crown.lead != Lead::At(owner) {
        return Err(Why::WrongLead);
    }
    let (absent, room) = absent_with_room(config, hold, shard, server)?;
    let ready = Lead::Ready(owner, server);
    Ok(Change {
        out: portion(absent, Some(crown), room, None),
        got: portion(None, led(&crown, ready), None, None),
    })
}

/// Makes the owner `server` forward to the prepared server `new_owner`.
fn prepare_drop(
    hold: &Hold,
    shard: ShardId,
    server: ServerId,
    new_owner: ServerId,
) -> Result<Change, Why>
    ensures { result ≡ exchanged (prepare_drop_line shard server new_owner (hold_of hold.now.rights))
        (prepare_drop_exchange shard server new_owner (listed_of ((hold_of hold.now.rights).crowns shard))) }
{
    let crown = crown_of(hold, shard).ok_or(Why::NoCrown)?;
    if crown.lead != Lead::Ready(server, new_owner) {
        return Err(Why::WrongLead);
    }
    let handing = Lead::Handing(server, new_owner);
    Ok(Change {
        out: portion(None, Some(crown), None, None),
        got: portion(None, led(&crown, handing), None, None),
    })
}

/// Adds a secondary.
fn add_secondary(
    config: &Config,
    hold: &Hold,
    shard: ShardId,
    server: ServerId,
) -> Result<Change, Why>
    requires { shard < length config.now.shards }
    ensures { result ≡ exchanged (add_secondary_line (sizes_of config.now) shard server (hold_of hold.now.rights))
        (add_secondary_exchange (sizes_of config.now) shard server) }
{
    let (absent, room) = absent_with_room(config, hold, shard, server)?;
    let secondary = cell(shard, server, PlainCell::Secondary);
    let spare = Some(Spare { shard, amount: 1 });
    Ok(Change {
        out: portion(absent, None, room, None),
        got: portion(secondary, None, None, spare),
    })
}

/// Adds the first primary of a shard that has none.
fn add_first(
    config: &Config,
    hold: &Hold,
    shard: ShardId,
    server: ServerId,
    crown: &Crown,
) -> Result<Change, Why>
    requires shard { shard < length config.now.shards }
    requires crown { (crown.now.shard ≡ shard) × (crown.now.lead ≡ Lead.Gone) }
    ensures { result ≡ exchanged (add_primary_line (sizes_of config.now) shard server (hold_of hold.now.rights)
        (Some Lead.Gone)) (add_primary_exchange (sizes_of config.now) shard server crown.now.listed
        (Some Lead.Gone)) }
{
    let (absent, room) = absent_with_room(config, hold, shard, server)?;
    let at = led(crown, Lead::At(server));
    let spare = Some(Spare { shard, amount: 1 });
    Ok(Change {
        out: portion(absent, Some(*crown), room, None),
        got: portion(None, at, None, spare),
    })
}

/// Adds a primary: at the prepared server, or at any server if the shard has no primary.
fn add_primary(
    config: &Config,
    hold: &Hold,
    shard: ShardId,
    server: ServerId,
) -> Result<Change, Why>
    requires { shard < length config.now.shards }
    ensures { result ≡ exchanged (add_primary_line (sizes_of config.now) shard server (hold_of hold.now.rights)
        (lead_held ((hold_of hold.now.rights).crowns shard)))
        (add_primary_exchange (sizes_of config.now) shard server
        (listed_of ((hold_of hold.now.rights).crowns shard))
        (lead_held ((hold_of hold.now.rights).crowns shard))) }
{
    let crown = crown_of(hold, shard).ok_or(Why::NoCrown)?;
    let lead = crown.lead;
    match lead {
        Lead::Gone => add_first(config, hold, shard, server, &crown),
        Lead::Handing(owner, new_owner) => {
            if new_owner != server {
                return Err(Why::WrongLead);
            }
            let handed = Lead::Handed(owner, server);
            Ok(Change {
                out: portion(None, Some(crown), None, None),
                got: portion(None, led(&crown, handed), None, None),
            })
        }
        Lead::At(_) | Lead::Ready(_, _) | Lead::Handed(_, _) => Err(Why::WrongLead),
    }
}

/// Drops a secondary, to the cell of which there is the right.
fn drop_held(
    config: &Config,
    hold: &Hold,
    shard: ShardId,
    server: ServerId,
    state: PlainCell,
) -> Result<Change, Why>
    requires shard { shard < length config.now.shards }
    requires held { (hold_of hold.now.rights).cells shard server ≡ Some state }
    ensures { result ≡ exchanged (drop_held_line (sizes_of config.now) shard server (hold_of hold.now.rights))
        (drop_held_exchange (sizes_of config.now) shard server) }
{
    if state != PlainCell::Secondary {
        return Err(Why::WrongState);
    }
    if hold.spare(shard) == 0 {
        return Err(Why::NoSpare);
    }
    let secondary = cell(shard, server, PlainCell::Secondary);
    let spare = Some(Spare { shard, amount: 1 });
    let absent = cell(shard, server, PlainCell::Absent);
    let amount = config.load(shard);
    let room = Some(Room { server, amount });
    Ok(Change {
        out: portion(secondary, None, None, spare),
        got: portion(absent, None, room, None),
    })
}

/// Returns what is exchanged for a server's part in the lead of a crown: its room comes back, and the crown has another
/// lead.
fn part_dropped(
    config: &Config,
    server: ServerId,
    held: &Crown,
    next: Lead,
    spare: Option<Spare>,
) -> Change
    requires { held.now.shard < length config.now.shards }
    ensures { result ≡ record {
      out = portion None (Some held.now) None spare;
      got = portion
          (cell held.now.shard server PlainCell.Absent) (crown held.now.shard next held.now.listed)
          (room server ((sizes_of config.now).load held.now.shard)) None;
    } }
{
    let absent = cell(held.shard, server, PlainCell::Absent);
    let amount = config.load(held.shard);
    let room = Some(Room { server, amount });
    Change {
        out: portion(None, Some(*held), None, spare),
        got: portion(absent, led(held, next), room, None),
    }
}

/// Drops what a server has by its part in the lead.
fn drop_led(config: &Config, hold: &Hold, shard: ShardId, server: ServerId) -> Result<Change, Why>
    requires { shard < length config.now.shards }
    ensures { result ≡ exchanged (drop_led_line (sizes_of config.now) shard server (hold_of hold.now.rights)
        (lead_held ((hold_of hold.now.rights).crowns shard)))
        (drop_led_exchange (sizes_of config.now) shard server
        (listed_of ((hold_of hold.now.rights).crowns shard))
        (lead_held ((hold_of hold.now.rights).crowns shard))) }
{
    let crown = crown_of(hold, shard).ok_or(Why::NoRight)?;
    let lead = crown.lead;
    let (next, spare) = match lead {
        Lead::Handed(owner, new_owner) => {
            if owner != server {
                return Err(Why::WrongLead);
            }
            if crown.listed == Some(server) {
                return Err(Why::StillListed);
            }
            (Lead::At(new_owner), None)
        }
        Lead::Ready(owner, new_owner) => {
            if new_owner != server {
                return Err(Why::WrongLead);
            }
            (Lead::At(owner), None)
        }
        Lead::At(owner) => {
            if owner != server {
                return Err(Why::WrongLead);
            }
            if crown.listed.is_some() {
                return Err(Why::StillListed);
            }
            if hold.spare(shard) == 0 {
                return Err(Why::NoSpare);
            }
            (Lead::Gone, Some(Spare { shard, amount: 1 }))
        }
        Lead::Gone | Lead::Handing(_, _) => return Err(Why::WrongLead),
    };
    Ok(part_dropped(config, server, &crown, next, spare))
}

/// Makes a secondary the primary of a shard that has none.
fn to_primary(hold: &Hold, shard: ShardId, server: ServerId) -> Result<Change, Why>
    ensures { result ≡ exchanged (to_primary_line shard server (hold_of hold.now.rights))
        (to_primary_exchange shard server (listed_of ((hold_of hold.now.rights).crowns shard))) }
{
    let crown = crown_of(hold, shard).ok_or(Why::NoCrown)?;
    if crown.lead != Lead::Gone {
        return Err(Why::WrongLead);
    }
    match hold.cell(shard, server) {
        None => return Err(Why::NoRight),
        Some(PlainCell::Absent) => return Err(Why::WrongState),
        Some(PlainCell::Secondary) => {}
    }
    let secondary = cell(shard, server, PlainCell::Secondary);
    let at = led(&crown, Lead::At(server));
    Ok(Change {
        out: portion(secondary, Some(crown), None, None),
        got: portion(None, at, None, None),
    })
}

/// Makes the primary a secondary.
fn to_secondary(hold: &Hold, shard: ShardId, server: ServerId) -> Result<Change, Why>
    ensures { result ≡ exchanged (to_secondary_line shard server (hold_of hold.now.rights))
        (to_secondary_exchange shard server) }
{
    let crown = crown_of(hold, shard).ok_or(Why::NoCrown)?;
    if crown.lead != Lead::At(server) {
        return Err(Why::WrongLead);
    }
    if crown.listed.is_some() {
        return Err(Why::StillListed);
    }
    if hold.cell(shard, server).is_some() {
        return Err(Why::Twice);
    }
    let secondary = cell(shard, server, PlainCell::Secondary);
    let gone = led(&crown, Lead::Gone);
    Ok(Change {
        out: portion(None, Some(crown), None, None),
        got: portion(secondary, gone, None, None),
    })
}

/// Returns the server that a publication lists under a lead.
pub fn listed_under(lead: Lead) -> Option<ServerId>
    ensures { result ≡ to_list lead }
{
    match lead {
        Lead::Gone => None,
        Lead::At(server) | Lead::Ready(server, _) | Lead::Handing(server, _) => Some(server),
        Lead::Handed(_, server) => Some(server),
    }
}

/// Writes the server that serves requests into the published map.
fn publish(hold: &Hold, shard: ShardId) -> Result<Change, Why>
    ensures { result ≡ exchanged (publish_line shard (hold_of hold.now.rights)
        (lead_held ((hold_of hold.now.rights).crowns shard)))
        (publish_exchange shard (listed_of ((hold_of hold.now.rights).crowns shard))
        (lead_held ((hold_of hold.now.rights).crowns shard))) }
{
    let crown = crown_of(hold, shard).ok_or(Why::NoCrown)?;
    let listed = listed_under(crown.lead);
    Ok(Change {
        out: portion(None, Some(crown), None, None),
        got: portion(None, listing(&crown, listed), None, None),
    })
}

/// Takes the shard's server out of the published map.
fn unlist(hold: &Hold, shard: ShardId) -> Result<Change, Why>
    ensures { result ≡ exchanged (unlist_line shard (hold_of hold.now.rights)
        (lead_held ((hold_of hold.now.rights).crowns shard)))
        (unlist_exchange shard (listed_of ((hold_of hold.now.rights).crowns shard))
        (lead_held ((hold_of hold.now.rights).crowns shard))) }
{
    let crown = crown_of(hold, shard).ok_or(Why::NoCrown)?;
    Ok(Change {
        out: portion(None, Some(crown), None, None),
        got: portion(None, listing(&crown, None), None, None),
    })
}

/// Drops whatever a server has.
fn drop(config: &Config, hold: &Hold, shard: ShardId, server: ServerId) -> Result<Change, Why>
    requires { shard < length config.now.shards }
    ensures { (signals : ℕ → Rights) → result
        ≡ exchanged (line_of (sizes_of config.now) signals (Instr.Drop shard server) (hold_of hold.now.rights))
        (exchange_of (sizes_of config.now) (Instr.Drop shard server) (hold_of hold.now.rights)) }
{
    match hold.cell(shard, server) {
        Some(state) => drop_held(config, hold, shard, server, state),
        None => drop_led(config, hold, shard, server),
    }
}

/// Adds a replica in a role.
fn add(
    config: &Config,
    hold: &Hold,
    shard: ShardId,
    server: ServerId,
    role: Role,
) -> Result<Change, Why>
    requires { shard < length config.now.shards }
    ensures { (signals : ℕ → Rights) → result
        ≡ exchanged (line_of (sizes_of config.now) signals (Instr.Add shard server role) (hold_of hold.now.rights))
        (exchange_of (sizes_of config.now) (Instr.Add shard server role) (hold_of hold.now.rights)) }
{
    match role {
        Role::Primary => add_primary(config, hold, shard, server),
        Role::Secondary => add_secondary(config, hold, shard, server),
    }
}

/// Changes a replica to a role.
fn change(hold: &Hold, shard: ShardId, server: ServerId, to: Role) -> Result<Change, Why>
    ensures { (c : Sizes) (signals : ℕ → Rights)
        → result ≡ exchanged (line_of c signals (Instr.Change shard server to) (hold_of hold.now.rights))
        (exchange_of c (Instr.Change shard server to) (hold_of hold.now.rights)) }
{
    match to {
        Role::Primary => to_primary(hold, shard, server),
        Role::Secondary => to_secondary(hold, shard, server),
    }
}

/// Returns the line of an instruction. A signal or a wait exchanges nothing beside its parcel.
fn exchange(config: &Config, instr: &Instr, hold: &Hold) -> Result<Change, Why>
    requires { IfSome (shard_of instr.now) (λ s. s < length config.now.shards) }
    ensures own { (signals : ℕ → Rights) → IsOwn instr.now
        → result ≡ exchanged (line_of (sizes_of config.now) signals instr.now (hold_of hold.now.rights))
        (exchange_of (sizes_of config.now) instr.now (hold_of hold.now.rights)) }
    ensures other { ¬ IsOwn instr.now → result ≡ Ok no_exchange }
{
    match *instr {
        Instr::PrepareAdd {
            shard,
            server,
            owner,
        } => prepare_add(config, hold, shard, server, owner),
        Instr::PrepareDrop {
            shard,
            server,
            new_owner,
        } => prepare_drop(hold, shard, server, new_owner),
        Instr::Add {
            shard,
            server,
            role,
        } => add(config, hold, shard, server, role),
        Instr::Drop { shard, server } => drop(config, hold, shard, server),
        Instr::Change { shard, server, to } => change(hold, shard, server, to),
        Instr::Publish { shard } => publish(hold, shard),
        Instr::Unlist { shard } => unlist(hold, shard),
        Instr::Signal { .. } | Instr::Wait { .. } => Ok(Change {
            out: portion(None, None, None, None),
            got: portion(None, None, None, None),
        }),
    }
}

/// Returns what an instruction takes out of a hold and puts in, or why it may not be made: its line of the table of
/// rights.
///
/// A signal or a wait exchanges nothing beside its parcel.
pub fn change_of(config: &Config, instr: &Instr, hold: &Hold) -> Result<Change, Why>
    requires { IfSome (shard_of instr.now) (λ s. s < length config.now.shards) }
    ensures change { IfOk result (λ change. change
        ≡ exchange_of (sizes_of config.now) instr.now (hold_of hold.now.rights)) }
    ensures held { IfOk result (λ change. first_short (hold_of hold.now.rights) (portion_rights change.out) ≡ None) }
    ensures apart { IfOk result (λ change. AreApart (minus (hold_of hold.now.rights) (portion_rights change.out))
        (hold_of (portion_rights change.got))) }
    ensures left { IfOk result (λ change. IsOwn instr.now → (signals : ℕ → Rights)
        → after (sizes_of config.now) signals instr.now (hold_of hold.now.rights)
        ≡ Ok (plus (minus (hold_of hold.now.rights) (portion_rights change.out)) (portion_rights change.got))) }
    ensures small { IfOk result (λ change. IsSmallPortion change.got) }
    ensures refused { IfErr result (λ why. (signals : ℕ → Rights)
        → after (sizes_of config.now) signals instr.now (hold_of hold.now.rights) ≡ Err why) }
{
    let _servers = config.server_count();
    exchange(config, instr, hold)
}
