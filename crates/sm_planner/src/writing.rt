//! The plan of moves that are placed in an order.
ghost use Rattle.std.specs.Prelude.{◌≡◌, ◌<◌, ◌≤◌, ◌==◌, ◌^◌, ◌++◌, All, IfOk, OnOk, IfErr, length, map, filter};
ghost use Rattle.std.specs.Prelude.{count_by};
ghost use Rattle.std.specs.List.{flat_map, range_with_len};
ghost use Rattle.sm_placement.specs.Layout.{place_of};
ghost use Rattle.sm_reservation.specs.InOrder.{in_order};
ghost use Rattle.sm_reservation.specs.Key.{IsOnce};
ghost use Rattle.sm_reservation.specs.Lists.{rights_of};
ghost use Rattle.sm_plan_code.specs.declared.limits.TheConstants.{MOST_MOVES};
ghost use Rattle.sm_plan_code.specs.Instr.{is_call};
ghost use Rattle.sm_plan_code.specs.Parts.{parts_of};
ghost use Rattle.sm_plan_code.specs.Plan.{IsPlan};
ghost use Rattle.sm_planner.specs.Basis.{basis_of, IsMoveOf, move_at};
ghost use Rattle.sm_planner.specs.Payment.{stream_of};
ghost use Rattle.sm_planner.specs.Stretches.{IsGiven};
ghost use Rattle.sm_planner.specs.Plan.{handing_over, copying, instructions, waits_of, posts_of, drafted_code};
ghost use Rattle.sm_planner.specs.Plan.{cells_needed, crowns_of, room_by, needs_by, holds_by};
ghost use Rattle.sm_planner.specs.Plan.{stream as stream_of_moves, handed_parcel, planned};
ghost use Rattle.sm_planner.specs.Draft.{IsDraft, ArePayments};

use crate::held::is_primary;
use crate::marks::Amounts;
use crate::payment::{HandedRoom, Placed};
use crate::refusal::NoPlan;
use sm_placement::{Lead, Placement};
use sm_plan_code::{
    Instr, MOST_MOVES, MOST_SIGNALS, MOST_STREAMS, Move, Parts, Plan, Stream, is_call,
};
use sm_reservation::{CellRight, Crown, Lists, Parcel, ParcelFault, PlainCell, Pool, Room};
use sm_server::{Role, ServerId};
use std::alloc::{AllocError, Global};

/// Moves in the order in which they are placed, the stretches of room that they take and free, and the room that they
/// hand on.
pub(crate) struct Draft {
    pub(crate) moves: Vec<Move>,
    pub(crate) placed: Vec<Placed>,
    pub(crate) signals: Vec<HandedRoom>,
}

/// Drops everything in one call, instead of one call for each list.
impl Drop for Draft {
    fn drop(self) {
        let Draft {
            moves,
            placed,
            signals,
        } = self;
        drop(moves);
        drop(placed);
        drop(signals);
    }
}

/// Adds the instructions that hand a primary over.
fn put_handover(
    placement: &Placement,
    wanted: &Move,
    code: &mut Vec<Instr>,
) -> Result<(), AllocError>
    requires { IsMoveOf placement.now.setup wanted.now }
    ensures { OnOk result (code.new.items ≡ code.old.items
        ++ handing_over ((place_of placement.now).listed wanted.now.shard) wanted.now) }
{
    let Move { shard, from, to } = *wanted;
    code.push(Instr::PrepareAdd {
        shard,
        server: to,
        owner: from,
    })?;
    code.push(Instr::PrepareDrop {
        shard,
        server: from,
        new_owner: to,
    })?;
    code.push(Instr::Add {
        shard,
        server: to,
        role: Role::Primary,
    })?;
    if placement.listed(shard).is_some() {
        code.push(Instr::Publish { shard })?;
    }
    Ok(code.push(Instr::Drop {
        shard,
        server: from,
    })?)
}

/// Adds the instructions that bring a secondary to another server.
fn put_copy(wanted: &Move, code: &mut Vec<Instr>) -> Result<(), AllocError>
    ensures { OnOk result (code.new.items ≡ code.old.items ++ copying wanted.now) }
{
    let Move { shard, from, to } = *wanted;
    code.push(Instr::Add {
        shard,
        server: to,
        role: Role::Secondary,
    })?;
    Ok(code.push(Instr::Drop {
        shard,
        server: from,
    })?)
}

/// Adds the instructions of a move.
fn put_instructions(
    placement: &Placement,
    wanted: &Move,
    code: &mut Vec<Instr>,
) -> Result<(), AllocError>
    requires { IsMoveOf placement.now.setup wanted.now }
    ensures { OnOk result (code.new.items ≡ code.old.items ++ instructions (place_of placement.now) wanted.now) }
{
    if is_primary(placement, wanted.shard, wanted.from) {
        put_handover(placement, wanted, code)
    } else {
        put_copy(wanted, code)
    }
}

/// Adds waits for the room that a placed move is handed.
fn put_waits(signals: &[HandedRoom], k: usize, code: &mut Vec<Instr>) -> Result<(), AllocError>
    requires { length signals.now ≤ MOST_SIGNALS }
    ensures { OnOk result (code.new.items ≡ code.old.items ++ waits_of signals.now k) }
{
    for (number, handed) in signals.iter().enumerate() {
        if handed.payer == k {
            let signal = number as u32;
            code.push(Instr::Wait { signal })?;
        }
    }
    Ok(())
}

/// Adds signals that hand on the room that a placed move freed.
fn put_posts(signals: &[HandedRoom], k: usize, code: &mut Vec<Instr>) -> Result<(), AllocError>
    requires { length signals.now ≤ MOST_SIGNALS }
    ensures { OnOk result (code.new.items ≡ code.old.items ++ posts_of signals.now k) }
{
    for (number, handed) in signals.iter().enumerate() {
        if handed.source == k {
            let signal = number as u32;
            code.push(Instr::Signal { signal })?;
        }
    }
    Ok(())
}

/// Writes the instructions of a placed move: it waits for the room that it is handed, moves, and hands on what it
/// freed.
fn put_code(
    placement: &Placement,
    draft: &Draft,
    k: usize,
    code: &mut Vec<Instr>,
) -> Result<(), AllocError>
    requires place { k < length draft.now.moves.items }
    requires known { All (IsMoveOf placement.now.setup) draft.now.moves.items }
    requires few { length draft.now.signals.items ≤ MOST_SIGNALS }
    ensures { OnOk result (code.new.items ≡ code.old.items
        ++ drafted_code (place_of placement.now) draft.now.moves.items draft.now.signals.items k) }
{
    put_waits(&draft.signals, k, code)?;
    put_instructions(placement, &draft.moves[k], code)?;
    put_posts(&draft.signals, k, code)
}

/// Adds the rights to cells that a move needs.
fn put_cells(
    placement: &Placement,
    wanted: &Move,
    cells: &mut Vec<CellRight>,
) -> Result<(), AllocError>
    requires { IsMoveOf placement.now.setup wanted.now }
    ensures { OnOk result (cells.new.items ≡ cells.old.items ++ cells_needed (place_of placement.now) wanted.now) }
{
    let Move { shard, from, to } = *wanted;
    cells.push(CellRight {
        shard,
        server: to,
        state: PlainCell::Absent,
    })?;
    if is_primary(placement, shard, from) {
        return Ok(());
    }
    Ok(cells.push(CellRight {
        shard,
        server: from,
        state: PlainCell::Secondary,
    })?)
}

/// Adds the crown that a move needs, if it needs one.
fn put_crowns(
    placement: &Placement,
    wanted: &Move,
    crowns: &mut Vec<Crown>,
) -> Result<(), AllocError>
    requires { IsMoveOf placement.now.setup wanted.now }
    ensures { OnOk result (crowns.new.items ≡ crowns.old.items ++ crowns_of (place_of placement.now) wanted.now) }
{
    let Move { shard, from, .. } = *wanted;
    if !is_primary(placement, shard, from) {
        return Ok(());
    }
    Ok(crowns.push(Crown {
        shard,
        lead: Lead::At(from),
        listed: placement.listed(shard),
    })?)
}

/// Returns the numbers of the placed moves of a stream.
fn moves_of(alloc: Global, count: usize, stream: usize) -> Result<Vec<usize>, AllocError>
    ensures { IfOk result (λ numbers. numbers.items ≡ filter (λ k. stream_of k == stream) (range_with_len 0 count)) }
{
    let mut numbers = Vec::new(alloc);
    for k in 0..count {
        if k % MOST_STREAMS == stream {
            numbers.push(k)?;
        }
    }
    Ok(numbers)
}

/// Returns the instructions of the placed moves of a stream, one after another.
fn code_of(
    alloc: Global,
    placement: &Placement,
    draft: &Draft,
    numbers: &[usize],
) -> Result<Vec<Instr>, AllocError>
    requires places { All (λ k. k < length draft.now.moves.items) numbers.now }
    requires known { All (IsMoveOf placement.now.setup) draft.now.moves.items }
    requires few { length draft.now.signals.items ≤ MOST_SIGNALS }
    ensures { IfOk result (λ code. code.items
        ≡ flat_map (drafted_code (place_of placement.now) draft.now.moves.items draft.now.signals.items)
        numbers.now) }
{
    let mut code = Vec::new(alloc);
    for k in numbers {
        put_code(placement, draft, *k, &mut code)?;
    }
    Ok(code)
}

/// Returns the rights to cells that the placed moves of a stream need.
fn cells_of(
    alloc: Global,
    placement: &Placement,
    draft: &Draft,
    numbers: &[usize],
) -> Result<Vec<CellRight>, AllocError>
    requires places { All (λ k. k < length draft.now.moves.items) numbers.now }
    requires known { All (IsMoveOf placement.now.setup) draft.now.moves.items }
    ensures { IfOk result (λ cells. cells.items
        ≡ flat_map (λ k. cells_needed (place_of placement.now) (move_at draft.now.moves.items k)) numbers.now) }
{
    let mut cells = Vec::new(alloc);
    for k in numbers {
        put_cells(placement, &draft.moves[*k], &mut cells)?;
    }
    Ok(cells)
}

/// Returns the crowns that they need.
fn crowns_of(
    alloc: Global,
    placement: &Placement,
    draft: &Draft,
    numbers: &[usize],
) -> Result<Vec<Crown>, AllocError>
    requires places { All (λ k. k < length draft.now.moves.items) numbers.now }
    requires known { All (IsMoveOf placement.now.setup) draft.now.moves.items }
    ensures { IfOk result (λ crowns. crowns.items
        ≡ flat_map (λ k. crowns_of (place_of placement.now) (move_at draft.now.moves.items k)) numbers.now) }
{
    let mut crowns = Vec::new(alloc);
    for k in numbers {
        put_crowns(placement, &draft.moves[*k], &mut crowns)?;
    }
    Ok(crowns)
}

/// Returns what the placed moves of a stream pay from the pool, by server.
fn payments(
    alloc: Global,
    placement: &Placement,
    pool: &Pool,
    draft: &Draft,
    numbers: &[usize],
) -> Result<Amounts, AllocError>
    requires places { All (λ k. k < length draft.now.moves.items) numbers.now }
    requires few { length numbers.now ≤ MOST_MOVES }
    requires drafted { IsDraft (basis_of placement.now pool.now) draft.now }
    ensures { IfOk result (λ paid. ArePayments
        (basis_of placement.now pool.now) draft.now.moves.items numbers.now paid) }
{
    let mut paid = Amounts::none(alloc, placement.config())?;
    for k in numbers {
        let placed = &draft.placed[*k];
        paid.put(placed.wanted.to, u128::from(placed.from_pool()));
    }
    Ok(paid)
}

/// Returns the room that the placed moves of a stream pay from the pool.
fn rooms_of(
    alloc: Global,
    placement: &Placement,
    pool: &Pool,
    draft: &Draft,
    numbers: &[usize],
) -> Result<Vec<Room>, AllocError>
    requires places { All (λ k. k < length draft.now.moves.items) numbers.now }
    requires few { length numbers.now ≤ MOST_MOVES }
    requires drafted { IsDraft (basis_of placement.now pool.now) draft.now }
    ensures { IfOk result (λ rooms. rooms.items
        ≡ map (room_by (basis_of placement.now pool.now) draft.now.moves.items numbers.now)
        (range_with_len 0 (length placement.now.setup.servers))) }
{
    let paid = payments(alloc, placement, pool, draft, numbers)?;
    let mut rooms = Vec::new(alloc);
    for number in 0..placement.config().server_count() {
        let server = ServerId::new(number);
        rooms.push(Room {
            server,
            amount: paid.at(server) as u64,
        })?;
    }
    Ok(rooms)
}

/// Makes a parcel of four lists in the order of their keys, without amounts of 0.
#[tactic(auto, using(crate::proofs::Keys::no_double))]
fn parcel(alloc: Global, lists: Lists) -> Result<Parcel, AllocError>
    requires { IsOnce (rights_of lists) }
    ensures { IfOk result (λ parcel. parcel ≡ in_order (rights_of lists)) }
{
    match Parcel::new(alloc, lists) {
        Ok(parcel) => Ok(parcel),
        Err((_, ParcelFault::NoMemory)) => Err(AllocError),
        Err((_, ParcelFault::Double { .. })) => unreachable!(),
    }
}

/// Returns the number of calls among instructions.
fn call_count(code: &[Instr]) -> u32
    requires { length code.now < 2 ^ 32 }
    ensures { result ≡ count_by is_call code.now }
{
    let mut count = 0u32;
    for instr in code {
        if is_call(instr) {
            count += 1;
        }
    }
    count
}

/// Returns what a stream of these placed moves declares: the rights that they need, and what they pay from the pool.
fn holds_of(
    alloc: Global,
    placement: &Placement,
    pool: &Pool,
    draft: &Draft,
    numbers: &[usize],
) -> Result<Parcel, AllocError>
    requires places { All (λ k. k < length draft.now.moves.items) numbers.now }
    requires few { length numbers.now ≤ MOST_MOVES }
    requires drafted { IsDraft (basis_of placement.now pool.now) draft.now }
    requires once { IsOnce (needs_by (basis_of placement.now pool.now) draft.now.moves.items numbers.now) }
    ensures { IfOk result (λ parcel. parcel ≡ holds_by
        (basis_of placement.now pool.now) draft.now.moves.items numbers.now) }
{
    let lists = Lists {
        cells: cells_of(alloc, placement, draft, numbers)?,
        crowns: crowns_of(alloc, placement, draft, numbers)?,
        room: rooms_of(alloc, placement, pool, draft, numbers)?,
        spare: Vec::new(alloc),
    };
    parcel(alloc, lists)
}

/// Returns a stream: the placed moves whose number is the stream's modulo 64, one after another.
fn stream(
    alloc: Global,
    placement: &Placement,
    pool: &Pool,
    draft: &Draft,
    number: usize,
) -> Result<Stream, AllocError>
    requires { IsDraft (basis_of placement.now pool.now) draft.now }
    ensures value { IfOk result (λ stream. stream
        ≡ stream_of_moves (basis_of placement.now pool.now) draft.now.moves.items number) }
    ensures small { IfOk result (λ stream. stream.budget ≤ 2 ^ 22) }
{
    let numbers = moves_of(alloc, draft.moves.len(), number)?;
    let code = code_of(alloc, placement, draft, &numbers)?;
    Ok(Stream {
        budget: call_count(&code),
        retries: 0,
        holds: holds_of(alloc, placement, pool, draft, &numbers)?,
        code,
    })
}

/// Returns the parcel of a signal: the room that is handed on, and nothing else.
fn carried(
    alloc: Global,
    placement: &Placement,
    pool: &Pool,
    draft: &Draft,
    handed: &HandedRoom,
) -> Result<Parcel, AllocError>
    requires drafted { IsDraft (basis_of placement.now pool.now) draft.now }
    requires given { IsGiven (basis_of placement.now pool.now) draft.now.moves.items handed.now }
    ensures { IfOk result (λ parcel. parcel ≡ handed_parcel
        (basis_of placement.now pool.now) draft.now.moves.items handed.now) }
{
    let payer = &draft.placed[handed.payer];
    let mut room = Vec::new(alloc);
    room.push(Room {
        server: payer.wanted.to,
        amount: payer.from_move(&draft.placed[handed.source]),
    })?;
    let lists = Lists {
        cells: Vec::new(alloc),
        crowns: Vec::new(alloc),
        room,
        spare: Vec::new(alloc),
    };
    parcel(alloc, lists)
}

/// Returns what the signals carry.
fn signals_of(
    alloc: Global,
    placement: &Placement,
    pool: &Pool,
    draft: &Draft,
) -> Result<Vec<Parcel>, AllocError>
    requires { IsDraft (basis_of placement.now pool.now) draft.now }
    ensures { IfOk result (λ parcels. parcels.items
        ≡ map (handed_parcel (basis_of placement.now pool.now) draft.now.moves.items) draft.now.signals.items) }
{
    let mut parcels = Vec::with_capacity(alloc, draft.signals.len())?;
    for handed in draft.signals.iter() {
        parcels.push(carried(alloc, placement, pool, draft, handed)?)?;
    }
    Ok(parcels)
}

/// Returns the parts of the plan of placed moves.
fn parts(
    alloc: Global,
    placement: &Placement,
    pool: &Pool,
    draft: &Draft,
) -> Result<Parts, AllocError>
    requires { IsDraft (basis_of placement.now pool.now) draft.now }
    ensures { IfOk result (λ parts. parts_of parts ≡ planned (basis_of placement.now pool.now) draft.now.moves.items) }
{
    let count = draft.moves.len().min(MOST_STREAMS);
    let mut streams = Vec::with_capacity(alloc, count)?;
    let mut budget = 0u32;
    for number in 0..count {
        let stream = stream(alloc, placement, pool, draft, number)?;
        budget += stream.budget;
        streams.push(stream)?;
    }
    Ok(Parts {
        budget,
        streams,
        signals: signals_of(alloc, placement, pool, draft)?,
    })
}

/// Returns the plan of placed moves, which is within the limits of plans.
#[tactic(auto, using(crate::proofs::Keys::no_fault))]
pub(crate) fn write(
    alloc: Global,
    placement: &Placement,
    pool: &Pool,
    draft: &Draft,
) -> Result<Plan, NoPlan>
    requires drafted { IsDraft (basis_of placement.now pool.now) draft.now }
    requires limits { IsPlan (planned (basis_of placement.now pool.now) draft.now.moves.items) }
    ensures plan { IfOk result (λ plan. plan ≡ planned (basis_of placement.now pool.now) draft.now.moves.items) }
    ensures memory { IfErr result (λ why. why ≡ NoPlan.NoMemory) }
{
    match Plan::new(parts(alloc, placement, pool, draft)?) {
        Ok(plan) => Ok(plan),
        Err(_) => unreachable!(),
    }
}
