//! The parts of a machine that is made, as a description would have them.
ghost use Rattle.std.specs.Prelude.{◌≡◌, ◌+◌, ◌<◌, ◌≤◌, ◌∷◌, [], Some, IfOk};
ghost use Rattle.machine_maker.specs.Maker as maker;

use acpi_regs::{Event, Memory};
use field_units::{RegionKind, UpdateRule};
use handler_script::Op;
use machine_desc::{
    ControllerPart, EventPart, FieldPart, Items, MachineParts, QueryPart, RegionPart,
};
use std::alloc::Global;

/// One region, of 16 cells of memory that begin with 0.
fn regions(alloc: Global) -> Result<Items<RegionPart>, Memory>
    ensures { IfOk result (λ regions. regions ≡ maker.memory ∷ []) }
{
    let mut regions = Vec::new(alloc);
    regions.push(RegionPart {
        kind: RegionKind::Memory,
        len: 16,
        bytes: Items::new(Vec::new(alloc)),
    })?;
    Ok(Items::new(regions))
}

/// A field on each of the 16 cells.
#[tactic(auto, using(crate::proofs::Rows::rows))]
fn fields(alloc: Global) -> Result<Items<FieldPart>, Memory>
    ensures { IfOk result (λ fields. fields ≡ maker.each_of 16 maker.byte_field) }
{
    let mut fields = Vec::with_capacity(alloc, 16)?;
    for k in 0..16 {
        fields.push(FieldPart {
            region: 0,
            bit: 8 * k,
            width: 8,
            lock: true,
            update: UpdateRule::Preserve,
        })?;
    }
    Ok(Items::new(fields))
}

/// The first eight events, with handlers that do nothing.
#[tactic(auto, using(crate::proofs::Rows::rows))]
fn events(alloc: Global) -> Result<Items<EventPart>, Memory>
    ensures { IfOk result (λ events. events ≡ maker.each_of 8 maker.quiet_event) }
{
    let mut events = Vec::with_capacity(alloc, 8)?;
    for n in 0..8 {
        events.push(EventPart {
            event: Event::Gpe(n),
            level: false,
            refs: 1,
            script: Items::new(Vec::new(alloc)),
        })?;
    }
    Ok(Items::new(events))
}

/// The handler of a code, which adds 1 to the field of its number and notifies the device object of its number.
fn code_handler(alloc: Global, code: u8) -> Result<QueryPart, Memory>
    ensures { IfOk result (λ handler. handler ≡ maker.code_handler code) }
{
    let mut ops = Vec::with_capacity(alloc, 2)?;
    ops.push(Op::Add(u16::from(code), 1))?;
    ops.push(Op::Notify(code, 128))?;
    Ok(QueryPart {
        code,
        script: Items::new(ops),
    })
}

/// The controller, on GPE 6E, which needs the Global Lock, with handlers for the codes 1 to 8.
#[tactic(auto, using(crate::proofs::Rows::rows))]
fn controller(alloc: Global) -> Result<ControllerPart, Memory>
    ensures { IfOk result (λ controller. controller ≡ maker.controller) }
{
    let mut queries = Vec::with_capacity(alloc, 8)?;
    for k in 0..8 {
        queries.push(code_handler(alloc, k + 1)?)?;
    }
    Ok(ControllerPart {
        event: Event::Gpe(0x6E),
        silent: false,
        fickle: false,
        glk: true,
        queries: Items::new(queries),
    })
}

/// What a draw means.
fn drawn(draw: u8) -> Op
    ensures { result ≡ maker.drawn draw }
{
    if draw < 128 {
        Op::Add(u16::from(draw % 16), 1)
    } else {
        Op::Push(1 + draw % 8)
    }
}

/// Operation `i` of the firmware, its scripts counted through one after the other.
#[tactic(auto, unfolding(crate::specs::Maker::op_at))]
fn op_at(number: u32, i: u16) -> Op
    ensures { result ≡ maker.op_at number i }
{
    let draw = (u64::from(number) + 37 * u64::from(i)) % 256;
    drawn(draw as u8)
}

/// Script `k` of the firmware.
#[tactic(auto, using(crate::proofs::Rows::rows), unfolding(crate::specs::Maker::script_of))]
fn script(alloc: Global, number: u32, size: u8, k: u16) -> Result<Items<Op>, Memory>
    requires size { size ≤ 64 }
    requires place { k < 4 }
    ensures { IfOk result (λ ops. ops ≡ maker.script_of number size k) }
{
    let len = 16 * u16::from(size);
    let mut ops = Vec::with_capacity(alloc, usize::from(len))?;
    for j in 0..len {
        ops.push(op_at(number, len * k + j))?;
    }
    Ok(Items::new(ops))
}

/// The four scripts of the firmware.
#[tactic(auto, using(crate::proofs::Rows::rows))]
fn firmware(alloc: Global, number: u32, size: u8) -> Result<Items<Items<Op>>, Memory>
    requires { size ≤ 64 }
    ensures { IfOk result (λ scripts. scripts ≡ maker.each_of 4 (maker.script_of number size)) }
{
    let mut scripts = Vec::with_capacity(alloc, 4)?;
    for k in 0..4 {
        scripts.push(script(alloc, number, size, k)?)?;
    }
    Ok(Items::new(scripts))
}

/// The pulses of device `k`.
#[tactic(auto, using(crate::proofs::Rows::rows), unfolding(crate::specs::Maker::pulses_of))]
fn pulses(alloc: Global, size: u8, k: u16) -> Result<Items<Event>, Memory>
    requires size { size ≤ 64 }
    requires place { k < 2 }
    ensures { IfOk result (λ pulses. pulses ≡ maker.pulses_of size k) }
{
    let len = 4 * u16::from(size);
    let mut pulses = Vec::with_capacity(alloc, usize::from(len))?;
    for j in 0..len {
        pulses.push(Event::Gpe(((len * k + j) % 8) as u8))?;
    }
    Ok(Items::new(pulses))
}

/// The lists of the two devices.
#[tactic(auto, using(crate::proofs::Rows::rows))]
fn devices(alloc: Global, size: u8) -> Result<Items<Items<Event>>, Memory>
    requires { size ≤ 64 }
    ensures { IfOk result (λ devices. devices ≡ maker.each_of 2 (maker.pulses_of size)) }
{
    let mut devices = Vec::with_capacity(alloc, 2)?;
    for k in 0..2 {
        devices.push(pulses(alloc, size, k)?)?;
    }
    Ok(Items::new(devices))
}

/// All parts of the machine of a number and a size, in version 1 of the description.
pub fn machine_parts(alloc: Global, number: u32, size: u8) -> Result<MachineParts, Memory>
    requires { size ≤ 64 }
    ensures { IfOk result (λ parts. parts ≡ maker.parts_of number size) }
{
    Ok(MachineParts {
        version: 1,
        gpe0: 32,
        base1: 0,
        gpe1: 0,
        workers: 4,
        regions: regions(alloc)?,
        fields: fields(alloc)?,
        events: events(alloc)?,
        controller: Some(controller(alloc)?),
        firmware: firmware(alloc, number, size)?,
        devices: devices(alloc, size)?,
        schedule: Items::new(Vec::new(alloc)),
    })
}
