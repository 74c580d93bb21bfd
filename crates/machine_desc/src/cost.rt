//! What operations and scripts can bring: entries of the history, and moves of the controller.
ghost use Rattle.std.specs.Prelude.{◌≡◌, ◌≤◌, Bool, Option, length};
ghost use Rattle.field_units.specs.Bits.{byte_count};
ghost use Rattle.field_units.specs.Field.{Field};
ghost use Rattle.handler_script.specs.Costs.{partials, reads_of, writes_of};
ghost use Rattle.handler_script.specs.Left.{field_named, held_after};
ghost use Rattle.handler_script.specs.Parts.{bursts, takes_lock};
ghost use Rattle.machine_desc.specs.Weight as weight;

use field_units::{FieldUnit, RegionKind, UpdateRule};
use handler_script::Op;

/// How many entries, and how many of them moves of the controller, something can bring at most.
#[derive(Clone, Copy)]
pub struct Cost {
    pub entries: u64,
    pub moves: u64,
}

/// 1 where the test holds, else 0.
pub fn one_if(test: bool) -> u64
    ensures value { result ≡ weight.one_if test }
    ensures small { result ≤ 1 }
{
    if test { 1 } else { 0 }
}

/// How many bytes of a field are read before they are written.
#[tactic(auto, using(crate::proofs::Partials::next_partial))]
fn partials(field: &FieldUnit) -> u64
    ensures value { result ≡ partials field.now }
    ensures small { result ≤ 9 }
{
    field.law_fits();
    let preserves = matches!(field.update(), UpdateRule::Preserve);
    let mut kept = 0;
    for k in 0..field.bytes_of().count {
        kept += one_if(field.partial(k) && preserves);
    }
    kept
}

/// How many bytes hold a bit of a field.
fn bytes_of(field: &FieldUnit) -> u64
    ensures value { result ≡ byte_count field.now }
    ensures small { result ≤ 9 }
{
    field.law_fits();
    u64::from(field.bytes_of().count)
}

/// Byte reads of an operation on a field.
fn reads_of(field: &FieldUnit, op: Op) -> u64
    ensures value { result ≡ reads_of op field.now }
    ensures small { result ≤ 18 }
{
    match op {
        Op::Read(_) => bytes_of(field),
        Op::Write(..) => partials(field),
        Op::Add(..) => bytes_of(field) + partials(field),
        _ => 0,
    }
}

/// Byte writes of an operation on a field.
fn writes_of(field: &FieldUnit, op: Op) -> u64
    ensures value { result ≡ writes_of op field.now }
    ensures small { result ≤ 9 }
{
    match op {
        Op::Write(..) => bytes_of(field),
        Op::Add(..) => bytes_of(field),
        _ => 0,
    }
}

/// What byte reads and byte writes bring, in burst mode or not.
fn access_cost(kind: RegionKind, burst: bool, reads: u64, writes: u64) -> Cost
    requires reads { reads ≤ 18 }
    requires writes { writes ≤ 9 }
    ensures entries { result.entries ≡ weight.access_size kind burst reads writes }
    ensures moves { result.moves ≡ weight.access_moves kind burst reads writes }
    ensures few_entries { result.entries ≤ 208 }
    ensures few_moves { result.moves ≤ 65 }
{
    match kind {
        RegionKind::Memory => Cost {
            entries: reads + writes,
            moves: 0,
        },
        RegionKind::Controller => Cost {
            entries: 7 * reads + 8 * writes + 10 * one_if(burst),
            moves: 2 * reads + 3 * writes + 2 * one_if(burst),
        },
    }
}

/// Whether an operation on the field stands in burst mode.
fn bursts(field: &FieldUnit) -> bool
    ensures { result ≡ bursts field.now }
{
    matches!(field.kind(), RegionKind::Controller) && bytes_of(field) > 1
}

/// What an operation on a field brings, where a hold is open or not.
fn field_cost(field: &FieldUnit, held: bool, op: Op) -> Cost
    ensures entries { result.entries ≡ weight.field_size field.now held op }
    ensures moves { result.moves ≡ weight.field_moves field.now op }
    ensures few_entries { result.entries ≤ 216 }
    ensures few_moves { result.moves ≤ 65 }
{
    let reads = reads_of(field, op);
    let writes = writes_of(field, op);
    let access = access_cost(field.kind(), bursts(field), reads, writes);
    Cost {
        entries: access.entries + 8 * one_if(field.needs_lock() && !held),
        moves: access.moves,
    }
}

/// What an operation on no field brings.
fn plain_cost(op: Op) -> Cost
    ensures entries { result.entries ≡ weight.plain_size op }
    ensures moves { result.moves ≡ 0 }
    ensures few_entries { result.entries ≤ 8 }
{
    let entries = match op {
        Op::Hold => 8,
        Op::Free => 0,
        Op::Skip(..) => 0,
        _ => 1,
    };
    Cost { entries, moves: 0 }
}

/// The field that an operation names.
fn field_named(fields: &[FieldUnit], op: Op) -> Option<FieldUnit>
    ensures { result ≡ field_named fields.now op }
{
    match op {
        Op::Read(field) => fields.get(usize::from(field)).copied(),
        Op::Write(field, _) => fields.get(usize::from(field)).copied(),
        Op::Add(field, _) => fields.get(usize::from(field)).copied(),
        _ => None,
    }
}

/// What an operation brings, where a hold is open or not.
#[tactic(auto, unfolding(crate::specs::Weight::op_size, crate::specs::Weight::op_moves))]
fn op_cost(fields: &[FieldUnit], held: bool, op: Op) -> Cost
    ensures entries { result.entries ≡ weight.op_size fields.now held op }
    ensures moves { result.moves ≡ weight.op_moves fields.now op }
    ensures few_entries { result.entries ≤ 216 }
    ensures few_moves { result.moves ≤ 65 }
{
    match field_named(fields, op) {
        Some(field) => field_cost(&field, held, op),
        None => plain_cost(op),
    }
}

/// Whether a hold is open after an operation.
fn held_after(op: Op, held: bool) -> bool
    ensures { result ≡ held_after op held }
{
    match op {
        Op::Hold => true,
        Op::Free => false,
        _ => held,
    }
}

/// What a script brings.
#[tactic(auto, unfolding(crate::specs::Weight::script_size, crate::specs::Weight::script_moves))]
pub fn script_cost(fields: &[FieldUnit], ops: &[Op]) -> Cost
    requires { length ops.now ≤ 4096 }
    ensures entries { result.entries ≡ weight.script_size fields.now ops.now }
    ensures moves { result.moves ≡ weight.script_moves fields.now ops.now }
    ensures few_entries { result.entries ≤ 884736 }
    ensures few_moves { result.moves ≤ 266240 }
{
    let mut entries = 0;
    let mut moves = 0;
    let mut held = false;
    for op in ops {
        let cost = op_cost(fields, held, *op);
        entries += cost.entries;
        moves += cost.moves;
        held = held_after(*op, held);
    }
    Cost { entries, moves }
}
