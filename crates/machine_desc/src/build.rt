//! Making the parts of a machine from parts that break no rule.
ghost use Rattle.std.specs.Prelude.{◌≡◌, ◌≤◌, All, IfOk, List, length, map, slice_get};
ghost use Rattle.machine_desc.specs.Machine.{act_fields_of, acting, field_of, listed_of, lock_of, query_of, region_of};
ghost use Rattle.machine_desc.specs.Sound.{IsFieldIn, IsRegionPart, IsSoundEvent, IsSoundQuery, IsSoundScript};

use crate::{EventPart, FieldPart, Items, ListedEvent, Query, QueryPart, RegionPart};
use acpi_regs::{Listed, Memory};
use field_units::{FieldUnit, LockRule, Region, RegionKind};
use handler_script::{Op, Script};
use std::alloc::Global;

/// The region that a part describes, with zeros behind its bytes.
fn region_of(part: RegionPart) -> Result<Region, Memory>
    requires { IsRegionPart part }
    ensures { IfOk result (λ region. region ≡ region_of part) }
{
    let mut cells = part.bytes.into_vec();
    cells.resize(usize::from(part.len), 0)?;
    Ok(Region::new(part.kind, cells))
}

/// The regions that parts describe.
pub fn regions_of(alloc: Global, parts: Vec<RegionPart>) -> Result<Items<Region>, Memory>
    requires { All IsRegionPart parts.items }
    ensures { IfOk result (λ regions. regions ≡ map region_of parts.items) }
{
    let mut regions = Vec::with_capacity(alloc, parts.len())?;
    for part in parts {
        regions.push(region_of(part)?)?;
    }
    Ok(Items::new(regions))
}

fn lock_rule(lock: bool) -> LockRule
    ensures { result ≡ lock_of lock }
{
    if lock {
        LockRule::Lock
    } else {
        LockRule::NoLock
    }
}

/// The field that a part describes.
fn field_of(regions: &[RegionPart], part: &FieldPart) -> FieldUnit
    requires { IsFieldIn regions.now part.now }
    ensures { result ≡ field_of regions.now part.now }
{
    let region = &regions[usize::from(part.region)];
    let lock = lock_rule(part.lock);
    let field = FieldUnit::new(
        part.region,
        region.kind,
        region.len,
        part.bit,
        part.width,
        lock,
        part.update,
    );
    field.unwrap()
}

/// The fields that parts describe.
pub fn fields_of(
    alloc: Global,
    regions: &[RegionPart],
    parts: &[FieldPart],
) -> Result<Items<FieldUnit>, Memory>
    requires { All (IsFieldIn regions.now) parts.now }
    ensures { IfOk result (λ fields. fields ≡ map (field_of regions.now) parts.now) }
{
    let mut fields = Vec::with_capacity(alloc, parts.len())?;
    for part in parts {
        fields.push(field_of(regions, part))?;
    }
    Ok(Items::new(fields))
}

/// A field with the lock rule that acts go by, where the controller needs the lock or not.
fn acting(needs: bool, field: &FieldUnit) -> FieldUnit
    ensures { result ≡ acting needs field.now }
{
    if needs && matches!(field.kind(), RegionKind::Controller) {
        field.with_lock(LockRule::Lock)
    } else {
        *field
    }
}

/// The fields with the lock rules that acts go by.
#[tactic(auto, unfolding(crate::specs::Machine::act_fields_of))]
pub fn acting_of(
    alloc: Global,
    needs: bool,
    fields: &[FieldUnit],
) -> Result<Items<FieldUnit>, Memory>
    ensures { IfOk result (λ acting. acting ≡ act_fields_of needs fields.now) }
{
    let mut made = Vec::with_capacity(alloc, fields.len())?;
    for field in fields {
        made.push(acting(needs, field))?;
    }
    Ok(Items::new(made))
}

/// The event that a part lists.
fn listed_of(part: EventPart) -> ListedEvent
    requires { IsSoundEvent part }
    ensures { result ≡ listed_of part }
{
    let listed = Listed {
        event: part.event,
        level: part.level,
        refs: part.refs as u8,
    };
    ListedEvent {
        listed,
        script: Script::of_tested(part.script.into_vec()),
    }
}

/// The events that parts list.
pub fn events_of(alloc: Global, parts: Vec<EventPart>) -> Result<Items<ListedEvent>, Memory>
    requires { All IsSoundEvent parts.items }
    ensures { IfOk result (λ events. events ≡ map listed_of parts.items) }
{
    let mut events = Vec::with_capacity(alloc, parts.len())?;
    for part in parts {
        events.push(listed_of(part))?;
    }
    Ok(Items::new(events))
}

/// The handler of a query that a part describes.
fn query_of(part: QueryPart) -> Query
    requires { IsSoundQuery part }
    ensures { result ≡ query_of part }
{
    Query {
        code: part.code,
        script: Script::of_tested(part.script.into_vec()),
    }
}

/// The handlers of queries that parts describe.
pub fn queries_of(alloc: Global, parts: Vec<QueryPart>) -> Result<Items<Query>, Memory>
    requires { All IsSoundQuery parts.items }
    ensures { IfOk result (λ queries. queries ≡ map query_of parts.items) }
{
    let mut queries = Vec::with_capacity(alloc, parts.len())?;
    for part in parts {
        queries.push(query_of(part))?;
    }
    Ok(Items::new(queries))
}

/// The script of these operations.
fn script_of(ops: Items<Op>) -> Script
    requires { IsSoundScript ops }
    ensures { result ≡ ops }
{
    Script::of_tested(ops.into_vec())
}

/// The scripts of these operations.
pub fn scripts_of(alloc: Global, parts: Vec<Items<Op>>) -> Result<Items<Script>, Memory>
    requires { All IsSoundScript parts.items }
    ensures { IfOk result (λ scripts. scripts ≡ parts.items) }
{
    let mut scripts = Vec::with_capacity(alloc, parts.len())?;
    for part in parts {
        scripts.push(script_of(part))?;
    }
    Ok(Items::new(scripts))
}
