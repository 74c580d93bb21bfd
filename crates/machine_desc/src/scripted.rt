//! The rules of events, queries and the firmware: items that have a script.
ghost use Rattle.std.specs.Prelude.{◌≡◌, ◌==◌, Bool, List, Option, None, Some, length, map};
ghost use Rattle.std.specs.List.{list_any};
ghost use Rattle.acpi_regs.specs.GeometryParts.{blocks_of};
ghost use Rattle.machine_desc.specs.Machine.{listed_part};
ghost use Rattle.machine_desc.specs.Rules as rules;

use crate::items_rules::{ItemRules, at_item, broken, items_fault};
use crate::known::{KnownEvents, is_event_of, is_listed};
use crate::{BadMachine, EventPart, Items, Part, QueryPart, Rule, Spot};
use acpi_regs::{Event, GpeGeometry, Side};
use handler_script::{EventRules, Op, Script, ScriptFault};

/// The rule that a script's fault breaks.
fn rule_of(fault: ScriptFault) -> Spot
    ensures { result ≡ rules.rule_of fault }
{
    match fault {
        ScriptFault::Unbalanced(op) => Spot {
            rule: Rule::Unbalanced,
            op: u32::from(op),
        },
        ScriptFault::UnknownField(op) => Spot {
            rule: Rule::UnknownField,
            op: u32::from(op),
        },
        ScriptFault::BadSkip(op) => Spot {
            rule: Rule::BadSkip,
            op: u32::from(op),
        },
        ScriptFault::NotAllowed(op) => Spot {
            rule: Rule::NotAllowed,
            op: u32::from(op),
        },
    }
}

/// The first rule that a script breaks.
fn script_rule<R: EventRules>(events: &R, side: Side, fields: usize, ops: &[Op]) -> Option<Spot>
    ensures { result ≡ rules.script_rule (R.forbids events.now) side fields ops.now }
{
    if ops.len() > 4096 {
        return Some(Spot {
            rule: Rule::LongScript,
            op: 4096,
        });
    }
    match Script::fault_of(ops, fields, side, events) {
        Some(fault) => Some(rule_of(fault)),
        None => None,
    }
}

/// Whether it is a general-purpose event that stands in no block.
fn is_in_no_block(geometry: &GpeGeometry, event: Event) -> bool
    ensures { result ≡ rules.is_in_no_block (blocks_of geometry.now) event }
{
    match event {
        Event::Gpe(number) => geometry.place_of(number).is_none(),
        Event::Fixed(_) => false,
    }
}

/// Whether it is a general-purpose event that stands in a block.
fn is_in_block(geometry: &GpeGeometry, event: Event) -> bool
    ensures { result ≡ rules.is_in_block (blocks_of geometry.now) event }
{
    match event {
        Event::Gpe(number) => geometry.place_of(number).is_some(),
        Event::Fixed(_) => false,
    }
}

/// The rules of a listed event.
#[derive(Clone, Copy)]
struct ListedRules<'a> {
    geometry: GpeGeometry,
    events: KnownEvents<'a>,
    fields: usize,
}

impl ItemRules<EventPart> for ListedRules<'_> {
    ghost use Rattle.acpi_regs.specs.GeometryParts.{blocks_of};
    ghost use Rattle.std.specs.Prelude.{map};
    ghost use Rattle.machine_desc.specs.Machine.{listed_part};
    ghost use Rattle.machine_desc.specs.Rules as rules;

    ghost fault = { λ s before e. rules.event_fault (blocks_of s.geometry) s.events.own
        (rules.forbids (map listed_part s.events.events.now) s.events.own) s.fields before e };

    fn fault(&self, before: &[EventPart], event: &EventPart) -> Option<Spot> {
        if is_in_no_block(&self.geometry, event.event) {
            return broken(Rule::UnknownEvent);
        }
        if is_listed(before, event.event) || is_event_of(event.event, self.events.own) {
            return broken(Rule::TakenEvent);
        }
        if event.refs > 255 {
            return broken(Rule::BadRefs);
        }
        script_rule(&self.events, Side::Os, self.fields, event.script.as_slice())
    }
}

/// The most events that a description of this version may list: all GPEs and the four fixed events that have a name.
fn most_events(version: u8) -> usize
    ensures { result ≡ rules.most_events version }
{
    if version == 1 { 132 } else { 260 }
}

/// The first rule that the listed events break.
#[tactic(auto, unfolding(crate::specs::Rules::events_fault))]
pub fn events_fault(
    version: u8,
    geometry: GpeGeometry,
    own: Option<Event>,
    fields: usize,
    events: &[EventPart],
) -> Option<BadMachine>
    ensures { result ≡ rules.events_fault version (blocks_of geometry) own fields events.now }
{
    let rules = ListedRules {
        geometry,
        events: KnownEvents { events, own },
        fields,
    };
    items_fault(Part::Event, most_events(version), &rules, events)
}

/// The first rule that the controller breaks.
#[tactic(auto, unfolding(crate::specs::Rules::controller_fault))]
pub fn controller_fault(geometry: &GpeGeometry, own: Option<Event>) -> Option<BadMachine>
    ensures { result ≡ rules.controller_fault (blocks_of geometry.now) own }
{
    let event = own?;
    if is_in_block(geometry, event) {
        return None;
    }
    Some(at_item(
        Part::Controller,
        0,
        Spot {
            rule: Rule::UnknownEvent,
            op: 0,
        },
    ))
}

/// Whether a query code has a handler among these.
fn is_taken(queries: &[QueryPart], code: u8) -> bool
    ensures { result ≡ list_any (λ x. x.code == code) queries.now }
{
    queries.iter().any(|query| query.code == code)
}

/// The rules of a script of this side.
#[derive(Clone, Copy)]
struct ScriptRules<'a> {
    events: &'a KnownEvents<'a>,
    fields: usize,
}

impl ItemRules<QueryPart> for ScriptRules<'_> {
    ghost use Rattle.std.specs.Prelude.{map};
    ghost use Rattle.machine_desc.specs.Machine.{listed_part};
    ghost use Rattle.machine_desc.specs.Rules as rules;

    ghost fault = { λ s before q. rules.query_fault
        (rules.forbids (map listed_part s.events.now.events.now) s.events.now.own) s.fields before q };

    fn fault(&self, before: &[QueryPart], query: &QueryPart) -> Option<Spot> {
        if is_taken(before, query.code) {
            return broken(Rule::TakenCode);
        }
        script_rule(self.events, Side::Os, self.fields, query.script.as_slice())
    }
}

impl ItemRules<Items<Op>> for ScriptRules<'_> {
    ghost use Rattle.std.specs.Prelude.{map};
    ghost use Rattle.machine_desc.specs.Machine.{listed_part};
    ghost use Rattle.machine_desc.specs.Rules as rules;

    ghost fault = { λ s before ops. rules.firmware_rule
        (rules.forbids (map listed_part s.events.now.events.now) s.events.now.own) s.fields before ops };

    fn fault(&self, _: &[Items<Op>], ops: &Items<Op>) -> Option<Spot> {
        script_rule(self.events, Side::Firmware, self.fields, ops.as_slice())
    }
}

/// The first rule that the handlers of queries break.
#[tactic(auto, unfolding(crate::specs::Rules::queries_fault))]
pub fn queries_fault(
    events: &KnownEvents<'_>,
    fields: usize,
    queries: &[QueryPart],
) -> Option<BadMachine>
    ensures { result ≡ rules.queries_fault (rules.forbids (map listed_part events.now.events.now) events.now.own)
        fields queries.now }
{
    items_fault(Part::Query, 255, &ScriptRules { events, fields }, queries)
}

/// The first rule that the firmware's scripts break.
#[tactic(auto, unfolding(crate::specs::Rules::firmware_fault))]
pub fn firmware_fault(
    events: &KnownEvents<'_>,
    fields: usize,
    firmware: &[Items<Op>],
) -> Option<BadMachine>
    ensures { result ≡ rules.firmware_fault (rules.forbids (map listed_part events.now.events.now) events.now.own)
        fields firmware.now }
{
    items_fault(Part::Firmware, 8, &ScriptRules { events, fields }, firmware)
}
