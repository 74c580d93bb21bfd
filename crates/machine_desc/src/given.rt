//! What the form of a description sees to, before any rule is tested.
ghost use Rattle.std.specs.Prelude.{◌≡◌, ◌↔◌, Bool, IsTrue, List};
ghost use Rattle.std.specs.List.{list_all};
ghost use Rattle.machine_desc.specs.Given as given;

use crate::{ControllerPart, EventPart, Items, MachineParts, QueryPart};
use acpi_regs::{Event, Fixed};
use handler_script::Op;

fn has_code(op: &Op) -> bool
    ensures { result ≡ given.has_code op.now }
{
    match op {
        Op::Push(code) => *code > 0,
        _ => true,
    }
}

fn have_codes(ops: &[Op]) -> bool
    ensures { result ≡ list_all given.has_code ops.now }
{
    ops.iter().all(has_code)
}

fn has_level(event: Event, level: bool) -> bool
    ensures { result ≡ given.has_level event level }
{
    match event {
        Event::Fixed(_) => !level,
        Event::Gpe(_) => true,
    }
}

fn is_event_part(part: &EventPart) -> bool
    ensures { result ≡ given.is_event_part part.now }
{
    !matches!(part.event, Event::Fixed(Fixed::Gbl))
        && has_level(part.event, part.level)
        && have_codes(part.script.as_slice())
}

fn are_event_parts(parts: &[EventPart]) -> bool
    ensures { result ≡ list_all given.is_event_part parts.now }
{
    parts.iter().all(is_event_part)
}

fn is_query_part(part: &QueryPart) -> bool
    ensures { result ≡ given.is_query_part part.now }
{
    part.code > 0 && have_codes(part.script.as_slice())
}

fn are_query_parts(parts: &[QueryPart]) -> bool
    ensures { result ≡ list_all given.is_query_part parts.now }
{
    parts.iter().all(is_query_part)
}

fn has_queries(controller: &Option<ControllerPart>) -> bool
    ensures { result ≡ given.has_queries controller.now }
{
    match controller {
        Some(controller) => are_query_parts(controller.queries.as_slice()),
        None => true,
    }
}

fn scripts_have_codes(scripts: &[Items<Op>]) -> bool
    ensures { result ≡ given.have_codes scripts.now }
{
    scripts.iter().all(|script| have_codes(script.as_slice()))
}

fn has_glk(version: u8, controller: &Option<ControllerPart>) -> bool
    ensures { result ≡ given.has_glk version controller.now }
{
    match controller {
        Some(controller) => version != 1 || controller.glk,
        None => true,
    }
}

/// Whether the parts have the form of a description.
#[tactic(auto, unfolding(crate::specs::Given::is_given))]
fn passes(parts: &MachineParts) -> bool
    ensures { result ≡ given.is_given parts.now }
{
    (parts.version == 1 || parts.version == 2)
        && has_glk(parts.version, &parts.controller)
        && are_event_parts(parts.events.as_slice())
        && has_queries(&parts.controller)
        && scripts_have_codes(parts.firmware.as_slice())
}

/// Whether the parts have the form of a description.
pub fn is_given(parts: &MachineParts) -> bool
    ensures { IsTrue result ↔ given.IsGiven parts.now }
{
    passes(parts)
}
