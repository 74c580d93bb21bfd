//! The weight of a machine.
ghost use Rattle.std.specs.Prelude.{◌≡◌, ◌≤◌, ◌<◌, ◌^◌, ◌*◌, ◌+◌, length};
ghost use Rattle.machine_desc.specs.Kept.{own_event, queries_in};
ghost use Rattle.machine_desc.specs.Weight as weight;

use crate::cost::{Cost, script_cost};
use crate::tally::{Tally, all_pulses, in_devices, in_firmware};
use crate::{ListedEvent, Machine, Query};
use acpi_regs::{Event, Fixed};

/// The product of a number of runs and of what a run brings.
fn product(runs: u64, each: u64) -> u64
    requires runs { runs ≤ 589824 }
    requires each { each ≤ 884739 }
    ensures value { result ≡ runs * each }
    ensures small { result ≤ 521840295936 }
{
    runs * each
}

/// The runs that an event can have.
fn runs_of(machine: &Machine, event: Event) -> u64
    ensures value { result ≡ weight.runs_of machine.now event }
    ensures small { result ≤ 589824 }
{
    machine.law_rules();
    in_firmware(Tally::Runs(event), machine.firmware()) + in_devices(event, machine.devices())
}

/// The raises and the pulses of an event.
fn calls_of(machine: &Machine, event: Event) -> u64
    ensures value { result ≡ weight.calls_of machine.now event }
    ensures small { result ≤ 589824 }
{
    machine.law_rules();
    in_firmware(Tally::Raises(event), machine.firmware()) + in_devices(event, machine.devices())
}

/// What the firmware's scripts bring.
#[tactic(auto, unfolding(crate::specs::Weight::firmware_size, crate::specs::Weight::firmware_moves))]
fn firmware_cost(machine: &Machine) -> Cost
    ensures entries { result.entries ≡ weight.firmware_size machine.now }
    ensures moves { result.moves ≡ weight.firmware_moves machine.now }
    ensures few_entries { result.entries ≤ 8 * 884736 }
    ensures few_moves { result.moves ≤ 8 * 266240 }
{
    machine.law_rules();
    let fields = machine.act_fields();
    let mut entries = 0;
    let mut moves = 0;
    for script in machine.firmware() {
        let cost = script_cost(fields, script.ops());
        entries += cost.entries;
        moves += cost.moves;
    }
    Cost { entries, moves }
}

/// What the runs of an event bring.
fn event_cost(machine: &Machine, event: &ListedEvent) -> Cost
    requires { length event.now.script ≤ 4096 }
    ensures entries { result.entries ≡ weight.event_size machine.now event.now }
    ensures moves { result.moves ≡ weight.event_moves machine.now event.now }
    ensures few_entries { result.entries ≤ 521840295936 }
    ensures few_moves { result.moves ≤ 521840295936 }
{
    let runs = runs_of(machine, event.listed.event);
    let cost = script_cost(machine.act_fields(), event.script.ops());
    Cost {
        entries: product(runs, 3 + cost.entries),
        moves: product(runs, cost.moves),
    }
}

/// What the runs of all listed events bring.
#[tactic(auto, unfolding(crate::specs::Weight::events_size, crate::specs::Weight::events_moves))]
fn events_cost(machine: &Machine) -> Cost
    ensures entries { result.entries ≡ weight.events_size machine.now }
    ensures moves { result.moves ≡ weight.events_moves machine.now }
    ensures few_entries { result.entries ≤ 260 * 521840295936 }
    ensures few_moves { result.moves ≤ 260 * 521840295936 }
{
    machine.law_rules();
    let mut entries = 0;
    let mut moves = 0;
    for event in machine.events() {
        let cost = event_cost(machine, event);
        entries += cost.entries;
        moves += cost.moves;
    }
    Cost { entries, moves }
}

/// What the runs of a query's handler bring.
fn query_cost(machine: &Machine, query: &Query) -> Cost
    requires { length query.now.script ≤ 4096 }
    ensures entries { result.entries ≡ weight.query_size machine.now query.now }
    ensures moves { result.moves ≡ weight.query_moves machine.now query.now }
    ensures few_entries { result.entries ≤ 521840295936 }
    ensures few_moves { result.moves ≤ 521840295936 }
{
    machine.law_rules();
    let runs = in_firmware(Tally::Code(query.code), machine.firmware());
    let cost = script_cost(machine.act_fields(), query.script.ops());
    Cost {
        entries: product(runs, cost.entries),
        moves: product(runs, cost.moves),
    }
}

/// The handlers of the controller's queries.
fn queries_in(machine: &Machine) -> &[Query]
    ensures { result.now ≡ queries_in machine.now }
{
    match machine.controller() {
        Some(controller) => controller.queries.as_slice(),
        None => &[],
    }
}

/// What the runs of all handlers of queries bring.
#[tactic(auto, unfolding(crate::specs::Weight::queries_size, crate::specs::Weight::queries_moves))]
fn queries_cost(machine: &Machine) -> Cost
    ensures entries { result.entries ≡ weight.queries_size machine.now }
    ensures moves { result.moves ≡ weight.queries_moves machine.now }
    ensures few_entries { result.entries ≤ 255 * 521840295936 }
    ensures few_moves { result.moves ≤ 255 * 521840295936 }
{
    machine.law_rules();
    let mut entries = 0;
    let mut moves = 0;
    for query in queries_in(machine) {
        let cost = query_cost(machine, query);
        entries += cost.entries;
        moves += cost.moves;
    }
    Cost { entries, moves }
}

/// The raises and the pulses of the controller's event.
fn own_calls(machine: &Machine) -> u64
    ensures value { result ≡ weight.own_calls machine.now (own_event machine.now) }
    ensures small { result ≤ 589824 }
{
    match machine.controller() {
        Some(controller) => calls_of(machine, controller.event),
        None => 0,
    }
}

/// How often a query can be asked.
fn queries_asked(pushed: u64, moves: u64, calls: u64) -> u64
    requires pushed { pushed ≤ 557056 }
    requires moves { moves ≤ 2 ^ 48 }
    requires calls { calls ≤ 589824 }
    ensures value { result ≡ weight.queries_asked pushed moves calls }
    ensures small { result ≤ 2 ^ 48 + 2000000 }
{
    if pushed == 0 {
        return 0;
    }
    2 * pushed + moves + calls
}

/// How often the controller's event can be claimed.
fn own_claims(controller: bool, pushed: u64, moves: u64, calls: u64, asked: u64) -> u64
    requires pushed { pushed ≤ 557056 }
    requires moves { moves ≤ 2 ^ 48 }
    requires calls { calls ≤ 589824 }
    requires asked { asked ≤ 2 ^ 48 + 2000000 }
    ensures value { result ≡ weight.own_claims controller pushed moves calls asked }
    ensures small { result ≤ 2 ^ 49 + 4000000 }
{
    if !controller {
        return 0;
    }
    pushed + moves + calls + asked
}

/// The weight of a machine.
#[tactic(auto, unfolding(crate::specs::Weight::weight_of))]
pub fn weight_of(machine: &Machine) -> u64
    ensures value { result ≡ weight.weight_of machine.now }
    ensures small { result < 2 ^ 54 }
{
    machine.law_rules();
    let firmware = firmware_cost(machine);
    let events = events_cost(machine);
    let queries = queries_cost(machine);
    let moves = firmware.moves + events.moves + queries.moves;
    let pushed = in_firmware(Tally::Pushes, machine.firmware());
    let calls = own_calls(machine);
    let asked = queries_asked(pushed, moves, calls);
    let controller = machine.controller().is_some();
    firmware.entries
        + all_pulses(machine.devices())
        + events.entries
        + (2 * pushed + queries.entries)
        + own_claims(controller, pushed, moves, calls, asked)
        + 15 * asked
        + 3 * calls_of(machine, Event::Fixed(Fixed::Gbl))
}
