//! What comes in from the firmware and the devices.
ghost use Rattle.std.specs.Prelude.{◌≡◌, ◌≤◌, ◌*◌, All, List, count_by, length, sum_by};
ghost use Rattle.acpi_regs.specs.Event.{same_event};
ghost use Rattle.machine_desc.specs.Weight as weight;

use crate::Items;
use crate::cost::one_if;
use acpi_regs::Event;
use handler_script::{Op, Script};

/// What is counted over operations.
#[derive(Clone, Copy)]
pub enum Tally {
    /// Runs of an event's handler: one a raise, seventeen an assert.
    Runs(Event),
    /// Raises of an event.
    Raises(Event),
    /// Pushes of a code.
    Code(u8),
    /// Pushes of any code.
    Pushes,
}

/// Whether the two are one event.
fn is_same(one: Event, other: Event) -> bool
    ensures { result ≡ same_event one other }
{
    one == other
}

fn counted(what: Tally, op: Op) -> u64
    ensures value { result ≡ weight.counted what op }
    ensures small { result ≤ 17 }
{
    match (what, op) {
        (Tally::Runs(event), Op::Raise(named)) => one_if(is_same(event, named)),
        (Tally::Runs(event), Op::Assert(named)) => 17 * one_if(is_same(event, named)),
        (Tally::Raises(event), Op::Raise(named)) => one_if(is_same(event, named)),
        (Tally::Code(code), Op::Push(pushed)) => one_if(code == pushed),
        (Tally::Pushes, Op::Push(_)) => 1,
        _ => 0,
    }
}

#[tactic(auto, unfolding(crate::specs::Weight::in_script))]
fn in_script(what: Tally, ops: &[Op]) -> u64
    requires { length ops.now ≤ 4096 }
    ensures value { result ≡ weight.in_script what ops.now }
    ensures small { result ≤ 69632 }
{
    let mut sum = 0;
    for op in ops {
        sum += counted(what, *op);
    }
    sum
}

/// The count over all scripts of the firmware.
#[tactic(auto, unfolding(crate::specs::Weight::in_firmware))]
pub fn in_firmware(what: Tally, firmware: &[Script]) -> u64
    requires few { length firmware.now ≤ 8 }
    requires short { All (λ ops. length ops ≤ 4096) firmware.now }
    ensures value { result ≡ weight.in_firmware what firmware.now }
    ensures small { result ≤ 557056 }
{
    let mut sum = 0;
    for script in firmware {
        sum += in_script(what, script.ops());
    }
    sum
}

fn in_list(event: Event, pulses: &[Event]) -> u64
    requires { length pulses.now ≤ 4096 }
    ensures value { result ≡ count_by (same_event event) pulses.now }
    ensures small { result ≤ 4096 }
{
    let mut sum = 0;
    for pulse in pulses {
        sum += one_if(is_same(event, *pulse));
    }
    sum
}

/// The pulses of an event.
#[tactic(auto, unfolding(crate::specs::Weight::in_devices))]
pub fn in_devices(event: Event, devices: &[Items<Event>]) -> u64
    requires few { length devices.now ≤ 8 }
    requires short { All (λ pulses. length pulses ≤ 4096) devices.now }
    ensures value { result ≡ weight.in_devices event devices.now }
    ensures small { result ≤ 32768 }
{
    let mut sum = 0;
    for pulses in devices {
        sum += in_list(event, pulses.as_slice());
    }
    sum
}

/// All pulses.
pub fn all_pulses(devices: &[Items<Event>]) -> u64
    requires few { length devices.now ≤ 8 }
    requires short { All (λ pulses. length pulses ≤ 4096) devices.now }
    ensures value { result ≡ sum_by length devices.now }
    ensures small { result ≤ 32768 }
{
    let mut sum = 0;
    for pulses in devices {
        sum += pulses.as_slice().len() as u64;
    }
    sum
}
