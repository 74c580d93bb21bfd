//! The actors of a machine, in the order in which they are served.
ghost use Rattle.std.specs.Prelude.{◌≡◌, ◌<◌, ◌≤◌, Some, length, slice_get};
ghost use Rattle.machine_desc.specs.Actors.{actors_of, ec_count};

use crate::Machine;
use acpi_regs::Actor;

/// 1 where there is a controller, else 0.
fn controllers(machine: &Machine) -> u8
    ensures value { result ≡ ec_count machine.now.controller }
    ensures small { result ≤ 1 }
{
    match machine.controller() {
        Some(_) => 1,
        None => 0,
    }
}

/// How many devices there are.
fn devices(machine: &Machine) -> u8
    ensures value { result ≡ length machine.now.devices }
    ensures small { result ≤ 8 }
{
    machine.law_rules();
    machine.devices().len() as u8
}

/// How many actors a machine has.
#[tactic(auto, using(crate::proofs::Order::how_many))]
pub fn count(machine: &Machine) -> u8
    ensures value { result ≡ length (actors_of machine.now) }
    ensures small { result ≤ 23 }
{
    machine.law_rules();
    let firmware = machine.firmware().len() as u8;
    2 + machine.workers() + controllers(machine) + devices(machine) + firmware
}

/// The `k`-th actor.
pub fn actor(machine: &Machine, k: u8) -> Actor
    requires { k < length (actors_of machine.now) }
    ensures { slice_get (actors_of machine.now) k ≡ Some result }
{
    machine.law_rules();
    let workers = machine.workers();
    if k < 2 {
        return if k == 0 { Actor::Int } else { Actor::Poll };
    }
    if k - 2 < workers {
        return Actor::Worker(k - 2);
    }
    let behind = k - 2 - workers;
    let controllers = controllers(machine);
    if behind < controllers {
        return Actor::Ec;
    }
    let number = behind - controllers;
    let devices = devices(machine);
    if number < devices {
        return Actor::Device(number);
    }
    Actor::Firmware(number - devices)
}
