ghost use Rattle.std.specs.Prelude.{◌≡◌, ◌≤◌, [], IfOk, length, slice_index};
ghost use Rattle.std.specs.Option.{option_copied};
ghost use Rattle.ec_chip.specs.Chip.{next_effect};
ghost use Rattle.machine_core.specs.Wire.{InStep, IsSpace, IsWire, Takes, advanced, asks_code_in, asks_of, begun_after, chip_advanced, chip_after, controller_region, effect_in_turn, finished_in, host_in, requester_of, wire_after};
ghost use Rattle.machine_desc.specs.Kept.{IsMachine};
ghost use Rattle.machine_desc.specs.Weight.{weight_of};
ghost use Rattle.machine_history.specs.Machine.{is_own};
ghost use Rattle.machine_history.specs.Wire.{due_after};

use acpi_regs::{Actor, Deed, EcStatus, Effect, Entry, Event, HostMove, Memory, Request};
use bitflags::Flags;
use ec_chip::EcChip;
use ec_driver::Transaction;
use field_units::{Region, RegionKind};
use machine_desc::Machine;
use std::alloc::Global;
use std::marker::Model;

/// A transaction that is open, from its begin to its take (ACPI 6.5, section 12.3).
#[derive(Debug, Drop)]
pub struct Begun {
    /// Who asked.
    pub by: Actor,
    /// What was asked.
    pub asks: Request,
    /// How far the host has come.
    pub driver: Transaction,
}

/// The embedded controller, the transaction that is open on it, and the interrupt handler's turn.
///
/// Where the machine has no controller, nobody asks this one.
#[derive(Debug, Drop)]
pub struct Wire {
    chip: EcChip,
    begun: Option<Begun>,
    /// The interrupt handler has claimed the controller's event since its last move.
    due: bool,
}

impl Model for Wire {
    ghost use Rattle.machine_core.specs.Wire.{WireData};

    ghost Value = { WireData };

    ghost view = { λ w. record { chip = w.chip; begun = w.begun; due = w.due } };
}

impl Wire {
    /// A controller on which nothing has happened, with room for so many query codes.
    pub fn new(alloc: Global, machine: &Machine, room: u32) -> Result<Wire, Memory>
        requires { weight_of machine.now ≤ room }
        ensures { IfOk result (λ w. IsWire machine.now [] w) }
    {
        machine.law_rules();
        let cells = space_bytes(alloc, machine)?;
        let chip = EcChip::new(alloc, cells, room)?;
        Ok(Wire {
            chip,
            begun: None,
            due: false,
        })
    }

    /// Who opened the transaction that is open.
    pub fn requester(&self) -> Option<Actor>
        ensures { result ≡ requester_of self.now.begun }
    {
        match &self.begun {
            Some(begun) => Some(begun.by),
            None => None,
        }
    }

    /// Whether a query for the first outstanding code is open.
    pub fn asks_code(&self) -> bool
        ensures { result ≡ asks_code_in self.now.begun }
    {
        match &self.begun {
            Some(begun) => matches!(begun.asks, Request::Qr),
            None => false,
        }
    }

    /// What the open transaction asks.
    pub fn asks(&self) -> Option<Request>
        ensures { result ≡ asks_of self.now.begun }
    {
        match &self.begun {
            Some(begun) => Some(begun.asks),
            None => None,
        }
    }

    /// The next move of the open transaction, where it is the host's.
    pub fn next_host(&self) -> Option<HostMove>
        requires { InStep self.now }
        ensures { result ≡ host_in self.now.begun self.now.chip }
    {
        match &self.begun {
            Some(begun) => begun.driver.next_host(&self.chip),
            None => None,
        }
    }

    /// The next move of the open transaction, where it is the controller's.
    pub fn next_effect(&self) -> Option<Effect>
        ensures { result ≡ effect_in_turn self.now.begun (next_effect self.now.chip) }
    {
        match &self.begun {
            Some(_) => self.chip.next_effect(),
            None => None,
        }
    }

    /// What the requester takes, once all moves of the open transaction are made.
    pub fn taking(&self) -> Option<Option<u8>>
        requires { InStep self.now }
        ensures { result ≡ finished_in self.now.begun self.now.chip }
    {
        match &self.begun {
            Some(begun) => begun.driver.finished(&self.chip),
            None => None,
        }
    }

    /// Whether the controller is in burst mode (ACPI 6.5, section 12.3.3).
    pub fn is_burst(&self) -> bool
        ensures { result ≡ self.now.chip.burst }
    {
        ec_chip::laws::law_status();
        self.chip.status().contains(EcStatus::BURST)
    }

    /// Whether the interrupt handler has claimed the controller's event since its last move.
    pub fn is_due(&self) -> bool
        ensures { result ≡ self.now.due }
    {
        self.due
    }

    /// How many query codes wait.
    pub fn codes(&self) -> u32
        ensures { result ≡ length self.now.chip.codes }
    {
        self.chip.codes()
    }

    /// The byte of a cell of the controller's space.
    pub fn byte(&self, address: u8) -> u8
        ensures { result ≡ slice_index self.now.chip.cells address }
    {
        self.chip.cell(address)
    }

    /// Makes what an entry does to the controller and to the open transaction.
    pub fn after(&mut self, machine: &Machine, entry: Entry)
        requires { Takes entry.deed self.old }
        ensures { self.new ≡ wire_after machine.now entry.actor entry.deed self.old }
    {
        self.due = due_after(machine, entry.actor, entry.deed, self.due);
        match entry.deed {
            Deed::Begin(request) => {
                self.begun = Some(Begun {
                    by: entry.actor,
                    asks: request,
                    driver: Transaction::new(request),
                });
            }
            Deed::Take(_) => self.begun = None,
            Deed::Step(_) => self.advance(),
            Deed::Ctl(Effect::Calm) => self.chip.calm(),
            Deed::Ctl(_) => {
                self.chip.controller_step();
            }
            Deed::Push(code) => self.chip.push(code),
            _ => {}
        }
    }

    /// The host has its turn.
    fn advance(&mut self)
        requires { InStep self.old }
        ensures { self.new ≡ record self.old {
          chip = chip_advanced self.old.begun self.old.chip;
          begun = advanced self.old.begun self.old.chip;
        } }
    {
        if let Some(begun) = &mut self.begun {
            begun.driver.advance(&mut self.chip);
        }
    }
}

/// Whether the interrupt handler has claimed the controller's event since its last move.
fn due_after(machine: &Machine, actor: Actor, deed: Deed, old: bool) -> bool
    ensures { result ≡ due_after machine.now actor deed old }
{
    match (actor, deed) {
        (Actor::Int, Deed::Claim(event)) => old || is_own(machine, event),
        (Actor::Int, Deed::Step(_)) => false,
        _ => old,
    }
}

/// Whether the event is the controller's.
fn is_own(machine: &Machine, event: Event) -> bool
    ensures { result ≡ is_own machine.now event }
{
    match machine.controller() {
        Some(controller) => controller.event == event,
        None => false,
    }
}

/// The bytes of the controller's space at the start.
#[tactic(auto, using(crate::proofs::Space::space_of, crate::proofs::Space::no_space))]
fn space_bytes(alloc: Global, machine: &Machine) -> Result<Vec<u8>, Memory>
    requires { IsMachine machine.now }
    ensures { IfOk result (λ cells. IsSpace machine.now cells.items) }
{
    match controller_region(machine.regions()) {
        Some(region) => Ok(region.cells().to_vec(alloc)?),
        None => Ok(vec![in alloc; 0; 256]?),
    }
}

/// The controller's region.
fn controller_region(regions: &[Region]) -> Option<&Region>
    ensures { option_copied result ≡ controller_region regions.now }
{
    regions
        .iter()
        .find(|region| matches!(region.kind(), RegionKind::Controller))
}
