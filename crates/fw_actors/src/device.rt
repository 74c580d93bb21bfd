ghost use Rattle.std.specs.Prelude.{◌≡◌, ◌<◌, ◌++◌, ◌∷◌, ℕ, [], IsSome, length, slice_get, Some};
ghost use Rattle.acpi_regs.specs.declared.event.Event.{Event};
ghost use Rattle.fw_actors.specs.Hardware.{DeviceSteps, next_pulse};
ghost use Rattle.machine_history.specs.Steps.{pulses};
ghost use Rattle.world.specs.Calls.{To_pulse};

use acpi_regs::{Actor, Event, Fixed, Pulse};
use machine_desc::Machine;
use std::marker::Model;
use world::{StepOutcome, World};

/// A device that raises events without waiting. Between its steps it is the list of its pulses so far.
#[derive(Drop)]
pub struct Device {
    number: u8,
    made: [Pulse; 4096],
    count: usize,
}

impl Model for Device {
    ghost use Rattle.std.specs.Prelude.{◌≡◌, ◌≤◌, length, take};
    ghost use Rattle.fw_actors.specs.Hardware.{DeviceData};

    ghost Value = { DeviceData };

    ghost view = { λ d. record { number = d.number; pulses = take d.count d.made } };

    ghost invariant = { λ d. (d.count ≤ 4096) × (length d.made ≡ 4096) };
}

impl Device {
    /// The device of this number at its start.
    pub fn new(number: u8) -> Device
        ensures { result ≡ record { number = number; pulses = [] } }
    {
        let none = Pulse {
            event: Event::Fixed(Fixed::Tmr),
            clear: false,
        };
        Device {
            number,
            made: [none; 4096],
            count: 0,
        }
    }

    /// Its number.
    pub fn number(&self) -> u8
        ensures { result ≡ self.now.number }
    {
        self.number
    }

    /// One step: it pulses the next event of its list. It answers Ended where its list is through.
    ///
    /// `machine` is the machine of the world's board. Where the world asks it, the event is the next of the device's
    /// list.
    pub fn step<W: World>(&mut self, machine: &Machine, world: &mut W) -> StepOutcome
        requires machine { W.machine world.old ≡ machine.now }
        requires may { (n : Event) → next_pulse machine.now self.old.number self.old.pulses ≡ Some n
            → W.may world.old (Actor.Device self.old.number) (To_pulse n) }
        ensures number { self.new.number ≡ self.old.number }
        ensures machine { W.machine world.new ≡ machine.now }
        ensures steps { DeviceSteps W.makes machine.now self.old.number world.old self.old.pulses result world.new
            self.new.pulses }
    {
        match self.next(machine) {
            Some(event) => {
                let clear = world.pulse(Actor::Device(self.number), event);
                self.keep(Pulse { event, clear });
                StepOutcome::Stepped
            }
            None => StepOutcome::Ended,
        }
    }

    /// The event that it pulses next.
    fn next(&self, machine: &Machine) -> Option<Event>
        ensures next { result ≡ next_pulse machine.now self.now.number self.now.pulses }
        ensures room { IsSome result → length self.now.pulses < 4096 }
    {
        pulse_at(machine, self.number, self.count())
    }

    /// How many pulses it has made.
    fn count(&self) -> usize
        ensures { result ≡ length self.now.pulses }
    {
        self.count
    }

    /// Keeps a pulse that was made.
    fn keep(&mut self, pulse: Pulse)
        requires { length self.old.pulses < 4096 }
        ensures { self.new ≡ record self.old { pulses = self.old.pulses ++ pulse ∷ [] } }
    {
        self.made[self.count] = pulse;
        self.count += 1;
    }
}

/// The event at a place of a device's list; `None` behind its end, and where there is no such device.
fn pulse_at(machine: &Machine, number: u8, place: usize) -> Option<Event>
    ensures event { result ≡ slice_get (pulses machine.now number) place }
    ensures room { IsSome result → place < 4096 }
{
    machine.law_rules();
    match machine.devices().get(usize::from(number)) {
        Some(events) => events.as_slice().get(place).copied(),
        None => None,
    }
}
