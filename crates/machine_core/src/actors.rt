//! What is kept of each worker and firmware.
ghost use Rattle.std.specs.Prelude.{◌≡◌, ◌<◌, ◌≤◌, length, [], None, false};
ghost use Rattle.acpi_regs.specs.declared.actor.Actor.{Actor};
ghost use Rattle.machine_core.specs.Actors.{FitsDeed, IsActors, IsFirst, Moves, Stands, idle, seat, state_of, words_after};
ghost use Rattle.machine_desc.specs.Kept.{IsMachine};
ghost use Rattle.machine_desc.specs.Machine.{MachineData};

use crate::course::{Course, ScriptPlace};
use acpi_regs::{Actor, Deed, Entry};
use machine_desc::Machine;
use machine_history::Job;

/// How many seats there are: four workers, and eight firmware scripts.
const SEATS: usize = 12;

/// What the entries of an actor tell of it.
#[derive(Clone, Copy, Debug)]
pub struct Words {
    /// It has owned the lock since its seek.
    pub owned: bool,
    /// It has disowned the lock since its seek.
    pub disowned: bool,
    /// It was busy since its last seek or woken.
    pub busy: bool,
    /// The job that it runs.
    pub running: Option<u32>,
}

/// What is kept of an actor.
#[derive(Clone, Copy, Debug)]
pub struct ActorState {
    pub words: Words,
    pub course: Course,
}

/// What is kept of all actors, by seat.
#[derive(Debug, Drop)]
pub struct Actors {
    pub states: [ActorState; 12],
}

impl Words {
    /// The words after a deed of the actor.
    fn after(self, deed: Deed) -> Words
        ensures { result ≡ words_after deed self }
    {
        match deed {
            Deed::Seek => Words {
                owned: false,
                disowned: false,
                busy: false,
                ..self
            },
            Deed::Busy => Words { busy: true, ..self },
            Deed::Woken => Words {
                busy: false,
                ..self
            },
            Deed::Own => Words {
                owned: true,
                ..self
            },
            Deed::Disown => Words {
                disowned: true,
                ..self
            },
            Deed::Start(job) => Words {
                running: Some(job),
                ..self
            },
            Deed::Finish(_) => Words {
                running: None,
                ..self
            },
            _ => self,
        }
    }
}

impl ActorState {
    /// An actor that has done nothing, on this course.
    fn on(course: Course) -> ActorState
        ensures { result ≡ record idle { course = course } }
    {
        let words = Words {
            owned: false,
            disowned: false,
            busy: false,
            running: None,
        };
        ActorState { words, course }
    }

    /// The firmware of this number, before anything happened.
    fn first(number: u8) -> ActorState
        ensures { IsFirst number result }
    {
        ActorState::on(Course::begun(ScriptPlace::Firmware(number)))
    }

    /// What is kept after a deed of the actor, where these jobs were made before.
    fn after(self, machine: &Machine, made: &[Job], deed: Deed) -> ActorState
        requires stands { Stands machine.now self.course }
        requires fits { FitsDeed machine.now self.course deed }
        ensures { Moves machine.now made.now deed self result }
    {
        ActorState {
            words: self.words.after(deed),
            course: self.course.after(machine, made, deed),
        }
    }
}

impl Actors {
    /// Firmware at the begin of its scripts, and workers with nothing to do.
    pub fn new() -> Actors
        ensures { (m : MachineData) → IsMachine m → IsActors m [] result }
    {
        let mut states = [ActorState::on(Course::Ended); 12];
        for number in 0..8u8 {
            states[4 + usize::from(number)] = ActorState::first(number);
        }
        Actors { states }
    }

    /// What is kept of an actor.
    pub fn state(&self, actor: Actor) -> ActorState
        ensures { result ≡ state_of self.now.states actor }
    {
        let seat = seat_of(actor);
        if seat < SEATS {
            self.states[seat]
        } else {
            ActorState::on(Course::Ended)
        }
    }

    /// Makes what an entry does to its actor, where these jobs were made before.
    pub fn go_on(&mut self, machine: &Machine, made: &[Job], entry: Entry)
        requires stands { Stands machine.now (state_of self.old.states entry.actor).course }
        requires fits { FitsDeed machine.now (state_of self.old.states entry.actor).course entry.deed }
        ensures size { length self.new.states ≡ length self.old.states }
        ensures own { seat entry.actor < 12 → Moves machine.now made.now entry.deed
            (state_of self.old.states entry.actor) (state_of self.new.states entry.actor) }
        ensures others { (a : Actor) → (seat a ≡ seat entry.actor → ⊥)
            → state_of self.new.states a ≡ state_of self.old.states a }
        ensures outside { 12 ≤ seat entry.actor → self.new ≡ self.old }
    {
        let seat = seat_of(entry.actor);
        if seat < SEATS {
            let state = self.states[seat].after(machine, made, entry.deed);
            self.states[seat] = state;
        }
    }
}

/// The seat of an actor, and 12 where it has none.
fn seat_of(actor: Actor) -> usize
    ensures { result ≡ seat actor }
{
    match actor {
        Actor::Worker(number) if number < 4 => usize::from(number),
        Actor::Firmware(number) if number < 8 => 4 + usize::from(number),
        _ => 12,
    }
}
