//! What the board tells of its journal.
ghost use Rattle.std.specs.Prelude.{◌≡◌, ◌<◌, ◌↔◌, ◌&&◌, [], true, false, is_some, length, nat_lt, None, reverse, slice_get, IsTrue};
ghost use Rattle.acpi_regs.specs.Lock as lock;
ghost use Rattle.machine_history.specs.Cells.{IsCell};
ghost use Rattle.machine_history.specs.Complete.{Rest};
ghost use Rattle.machine_history.specs.Events as events;
ghost use Rattle.machine_history.specs.Jobs as jobs;
ghost use Rattle.machine_history.specs.Machine.{lists, pulses_of};
ghost use Rattle.machine_history.specs.Scripts.{next_of};
ghost use Rattle.machine_history.specs.Values as values;
ghost use Rattle.machine_history.specs.Wire as wire;
ghost use Rattle.machine_core.specs.Board.{IsFirstPending, IsFree, opener_of};
ghost use Rattle.machine_core.specs.Cells.{is_controllers};
ghost use Rattle.acpi_regs.specs.declared.actor.Actor.{Actor};
ghost use Rattle.acpi_regs.specs.declared.event.Event.{Event};
ghost use Rattle.machine_history.specs.Steps.{ctl_move, host_move, waiting};

use super::Board;
use acpi_regs::{Actor, Cell, Effect, Event, HostMove, Side};
use field_units::RegionKind;
use handler_script::Act;

impl Board {
    /// The next act of an actor. `None` exactly where its script, or the job that it runs, is through, or it has none.
    pub fn act(&self, actor: Actor) -> Option<Act>
        ensures { result ≡ next_of self.now.machine (reverse self.now.entries) actor }
    {
        self.actors.state(actor).course.next(&self.machine)
    }

    /// The byte that a cell of the machine has: the last one written to it, else the description's.
    pub fn cell(&self, cell: Cell) -> u8
        requires { IsCell self.now.machine cell }
        ensures { result ≡ values.value self.now.machine (reverse self.now.entries) cell }
    {
        self.machine.law_rules();
        if self.is_controllers(cell.region) {
            self.wire.byte(cell.offset as u8)
        } else {
            self.cells.byte(cell)
        }
    }

    fn is_controllers(&self, region: u8) -> bool
        ensures { result ≡ is_controllers (slice_get self.now.machine.regions region) }
    {
        match self.machine.regions().get(usize::from(region)) {
            Some(region) => matches!(region.kind(), RegionKind::Controller),
            None => false,
        }
    }

    /// The first event in order that has status and is enabled (ACPI 6.5, section 5.6.4); `None` exactly where there
    /// is none.
    pub fn pending(&self) -> Option<Event>
        ensures { IsFirstPending self.now.machine (reverse self.now.entries) result }
    {
        self.events.chip.first_pending()
    }

    /// Whether an event has status and is enabled.
    pub(super) fn is_pending(&self, event: Event) -> bool
        ensures { result ≡ events.pending self.now.machine (reverse self.now.entries) event }
    {
        self.events.chip.pending(event)
    }

    /// How many references enable a listed event, from 0 to 255.
    pub fn count(&self, event: Event) -> u8
        requires { lists self.now.machine event ≡ true }
        ensures { result ≡ events.count self.now.machine (reverse self.now.entries) event }
    {
        self.events.chip.count(event)
    }

    /// Whether the event is level and its last sixteen runs ended under its asserted line, with no drop and no assert
    /// among them or after.
    pub fn parked(&self, event: Event) -> bool
        ensures { result ≡ events.parked self.now.machine (reverse self.now.entries) event }
    {
        self.events.chip.parked(event)
    }

    /// Whether a pulse of the event has no latch yet.
    pub(super) fn is_pulsed(&self, event: Event) -> bool
        ensures { result ≡ nat_lt (events.latches (reverse self.now.entries) event) (pulses_of self.now.machine event) }
    {
        0 < self.events.unlatched(event)
    }

    /// Whether a side was signalled that the Global Lock was released (ACPI 6.5, section 5.2.10.1).
    pub fn wake(&self, side: Side) -> bool
        ensures { result ≡ lock.wake side (reverse self.now.entries) }
    {
        self.lock.wake(side)
    }

    /// The actor that competes for the Global Lock on a side.
    pub fn seeker(&self, side: Side) -> Option<Actor>
        ensures { result ≡ lock.seeker side (reverse self.now.entries) }
    {
        self.lock.seeker(side)
    }

    /// The owner of the Global Lock.
    pub(super) fn owner(&self) -> Option<Actor>
        ensures { result ≡ lock.owner (reverse self.now.entries) }
    {
        self.lock.owner
    }

    /// The actor whose begin is open.
    pub fn requester(&self) -> Option<Actor>
        ensures { result ≡ opener_of (wire.open_of (reverse self.now.entries)) }
    {
        self.wire.requester()
    }

    /// The next move of the open transaction, where it is the host's (ACPI 6.5, section 12.3).
    pub fn host_move(&self) -> Option<HostMove>
        ensures { result ≡ host_move self.now.machine (reverse self.now.entries) }
    {
        self.wire.next_host()
    }

    /// The next move of the open transaction, where it is the controller's.
    pub fn ctl_move(&self) -> Option<Effect>
        ensures { result ≡ ctl_move self.now.machine (reverse self.now.entries) }
    {
        self.wire.next_effect()
    }

    /// What the take of the open transaction carries. The outer `None` exactly where none is open or not all its
    /// moves are made.
    pub fn taking(&self) -> Option<Option<u8>>
        ensures { result ≡ values.taking self.now.machine (reverse self.now.entries) }
    {
        self.wire.taking()
    }

    /// Whether the controller is in burst mode (ACPI 6.5, section 12.3.3).
    pub(super) fn is_burst(&self) -> bool
        ensures { result ≡ wire.burst (reverse self.now.entries) }
    {
        self.wire.is_burst()
    }

    pub(super) fn is_open(&self) -> bool
        ensures { result ≡ is_some (wire.open_of (reverse self.now.entries)) }
    {
        self.requester().is_some()
    }

    /// Whether the interrupt handler has claimed the controller's event since its last step.
    pub fn due(&self) -> bool
        ensures { result ≡ wire.due self.now.machine (reverse self.now.entries) }
    {
        self.wire.is_due()
    }

    /// The number of the next job to start; `None` exactly where none waits.
    pub fn waiting(&self) -> Option<u32>
        ensures { result ≡ waiting self.now.machine (reverse self.now.entries) }
    {
        self.jobs.next_start()
    }

    /// The job that a worker runs.
    pub fn running(&self, worker: u8) -> Option<u32>
        ensures { result ≡ jobs.running (reverse self.now.entries) (Actor.Worker worker) }
    {
        self.words(Actor::Worker(worker)).running
    }

    /// Whether nothing is left open: no event is pending, no query code waits, every job was started and finished, no
    /// transaction is open, and nobody owns the Global Lock or competes for it.
    pub fn rest(&self) -> bool
        ensures { IsTrue result ↔ Rest self.now.machine (reverse self.now.entries) }
    {
        let events = self.is_quiet();
        let codes = self.no_code_waits();
        let quiet = both(events, codes);
        let jobs = both(self.all_started(), self.none_runs());
        let lock = both(self.is_closed(), self.is_free());
        let work = both(quiet, jobs);
        both(work, lock)
    }

    fn is_quiet(&self) -> bool
        ensures { IsTrue result ↔ ((n : Event) → events.pending self.now.machine (reverse self.now.entries) n ≡ false) }
    {
        self.pending().is_none()
    }

    fn no_code_waits(&self) -> bool
        ensures { IsTrue result ↔ (wire.codes (reverse self.now.entries) ≡ []) }
    {
        self.wire.codes() == 0
    }

    fn is_closed(&self) -> bool
        ensures { IsTrue result ↔ (wire.open_of (reverse self.now.entries) ≡ None) }
    {
        self.requester().is_none()
    }

    fn all_started(&self) -> bool
        ensures { IsTrue result ↔ (jobs.starts (reverse self.now.entries)
            ≡ length (jobs.jobs self.now.machine (reverse self.now.entries))) }
    {
        self.jobs.starts as usize == self.jobs.made.len()
    }

    fn none_runs(&self) -> bool
        ensures { IsTrue result ↔ ((a : Actor) → jobs.running (reverse self.now.entries) a ≡ None) }
    {
        self.machine.law_rules();
        self.law_legal();
        all_none(
            self.running(0),
            self.running(1),
            self.running(2),
            self.running(3),
        )
    }

    /// Nobody owns the Global Lock, and nobody competes for it.
    fn is_free(&self) -> bool
        ensures { IsTrue result ↔ IsFree (reverse self.now.entries) }
    {
        self.lock.owner.is_none()
            && self.lock.os_seeker.is_none()
            && self.lock.firmware_seeker.is_none()
    }
}

fn both(one: bool, other: bool) -> bool
    ensures { result ≡ (one && other) }
{
    one && other
}

fn all_none(one: Option<u32>, two: Option<u32>, three: Option<u32>, four: Option<u32>) -> bool
    ensures { IsTrue result ↔ ((one ≡ None) × (two ≡ None) × (three ≡ None) × (four ≡ None)) }
{
    one.is_none() && two.is_none() && three.is_none() && four.is_none()
}
