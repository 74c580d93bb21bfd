//! Laws over the definitions of `machine_history`, each for every machine and history: what the literal sentences on
//! histories are, and that the definitions, which look at the newest entry first, mean them. A law is a function with
//! nothing to do, whose contract says it.
ghost use Rattle.std.specs.Prelude.{◌≡◌, false, List, reverse, None};
ghost use Rattle.acpi_regs.specs.declared.actor.Actor.{Actor};
ghost use Rattle.acpi_regs.specs.declared.actor.Side.{Side};
ghost use Rattle.acpi_regs.specs.declared.entry.Cell.{Cell};
ghost use Rattle.acpi_regs.specs.declared.entry.Entry.{Entry};
ghost use Rattle.acpi_regs.specs.Event.{gbl};
ghost use Rattle.acpi_regs.specs.Lock.{gbl_status, has_disowned, has_owned, is_busy, owner, seeker, wake};
ghost use Rattle.acpi_regs.specs.declared.event.Event.{Event};
ghost use Rattle.machine_desc.specs.Kept.{IsMachine};
ghost use Rattle.machine_desc.specs.Machine.{MachineData};
ghost use Rattle.machine_history.specs.Cells.{first_byte};
ghost use Rattle.machine_history.specs.Complete.{Complete};
ghost use Rattle.machine_history.specs.Events.{held, line, status};
ghost use Rattle.machine_history.specs.Jobs.{running};
ghost use Rattle.machine_history.specs.Last.{IsLast, burst_set, busy_set, disowned_set, due_set, gbl_set, held_set, line_set, opener_in, opener_set, owned_set, owner_set, running_set, seeker_set, status_set, told, value_set, wake_set};
ghost use Rattle.machine_history.specs.Legal.{Legal};
ghost use Rattle.history_laws.specs.Once.{IsFirstLeft, JobsOnce, ScriptsOnce};
ghost use Rattle.machine_history.specs.Sentences.{ClaimsConsume, CodesInOrder, JobsDone, JobsInOrder, LatchesFromPulses, ParksAfterSixteen, RunsAsGiven};
ghost use Rattle.machine_history.specs.Values.{value};
ghost use Rattle.machine_history.specs.Wire.{burst, due, open_of};

/// The last own or disown makes the owner of the Global Lock, the last seek or leave of a side its seeker. What an
/// actor has done since its seek is told by the last of its own entries that say so, and the wake of a side by the
/// last entry that sets or clears it.
pub fn law_lock_last()
    ensures owner { (history : List Entry) → IsLast (told owner_set) None history (owner (reverse history)) }
    ensures seeker { (s : Side) (history : List Entry)
        → IsLast (told (seeker_set s)) None history (seeker s (reverse history)) }
    ensures owned { (a : Actor) (history : List Entry)
        → IsLast (told (owned_set a)) false history (has_owned a (reverse history)) }
    ensures disowned { (a : Actor) (history : List Entry)
        → IsLast (told (disowned_set a)) false history (has_disowned a (reverse history)) }
    ensures busy { (a : Actor) (history : List Entry)
        → IsLast (told (busy_set a)) false history (is_busy a (reverse history)) }
    ensures wake { (s : Side) (history : List Entry)
        → IsLast (told (wake_set s)) false history (wake s (reverse history)) }
    ensures gbl { (history : List Entry) → IsLast (told gbl_set) false history (gbl_status (reverse history)) }
{}

/// What the lock's definitions tell of the Global Lock's event is the status of that event.
pub fn law_gbl_status()
    ensures { (m : MachineData) (history : List Entry) → IsMachine m
        → gbl_status (reverse history) ≡ status m (reverse history) gbl }
{}

/// The line of an event is asserted where the last assert or drop of it is an assert. A listed event is held from its
/// last claim to the finish of a job that a claim of it made. Its status is what the last entry made of it that sets
/// or clears it.
pub fn law_events_last()
    ensures line { (m : MachineData) (n : Event) (history : List Entry)
        → IsLast (told (line_set n)) false history (line m (reverse history) n) }
    ensures held { (m : MachineData) (n : Event) (history : List Entry)
        → IsLast (held_set m n) false history (held m (reverse history) n) }
    ensures status { (m : MachineData) (n : Event) (history : List Entry)
        → IsLast (status_set m n) false history (status m (reverse history) n) }
{}

/// A worker runs the job that the last of its own starts and finishes started.
pub fn law_running_last()
    ensures { (a : Actor) (history : List Entry)
        → IsLast (told (running_set a)) None history (running (reverse history) a) }
{}

/// The transaction that is open is that of the last begin, unless a take came since. Burst mode is on where the last
/// Out of burst enable, Taken of burst disable or Calm is an Out of burst enable. It is the interrupt handler's turn
/// where the last of its claims of the controller's event and its steps is a claim.
pub fn law_wire_last()
    ensures opener { (history : List Entry)
        → IsLast (told opener_set) None history (opener_in (open_of (reverse history))) }
    ensures burst { (history : List Entry) → IsLast burst_set false history (burst (reverse history)) }
    ensures due { (m : MachineData) (history : List Entry)
        → IsLast (told (due_set m)) false history (due m (reverse history)) }
{}

/// The value of a cell is the byte of the last write to it, by whichever actor and also through the controller, else
/// the description's.
pub fn law_value_last()
    ensures { (m : MachineData) (c : Cell) (history : List Entry)
        → IsLast (value_set m c) (first_byte m c) history (value m (reverse history) c) }
{}

/// An event is parked exactly where it is level, its last sixteen finishes came with its line asserted, and no assert
/// or drop of it stands among or after them.
pub fn law_parked()
    ensures { (m : MachineData) (n : Event) (history : List Entry) → ParksAfterSixteen m (reverse history) n }
{}

/// In a legal history no event has more latches than the device lists have pulses of it.
pub fn law_latches()
    ensures { (m : MachineData) (history : List Entry) → Legal m history → LatchesFromPulses m history }
{}

/// In a legal history each claim is of an event that has status and is enabled, and between it and the claim of that
/// event before it stands an entry that set its status: a finish under an asserted line is such an entry.
pub fn law_claims_consume()
    ensures { (m : MachineData) (history : List Entry) → Legal m history → ClaimsConsume m history }
{}

/// In a legal history the k-th start is `start k`, of a job that was made. A job is started at most once, and
/// finished no more often than it was started. In a complete history each job that was made was started and finished
/// once.
pub fn law_jobs_in_order()
    ensures legal { (m : MachineData) (history : List Entry) → Legal m history → JobsInOrder m history }
    ensures complete { (m : MachineData) (history : List Entry) → Complete m history → JobsDone m history }
{}

/// In a legal history of a machine the codes that were pushed are those that were given, and behind them those that
/// wait. In every legal history the k-th code that was given is that of the k-th run of a handler, but for the one
/// that an open query has put out.
pub fn law_codes_in_order()
    ensures pushed { (m : MachineData) (history : List Entry) → IsMachine m → Legal m history → CodesInOrder history }
    ensures runs { (m : MachineData) (history : List Entry) → Legal m history → RunsAsGiven m (reverse history) }
{}

/// In a legal history the next act of an actor is the first act of what it began that its entries have not passed.
pub fn law_next_act()
    ensures { (m : MachineData) (history : List Entry) (a : Actor) → Legal m history
        → IsFirstLeft m (reverse history) a }
{}

/// In a complete history each firmware script made its acts, each once and in its order. In a legal history so did
/// each job that was finished.
pub fn law_scripts_once()
    ensures firmware { (m : MachineData) (history : List Entry) → Complete m history → ScriptsOnce m history }
    ensures jobs { (m : MachineData) (history : List Entry) → Legal m history → JobsOnce m history }
{}
