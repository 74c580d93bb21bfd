//! Laws over the definitions of a core and of histories, each for every machine. A law is a function with nothing to
//! do, whose contract says it.
ghost use Rattle.std.specs.Prelude.{◌≡◌, ◌<◌, ◌≤◌, ◌⊎◌, true, List, length, map, reverse, Some};
ghost use Rattle.acpi_regs.specs.declared.actor.Actor.{Actor};
ghost use Rattle.acpi_regs.specs.declared.entry.Deed.TheVariants as deed;
ghost use Rattle.acpi_regs.specs.declared.entry.Entry.{Entry};
ghost use Rattle.acpi_regs.specs.declared.event.Event.{Event};
ghost use Rattle.acpi_regs.specs.Core.{Core, events_of, first_core};
ghost use Rattle.acpi_regs.specs.CoreEvents.{CoreEvent, is_host};
ghost use Rattle.machine_desc.specs.Actors.{actors_of};
ghost use Rattle.machine_desc.specs.Kept.{IsMachine, counts_in};
ghost use Rattle.machine_desc.specs.Machine.{MachineData};
ghost use Rattle.machine_desc.specs.Rules.{has_actor};
ghost use Rattle.machine_desc.specs.Weight.{weight_of};
ghost use Rattle.machine_history.specs.Events.{latches};
ghost use Rattle.machine_history.specs.Exclusion.{AccessesByOwner, DisownsBetween};
ghost use Rattle.machine_history.specs.Legal.{Legal};
ghost use Rattle.machine_history.specs.Machine.{pulses_of};
ghost use Rattle.machine_history.specs.Complete.{Complete};
ghost use Rattle.machine_history.specs.Played.{IsQuiet, Played, Settles, steps, stepped};
ghost use Rattle.machine_history.specs.Steps.{gives};
ghost use Rattle.machine_history.specs.Wire.{given};
ghost use Rattle.core_laws.specs.Adds.{EveryOp, SumsAdds, is_no_skip};
ghost use Rattle.core_laws.specs.Codes.{IsFront, started_codes};
ghost use Rattle.core_laws.specs.CoreSteps.{AllHappen, EachLegal, MayHappen, after, happens};
ghost use Rattle.core_laws.specs.Gives.{IsEvents, NobodyHolds};
ghost use Rattle.core_laws.specs.Rounds.{to_come};
ghost use Rattle.core_laws.specs.Said.{SoundAsSaid, holds_word};
ghost use Rattle.core_laws.specs.Sound.{Sound};
ghost use Rattle.core_laws.specs.Stuck.{IsStuck};
ghost use Rattle.core_laws.specs.Upgrade.{SameComplete, SameGives, SameLegal, SamePlayed, SameRefusal, SameStuck, SameWeight, UpgradesOnce};

/// The first core of a machine is sound, and each event that may happen leads from a sound core to a sound one. So
/// does every list of events, of any actors in any order. A core is sound exactly where the sentences on its history,
/// its phases, its lock and its pulses hold.
pub fn law_sound()
    ensures first { (m : MachineData) → Sound m first_core }
    ensures step { (m : MachineData) (c : Core) (e : CoreEvent) → IsMachine m → Sound m c → MayHappen m c e
        → Sound m (happens m c e) }
    ensures all { (m : MachineData) (c : Core) (events : List CoreEvent) → IsMachine m → Sound m c
        → AllHappen m c events → Sound m (after m c events) }
    ensures said { (m : MachineData) (c : Core) → Sound m c → SoundAsSaid m c }
    ensures unsaid { (m : MachineData) (c : Core) → IsMachine m → SoundAsSaid m c → Sound m c }
{}

/// What one step of an actor does to a core is a list of events of that core, and nobody holds the turn between two
/// steps. So a sound core stays sound under a step, a schedule and rounds.
pub fn law_gives()
    ensures events { (m : MachineData) (c : Core) (a : Actor) (d : Core) → Sound m c → NobodyHolds c
        → gives m c a ≡ Some d → IsEvents m c a d × NobodyHolds d }
    ensures step { (m : MachineData) (c : Core) (a : Actor) (d : Core) → IsMachine m → Sound m c → NobodyHolds c
        → gives m c a ≡ Some d → Sound m d × NobodyHolds d }
    ensures stepped { (m : MachineData) (c : Core) (a : Actor) → IsMachine m → Sound m c → NobodyHolds c
        → Sound m (stepped m c a) × NobodyHolds (stepped m c a) }
    ensures schedule { (m : MachineData) (names : List Actor) (c : Core) → IsMachine m → Sound m c → NobodyHolds c
        → Sound m (steps m names c) × NobodyHolds (steps m names c) }
    ensures rounds { (m : MachineData) (names : List Actor) (c d : Core) → IsMachine m → Sound m c → NobodyHolds c
        → Settles m names c d → Sound m d × NobodyHolds d }
    ensures first { NobodyHolds first_core }
{}

/// In a sound core at most one actor has won, owns or is about to release the lock. In a legal history each access
/// that needs the lock is made for its owner, and between an own and the next own the actor of the first disowns.
pub fn law_exclusion()
    ensures one { (m : MachineData) (c : Core) (a b : Actor) → Sound m c → holds_word c a → holds_word c b → a ≡ b }
    ensures owner { (m : MachineData) (history : List Entry) → IsMachine m → Legal m history
        → AccessesByOwner m history }
    ensures between { (m : MachineData) → DisownsBetween m }
{}

/// In a legal history the codes of the runs of query handlers that were started, in order of their starts, are a
/// front of the codes that were given.
pub fn law_codes()
    ensures { (m : MachineData) (history : List Entry) → Legal m history
        → IsFront (started_codes m (reverse history)) (given (reverse history)) }
{}

/// In a sound core each event whose pin is set has fewer latches so far than pulses in the device lists: so the
/// entries of a sweep, a latch of each in order, are all allowed.
pub fn law_latches()
    ensures fewer { (m : MachineData) (c : Core) (n : Event) → Sound m c → c.pins n ≡ true
        → latches (reverse c.history) n < pulses_of m n }
    ensures sweep { (m : MachineData) (c : Core) (a : Actor) → Sound m c → is_host a ≡ true
        → EachLegal m (reverse c.history) a (map deed.Latch (events_of c.pins)) }
{}

/// Nothing deadlocks: a sound core of a machine in which no actor has a step has a complete history. So what rounds
/// settle on from a sound core is complete, and so is each history that a machine plays.
pub fn law_no_deadlock()
    ensures stuck { (m : MachineData) (c : Core) → IsMachine m → Sound m c → IsStuck m c → Complete m c.history }
    ensures settled { (m : MachineData) (c d : Core) → IsMachine m → Sound m c → NobodyHolds c
        → Settles m (actors_of m) c d → Complete m d.history }
    ensures played { (m : MachineData) (history : List Entry) → IsMachine m → Played m history → Complete m history }
{}

/// Every legal history of a machine, and so that of a sound core, has at most as many entries as the machine's weight.
pub fn law_weight()
    ensures legal { (m : MachineData) (history : List Entry) → IsMachine m → Legal m history
        → length history ≤ weight_of m }
    ensures sound { (m : MachineData) (c : Core) → IsMachine m → Sound m c → length c.history ≤ weight_of m }
{}

/// Each step of an actor lessens what is to come: two for each entry that the weight leaves room for, and one for
/// each attempt, release and pulse that is owed. So a round either finds nobody with a step or lessens it, rounds
/// settle after at most that many, and what they settle on is one core.
pub fn law_rounds()
    ensures step { (m : MachineData) (c d : Core) (a : Actor) → IsMachine m → Sound m c → NobodyHolds c
        → has_actor (counts_in m) a ≡ true → gives m c a ≡ Some d → to_come m d < to_come m c }
    ensures round { (m : MachineData) (c : Core) → IsMachine m → Sound m c → NobodyHolds c
        → IsQuiet m (actors_of m) c ⊎ (to_come m (steps m (actors_of m) c) < to_come m c) }
    ensures settles { (m : MachineData) (c : Core) → IsMachine m → Sound m c → NobodyHolds c
        → (d : Core) × (s : Settles m (actors_of m) c d) × (s.0 ≤ to_come m c) }
    ensures once { (m : MachineData) (names : List Actor) (c d e : Core) → Settles m names c d → Settles m names c e
        → d ≡ e }
{}

/// In a complete history of a machine whose scripts have no skips, a cell of memory ends as its first byte and all
/// that was added to it, modulo 256, where one field alone touches it, which is the cell's eight bits and under the
/// Global Lock, and where operations do nothing to that field but add. What was added is what the firmware's scripts
/// add, and what the script of a job adds, as often as such a job was started. So no order of the actors' steps
/// changes it.
pub fn law_adds()
    ensures { (m : MachineData) (history : List Entry) → IsMachine m → EveryOp is_no_skip m → Complete m history
        → SumsAdds m history }
{}

/// The upgrade of a machine to version 2 changes no history and no weight: the same entries are allowed, an actor's
/// step does the same, and what is legal, complete or played for a machine is so for its upgrade, and the other way
/// round. The same events are parked at the end, so the log of a complete history differs in its machine line alone.
/// A machine of version 2 is its own upgrade.
pub fn law_upgrade()
    ensures refusal { SameRefusal }
    ensures gives { SameGives }
    ensures legal { SameLegal }
    ensures complete { SameComplete }
    ensures played { SamePlayed }
    ensures stuck { SameStuck }
    ensures weight { SameWeight }
    ensures once { UpgradesOnce }
{}
