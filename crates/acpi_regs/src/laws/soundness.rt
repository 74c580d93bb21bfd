//! Laws of the core that actors share: every atomic step of every actor, in any order, keeps the lock's word and its
//! signals in agreement with the entries and the phases (ACPI 6.5, section 5.2.10.1), and loses no pulse.
//!
//! They need entries, phases, pulse lists and the word only. `IsTurn` is what they require of the entries of a turn.
ghost use Rattle.std.specs.Prelude.{◌≡◌, ◌≤◌, ◌+◌, ◌==◌, Bool, true, false, List, ℕ};
ghost use Rattle.acpi_regs.specs.declared.actor.Actor.{Actor};
ghost use Rattle.acpi_regs.specs.declared.entry.Deed.{Deed};
ghost use Rattle.acpi_regs.specs.declared.entry.Entry.{Entry};
ghost use Rattle.acpi_regs.specs.declared.event.Event.{Event};
ghost use Rattle.acpi_regs.specs.declared.phase.LockPhase.{LockPhase};
ghost use Rattle.acpi_regs.specs.Core.{Core, first_core};
ghost use Rattle.acpi_regs.specs.CoreEvents.{CoreEvent, InRange, IsKnown, IsTurn, LatchesFirst, MayHappen, happens, one, past_in, turned};
ghost use Rattle.acpi_regs.specs.CoreSound.{AreOfKind, CoreSound, LockSound, PinsSound, hands, holds, latches, listed_pulses, lock_phases};
ghost use Rattle.acpi_regs.specs.Phases.{Phase};

/// The first core is sound, and each event that may happen leads from a sound core to a sound one. A pulse only
/// requires of the lists that its own event exists, and a turn requires nothing of other actors.
pub fn law_kept()
    ensures first { (lists : List (List Event)) → CoreSound lists first_core }
    ensures step { (lists : List (List Event)) (c : Core) (e : CoreEvent)
        → InRange lists → CoreSound lists c → MayHappen lists c e → CoreSound lists (happens lists c e) }
    ensures known { (lists : List (List Event)) (c : Core) (e : CoreEvent)
        → IsKnown lists c e → CoreSound lists c → MayHappen lists c e → CoreSound lists (happens lists c e) }
    ensures turn { (lists : List (List Event)) (c : Core) (a : Actor) (deeds : List Deed)
        → CoreSound lists c → IsTurn (c.phases a) (past_in c) a deeds → CoreSound lists (turned c a deeds) }
{}

/// The parts of a sound core, each kept by itself: the kinds of phases, the lock, and pins with hands.
pub fn law_parts_kept()
    ensures kinds { (lists : List (List Event)) (c : Core) (e : CoreEvent)
        → AreOfKind c.phases → MayHappen lists c e → AreOfKind (happens lists c e).phases }
    ensures lock { (lists : List (List Event)) (c : Core) (e : CoreEvent)
        → AreOfKind c.phases → LockSound c.word (past_in c) (lock_phases c.phases) → MayHappen lists c e
        → LockSound (happens lists c e).word (past_in (happens lists c e)) (lock_phases (happens lists c e).phases) }
    ensures pins { (lists : List (List Event)) (c : Core) (e : CoreEvent)
        → InRange lists → PinsSound lists c.pins (past_in c) c.phases → MayHappen lists c e
        → PinsSound lists (happens lists c e).pins (past_in (happens lists c e)) (happens lists c e).phases }
{}

/// At most one actor holds the word: none if it is free, and one if it is owned.
pub fn law_one_holds()
    ensures one { (word : ℕ) (past : List Entry) (phases : Actor → LockPhase) (a b : Actor)
        → LockSound word past phases → holds (phases a) ≡ true → holds (phases b) ≡ true → a ≡ b }
    ensures none { (past : List Entry) (phases : Actor → LockPhase) (a : Actor)
        → LockSound 0 past phases → holds (phases a) ≡ true → ⊥ }
    ensures some { (word : ℕ) (past : List Entry) (phases : Actor → LockPhase)
        → LockSound word past phases → (word == 0) ≡ false → (a : Actor) × (holds (phases a) ≡ true) }
{}

/// The latches of an event, plus 1 if its pin is set, plus the hands that it is in, are at most its pulses in the
/// devices' lists.
pub fn law_latches()
    ensures { (lists : List (List Event)) (pins : Event → Bool) (past : List Entry) (phases : Actor → Phase) (n : Event)
        → PinsSound lists pins past phases
        → latches n past + (one (pins n) + hands phases n) ≤ listed_pulses lists n }
{}
