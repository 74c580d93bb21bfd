//! Laws of the types and definitions of this crate: facts for the proofs of the crates above, which cost nothing to
//! call.
ghost use Rattle.acpi_regs.specs.Actor.{OrdersByKind, same_actor};
ghost use Rattle.acpi_regs.specs.Comparisons.{IsExact, OrdersBy};
ghost use Rattle.acpi_regs.specs.Event.{event_rank, fixed_rank, same_event};
ghost use Rattle.acpi_regs.specs.Names.{SpellsNames};
ghost use Rattle.acpi_regs.specs.Places.{EndsBlocks, EndsTight, FillsPlaces, PlacesEvents};
ghost use Rattle.acpi_regs.specs.contracts.actor.SidePartialEq.TheImpl as side_eq;
ghost use Rattle.acpi_regs.specs.contracts.actor.ActorPartialEq.TheImpl as actor_eq;
ghost use Rattle.acpi_regs.specs.contracts.event.FixedPartialEq.TheImpl as fixed_eq;
ghost use Rattle.acpi_regs.specs.contracts.event.EventPartialEq.TheImpl as event_eq;
ghost use Rattle.acpi_regs.specs.contracts.event.ListedPartialEq.TheImpl as listed_eq;
ghost use Rattle.acpi_regs.specs.contracts.entry.CellPartialEq.TheImpl as cell_eq;
ghost use Rattle.acpi_regs.specs.contracts.entry.RequestPartialEq.TheImpl as request_eq;
ghost use Rattle.acpi_regs.specs.contracts.entry.HostMovePartialEq.TheImpl as host_move_eq;
ghost use Rattle.acpi_regs.specs.contracts.entry.EffectPartialEq.TheImpl as effect_eq;
ghost use Rattle.acpi_regs.specs.contracts.entry.DeedPartialEq.TheImpl as deed_eq;
ghost use Rattle.acpi_regs.specs.contracts.entry.EntryPartialEq.TheImpl as entry_eq;
ghost use Rattle.acpi_regs.specs.contracts.geometry.GeometryFieldPartialEq.TheImpl as geometry_field_eq;
ghost use Rattle.acpi_regs.specs.contracts.geometry.BadGeometryPartialEq.TheImpl as bad_geometry_eq;
ghost use Rattle.acpi_regs.specs.contracts.geometry.GpePlacePartialEq.TheImpl as gpe_place_eq;
ghost use Rattle.acpi_regs.specs.contracts.name.MethodNamePartialEq.TheImpl as method_name_eq;
ghost use Rattle.acpi_regs.specs.contracts.name.NotANamePartialEq.TheImpl as not_a_name_eq;
ghost use Rattle.acpi_regs.specs.contracts.memory.MemoryPartialEq.TheImpl as memory_eq;
ghost use Rattle.acpi_regs.specs.contracts.phase.LockPhasePartialEq.TheImpl as lock_phase_eq;
ghost use Rattle.acpi_regs.specs.contracts.phase.PulsePartialEq.TheImpl as pulse_eq;
ghost use Rattle.acpi_regs.specs.contracts.flags.Pm1BitsPartialEq.TheImpl as pm1_bits_eq;
ghost use Rattle.acpi_regs.specs.contracts.flags.EcStatusPartialEq.TheImpl as ec_status_eq;
ghost use Rattle.acpi_regs.specs.contracts.event.FixedOrd.TheImpl as fixed_ord;
ghost use Rattle.acpi_regs.specs.contracts.event.EventOrd.TheImpl as event_ord;
ghost use Rattle.acpi_regs.specs.contracts.actor.ActorOrd.TheImpl as actor_ord;

pub mod packing;
pub mod soundness;

use crate::{
    Actor, BadGeometry, Cell, Deed, EcStatus, Effect, Entry, Event, Fixed, GeometryField, GpePlace,
    HostMove, Listed, LockPhase, Memory, MethodName, NotAName, Pm1Bits, Pulse, Request, Side,
};

/// `==` holds between two values exactly if they are the same.
pub fn law_equality()
    ensures side { IsExact Side (side_eq.ghosts).eq }
    ensures actor { IsExact Actor (actor_eq.ghosts).eq }
    ensures fixed { IsExact Fixed (fixed_eq.ghosts).eq }
    ensures event { IsExact Event (event_eq.ghosts).eq }
    ensures listed { IsExact Listed (listed_eq.ghosts).eq }
    ensures cell { IsExact Cell (cell_eq.ghosts).eq }
    ensures request { IsExact Request (request_eq.ghosts).eq }
    ensures host_move { IsExact HostMove (host_move_eq.ghosts).eq }
    ensures effect { IsExact Effect (effect_eq.ghosts).eq }
    ensures deed { IsExact Deed (deed_eq.ghosts).eq }
    ensures entry { IsExact Entry (entry_eq.ghosts).eq }
    ensures geometry_field { IsExact GeometryField (geometry_field_eq.ghosts).eq }
    ensures bad_geometry { IsExact BadGeometry (bad_geometry_eq.ghosts).eq }
    ensures gpe_place { IsExact GpePlace (gpe_place_eq.ghosts).eq }
    ensures method_name { IsExact MethodName (method_name_eq.ghosts).eq }
    ensures not_a_name { IsExact NotAName (not_a_name_eq.ghosts).eq }
    ensures memory { IsExact Memory (memory_eq.ghosts).eq }
    ensures pm1_bits { IsExact Pm1Bits (pm1_bits_eq.ghosts).eq }
    ensures lock_phase { IsExact LockPhase (lock_phase_eq.ghosts).eq }
    ensures pulse { IsExact Pulse (pulse_eq.ghosts).eq }
    ensures ec_status { IsExact EcStatus (ec_status_eq.ghosts).eq }
{}

/// `same_event` and `same_actor`, by which definitions compare, hold exactly if the two values are the same.
pub fn law_same()
    ensures event { IsExact Event same_event }
    ensures actor { IsExact Actor same_actor }
{}

/// Fixed events come first, in ascending order of their PM1 bits, then GPEs by number. Actors are ordered by kind, as
/// [`Actor`] lists them, then by number.
pub fn law_order()
    ensures fixed { OrdersBy Fixed fixed_rank (fixed_ord.ghosts).cmp }
    ensures event { OrdersBy Event event_rank (event_ord.ghosts).cmp }
    ensures actor { OrdersByKind (actor_ord.ghosts).cmp }
{}

/// A text is read as a name exactly if it is that name's spelling. So no two names have the same spelling, and a
/// spelled name is parsed as itself.
pub fn law_names()
    ensures { SpellsNames }
{}

/// The place of a GPE is a bit of its block's status register, the event at that place is the GPE, and each such bit
/// has its GPE. A GPE at or after the end of the blocks has no place, and the one before the end has one.
pub fn law_places()
    ensures events { PlacesEvents }
    ensures fills { FillsPlaces }
    ensures ends { EndsBlocks }
    ensures tight { EndsTight }
{}
