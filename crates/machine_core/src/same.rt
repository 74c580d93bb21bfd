//! Whether two values are one, in the words in which the definitions ask it.
ghost use Rattle.std.specs.Prelude.{◌≡◌, Some, if◌then◌else◌};
ghost use Rattle.acpi_regs.specs.Actor as actors;
ghost use Rattle.acpi_regs.specs.Event as events;
ghost use Rattle.acpi_regs.specs.Lock as lock;
ghost use Rattle.machine_core.specs.Board.{is_next_effect, is_next_host};
ghost use Rattle.machine_history.specs.Legal as legal;
ghost use Rattle.machine_history.specs.Machine as machines;
ghost use Rattle.machine_history.specs.Values as values;

use acpi_regs::{Actor, Cell, Deed, Effect, Event, HostMove, Request};
use handler_script::Act;

/// Whether the two are one event.
pub fn same_event(one: Event, other: Event) -> bool
    ensures { result ≡ events.same_event one other }
{
    one == other
}

/// Whether the two are one actor.
pub fn same_actor(one: Actor, other: Actor) -> bool
    ensures { result ≡ actors.same_actor one other }
{
    one == other
}

/// Whether the event is this one.
pub fn names(named: Option<Event>, event: Event) -> bool
    ensures { result ≡ machines.names named event }
{
    match named {
        Some(named) => same_event(named, event),
        None => false,
    }
}

/// Whether the actor is this one.
pub fn is_someone(actor: Actor, someone: Option<Actor>) -> bool
    ensures { result ≡ lock.is_someone actor someone }
{
    match someone {
        Some(someone) => same_actor(actor, someone),
        None => false,
    }
}

fn same_cell(one: Cell, other: Cell) -> bool
    ensures { result ≡ values.same_cell one other }
{
    one.region == other.region && one.offset == other.offset
}

fn same_request(one: Request, other: Request) -> bool
    ensures { result ≡ legal.same_request one other }
{
    match (one, other) {
        (Request::Rd(x), Request::Rd(y)) => x == y,
        (Request::Wr(x, v), Request::Wr(y, w)) => x == y && v == w,
        (Request::Be, Request::Be) | (Request::Bd, Request::Bd) | (Request::Qr, Request::Qr) =>
            true,
        _ => false,
    }
}

fn same_effect(one: Effect, other: Effect) -> bool
    ensures { result ≡ legal.same_effect one other }
{
    match (one, other) {
        (Effect::Out(v), Effect::Out(w)) => v == w,
        (Effect::Taken, Effect::Taken)
        | (Effect::Put, Effect::Put)
        | (Effect::Calm, Effect::Calm) => true,
        _ => false,
    }
}

fn same_host(one: HostMove, other: HostMove) -> bool
    ensures { result ≡ legal.same_host one other }
{
    match (one, other) {
        (HostMove::Sc(v), HostMove::Sc(w)) => v == w,
        (HostMove::Data(v), HostMove::Data(w)) => v == w,
        (HostMove::Get(v), HostMove::Get(w)) => v == w,
        _ => false,
    }
}

/// Whether the host's next move is this one.
pub fn is_next_host(made: HostMove, next: Option<HostMove>) -> bool
    ensures { result ≡ is_next_host made next }
{
    match next {
        Some(next) => same_host(made, next),
        None => false,
    }
}

/// Whether the controller's next move is this one.
pub fn is_next_effect(made: Effect, next: Option<Effect>) -> bool
    ensures { result ≡ is_next_effect made next }
{
    match next {
        Some(next) => same_effect(made, next),
        None => false,
    }
}

fn same_byte(one: Option<u8>, other: Option<u8>) -> bool
    ensures { result ≡ legal.same_number one other }
{
    match (one, other) {
        (None, None) => true,
        (Some(v), Some(w)) => v == w,
        _ => false,
    }
}

/// Whether a take carries this.
pub fn is_taking(byte: Option<u8>, taking: Option<Option<u8>>) -> bool
    ensures { result ≡ legal.is_taking byte taking }
{
    match taking {
        Some(carried) => same_byte(byte, carried),
        None => false,
    }
}

/// Whether this job is the one that is run.
pub fn is_job(job: u32, running: Option<u32>) -> bool
    ensures { result ≡ legal.same_number (Some job) running }
{
    match running {
        Some(running) => job == running,
        None => false,
    }
}

/// Whether the act asks for this deed.
pub fn asked_by(act: Option<Act>, deed: Deed) -> bool
    ensures { result ≡ legal.asked_by act deed }
{
    match act {
        Some(act) => asked(act, deed),
        None => false,
    }
}

fn asked(act: Act, deed: Deed) -> bool
    ensures { result ≡ legal.asked act deed }
{
    match (act, deed) {
        (Act::Lock, Deed::Seek) => true,
        (Act::Unlock, Deed::Disown) => true,
        (Act::Read(cell), Deed::Read(read, _)) => same_cell(cell, read),
        (Act::Write(cell, byte), Deed::Write(written, with)) => {
            same_cell(cell, written) && byte == with
        }
        (Act::Ask(request), Deed::Begin(begun)) => same_request(request, begun),
        (Act::Notify(device, value), Deed::Notify(told, with)) => device == told && value == with,
        (Act::Drop(event), Deed::Drop(named)) => same_event(event, named),
        (Act::Up(event), Deed::Up(named)) => same_event(event, named),
        (Act::Down(event), Deed::Down(named)) => same_event(event, named),
        (Act::Raise(event), Deed::Raise(named)) => same_event(event, named),
        (Act::Assert(event), Deed::Assert(named)) => same_event(event, named),
        (Act::Push(code), Deed::Push(pushed)) => code == pushed,
        _ => false,
    }
}

/// Whether the deed is a leave, by which an actor ends its episode of the Global Lock.
pub fn is_leave(deed: Deed) -> bool
    ensures { result ≡ legal.is_leave deed }
{
    matches!(deed, Deed::Leave(_))
}

/// Whether the actor is the interrupt handler.
pub fn is_int(actor: Actor) -> bool
    ensures { result ≡ legal.is_int actor }
{
    matches!(actor, Actor::Int)
}

/// Whether the actor is the OS's side of the hardware.
pub fn is_host(actor: Actor) -> bool
    ensures { result ≡ legal.is_host actor }
{
    matches!(actor, Actor::Int | Actor::Poll)
}
