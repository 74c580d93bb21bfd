//! Writes an entry as a word of 64 bits. What each function computes is the definition of the same name in
//! `specs/Packing.antt`.
ghost use Rattle.std.specs.Prelude.{◌≡◌, ◌<◌, ◌^◌};
ghost use Rattle.acpi_regs.specs.Packing as word;

use crate::{Actor, Cell, Deed, Effect, Entry, Event, Fixed, HostMove, Request};

fn actor_code(actor: Actor) -> u64
    requires { word.IsSeat actor }
    ensures code { result ≡ word.actor_code actor }
    ensures small { result < 256 }
{
    match actor {
        Actor::Int => 0,
        Actor::Poll => 1,
        Actor::Worker(number) => 2 + u64::from(number),
        Actor::Ec => 6,
        Actor::Device(number) => 7 + u64::from(number),
        Actor::Firmware(number) => 15 + u64::from(number),
    }
}

fn deed_code(deed: Deed) -> u64
    ensures code { result ≡ word.deed_code deed }
    ensures small { result < 23 }
{
    match deed {
        Deed::Seek => 0,
        Deed::Busy => 1,
        Deed::Woken => 2,
        Deed::Own => 3,
        Deed::Disown => 4,
        Deed::Leave(_) => 5,
        Deed::Read(_, _) => 6,
        Deed::Write(_, _) => 7,
        Deed::Begin(_) => 8,
        Deed::Step(_) => 9,
        Deed::Ctl(_) => 10,
        Deed::Take(_) => 11,
        Deed::Push(_) => 12,
        Deed::Raise(_) => 13,
        Deed::Latch(_) => 14,
        Deed::Assert(_) => 15,
        Deed::Drop(_) => 16,
        Deed::Claim(_) => 17,
        Deed::Start(_) => 18,
        Deed::Finish(_) => 19,
        Deed::Notify(_, _) => 20,
        Deed::Up(_) => 21,
        Deed::Down(_) => 22,
    }
}

fn cell_code(cell: Cell, value: u8) -> u64
    ensures code { result ≡ word.cell_code cell value }
    ensures small { result < 2 ^ 32 }
    ensures typed { word.IsAt cell value }
{
    u64::from(cell.region) + 256 * u64::from(cell.offset) + 16777216 * u64::from(value)
}

fn request_code(request: Request) -> u64
    ensures code { result ≡ word.request_code request }
    ensures small { result < 2 ^ 32 }
    ensures typed { word.IsAsked request }
{
    match request {
        Request::Rd(address) => 256 * u64::from(address),
        Request::Wr(address, value) => 1 + 256 * u64::from(address) + 65536 * u64::from(value),
        Request::Be => 2,
        Request::Bd => 3,
        Request::Qr => 4,
    }
}

fn move_code(made: HostMove) -> u64
    ensures code { result ≡ word.move_code made }
    ensures small { result < 2 ^ 32 }
    ensures typed { word.IsMove made }
{
    match made {
        HostMove::Sc(byte) => 256 * u64::from(byte),
        HostMove::Data(byte) => 1 + 256 * u64::from(byte),
        HostMove::Get(byte) => 2 + 256 * u64::from(byte),
    }
}

fn effect_code(effect: Effect) -> u64
    ensures code { result ≡ word.effect_code effect }
    ensures small { result < 2 ^ 32 }
    ensures typed { word.IsEffect effect }
{
    match effect {
        Effect::Taken => 0,
        Effect::Out(byte) => 1 + 256 * u64::from(byte),
        Effect::Put => 2,
        Effect::Calm => 3,
    }
}

fn carried_code(carried: Option<u8>) -> u64
    ensures code { result ≡ word.carried_code carried }
    ensures small { result < 2 ^ 32 }
    ensures typed { word.IsCarried carried }
{
    match carried {
        None => 0,
        Some(byte) => 1 + 256 * u64::from(byte),
    }
}

fn event_code(event: Event) -> u64
    ensures code { result ≡ word.event_code event }
    ensures small { result < 2 ^ 32 }
    ensures typed { word.IsNumbered event }
{
    match event {
        Event::Gpe(number) => u64::from(number),
        Event::Fixed(Fixed::Tmr) => 256,
        Event::Fixed(Fixed::Gbl) => 257,
        Event::Fixed(Fixed::Pwr) => 258,
        Event::Fixed(Fixed::Slp) => 259,
        Event::Fixed(Fixed::Rtc) => 260,
    }
}

fn payload(deed: Deed) -> u64
    ensures code { result ≡ word.payload deed }
    ensures small { result < 2 ^ 32 }
    ensures typed { word.IsDeed deed }
{
    match deed {
        Deed::Seek => 0,
        Deed::Busy => 0,
        Deed::Woken => 0,
        Deed::Own => 0,
        Deed::Disown => 0,
        Deed::Leave(signalled) => u64::from(signalled),
        Deed::Read(cell, value) => cell_code(cell, value),
        Deed::Write(cell, value) => cell_code(cell, value),
        Deed::Begin(request) => request_code(request),
        Deed::Step(made) => move_code(made),
        Deed::Ctl(effect) => effect_code(effect),
        Deed::Take(carried) => carried_code(carried),
        Deed::Push(code) => u64::from(code),
        Deed::Raise(event) => event_code(event),
        Deed::Latch(event) => event_code(event),
        Deed::Assert(event) => event_code(event),
        Deed::Drop(event) => event_code(event),
        Deed::Claim(event) => event_code(event),
        Deed::Start(job) => u64::from(job),
        Deed::Finish(job) => u64::from(job),
        Deed::Notify(device, value) => u64::from(device) + 256 * u64::from(value),
        Deed::Up(event) => event_code(event),
        Deed::Down(event) => event_code(event),
    }
}

impl Entry {
    /// The entry in one word. Bits 0 to 7 hold the actor, bits 8 to 15 the deed's place in [`Deed`], and bits 16 to 47
    /// what the deed carries. Requires a worker below 4, a device below 8 and a firmware thread below 8.
    pub fn pack(&self) -> u64
        requires { word.IsSeat self.now.actor }
        ensures word { result ≡ word.packing self.now }
        ensures typed { word.IsDeed self.now.deed }
    {
        actor_code(self.actor) + 256 * deed_code(self.deed) + 65536 * payload(self.deed)
    }
}
