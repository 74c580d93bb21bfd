//! Reads an entry from a word of 64 bits. What each function computes is the definition of the same name in
//! `specs/Unpacking.antt`.
ghost use Rattle.std.specs.Prelude.{◌≡◌};
ghost use Rattle.acpi_regs.specs.Unpacking as at;

use crate::{Actor, Cell, Deed, Effect, Entry, Event, Fixed, HostMove, Request};

fn actor_at(code: u64) -> Option<Actor>
    ensures { result ≡ at.actor_at code }
{
    match code {
        0 => Some(Actor::Int),
        1 => Some(Actor::Poll),
        2..=5 => Some(Actor::Worker((code - 2) as u8)),
        6 => Some(Actor::Ec),
        7..=14 => Some(Actor::Device((code - 7) as u8)),
        15..=22 => Some(Actor::Firmware((code - 15) as u8)),
        _ => None,
    }
}

fn event_in(code: u64) -> Option<Event>
    ensures { result ≡ at.event_in code }
{
    match code {
        0..=255 => Some(Event::Gpe(code as u8)),
        256 => Some(Event::Fixed(Fixed::Tmr)),
        257 => Some(Event::Fixed(Fixed::Gbl)),
        258 => Some(Event::Fixed(Fixed::Pwr)),
        259 => Some(Event::Fixed(Fixed::Slp)),
        260 => Some(Event::Fixed(Fixed::Rtc)),
        _ => None,
    }
}

fn plain_at(deed: Deed, load: u64) -> Option<Deed>
    ensures { result ≡ at.plain_at deed load }
{
    if load == 0 { Some(deed) } else { None }
}

fn leave_at(load: u64) -> Option<Deed>
    ensures { result ≡ at.leave_at load }
{
    match load {
        0 => Some(Deed::Leave(false)),
        1 => Some(Deed::Leave(true)),
        _ => None,
    }
}

fn cell_at(load: u64) -> Cell
    ensures { result ≡ at.cell_at load }
{
    Cell {
        region: (load % 256) as u8,
        offset: (load / 256 % 65536) as u16,
    }
}

fn read_at(load: u64) -> Option<Deed>
    ensures { result ≡ at.read_at load }
{
    if load < 4294967296 {
        Some(Deed::Read(cell_at(load), (load / 16777216) as u8))
    } else {
        None
    }
}

fn write_at(load: u64) -> Option<Deed>
    ensures { result ≡ at.write_at load }
{
    if load < 4294967296 {
        Some(Deed::Write(cell_at(load), (load / 16777216) as u8))
    } else {
        None
    }
}

fn request_at(kind: u64, bytes: u64) -> Option<Request>
    ensures { result ≡ at.request_at kind bytes }
{
    match kind {
        0 if bytes < 256 => Some(Request::Rd(bytes as u8)),
        1 if bytes < 65536 => Some(Request::Wr((bytes % 256) as u8, (bytes / 256) as u8)),
        2 if bytes == 0 => Some(Request::Be),
        3 if bytes == 0 => Some(Request::Bd),
        4 if bytes == 0 => Some(Request::Qr),
        _ => None,
    }
}

fn move_at(kind: u64, byte: u64) -> Option<HostMove>
    ensures { result ≡ at.move_at kind byte }
{
    if byte >= 256 {
        return None;
    }
    match kind {
        0 => Some(HostMove::Sc(byte as u8)),
        1 => Some(HostMove::Data(byte as u8)),
        2 => Some(HostMove::Get(byte as u8)),
        _ => None,
    }
}

fn effect_at(kind: u64, byte: u64) -> Option<Effect>
    ensures { result ≡ at.effect_at kind byte }
{
    match kind {
        0 if byte == 0 => Some(Effect::Taken),
        1 if byte < 256 => Some(Effect::Out(byte as u8)),
        2 if byte == 0 => Some(Effect::Put),
        3 if byte == 0 => Some(Effect::Calm),
        _ => None,
    }
}

fn begin_at(request: Option<Request>) -> Option<Deed>
    ensures { result ≡ at.begin_at request }
{
    match request {
        Some(request) => Some(Deed::Begin(request)),
        None => None,
    }
}

fn step_at(made: Option<HostMove>) -> Option<Deed>
    ensures { result ≡ at.step_at made }
{
    match made {
        Some(made) => Some(Deed::Step(made)),
        None => None,
    }
}

fn ctl_at(effect: Option<Effect>) -> Option<Deed>
    ensures { result ≡ at.ctl_at effect }
{
    match effect {
        Some(effect) => Some(Deed::Ctl(effect)),
        None => None,
    }
}

fn take_at(load: u64) -> Option<Deed>
    ensures { result ≡ at.take_at load }
{
    if load == 0 {
        Some(Deed::Take(None))
    } else if load % 256 == 1 && load < 65536 {
        Some(Deed::Take(Some((load / 256) as u8)))
    } else {
        None
    }
}

fn push_at(load: u64) -> Option<Deed>
    ensures { result ≡ at.push_at load }
{
    if load < 256 {
        Some(Deed::Push(load as u8))
    } else {
        None
    }
}

fn start_at(load: u64) -> Option<Deed>
    ensures { result ≡ at.start_at load }
{
    if load < 4294967296 {
        Some(Deed::Start(load as u32))
    } else {
        None
    }
}

fn finish_at(load: u64) -> Option<Deed>
    ensures { result ≡ at.finish_at load }
{
    if load < 4294967296 {
        Some(Deed::Finish(load as u32))
    } else {
        None
    }
}

fn notify_at(load: u64) -> Option<Deed>
    ensures { result ≡ at.notify_at load }
{
    if load < 65536 {
        Some(Deed::Notify((load % 256) as u8, (load / 256) as u8))
    } else {
        None
    }
}

fn event_deed(place: u64, event: Option<Event>) -> Option<Deed>
    ensures { result ≡ at.event_deed place event }
{
    match event {
        Some(event) => match place {
            13 => Some(Deed::Raise(event)),
            14 => Some(Deed::Latch(event)),
            15 => Some(Deed::Assert(event)),
            16 => Some(Deed::Drop(event)),
            17 => Some(Deed::Claim(event)),
            21 => Some(Deed::Up(event)),
            22 => Some(Deed::Down(event)),
            _ => None,
        },
        None => None,
    }
}

fn deed_at(place: u64, load: u64) -> Option<Deed>
    ensures { result ≡ at.deed_at place load }
{
    match place {
        0 => plain_at(Deed::Seek, load),
        1 => plain_at(Deed::Busy, load),
        2 => plain_at(Deed::Woken, load),
        3 => plain_at(Deed::Own, load),
        4 => plain_at(Deed::Disown, load),
        5 => leave_at(load),
        6 => read_at(load),
        7 => write_at(load),
        8 => begin_at(request_at(load % 256, load / 256)),
        9 => step_at(move_at(load % 256, load / 256)),
        10 => ctl_at(effect_at(load % 256, load / 256)),
        11 => take_at(load),
        12 => push_at(load),
        18 => start_at(load),
        19 => finish_at(load),
        20 => notify_at(load),
        _ => event_deed(place, event_in(load)),
    }
}

fn entry_of(actor: Option<Actor>, deed: Option<Deed>) -> Option<Entry>
    ensures { result ≡ at.entry_of actor deed }
{
    match (actor, deed) {
        (Some(actor), Some(deed)) => Some(Entry { actor, deed }),
        _ => None,
    }
}

impl Entry {
    ghost use Rattle.acpi_regs.specs.Packing.{Decodes, IsPackable, packing};
    ghost use Rattle.acpi_regs.specs.declared.entry.Entry.{Entry};

    /// The entry that [`Entry::pack`] writes as this word; `None` exactly if the word is that of no entry in range.
    pub fn unpack(word: u64) -> Option<Entry>
        ensures stands { Decodes Entry IsPackable packing word result }
        ensures reads { result ≡ at.entry_at word }
    {
        let actor = actor_at(word % 256);
        let deed = deed_at(word / 256 % 256, word / 65536);
        entry_of(actor, deed)
    }
}
