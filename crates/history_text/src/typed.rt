//! The numbers of a deed are those of its types, as a fact for proofs.
ghost use Rattle.history_text.specs.Named.{IsCell, IsDeed, IsEffect, IsEvent, IsMove, IsRequest};

use acpi_regs::{Cell, Deed, Effect, Event, HostMove, Request};

fn law_event(event: Event)
    ensures { IsEvent event }
{
    if let Event::Gpe(number) = event {
        let _number = number;
    }
}

fn law_cell(cell: Cell)
    ensures { IsCell cell }
{
    let _region = cell.region;
    let _offset = cell.offset;
}

fn law_request(request: Request)
    ensures { IsRequest request }
{
    match request {
        Request::Rd(address) => {
            let _address = address;
        }
        Request::Wr(address, value) => {
            let _address = address;
            let _value = value;
        }
        Request::Be | Request::Bd | Request::Qr => {}
    }
}

fn law_move(host: HostMove)
    ensures { IsMove host }
{
    match host {
        HostMove::Sc(byte) | HostMove::Data(byte) | HostMove::Get(byte) => {
            let _byte = byte;
        }
    }
}

fn law_effect(effect: Effect)
    ensures { IsEffect effect }
{
    if let Effect::Out(byte) = effect {
        let _byte = byte;
    }
}

/// The numbers of a deed are those of its types. The call has no cost: it says so to a caller's proof.
pub fn law_deed(deed: Deed)
    ensures { IsDeed deed }
{
    match deed {
        Deed::Read(cell, byte) | Deed::Write(cell, byte) => {
            law_cell(cell);
            let _byte = byte;
        }
        Deed::Begin(request) => law_request(request),
        Deed::Step(host) => law_move(host),
        Deed::Ctl(effect) => law_effect(effect),
        Deed::Take(Some(byte)) | Deed::Push(byte) => {
            let _byte = byte;
        }
        Deed::Raise(event)
        | Deed::Latch(event)
        | Deed::Assert(event)
        | Deed::Drop(event)
        | Deed::Claim(event)
        | Deed::Up(event)
        | Deed::Down(event) => law_event(event),
        Deed::Start(job) | Deed::Finish(job) => {
            let _job = job;
        }
        Deed::Notify(device, value) => {
            let _device = device;
            let _value = value;
        }
        Deed::Seek
        | Deed::Busy
        | Deed::Woken
        | Deed::Own
        | Deed::Disown
        | Deed::Leave(_)
        | Deed::Take(None) => {}
    }
}
