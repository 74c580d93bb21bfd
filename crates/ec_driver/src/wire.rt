ghost use Rattle.std.specs.Prelude.{◌≡◌, ◌<◌, slice_get};
ghost use Rattle.ec_driver.specs.Wire.{answered, carried, wire};

use acpi_regs::{Effect, HostMove, Request};

/// One move of a transaction.
#[derive(Clone, Copy, Debug)]
pub enum Move {
    /// The host's.
    Host(HostMove),
    /// The controller's.
    Ctl(Effect),
}

/// The move at a place in the list of a request, where `blank` is the byte that a read or a query gives.
pub(crate) fn wire_move(request: Request, blank: u8, place: u8) -> Option<Move>
    ensures { result ≡ slice_get (wire request blank) place }
{
    match request {
        Request::Rd(address) => read_move(address, blank, place),
        Request::Wr(address, byte) => write_move(address, byte, place),
        Request::Be => answered_move(0x82, 0x90, place),
        Request::Bd => burst_disable_move(place),
        Request::Qr => answered_move(0x84, blank, place),
    }
}

/// What the requester is given once all moves are made.
pub(crate) fn carried(request: Request, blank: u8) -> Option<u8>
    ensures { result ≡ carried request blank }
{
    match request {
        Request::Rd(_) | Request::Qr => Some(blank),
        Request::Be => Some(0x90),
        Request::Wr(_, _) | Request::Bd => None,
    }
}

fn read_move(address: u8, blank: u8, place: u8) -> Option<Move>
    ensures { result ≡ slice_get (wire (Request.Rd address) blank) place }
{
    match place {
        0 => Some(Move::Host(HostMove::Sc(0x80))),
        1 => Some(Move::Ctl(Effect::Taken)),
        2 => Some(Move::Host(HostMove::Data(address))),
        3 => Some(Move::Ctl(Effect::Out(blank))),
        4 => Some(Move::Host(HostMove::Get(blank))),
        _ => None,
    }
}

fn write_move(address: u8, byte: u8, place: u8) -> Option<Move>
    ensures { result ≡ slice_get (wire (Request.Wr address byte) 0) place }
{
    match place {
        0 => Some(Move::Host(HostMove::Sc(0x81))),
        1 => Some(Move::Ctl(Effect::Taken)),
        2 => Some(Move::Host(HostMove::Data(address))),
        3 => Some(Move::Ctl(Effect::Taken)),
        4 => Some(Move::Host(HostMove::Data(byte))),
        5 => Some(Move::Ctl(Effect::Put)),
        _ => None,
    }
}

fn burst_disable_move(place: u8) -> Option<Move>
    ensures { result ≡ slice_get (wire Request.Bd 0) place }
{
    match place {
        0 => Some(Move::Host(HostMove::Sc(0x83))),
        1 => Some(Move::Ctl(Effect::Taken)),
        _ => None,
    }
}

/// A command without further bytes, which the controller answers.
fn answered_move(command: u8, answer: u8, place: u8) -> Option<Move>
    ensures { result ≡ slice_get (answered command answer) place }
{
    match place {
        0 => Some(Move::Host(HostMove::Sc(command))),
        1 => Some(Move::Ctl(Effect::Out(answer))),
        2 => Some(Move::Host(HostMove::Get(answer))),
        _ => None,
    }
}
