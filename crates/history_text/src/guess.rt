ghost use Rattle.std.specs.Prelude.{◌≡◌, ◌+◌, ◌*◌, ◌<◌, ◌≤◌, ◌^◌, IfSome, drop, length, slice_index, take};
ghost use Rattle.std.specs.Char.{digit_value};
ghost use Rattle.std.specs.Str.Parse.{digits_value};
ghost use Rattle.history_text.specs.Guess as guesses;
ghost use Rattle.history_text.specs.Named.{IsActor, IsByte, IsCell, IsDeed, IsEffect, IsEntry, IsEvent, IsMove, IsRequest};

use acpi_regs::{Actor, Cell, Deed, Effect, Entry, Event, Fixed, HostMove, Request};

/// A byte of a text, and 0 behind its end.
fn at(text: &[u8], k: usize) -> u8
    ensures { result ≡ slice_index text.now k }
{
    match text.get(k) {
        Some(byte) => *byte,
        None => 0,
    }
}

/// The text from a place on.
fn behind(text: &[u8], k: usize) -> &[u8]
    ensures { result.now ≡ drop k text.now }
{
    if k <= text.len() {
        let (_, rest) = text.split_at(k);
        rest
    } else {
        &[]
    }
}

/// The value of a hexadecimal digit; of another byte, some value.
fn digit_guess(c: u8) -> u8
    ensures value { result ≡ guesses.digit_guess c }
    ensures small { result < 16 }
{
    (c % 16 + 9 * (c / 64)) % 16
}

/// The byte of the two digits at a place.
fn byte_guess(text: &[u8], k: usize) -> u8
    requires { k < 48 }
    ensures value { result ≡ guesses.byte_guess text.now k }
    ensures range { IsByte result }
{
    16 * digit_guess(at(text, k)) + digit_guess(at(text, k + 1))
}

fn cell_guess(text: &[u8], k: usize) -> Cell
    requires { k < 40 }
    ensures value { result ≡ guesses.cell_guess text.now k }
    ensures range { IsCell result }
{
    Cell {
        region: byte_guess(text, k),
        offset: 256 * u16::from(byte_guess(text, k + 3)) + u16::from(byte_guess(text, k + 5)),
    }
}

fn gpe_or_gbl(text: &[u8], k: usize) -> Event
    requires { k < 40 }
    ensures value { result ≡ guesses.gpe_or_gbl text.now k }
    ensures range { IsEvent result }
{
    if at(text, k + 1) == b'b' {
        Event::Fixed(Fixed::Gbl)
    } else {
        Event::Gpe(byte_guess(text, k + 1))
    }
}

/// The only event whose name can stand at a place.
pub fn event_guess(text: &[u8], k: usize) -> Event
    requires { k < 40 }
    ensures value { result ≡ guesses.event_guess text.now k }
    ensures range { IsEvent result }
{
    match at(text, k) {
        b't' => Event::Fixed(Fixed::Tmr),
        b'p' => Event::Fixed(Fixed::Pwr),
        b's' => Event::Fixed(Fixed::Slp),
        b'r' => Event::Fixed(Fixed::Rtc),
        _ => gpe_or_gbl(text, k),
    }
}

/// Two letters as one number.
fn key(text: &[u8], k: usize) -> u16
    requires { k < 40 }
    ensures { result ≡ 256 * slice_index text.now k + slice_index text.now (k + 1) }
{
    256 * u16::from(at(text, k)) + u16::from(at(text, k + 1))
}

fn request_guess(text: &[u8]) -> Request
    ensures value { result ≡ guesses.request_guess text.now }
    ensures range { IsRequest result }
{
    match key(text, 6) {
        29284 => Request::Rd(byte_guess(text, 9)),
        30578 => Request::Wr(byte_guess(text, 9), byte_guess(text, 12)),
        25189 => Request::Be,
        25188 => Request::Bd,
        _ => Request::Qr,
    }
}

fn move_guess(text: &[u8]) -> HostMove
    ensures value { result ≡ guesses.move_guess text.now }
    ensures range { IsMove result }
{
    match at(text, 5) {
        b's' => HostMove::Sc(byte_guess(text, 8)),
        b'd' => HostMove::Data(byte_guess(text, 10)),
        _ => HostMove::Get(byte_guess(text, 9)),
    }
}

fn effect_guess(text: &[u8]) -> Effect
    ensures value { result ≡ guesses.effect_guess text.now }
    ensures range { IsEffect result }
{
    match at(text, 4) {
        b't' => Effect::Taken,
        b'o' => Effect::Out(byte_guess(text, 8)),
        b'p' => Effect::Put,
        _ => Effect::Calm,
    }
}

fn taken_guess(text: &[u8]) -> Option<u8>
    ensures value { result ≡ guesses.taken_guess text.now }
    ensures range { IfSome result IsByte }
{
    if at(text, 5) == b'-' {
        None
    } else {
        Some(byte_guess(text, 5))
    }
}

fn digit_of(c: u8) -> u8
    ensures value { result ≡ digit_value c }
    ensures small { result ≤ 36 }
{
    match c {
        b'0'..=b'9' => c - b'0',
        b'A'..=b'Z' => c - b'A' + 10,
        b'a'..=b'z' => c - b'a' + 10,
        _ => 36,
    }
}

fn number_guess(digits: &[u8]) -> u64
    requires { length digits.now ≤ 10 }
    ensures { result ≡ digits_value 10 digits.now }
{
    let mut number = 0;
    for digit in digits {
        number = number * 10 + u64::from(digit_of(*digit));
    }
    number
}

fn first_ten(text: &[u8]) -> &[u8]
    ensures value { result.now ≡ take 10 text.now }
    ensures len { length result.now ≤ 10 }
{
    if text.len() <= 10 {
        text
    } else {
        let (front, _) = text.split_at(10);
        front
    }
}

/// The only number that can stand at a place.
pub fn job_guess(text: &[u8], k: usize) -> u32
    ensures value { result ≡ guesses.job_guess text.now k }
    ensures range { result < 2 ^ 32 }
{
    (number_guess(first_ten(behind(text, k))) % 4_294_967_296) as u32
}

fn step_or_start(text: &[u8]) -> Deed
    ensures value { result ≡ guesses.step_or_start text.now }
    ensures range { IsDeed result }
{
    if at(text, 2) == b'e' {
        Deed::Step(move_guess(text))
    } else {
        Deed::Start(job_guess(text, 6))
    }
}

fn event_deed(key: u16, text: &[u8]) -> Deed
    ensures value { result ≡ guesses.event_deed key text.now }
    ensures range { IsDeed result }
{
    match key {
        29281 => Deed::Raise(event_guess(text, 6)),
        27745 => Deed::Latch(event_guess(text, 6)),
        24947 => Deed::Assert(event_guess(text, 7)),
        25714 => Deed::Drop(event_guess(text, 5)),
        25452 => Deed::Claim(event_guess(text, 6)),
        30064 => Deed::Up(event_guess(text, 3)),
        _ => Deed::Down(event_guess(text, 5)),
    }
}

fn other_of(key: u16, text: &[u8]) -> Deed
    ensures value { result ≡ guesses.other_of key text.now }
    ensures range { IsDeed result }
{
    match key {
        25189 => Deed::Begin(request_guess(text)),
        29556 => step_or_start(text),
        25460 => Deed::Ctl(effect_guess(text)),
        29793 => Deed::Take(taken_guess(text)),
        28789 => Deed::Push(byte_guess(text, 5)),
        26217 => Deed::Finish(job_guess(text, 7)),
        28271 => Deed::Notify(byte_guess(text, 7), byte_guess(text, 10)),
        _ => event_deed(key, text),
    }
}

fn deed_of(key: u16, text: &[u8]) -> Deed
    ensures value { result ≡ guesses.deed_of key text.now }
    ensures range { IsDeed result }
{
    match key {
        29285 => Deed::Read(cell_guess(text, 5), byte_guess(text, 13)),
        30578 => Deed::Write(cell_guess(text, 6), byte_guess(text, 14)),
        29541 => Deed::Seek,
        25205 => Deed::Busy,
        30575 => Deed::Woken,
        28535 => Deed::Own,
        25705 => Deed::Disown,
        27749 => Deed::Leave(at(text, 6) == b'1'),
        _ => other_of(key, text),
    }
}

/// By the first two letters of its word.
fn deed_guess(text: &[u8]) -> Deed
    ensures value { result ≡ guesses.deed_guess text.now }
    ensures range { IsDeed result }
{
    deed_of(key(text, 0), text)
}

fn actor_guess(text: &[u8]) -> Actor
    ensures value { result ≡ guesses.actor_guess text.now }
    ensures named { IsActor result }
{
    match at(text, 0) {
        b'i' => Actor::Int,
        b'p' => Actor::Poll,
        b'e' => Actor::Ec,
        b'w' => Actor::Worker(digit_guess(at(text, 1)) % 4),
        b'd' => Actor::Device(digit_guess(at(text, 1)) % 8),
        _ => Actor::Firmware(digit_guess(at(text, 1)) % 8),
    }
}

/// How many bytes the actor of a first letter has, with the space behind it.
fn width_of(c: u8) -> usize
    ensures { result ≡ guesses.width_of c }
{
    match c {
        b'i' => 4,
        b'p' => 5,
        _ => 3,
    }
}

/// The only entry that a line can be the text of.
pub fn entry_guess(line: &[u8]) -> Entry
    ensures value { result ≡ guesses.entry_guess line.now }
    ensures range { IsEntry result }
{
    Entry {
        actor: actor_guess(line),
        deed: deed_guess(behind(line, width_of(at(line, 0)))),
    }
}
