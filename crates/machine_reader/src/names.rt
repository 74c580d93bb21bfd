//! The names of events, query codes and actors: one function for each definition of `specs/Names.antt`.
ghost use Rattle.std.specs.Prelude.{◌≡◌, ◌≤◌, ◌<◌, IfSome, Some, false};
ghost use Rattle.acpi_regs.specs.Event.{is_gbl};
ghost use Rattle.machine_reader.specs.Shape.{IsListedName, IsQueryCode};
ghost use Rattle.machine_reader.specs.Names as names;

use acpi_regs::{Actor, Event, Fixed, MethodName, byte_named};

/// An event by its name in the list of events.
#[derive(Clone, Copy, Debug, PartialEq, Eq)]
pub struct ListedName {
    /// The event.
    pub event: Event,
    /// Whether it is level-triggered.
    pub level: bool,
}

/// The code of a query by the name of its handler.
#[derive(Clone, Copy, Debug, PartialEq, Eq)]
pub struct QueryCode {
    /// The code, from 1 to 255.
    pub code: u8,
}

fn gpe_named(text: &[u8]) -> Option<Event>
    ensures { result ≡ names.gpe_named text.now }
{
    match text {
        [b'g', high, low] => Some(Event::Gpe(byte_named(*high, *low)?)),
        _ => None,
    }
}

/// The event of a name.
pub fn event_named(text: &str) -> Option<Event>
    ensures { result ≡ names.event_named text.now }
{
    if text == "tmr" {
        Some(Event::Fixed(Fixed::Tmr))
    } else if text == "gbl" {
        Some(Event::Fixed(Fixed::Gbl))
    } else if text == "pwr" {
        Some(Event::Fixed(Fixed::Pwr))
    } else if text == "slp" {
        Some(Event::Fixed(Fixed::Slp))
    } else if text == "rtc" {
        Some(Event::Fixed(Fixed::Rtc))
    } else {
        gpe_named(text.as_bytes())
    }
}

fn listed_as(name: MethodName) -> Option<ListedName>
    ensures value { result ≡ names.listed_as name }
    ensures given { IfSome result IsListedName }
{
    match name {
        MethodName::Level(number) => Some(ListedName {
            event: Event::Gpe(number),
            level: true,
        }),
        MethodName::Edge(number) => Some(ListedName {
            event: Event::Gpe(number),
            level: false,
        }),
        MethodName::Query(_) => None,
    }
}

/// A fixed event, which is edge-triggered.
fn edge(fixed: Fixed) -> Option<ListedName>
    requires { is_gbl (Event.Fixed fixed) ≡ false }
    ensures value { result ≡ Some (record { event = Event.Fixed fixed; level = false }) }
    ensures given { IfSome result IsListedName }
{
    Some(ListedName {
        event: Event::Fixed(fixed),
        level: false,
    })
}

/// The listed event of a name.
pub fn listed_named(text: &str) -> Option<ListedName>
    ensures value { result ≡ names.listed_named text.now }
    ensures given { IfSome result IsListedName }
{
    if text == "tmr" {
        edge(Fixed::Tmr)
    } else if text == "pwr" {
        edge(Fixed::Pwr)
    } else if text == "slp" {
        edge(Fixed::Slp)
    } else if text == "rtc" {
        edge(Fixed::Rtc)
    } else {
        listed_as(MethodName::parse(text.as_bytes()).ok()?)
    }
}

/// The code of a query's name.
#[tactic(auto, using(crate::proofs::Given::query_code))]
pub fn query_named(text: &str) -> Option<QueryCode>
    ensures value { result ≡ names.query_named text.now }
    ensures given { IfSome result IsQueryCode }
{
    match MethodName::parse(text.as_bytes()).ok()? {
        MethodName::Query(code) => Some(QueryCode { code }),
        _ => None,
    }
}

fn digit_below(limit: u8, byte: u8) -> Option<u8>
    requires { limit ≤ 10 }
    ensures { result ≡ names.digit_below limit byte }
{
    if b'0' <= byte && byte < b'0' + limit {
        Some(byte - b'0')
    } else {
        None
    }
}

fn numbered_actor(text: &[u8]) -> Option<Actor>
    ensures { result ≡ names.numbered_actor text.now }
{
    match text {
        [b'w', digit] => Some(Actor::Worker(digit_below(4, *digit)?)),
        [b'd', digit] => Some(Actor::Device(digit_below(8, *digit)?)),
        [b'f', digit] => Some(Actor::Firmware(digit_below(8, *digit)?)),
        _ => None,
    }
}

/// The actor of a name.
pub fn actor_named(text: &str) -> Option<Actor>
    ensures { result ≡ names.actor_named text.now }
{
    if text == "int" {
        Some(Actor::Int)
    } else if text == "poll" {
        Some(Actor::Poll)
    } else if text == "ec" {
        Some(Actor::Ec)
    } else {
        numbered_actor(text.as_bytes())
    }
}
