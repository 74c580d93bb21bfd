//! Names and operations, written as JSON: one function for each definition of `specs/Canonical.antt`.
ghost use Rattle.std.specs.Prelude.{◌≡◌, ◌≤◌, ◌<◌, [], ◌∷◌, ◌++◌, ◌+◌, OnOk, decimal};
ghost use Rattle.serde_json.specs.Data.{string};
ghost use Rattle.acpi_regs.specs.Names.{spelled};
ghost use Rattle.machine_reader.specs.Canonical.{actor_json, event_json, fixed_name, listed_name, op_json, query_name};
ghost use Rattle.machine_reader.specs.Texts.{json_text};

use crate::bytes::{put, put_byte, put_number};
use crate::list::{Written, put_list};
use acpi_regs::{Actor, Event, Fixed, digit_byte};
use handler_script::{Op, Script};
use std::alloc::AllocError;

/// The name of a fixed event, in quotes.
#[tactic(auto, unfolding(json::specs::Print::escape_byte, crate::specs::Texts::json_text))]
fn quoted_fixed(fixed: Fixed) -> &'static [u8]
    ensures { result.now ≡ json_text (string (fixed_name fixed)) }
{
    match fixed {
        Fixed::Tmr => b"\"tmr\"",
        Fixed::Gbl => b"\"gbl\"",
        Fixed::Pwr => b"\"pwr\"",
        Fixed::Slp => b"\"slp\"",
        Fixed::Rtc => b"\"rtc\"",
    }
}

/// `gxx`, in quotes.
#[tactic(auto, using(crate::proofs::Quotes::quoted_gpe))]
fn put_gpe(out: &mut Vec<u8>, number: u8) -> Result<(), AllocError>
    ensures { OnOk result (out.new.items ≡ out.old.items ++ json_text (event_json (Event.Gpe number))) }
{
    let high = digit_byte(number / 16);
    let low = digit_byte(number % 16);
    put(out, &[b'"', b'g', high, low, b'"'])
}

impl Written for Event {
    ghost use Rattle.machine_reader.specs.Canonical.{event_json};

    ghost json = { event_json };

    fn put(&self, out: &mut Vec<u8>) -> Result<(), AllocError> {
        match *self {
            Event::Fixed(fixed) => put(out, quoted_fixed(fixed)),
            Event::Gpe(number) => put_gpe(out, number),
        }
    }
}

/// The name of a method that handles an event, in quotes: an underscore, a letter and two digits.
#[tactic(auto, using(crate::proofs::Quotes::quoted_method))]
fn put_method(out: &mut Vec<u8>, letter: u8, number: u8) -> Result<(), AllocError>
    requires low { 65 ≤ letter }
    requires high { letter ≤ 90 }
    ensures { OnOk result (out.new.items ≡ out.old.items ++ json_text (string (spelled letter number))) }
{
    let high = digit_byte(number / 16);
    let low = digit_byte(number % 16);
    put(out, &[b'"', b'_', letter, high, low, b'"'])
}

/// The name of a listed event, in quotes.
pub fn put_listed(out: &mut Vec<u8>, event: Event, level: bool) -> Result<(), AllocError>
    ensures { OnOk result (out.new.items ≡ out.old.items ++ json_text (string (listed_name event level))) }
{
    match event {
        Event::Fixed(fixed) => put(out, quoted_fixed(fixed)),
        Event::Gpe(number) => {
            if level {
                put_method(out, b'L', number)
            } else {
                put_method(out, b'E', number)
            }
        }
    }
}

/// The name of a query's handler, in quotes.
pub fn put_query_name(out: &mut Vec<u8>, code: u8) -> Result<(), AllocError>
    ensures { OnOk result (out.new.items ≡ out.old.items ++ json_text (string (query_name code))) }
{
    put_method(out, b'Q', code)
}

/// An array whose last element is a number.
fn put_one(out: &mut Vec<u8>, head: &[u8], n: u64) -> Result<(), AllocError>
    ensures { OnOk result (out.new.items ≡ out.old.items ++ (head.now ++ (decimal n ++ 93 ∷ []))) }
{
    put(out, head)?;
    put_number(out, n)?;
    put_byte(out, b']')
}

/// An array whose last elements are two numbers.
fn put_two(out: &mut Vec<u8>, head: &[u8], m: u64, n: u64) -> Result<(), AllocError>
    ensures { OnOk result (out.new.items
        ≡ out.old.items ++ (head.now ++ (decimal m ++ 44 ∷ (decimal n ++ 93 ∷ [])))) }
{
    put(out, head)?;
    put_number(out, m)?;
    put_byte(out, b',')?;
    put_number(out, n)?;
    put_byte(out, b']')
}

/// An array whose last element is an event.
fn put_of_event(out: &mut Vec<u8>, head: &[u8], event: Event) -> Result<(), AllocError>
    ensures { OnOk result (out.new.items
        ≡ out.old.items ++ (head.now ++ (json_text (event_json event) ++ 93 ∷ []))) }
{
    put(out, head)?;
    event.put(out)?;
    put_byte(out, b']')
}

/// An operation.
#[tactic(auto, unfolding(json::specs::Print::escape_byte, crate::specs::Texts::json_text))]
fn put_op(out: &mut Vec<u8>, op: Op) -> Result<(), AllocError>
    ensures { OnOk result (out.new.items ≡ out.old.items ++ json_text (op_json op)) }
{
    match op {
        Op::Read(field) => put_one(out, b"[\"read\",", u64::from(field)),
        Op::Write(field, value) => put_two(out, b"[\"write\",", u64::from(field), value),
        Op::Add(field, value) => put_two(out, b"[\"add\",", u64::from(field), value),
        Op::Skip(value, count) => put_two(out, b"[\"skip\",", value, u64::from(count)),
        Op::Hold => put(out, b"[\"hold\"]"),
        Op::Free => put(out, b"[\"free\"]"),
        Op::Notify(device, value) => {
            put_two(out, b"[\"notify\",", u64::from(device), u64::from(value))
        }
        Op::Drop(event) => put_of_event(out, b"[\"drop\",", event),
        Op::Up(event) => put_of_event(out, b"[\"up\",", event),
        Op::Down(event) => put_of_event(out, b"[\"down\",", event),
        Op::Raise(event) => put_of_event(out, b"[\"raise\",", event),
        Op::Assert(event) => put_of_event(out, b"[\"assert\",", event),
        Op::Push(code) => put_one(out, b"[\"push\",", u64::from(code)),
    }
}

impl Written for Op {
    ghost use Rattle.machine_reader.specs.Canonical.{op_json};

    ghost json = { op_json };

    fn put(&self, out: &mut Vec<u8>) -> Result<(), AllocError> {
        put_op(out, *self)
    }
}

impl Written for Script {
    ghost use Rattle.machine_reader.specs.Canonical.{script_json};

    ghost json = { script_json };

    fn put(&self, out: &mut Vec<u8>) -> Result<(), AllocError> {
        put_list(out, self.ops())
    }
}

/// A letter and a number, in quotes.
#[tactic(auto, using(crate::proofs::Quotes::quoted_numbered))]
fn put_numbered(out: &mut Vec<u8>, letter: u8, number: u8) -> Result<(), AllocError>
    requires low { 97 ≤ letter }
    requires high { letter ≤ 122 }
    ensures { OnOk result (out.new.items ≡ out.old.items ++ json_text (string (letter ∷ decimal number))) }
{
    put(out, &[b'"', letter])?;
    put_number(out, u64::from(number))?;
    put_byte(out, b'"')
}

/// The name of an actor, in quotes.
#[tactic(auto, unfolding(json::specs::Print::escape_byte, crate::specs::Texts::json_text))]
fn put_actor(out: &mut Vec<u8>, actor: Actor) -> Result<(), AllocError>
    ensures { OnOk result (out.new.items ≡ out.old.items ++ json_text (actor_json actor)) }
{
    match actor {
        Actor::Int => put(out, b"\"int\""),
        Actor::Poll => put(out, b"\"poll\""),
        Actor::Ec => put(out, b"\"ec\""),
        Actor::Worker(number) => put_numbered(out, b'w', number),
        Actor::Device(number) => put_numbered(out, b'd', number),
        Actor::Firmware(number) => put_numbered(out, b'f', number),
    }
}

impl Written for Actor {
    ghost use Rattle.machine_reader.specs.Canonical.{actor_json};

    ghost json = { actor_json };

    fn put(&self, out: &mut Vec<u8>) -> Result<(), AllocError> {
        put_actor(out, *self)
    }
}
