//! How often what a summary tells of happened in a history.
ghost use Rattle.std.specs.Prelude.{◌≡◌, ◌+◌, ◌<◌, ◌≤◌, ◌^◌, [], false, length, reverse};
ghost use Rattle.machine_history.specs.Jobs.{jobs};
ghost use Rattle.machine_history.specs.Sentences.{codes_of};
ghost use Rattle.machine_history.specs.Wire.{is_query};
ghost use Rattle.acpi_regs.specs.declared.actor.Actor.TheVariants as Actor;
ghost use Rattle.run_summary.specs.Told as told;

use acpi_regs::{Actor, Deed, Entry, Request};
use machine_core::Board;

/// How often what a summary tells of happened in a history, as far as it was gone through.
#[derive(Clone, Copy, Debug)]
pub struct Tally {
    /// How many bytes firmware wrote.
    pub adds: u32,
    /// How many queries took a code from 01 to FF. Each of these takes makes a job, which runs the handler of the code.
    pub codes: u32,
    /// How many notify entries there are.
    pub notifies: u32,
    /// Whether the transaction that is open is a query.
    pub asks: bool,
}

impl Tally {
    /// The tally of no entry.
    fn new() -> Tally
        ensures { result ≡ told.tally_of [] }
    {
        Tally {
            adds: 0,
            codes: 0,
            notifies: 0,
            asks: false,
        }
    }

    /// The tally with one more entry.
    fn after(self, entry: Entry) -> Tally
        requires adds { self.adds + 1 < 2 ^ 32 }
        requires codes { self.codes + 1 < 2 ^ 32 }
        requires notifies { self.notifies + 1 < 2 ^ 32 }
        ensures is { result ≡ told.tally_after entry.actor entry.deed self }
        ensures few_adds { result.adds ≤ self.adds + 1 }
        ensures few_codes { result.codes ≤ self.codes + 1 }
        ensures few_notifies { result.notifies ≤ self.notifies + 1 }
    {
        Tally {
            adds: adds_by(entry.actor, entry.deed) + self.adds,
            codes: codes_by(self.asks, entry.deed) + self.codes,
            notifies: notifies_by(entry.deed) + self.notifies,
            asks: asks_after(entry.deed, self.asks),
        }
    }
}

/// Counts what a board's history has. A job is made for each code that a query took.
pub fn count_entries(board: &Board) -> Tally
    ensures adds { result.adds ≡ told.adds (reverse board.now.entries) }
    ensures codes { result.codes ≡ length (codes_of (jobs board.now.machine (reverse board.now.entries))) }
    ensures notifies { result.notifies ≡ told.notifies (reverse board.now.entries) }
{
    let mut tally = Tally::new();
    for i in 0..board.len() {
        tally = tally.after(board.entry(i));
    }
    tally
}

fn adds_by(actor: Actor, deed: Deed) -> u32
    ensures is { result ≡ told.adds_by actor deed }
    ensures few { result ≤ 1 }
{
    match actor {
        Actor::Firmware(_) => writes(deed),
        _ => 0,
    }
}

fn writes(deed: Deed) -> u32
    ensures is { result ≡ told.adds_by (Actor.Firmware 0) deed }
    ensures few { result ≤ 1 }
{
    match deed {
        Deed::Write(_, _) => 1,
        _ => 0,
    }
}

fn codes_by(asks: bool, deed: Deed) -> u32
    ensures is { result ≡ told.codes_by asks deed }
    ensures few { result ≤ 1 }
{
    match deed {
        Deed::Take(Some(code)) => { if asks && code != 0 { 1 } else { 0 } }
        _ => 0,
    }
}

fn notifies_by(deed: Deed) -> u32
    ensures is { result ≡ told.notifies_by deed }
    ensures few { result ≤ 1 }
{
    match deed {
        Deed::Notify(_, _) => 1,
        _ => 0,
    }
}

fn asks_after(deed: Deed, asks: bool) -> bool
    ensures { result ≡ told.asks_after deed asks }
{
    match deed {
        Deed::Begin(request) => is_query(request),
        Deed::Take(_) => false,
        _ => asks,
    }
}

fn is_query(request: Request) -> bool
    ensures { result ≡ is_query request }
{
    matches!(request, Request::Qr)
}
