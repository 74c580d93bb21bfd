ghost use Rattle.std.specs.Prelude.{◌≡◌, ◌<◌, ◌≤◌, ◌||◌, if◌then◌else◌, length, nat_lt, not, reverse, None};
ghost use Rattle.std.specs.Bool.{MatchBool};
ghost use Rattle.acpi_regs.specs.Actor.{stands_on};
ghost use Rattle.acpi_regs.specs.declared.event.Event.{Event};
ghost use Rattle.lock_table.specs.Bits.{IsEvent, is_set};
ghost use Rattle.machine_history.specs.Wire.{is_query};
ghost use Rattle.run_checker.specs.Ends.{AllListsSet, AllSet, AreEnds, AreLatched, Misses, SomeMisses, latches_it, queue_after, queue_of, signals_after, signals_of};

use acpi_regs::{Actor, Deed, Effect, Entry, Event, Request, Side};
use lock_table::Bits;
use machine_desc::{Items, Machine};

/// What the entries of a log leave open beside what a board tells of them.
#[derive(Clone, Copy, Debug)]
pub struct Ends {
    /// A query code waits.
    pub code: bool,
    /// An event of a device's list has no latch.
    pub pulse: bool,
    /// The actor of the OS that answers for a signal without a busy.
    pub os: Option<Actor>,
    /// The firmware that does.
    pub firmware: Option<Actor>,
}

impl Ends {
    /// What these entries leave open.
    pub fn of(machine: &Machine, entries: &[Entry]) -> Ends
        requires { length entries.now ≤ 1048576 }
        ensures { AreEnds machine.now (reverse entries.now) result }
    {
        let latched = latched(entries);
        let os = signals_made(entries, Side::Os);
        let firmware = signals_made(entries, Side::Firmware);
        Ends {
            code: queue_left(entries).waiting != 0,
            pulse: some_miss(&latched, machine.devices()),
            os: answerable(os, firmware),
            firmware: answerable(firmware, os),
        }
    }
}

/// Who answers for a signal of one side, where there are more of them than the other side has busy entries.
fn answerable(one: Signals, other: Signals) -> Option<Actor>
    ensures { result ≡ (if nat_lt other.busies one.leaves then one.first else None) }
{
    if other.busies < one.leaves {
        one.first
    } else {
        None
    }
}

/// Whether the open request asks for a query code, and how many codes wait.
#[derive(Clone, Copy, Debug)]
pub struct Queue {
    pub asks: bool,
    pub waiting: u32,
}

impl Queue {
    /// The queue after an entry.
    fn after(self, deed: Deed) -> Queue
        requires { self.waiting < 1048576 }
        ensures { result ≡ queue_after deed self }
    {
        let Queue { asks, waiting } = self;
        match deed {
            Deed::Begin(request) => Queue {
                asks: is_query(request),
                waiting,
            },
            Deed::Take(_) => Queue {
                asks: false,
                waiting,
            },
            Deed::Push(_) => Queue {
                asks,
                waiting: waiting + 1,
            },
            Deed::Ctl(Effect::Out(_)) => Queue {
                asks,
                waiting: if asks {
                    waiting.saturating_sub(1)
                } else {
                    waiting
                },
            },
            _ => self,
        }
    }
}

fn is_query(request: Request) -> bool
    ensures { result ≡ is_query request }
{
    match request {
        Request::Qr => true,
        _ => false,
    }
}

/// The queue of query codes after all entries.
fn queue_left(entries: &[Entry]) -> Queue
    requires { length entries.now ≤ 1048576 }
    ensures { result ≡ queue_of (reverse entries.now) }
{
    let mut queue = Queue {
        asks: false,
        waiting: 0,
    };
    for entry in entries {
        queue = queue.after(entry.deed);
    }
    queue
}

/// The signalling leaves of a side, its busy entries, and who made the first of these leaves.
#[derive(Clone, Copy, Debug)]
pub struct Signals {
    pub leaves: u32,
    pub busies: u32,
    pub first: Option<Actor>,
}

impl Signals {
    /// The signals after an entry.
    fn after(self, side: Side, entry: Entry) -> Signals
        requires leaves { self.leaves < 1048576 }
        requires busies { self.busies < 1048576 }
        ensures { result ≡ signals_after side entry.actor entry.deed self }
    {
        if !stands_on(side, entry.actor) {
            return self;
        }
        match entry.deed {
            Deed::Leave(true) => Signals {
                leaves: self.leaves + 1,
                busies: self.busies,
                first: match self.first {
                    Some(actor) => Some(actor),
                    None => Some(entry.actor),
                },
            },
            Deed::Busy => Signals {
                leaves: self.leaves,
                busies: self.busies + 1,
                first: self.first,
            },
            _ => self,
        }
    }
}

/// Whether an actor stands on a side.
pub fn stands_on(side: Side, actor: Actor) -> bool
    ensures { result ≡ stands_on side actor }
{
    match actor.side() {
        Some(Side::Os) => matches!(side, Side::Os),
        Some(Side::Firmware) => matches!(side, Side::Firmware),
        None => false,
    }
}

/// The signals of a side after all entries.
fn signals_made(entries: &[Entry], side: Side) -> Signals
    requires { length entries.now ≤ 1048576 }
    ensures { result ≡ signals_of side (reverse entries.now) }
{
    let mut signals = Signals {
        leaves: 0,
        busies: 0,
        first: None,
    };
    for entry in entries {
        signals = signals.after(side, *entry);
    }
    signals
}

/// The events that have a latch.
fn latched(entries: &[Entry]) -> Bits
    ensures { AreLatched (reverse entries.now) result }
{
    let mut latched = Bits::new();
    for entry in entries {
        latch(&mut latched, entry.deed);
    }
    latched
}

/// Puts the event of a latch into a set.
fn latch(latched: &mut Bits, deed: Deed)
    ensures { (n : Event) → IsEvent n → is_set latched.new n ≡ (latches_it deed n || is_set latched.old n) }
{
    match deed {
        Deed::Latch(event) => latched.put(event),
        _ => {}
    }
}

/// Whether an event of a list of pulses is not in a set.
fn misses(set: &Bits, pulses: &[Event]) -> bool
    ensures { MatchBool result (Misses set.now pulses.now) (AllSet set.now pulses.now) }
{
    for pulse in pulses {
        if is_missing(set, *pulse) {
            return true;
        }
    }
    false
}

fn is_missing(set: &Bits, event: Event) -> bool
    ensures value { result ≡ not (is_set set.now event) }
    ensures range { IsEvent event }
{
    !set.has(event)
}

/// Whether an event of one of the lists is not in a set.
fn some_miss(set: &Bits, lists: &[Items<Event>]) -> bool
    ensures { MatchBool result (SomeMisses set.now lists.now) (AllListsSet set.now lists.now) }
{
    for list in lists {
        if misses(set, list.as_slice()) {
            return true;
        }
    }
    false
}
