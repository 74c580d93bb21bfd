ghost use Rattle.std.specs.Prelude.{◌≡◌};
ghost use Rattle.event_chip.specs.Chip.{listed_slot, touched};
ghost use Rattle.event_chip.specs.State.{after, fresh, is_enabled, is_level, is_listed, is_parked, is_pending};

use acpi_regs::Listed;

/// How an event is enabled and handled.
#[derive(Clone, Copy, Debug)]
pub enum EventKind {
    /// The machine does not know the event: it is never enabled.
    Unknown,
    /// A listed fixed event, or a GPE that is listed as edge-triggered (`_Exx`).
    Edge,
    /// A GPE that is listed as level-triggered (`_Lxx`).
    Level,
    /// The event of the Global Lock or of the controller: it needs no reference, and has no handler that holds it.
    Always,
}

impl EventKind {
    /// Whether the description lists the event.
    pub fn is_listed(self) -> bool
        ensures { result ≡ is_listed self }
    {
        matches!(self, EventKind::Edge | EventKind::Level)
    }

    /// Whether the event has a line.
    pub fn is_level(self) -> bool
        ensures { result ≡ is_level self }
    {
        matches!(self, EventKind::Level)
    }
}

/// The registers of one event.
#[derive(Clone, Copy, Debug)]
pub struct EventState {
    /// The event's status bit.
    pub status: bool,
    /// The line of a level event is asserted.
    pub line: bool,
    /// A handler of the event was started or waits to be.
    pub held: bool,
    /// How many references enable the event, up to 255.
    pub count: u8,
    /// How many runs in a row, up to 16, ended under an asserted line.
    pub storm: u8,
}

/// What the chip keeps of one event.
#[derive(Clone, Copy, Debug)]
pub struct Slot {
    /// How it is enabled and handled.
    pub kind: EventKind,
    /// Its registers.
    pub state: EventState,
}

/// A way to touch an event.
#[derive(Clone, Copy, Debug)]
pub enum Touch {
    /// It happened: its status is set.
    Raise,
    /// Its line was asserted.
    Assert,
    /// Its line was dropped.
    Drop,
    /// The OS took its status for dispatch.
    Claim,
    /// A run of its handler ended.
    Finish,
    /// A reference was added.
    Up,
    /// A reference was removed.
    Down,
}

impl Slot {
    /// The slot of an event of this kind and with this many references, before anything happened.
    pub fn fresh(kind: EventKind, count: u8) -> Slot
        ensures { result ≡ record { kind = kind; state = fresh count } }
    {
        let state = EventState {
            status: false,
            line: false,
            held: false,
            count,
            storm: 0,
        };
        Slot { kind, state }
    }

    /// The slot of a listed event at the start.
    pub fn listed(item: &Listed) -> Slot
        ensures { result ≡ listed_slot item.now }
    {
        let kind = if item.level {
            EventKind::Level
        } else {
            EventKind::Edge
        };
        Slot::fresh(kind, item.refs)
    }

    /// The slot after a touch.
    pub fn after(self, touch: Touch) -> Slot
        ensures { result ≡ touched touch self }
    {
        let mut slot = self;
        slot.touch(touch)
    }

    /// Touches the event, and returns its slot after that. It writes the fields that change and no others.
    #[inline(always)]
    pub fn touch(&mut self, touch: Touch) -> Slot
        ensures new { self.new ≡ touched touch self.old }
        ensures value { result ≡ touched touch self.old }
    {
        self.state.touch(self.kind, touch);
        *self
    }

    /// Whether the event has status and is enabled.
    pub fn is_pending(self) -> bool
        ensures { result ≡ is_pending self.kind self.state }
    {
        self.state.status && self.is_enabled()
    }

    /// Whether the event is enabled: it has a reference or needs none, it is not held, and it is not parked.
    pub fn is_enabled(self) -> bool
        ensures { result ≡ is_enabled self.kind self.state }
    {
        let counted = matches!(self.kind, EventKind::Always) || self.state.count > 0;
        counted && !self.state.held && !self.is_parked()
    }

    /// Whether at least sixteen runs in a row of a level event ended under its asserted line.
    pub fn is_parked(self) -> bool
        ensures { result ≡ is_parked self.kind self.state }
    {
        self.kind.is_level() && self.state.storm >= 16
    }
}

impl EventState {
    /// Touches an event of this kind.
    #[inline(always)]
    fn touch(&mut self, kind: EventKind, touch: Touch)
        ensures { self.new ≡ after kind touch self.old }
    {
        match touch {
            Touch::Raise => self.status = true,
            Touch::Assert => {
                self.status = true;
                self.line = true;
                self.storm = 0;
            }
            Touch::Drop => {
                self.line = false;
                self.storm = 0;
            }
            Touch::Claim => self.claim(kind),
            Touch::Finish => self.finish(kind),
            Touch::Up => self.count = self.count.saturating_add(1),
            Touch::Down => self.count = self.count.saturating_sub(1),
        }
    }

    // The OS clears an edge status when it takes the event, so that a raise during the run is seen after it. A level
    // status is cleared after the run, when the handler has made the device drop its line.
    #[inline(always)]
    fn claim(&mut self, kind: EventKind)
        ensures { self.new ≡ after kind Touch.Claim self.old }
    {
        self.held = kind.is_listed();
        if !kind.is_level() {
            self.status = false;
        }
    }

    // A line that is still asserted sets the status again at once.
    #[inline(always)]
    fn finish(&mut self, kind: EventKind)
        ensures { self.new ≡ after kind Touch.Finish self.old }
    {
        self.held = false;
        self.storm = if self.line {
            self.storm.saturating_add(1).min(16)
        } else {
            0
        };
        if kind.is_level() {
            self.status = self.line;
        }
    }
}
