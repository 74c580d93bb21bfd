ghost use Rattle.std.specs.Prelude.{◌≡◌, ◌+◌, ◌<◌, ◌≤◌, [], ◌∷◌, ◌++◌, List, ℕ, length, take, decimal};
ghost use Rattle.history_text.specs.Named.{IsActor};
ghost use Rattle.history_text.specs.Text.{byte_text, cell_text, actor_text, deed_text, digit_text, effect_text, entry_line, entry_text, event_text, move_text, request_text, rest_line, rest_text, stuck_line, stuck_text};

use acpi_regs::{Actor, Cell, Deed, Effect, Entry, Event, Fixed, HostMove, Request};
use arrayvec::ArrayVec;
use itoa::Buffer;
use std::marker::Model;

/// The most bytes that a line of an entry or of a number has.
const LINE_LEN: usize = 48;

/// The text of one line, with its newline.
#[derive(Clone, Copy, Debug)]
pub struct LineText {
    /// The line, in the first `len` bytes.
    pub bytes: [u8; 48],
    /// How many bytes the line has.
    pub len: u8,
}

/// A line that is being made, which contracts see as its bytes.
#[derive(Drop)]
pub struct Line {
    bytes: ArrayVec<u8, LINE_LEN>,
}

impl Model for Line {
    ghost Value = { List ℕ };

    ghost view = { λ l. l.bytes.items };
}

impl Line {
    /// An empty line.
    pub fn new() -> Self
        ensures { result ≡ [] }
    {
        Line {
            bytes: ArrayVec::new(),
        }
    }

    /// The bytes of the line.
    pub fn as_slice(&self) -> &[u8]
        ensures { result.now ≡ self.now }
    {
        self.bytes.as_slice()
    }

    /// Adds a byte.
    pub fn push(&mut self, byte: u8)
        requires { length self.old < 48 }
        ensures { self.new ≡ self.old ++ byte ∷ [] }
    {
        self.bytes.push(byte);
    }

    /// Adds a text.
    pub fn push_text(&mut self, text: &[u8])
        requires { length self.old + length text.now ≤ 48 }
        ensures { self.new ≡ self.old ++ text.now }
    {
        self.bytes.try_extend_from_slice(text).unwrap();
    }

    /// Adds a number in decimal.
    pub fn push_number(&mut self, n: u32)
        requires { length self.old + 10 ≤ 48 }
        ensures text { self.new ≡ self.old ++ decimal n }
        ensures len { length self.new ≤ length self.old + 10 }
    {
        let mut digits = Buffer::new();
        self.push_text(digits.format(n).as_bytes());
    }

    /// Adds the name of an actor.
    pub fn push_actor(&mut self, actor: Actor)
        requires { length self.old + 11 ≤ 48 }
        ensures text { self.new ≡ self.old ++ actor_text actor }
        ensures len { length self.new ≤ length self.old + 11 }
    {
        match actor {
            Actor::Int => self.push_text(b"int"),
            Actor::Poll => self.push_text(b"poll"),
            Actor::Ec => self.push_text(b"ec"),
            Actor::Worker(number) => self.push_numbered(b'w', number),
            Actor::Device(number) => self.push_numbered(b'd', number),
            Actor::Firmware(number) => self.push_numbered(b'f', number),
        }
    }

    /// A byte as two hexadecimal digits.
    fn push_byte(&mut self, byte: u8)
        requires { length self.old + 2 ≤ 48 }
        ensures { self.new ≡ self.old ++ byte_text byte }
    {
        self.push(digit(byte / 16));
        self.push(digit(byte % 16));
    }

    /// A cell: its region, a colon, and its offset.
    fn push_cell(&mut self, cell: Cell)
        requires { length self.old + 7 ≤ 48 }
        ensures { self.new ≡ self.old ++ cell_text cell }
    {
        self.push_byte(cell.region);
        self.push(b':');
        self.push_byte((cell.offset / 256) as u8);
        self.push_byte((cell.offset % 256) as u8);
    }

    /// The name of an actor that has a number.
    fn push_numbered(&mut self, letter: u8, number: u8)
        requires { length self.old + 11 ≤ 48 }
        ensures text { self.new ≡ self.old ++ letter ∷ decimal number }
        ensures len { length self.new ≤ length self.old + 11 }
    {
        self.push(letter);
        self.push_number(u32::from(number));
    }

    /// The name of an event.
    fn push_event(&mut self, event: Event)
        requires { length self.old + 3 ≤ 48 }
        ensures text { self.new ≡ self.old ++ event_text event }
        ensures len { length self.new ≡ length self.old + 3 }
    {
        match event {
            Event::Fixed(Fixed::Tmr) => self.push_text(b"tmr"),
            Event::Fixed(Fixed::Gbl) => self.push_text(b"gbl"),
            Event::Fixed(Fixed::Pwr) => self.push_text(b"pwr"),
            Event::Fixed(Fixed::Slp) => self.push_text(b"slp"),
            Event::Fixed(Fixed::Rtc) => self.push_text(b"rtc"),
            Event::Gpe(number) => {
                self.push(b'g');
                self.push_byte(number);
            }
        }
    }

    /// A word and a byte.
    fn push_word_byte(&mut self, word: &[u8], byte: u8)
        requires { length self.old + length word.now + 2 ≤ 48 }
        ensures text { self.new ≡ self.old ++ (word.now ++ byte_text byte) }
        ensures len { length self.new ≡ length self.old + length word.now + 2 }
    {
        self.push_text(word);
        self.push_byte(byte);
    }

    /// A word, a byte, a space and a byte.
    fn push_word_bytes(&mut self, word: &[u8], first: u8, second: u8)
        requires { length self.old + length word.now + 5 ≤ 48 }
        ensures text { self.new ≡ self.old ++ (word.now ++ (byte_text first ++ 32 ∷ byte_text second)) }
        ensures len { length self.new ≡ length self.old + length word.now + 5 }
    {
        self.push_text(word);
        self.push_byte(first);
        self.push(b' ');
        self.push_byte(second);
    }

    /// A word and an event.
    fn push_word_event(&mut self, word: &[u8], event: Event)
        requires { length self.old + length word.now + 3 ≤ 48 }
        ensures text { self.new ≡ self.old ++ (word.now ++ event_text event) }
        ensures len { length self.new ≡ length self.old + length word.now + 3 }
    {
        self.push_text(word);
        self.push_event(event);
    }

    /// A word and a number.
    fn push_word_number(&mut self, word: &[u8], n: u32)
        requires { length self.old + length word.now + 10 ≤ 48 }
        ensures text { self.new ≡ self.old ++ (word.now ++ decimal n) }
        ensures len { length self.new ≤ length self.old + length word.now + 10 }
    {
        self.push_text(word);
        self.push_number(n);
    }

    /// An access to a cell, after a word for it.
    fn push_access(&mut self, word: &[u8], cell: Cell, byte: u8)
        requires { length self.old + length word.now + 10 ≤ 48 }
        ensures text { self.new ≡ self.old ++ (word.now ++ (cell_text cell ++ 32 ∷ byte_text byte)) }
        ensures len { length self.new ≡ length self.old + length word.now + 10 }
    {
        self.push_text(word);
        self.push_cell(cell);
        self.push(b' ');
        self.push_byte(byte);
    }

    /// What is asked of the controller.
    fn push_request(&mut self, request: Request)
        requires { length self.old + 8 ≤ 48 }
        ensures text { self.new ≡ self.old ++ request_text request }
        ensures len { length self.new ≤ length self.old + 8 }
    {
        match request {
            Request::Rd(address) => self.push_word_byte(b"rd ", address),
            Request::Wr(address, byte) => self.push_word_bytes(b"wr ", address, byte),
            Request::Be => self.push_text(b"be"),
            Request::Bd => self.push_text(b"bd"),
            Request::Qr => self.push_text(b"qr"),
        }
    }

    /// A move of the host.
    fn push_move(&mut self, host: HostMove)
        requires { length self.old + 8 ≤ 48 }
        ensures text { self.new ≡ self.old ++ move_text host }
        ensures len { length self.new ≤ length self.old + 8 }
    {
        match host {
            HostMove::Sc(byte) => self.push_word_byte(b"sc ", byte),
            HostMove::Data(byte) => self.push_word_byte(b"data ", byte),
            HostMove::Get(byte) => self.push_word_byte(b"get ", byte),
        }
    }

    /// A move of the controller.
    fn push_effect(&mut self, effect: Effect)
        requires { length self.old + 8 ≤ 48 }
        ensures text { self.new ≡ self.old ++ effect_text effect }
        ensures len { length self.new ≤ length self.old + 8 }
    {
        match effect {
            Effect::Taken => self.push_text(b"taken"),
            Effect::Out(byte) => self.push_word_byte(b"out ", byte),
            Effect::Put => self.push_text(b"put"),
            Effect::Calm => self.push_text(b"calm"),
        }
    }

    fn push_begin(&mut self, request: Request)
        requires { length self.old + 20 ≤ 48 }
        ensures text { self.new ≡ self.old ++ deed_text (Deed.Begin request) }
        ensures len { length self.new ≤ length self.old + 20 }
    {
        self.push_text(b"begin ");
        self.push_request(request);
    }

    fn push_step(&mut self, host: HostMove)
        requires { length self.old + 20 ≤ 48 }
        ensures text { self.new ≡ self.old ++ deed_text (Deed.Step host) }
        ensures len { length self.new ≤ length self.old + 20 }
    {
        self.push_text(b"step ");
        self.push_move(host);
    }

    fn push_ctl(&mut self, effect: Effect)
        requires { length self.old + 20 ≤ 48 }
        ensures text { self.new ≡ self.old ++ deed_text (Deed.Ctl effect) }
        ensures len { length self.new ≤ length self.old + 20 }
    {
        self.push_text(b"ctl ");
        self.push_effect(effect);
    }

    /// What an entry's line says after the actor.
    fn push_deed(&mut self, deed: Deed)
        requires { length self.old + 20 ≤ 48 }
        ensures text { self.new ≡ self.old ++ deed_text deed }
        ensures len { length self.new ≤ length self.old + 20 }
    {
        match deed {
            Deed::Seek => self.push_text(b"seek"),
            Deed::Busy => self.push_text(b"busy"),
            Deed::Woken => self.push_text(b"woken"),
            Deed::Own => self.push_text(b"own"),
            Deed::Disown => self.push_text(b"disown"),
            Deed::Leave(false) => self.push_text(b"leave 0"),
            Deed::Leave(true) => self.push_text(b"leave 1"),
            Deed::Read(cell, byte) => self.push_access(b"read ", cell, byte),
            Deed::Write(cell, byte) => self.push_access(b"write ", cell, byte),
            Deed::Begin(request) => self.push_begin(request),
            Deed::Step(host) => self.push_step(host),
            Deed::Ctl(effect) => self.push_ctl(effect),
            Deed::Take(None) => self.push_text(b"take -"),
            Deed::Take(Some(byte)) => self.push_word_byte(b"take ", byte),
            Deed::Push(code) => self.push_word_byte(b"push ", code),
            Deed::Raise(event) => self.push_word_event(b"raise ", event),
            Deed::Latch(event) => self.push_word_event(b"latch ", event),
            Deed::Assert(event) => self.push_word_event(b"assert ", event),
            Deed::Drop(event) => self.push_word_event(b"drop ", event),
            Deed::Claim(event) => self.push_word_event(b"claim ", event),
            Deed::Start(job) => self.push_word_number(b"start ", job),
            Deed::Finish(job) => self.push_word_number(b"finish ", job),
            Deed::Notify(device, value) => self.push_word_bytes(b"notify ", device, value),
            Deed::Up(event) => self.push_word_event(b"up ", event),
            Deed::Down(event) => self.push_word_event(b"down ", event),
        }
    }
}

/// The text of an entry, without a newline.
pub fn text_of_entry(entry: &Entry) -> Line
    ensures text { result ≡ entry_text entry.now }
    ensures len { length result < 48 }
{
    let mut line = Line::new();
    line.push_actor(entry.actor);
    line.push(b' ');
    line.push_deed(entry.deed);
    line
}

/// The line of an entry, with its newline.
pub fn line_of_entry(entry: &Entry) -> Line
    ensures { result ≡ entry_line entry.now }
{
    let mut line = text_of_entry(entry);
    line.push(b'\n');
    line
}

/// The text of an event that is parked at the end, without a newline.
pub fn text_of_stuck(event: Event) -> Line
    ensures text { result ≡ stuck_text event }
    ensures len { length result < 48 }
{
    let mut line = Line::new();
    line.push_word_event(b"stuck ", event);
    line
}

/// The line of an event that is parked at the end, with its newline.
pub fn line_of_stuck(event: Event) -> Line
    ensures { result ≡ stuck_line event }
{
    let mut line = text_of_stuck(event);
    line.push(b'\n');
    line
}

/// The text of the last line of a log of so many entries, without a newline.
pub fn text_of_rest(entries: u32) -> Line
    ensures text { result ≡ rest_text entries }
    ensures len { length result < 48 }
{
    let mut line = Line::new();
    line.push_word_number(b"rest ", entries);
    line
}

/// The last line of a log of so many entries, with its newline.
pub fn line_of_rest(entries: u32) -> Line
    ensures { result ≡ rest_line entries }
{
    let mut line = text_of_rest(entries);
    line.push(b'\n');
    line
}

/// The line of an entry, with its newline. The numbers of a worker go to 3, those of a device and of a firmware to 7:
/// others have no name.
pub fn write_line(entry: &Entry) -> LineText
    requires { IsActor entry.now.actor }
    ensures len { result.len ≤ 48 }
    ensures text { take result.len result.bytes ≡ entry_line entry.now }
{
    let line = line_of_entry(entry);
    let text = line.as_slice();
    let mut bytes = [0; LINE_LEN];
    let (front, _) = bytes.split_at_mut(text.len());
    front.copy_from_slice(text);
    LineText {
        bytes,
        len: text.len() as u8,
    }
}

/// A hexadecimal digit.
fn digit(n: u8) -> u8
    requires { n < 16 }
    ensures { result ≡ digit_text n }
{
    if n < 10 { b'0' + n } else { b'A' - 10 + n }
}
