ghost use Rattle.std.specs.Prelude.{All, ◌≡◌, ◌<◌, ◌≤◌, ◌≢◌, ◌==◌, length, IsTrue, IsNone, IsSome, IfOk, Some, None, nat_le, is_some, slice_index, ◌↔◌};
ghost use Rattle.acpi_regs.specs.Flags.{ec_bits};
ghost use Rattle.ec_chip.specs.Chip.{is_nothing, after_calm, after_push, after_read, after_step, after_taking, after_write, CanCalm, can_write, effect_on, fresh, next_effect, outcome_of, quiet, status_bits};
ghost use Rattle.ec_chip.specs.Parts.{allows, command_effect, first_code};

use crate::{CtlOutcome, Half, Port};
use acpi_regs::{EcStatus, Effect, Memory};
use bitflags::Flags;
use std::alloc::Global;
use std::collections::VecDeque;
use std::marker::Model;

/// RD_EC (ACPI 6.5, section 12.3.1).
const READ: u8 = 0x80;
/// WR_EC (ACPI 6.5, section 12.3.2).
const WRITE: u8 = 0x81;
/// BE_EC (ACPI 6.5, section 12.3.3).
const BURST_ENABLE: u8 = 0x82;
/// BD_EC (ACPI 6.5, section 12.3.4).
const BURST_DISABLE: u8 = 0x83;
/// QR_EC (ACPI 6.5, section 12.3.5).
const QUERY: u8 = 0x84;
/// The answer to BE_EC (ACPI 6.5, section 12.3.3).
const BURST_ACKNOWLEDGE: u8 = 0x90;

/// An embedded controller.
///
/// The host writes commands and their bytes, and reads answers. A written byte stands until the controller takes
/// it, which it does in [`EcChip::controller_step`]. The firmware adds query codes, which wait until the host asks.
#[derive(Debug, Drop)]
pub struct EcChip {
    /// The 256 bytes of the controller's space.
    cells: Vec<u8>,
    /// The query codes that wait, the oldest first.
    codes: VecDeque<u8>,
    room: u32,
    half: Half,
    /// What the host wrote and the controller has not taken.
    input: Option<u8>,
    /// What the controller put out and the host has not read.
    output: Option<u8>,
    /// Whether the host's last write was to EC_SC.
    command: bool,
    burst: bool,
}

impl Model for EcChip {
    ghost use Rattle.std.specs.Prelude.{All, ◌≡◌, ◌≤◌, ◌<◌, ◌^◌, length, All};
    ghost use Rattle.std.specs.VecDeque.{deque_capacity};
    ghost use Rattle.ec_chip.specs.Chip.{ChipData};

    ghost Value = { ChipData };

    ghost view = { λ c. record {
      cells = c.cells.items;
      codes = c.codes.items;
      room = c.room;
      exchange = record { half = c.half; input = c.input; output = c.output };
      command = c.command;
      burst = c.burst;
    } };

    // The room was taken when the controller was made, so a push takes no memory.
    ghost invariant = { λ c. (length c.cells.items ≡ 256) × (length c.codes.items ≤ c.room)
        × (c.room ≤ deque_capacity c.codes) × (c.room < 2 ^ 32) × All (λ q. 0 < q) c.codes.items };
}

impl EcChip {
    /// A controller with these 256 bytes and room for `room` query codes, with nothing on its way, no code and
    /// burst mode off. It answers `Memory` where there is no memory for the room.
    pub fn new(alloc: Global, cells: Vec<u8>, room: u32) -> Result<EcChip, Memory>
        requires { length cells.items ≡ 256 }
        ensures { IfOk result (λ chip. chip ≡ fresh cells.items room) }
    {
        let codes = VecDeque::with_capacity(alloc, room as usize)?;
        Ok(EcChip {
            cells,
            codes,
            room,
            half: Half::Nothing,
            input: None,
            output: None,
            command: false,
            burst: false,
        })
    }

    /// The status register EC_SC (ACPI 6.5, section 12.2.1). OBF stands while an output waits to be read, IBF while
    /// the host's byte waits to be taken, CMD where the host last wrote to EC_SC, BURST in burst mode, and SCI_EVT
    /// while a query code waits.
    pub fn status(&self) -> EcStatus
        ensures { ec_bits result ≡ status_bits self.now }
    {
        let mut status = EcStatus::empty();
        status.set(EcStatus::OBF, self.output.is_some());
        status.set(EcStatus::IBF, self.input.is_some());
        status.set(EcStatus::CMD, self.command);
        status.set(EcStatus::BURST, self.burst);
        status.set(EcStatus::SCI_EVT, !self.codes.is_empty());
        status
    }

    /// Whether the host may write this byte to this register: IBF is clear, and the byte is the next that some
    /// command allows.
    pub fn can_write(&self, port: Port, byte: u8) -> bool
        ensures { result ≡ can_write self.now port byte }
    {
        self.input.is_none() && allows(self.half, port, byte)
    }

    /// The host writes a byte to a register: IBF is set (ACPI 6.5, sections 12.2.2 and 12.2.3).
    ///
    /// An output that was not read is no bar. The controller's next output takes its place.
    pub fn host_write(&mut self, port: Port, byte: u8)
        requires { IsTrue (can_write self.old port byte) }
        ensures { self.new ≡ after_write port byte self.old }
    {
        self.input = Some(byte);
        self.command = match port {
            Port::Sc => true,
            Port::Data => false,
        };
    }

    /// Whether the host may read: OBF is set.
    pub fn can_read(&self) -> bool
        ensures { result ≡ is_some self.now.exchange.output }
    {
        self.output.is_some()
    }

    /// The host reads EC_DATA: OBF is clear (ACPI 6.5, section 12.2.3).
    pub fn host_read(&mut self) -> u8
        requires { IsSome self.old.exchange.output }
        ensures value { self.old.exchange.output ≡ Some result }
        ensures chip { self.new ≡ after_read self.old }
    {
        let byte = self.output();
        self.output = None;
        byte
    }

    /// The byte that [`EcChip::host_read`] would give.
    pub fn output(&self) -> u8
        requires { IsSome self.now.exchange.output }
        ensures { self.now.exchange.output ≡ Some result }
    {
        match self.output {
            Some(byte) => byte,
            None => 0,
        }
    }

    /// The controller takes the host's byte, and IBF is clear. Idle exactly where it was clear.
    pub fn controller_step(&mut self) -> CtlOutcome
        ensures outcome { result ≡ outcome_of (next_effect self.old) }
        ensures idle { result ≡ CtlOutcome.Idle ↔ (self.old.exchange.input ≡ None) }
        ensures chip { self.new ≡ after_step self.old }
    {
        match self.input {
            None => CtlOutcome::Idle,
            Some(byte) => CtlOutcome::Stepped(self.take(byte)),
        }
    }

    /// What [`EcChip::controller_step`] would do, with its byte. `None` exactly where IBF is clear.
    pub fn next_effect(&self) -> Option<Effect>
        ensures effect { result ≡ next_effect self.now }
        ensures idle { IsNone result ↔ (self.now.exchange.input ≡ None) }
    {
        match self.input {
            None => None,
            Some(byte) => Some(self.effect_on(byte)),
        }
    }

    /// Whether the list of query codes has no room.
    pub fn is_full(&self) -> bool
        ensures { IsTrue result ↔ (self.now.room ≤ length self.now.codes) }
    {
        self.codes.len() >= self.room as usize
    }

    /// The firmware adds a query code, and SCI_EVT is set.
    pub fn push(&mut self, code: u8)
        requires code { code ≢ 0 }
        requires room { length self.old.codes < self.old.room }
        ensures { self.new ≡ after_push code self.old }
    {
        self.codes.push_back_reserved(code);
    }

    /// Whether nothing is on its way: IBF and OBF are clear, and no command is half given.
    pub fn is_quiet(&self) -> bool
        ensures { IsTrue result ↔ (self.now.exchange ≡ quiet) }
    {
        self.input.is_none() && self.output.is_none() && is_nothing(self.half)
    }

    /// Whether the controller may leave burst mode of its own accord: it is in it, and nothing is on its way.
    pub fn can_calm(&self) -> bool
        ensures { IsTrue result ↔ CanCalm self.now }
    {
        self.burst && self.is_quiet()
    }

    /// The controller leaves burst mode of its own accord (ACPI 6.5, section 12.3.3).
    pub fn calm(&mut self)
        requires { CanCalm self.old }
        ensures { self.new ≡ after_calm self.old }
    {
        self.burst = false;
    }

    /// The byte at an address of the controller's space.
    pub fn cell(&self, address: u8) -> u8
        ensures { result ≡ slice_index self.now.cells address }
    {
        self.cells[usize::from(address)]
    }

    /// How many query codes wait.
    pub fn codes(&self) -> u32
        ensures { result ≡ length self.now.codes }
    {
        self.codes.len() as u32
    }

    /// No code that waits is 00, which a query is given where none waits. The call has no cost: it says so to a
    /// caller's proof.
    pub fn law_codes(&self)
        ensures { All (λ q. 0 < q) self.now.codes }
    {
        let _codes = &self.codes;
    }

    /// What the controller would do with this byte.
    fn effect_on(&self, byte: u8) -> Effect
        ensures { result ≡ effect_on self.now byte }
    {
        match self.half {
            Half::Nothing => self.command_effect(byte),
            Half::Read => Effect::Out(self.cell(byte)),
            Half::Write => Effect::Taken,
            Half::WriteAt(_) => Effect::Put,
        }
    }

    fn command_effect(&self, byte: u8) -> Effect
        ensures { result ≡ command_effect self.now.codes byte }
    {
        if byte == BURST_ENABLE {
            return Effect::Out(BURST_ACKNOWLEDGE);
        }
        if byte == QUERY {
            return Effect::Out(self.first_code());
        }
        Effect::Taken
    }

    /// The first query code, or 00 where none waits.
    fn first_code(&self) -> u8
        ensures { result ≡ first_code self.now.codes }
    {
        match self.codes.front() {
            Some(code) => *code,
            None => 0,
        }
    }

    /// The controller takes this byte.
    fn take(&mut self, byte: u8) -> Effect
        ensures effect { result ≡ effect_on self.old byte }
        ensures chip { self.new ≡ after_taking self.old byte }
    {
        match self.half {
            Half::Nothing => self.take_command(byte),
            Half::Read => {
                let answer = self.cell(byte);
                self.half = Half::Nothing;
                self.put_out(answer)
            }
            Half::Write => {
                self.half = Half::WriteAt(byte);
                self.input = None;
                Effect::Taken
            }
            Half::WriteAt(address) => {
                self.cells[usize::from(address)] = byte;
                self.half = Half::Nothing;
                self.input = None;
                Effect::Put
            }
        }
    }

    /// The controller takes this command, where none is half given.
    fn take_command(&mut self, byte: u8) -> Effect
        requires { self.old.exchange.half ≡ Half.Nothing }
        ensures effect { result ≡ effect_on self.old byte }
        ensures chip { self.new ≡ after_taking self.old byte }
    {
        match byte {
            READ => self.wait_for(Half::Read),
            WRITE => self.wait_for(Half::Write),
            BURST_ENABLE => {
                self.burst = true;
                self.put_out(BURST_ACKNOWLEDGE)
            }
            BURST_DISABLE => {
                self.burst = false;
                self.wait_for(Half::Nothing)
            }
            QUERY => {
                let code = self.first_code();
                let _ = self.codes.pop_front();
                self.put_out(code)
            }
            _ => self.wait_for(Half::Nothing),
        }
    }

    /// IBF is clear, and the command's next byte is to come.
    fn wait_for(&mut self, half: Half) -> Effect
        ensures effect { result ≡ Effect.Taken }
        ensures chip { self.new ≡ record self.old
            { exchange = record self.old.exchange { half = half; input = None } } }
    {
        self.half = half;
        self.input = None;
        Effect::Taken
    }

    /// IBF is clear and OBF is set.
    fn put_out(&mut self, answer: u8) -> Effect
        ensures effect { result ≡ Effect.Out answer }
        ensures chip { self.new ≡ record self.old
            { exchange = record self.old.exchange { input = None; output = Some answer } } }
    {
        self.input = None;
        self.output = Some(answer);
        Effect::Out(answer)
    }
}

fn is_nothing(half: Half) -> bool
    ensures { result ≡ is_nothing half }
{
    match half {
        Half::Nothing => true,
        Half::Read | Half::Write | Half::WriteAt(_) => false,
    }
}

/// Whether a command allows this byte next in this register.
fn allows(half: Half, port: Port, byte: u8) -> bool
    ensures { result ≡ allows half port byte }
{
    match (half, port) {
        (Half::Nothing, Port::Sc) => byte >= READ && byte <= QUERY,
        (Half::Nothing, Port::Data) => false,
        (_, Port::Sc) => false,
        (_, Port::Data) => true,
    }
}
