//! The controller as ACPI 6.5, chapter 12, has it: each command's bytes and effects, the status at each of them,
//! burst mode, and query codes in their order.
use crate::{CtlOutcome, EcChip, Port, laws};
use acpi_regs::{EcStatus, Effect};
use bitflags::Flags;
use std::alloc::Global;
use std::process::Abort;
use std::test::Fail;

/// One call, and what it is to do.
#[derive(Clone, Copy, Debug)]
enum Call {
    /// The host writes this byte to EC_SC.
    Sc(u8),
    /// The host writes this byte to EC_DATA.
    Data(u8),
    /// The host reads this byte.
    Get(u8),
    /// The controller takes its turn and does this.
    Ctl(Effect),
    /// The controller has nothing to do.
    Idle,
    /// The firmware adds this code.
    Push(u8),
    /// The controller leaves burst mode.
    Calm,
}

const OBF: u8 = 0x01;

const IBF: u8 = 0x02;

const CMD: u8 = 0x08;

const BURST: u8 = 0x10;

const SCI_EVT: u8 = 0x20;

// A controller whose byte 20h is 5Ah and byte FFh is A5h, with room for two codes.
fn small_chip(alloc: Global) -> Result<EcChip, Fail> {
    let mut cells = vec![in alloc; 0u8; 256]?;
    cells[0x20] = 0x5A;
    cells[0xFF] = 0xA5;
    let chip = EcChip::new(alloc, cells, 2)?;
    Ok(chip)
}

// Makes the calls in order, and compares the status register behind each with the byte beside it.
fn make_all(rt: &impl Abort, chip: &mut EcChip, calls: &[(Call, u8)]) {
    for (call, status) in calls {
        make(rt, chip, *call);
        assert_eq!(rt; chip.status().bits(), *status, "after {call:?}");
    }
}

fn make(rt: &impl Abort, chip: &mut EcChip, call: Call) {
    match call {
        Call::Sc(byte) => write(rt, chip, Port::Sc, byte),
        Call::Data(byte) => write(rt, chip, Port::Data, byte),
        Call::Get(byte) => {
            assert!(rt; chip.can_read());
            assert_eq!(rt; chip.output(), byte);
            assert_eq!(rt; chip.host_read(), byte);
        }
        Call::Ctl(effect) => {
            assert_eq!(rt; chip.next_effect(), Some(effect));
            assert_eq!(rt; chip.controller_step(), CtlOutcome::Stepped(effect));
        }
        Call::Idle => {
            assert_eq!(rt; chip.next_effect(), None);
            assert_eq!(rt; chip.controller_step(), CtlOutcome::Idle);
        }
        Call::Push(code) => {
            assert!(rt; code != 0 && !chip.is_full());
            chip.push(code);
        }
        Call::Calm => {
            assert!(rt; chip.can_calm());
            chip.calm();
        }
    }
}

fn write(rt: &impl Abort, chip: &mut EcChip, port: Port, byte: u8) {
    assert!(rt; chip.can_write(port, byte));
    chip.host_write(port, byte);
}

#[test]
fn each_command_makes_its_moves(rt: HostRuntime) -> Result<(), Fail> {
    let mut chip = small_chip(rt.alloc())?;
    let calls = [
        (Call::Idle, 0),
        // Read 20h.
        (Call::Sc(0x80), IBF | CMD),
        (Call::Ctl(Effect::Taken), CMD),
        (Call::Data(0x20), IBF),
        (Call::Ctl(Effect::Out(0x5A)), OBF),
        (Call::Idle, OBF),
        (Call::Get(0x5A), 0),
        // Write 77h to 20h, and read it.
        (Call::Sc(0x81), IBF | CMD),
        (Call::Ctl(Effect::Taken), CMD),
        (Call::Data(0x20), IBF),
        (Call::Ctl(Effect::Taken), 0),
        (Call::Data(0x77), IBF),
        (Call::Ctl(Effect::Put), 0),
        (Call::Sc(0x80), IBF | CMD),
        (Call::Ctl(Effect::Taken), CMD),
        (Call::Data(0x20), IBF),
        (Call::Ctl(Effect::Out(0x77)), OBF),
        (Call::Get(0x77), 0),
        // No other byte changed.
        (Call::Sc(0x80), IBF | CMD),
        (Call::Ctl(Effect::Taken), CMD),
        (Call::Data(0xFF), IBF),
        (Call::Ctl(Effect::Out(0xA5)), OBF),
        (Call::Get(0xA5), 0),
    ];
    make_all(&rt, &mut chip, &calls);
    assert_eq!(rt; chip.cell(0x20), 0x77);
    assert_eq!(rt; chip.cell(0x21), 0);
    assert_eq!(rt; chip.cell(0xFF), 0xA5);
    Ok(())
}

#[test]
fn burst_mode_stands_from_its_acknowledge_until_it_is_left(rt: HostRuntime) -> Result<(), Fail> {
    let mut chip = small_chip(rt.alloc())?;
    let calls = [
        // On from the acknowledge, not from the command.
        (Call::Sc(0x82), IBF | CMD),
        (Call::Ctl(Effect::Out(0x90)), OBF | CMD | BURST),
        (Call::Get(0x90), CMD | BURST),
        // It stays over a read.
        (Call::Sc(0x80), IBF | CMD | BURST),
        (Call::Ctl(Effect::Taken), CMD | BURST),
        (Call::Data(0xFF), IBF | BURST),
        (Call::Ctl(Effect::Out(0xA5)), OBF | BURST),
        (Call::Get(0xA5), BURST),
        // Off once the command is taken.
        (Call::Sc(0x83), IBF | CMD | BURST),
        (Call::Ctl(Effect::Taken), CMD),
        // On again, and off by the controller itself.
        (Call::Sc(0x82), IBF | CMD),
        (Call::Ctl(Effect::Out(0x90)), OBF | CMD | BURST),
        (Call::Get(0x90), CMD | BURST),
        (Call::Calm, CMD),
    ];
    make_all(&rt, &mut chip, &calls);
    assert!(rt; !chip.can_calm());
    Ok(())
}

#[test]
fn codes_are_given_once_and_in_their_order(rt: HostRuntime) -> Result<(), Fail> {
    let mut chip = small_chip(rt.alloc())?;
    let calls = [
        (Call::Push(0x2A), SCI_EVT),
        (Call::Push(0x07), SCI_EVT),
        (Call::Sc(0x84), IBF | CMD | SCI_EVT),
        (Call::Ctl(Effect::Out(0x2A)), OBF | CMD | SCI_EVT),
        (Call::Push(0xFF), OBF | CMD | SCI_EVT),
        (Call::Get(0x2A), CMD | SCI_EVT),
        (Call::Sc(0x84), IBF | CMD | SCI_EVT),
        (Call::Ctl(Effect::Out(0x07)), OBF | CMD | SCI_EVT),
        (Call::Get(0x07), CMD | SCI_EVT),
        (Call::Sc(0x84), IBF | CMD | SCI_EVT),
        (Call::Ctl(Effect::Out(0xFF)), OBF | CMD),
        (Call::Get(0xFF), CMD),
        // None is left.
        (Call::Sc(0x84), IBF | CMD),
        (Call::Ctl(Effect::Out(0x00)), OBF | CMD),
        (Call::Get(0x00), CMD),
    ];
    make_all(&rt, &mut chip, &calls);
    assert_eq!(rt; chip.codes(), 0);
    Ok(())
}

#[test]
fn only_the_next_byte_of_a_command_may_be_written(rt: HostRuntime) -> Result<(), Fail> {
    let mut chip = small_chip(rt.alloc())?;
    for byte in [0x00, 0x7F, 0x85, 0xFF] {
        assert!(rt; !chip.can_write(Port::Sc, byte), "command {byte}");
    }
    assert!(rt; !chip.can_write(Port::Data, 0x80));
    assert!(rt; !chip.can_read() && !chip.can_calm());
    make(&rt, &mut chip, Call::Sc(0x81));
    // The controller has not taken the command.
    assert!(rt; !chip.can_write(Port::Data, 0x20));
    make(&rt, &mut chip, Call::Ctl(Effect::Taken));
    assert!(rt; !chip.can_write(Port::Sc, 0x80));
    assert!(rt; chip.can_write(Port::Data, 0x20));
    assert!(rt; !chip.is_full());
    chip.law_codes();
    make(&rt, &mut chip, Call::Push(1));
    make(&rt, &mut chip, Call::Push(2));
    assert!(rt; chip.is_full());
    assert_eq!(rt; chip.codes(), 2);
    assert!(rt; chip.status().contains(EcStatus::SCI_EVT));
    Ok(())
}

#[test]
fn outcomes_are_compared_by_their_effects(rt: HostRuntime) {
    let stepped = CtlOutcome::Stepped(Effect::Out(1));
    assert!(rt; laws::law_same_outcome(stepped, stepped));
    assert!(rt; !laws::law_same_outcome(stepped, CtlOutcome::Stepped(Effect::Out(2))));
    assert!(rt; !laws::law_same_outcome(stepped, CtlOutcome::Idle));
}
