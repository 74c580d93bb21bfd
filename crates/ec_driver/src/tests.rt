//! The moves of each request (ACPI 6.5, sections 12.3.1 to 12.3.5), with the host and the controller in turn and out
//! of turn.
ghost use Rattle.std.specs.Prelude.{◌≡◌, IfOk};
ghost use Rattle.ec_chip.specs.Chip.{quiet};
ghost use Rattle.ec_driver.specs.Driver.{Stands};

use crate::{AdvanceOutcome, Move, Transaction, laws};
use acpi_regs::{EcStatus, Effect, HostMove, Request};
use bitflags::Flags;
use ec_chip::{CtlOutcome, EcChip};
use std::alloc::Global;
use std::process::Abort;
use std::test::Fail;

// A controller whose byte 20h is 5Ah, with room for three codes.
fn small_chip(alloc: Global) -> Result<EcChip, Fail>
    ensures { IfOk result (λ chip. chip.exchange ≡ quiet) }
{
    let mut cells = vec![in alloc; 0u8; 256]?;
    cells[0x20] = 0x5A;
    let chip = EcChip::new(alloc, cells, 3)?;
    Ok(chip)
}

// Runs a request to its end. At each of the host's moves the controller is idle, and at each of the controller's the
// host has to wait.
fn run(rt: &impl Abort, chip: &mut EcChip, request: Request, moves: &[Move], taken: Option<u8>) {
    assert!(rt; chip.is_quiet());
    laws::law_stands();
    let mut transaction = Transaction::new(request);
    for next in moves {
        assert_eq!(rt; transaction.finished(chip), None);
        match next {
            Move::Host(step) => host(rt, &mut transaction, chip, *step),
            Move::Ctl(effect) => controller(rt, &mut transaction, chip, *effect),
        }
    }
    assert_eq!(rt; transaction.next_host(chip), None);
    assert_eq!(rt; transaction.finished(chip), Some(taken));
    assert_eq!(rt; transaction.advance(chip), AdvanceOutcome::Done(taken));
}

fn host(rt: &impl Abort, transaction: &mut Transaction, chip: &mut EcChip, step: HostMove)
    requires { Stands transaction.old chip.old }
    ensures { Stands transaction.new chip.new }
{
    laws::law_stands();
    assert_eq!(rt; chip.controller_step(), CtlOutcome::Idle);
    assert_eq!(rt; transaction.next_host(chip), Some(step));
    assert_eq!(rt; transaction.advance(chip), AdvanceOutcome::Advanced(step));
}

fn controller(rt: &impl Abort, transaction: &mut Transaction, chip: &mut EcChip, effect: Effect)
    requires { Stands transaction.old chip.old }
    ensures { Stands transaction.new chip.new }
{
    laws::law_stands();
    let status = chip.status();
    assert!(rt; status.contains(EcStatus::IBF));
    assert_eq!(rt; transaction.next_host(chip), None);
    assert_eq!(rt; transaction.advance(chip), AdvanceOutcome::NotReady(status));
    assert_eq!(rt; chip.controller_step(), CtlOutcome::Stepped(effect));
}

#[test]
fn each_request_makes_its_moves(rt: HostRuntime) -> Result<(), Fail> {
    let mut chip = small_chip(rt.alloc())?;
    let read = |byte: u8| {
        [
            Move::Host(HostMove::Sc(0x80)),
            Move::Ctl(Effect::Taken),
            Move::Host(HostMove::Data(0x20)),
            Move::Ctl(Effect::Out(byte)),
            Move::Host(HostMove::Get(byte)),
        ]
    };
    let write = [
        Move::Host(HostMove::Sc(0x81)),
        Move::Ctl(Effect::Taken),
        Move::Host(HostMove::Data(0x20)),
        Move::Ctl(Effect::Taken),
        Move::Host(HostMove::Data(0x77)),
        Move::Ctl(Effect::Put),
    ];
    run(&rt, &mut chip, Request::Rd(0x20), &read(0x5A), Some(0x5A));
    run(&rt, &mut chip, Request::Wr(0x20, 0x77), &write, None);
    assert_eq!(rt; chip.cell(0x20), 0x77);
    assert_eq!(rt; chip.cell(0x21), 0);
    run(&rt, &mut chip, Request::Rd(0x20), &read(0x77), Some(0x77));
    Ok(())
}

#[test]
fn burst_mode_goes_on_at_the_acknowledge_and_off_once_taken(rt: HostRuntime) -> Result<(), Fail> {
    let mut chip = small_chip(rt.alloc())?;
    let enable = [
        Move::Host(HostMove::Sc(0x82)),
        Move::Ctl(Effect::Out(0x90)),
        Move::Host(HostMove::Get(0x90)),
    ];
    let disable = [Move::Host(HostMove::Sc(0x83)), Move::Ctl(Effect::Taken)];
    assert!(rt; !chip.status().contains(EcStatus::BURST));
    run(&rt, &mut chip, Request::Be, &enable, Some(0x90));
    assert!(rt; chip.status().contains(EcStatus::BURST));
    run(&rt, &mut chip, Request::Bd, &disable, None);
    assert!(rt; !chip.status().contains(EcStatus::BURST));
    run(&rt, &mut chip, Request::Be, &enable, Some(0x90));
    assert!(rt; chip.can_calm());
    chip.calm();
    assert!(rt; !chip.status().contains(EcStatus::BURST));
    Ok(())
}

#[test]
fn queries_give_the_codes_in_order_and_then_00(rt: HostRuntime) -> Result<(), Fail> {
    let mut chip = small_chip(rt.alloc())?;
    for code in [0x2A, 0x07, 0x2A] {
        assert!(rt; code != 0 && !chip.is_full());
        chip.push(code);
    }
    for code in [0x2A, 0x07, 0x2A, 0x00, 0x00] {
        assert_eq!(rt; chip.status().contains(EcStatus::SCI_EVT), code != 0);
        let query = [
            Move::Host(HostMove::Sc(0x84)),
            Move::Ctl(Effect::Out(code)),
            Move::Host(HostMove::Get(code)),
        ];
        run(&rt, &mut chip, Request::Qr, &query, Some(code));
    }
    Ok(())
}

// A code that is pushed while a query is on its way is given by it only where no other waits.
#[test]
fn a_code_may_come_between_the_moves(rt: HostRuntime) -> Result<(), Fail> {
    let mut chip = small_chip(rt.alloc())?;
    laws::law_stands();
    let mut transaction = Transaction::new(Request::Qr);
    host(&rt, &mut transaction, &mut chip, HostMove::Sc(0x84));
    assert!(rt; !chip.is_full());
    chip.push(0x11);
    controller(&rt, &mut transaction, &mut chip, Effect::Out(0x11));
    assert!(rt; !chip.is_full());
    chip.push(0x22);
    host(&rt, &mut transaction, &mut chip, HostMove::Get(0x11));
    assert_eq!(rt; transaction.finished(&chip), Some(Some(0x11)));
    assert_eq!(rt; chip.codes(), 1);
    Ok(())
}

#[test]
fn outcomes_are_compared_by_kind_and_value(rt: HostRuntime) {
    let outcomes = [
        AdvanceOutcome::Advanced(HostMove::Sc(0x80)),
        AdvanceOutcome::Advanced(HostMove::Get(0x80)),
        AdvanceOutcome::NotReady(EcStatus::IBF),
        AdvanceOutcome::NotReady(EcStatus::OBF),
        AdvanceOutcome::Done(None),
        AdvanceOutcome::Done(Some(0)),
    ];
    for (i, first) in outcomes.iter().enumerate() {
        for (j, second) in outcomes.iter().enumerate() {
            assert_eq!(rt; laws::law_same_outcome(*first, *second), i == j);
        }
    }
}
