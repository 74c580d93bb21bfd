ghost use Rattle.std.specs.Prelude.{◌≡◌, ◌↔◌, ◌+◌, IsNone, IsSome, IsTrue, is_some, Some};
ghost use Rattle.ec_chip.specs.Chip.{quiet};
ghost use Rattle.ec_driver.specs.Driver.{Stands, advance_outcome, advanced_by, after_advance, all_made, blank, chip_after_advance, chip_by, finished, is_done, is_not_ready, moves_made, must_wait, next_host, next_move, opened, status_of, taken_of, transaction_by};

use crate::Move;
use crate::wire::{carried, wire_move};
use acpi_regs::{EcStatus, HostMove, Request};
use bitflags::Flags;
use ec_chip::{EcChip, Port};
use std::marker::Model;

/// What a call of [`Transaction::advance`] did.
#[derive(Clone, Copy, Debug, PartialEq, Eq)]
pub enum AdvanceOutcome {
    /// The host made this move.
    Advanced(HostMove),
    /// The controller has to move first. This is its status. Nothing changed.
    NotReady(EcStatus),
    /// All moves were made, and this is what the requester is given. Nothing changed.
    Done(Option<u8>),
}

/// A transaction with the controller, from its first move to its last.
///
/// It makes the host's moves, one in a call. The controller makes its own between them. So each call stands under
/// the condition that IBF, OBF, the output and the command that is half given are as this transaction's moves, the
/// controller's among them, left them. Query codes may have been pushed since. A new transaction stands where
/// nothing is on its way.
#[derive(Debug, Drop)]
pub struct Transaction {
    request: Request,
    /// How many moves were made when the host had made its last.
    made: u8,
    /// The byte that the host read, or 0.
    got: u8,
}

impl Model for Transaction {
    ghost use Rattle.ec_driver.specs.Driver.{TransactionData};

    ghost Value = { TransactionData };

    ghost view = { λ t. record { asks = t.request; made = t.made; got = t.got } };
}

impl Transaction {
    /// A transaction of which no move is made.
    pub fn new(request: Request) -> Transaction
        ensures { result ≡ opened request }
    {
        Transaction {
            request,
            made: 0,
            got: 0,
        }
    }

    /// Makes the host's next move, where it is the host's turn. Done exactly where all moves were made. NotReady
    /// exactly where a move of the controller's comes first, where the host's next is a write and IBF is set, and
    /// where it is a read and OBF is clear.
    pub fn advance(&mut self, chip: &mut EcChip) -> AdvanceOutcome
        requires { Stands self.old chip.old }
        ensures outcome { result ≡ advance_outcome self.old chip.old }
        ensures host { advanced_by result ≡ next_host self.old chip.old }
        ensures taken { taken_of result ≡ finished self.old chip.old }
        ensures done { IsTrue (is_done result) ↔ all_made self.old chip.old }
        ensures not_ready { is_not_ready result ≡ must_wait self.old chip.old }
        ensures transaction { self.new ≡ after_advance self.old chip.old }
        ensures chip { chip.new ≡ chip_after_advance self.old chip.old }
        ensures stands { Stands self.new chip.new }
    {
        match self.next_move(chip) {
            Some(Move::Host(step)) => {
                self.make(step, chip);
                AdvanceOutcome::Advanced(step)
            }
            Some(Move::Ctl(_)) => AdvanceOutcome::NotReady(chip.status()),
            None => AdvanceOutcome::Done(carried(self.request, self.blank(chip))),
        }
    }

    /// The move that [`Transaction::advance`] would make. `None` exactly where it would make none.
    pub fn next_host(&self, chip: &EcChip) -> Option<HostMove>
        requires { Stands self.now chip.now }
        ensures { result ≡ next_host self.now chip.now }
    {
        match self.next_move(chip) {
            Some(Move::Host(step)) => Some(step),
            Some(Move::Ctl(_)) | None => None,
        }
    }

    /// What the requester is given: the byte that was read, or nothing for a write and for burst disable. The outer
    /// `None` comes exactly where not all moves were made.
    pub fn finished(&self, chip: &EcChip) -> Option<Option<u8>>
        requires { Stands self.now chip.now }
        ensures value { result ≡ finished self.now chip.now }
        ensures made { IsSome result ↔ all_made self.now chip.now }
    {
        match self.next_move(chip) {
            Some(_) => None,
            None => Some(carried(self.request, self.blank(chip))),
        }
    }

    /// The move that comes next, the host's or the controller's.
    fn next_move(&self, chip: &EcChip) -> Option<Move>
        ensures { result ≡ next_move self.now chip.now }
    {
        wire_move(self.request, self.blank(chip), self.moves_made(chip))
    }

    /// How many moves were made. Those of the controller are known by IBF, which it clears.
    fn moves_made(&self, chip: &EcChip) -> u8
        ensures { result ≡ moves_made self.now chip.now }
    {
        match wire_move(self.request, 0, self.made) {
            Some(Move::Ctl(_)) if !is_waiting(chip) => self.made + 1,
            _ => self.made,
        }
    }

    /// The output that stands, or the byte that was read.
    fn blank(&self, chip: &EcChip) -> u8
        ensures { result ≡ blank self.now chip.now }
    {
        if chip.can_read() {
            chip.output()
        } else {
            self.got
        }
    }

    /// Makes the host's next move.
    fn make(&mut self, step: HostMove, chip: &mut EcChip)
        requires stands { Stands self.old chip.old }
        requires next { next_move self.old chip.old ≡ Some (Move.Host step) }
        ensures transaction { self.new ≡ transaction_by (Some step) (moves_made self.old chip.old) self.old }
        ensures chip { chip.new ≡ chip_by (Some step) chip.old }
    {
        self.made = self.moves_made(chip) + 1;
        match step {
            HostMove::Sc(byte) => chip.host_write(Port::Sc, byte),
            HostMove::Data(byte) => chip.host_write(Port::Data, byte),
            HostMove::Get(_) => self.got = chip.host_read(),
        }
    }
}

/// Whether IBF is set: the host's byte waits for the controller.
fn is_waiting(chip: &EcChip) -> bool
    ensures { result ≡ is_some chip.now.exchange.input }
{
    ec_chip::laws::law_status();
    chip.status().contains(EcStatus::IBF)
}
