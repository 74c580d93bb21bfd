ghost use Rattle.std.specs.Prelude.{◌≡◌, ◌≤◌};
ghost use Rattle.acpi_regs.specs.Core.{no_event};
ghost use Rattle.world.specs.Serial.{pins_of};

use crate::pins::{none, set, sweep};
use crate::{Duty, TurnOutcome, World};
use acpi_regs::{Actor, Event};
use facs_word::{acquire_of, owned, pending, release_of};
use lock_table::{Attempt, Words};
use machine_core::Board;
use std::marker::Model;

/// A board and plain words, for one thread. No attempt is ever answered Moved, and no turn is ever out.
#[derive(Drop)]
pub struct SerialWorld {
    board: Board,
    words: Words,
}

impl Model for SerialWorld {
    ghost use Rattle.std.specs.Prelude.{◌≤◌};
    ghost use Rattle.world.specs.Serial.{Serial};

    ghost Value = { Serial };

    ghost view = { λ w. record { board = w.board; words = w.words } };

    ghost invariant = { λ w. w.words.facs ≤ 3 };
}

impl SerialWorld {
    /// A world of this board and these words. The word of the Global Lock has only its two bits.
    pub fn new(board: Board, words: Words) -> SerialWorld
        requires { words.facs ≤ 3 }
        ensures { result ≡ record { board = board; words = words } }
    {
        SerialWorld { board, words }
    }

    /// A world of this board at its start: the Global Lock is free, and no pin is set.
    pub fn fresh(board: Board) -> SerialWorld
        ensures board { result.board ≡ board }
        ensures word { result.words.facs ≡ 0 }
        ensures pins { pins_of result ≡ no_event }
    {
        let words = Words {
            facs: 0,
            pins: none(),
        };
        SerialWorld { board, words }
    }

    /// The words.
    pub fn words(&self) -> Words
        ensures { result ≡ self.now.words }
    {
        self.words
    }

    /// The board and the words.
    pub fn into_parts(self) -> (Board, Words)
        ensures board { result.0 ≡ self.board }
        ensures words { result.1 ≡ self.words }
    {
        (self.board, self.words)
    }

    /// The board.
    pub fn board(&self) -> &Board
        ensures { result.now ≡ self.now.board }
    {
        &self.board
    }
}

impl World for SerialWorld {
    ghost use Rattle.world.specs.Serial.{SerialMakes, SerialMay};

    ghost machine = { λ w. w.board.machine };

    ghost may = { SerialMay };

    ghost makes = { SerialMakes };

    fn attempt(&mut self, actor: Actor) -> Attempt {
        let _ = actor;
        let found = self.words.facs;
        self.words.facs = acquire_of(found);
        if owned(found) {
            Attempt::Marked { found }
        } else {
            Attempt::Won
        }
    }

    fn release(&mut self, actor: Actor) -> bool {
        let _ = actor;
        let found = self.words.facs;
        self.words.facs = release_of(found);
        pending(found)
    }

    fn pulse(&mut self, actor: Actor, event: Event) -> bool {
        let _ = actor;
        set(&mut self.words.pins, event)
    }

    fn turn<D: Duty>(&mut self, collect: bool, duty: &mut D) -> TurnOutcome {
        let bits = sweep(&mut self.words.pins, collect);
        TurnOutcome::Done(duty.act(&mut self.board, bits))
    }
}
