ghost use Rattle.std.specs.Prelude.{◌≡◌, ◌+◌, ◌≤◌, ℕ, [], ◌++◌, List, length, OnErr, OnOk};
ghost use Rattle.acpi_io.specs.Faults.{RoseByOne};
ghost use Rattle.acpi_io.specs.Sink.{WritesAll};
ghost use Rattle.history_text.specs.Written.{GoesOn};
ghost use Rattle.history_text.specs.declared.pieces.TheConstants.{PIECE_LEN};

use acpi_io::{Sink, WriteFault, write_all};
use arrayvec::ArrayVec;
use std::marker::Model;

/// How many bytes are handed to a sink at once.
pub const PIECE_LEN: usize = 16384;

/// Text that waits to be handed to a sink in pieces, which contracts see as its bytes. Every piece but the last has
/// `PIECE_LEN` bytes, so that a sink is called rarely.
#[derive(Drop)]
pub struct Pieces {
    waiting: ArrayVec<u8, PIECE_LEN>,
}

impl Model for Pieces {
    ghost use Rattle.std.specs.Prelude.{List, ℕ, ◌<◌, length};
    ghost use Rattle.history_text.specs.declared.pieces.TheConstants.{PIECE_LEN};

    ghost Value = { List ℕ };

    ghost view = { λ p. p.waiting.items };

    ghost invariant = { λ p. length p.waiting.items < PIECE_LEN };
}

impl Pieces {
    /// No text.
    pub fn new() -> Self
        ensures { result ≡ [] }
    {
        Pieces {
            waiting: ArrayVec::new(),
        }
    }

    /// Puts text behind what waits, and hands over each piece that is full.
    ///
    /// Answers `WriteFault` where a write failed; the sink has then taken a front of all the text.
    pub fn put<K: Sink>(&mut self, sink: &mut K, text: &[u8]) -> Result<(), WriteFault>
        ensures goes_on { GoesOn (K.held sink.old) (K.held sink.new)
            (self.old ++ text.now) self.new result }
        ensures later { K.faults sink.old ≤ K.faults sink.new }
        ensures cause { OnErr result (RoseByOne (K.faults sink.old) (K.faults sink.new)) }
        ensures told { OnOk result (K.faults sink.new ≡ K.faults sink.old) }
    {
        let mut rest = text;
        while !rest.is_empty() {
            let room = self.waiting.remaining_capacity();
            let (now, after) = rest.split_at(room.min(rest.len()));
            self.gather(sink, now)?;
            rest = after;
        }
        Ok(())
    }

    /// Puts text that fits behind what waits, and hands the piece over where it is full.
    fn gather<K: Sink>(&mut self, sink: &mut K, text: &[u8]) -> Result<(), WriteFault>
        requires { length self.old + length text.now ≤ PIECE_LEN }
        ensures goes_on { GoesOn (K.held sink.old) (K.held sink.new)
            (self.old ++ text.now) self.new result }
        ensures later { K.faults sink.old ≤ K.faults sink.new }
        ensures cause { OnErr result (RoseByOne (K.faults sink.old) (K.faults sink.new)) }
        ensures told { OnOk result (K.faults sink.new ≡ K.faults sink.old) }
    {
        self.waiting.try_extend_from_slice(text).unwrap();
        if !self.waiting.is_full() {
            return Ok(());
        }
        let written = write_all(sink, self.waiting.as_slice());
        self.waiting.clear();
        written
    }

    /// Hands over what waits.
    pub fn finish<K: Sink>(self, sink: &mut K) -> Result<(), WriteFault>
        ensures ends { WritesAll (K.held sink.old) (K.held sink.new) self result }
        ensures later { K.faults sink.old ≤ K.faults sink.new }
        ensures cause { OnErr result (RoseByOne (K.faults sink.old) (K.faults sink.new)) }
        ensures told { OnOk result (K.faults sink.new ≡ K.faults sink.old) }
    {
        write_all(sink, self.waiting.as_slice())
    }
}
