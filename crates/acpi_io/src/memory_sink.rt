ghost use Rattle.std.specs.Prelude.{◌≡◌, ◌+◌, [], ◌<◌, ◌≤◌, Some, length, IfOk};
ghost use Rattle.acpi_io.specs.Faults.{RoseByOne};
ghost use Rattle.acpi_io.specs.Sink.{WriteAdds};
ghost use Rattle.acpi_io.specs.MemorySink.{write_outcome, after_write};

use crate::{Sink, WriteOutcome};
use acpi_regs::Memory;
use std::alloc::Global;
use std::marker::Model;

/// A sink that keeps what it takes in memory, takes at most so many bytes in a call, and fails at the calls that
/// it is told and where it is full.
///
/// Calls are numbered from 0. The number stops at 2^64 - 1, which is that of every later call too.
#[derive(Drop)]
pub struct MemorySink {
    bytes: Vec<u8>,
    failing: Vec<u64>,
    most: usize,
    room: usize,
    calls: u64,
    faults: u64,
}

impl Model for MemorySink {
    ghost use Rattle.std.specs.Prelude.{◌≤◌, length, vec_capacity};
    ghost use Rattle.acpi_io.specs.MemorySink.{SinkState};

    ghost Value = { SinkState };

    ghost view = { λ s. record {
      held = s.bytes.items;
      failing = s.failing.items;
      most = s.most;
      room = s.room;
      calls = s.calls;
      faults = s.faults;
    } };

    // The room was taken when the sink was made, so a write takes no memory.
    ghost invariant = { λ s. (length s.bytes.items ≤ s.room) × (s.room ≤ vec_capacity s.bytes) × (1 ≤ s.most) };
}

impl MemorySink {
    /// An empty sink with room for `room` bytes. A call takes at most `most` of them, and the calls with the
    /// numbers in `failing` fail. It answers `Memory` where there is no memory for the room.
    pub fn new(
        alloc: Global,
        failing: Vec<u64>,
        most: usize,
        room: usize,
    ) -> Result<MemorySink, Memory>
        requires { 1 ≤ most }
        ensures { IfOk result (λ sink. sink ≡ record {
          held = [];
          failing = failing.items;
          most = most;
          room = room;
          calls = 0;
          faults = 0;
        }) }
    {
        let bytes = Vec::with_capacity(alloc, room)?;
        Ok(MemorySink {
            bytes,
            failing,
            most,
            room,
            calls: 0,
            faults: 0,
        })
    }

    /// The bytes that were taken.
    pub fn held(&self) -> &[u8]
        ensures { result.now ≡ self.now.held }
    {
        self.bytes.as_slice()
    }

    /// How often it was asked to write.
    pub fn writes(&self) -> u64
        ensures { result ≡ self.now.calls }
    {
        self.calls
    }
}

impl Sink for MemorySink {
    ghost held = { λ s. Some s.held };

    ghost faults = { λ s. s.faults };

    ghost writes = { λ s. s.calls };

    fn write(&mut self, piece: &[u8]) -> WriteOutcome
        requires { 0 < length piece.now }
        ensures bytes { WriteAdds result (Some self.old.held) (Some self.new.held) piece.now }
        ensures later { self.old.faults ≤ self.new.faults }
        ensures cause { result ≡ WriteOutcome.Failed → RoseByOne self.old.faults self.new.faults }
        ensures told { ¬ result ≡ WriteOutcome.Failed → self.new.faults ≡ self.old.faults }
        ensures asked { self.new.calls ≤ self.old.calls + 1 }

        // Exactly what is answered, and what is held.
        ensures outcome { result ≡ write_outcome self.old (length piece.now) }
        ensures after { self.new ≡ after_write self.old result piece.now }
    {
        let call = self.calls;
        self.calls = call.saturating_add(1);
        let space = self.room - self.bytes.len();
        if space == 0 || self.failing.contains(&call) {
            self.faults = self.faults.saturating_add(1);
            return WriteOutcome::Failed;
        }
        let count = self.most.min(space).min(piece.len());
        let (taken, _) = piece.split_at(count);
        // There is room, so it does not fail.
        let _ = self.bytes.extend_from_slice(taken);
        WriteOutcome::Took(count)
    }
}
