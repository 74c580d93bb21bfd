ghost use Rattle.std.specs.Prelude.{◌≡◌, ◌+◌, ◌<◌, ◌≤◌, Some, length};
ghost use Rattle.acpi_io.specs.Faults.{RoseByOne};
ghost use Rattle.acpi_io.specs.Source.{ReadTakes};
ghost use Rattle.acpi_io.specs.MemorySource.{read_outcome, after_read};

use crate::{ReadOutcome, Source};
use std::marker::Model;

/// A source that holds its bytes in memory, gives at most so many of them in a call, and fails at the calls that
/// it is told.
///
/// Calls are numbered from 0. The number stops at 2^64 - 1, which is that of every later call too.
#[derive(Drop)]
pub struct MemorySource {
    bytes: Vec<u8>,
    // What lies before it was read.
    position: usize,
    failing: Vec<u64>,
    most: usize,
    calls: u64,
    faults: u64,
}

impl Model for MemorySource {
    ghost use Rattle.std.specs.Prelude.{◌≤◌, drop, length};
    ghost use Rattle.acpi_io.specs.MemorySource.{SourceState};

    ghost Value = { SourceState };

    ghost view = { λ s. record {
      left = drop s.position s.bytes.items;
      failing = s.failing.items;
      most = s.most;
      calls = s.calls;
      faults = s.faults;
    } };

    ghost invariant = { λ s. (s.position ≤ length s.bytes.items) × (1 ≤ s.most) };
}

impl MemorySource {
    /// A source of these bytes. A call gives at most `most` of them, and the calls with the numbers in `failing`
    /// fail.
    pub fn new(bytes: Vec<u8>, failing: Vec<u64>, most: usize) -> MemorySource
        requires { 1 ≤ most }
        ensures { result ≡ record {
          left = bytes.items;
          failing = failing.items;
          most = most;
          calls = 0;
          faults = 0;
        } }
    {
        MemorySource {
            bytes,
            position: 0,
            failing,
            most,
            calls: 0,
            faults: 0,
        }
    }
}

impl Source for MemorySource {
    ghost left = { λ s. Some s.left };

    ghost faults = { λ s. s.faults };

    ghost reads = { λ s. s.calls };

    fn read(&mut self, into: &mut [u8]) -> ReadOutcome
        requires { 0 < length into.old }
        ensures bytes { ReadTakes result (Some self.old.left) (Some self.new.left) into.new }
        ensures later { self.old.faults ≤ self.new.faults }
        ensures cause { result ≡ ReadOutcome.Failed → RoseByOne self.old.faults self.new.faults }
        ensures told { ¬ result ≡ ReadOutcome.Failed → self.new.faults ≡ self.old.faults }
        ensures asked { self.new.calls ≤ self.old.calls + 1 }

        // Exactly what is answered, and what is left.
        ensures outcome { result ≡ read_outcome self.old (length into.old) }
        ensures after { self.new ≡ after_read self.old result }
    {
        let call = self.calls;
        self.calls = call.saturating_add(1);
        if self.failing.contains(&call) {
            self.faults = self.faults.saturating_add(1);
            return ReadOutcome::Failed;
        }
        let (_, left) = self.bytes.as_slice().split_at(self.position);
        if left.is_empty() {
            return ReadOutcome::End;
        }
        let count = self.most.min(into.len()).min(left.len());
        let (taken, _) = left.split_at(count);
        let (front, _) = into.split_at_mut(count);
        front.copy_from_slice(taken);
        self.position += count;
        ReadOutcome::Took(count)
    }
}
