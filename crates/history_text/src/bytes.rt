ghost use Rattle.std.specs.Prelude.{◌≡◌, IfOk, Some};
ghost use Rattle.machine_reader.specs.Canonical.{canonical};
ghost use Rattle.history_text.specs.Text.{log_text};

use crate::log::write_log;
use acpi_io::{Sink, WriteFault, WriteOutcome};
use acpi_regs::Memory;
use machine_core::Board;
use machine_reader::write_machine;
use std::alloc::Global;

/// A sink that keeps all that it takes, in memory that grows. It fails where that is wanting.
#[derive(Drop)]
struct Gathered {
    bytes: Vec<u8>,
    faults: u64,
}

impl Sink for Gathered {
    ghost held = { λ s. Some s.bytes.items };

    ghost faults = { λ s. s.faults };

    ghost writes = { λ _. 0 };

    fn write(&mut self, piece: &[u8]) -> WriteOutcome {
        match self.bytes.extend_from_slice(piece) {
            Ok(()) => WriteOutcome::Took(piece.len()),
            Err(_) => {
                self.faults = self.faults.saturating_add(1);
                WriteOutcome::Failed
            }
        }
    }
}

/// The log of a board, as [`write_log`] writes it.
///
/// # Errors
/// `Memory` where room was wanting.
pub fn log_bytes(alloc: Global, board: &Board) -> Result<Vec<u8>, Memory>
    ensures { IfOk result (λ text. text.items
        ≡ log_text board.now.machine (canonical board.now.machine) board.now.entries) }
{
    let text = write_machine(alloc, board.machine())?;
    let mut sink = Gathered {
        bytes: Vec::new(alloc),
        faults: 0,
    };
    match write_log(&text, board, &mut sink) {
        Ok(()) => Ok(sink.bytes),
        Err(WriteFault) => Err(Memory),
    }
}
