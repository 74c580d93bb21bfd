ghost use Rattle.std.specs.Prelude.{◌+◌, ◌≡◌, ℕ, ◌<◌, ◌≤◌, [], List, Option, length, IsOk, OnErr, OnOk};
ghost use Rattle.acpi_io.specs.Faults.{RoseByOne};
ghost use Rattle.acpi_io.specs.Sink.{AsksOncePerByte, WriteAdds, WritesAll};

use std::error::Error;
use std::fmt;

/// What a write to a [`Sink`] came to.
#[derive(Debug, Drop, PartialEq)]
pub enum WriteOutcome {
    /// So many bytes were taken, at least one, from the front of the piece.
    Took(usize),
    /// The sink failed in this call and took nothing.
    Failed,
}

/// Where bytes go.
pub trait Sink {
    /// The bytes that were taken so far, where the sink tells them.
    ghost held: { Self → Option (List ℕ) };

    /// How often the sink has failed. A call that answers `Failed` raises it by one, but not past 2^64 - 1, and every
    /// other call leaves it as it was. So no failure is passed over.
    ghost faults: { Self → ℕ };

    /// How often the sink was written to. One that does not count says 0.
    ghost writes: { Self → ℕ };

    /// Takes some bytes from the front of a piece that is not empty.
    fn write(&mut self, piece: &[u8]) -> WriteOutcome
        requires { 0 < length piece.now }
        ensures bytes { WriteAdds result (held self.old) (held self.new) piece.now }
        ensures later { faults self.old ≤ faults self.new }
        ensures cause { result ≡ WriteOutcome.Failed → RoseByOne (faults self.old) (faults self.new) }
        ensures told { ¬ result ≡ WriteOutcome.Failed → faults self.new ≡ faults self.old }
        ensures asked { writes self.new ≤ writes self.old + 1 };
}

/// A write failed.
#[derive(Debug, Drop, PartialEq)]
pub struct WriteFault;

impl fmt::Display for WriteFault {
    fn fmt<W: fmt::Write>(&self, f: &mut fmt::Formatter<W>) -> fmt::Result {
        f.write_str("WriteFault")
    }
}

impl Error for WriteFault {}

/// Writes all bytes to a sink, in order. With no bytes it makes no call.
///
/// It answers `WriteFault` where a write failed. That write was the last, and the sink has taken the bytes up to some
/// place.
pub fn write_all<K: Sink>(sink: &mut K, bytes: &[u8]) -> Result<(), WriteFault>
    ensures ends { WritesAll (K.held sink.old) (K.held sink.new) bytes.now result }
    ensures later { K.faults sink.old ≤ K.faults sink.new }
    ensures cause { OnErr result (RoseByOne (K.faults sink.old) (K.faults sink.new)) }

    // No fault is passed over. With `cause`: after a failed write none is made.
    ensures told { OnOk result (K.faults sink.new ≡ K.faults sink.old) }

    // At most so many writes as bytes were added, and one more where it failed.
    ensures asked { AsksOncePerByte (K.held sink.old) (K.held sink.new) (K.writes sink.old) (K.writes sink.new)
        bytes.now result }
    ensures empty { bytes.now ≡ [] → IsOk result × (sink.new ≡ sink.old) }
{
    let mut rest = bytes;
    while !rest.is_empty() {
        match sink.write(rest) {
            WriteOutcome::Took(count) => {
                let (_, after) = rest.split_at(count);
                rest = after;
            }
            WriteOutcome::Failed => return Err(WriteFault),
        }
    }
    Ok(())
}
