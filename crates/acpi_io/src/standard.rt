ghost use Rattle.std.specs.Prelude.{◌≡◌, ◌<◌, ◌≤◌, None, length};
ghost use Rattle.acpi_io.specs.Faults.{RoseByOne};
ghost use Rattle.acpi_io.specs.Source.{ReadTakes};
ghost use Rattle.acpi_io.specs.Sink.{WriteAdds};
ghost use Rattle.acpi_io.specs.Standard.{reader_of, read_faults, writer_of, write_faults, faults_after_read, faults_after_write};

use crate::{ReadOutcome, Sink, Source, WriteOutcome};
use std::io::{Read, Write};

/// A reader of `std` as a source.
///
/// It tells no content of its own. What the reader tells of the bytes that remain holds of what is read here.
#[derive(Drop)]
pub struct StdSource<R> {
    reader: R,
    faults: u64,
}

impl<R> StdSource<R> {
    /// A source over this reader, with no fault so far.
    pub fn new(reader: R) -> StdSource<R>
        ensures reader { reader_of result ≡ reader }
        ensures faults { read_faults result ≡ 0 }
    {
        StdSource { reader, faults: 0 }
    }
}

impl<R: Read> Source for StdSource<R> {
    ghost left = { λ _. None };

    ghost faults = { read_faults };

    ghost reads = { λ _. 0 };

    /// Reads once. Each error of the reader is a fault.
    fn read(&mut self, into: &mut [u8]) -> ReadOutcome
        requires { 0 < length into.old }
        ensures bytes { ReadTakes result None None into.new }
        ensures later { read_faults self.old ≤ read_faults self.new }
        ensures cause { result ≡ ReadOutcome.Failed →
            RoseByOne (read_faults self.old) (read_faults self.new) }
        ensures told { ¬ result ≡ ReadOutcome.Failed →
            read_faults self.new ≡ read_faults self.old }

        // What the reader tells is passed on, and each failure is counted once.
        ensures passed_on { ReadTakes result (R.remaining (reader_of self.old))
            (R.remaining (reader_of self.new)) into.new }
        ensures counted { read_faults self.new ≡ faults_after_read result (read_faults self.old) }
    {
        match self.reader.read(into) {
            Ok(0) => ReadOutcome::End,
            Ok(count) => ReadOutcome::Took(count),
            Err(_) => {
                self.faults = self.faults.saturating_add(1);
                ReadOutcome::Failed
            }
        }
    }
}

/// A writer of `std` as a sink.
///
/// It tells no content of its own. What the writer tells of its contents holds of what is written here.
#[derive(Drop)]
pub struct StdSink<W> {
    writer: W,
    faults: u64,
}

impl<W> StdSink<W> {
    /// A sink over this writer, with no fault so far.
    pub fn new(writer: W) -> StdSink<W>
        ensures writer { writer_of result ≡ writer }
        ensures faults { write_faults result ≡ 0 }
    {
        StdSink { writer, faults: 0 }
    }
}

impl<W: Write> Sink for StdSink<W> {
    ghost held = { λ _. None };

    ghost faults = { write_faults };

    ghost writes = { λ _. 0 };

    /// Writes once. Each error of the writer is a fault, and so is a write that takes nothing.
    fn write(&mut self, piece: &[u8]) -> WriteOutcome
        requires { 0 < length piece.now }
        ensures bytes { WriteAdds result None None piece.now }
        ensures later { write_faults self.old ≤ write_faults self.new }
        ensures cause { result ≡ WriteOutcome.Failed →
            RoseByOne (write_faults self.old) (write_faults self.new) }
        ensures told { ¬ result ≡ WriteOutcome.Failed →
            write_faults self.new ≡ write_faults self.old }

        // What the writer tells is passed on, and each failure is counted once.
        ensures passed_on { WriteAdds result (W.contents (writer_of self.old))
            (W.contents (writer_of self.new)) piece.now }
        ensures counted { write_faults self.new ≡ faults_after_write result (write_faults self.old) }
    {
        match self.writer.write(piece) {
            Ok(count) if count > 0 => WriteOutcome::Took(count),
            // The writer took nothing, by an error or without one.
            Ok(_) | Err(_) => {
                self.faults = self.faults.saturating_add(1);
                WriteOutcome::Failed
            }
        }
    }
}
