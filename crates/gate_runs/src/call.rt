//! A call of the program over a source and a sink in memory.

use crate::meeting::Meeting;
use acpi_commands::{Status, acpi_events};
use acpi_io::{MemorySink, MemorySource};
use std::alloc::{AllocError, Global};
use std::thread::Threads;

/// A call of the program.
#[derive(Clone, Copy)]
pub struct Call<'a> {
    /// The words, with blanks between them, or each in quotes.
    pub words: &'a str,
    /// What the source gives.
    pub input: &'a [u8],
    /// The most bytes that a call of the source or of the sink moves.
    pub most: usize,
    /// How many bytes the sink takes.
    pub room: usize,
    /// The number of the read that fails, from 0.
    pub failing_read: Option<u64>,
    /// The number of the write that fails, from 0.
    pub failing_write: Option<u64>,
    /// Whether the first firmware and the first worker wait for each other.
    pub meets: bool,
}

/// What a call came to.
#[derive(Drop)]
pub struct Outcome {
    /// What it answered.
    pub status: Status,
    /// The sink that it wrote to.
    pub sink: MemorySink,
    /// The gate that its actors passed.
    pub gate: Meeting,
}

impl Call<'_> {
    /// Makes the call.
    pub fn make<R: Threads + Sync>(&self, rt: &R, alloc: Global) -> Result<Outcome, AllocError> {
        let words = words_of(alloc, self.words)?;
        let reads = numbers(alloc, self.failing_read)?;
        let writes = numbers(alloc, self.failing_write)?;
        let most = self.most.max(1);
        let mut source = MemorySource::new(self.input.to_vec(alloc)?, reads, most);
        let Ok(mut sink) = MemorySink::new(alloc, writes, most, self.room) else {
            return Err(AllocError);
        };
        let gate = if self.meets {
            Meeting::of_two()
        } else {
            Meeting::of_nobody()
        };
        let status = acpi_events(rt, alloc, &words, &mut source, &mut sink, &gate);
        Ok(Outcome { status, sink, gate })
    }
}

fn numbers(alloc: Global, number: Option<u64>) -> Result<Vec<u64>, AllocError> {
    let mut numbers = Vec::new(alloc);
    if let Some(number) = number {
        numbers.push(number)?;
    }
    Ok(numbers)
}

/// The words of a line. If it has quotes, the words are what stands between them.
fn words_of(alloc: Global, line: &str) -> Result<Vec<String>, AllocError> {
    if line.contains("\"") {
        quoted_words(alloc, line)
    } else {
        plain_words(alloc, line)
    }
}

fn plain_words(alloc: Global, line: &str) -> Result<Vec<String>, AllocError> {
    let mut words = Vec::new(alloc);
    for word in line.split(" ") {
        if !word.is_empty() {
            words.push(String::from_str(alloc, word)?)?;
        }
    }
    Ok(words)
}

fn quoted_words(alloc: Global, line: &str) -> Result<Vec<String>, AllocError> {
    let mut words = Vec::new(alloc);
    let mut is_word = false;
    for part in line.split("\"") {
        if is_word {
            words.push(String::from_str(alloc, part)?)?;
        }
        is_word = !is_word;
    }
    Ok(words)
}
