//! A case of the table.

use crate::input::{Input, Texts};
use crate::telling::Telling;
use std::alloc::{AllocError, Global};

/// How many bytes a sink takes if the case does not say.
const ROOM: usize = 1_048_576;

/// The most bytes that a call of a source or a sink moves if the case does not say.
const MOST: usize = 65_536;

/// Which calls are made for each words and each `most`.
#[derive(Clone, Copy)]
pub enum Series {
    /// The same call, this many times.
    Times(u64),
    /// Calls in which a read fails, each read in turn, and one in which none does.
    EachRead,
    /// The same with the writes.
    EachWrite,
    /// A call for every proper front of the input.
    EachFront,
}

/// A case of the table.
#[derive(Drop)]
pub struct Case {
    /// The words of the program, as they are written: calls are made for each.
    pub words: Vec<String>,
    /// The most bytes that a call of the source or of the sink moves: calls are made for each.
    pub most: Vec<usize>,
    /// How many bytes the sink takes.
    pub room: usize,
    /// The number of the read that fails, from 0.
    pub failing_read: Option<u64>,
    /// The number of the write that fails, from 0.
    pub failing_write: Option<u64>,
    /// Which calls are made.
    pub series: Series,
    /// Whether the first firmware and the first worker wait for each other.
    pub meets: bool,
    /// What the source gives.
    pub input: Input,
    /// What is written of an answer.
    pub telling: Telling,
    /// Whether the lines that follow are the input.
    reads_input: bool,
}

impl Case {
    /// Reads a case from its lines.
    pub fn read(alloc: Global, texts: &Texts, block: &str) -> Result<Case, AllocError> {
        let mut case = Case::new(alloc);
        for line in block.split("\n") {
            case.add(alloc, texts, line)?;
        }
        if case.most.is_empty() {
            case.most.push(MOST)?;
        }
        Ok(case)
    }

    fn new(alloc: Global) -> Case {
        Case {
            words: Vec::new(alloc),
            most: Vec::new(alloc),
            room: ROOM,
            failing_read: None,
            failing_write: None,
            series: Series::Times(1),
            meets: false,
            input: Input::new(alloc),
            telling: Telling::new(alloc),
            reads_input: false,
        }
    }

    /// Takes a line: an option, or a line of the input.
    fn add(&mut self, alloc: Global, texts: &Texts, line: &str) -> Result<(), AllocError> {
        if self.reads_input {
            return self.input.add(line);
        }
        let (name, value) = line.split_once(":").unwrap_or((line, ""));
        let value = value.strip_prefix(" ").unwrap_or(value);
        match name {
            "input" | "log" | "without" | "put" | "lines" => {
                self.add_input(alloc, texts, name, value)
            }
            _ => self.add_option(alloc, name, value),
        }
    }

    /// Takes an option that says what the source gives.
    fn add_input(
        &mut self,
        alloc: Global,
        texts: &Texts,
        name: &str,
        value: &str,
    ) -> Result<(), AllocError> {
        match name {
            "input" if value.is_empty() => {
                self.reads_input = true;
                Ok(())
            }
            "input" => self.input.take(alloc, texts, value),
            "log" => {
                self.input.take(alloc, texts, value)?;
                self.input.end_line()
            }
            "without" => self.input.remove(alloc, value),
            "put" => self.input.put(value),
            _ => self.input.cut(alloc, number(value) as usize),
        }
    }

    /// Takes an option that says how the program is called, or what is written.
    fn add_option(&mut self, alloc: Global, name: &str, value: &str) -> Result<(), AllocError> {
        match name {
            "words" => self.words.push(String::from_str(alloc, value)?)?,
            "most" => self.most = numbers(alloc, value)?,
            "room" => self.room = number(value) as usize,
            "failing read" => self.failing_read = Some(number(value)),
            "failing write" => self.failing_write = Some(number(value)),
            "each failing read" => self.series = Series::EachRead,
            "each failing write" => self.series = Series::EachWrite,
            "each front" => self.series = Series::EachFront,
            "times" => self.series = Series::Times(number(value)),
            "meeting" => self.meets = true,
            _ => self.telling.add_option(alloc, name, value)?,
        }
        Ok(())
    }
}

/// The number that a text is, or 0 if it is none.
pub fn number(text: &str) -> u64 {
    text.parse::<u64>().unwrap_or(0)
}

fn numbers(alloc: Global, text: &str) -> Result<Vec<usize>, AllocError> {
    let mut numbers = Vec::new(alloc);
    for word in text.split(" ") {
        numbers.push(number(word) as usize)?;
    }
    Ok(numbers)
}
