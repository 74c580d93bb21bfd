//! The answers to the calls of a case: equal ones in a row are counted together.

use std::alloc::{AllocError, Global};

/// Which call of its series a call is.
#[derive(Clone, Copy, PartialEq, Eq)]
pub enum Kind {
    /// One of several that are the same.
    Plain,
    /// A read fails in it.
    ReadFails,
    /// No read fails in it.
    NoReadFails,
    /// A write fails in it.
    WriteFails,
    /// No write fails in it.
    NoWriteFails,
    /// Its input is a proper front of the case's.
    Front,
}

impl Kind {
    fn words(self) -> &'static str {
        match self {
            Kind::Plain => "",
            Kind::ReadFails => "a read fails, ",
            Kind::NoReadFails => "no read fails, ",
            Kind::WriteFails => "a write fails, ",
            Kind::NoWriteFails => "no write fails, ",
            Kind::Front => "each front, ",
        }
    }
}

/// The answers so far.
#[derive(Drop)]
pub struct Groups {
    alloc: Global,
    /// The text of the complete groups.
    text: String,
    /// The kind of the calls of the last group, its answer, and how many calls it has.
    kind: Kind,
    answer: String,
    count: u64,
}

impl Groups {
    /// No answers.
    pub fn new(alloc: Global) -> Groups {
        Groups {
            alloc,
            text: String::new(alloc),
            kind: Kind::Plain,
            answer: String::new(alloc),
            count: 0,
        }
    }

    /// Adds the answer to a call.
    pub fn add(&mut self, kind: Kind, answer: String) -> Result<(), AllocError> {
        if self.kind != kind || self.answer.as_str() != answer.as_str() {
            self.complete()?;
            self.kind = kind;
            self.answer = answer;
        }
        self.count = self.count.saturating_add(1);
        Ok(())
    }

    /// The text of all groups.
    pub fn into_text(mut self) -> Result<String, AllocError> {
        self.complete()?;
        let Groups { text, .. } = self;
        Ok(text)
    }

    /// Completes the last group. One that is a single plain call has no heading.
    fn complete(&mut self) -> Result<(), AllocError> {
        let words = self.kind.words();
        let heading = match (self.kind, self.count) {
            (_, 0) => return Ok(()),
            (Kind::Plain, 1) => String::new(self.alloc),
            (_, 1) => format!(in self.alloc; "{words}1 call:\n")?,
            (_, count) => format!(in self.alloc; "{words}{count} calls:\n")?,
        };
        self.text.push_str(heading.as_str())?;
        self.text.push_str(self.answer.as_str())?;
        self.count = 0;
        Ok(())
    }
}
