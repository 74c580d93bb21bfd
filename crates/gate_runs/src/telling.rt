//! What is printed of the answer to a call.

use crate::call::{Call, Outcome};
use crate::case::number;
use crate::made::Made;
use acpi_commands::Status;
use std::alloc::{AllocError, Global};

/// What is printed of an answer.
#[derive(Drop)]
pub struct Telling {
    /// Lines of a log in which one of these words stands are printed; all lines, if no words are given here or below.
    picked: String,
    /// After them, in the order of their bytes, the lines in which one of these words stands.
    sorted: String,
    /// Whether the lines are printed without their actors.
    without_actors: bool,
    /// The sink must have been called fewer times than this, if it is given.
    writes_below: Option<u64>,
    /// Whether the log is judged.
    checked: bool,
    /// A complaint about an option that does not exist.
    faults: String,
}

impl Telling {
    /// All of a log is printed.
    pub fn new(alloc: Global) -> Telling {
        Telling {
            picked: String::new(alloc),
            sorted: String::new(alloc),
            without_actors: false,
            writes_below: None,
            checked: false,
            faults: String::new(alloc),
        }
    }

    /// Takes an option of a case.
    pub fn add_option(&mut self, alloc: Global, name: &str, value: &str) -> Result<(), AllocError> {
        match name {
            "picked" => self.picked = String::from_str(alloc, value)?,
            "sorted" => self.sorted = String::from_str(alloc, value)?,
            "without actors" => self.without_actors = true,
            "writes below" => self.writes_below = Some(number(value)),
            "checked" => self.checked = true,
            _ => self.faults = format!(in alloc; "no such option: {name}\n")?,
        }
        Ok(())
    }

    /// Whether the log is judged.
    pub fn is_checked(&self) -> bool {
        self.checked
    }

    /// The complaints about the table, each a line.
    pub fn faults(&self) -> &str {
        self.faults.as_str()
    }

    /// What is printed of a call, each line with its newline.
    pub fn answer(
        &self,
        alloc: Global,
        call: &Call<'_>,
        made: Option<Made>,
        outcome: &Outcome,
    ) -> Result<String, AllocError> {
        let held = str::from_utf8(outcome.sink.held()).unwrap_or("no text\n");
        let mut answer = match outcome.status {
            Status::Ok => self.accepted(alloc, call, made, held)?,
            _ => refused(alloc, outcome, held)?,
        };
        self.add_writes(alloc, &mut answer, outcome)?;
        if let Some(report) = outcome.gate.report() {
            answer.push_str(report)?;
            answer.push('\n')?;
        }
        Ok(answer)
    }

    /// What is printed of a text that the program wrote: of a log the lines after the machine's, if that one has the
    /// input.
    fn accepted(
        &self,
        alloc: Global,
        call: &Call<'_>,
        made: Option<Made>,
        held: &str,
    ) -> Result<String, AllocError> {
        let input = str::from_utf8(call.input).unwrap_or("no text");
        let entries = match held.split_once("\n") {
            Some((first, entries)) if first.strip_prefix("machine ") == Some(input) => entries,
            _ => held,
        };
        match made {
            Some(made) => as_made(alloc, made, entries),
            None => self.lines(alloc, entries),
        }
    }

    /// The lines that are picked, and after them those that are sorted.
    fn lines(&self, alloc: Global, entries: &str) -> Result<String, AllocError> {
        if self.picked.is_empty() && self.sorted.is_empty() {
            return self.all_lines(alloc, entries);
        }
        let picked = self.lines_with(alloc, entries, Some(self.picked.as_str()))?;
        let mut sorted = self.lines_with(alloc, entries, Some(self.sorted.as_str()))?;
        sorted.sort()?;
        let mut text = joined(&picked, alloc)?;
        text.push_str(joined(&sorted, alloc)?.as_str())?;
        Ok(text)
    }

    /// All lines. With their actors the text is as it was written, to the last newline.
    fn all_lines(&self, alloc: Global, entries: &str) -> Result<String, AllocError> {
        if self.without_actors {
            joined(&self.lines_with(alloc, entries, None)?, alloc)
        } else {
            String::from_str(alloc, entries)
        }
    }

    /// The lines in which one of these words stands, or all.
    fn lines_with(
        &self,
        alloc: Global,
        entries: &str,
        words: Option<&str>,
    ) -> Result<Vec<String>, AllocError> {
        let mut lines = Vec::new(alloc);
        for line in entries.split("\n") {
            if !line.is_empty() && words.is_none_or(|words| has_one(line, words)) {
                let line = if self.without_actors {
                    without_actor(line)
                } else {
                    line
                };
                lines.push(String::from_str(alloc, line)?)?;
            }
        }
        Ok(lines)
    }

    /// Adds whether the sink was called few enough times.
    fn add_writes(
        &self,
        alloc: Global,
        answer: &mut String,
        outcome: &Outcome,
    ) -> Result<(), AllocError> {
        let writes = outcome.sink.writes();
        match self.writes_below {
            None => Ok(()),
            Some(bound) if writes < bound => {
                answer.push_str(&format!(in alloc; "fewer than {bound} writes\n")?)
            }
            Some(_) => answer.push_str(&format!(in alloc; "{writes} writes\n")?),
        }
    }
}

/// What is printed of a refusal: its text, its code, how often the sink was called, and what it holds.
fn refused(alloc: Global, outcome: &Outcome, held: &str) -> Result<String, AllocError> {
    let status = &outcome.status;
    let code = status.code();
    match outcome.sink.writes() {
        0 if held.is_empty() => format!(in alloc; "{status}, code {code}, no write\n"),
        writes => format!(in alloc; "{status}, code {code}, {writes} writes, held:\n{held}\n"),
    }
}

/// What is printed of the log of an input that was made: its last line, if the whole log is as it must be.
fn as_made(alloc: Global, made: Made, entries: &str) -> Result<String, AllocError> {
    match made.log(alloc)? {
        Some(log) if log.as_str() == entries => {
            let last = entries
                .trim_end()
                .rsplit_once("\n")
                .map_or(entries, |parts| parts.1);
            let last = last.trim_end();
            format!(in alloc; "every line as its maker says, {last}\n")
        }
        _ => String::from_str(alloc, entries),
    }
}

fn joined(lines: &[String], alloc: Global) -> Result<String, AllocError> {
    let mut text = String::new(alloc);
    for line in lines {
        text.push_str(line.as_str())?;
        text.push('\n')?;
    }
    Ok(text)
}

/// Whether one of these words stands in a line.
fn has_one(line: &str, words: &str) -> bool {
    words
        .split(" ")
        .any(|word| line.split(" ").any(|other| other == word))
}

/// An entry without its actor. The lines at the end have none.
fn without_actor(line: &str) -> &str {
    match line.split_once(" ") {
        Some(("rest" | "stuck", _)) | None => line,
        Some((_, deed)) => deed,
    }
}
