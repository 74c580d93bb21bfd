//! What the source of a case gives.

use crate::made::Made;
use std::alloc::{AllocError, Global};

/// The named texts of the table.
#[derive(Drop)]
pub struct Texts {
    texts: Vec<(String, String)>,
}

impl Texts {
    /// No texts.
    pub fn new(alloc: Global) -> Texts {
        Texts {
            texts: Vec::new(alloc),
        }
    }

    /// Adds a text under its name.
    pub fn add(&mut self, alloc: Global, name: &str, text: &str) -> Result<(), AllocError> {
        let name = String::from_str(alloc, name)?;
        let text = String::from_str(alloc, text)?;
        self.texts.push((name, text))?;
        Ok(())
    }

    /// The text of a name.
    fn named(&self, name: &str) -> Option<&str> {
        for (other, text) in &self.texts {
            if other.as_str() == name {
                return Some(text.as_str());
            }
        }
        None
    }
}

/// The input of a case while its lines are read.
#[derive(Drop)]
pub struct Input {
    /// The text up to the line that was removed last, or all of it.
    front: String,
    /// The text after that line.
    back: String,
    /// How the text was made, if a maker made it.
    made: Option<Made>,
    /// Complaints about options that name no text or no line.
    faults: String,
}

impl Input {
    /// No bytes.
    pub fn new(alloc: Global) -> Input {
        Input {
            front: String::new(alloc),
            back: String::new(alloc),
            made: None,
            faults: String::new(alloc),
        }
    }

    /// How the text was made, if a maker made it.
    pub fn made(&self) -> Option<Made> {
        self.made
    }

    /// The complaints about the table, each a line.
    pub fn faults(&self) -> &str {
        self.faults.as_str()
    }

    /// The text.
    pub fn text(&self, alloc: Global) -> Result<String, AllocError> {
        let mut text = String::from_str(alloc, self.front.as_str())?;
        text.push_str(self.back.as_str())?;
        Ok(text)
    }

    /// Takes the text of this name, or of this maker.
    pub fn take(&mut self, alloc: Global, texts: &Texts, name: &str) -> Result<(), AllocError> {
        self.made = Made::named(name);
        if let Some(made) = self.made {
            self.front = made.text(alloc)?;
        } else if let Some(text) = texts.named(name) {
            self.front = String::from_str(alloc, text)?;
        } else {
            self.complain("no such text", name)?;
        }
        Ok(())
    }

    /// Adds a line of the table. Lines have a newline between them, and none at the end.
    pub fn add(&mut self, line: &str) -> Result<(), AllocError> {
        if !self.front.is_empty() {
            self.front.push('\n')?;
        }
        self.front.push_str(line)
    }

    /// Ends the last line by a newline, as a log's is.
    pub fn end_line(&mut self) -> Result<(), AllocError> {
        self.front.push('\n')
    }

    /// Removes this line, which is not the first.
    pub fn remove(&mut self, alloc: Global, line: &str) -> Result<(), AllocError> {
        let text = self.text(alloc)?;
        let whole = format!(in alloc; "\n{line}\n")?;
        match text.as_str().split_once(whole.as_str()) {
            Some((front, back)) => {
                self.front = format!(in alloc; "{front}\n")?;
                self.back = String::from_str(alloc, back)?;
                Ok(())
            }
            None => self.complain("no such line", line),
        }
    }

    /// Puts a line where the last one was removed.
    pub fn put(&mut self, line: &str) -> Result<(), AllocError> {
        self.front.push_str(line)?;
        self.end_line()
    }

    /// Keeps only the first lines.
    pub fn cut(&mut self, alloc: Global, lines: usize) -> Result<(), AllocError> {
        let text = self.text(alloc)?;
        self.front = String::new(alloc);
        self.back = String::new(alloc);
        for line in text.as_str().split("\n").take(lines) {
            self.put(line)?;
        }
        Ok(())
    }

    fn complain(&mut self, what: &str, of: &str) -> Result<(), AllocError> {
        self.faults.push_str(what)?;
        self.faults.push_str(": ")?;
        self.faults.push_str(of)?;
        self.faults.push('\n')
    }
}
