//! Inputs that are too large for a table: they are made.

use std::alloc::{AllocError, Global};

/// How many fields a large description has: one in the first of each sixteen cells.
const FIELDS: u32 = 256;

/// How many cells its region has, and how many writes its script.
const CELLS: u32 = 4096;

/// An input that is made.
#[derive(Clone, Copy)]
pub enum Made {
    /// This many blanks.
    Spaces(usize),
    /// A description with one script of this many operations, at least one, each a write of 1 to the same byte.
    Writes(u32),
    /// A description with one region of 4,096 cells, each with its byte, and 256 fields; with firmware, it has one
    /// script of 4,096 writes of the greatest value.
    Large { firmware: bool },
}

impl Made {
    /// The maker of this name.
    pub fn named(name: &str) -> Option<Made> {
        match name {
            "large" => Some(Made::Large { firmware: true }),
            "large without firmware" => Some(Made::Large { firmware: false }),
            _ => Made::counted(name),
        }
    }

    /// The maker of this name and number.
    fn counted(name: &str) -> Option<Made> {
        let (word, count) = name.split_once(" ")?;
        match word {
            "spaces" => Some(Made::Spaces(count.parse::<usize>().ok()?)),
            "writes" => Some(Made::Writes(count.parse::<u32>().ok()?)),
            _ => None,
        }
    }

    /// The input.
    pub fn text(self, alloc: Global) -> Result<String, AllocError> {
        match self {
            Made::Spaces(count) => spaces(alloc, count),
            Made::Writes(count) => many_writes(alloc, count),
            Made::Large { firmware } => large(alloc, firmware),
        }
    }

    /// The log that a run of the input must have after the machine's line, if the input is a description.
    pub fn log(self, alloc: Global) -> Result<Option<String>, AllocError> {
        match self {
            Made::Spaces(_) => Ok(None),
            Made::Writes(count) => Ok(Some(log_of_writes(alloc, count)?)),
            Made::Large { firmware: true } => Ok(Some(log_of_large(alloc)?)),
            Made::Large { firmware: false } => Ok(Some(String::from_str(alloc, "rest 0\n")?)),
        }
    }
}

fn spaces(alloc: Global, count: usize) -> Result<String, AllocError> {
    let mut text = String::new(alloc);
    for _ in 0..count {
        text.push(' ')?;
    }
    Ok(text)
}

fn many_writes(alloc: Global, count: u32) -> Result<String, AllocError> {
    let mut text = String::from_str(
        alloc,
        "{\"controller\":null,\"devices\":[],\"events\":[],\"fields\":[{\"bit\":0,\"lock\":false,\"region\":0,\"update\":\"ones\",\"width\":8}],\"firmware\":[[[\"write\",0,257]",
    )?;
    for _ in 1..count {
        text.push_str(",[\"write\",0,257]")?;
    }
    text.push_str(
        "]],\"gpe\":{\"base1\":0,\"gpe0\":2,\"gpe1\":0},\"regions\":[{\"bytes\":[],\"kind\":\"memory\",\"len\":1}],\"schedule\":[],\"version\":1,\"workers\":1}",
    )?;
    Ok(text)
}

fn log_of_writes(alloc: Global, count: u32) -> Result<String, AllocError> {
    let mut log = String::new(alloc);
    for _ in 0..count {
        log.push_str("f0 write 00:0000 01\n")?;
    }
    log.push_str(&format!(in alloc; "rest {count}\n")?)?;
    Ok(log)
}

fn large(alloc: Global, firmware: bool) -> Result<String, AllocError> {
    let mut text = String::from_str(
        alloc,
        "{\"controller\":null,\"devices\":[],\"events\":[],\"fields\":[",
    )?;
    add_fields(alloc, &mut text)?;
    text.push_str("],\"firmware\":[")?;
    if firmware {
        add_script(alloc, &mut text)?;
    }
    text.push_str("],\"gpe\":{\"base1\":0,\"gpe0\":2,\"gpe1\":0},\"regions\":[{\"bytes\":[255")?;
    for _ in 1..CELLS {
        text.push_str(",255")?;
    }
    text.push_str(
        "],\"kind\":\"memory\",\"len\":4096}],\"schedule\":[],\"version\":1,\"workers\":1}",
    )?;
    Ok(text)
}

fn add_fields(alloc: Global, text: &mut String) -> Result<(), AllocError> {
    for i in 0..FIELDS {
        let comma = if i == 0 { "" } else { "," };
        let bit = i * 128;
        text.push_str(&format!(in alloc;
            "{comma}{{\"bit\":{bit},\"lock\":false,\"region\":0,\"update\":\"preserve\",\"width\":8}}"
        )?)?;
    }
    Ok(())
}

fn add_script(alloc: Global, text: &mut String) -> Result<(), AllocError> {
    text.push_str("[")?;
    for i in 0..CELLS {
        let comma = if i == 0 { "" } else { "," };
        let field = i % FIELDS;
        text.push_str(&format!(in alloc; "{comma}[\"write\",{field},18446744073709551615]")?)?;
    }
    text.push_str("]")
}

fn log_of_large(alloc: Global) -> Result<String, AllocError> {
    let mut log = String::new(alloc);
    for i in 0..CELLS {
        let offset = i % FIELDS * 16;
        log.push_str(&format!(in alloc; "f0 write 00:{offset:04X} FF\n")?)?;
    }
    log.push_str(&format!(in alloc; "rest {CELLS}\n")?)?;
    Ok(log)
}
