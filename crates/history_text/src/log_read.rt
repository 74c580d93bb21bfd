ghost use Rattle.std.specs.Prelude.{◌≡◌, ◌+◌, ◌≤◌, ◌++◌, suc, All, IfErr, IfOk, MatchOption, List, ℕ, length};
ghost use Rattle.machine_desc.specs.Weight.{weight_of};
ghost use Rattle.machine_reader.specs.Canonical.{canonical};
ghost use Rattle.machine_reader.specs.Description.{limit};
ghost use Rattle.history_text.specs.Lines.{Bad, IsCanonical, IsMachineText, IsReadBack, body_lines, log_lines, machine_text};
ghost use Rattle.history_text.specs.Lines as lines;
ghost use Rattle.history_text.specs.Named.{IsEntry, IsEvent};
ghost use Rattle.history_text.specs.Reading.{EntriesRead, IsSmall, Names, NamesNext, NoEntryNext, NoStuckNext, StuckRead};
ghost use Rattle.history_text.specs.Text.{rest_line};

use crate::fault::LogFault;
use crate::read::{next_entry, next_line, next_stuck, read_rest, same_text};
use acpi_regs::{Entry, Event, Memory};
use machine_desc::Machine;
use machine_reader::{ReaderFault, read_machine, write_machine};
use std::alloc::{AllocError, Global};

/// What a log tells.
#[derive(Drop)]
pub struct Log {
    /// The machine of the first line.
    pub machine: Machine,
    /// An entry a line, the oldest first.
    pub entries: Vec<Entry>,
    /// The events that are told as parked at the end.
    pub stuck: Vec<Event>,
    /// The number of the last line.
    pub rest: u32,
}

/// What a log tells behind its first line.
#[derive(Drop)]
struct Body {
    entries: Vec<Entry>,
    stuck: Vec<Event>,
    rest: u32,
}

/// The log whose text the bytes are. A text tells any machine that can be described and any entries, whether or not the
/// machine can make them. There are at most 67,108,864 bytes.
///
/// # Errors
/// `BadLine` exactly where the bytes are no log's text, with the number of the first bad line. `Memory` where room was
/// wanting.
pub fn read_log(alloc: Global, bytes: &[u8]) -> Result<Log, LogFault>
    requires { length bytes.now ≤ 67108864 }
    ensures text { IfOk result (λ log. bytes.now
        ≡ log_lines (canonical log.machine) log.entries.items log.stuck.items log.rest) }
    ensures machine { IfOk result (λ log. IsReadBack log.machine) }
    ensures weight { IfOk result (λ log. weight_of log.machine ≤ limit) }
    ensures entries { IfOk result (λ log. All IsEntry log.entries.items) }
    ensures stuck { IfOk result (λ log. All IsEvent log.stuck.items) }
    ensures bad { IfErr result (Names lines.Start bytes.now) }
{
    match next_line(bytes) {
        Some((line, rest)) => match read_machine_line(alloc, line) {
            Ok(Some(machine)) => read_behind(alloc, machine, rest),
            Ok(None) => Err(LogFault::BadLine(1)),
            Err(Memory) => Err(LogFault::Memory),
        },
        None => Err(LogFault::BadLine(1)),
    }
}

/// The log of a machine and of what stands behind its line. A bad line is counted from the machine's.
fn read_behind(alloc: Global, machine: Machine, bytes: &[u8]) -> Result<Log, LogFault>
    requires { length bytes.now ≤ 67108864 }
    ensures text { IfOk result (λ log. bytes.now
        ≡ body_lines log.entries.items log.stuck.items log.rest) }
    ensures machine { IfOk result (λ log. log.machine ≡ machine) }
    ensures entries { IfOk result (λ log. All IsEntry log.entries.items) }
    ensures stuck { IfOk result (λ log. All IsEvent log.stuck.items) }
    ensures bad { IfErr result (NamesNext lines.Entries bytes.now) }
{
    match read_body(alloc, bytes) {
        Ok(body) => Ok(Log {
            machine,
            entries: body.entries,
            stuck: body.stuck,
            rest: body.rest,
        }),
        Err(LogFault::BadLine(number)) => Err(LogFault::BadLine(number + 1)),
        Err(LogFault::Memory) => Err(LogFault::Memory),
    }
}

/// The machine whose line this is, where there is one.
fn read_machine_line(alloc: Global, line: &[u8]) -> Result<Option<Machine>, Memory>
    ensures { IfOk result (λ found. MatchOption found (IsMachineText line.now → ⊥)
        (λ m. (machine_text (canonical m) ≡ line.now) × IsReadBack m)) }
{
    if line.len() < 8 {
        return Ok(None);
    }
    let (word, text) = line.split_at(8);
    if !same_text(word, b"machine ") {
        return Ok(None);
    }
    read_canonical(alloc, text)
}

/// The machine whose canonical text this is, where there is one: it is read, written again and compared.
fn read_canonical(alloc: Global, text: &[u8]) -> Result<Option<Machine>, Memory>
    ensures { IfOk result (λ found. MatchOption found (IsCanonical text.now → ⊥)
        (λ m. (canonical m ≡ text.now) × IsReadBack m)) }
{
    match read_machine(alloc, text) {
        Ok(machine) => {
            let written = write_machine(alloc, &machine)?;
            if same_text(&written, text) {
                Ok(Some(machine))
            } else {
                Ok(None)
            }
        }
        Err(ReaderFault::Memory) => Err(Memory),
        Err(_) => Ok(None),
    }
}

/// What stands behind the machine's line. A bad line is counted from there.
fn read_body(alloc: Global, bytes: &[u8]) -> Result<Body, LogFault>
    requires { length bytes.now ≤ 67108864 }
    ensures text { IfOk result (λ body. bytes.now ≡ body_lines body.entries.items body.stuck.items body.rest) }
    ensures entries { IfOk result (λ body. All IsEntry body.entries.items) }
    ensures stuck { IfOk result (λ body. All IsEvent body.stuck.items) }
    ensures bad { IfErr result (Names lines.Entries bytes.now) }
    ensures small { IfErr result (IsSmall bytes.now) }
{
    let Ok((entries, after)) = read_entries(alloc, bytes) else {
        return Err(LogFault::Memory);
    };
    let Ok((stuck, last)) = read_stuck_lines(alloc, after) else {
        return Err(LogFault::Memory);
    };
    match read_end(last) {
        Ok(rest) => Ok(Body {
            entries,
            stuck,
            rest,
        }),
        Err(more) => Err(LogFault::BadLine(entries.len() as u32 + stuck.len() as u32 + more + 1)),
    }
}

/// The entries with which the bytes begin, and what stands behind them, whose first line is none of an entry.
fn read_entries(alloc: Global, bytes: &[u8]) -> Result<(Vec<Entry>, &[u8]), AllocError>
    ensures read { IfOk result (λ p. EntriesRead bytes.now p.0.items p.1.now) }
    ensures none { IfOk result (λ p. NoEntryNext p.1.now) }
{
    let mut entries = Vec::new(alloc);
    let mut left = bytes;
    while let Some((entry, rest)) = next_entry(left) {
        entries.push(entry)?;
        left = rest;
    }
    Ok((entries, left))
}

/// The stuck lines with which the bytes begin, and what stands behind them, whose first line is no stuck line.
fn read_stuck_lines(alloc: Global, bytes: &[u8]) -> Result<(Vec<Event>, &[u8]), AllocError>
    ensures read { IfOk result (λ p. StuckRead bytes.now p.0.items p.1.now) }
    ensures none { IfOk result (λ p. NoStuckNext p.1.now) }
{
    let mut events = Vec::new(alloc);
    let mut left = bytes;
    while let Some((event, rest)) = next_stuck(left) {
        events.push(event)?;
        left = rest;
    }
    Ok((events, left))
}

/// The number in the last line, where that is all; else how many lines stand before the first bad one.
fn read_end(bytes: &[u8]) -> Result<u32, u32>
    requires { NoStuckNext bytes.now }
    ensures ok { IfOk result (λ n. bytes.now ≡ rest_line n) }
    ensures bad { IfErr result (λ k. (k ≤ 1) × Bad lines.Stuck bytes.now (suc k)) }
{
    match next_line(bytes) {
        Some((line, rest)) => match read_rest(line) {
            Some(number) if rest.is_empty() => Ok(number),
            Some(_) => Err(1),
            None => Err(0),
        },
        None => Err(0),
    }
}
