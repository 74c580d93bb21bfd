ghost use Rattle.std.specs.Prelude.{◌≤◌, length};

use crate::cases::{Case, Form, begins_with, line_len, next_case, without_newline};
use acpi_io::Sink;
use history_text::{Line, LogFault, Pieces, read_log};
use run_checker::{Verdict, check, rule_name};
use std::alloc::{AllocError, Global};

/// A log could not be judged, or its verdict not written.
#[derive(Clone, Copy, Debug)]
pub struct Stopped;

/// The most bytes of a log.
const MOST: usize = 67_108_864;

/// Writes the name and the verdict of each case.
pub fn judge_all<K: Sink>(alloc: Global, bytes: &[u8], sink: &mut K) -> Result<(), Stopped> {
    let mut pieces = Pieces::new();
    let mut machine = Vec::new(alloc);
    let mut left = bytes;
    while let Some((case, rest)) = next_case(left) {
        let line = judge_case(alloc, &case, &mut machine);
        put_line(&mut pieces, sink, case.name, &line)?;
        left = rest;
    }
    pieces.finish(sink).map_err(|_| Stopped)
}

/// Puts a line with a name and a verdict behind what waits.
fn put_line<K: Sink>(
    pieces: &mut Pieces,
    sink: &mut K,
    name: &[u8],
    verdict: &Line,
) -> Result<(), Stopped> {
    let name = pieces.put(sink, name);
    let between = pieces.put(sink, b": ");
    let verdict = pieces.put(sink, verdict.as_slice());
    let end = pieces.put(sink, b"\n");
    if name.is_ok() && between.is_ok() && verdict.is_ok() && end.is_ok() {
        Ok(())
    } else {
        Err(Stopped)
    }
}

/// The words for the verdict on a case. The machine's line of a case that has one is kept for those to come.
fn judge_case(alloc: Global, case: &Case<'_>, machine: &mut Vec<u8>) -> Line {
    match text_of(alloc, case, machine) {
        Ok(text) => judge(alloc, &text),
        Err(AllocError) => words(b"Memory"),
    }
}

/// The text of a case's log.
fn text_of(alloc: Global, case: &Case<'_>, machine: &mut Vec<u8>) -> Result<Vec<u8>, AllocError> {
    match case.form {
        Form::Short => whole_text(alloc, case.lines, machine),
        Form::Exact => Vec::from_slice(alloc, case.lines),
        Form::Cut => Vec::from_slice(alloc, without_newline(case.lines)),
    }
}

/// The lines with a machine's line before them and a last line behind them, where they have none.
fn whole_text(alloc: Global, lines: &[u8], machine: &mut Vec<u8>) -> Result<Vec<u8>, AllocError> {
    let mut text = Vec::new(alloc);
    if begins_with(lines, b"machine ") {
        let (line, _) = lines.split_at(line_len(lines));
        machine.clear();
        machine.extend_from_slice(line)?;
    } else {
        text.extend_from_slice(machine)?;
    }
    text.extend_from_slice(lines)?;
    let counted = count(lines);
    if !counted.has_last {
        let mut last = Line::new();
        last.push_text(b"rest ");
        last.push_number(counted.entries);
        last.push(b'\n');
        text.extend_from_slice(last.as_slice())?;
    }
    Ok(text)
}

/// How many lines of entries there are, and whether there is a last line.
#[derive(Clone, Copy, Debug)]
struct Counted {
    entries: u32,
    has_last: bool,
}

fn count(lines: &[u8]) -> Counted {
    let mut counted = Counted {
        entries: 0,
        has_last: false,
    };
    let mut left = lines;
    while !left.is_empty() {
        let (line, rest) = left.split_at(line_len(left));
        if begins_with(line, b"rest ") {
            counted.has_last = true;
        } else if !begins_with(line, b"stuck ") && !begins_with(line, b"machine ") {
            counted.entries = counted.entries.saturating_add(1);
        }
        left = rest;
    }
    counted
}

/// The words for the verdict on a log's text.
fn judge(alloc: Global, text: &[u8]) -> Line {
    if text.len() > MOST {
        return words(b"TooLarge");
    }
    match read_log(alloc, text) {
        Ok(log) => match check(alloc, &log) {
            Ok(Verdict::Complete) => numbered(b"complete ", log.rest),
            Ok(Verdict::Illegal { line, rule }) => {
                let mut words = numbered(b"Illegal ", line);
                words.push(b' ');
                words.push_text(rule_name(rule).as_bytes());
                words
            }
            Ok(Verdict::Unfinished { actor }) => {
                let mut line = words(b"Unfinished ");
                line.push_actor(actor);
                line
            }
            Err(_) => words(b"Memory"),
        },
        Err(LogFault::BadLine(line)) => numbered(b"BadLog ", line),
        Err(LogFault::Memory) => words(b"Memory"),
    }
}

fn words(text: &[u8]) -> Line
    requires { length text.now ≤ 11 }
    ensures { length result ≤ 11 }
{
    let mut line = Line::new();
    line.push_text(text);
    line
}

fn numbered(text: &[u8], number: u32) -> Line
    requires { length text.now ≤ 11 }
    ensures { length result ≤ 21 }
{
    let mut line = words(text);
    line.push_number(number);
    line
}
