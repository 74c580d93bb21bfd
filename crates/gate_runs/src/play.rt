//! The calls of a case.

use crate::call::{Call, Outcome};
use crate::case::{Case, Series};
use crate::groups::{Groups, Kind};
use acpi_commands::Status;
use std::alloc::{AllocError, Global};
use std::thread::Threads;

/// The most calls in which a read or a write fails in turn.
const MOST_CALLS: u64 = 65_536;

/// Makes the calls of a case, and returns what is printed of them.
pub fn play<R: Threads + Sync>(rt: &R, alloc: Global, case: &Case) -> Result<String, AllocError> {
    let mut groups = Groups::new(alloc);
    let input = case.input.text(alloc)?;
    for words in &case.words {
        play_words(
            rt,
            alloc,
            case,
            words.as_str(),
            input.as_bytes(),
            &mut groups,
        )?;
    }
    let mut text = String::from_str(alloc, case.input.faults())?;
    text.push_str(case.telling.faults())?;
    text.push_str(groups.into_text()?.as_str())?;
    Ok(text)
}

/// Makes the calls with these words.
fn play_words<R: Threads + Sync>(
    rt: &R,
    alloc: Global,
    case: &Case,
    words: &str,
    input: &[u8],
    groups: &mut Groups,
) -> Result<(), AllocError> {
    for most in &case.most {
        let call = Call {
            words,
            input,
            most: *most,
            room: case.room,
            failing_read: case.failing_read,
            failing_write: case.failing_write,
            meets: case.meets,
        };
        play_series(rt, alloc, case, call, groups)?;
    }
    Ok(())
}

/// Makes the calls of a series: each is this call, except for what the series changes.
fn play_series<R: Threads + Sync>(
    rt: &R,
    alloc: Global,
    case: &Case,
    call: Call<'_>,
    groups: &mut Groups,
) -> Result<(), AllocError> {
    match case.series {
        Series::Times(times) => play_times(rt, alloc, case, call, times, groups),
        Series::EachRead => play_each_read(rt, alloc, case, call, groups),
        Series::EachWrite => play_each_write(rt, alloc, case, call, groups),
        Series::EachFront => play_each_front(rt, alloc, case, call, groups),
    }
}

fn play_times<R: Threads + Sync>(
    rt: &R,
    alloc: Global,
    case: &Case,
    call: Call<'_>,
    times: u64,
    groups: &mut Groups,
) -> Result<(), AllocError> {
    for _ in 0..times {
        let outcome = call.make(rt, alloc)?;
        let mut said = answer(alloc, case, &call, &outcome)?;
        if case.telling.is_checked() {
            said.push_str(verdict(rt, alloc, &outcome)?.as_str())?;
        }
        groups.add(Kind::Plain, said)?;
    }
    Ok(())
}

/// What is printed of the answer to a call of a case.
fn answer(
    alloc: Global,
    case: &Case,
    call: &Call<'_>,
    outcome: &Outcome,
) -> Result<String, AllocError> {
    case.telling.answer(alloc, call, case.input.made(), outcome)
}

/// Each read fails in turn, up to a number that no read has.
fn play_each_read<R: Threads + Sync>(
    rt: &R,
    alloc: Global,
    case: &Case,
    call: Call<'_>,
    groups: &mut Groups,
) -> Result<(), AllocError> {
    for number in 0..MOST_CALLS {
        let call = Call {
            failing_read: Some(number),
            ..call
        };
        let outcome = call.make(rt, alloc)?;
        let said = answer(alloc, case, &call, &outcome)?;
        if outcome.status != Status::ReadFault {
            return groups.add(Kind::NoReadFails, said);
        }
        groups.add(Kind::ReadFails, said)?;
    }
    Ok(())
}

/// Each write fails in turn, up to a number that no write has.
fn play_each_write<R: Threads + Sync>(
    rt: &R,
    alloc: Global,
    case: &Case,
    call: Call<'_>,
    groups: &mut Groups,
) -> Result<(), AllocError> {
    let whole = call.make(rt, alloc)?;
    for number in 0..MOST_CALLS {
        let call = Call {
            failing_write: Some(number),
            ..call
        };
        let outcome = call.make(rt, alloc)?;
        if outcome.status != Status::WriteFault {
            let said = answer(alloc, case, &call, &outcome)?;
            return groups.add(Kind::NoWriteFails, said);
        }
        let said = if has_front(&outcome, &whole, number, call.most) {
            let code = outcome.status.code();
            format!(in alloc;
                "WriteFault, code {code}, no later write, held: what the writes before took\n"
            )?
        } else {
            answer(alloc, case, &call, &outcome)?
        };
        groups.add(Kind::WriteFails, said)?;
    }
    Ok(())
}

/// Whether the write of this number was the last, and the sink holds what the writes before it took: a front of the
/// whole text, of `most` bytes for each of them.
fn has_front(outcome: &Outcome, whole: &Outcome, number: u64, most: usize) -> bool {
    let held = outcome.sink.held();
    outcome.sink.writes() == number.saturating_add(1)
        && held.len() as u64 == number.saturating_mul(most as u64)
        && whole.sink.held().starts_with(held)
}

fn play_each_front<R: Threads + Sync>(
    rt: &R,
    alloc: Global,
    case: &Case,
    call: Call<'_>,
    groups: &mut Groups,
) -> Result<(), AllocError> {
    let input = call.input;
    for len in 0..input.len() {
        let call = Call {
            input: &input[..len],
            ..call
        };
        let outcome = call.make(rt, alloc)?;
        let said = answer(alloc, case, &call, &outcome)?;
        groups.add(Kind::Front, said)?;
    }
    Ok(())
}

/// What `check` says of the log that a call wrote. The number of its entries is not printed if it is right.
fn verdict<R: Threads + Sync>(
    rt: &R,
    alloc: Global,
    outcome: &Outcome,
) -> Result<String, AllocError> {
    let log = outcome.sink.held();
    let call = Call {
        words: "check",
        input: log,
        most: 65_536,
        room: 64,
        failing_read: None,
        failing_write: None,
        meets: false,
    };
    let judged = call.make(rt, alloc)?;
    // The machine's line and the last one are no entries.
    let lines = log.iter().filter(|byte| **byte == b'\n').count();
    let complete = format!(in alloc; "complete {}\n", lines.saturating_sub(2))?;
    if judged.status == Status::Ok && judged.sink.held() == complete.as_bytes() {
        String::from_str(alloc, "check: complete, with the number of its entries\n")
    } else {
        let said = str::from_utf8(judged.sink.held()).unwrap_or("no text");
        format!(in alloc; "check: {} {said}\n", judged.status)
    }
}
