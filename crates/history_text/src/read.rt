ghost use Rattle.std.specs.Prelude.{◌≡◌, ◌↔◌, ◌+◌, ◌≤◌, ◌<◌, ◌^◌, IfSome, IsTrue, List, MatchOption, ℕ, length};
ghost use Rattle.history_text.specs.Lines.{Begins, IsEntryText, IsRestText, IsStuckText};
ghost use Rattle.history_text.specs.Named.{IsEntry, IsEvent};
ghost use Rattle.history_text.specs.Reading.{EntryNext, NoEntryNext, NoStuckNext, StuckNext};
ghost use Rattle.history_text.specs.Text.{entry_text, rest_text, stuck_text};

use crate::guess::{entry_guess, event_guess, job_guess};
use crate::line::{text_of_entry, text_of_rest, text_of_stuck};
use acpi_regs::{Entry, Event};
use memchr::memchr;

/// Whether two texts are the same.
pub fn same_text(one: &[u8], other: &[u8]) -> bool
    ensures { IsTrue result ↔ (one.now ≡ other.now) }
{
    one == other
}

/// The entry whose text this is, where there is one: the only one that it can be, written again and compared.
pub fn read_entry(line: &[u8]) -> Option<Entry>
    ensures { MatchOption result (IsEntryText line.now → ⊥)
        (λ e. IsEntry e × (entry_text e ≡ line.now)) }
{
    let guess = entry_guess(line);
    if same_text(text_of_entry(&guess).as_slice(), line) {
        Some(guess)
    } else {
        None
    }
}

/// The event whose stuck line this is, where there is one.
pub fn read_stuck(line: &[u8]) -> Option<Event>
    ensures { MatchOption result (IsStuckText line.now → ⊥)
        (λ n. IsEvent n × (stuck_text n ≡ line.now)) }
{
    let guess = event_guess(line, 6);
    if same_text(text_of_stuck(guess).as_slice(), line) {
        Some(guess)
    } else {
        None
    }
}

/// The number whose last line this is, where there is one.
pub fn read_rest(line: &[u8]) -> Option<u32>
    ensures { MatchOption result (IsRestText line.now → ⊥)
        (λ k. (k < 2 ^ 32) × (rest_text k ≡ line.now)) }
{
    let guess = job_guess(line, 5);
    if same_text(text_of_rest(guess).as_slice(), line) {
        Some(guess)
    } else {
        None
    }
}

/// The first line and what stands behind its newline.
pub fn next_line(bytes: &[u8]) -> Option<(&[u8], &[u8])>
    ensures cases { MatchOption result
        ((line : List ℕ) (rest : List ℕ) → Begins bytes.now line rest → ⊥)
        (λ p. Begins bytes.now p.0.now p.1.now) }
    ensures len { IfSome result (λ p. length p.1.now + 1 ≤ length bytes.now) }
{
    match memchr(b'\n', bytes) {
        Some(end) => {
            let (line, behind) = bytes.split_at(end);
            let (_, rest) = behind.split_at(1);
            Some((line, rest))
        }
        None => None,
    }
}

/// The entry of the first line and what stands behind it, where the line is one of an entry.
pub fn next_entry(bytes: &[u8]) -> Option<(Entry, &[u8])>
    ensures cases { MatchOption result (NoEntryNext bytes.now) (λ p. EntryNext bytes.now p.0 p.1.now) }
    ensures len { IfSome result (λ p. length p.1.now + 1 ≤ length bytes.now) }
{
    match next_line(bytes) {
        Some((line, rest)) => match read_entry(line) {
            Some(entry) => Some((entry, rest)),
            None => None,
        },
        None => None,
    }
}

/// The event of the first line and what stands behind it, where the line is a stuck line.
pub fn next_stuck(bytes: &[u8]) -> Option<(Event, &[u8])>
    ensures cases { MatchOption result (NoStuckNext bytes.now) (λ p. StuckNext bytes.now p.0 p.1.now) }
    ensures len { IfSome result (λ p. length p.1.now + 1 ≤ length bytes.now) }
{
    match next_line(bytes) {
        Some((line, rest)) => match read_stuck(line) {
            Some(event) => Some((event, rest)),
            None => None,
        },
        None => None,
    }
}
