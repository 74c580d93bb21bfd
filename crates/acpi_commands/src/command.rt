//! The commands of the program, by its words.
ghost use Rattle.std.specs.Prelude.{◌≡◌, ◌↔◌, ◌∷◌, ℕ, IfOk, IsTrue, List, Some, [], codes, decimal, map, string_bytes, true};
ghost use Rattle.std.specs.List.{list_all};
ghost use Rattle.clap.specs.Simple.{app_of};
ghost use Rattle.acpi_commands.specs.CommandLine.{IsNumber, IsSize, IsSplit, Splits, line};
ghost use Rattle.acpi_commands.specs.Words.{AreWords, Commands, are_plain, is_plain, limit_of};

use clap::Arg;
use clap::error::ErrorKind;
use itoa::Buffer;
use std::alloc::{AllocError, Global};

/// What is done with what the source gives.
#[derive(Clone, Copy, Debug)]
pub enum Task {
    /// Run the machine, each actor on a thread of its own.
    Run,
    /// Run the machine on one thread, by its schedule, a step a name, and then in rounds.
    Replay,
    /// Judge a log.
    Check,
}

impl Task {
    /// The greatest number of bytes that it reads.
    pub fn limit(self) -> usize
        ensures { result ≡ limit_of self }
    {
        match self {
            Task::Run | Task::Replay => 4_194_304,
            Task::Check => 67_108_864,
        }
    }
}

/// What the program is to do.
#[derive(Clone, Copy, Debug)]
pub enum Command {
    /// Read the source, and do this with what it gives.
    Read(Task),
    /// Run the machine of a number and a size, and write a summary of its history.
    Make {
        /// Which of the machines it is.
        number: u32,
        /// How large it is, from 1 to 64.
        size: u8,
    },
}

/// Why words give no command.
#[derive(Clone, Copy, Debug)]
pub enum NoCommand {
    /// They are none.
    Usage,
    /// Memory ran out while they were read.
    Memory,
}

/// The words by their places.
#[derive(Clone, Copy)]
struct Split<'a> {
    command: Option<&'a str>,
    number: Option<&'a str>,
    size: Option<&'a str>,
}

/// The command that the words are.
///
/// # Errors `Usage` only where they are none. `Memory` only where no word is empty or starts with `-`; it may come in
/// place of all else.
pub fn command_of(alloc: Global, words: &[String]) -> Result<Command, NoCommand>
    ensures { Commands words.now result }
{
    if !are_plain(words) {
        return Err(NoCommand::Usage);
    }
    match split_words(alloc, words) {
        Ok(split) => command_in(&split).ok_or(NoCommand::Usage),
        Err(refusal) => Err(refusal),
    }
}

/// Whether no word is empty or starts with `-`.
fn are_plain(words: &[String]) -> bool
    ensures { result ≡ list_all (λ word. is_plain (string_bytes word)) words.now }
{
    words.iter().all(|word| is_plain(word.as_str()))
}

/// Whether a word is not empty and does not start with `-`.
fn is_plain(word: &str) -> bool
    ensures { result ≡ is_plain word.now }
{
    match word.as_bytes() {
        [] => false,
        [first, ..] => *first != b'-',
    }
}

/// The words by their places, as `clap` reads them.
fn split_words(alloc: Global, words: &[String]) -> Result<Split<'_>, NoCommand>
    requires { are_plain (map string_bytes words.now) ≡ true }
    ensures { Splits (map string_bytes words.now) result }
{
    let Ok(line) = command_line(alloc) else {
        return Err(NoCommand::Memory);
    };
    match line.try_get_matches_from(words) {
        Ok(matches) => Ok(Split {
            command: matches.get_str("command"),
            number: matches.get_str("number"),
            size: matches.get_str("size"),
        }),
        Err(error) => match error.kind() {
            ErrorKind::OutOfMemory => Err(NoCommand::Memory),
            _ => Err(NoCommand::Usage),
        },
    }
}

/// The command line: a command, and up to two values.
fn command_line<'a>(alloc: Global) -> Result<clap::Command<'a>, AllocError>
    ensures { IfOk result (λ c. app_of c ≡ line) }
{
    let command = Arg::new(alloc, "command").required(true);
    let number = Arg::new(alloc, "number");
    let size = Arg::new(alloc, "size");
    clap::Command::new(alloc, "acpi_events")
        .no_binary_name(true)
        .disable_help_flag(true)
        .arg(command)?
        .arg(number)?
        .arg(size)
}

/// The command that the words in their places are.
fn command_in(split: &Split<'_>) -> Option<Command>
    ensures { (texts : List (List ℕ)) → IsSplit texts split.now → AreWords texts result }
{
    let command = split.command?;
    match (split.number, split.size) {
        (None, None) => command_named(command),
        (Some(number), Some(size)) => command_with(command, number, size),
        _ => None,
    }
}

/// The command of one word.
fn command_named(word: &str) -> Option<Command>
    ensures { AreWords (word.now ∷ []) result }
{
    if word == "run" {
        Some(Command::Read(Task::Run))
    } else if word == "replay" {
        Some(Command::Read(Task::Replay))
    } else if word == "check" {
        Some(Command::Read(Task::Check))
    } else {
        None
    }
}

/// The command of three words.
fn command_with(word: &str, number: &str, size: &str) -> Option<Command>
    ensures { AreWords (word.now ∷ number.now ∷ size.now ∷ []) result }
{
    if word != "make" {
        return None;
    }
    let number = number_in(number)?;
    let size = size_in(size)?;
    Some(Command::Make { number, size })
}

/// The number of a word in decimal, without a sign and without a zero in front.
fn number_in(word: &str) -> Option<u32>
    ensures { IsNumber 4294967295 word.now result }
{
    match word.parse::<u32>() {
        Ok(number) if is_decimal(number, word) => Some(number),
        _ => None,
    }
}

/// Whether a word is a number in decimal.
fn is_decimal(number: u32, word: &str) -> bool
    ensures { IsTrue result ↔ (word.now ≡ decimal number) }
{
    let mut digits = Buffer::new();
    digits.format(number) == word
}

/// The size of a word, from 1 to 64, in decimal.
fn size_in(word: &str) -> Option<u8>
    ensures { IsSize word.now result }
{
    match number_in(word) {
        Some(number) if 1 <= number && number <= 64 => Some(number as u8),
        _ => None,
    }
}
