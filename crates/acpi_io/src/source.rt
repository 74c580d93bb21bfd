ghost use Rattle.std.specs.Prelude.{◌≡◌, ℕ, ◌+◌, ◌*◌, ◌<◌, ◌≤◌, List, Option, length, take, drop, max, vec_len, OnOk, IsErrOf};
ghost use Rattle.acpi_io.specs.declared.source.ReadAllFault.TheVariants.{Memory};
ghost use Rattle.acpi_io.specs.Faults.{RoseByOne};
ghost use Rattle.acpi_io.specs.Source.{AsksOncePerByte, ReadTakes, ReadsAll};

use std::alloc::{AllocError, Global};
use std::error::Error;
use std::fmt;

/// The room that [`read_all`] begins with.
const FIRST_ROOM: usize = 65536;

/// What a read of a [`Source`] came to.
#[derive(Debug, Drop, PartialEq)]
pub enum ReadOutcome {
    /// So many bytes were read, at least one, into the front of the buffer.
    Took(usize),
    /// No byte is left.
    End,
    /// The source failed in this call and read nothing.
    Failed,
}

/// Where bytes come from.
pub trait Source {
    /// The bytes that are still to come, where the source tells them.
    ghost left: { Self → Option (List ℕ) };

    /// How often the source has failed. A call that answers `Failed` raises it by one, but not past 2^64 - 1, and
    /// every other call leaves it as it was. So no failure is passed over.
    ghost faults: { Self → ℕ };

    /// How often the source was read. One that does not count says 0.
    ghost reads: { Self → ℕ };

    /// Reads some of the bytes that are left, into the front of a buffer that is not empty.
    fn read(&mut self, into: &mut [u8]) -> ReadOutcome
        requires { 0 < length into.old }
        ensures bytes { ReadTakes result (left self.old) (left self.new) into.new }
        ensures later { faults self.old ≤ faults self.new }
        ensures cause { result ≡ ReadOutcome.Failed → RoseByOne (faults self.old) (faults self.new) }
        ensures told { ¬ result ≡ ReadOutcome.Failed → faults self.new ≡ faults self.old }
        ensures asked { reads self.new ≤ reads self.old + 1 };
}

/// Why [`read_all`] did not read a source to its end.
#[derive(Debug, Drop, PartialEq)]
pub enum ReadAllFault {
    /// A read failed.
    ReadFault,
    /// There are more bytes than the limit. One byte more than the limit was taken.
    TooLarge,
    /// Memory ran out, with no more bytes taken than the limit. They are lost.
    Memory,
}

impl fmt::Display for ReadAllFault {
    fn fmt<W: fmt::Write>(&self, f: &mut fmt::Formatter<W>) -> fmt::Result {
        f.write_str(match self {
            ReadAllFault::ReadFault => "ReadFault",
            ReadAllFault::TooLarge => "TooLarge",
            ReadAllFault::Memory => "Memory",
        })
    }
}

impl Error for ReadAllFault {}

impl From<AllocError> for ReadAllFault {
    ghost from_gives = { λ _ fault. fault ≡ Memory };

    fn from(_: AllocError) -> Self {
        ReadAllFault::Memory
    }
}

/// Reads a source to its end and gives all its bytes, which may be up to `limit`. `limit` is at most 67,108,864.
///
/// It answers `ReadFault` where a read failed, which was then the last, `TooLarge` where there are more bytes than
/// `limit`, and `Memory` where memory ran out, which is told of no read that failed and of no bytes past the limit.
/// After any of them the bytes that were taken are lost.
pub fn read_all<S: Source>(
    alloc: Global,
    source: &mut S,
    limit: usize,
) -> Result<Vec<u8>, ReadAllFault>
    requires { limit ≤ 67108864 }
    ensures ends { ReadsAll limit (S.left source.old) (S.left source.new) result }
    ensures later { S.faults source.old ≤ S.faults source.new }
    ensures cause { IsErrOf result ReadAllFault.ReadFault →
        RoseByOne (S.faults source.old) (S.faults source.new) }

    // No fault is passed over, or told as something else. With `cause`: after a failed read none is made.
    ensures told { ¬ IsErrOf result ReadAllFault.ReadFault →
        S.faults source.new ≡ S.faults source.old }

    // Each read but the last took a byte.
    ensures turns { S.reads source.new ≤ S.reads source.old + limit + 1 }
    ensures asked { AsksOncePerByte (S.left source.old) (S.left source.new)
        (S.reads source.old) (S.reads source.new) result }
{
    // The first `filled` were read, and behind them is room for more.
    let mut bytes = Vec::new(alloc);
    let mut filled = 0;
    loop {
        make_room(&mut bytes, filled, limit)?;
        match read_behind(source, bytes.as_mut_slice(), filled) {
            ReadOutcome::Took(count) => {
                filled += count;
                // Before more room is asked for, so that want of memory never stands for too many bytes.
                if filled > limit {
                    return Err(ReadAllFault::TooLarge);
                }
            }
            ReadOutcome::End => {
                bytes.truncate(filled);
                return Ok(bytes);
            }
            ReadOutcome::Failed => return Err(ReadAllFault::ReadFault),
        }
    }
}

/// Reads into the room behind the first bytes, and leaves those as they are.
fn read_behind<S: Source>(source: &mut S, bytes: &mut [u8], filled: usize) -> ReadOutcome
    requires { filled < length bytes.old }
    ensures kept { take filled bytes.new ≡ take filled bytes.old }
    ensures bytes { ReadTakes result (S.left source.old) (S.left source.new) (drop filled bytes.new) }
    ensures later { S.faults source.old ≤ S.faults source.new }
    ensures cause { result ≡ ReadOutcome.Failed → RoseByOne (S.faults source.old) (S.faults source.new) }
    ensures told { ¬ result ≡ ReadOutcome.Failed → S.faults source.new ≡ S.faults source.old }
    ensures asked { S.reads source.new ≤ S.reads source.old + 1 }
{
    let (_, room) = bytes.split_at_mut(filled);
    source.read(room)
}

/// Sees to it that there is room behind the first bytes, and leaves those as they are. There is never room for more
/// than one byte past the limit, which tells that there are too many.
fn make_room(bytes: &mut Vec<u8>, filled: usize, limit: usize) -> Result<(), AllocError>
    requires bounded { limit ≤ 67108864 }
    requires within { filled ≤ limit }
    requires room { (filled ≤ vec_len bytes.old) × (vec_len bytes.old ≤ limit + 1) }
    ensures kept { OnOk result (take filled bytes.new.items ≡ take filled bytes.old.items) }
    ensures room { OnOk result ((filled < length bytes.new.items) × (length bytes.new.items ≤ limit + 1)) }
{
    let len = bytes.len();
    if filled < len {
        return Ok(());
    }
    bytes.resize(grown(len, limit), 0)
}

/// The next length of the room: at first 64 KiB, then twice what it was, and one byte past the limit at most.
fn grown(len: usize, limit: usize) -> usize
    requires bounded { limit ≤ 67108864 }
    requires within { len ≤ limit }
    ensures more { len < result }
    ensures within { result ≤ limit + 1 }

    // What is asked for depends on what was read, and not on the limit.
    ensures sparing { result ≤ max 65536 (2 * (len + 1)) }
{
    if len >= limit / 2 {
        limit + 1
    } else {
        FIRST_ROOM.max(2 * len).min(limit + 1)
    }
}
