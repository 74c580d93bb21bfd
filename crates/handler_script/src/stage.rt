/// How far the acts of one operation on a field have come.
#[derive(Clone, Copy, Debug)]
pub(crate) enum Stage {
    /// At the operation, before the lock.
    Before,
    /// Past the lock, before burst mode.
    Opened,
    /// Byte `.0` is read next, and `.1` is the value so far.
    Reading(u8, u64),
    /// Byte `.0` is written next, or read where the write keeps bits of it.
    Writing(u8),
    /// Byte `.0` is written next, and was `.1`.
    Replacing(u8, u8),
    /// Past the bytes, before burst mode ends.
    Closing,
    /// Past burst mode, before the lock is given back.
    Unlocking,
    /// Past the operation.
    Done,
}

/// A stage within an operation, and the value that was read last.
#[derive(Clone, Copy, Debug)]
pub(crate) struct Place {
    pub stage: Stage,
    pub last: u64,
}
