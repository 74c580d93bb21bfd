/// Whether a turn added entries.
#[derive(Clone, Copy, Debug, PartialEq, Eq)]
pub enum Acted {
    /// It added some.
    Did,
    /// The journal is as it was.
    Nothing,
}

/// What became of a turn that was asked for.
#[derive(Clone, Copy, Debug, PartialEq, Eq)]
pub enum TurnOutcome {
    /// It was taken and given back.
    Done(Acted),
    /// Another actor had it.
    Out,
}
