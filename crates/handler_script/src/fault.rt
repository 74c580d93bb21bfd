/// Why operations are no script, with the place of the operation, counted from 0.
#[derive(Clone, Copy, Debug, PartialEq, Eq)]
pub enum ScriptFault {
    /// A hold under a hold, a free without a hold, or a hold that is open at the end.
    Unbalanced(u16),
    /// It names no field.
    UnknownField(u16),
    /// A skip over no operation, over more than follow, or over a hold or a free.
    BadSkip(u16),
    /// A script of this side may not have the operation (raise, assert and push are the firmware's; notify, up and
    /// down the OS's), or the machine forbids it.
    NotAllowed(u16),
}
