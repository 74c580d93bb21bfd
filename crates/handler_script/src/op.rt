use acpi_regs::Event;

/// One operation of a script. A field is named by its index in the description's `fields`.
///
/// An operation on a field that needs the Global Lock takes it first and gives it back, unless a hold is open. On two
/// or more bytes of the controller's space it stands in burst mode. A byte of which other bits are preserved is read
/// before it is written.
#[derive(Clone, Copy, Debug)]
pub enum Op {
    /// Read a field. What was read is the value that a skip tests.
    Read(u16),
    /// Write a value to a field, modulo 2 to the power of the field's width.
    Write(u16, u64),
    /// Read a field, and write to it what was read plus this number, modulo 2 to the power of the field's width. What
    /// was read is the value that a skip tests.
    Add(u16, u64),
    /// Unless the value read last, 0 at first, is `.0`, pass over the next `.1` operations.
    Skip(u64, u16),
    /// Take the Global Lock, and keep it over the operations that follow (ACPI 6.5, section 5.2.10.1).
    Hold,
    /// Give the Global Lock back.
    Free,
    /// Notify device object `.0` with value `.1` (ACPI 6.5, section 5.6.6). For scripts of the OS alone.
    Notify(u8, u8),
    /// Drop the line of a level event.
    Drop(Event),
    /// Count one more reference to an event. For scripts of the OS alone.
    Up(Event),
    /// Count one reference less to an event. For scripts of the OS alone.
    Down(Event),
    /// Raise an event. For scripts of the firmware alone.
    Raise(Event),
    /// Assert the line of a level event. For scripts of the firmware alone.
    Assert(Event),
    /// Put a query code into the controller's list. For scripts of the firmware alone.
    Push(u8),
}
