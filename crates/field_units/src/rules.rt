/// Whether an access of a field needs the Global Lock (ACPI 6.5, section 19.6.48).
#[derive(Clone, Copy, Debug, PartialEq, Eq)]
pub enum LockRule {
    /// It does.
    Lock,
    /// It does not.
    NoLock,
}

/// What becomes of the other bits of a byte when a field in it is written (ACPI 6.5, section 19.6.48).
#[derive(Clone, Copy, Debug, PartialEq, Eq)]
pub enum UpdateRule {
    /// They stay as they are.
    Preserve,
    /// They become ones.
    WriteAsOnes,
    /// They become zeros.
    WriteAsZeros,
}

/// The address space of a region: SystemMemory or EmbeddedControl (ACPI 6.5, section 5.5.2.4).
#[derive(Clone, Copy, Debug, PartialEq, Eq)]
pub enum RegionKind {
    /// Plain memory.
    Memory,
    /// The address space of the embedded controller.
    Controller,
}
