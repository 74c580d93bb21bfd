ghost use Rattle.std.specs.Prelude.{◌≡◌};
ghost use Rattle.acpi_commands.specs.Run.{code_of, status_of};

use acpi_regs::Actor;
use machine_desc::BadMachine;
use machine_history::LogRule;
use machine_reader::{PathText, ReaderFault};

/// What a call of the program came to.
#[derive(Debug, Drop, PartialEq)]
pub enum Status {
    /// All was read, and all was written.
    Ok,
    /// The words are no command.
    Usage,
    /// The bytes of the source are no JSON text.
    NotJson,
    /// The value at this path has not the form that a description has there. It is the first such value.
    BadShape(PathText),
    /// The description breaks a rule of machines: the first.
    BadMachine(BadMachine),
    /// The machine's weight is this, which is above 1,048,576.
    TooLong(u64),
    /// A read of the source failed.
    ReadFault,
    /// A write to the sink failed.
    WriteFault,
    /// Memory ran out.
    Memory,
    /// The source gives more bytes than a description, or a log that is judged, may have.
    TooLarge,
    /// The log that is judged is not legal: this line, counted from 1, is the first that breaks a rule, and this is
    /// the rule.
    Illegal { line: u32, rule: LogRule },
    /// The log that is judged is legal and not complete: this actor, the first of them, has something left to do.
    Unfinished { actor: Actor },
    /// The bytes that are to be judged are no log's text: this line, counted from 1, is the first of no form that may
    /// stand there.
    BadLog(u32),
}

impl Status {
    /// The number with which the process ends.
    pub fn code(&self) -> u8
        ensures { result ≡ code_of self.now }
    {
        match self {
            Status::Ok => 0,
            Status::Usage => 2,
            Status::NotJson | Status::BadShape(_) | Status::BadMachine(_) => 3,
            Status::TooLong(_) => 4,
            Status::ReadFault => 5,
            Status::WriteFault => 6,
            Status::Memory => 7,
            Status::TooLarge => 9,
            Status::Illegal { .. } | Status::Unfinished { .. } => 8,
            Status::BadLog(_) => 10,
        }
    }
}

/// A fault of the reader of descriptions is the status of its name.
impl From<ReaderFault> for Status {
    fn from(fault: ReaderFault) -> Status
        ensures { result ≡ status_of fault }
    {
        match fault {
            ReaderFault::NotJson => Status::NotJson,
            ReaderFault::BadShape(path) => Status::BadShape(path),
            ReaderFault::BadMachine(bad) => Status::BadMachine(bad),
            ReaderFault::TooLong(weight) => Status::TooLong(weight),
            ReaderFault::Memory => Status::Memory,
        }
    }
}
