use crate::PathText;
use crate::path::ShapeFault;
use machine_desc::{BadMachine, MachineError};

/// Why bytes were not read as a machine. The causes are tested in this order.
#[derive(Debug, Drop, PartialEq)]
pub enum ReaderFault {
    /// The bytes are no JSON text: not UTF-8, not of JSON's grammar, or nested deeper than 127.
    NotJson,
    /// The value at this path has not the form that a description has there. It is the first such value: an object or
    /// an array comes before what is in it, members come in the order of `specs/Shape.antt`, and elements in their own.
    BadShape(PathText),
    /// A rule of machines is broken: the first, as `machine_desc` orders them.
    BadMachine(BadMachine),
    /// Every rule is kept, and the machine's weight is this, which is above 1,048,576.
    TooLong(u64),
    /// Memory ran out.
    Memory,
}

impl From<ShapeFault> for ReaderFault {
    ghost use Rattle.std.specs.Prelude.{◌≡◌};
    ghost use Rattle.machine_reader.specs.Faults.{fault_of_shape};

    ghost from_gives = { λ f e. e ≡ fault_of_shape f };

    fn from(fault: ShapeFault) -> Self {
        match fault {
            ShapeFault::BadShape(path) => ReaderFault::BadShape(path),
            ShapeFault::Memory => ReaderFault::Memory,
        }
    }
}

impl From<MachineError> for ReaderFault {
    ghost use Rattle.std.specs.Prelude.{◌≡◌};
    ghost use Rattle.machine_reader.specs.Faults.{fault_of_rule};

    ghost from_gives = { λ f e. e ≡ fault_of_rule f };

    fn from(fault: MachineError) -> Self {
        match fault {
            MachineError::BadMachine(bad) => ReaderFault::BadMachine(bad),
            MachineError::Memory => ReaderFault::Memory,
        }
    }
}
